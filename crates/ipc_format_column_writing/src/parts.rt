//! Which slots of an array are written.

/// Slots of an array, one after another: all, or from one slot on so many.
#[derive(Clone, Copy)]
pub(crate) enum Part {
    All,
    Range(usize, usize),
}
