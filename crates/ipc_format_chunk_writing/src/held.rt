//! What is owned or borrowed.

/// A value, or a reference to one.
#[derive(Debug, Drop)]
pub enum Held<O, B> {
    Owned(O),
    Borrowed(B),
}
