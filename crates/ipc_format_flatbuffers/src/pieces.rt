//! Objects that are laid already.
ghost use Rattle.std.specs.Prelude.{◌<◌, ◌≤◌, ◌^◌, length};

/// An object with everything that it refers to, laid from a multiple of 8 on.
#[derive(Debug, Drop)]
pub struct Laid {
    /// The object's bytes, and behind them those of what it refers to.
    pub bytes: Vec<u8>,
    /// Where in the bytes references to the object point.
    pub entry: usize,
    pub ghost bytes_in_reach: { length bytes.items < 2 ^ 31 },
    pub ghost entry_in_bytes: { entry ≤ length bytes.items },
}
