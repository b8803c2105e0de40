//! How many bytes elements of vectors have, and which version is written.

/// A reference.
pub const REFERENCE_SIZE: u8 = 4;

/// A number of four bytes.
pub const I32_SIZE: u8 = 4;

/// The structs `FieldNode` and `Buffer`.
pub const PAIR_SIZE: u8 = 16;

/// The struct `Block`, of which four bytes are padding.
pub const BLOCK_SIZE: u8 = 24;

/// The version that is written, by its number (enum `MetadataVersion`).
pub const V5: u16 = 4;
