//! Where the messages of a file stand (Arrow IPC, "IPC File Format"; File.fbs).
ghost use Rattle.std.specs.Prelude.{◌+◌, ◌<◌, ◌^◌};

/// Where a message stands.
#[derive(Clone, Copy, Debug)]
pub struct MessageBlock {
    /// The place of the message in the file.
    pub offset: usize,
    /// How many bytes stand before the message's body, as they are stated.
    pub metadata_length: usize,
    /// How many bytes the body has, as they are stated.
    pub body_length: i64,
    pub ghost fits: { offset + metadata_length < 2 ^ 64 },
    pub ghost short: { metadata_length < 2 ^ 31 },
}
