//! How batches are written.
ghost use Rattle.std.specs.Prelude.{◌≡◌, None};

use ipc_format_batch_reading::Compression;

/// How the bodies of batches are written (Arrow IPC, "Compression").
#[derive(Clone, Copy, PartialEq, Eq, Hash, Debug)]
pub struct WriteOptions {
    /// How the buffers are compressed. A writer that is told to compress refuses each batch as not implemented.
    pub compression: Option<Compression>,
}

impl WriteOptions {
    /// No compression.
    pub fn new() -> WriteOptions
        ensures { result.compression ≡ None }
    {
        WriteOptions { compression: None }
    }
}

impl Default for WriteOptions {
    fn default() -> WriteOptions
        ensures { result.compression ≡ None }
    {
        WriteOptions::new()
    }
}
