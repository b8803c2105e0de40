//! How far a file is, and what is kept of it.
ghost use Rattle.std.specs.Prelude.{◌≡◌, true};

use ipc_format_readers::chunk_writing::DictionaryTracker;
use ipc_format_readers::streams::messages::Block;

/// What is written of a file behind its schema.
#[derive(Drop)]
pub(crate) struct Progress {
    /// The dictionaries that were told, none of which another replaces.
    pub(crate) tracker: DictionaryTracker,
    /// Where the next message stands, counted from the file's first byte.
    pub(crate) place: u64,
    /// How many bytes the file had before it was added to; a new one had none.
    pub(crate) size: u64,
    /// Where the messages of dictionaries stand.
    pub(crate) dictionaries: Vec<Block>,
    /// Where those of batches do.
    pub(crate) record_batches: Vec<Block>,
    ghost replaces: { tracker.cannot_replace ≡ true },
}

/// How far a file is.
#[derive(Drop)]
pub(crate) enum State {
    /// Nothing is written.
    Fresh,
    Started(Progress),
    /// Its footer is written.
    Finished,
    /// The device failed.
    Broken,
}
