//! How far a stream is, and what is kept of it.
ghost use Rattle.std.specs.Prelude.{◌≡◌, false};

use crate::tracker::DictionaryTracker;
use ipc_format_batch_reading::columnar_memory::{Items, Schema};
use ipc_format_batch_reading::streams::metadata::IpcField;

/// A stream whose schema is written.
#[derive(Drop)]
pub(crate) struct Stream {
    pub(crate) schema: Schema,
    /// The ids of its dictionaries.
    pub(crate) ids: Items<IpcField>,
    /// The dictionaries that were told, each of which another may replace.
    pub(crate) tracker: DictionaryTracker,
    ghost replaces: { tracker.cannot_replace ≡ false },
}

/// How far a stream is.
#[derive(Drop)]
pub(crate) enum State {
    /// Nothing is written.
    Fresh,
    Started(Stream),
    /// Its end mark is written.
    Finished,
    /// The device failed.
    Broken,
}
