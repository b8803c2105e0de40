//! The schema with which a file begins.
ghost use Rattle.ipc_format_readers.specs.chunk_writing.metadata.Views.{ids_views};
ghost use Rattle.ipc_format.specs.FileOpening.{OpensFile};

use crate::state::Progress;
use ipc_format_readers::chunk_writing::{DictionaryTracker, all_are_ids};
use ipc_format_readers::streams::EncodedData;
use ipc_format_readers::streams::columnar_memory::{Result, Schema};
use ipc_format_readers::streams::metadata::IpcField;
use ipc_format_readers::streams::owned::writing::schema_to_bytes;
use std::alloc::Global;

/// How many bytes stand before the first message's metadata: the mark with two zeros, and the message's prefix.
const BEFORE_METADATA: u64 = 16;

/// The message of a schema with some ids, and what is written behind it: nothing.
///
/// # Errors
/// - `NotYetImplemented`: a field of floating-point numbers stands in the schema.
/// - `InvalidArgumentError`: the schema is none that is written, or the ids are not those of its dictionaries.
/// - `Overflow`: with its prefix of 8 bytes the metadata would have more than 2,147,483,640 bytes.
/// - `OutOfMemory`: there was no memory for the metadata.
pub(crate) fn open(
    alloc: Global,
    schema: &Schema,
    ids: &[IpcField],
) -> Result<(Progress, EncodedData)>
    ensures { OpensFile result schema.now (ids_views ids.now) }
{
    let metadata = schema_to_bytes(alloc, schema, ids)?;
    all_are_ids(ids);
    let progress = Progress {
        tracker: DictionaryTracker::new(alloc, true),
        place: BEFORE_METADATA + metadata.len() as u64,
        size: 0,
        dictionaries: Vec::new(alloc),
        record_batches: Vec::new(alloc),
    };
    let message = EncodedData {
        ipc_message: metadata,
        arrow_data: Vec::new(alloc),
    };
    Ok((progress, message))
}
