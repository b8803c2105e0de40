//! Batches that are encoded and placed in a file.
ghost use Rattle.ipc_format_readers.specs.chunk_writing.EncodedChunks.{dictionaries_in, message_in};
ghost use Rattle.ipc_format_readers.specs.chunk_writing.metadata.Views.{ids_views};
ghost use Rattle.ipc_format.specs.Adding.{AddsBatch};
ghost use Rattle.ipc_format.specs.FilePhases.{progress_of};

use crate::state::Progress;
use ipc_format_readers::chunk_writing::nested_arrays_core::AnyArray;
use ipc_format_readers::chunk_writing::{Chunk, encode};
use ipc_format_readers::streams::EncodedData;
use ipc_format_readers::streams::columnar_memory::{Result, Schema};
use ipc_format_readers::streams::metadata::IpcField;
use std::alloc::Global;

/// The messages of a batch with some ids, behind what is written of a file: those of dictionaries are answered, and its own takes the place of
/// what `encoded` held.
///
/// # Errors
/// Refused, nothing is told and nothing placed.
/// - `InvalidArgumentError`: the batch doesn't belong to the schema, the ids are none of it, two dictionaries of one id differ, or one from an
///   earlier one; or an array, at some depth, is longer than arrays may be.
/// - `Overflow`: a message is past its limit, or the place behind the messages past 2^63 - 1, or more than 65,536 messages of dictionaries would
///   stand in the file.
/// - `OutOfMemory`: there was no memory for the messages, for what is told, or for the blocks.
pub(crate) fn add_batch(
    alloc: Global,
    schema: &Schema,
    ids: &[IpcField],
    file: &mut Progress,
    columns: &Chunk<AnyArray>,
    encoded: &mut EncodedData,
) -> Result<Vec<EncodedData>>
    ensures { AddsBatch schema.now (progress_of file.old) (progress_of file.new) (ids_views ids.now) columns.now (dictionaries_in result)
        (message_in encoded.new) }
{
    let mut told = file.tracker.copy()?;
    let dictionaries = encode(alloc, schema, ids, &mut told, columns, encoded)?;
    file.place_batch(alloc, &dictionaries, encoded)?;
    file.tracker = told;
    Ok(dictionaries)
}
