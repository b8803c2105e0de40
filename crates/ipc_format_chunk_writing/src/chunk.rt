//! Batches of arrays as messages (Arrow IPC, "RecordBatch message", "Dictionary Messages").
ghost use Rattle.std.specs.Prelude.{◌≡◌};
ghost use Rattle.ipc_format_batch_reading.specs.grammar.WrittenStreams.{batch_of_stored};
ghost use Rattle.ipc_format_batch_reading.specs.metadata.Views.{ids_views};
ghost use Rattle.ipc_format_chunk_writing.specs.EncodedChunks.{Encodes, EncodesBoth, EncodesChunk, dictionaries_in, message_in};
ghost use Rattle.ipc_format_chunk_writing.specs.Tracking.{tracked};

use crate::fitting::ids_fit_columns;
use crate::found::dictionaries_of;
use crate::messages::{encode_dictionaries, encode_record};
use crate::options::WriteOptions;
use crate::telling::tell;
use crate::tracker::DictionaryTracker;
use columnar_memory_types::{Error, Result};
use ipc_format_batch_reading::nested_arrays_core::AnyArray;
use ipc_format_batch_reading::{Chunk, EncodedData, IpcField};
use std::alloc::Global;

/// The messages of a batch of arrays: those of the dictionaries that are to be written before it are answered, and its own takes the place of
/// what `encoded` held. Ids are taken as they stand: a dictionary without one has the id 0.
///
/// # Errors
/// Refused, the tracker is as it was, and `encoded` holds anything.
/// - `InvalidArgumentError`: two dictionaries of one id differ, or one would take the place of another and the tracker replaces none.
/// - `Overflow`: a node is past 2^63 - 1, or a message past its limit.
/// - `OutOfMemory`: there was no memory for the messages or for what the tracker holds.
pub fn encode_batch(
    alloc: Global,
    chunk: &Chunk<AnyArray>,
    fields: &[IpcField],
    tracker: &mut DictionaryTracker,
    encoded: &mut EncodedData,
) -> Result<Vec<EncodedData>>
    ensures { Encodes (tracked tracker.old) (tracked tracker.new) (batch_of_stored (ids_views fields.now) chunk.now) (dictionaries_in result)
        (message_in encoded.new) }
{
    let found = dictionaries_of(alloc, chunk.arrays(), fields)?;
    let mut told = tracker.copy()?;
    let sent = tell(alloc, &found, &mut told)?;
    let dictionaries = encode_dictionaries(alloc, &sent)?;
    encode_record(alloc, chunk.len() as u64, chunk.arrays(), encoded)?;
    tracker.dictionaries = told.dictionaries;
    Ok(dictionaries)
}

/// The messages of a batch of arrays, as `encode_chunk` encodes them: those of dictionaries are answered, and the batch's own takes the place of
/// what `encoded_message` held.
///
/// # Errors
/// Those of `encode_chunk`. Refused, the tracker is as it was, and `encoded_message` holds anything.
pub fn encode_chunk_amortized(
    alloc: Global,
    chunk: &Chunk<AnyArray>,
    fields: &[IpcField],
    tracker: &mut DictionaryTracker,
    options: &WriteOptions,
    encoded_message: &mut EncodedData,
) -> Result<Vec<EncodedData>>
    ensures { EncodesChunk options.now.compression (tracked tracker.old) (tracked tracker.new) (ids_views fields.now) chunk.now
        (dictionaries_in result) (message_in encoded_message.new) }
{
    if options.compression.is_some() {
        return Err(Error::NotYetImplemented("compression of buffers"));
    }
    if !ids_fit_columns(chunk.arrays(), fields) {
        return Err(Error::InvalidArgumentError("dictionary ids that do not fit the columns"));
    }
    encode_batch(alloc, chunk, fields, tracker, encoded_message)
}

/// The messages of a batch of arrays (Arrow IPC, "RecordBatch message", "Dictionary Messages"): those of the dictionaries that go before it, and
/// its own. A dictionary is written where its type, in its one form, or its slots differ from those of the last one under its id, or where it is
/// the first, and those within its values before it. The tracker is told of these.
///
/// # Errors
/// Refused, the tracker is as it was.
/// - `NotYetImplemented`: a compression is given.
/// - `InvalidArgumentError`: the ids don't fit the columns' types, two dictionaries of one id differ, or one would take the place of another and
///   the tracker replaces none.
/// - `Overflow`: a node is past 2^63 - 1, a body has 2^63 bytes or more, or with its prefix of 8 bytes a message's metadata would have more than
///   2,147,483,640 bytes.
/// - `OutOfMemory`: there was no memory for the messages or for what the tracker holds.
pub fn encode_chunk(
    alloc: Global,
    chunk: &Chunk<AnyArray>,
    fields: &[IpcField],
    tracker: &mut DictionaryTracker,
    options: &WriteOptions,
) -> Result<(Vec<EncodedData>, EncodedData)>
    ensures { EncodesBoth options.now.compression (tracked tracker.old) (tracked tracker.new) (ids_views fields.now) chunk.now result }
{
    let mut encoded = EncodedData::new(alloc);
    let dictionaries = encode_chunk_amortized(
        alloc,
        chunk,
        fields,
        tracker,
        options,
        &mut encoded,
    )?;
    Ok((dictionaries, encoded))
}
