//! What is encoded of a stream: its schema, and batches behind it.
ghost use Rattle.std.specs.Prelude.{◌≡◌, false, true, MatchResult};
ghost use Rattle.std.specs.List.{list_all};
ghost use Rattle.ipc_format_chunk_writing.specs.EncodedChunks.{dictionaries_in, message_in};
ghost use Rattle.ipc_format_chunk_writing.specs.Tracking.{tracked};
ghost use Rattle.ipc_format_batch_reading.specs.columnar_memory.Error.{IsOutOfMemory};
ghost use Rattle.ipc_format_batch_reading.specs.columns.SoundColumns.{is_sound};
ghost use Rattle.ipc_format_batch_reading.specs.grammar.Ids.{all_are_ids, are_ids, is_id};
ghost use Rattle.ipc_format_batch_reading.specs.metadata.Views.{ids_view, ids_views};
ghost use Rattle.ipc_format_chunk_writing.specs.Opening.{Opens, ids_given};
ghost use Rattle.ipc_format_chunk_writing.specs.Streams.{Admits, EncodesBatch, have_forms};

use crate::chunk::encode_batch;
use crate::short::are_short;
use crate::state::Stream;
use crate::tracker::DictionaryTracker;
use crate::types::have_one_form;
use ipc_format_batch_reading::Chunk;
use ipc_format_batch_reading::columnar_memory::{Error, Field, Items, Result, Schema};
use ipc_format_batch_reading::nested_arrays_core::AnyArray;
use ipc_format_batch_reading::streams::EncodedData;
use ipc_format_batch_reading::streams::metadata::IpcField;
use ipc_format_batch_reading::streams::owned::writing::{
    default_ipc_fields, ids_fit, schema_to_bytes,
};
use std::alloc::Global;

/// The ids that are given, or numbers from 0 on.
pub fn ids_or_default(
    alloc: Global,
    schema: &Schema,
    ipc_fields: Option<Vec<IpcField>>,
) -> Result<Vec<IpcField>>
    ensures { MatchResult result (λ ids. ids_views ids.items ≡ ids_given schema.now ipc_fields) IsOutOfMemory }
{
    match ipc_fields {
        Some(fields) => Ok(fields),
        None => default_ipc_fields(alloc, schema.fields.as_slice()),
    }
}

/// A stream of a schema with some ids, and the message of the schema.
///
/// # Errors
/// - `NotYetImplemented`: a field of floating-point numbers stands in the schema.
/// - `InvalidArgumentError`: the schema is none that is written, or the ids are not those of its dictionaries.
/// - `Overflow`: with its prefix of 8 bytes the metadata would have more than 2,147,483,640 bytes.
/// - `OutOfMemory`: there was no memory for the metadata or for what is kept.
pub(crate) fn open(
    alloc: Global,
    schema: &Schema,
    ipc_fields: Option<Vec<IpcField>>,
) -> Result<(Stream, EncodedData)>
    ensures { Opens result schema.now (ids_given schema.now ipc_fields) }
{
    let ids = ids_or_default(alloc, schema, ipc_fields)?;
    let metadata = schema_to_bytes(alloc, schema, ids.as_slice())?;
    all_are_ids(ids.as_slice());
    let stream = Stream {
        schema: schema.clone()?,
        ids: Items::from_vec(ids),
        tracker: DictionaryTracker::new(alloc, false),
    };
    let message = EncodedData {
        ipc_message: metadata,
        arrow_data: Vec::new(alloc),
    };
    Ok((stream, message))
}

/// Hands to a proof that what an id is, is a signed number of eight bytes.
fn is_id(own: Option<i64>)
    ensures { is_id own ≡ true }
{}

/// Hands to a proof that ids are signed numbers of eight bytes, at every depth.
#[cycle(ids)]
fn are_ids(field: &IpcField)
    ensures { are_ids (ids_view field.now) ≡ true }
{
    is_id(field.dictionary_id);
    all_are_ids(field.fields.as_slice());
}

/// The same of several.
#[cycle(ids)]
pub fn all_are_ids(fields: &[IpcField])
    ensures { all_are_ids (ids_views fields.now) ≡ true }
{
    for field in fields {
        are_ids(field);
    }
}

/// Hands to a proof that each array is sound.
fn are_whole(arrays: &[AnyArray])
    ensures { list_all is_sound arrays.now ≡ true }
{
    for array in arrays {
        array.whole();
    }
}

/// Whether there are as many arrays as fields, each of a type of the one form of its field's type.
fn have_forms(alloc: Global, fields: &[Field], arrays: &[AnyArray]) -> Result<bool>
    ensures { MatchResult result (λ answer. answer ≡ have_forms fields.now arrays.now) IsOutOfMemory }
{
    if fields.len() != arrays.len() {
        return Ok(false);
    }
    for k in 0..fields.len() {
        if !have_one_form(alloc, arrays[k].data_type(), &fields[k].data_type)? {
            return Ok(false);
        }
    }
    Ok(true)
}

/// Tests that a batch belongs to a schema with some ids.
///
/// # Errors
/// - `InvalidArgumentError`: the ids are none of the schema, the batch doesn't belong to it, or an array, at some depth, is longer than arrays
///   may be.
/// - `OutOfMemory`: there was no memory for the types in their one form.
fn admit(alloc: Global, schema: &Schema, ids: &[IpcField], chunk: &Chunk<AnyArray>) -> Result<()>
    ensures { Admits result schema.now (ids_views ids.now) chunk.now }
{
    let arrays = chunk.arrays();
    chunk.whole();
    are_whole(arrays);
    if !ids_fit(schema.fields.as_slice(), ids) {
        return Err(Error::InvalidArgumentError("dictionary ids that do not fit the schema"));
    }
    if !are_short(arrays) {
        return Err(Error::InvalidArgumentError("an array of 2^63 slots or more"));
    }
    if !have_forms(alloc, schema.fields.as_slice(), arrays)? {
        return Err(Error::InvalidArgumentError("columns that are not those of the schema"));
    }
    Ok(())
}

/// The messages of a batch with some ids: those of dictionaries are answered, and its own takes the place of what `encoded` held.
///
/// # Errors
/// Refused, nothing is told.
/// - `InvalidArgumentError`: the batch doesn't belong to the schema, the ids are none of it, two dictionaries of one id differ, or an array, at some
///   depth, is longer than arrays may be.
/// - `Overflow`: a message is past its limit.
/// - `OutOfMemory`: there was no memory for the messages or for what is told.
pub fn encode(
    alloc: Global,
    schema: &Schema,
    ids: &[IpcField],
    tracker: &mut DictionaryTracker,
    chunk: &Chunk<AnyArray>,
    encoded: &mut EncodedData,
) -> Result<Vec<EncodedData>>
    ensures { EncodesBatch schema.now (tracked tracker.old) (tracked tracker.new) (ids_views ids.now) chunk.now (dictionaries_in result)
        (message_in encoded.new) }
{
    admit(alloc, schema, ids, chunk)?;
    encode_batch(alloc, chunk, ids, tracker, encoded)
}
