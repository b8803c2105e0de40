//! The messages behind a stream's schema.
ghost use Rattle.std.specs.Prelude.{◌≡◌, ◌<◌, ◌^◌, map, IfOk, true};
ghost use Rattle.ipc_format.specs.BatchReads.{entry_in};
ghost use Rattle.ipc_format.specs.DictionaryReads.{is_unread};
ghost use Rattle.ipc_format.specs.Readable.{HasArrays};
ghost use Rattle.ipc_format.specs.columns.StoredColumns.{slots};
ghost use Rattle.ipc_format.specs.Views.{table_of};
ghost use Rattle.ipc_format.specs.Messages.{dictionary_batch, record_batch};
ghost use Rattle.ipc_format.specs.Dictionaries.{dictionary_in};
ghost use Rattle.ipc_format.specs.Tables.{batch_in};
ghost use Rattle.ipc_format.specs.MessageViews.{version_view};
ghost use Rattle.ipc_format.specs.metadata.Reading.{Reads};
ghost use Rattle.ipc_format.specs.streams.Queues.{is_compressed};
ghost use Rattle.ipc_format.specs.NamedValues.{AreValuesOf};
ghost use Rattle.ipc_format.specs.metadata.Views.{ids_views};
ghost use Rattle.ipc_format.specs.ReadArrays.{standing_in};
ghost use Rattle.tables_chunks.specs.Messages.{AreOfFields, ReadsNext, TakesDictionary, layout_by};

use ipc_format::columnar_memory::{Error, Field, Result};
use ipc_format::format::{DictionaryBatchRef, MessageHeaderRef, MetadataVersion, RecordBatchRef};
use ipc_format::metadata::IpcSchema;
use ipc_format::nested_arrays_core::AnyArray;
use ipc_format::streams::{NextMessage, next_at};
use ipc_format::{
    Chunk, Dictionaries, InMemory, ValuesById, read_dictionary_with, read_record_batch,
};
use std::alloc::Global;

/// So many messages of dictionaries may stand in a row.
const MOST_DICTIONARIES: usize = 65536;

/// A message after the first, or how the stream ends there.
#[derive(Drop)]
pub(crate) enum Next {
    /// Fewer than four bytes are left.
    Truncated,
    End,
    /// A dictionary, which stands from here on, and where the next message stands.
    Dictionary(usize),
    /// A batch, and where the next message stands.
    Rows(Chunk<AnyArray>, usize),
}

/// The columns of a record batch, whose buffers stand in the body of its message.
///
/// # Errors
/// - `OutOfSpec`: the format gives no columns.
/// - `NotYetImplemented`: the batch is compressed.
/// - `OutOfMemory`: there was no memory for them.
fn batch_of(
    alloc: Global,
    header: &RecordBatchRef<'_>,
    body: &[u8],
    fields: &[Field],
    ipc_schema: &IpcSchema,
    version: MetadataVersion,
    dictionaries: &Dictionaries,
    scratch: &mut Vec<u8>,
) -> Result<Chunk<AnyArray>>
    requires { HasArrays (layout_by fields.now ipc_schema.now) }
    ensures value { Reads (map slots) (is_compressed header.now.table.bytes.now (table_of header.now.table.place) ≡ true) result
        (batch_in (layout_by fields.now ipc_schema.now) (standing_in dictionaries.now)
        (entry_in header.now.table.bytes.now (record_batch (table_of header.now.table.place)) (version_view version) 0 body.now)
        (table_of header.now.table.place)) }
    ensures fields { IfOk result (AreOfFields fields.now) }
{
    let mut room = InMemory { bytes: body };
    let chunk = read_record_batch(
        alloc,
        header,
        fields,
        ipc_schema,
        None,
        None,
        dictionaries,
        version,
        &mut room,
        0,
        body.len() as u64,
        scratch,
    )?;
    chunk.whole();
    Ok(chunk)
}

/// Reads a dictionary, whose buffers stand in the body of its message: it then stands under its id.
///
/// # Errors
/// - `OutOfSpec`: the format gives no dictionary.
/// - `NotYetImplemented`: the dictionary adds to an earlier one, or is compressed.
/// - `OutOfMemory`: there was no memory for its values.
fn take_dictionary(
    alloc: Global,
    header: &DictionaryBatchRef<'_>,
    body: &[u8],
    fields: &[Field],
    ipc_schema: &IpcSchema,
    known: &ValuesById,
    version: MetadataVersion,
    dictionaries: &mut Dictionaries,
    scratch: &mut Vec<u8>,
) -> Result<()>
    requires arrays { HasArrays (layout_by fields.now ipc_schema.now) }
    requires known { AreValuesOf fields.now (ids_views ipc_schema.now.fields) known.now }
    ensures { TakesDictionary (standing_in dictionaries.old) (standing_in dictionaries.new)
        (is_unread header.now.table.bytes.now (table_of header.now.table.place) ≡ true)
        (dictionary_in (layout_by fields.now ipc_schema.now) (standing_in dictionaries.old)
        (entry_in header.now.table.bytes.now (dictionary_batch (table_of header.now.table.place)) (version_view version) 0 body.now)
        (table_of header.now.table.place)) result }
{
    let mut room = InMemory { bytes: body };
    read_dictionary_with(
        alloc,
        header,
        fields,
        ipc_schema,
        Some(known),
        dictionaries,
        version,
        &mut room,
        0,
        body.len() as u64,
        scratch,
    )
}

/// Reads the message at a place, behind `in_a_row` messages of dictionaries that follow one another. `fields` are those of the normalised schema,
/// `known` has the values that each id names in them, and `version` is that of the schema's message, by which unions lie.
///
/// # Errors
/// - `OutOfSpec`: the bytes there are no batch and no dictionary of the schema, or too many dictionaries in a row.
/// - `NotYetImplemented`: the message is compressed, or adds to an earlier dictionary.
/// - `OutOfMemory`: there was no memory for what is read.
pub(crate) fn read_next(
    alloc: Global,
    bytes: &[u8],
    place: usize,
    in_a_row: usize,
    fields: &[Field],
    ipc_schema: &IpcSchema,
    known: &ValuesById,
    version: MetadataVersion,
    dictionaries: &mut Dictionaries,
    scratch: &mut Vec<u8>,
) -> Result<Next>
    requires arrays { HasArrays (layout_by fields.now ipc_schema.now) }
    requires known { AreValuesOf fields.now (ids_views ipc_schema.now.fields) known.now }
    ensures { ReadsNext fields.now (layout_by fields.now ipc_schema.now) (version_view version) (standing_in dictionaries.old)
        (standing_in dictionaries.new) bytes.now place in_a_row result }
{
    let (framed, after) = match next_at(bytes, place) {
        None => return Err(Error::OutOfSpec("InvalidFlatbufferMessage")),
        Some(NextMessage::Truncated) => return Ok(Next::Truncated),
        Some(NextMessage::End) => return Ok(Next::End),
        Some(NextMessage::Message(framed, after)) => (framed, after),
    };
    match framed.header {
        MessageHeaderRef::Schema(_) => Err(Error::OutOfSpec("UnexpectedMessageType")),
        MessageHeaderRef::DictionaryBatch(header) => {
            if in_a_row >= MOST_DICTIONARIES {
                return Err(Error::OutOfSpec("too many dictionaries in a row"));
            }
            take_dictionary(
                alloc,
                &header,
                framed.body,
                fields,
                ipc_schema,
                known,
                version,
                dictionaries,
                scratch,
            )?;
            Ok(Next::Dictionary(after))
        }
        MessageHeaderRef::RecordBatch(header) => {
            let chunk = batch_of(
                alloc,
                &header,
                framed.body,
                fields,
                ipc_schema,
                version,
                dictionaries,
                scratch,
            )?;
            Ok(Next::Rows(chunk, after))
        }
    }
}
