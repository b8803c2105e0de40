//! What a message of a stream says to its reader (Arrow IPC, "RecordBatch message", "Dictionary Messages").
ghost use Rattle.std.specs.Prelude.{◌≡◌, length};
ghost use Rattle.std.specs.Option.{ForSome, option_copied};
ghost use Rattle.ipc_format_chunk_writing.specs.BatchReads.{IsProjection};
ghost use Rattle.ipc_format_chunk_writing.specs.ReadArrays.{standing_in};
ghost use Rattle.ipc_format_chunk_writing.specs.flatbuffers.Views.{table_of};
ghost use Rattle.ipc_format_chunk_writing.specs.messages.MessageViews.{version_view};
ghost use Rattle.ipc_format_chunk_writing.specs.metadata.Views.{ids_views};
ghost use Rattle.ipc_format_chunk_writing.specs.NamedValues.{AreValuesOf};
ghost use Rattle.ipc_format_readers.specs.Hearing.{Hears, HearsColumns, HearsDictionary};

use ipc_format_chunk_writing::columnar_memory::{Error, Field, Result};
use ipc_format_chunk_writing::nested_arrays_core::AnyArray;
use ipc_format_chunk_writing::streams::messages::{
    DictionaryBatchRef, MessageHeaderRef, MetadataVersion, RecordBatchRef, message_in,
};
use ipc_format_chunk_writing::streams::metadata::IpcSchema;
use ipc_format_chunk_writing::{
    Chunk, Dictionaries, InMemory, ValuesById, read_dictionary_with, read_record_batch,
};
use std::alloc::Global;

/// How many dictionary messages stand in a row at most.
const MOST_DICTIONARIES: usize = 65536;

/// Reads a message: of a dictionary, which stands from then on, nothing, and of a record batch the columns, all or those that are asked for, which
/// rise. `in_a_row` is how many dictionary messages came directly before it. `known` has the values of each id, where they were found.
///
/// # Errors
/// - `OutOfSpec`: the metadata is of a schema, or of no message; too many dictionaries came in a row; or what the message says is refused (as
///   `read_dictionary` and `read_record_batch` do).
/// - `NotYetImplemented`: its buffers are compressed, or it adds to an earlier dictionary.
/// - `OutOfMemory`: there was no memory for what is read.
pub(crate) fn read_message(
    alloc: Global,
    metadata: &[u8],
    body: &[u8],
    fields: &[Field],
    ipc_schema: &IpcSchema,
    known: Option<&ValuesById>,
    version: MetadataVersion,
    columns: Option<&[usize]>,
    dictionaries: &mut Dictionaries,
    in_a_row: usize,
    scratch: &mut Vec<u8>,
) -> Result<Option<Chunk<AnyArray>>>
    requires asked { IsProjection (length fields.now) (option_copied columns) }
    requires known { ForSome (option_copied known) (AreValuesOf fields.now (ids_views ipc_schema.now.fields)) }
    ensures { Hears (option_copied columns.entry) (record {
      fields = fields.now;
      below = ids_views ipc_schema.now.fields;
      is_little_endian = ipc_schema.now.is_little_endian;
    }) (version_view version) (standing_in dictionaries.old)
        (standing_in dictionaries.new) in_a_row metadata.now body.now result }
{
    let Some(message) = message_in(metadata) else {
        return Err(Error::OutOfSpec("InvalidFlatbufferMessage"));
    };
    match message.header {
        MessageHeaderRef::Schema(_) => Err(Error::OutOfSpec("UnexpectedMessageType")),
        MessageHeaderRef::DictionaryBatch(batch) => {
            if in_a_row >= MOST_DICTIONARIES {
                return Err(Error::OutOfSpec("more than 65,536 dictionaries in a row"));
            }
            take_dictionary(
                alloc,
                &batch,
                body,
                fields,
                ipc_schema,
                known,
                version,
                dictionaries,
                scratch,
            )?;
            Ok(None)
        }
        MessageHeaderRef::RecordBatch(batch) => {
            let chunk = columns_of(
                alloc,
                &batch,
                body,
                fields,
                ipc_schema,
                version,
                columns,
                dictionaries,
                scratch,
            )?;
            Ok(Some(chunk))
        }
    }
}

/// Puts the dictionary of a message among those that stand.
///
/// # Errors
/// As of `read_dictionary`.
fn take_dictionary(
    alloc: Global,
    batch: &DictionaryBatchRef<'_>,
    body: &[u8],
    fields: &[Field],
    ipc_schema: &IpcSchema,
    known: Option<&ValuesById>,
    version: MetadataVersion,
    dictionaries: &mut Dictionaries,
    scratch: &mut Vec<u8>,
) -> Result<()>
    requires { ForSome (option_copied known) (AreValuesOf fields.now (ids_views ipc_schema.now.fields)) }
    ensures { HearsDictionary (record {
      fields = fields.now;
      below = ids_views ipc_schema.now.fields;
      is_little_endian = ipc_schema.now.is_little_endian;
    }) (version_view version) (standing_in dictionaries.old)
        (standing_in dictionaries.new) batch.now.table.bytes.now (table_of batch.now.table.place) body.now result }
{
    let mut room = InMemory { bytes: body };
    read_dictionary_with(
        alloc,
        batch,
        fields,
        ipc_schema,
        known,
        dictionaries,
        version,
        &mut room,
        0,
        body.len() as u64,
        scratch,
    )
}

/// The columns of a message's record batch: all, or those that are asked for, which rise.
///
/// # Errors
/// As of `read_record_batch`.
fn columns_of(
    alloc: Global,
    batch: &RecordBatchRef<'_>,
    body: &[u8],
    fields: &[Field],
    ipc_schema: &IpcSchema,
    version: MetadataVersion,
    columns: Option<&[usize]>,
    dictionaries: &Dictionaries,
    scratch: &mut Vec<u8>,
) -> Result<Chunk<AnyArray>>
    requires { IsProjection (length fields.now) (option_copied columns) }
    ensures { HearsColumns (option_copied columns.entry) (record {
      fields = fields.now;
      below = ids_views ipc_schema.now.fields;
      is_little_endian = ipc_schema.now.is_little_endian;
    }) (version_view version) (standing_in dictionaries.now)
        batch.now.table.bytes.now (table_of batch.now.table.place) body.now result }
{
    let mut room = InMemory { bytes: body };
    read_record_batch(
        alloc,
        batch,
        fields,
        ipc_schema,
        columns,
        None,
        dictionaries,
        version,
        &mut room,
        0,
        body.len() as u64,
        scratch,
    )
}
