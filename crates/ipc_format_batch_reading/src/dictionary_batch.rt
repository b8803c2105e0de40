//! Dictionary batches.
ghost use Rattle.std.specs.Prelude.{◌≡◌, IfOk, None, option_copied, false};
ghost use Rattle.std.specs.Option.{ForSome};
ghost use Rattle.ipc_format_reading.specs.Below.{no_own_ids};
ghost use Rattle.ipc_format_reading.specs.array_reading.ReadArrays.{at_front, dictionary_of, standing_in};
ghost use Rattle.ipc_format_reading.specs.Rooms.{ReadsAs};
ghost use Rattle.ipc_format_reading.specs.flatbuffers.Views.{table_of};
ghost use Rattle.ipc_format_reading.specs.grammar.Messages.{dictionary_batch};
ghost use Rattle.ipc_format_reading.specs.grammar.Schemas.{ids};
ghost use Rattle.ipc_format_reading.specs.messages.MessageViews.{version_view};
ghost use Rattle.ipc_format_reading.specs.metadata.Views.{ids_view, ids_views};
ghost use Rattle.ipc_format_reading.specs.array_reading.column_writing.column_reading.column_bytes.streams.Queues.{is_compressed};
ghost use Rattle.ipc_format_batch_reading.specs.BatchReads.{entry_in, sized};
ghost use Rattle.ipc_format_batch_reading.specs.NamedValues.{AreValuesOf};
ghost use Rattle.ipc_format_batch_reading.specs.DictionaryReads.{ReadsDictionary, dictionary_array, is_unread, placed_dictionary, stated_dictionary};

use crate::named_values::{ValuesById, copied_ids, known_values};
use ipc_format_reading::columnar_memory::{DataType, Error, Field, Result, Text};
use ipc_format_reading::nested_arrays_core::AnyArray;
use ipc_format_reading::{
    Buffer, Dictionaries, DictionaryBatchRef, FieldNode, IpcField, IpcSchema, MetadataVersion,
    RecordBatchRef, Room, batch_queues, dictionary_batch_in, read,
};
use std::alloc::{AllocError, Global};
use std::collections::VecDeque;

/// A field without a name of a data type.
fn field_of(alloc: Global, data_type: &DataType) -> std::result::Result<Field, AllocError>
    ensures { IfOk result (λ field. field.data_type ≡ data_type.now) }
{
    let name = Text::from_str(alloc, "")?;
    let copied = data_type.clone()?;
    Ok(Field::new(alloc, name, copied, true))
}

/// The ids beside a field without an own id, over those beside the fields below it.
fn ids_over(alloc: Global, below: &[IpcField]) -> std::result::Result<IpcField, AllocError>
    ensures { IfOk result (λ made. ids_view made ≡ ids None (ids_views below.now)) }
{
    Ok(IpcField {
        fields: copied_ids(alloc, below)?,
        dictionary_id: None,
    })
}

/// Reads the values of the dictionary of an id, one column at the fronts of the queues of its nodes and buffers.
///
/// # Errors
/// As of `read`; `OutOfSpec` also where no field has the id.
fn read_values<'a, R: Room>(
    alloc: Global,
    field_nodes: &mut VecDeque<FieldNode>,
    id: i64,
    fields: &'a [Field],
    ipc_schema: &'a IpcSchema,
    known: Option<&'a ValuesById>,
    buffers: &mut VecDeque<Buffer>,
    reader: &mut R,
    dictionaries: &Dictionaries,
    block_offset: u64,
    version: MetadataVersion,
    scratch: &mut Vec<u8>,
) -> Result<AnyArray>
    requires { ForSome (option_copied known) (AreValuesOf fields.now (ids_views ipc_schema.now.fields)) }
    ensures { ReadsAs false (R.told reader.old) (R.told reader.new) (λ array. dictionary_of (id, array))
        (λ room. placed_dictionary (record {
          fields = fields.now;
          below = ids_views ipc_schema.now.fields;
          is_little_endian = ipc_schema.now.is_little_endian;
        }) id (at_front field_nodes.old.items buffers.old.items (version_view version)
        ipc_schema.now.is_little_endian (standing_in dictionaries.now) None block_offset no_own_ids room)) result }
{
    let Some(values) = known_values(fields, ipc_schema, known, id) else {
        return Err(Error::OutOfSpec("a dictionary of no field"));
    };
    let field = field_of(alloc, values.data_type)?;
    let ipc_field = ids_over(alloc, values.ipc_fields)?;
    read(
        alloc,
        field_nodes,
        &field,
        &ipc_field,
        buffers,
        reader,
        dictionaries,
        block_offset,
        ipc_schema.is_little_endian,
        None,
        None,
        version,
        scratch,
    )
}

/// Reads the values of the dictionary of an id, which a record batch states.
///
/// # Errors
/// As `read_dictionary`.
fn read_stated<R: Room>(
    alloc: Global,
    batch: &RecordBatchRef<'_>,
    id: i64,
    fields: &[Field],
    ipc_schema: &IpcSchema,
    known: Option<&ValuesById>,
    dictionaries: &Dictionaries,
    version: MetadataVersion,
    reader: &mut R,
    block_offset: u64,
    file_size: u64,
    scratch: &mut Vec<u8>,
) -> Result<AnyArray>
    requires { ForSome (option_copied known) (AreValuesOf fields.now (ids_views ipc_schema.now.fields)) }
    ensures { ReadsAs (is_compressed batch.now.table.bytes.now (table_of batch.now.table.place))
        (sized file_size (R.told reader.old)) (sized file_size (R.told reader.new)) (λ array. dictionary_of (id, array))
        (λ room. stated_dictionary (record {
          fields = fields.now;
          below = ids_views ipc_schema.now.fields;
          is_little_endian = ipc_schema.now.is_little_endian;
        }) (standing_in dictionaries.now) id
        (entry_in batch.now.table.bytes.now (dictionary_batch (table_of batch.now.table.place)) (version_view version) block_offset room)
        (table_of batch.now.table.place)) result }
{
    let mut queues = batch_queues(alloc, batch, file_size)?;
    read_values(
        alloc,
        &mut queues.field_nodes,
        id,
        fields,
        ipc_schema,
        known,
        &mut queues.buffers,
        reader,
        dictionaries,
        block_offset,
        version,
        scratch,
    )
}

/// Reads a dictionary batch as `read_dictionary` does, and finds the type of its values under its id, where the values of each id are known
/// (`values_by_id` finds them). A caller that reads many dictionaries of one schema so looks through its fields once.
///
/// # Errors
/// As of `read_dictionary`.
pub fn read_dictionary_with<R: Room>(
    alloc: Global,
    batch: &DictionaryBatchRef<'_>,
    fields: &[Field],
    ipc_schema: &IpcSchema,
    known: Option<&ValuesById>,
    dictionaries: &mut Dictionaries,
    version: MetadataVersion,
    reader: &mut R,
    block_offset: u64,
    file_size: u64,
    scratch: &mut Vec<u8>,
) -> Result<()>
    requires { ForSome (option_copied known) (AreValuesOf fields.now (ids_views ipc_schema.now.fields)) }
    ensures { ReadsDictionary (is_unread batch.now.table.bytes.now (table_of batch.now.table.place))
        (sized file_size (R.told reader.old)) (sized file_size (R.told reader.new))
        (λ room. dictionary_array (record {
          fields = fields.now;
          below = ids_views ipc_schema.now.fields;
          is_little_endian = ipc_schema.now.is_little_endian;
        }) (standing_in dictionaries.old)
        (entry_in batch.now.table.bytes.now (dictionary_batch (table_of batch.now.table.place)) (version_view version) block_offset room)
        (table_of batch.now.table.place)) dictionaries.old dictionaries.new result }
{
    let Some(parts) = dictionary_batch_in(batch) else {
        return Err(Error::OutOfSpec("MissingData"));
    };
    if parts.is_delta {
        return Err(Error::NotYetImplemented("dictionaries that are added to"));
    }
    let array = read_stated(
        alloc,
        &parts.values,
        parts.id,
        fields,
        ipc_schema,
        known,
        dictionaries,
        version,
        reader,
        block_offset,
        file_size,
        scratch,
    )?;
    dictionaries.insert(parts.id, array)?;
    Ok(())
}

/// Reads a dictionary batch (Arrow IPC, "Dictionary Messages"): the array of its values, by the value type of the first field that has its id,
/// in pre-order, then stands under the id. Keys within the values name values of the dictionaries that stand before. Buffers' offsets count from
/// `block_offset` in a room of `file_size` bytes: the body of the message in a stream, the whole file in a file. Where the call is refused, all
/// dictionaries stay.
///
/// # Errors
/// - `NotYetImplemented`: the batch adds to an earlier dictionary, or its buffers are compressed.
/// - `OutOfSpec`: the batch's metadata is not whole, its buffers state more bytes than the room has, no field has the id, or the column is
///   refused (as `read` does).
/// - `Io`: the device failed.
/// - `OutOfMemory`: there was no memory for what is read.
pub fn read_dictionary<R: Room>(
    alloc: Global,
    batch: &DictionaryBatchRef<'_>,
    fields: &[Field],
    ipc_schema: &IpcSchema,
    dictionaries: &mut Dictionaries,
    version: MetadataVersion,
    reader: &mut R,
    block_offset: u64,
    file_size: u64,
    scratch: &mut Vec<u8>,
) -> Result<()>
    ensures { ReadsDictionary (is_unread batch.now.table.bytes.now (table_of batch.now.table.place))
        (sized file_size (R.told reader.old)) (sized file_size (R.told reader.new))
        (λ room. dictionary_array (record {
          fields = fields.now;
          below = ids_views ipc_schema.now.fields;
          is_little_endian = ipc_schema.now.is_little_endian;
        }) (standing_in dictionaries.old)
        (entry_in batch.now.table.bytes.now (dictionary_batch (table_of batch.now.table.place)) (version_view version) block_offset room)
        (table_of batch.now.table.place)) dictionaries.old dictionaries.new result }
{
    read_dictionary_with(
        alloc,
        batch,
        fields,
        ipc_schema,
        None,
        dictionaries,
        version,
        reader,
        block_offset,
        file_size,
        scratch,
    )
}
