//! Record batches.
ghost use Rattle.std.specs.Prelude.{◌≡◌, ◌+◌, ◌≤◌, IfOk, false, length, map, true};
ghost use Rattle.std.specs.Option.{option_copied};
ghost use Rattle.ipc_format_reading.specs.Below.{buffers_below, no_own_ids, type_of};
ghost use Rattle.ipc_format_reading.specs.array_reading.ReadArrays.{at_front, standing_in};
ghost use Rattle.ipc_format_reading.specs.Rooms.{ReadsAs};
ghost use Rattle.ipc_format_reading.specs.columns.StoredColumns.{column_type, slots};
ghost use Rattle.ipc_format_reading.specs.columns.Tables.{chosen};
ghost use Rattle.ipc_format_reading.specs.flatbuffers.Views.{table_of};
ghost use Rattle.ipc_format_reading.specs.grammar.Messages.{record_batch};
ghost use Rattle.ipc_format_reading.specs.messages.MessageViews.{version_view};
ghost use Rattle.ipc_format_reading.specs.metadata.Views.{ids_views};
ghost use Rattle.ipc_format_reading.specs.array_reading.column_writing.column_reading.column_bytes.streams.Queues.{is_compressed};
ghost use Rattle.ipc_format_batch_reading.specs.BatchReads.{IsProjection, asked_arrays, asked_fields, chosen_arrays, chosen_record_arrays, rise_below};
ghost use Rattle.ipc_format_batch_reading.specs.BatchReads.{MakesBatch, entry_in, placed_arrays, record_arrays, sized};
ghost use Rattle.ipc_format_batch_reading.specs.BufferCounts.{AreStated, CountsTaken, stated_buffers};

use crate::counted::{read_children_counted, read_counted};
use crate::passing::pass_fields;
use ipc_format_reading::columnar_memory::{Error, Field, Result, Steps};
use ipc_format_reading::nested_arrays_core::AnyArray;
use ipc_format_reading::{
    Buffer, Chunk, Dictionaries, FieldNode, IpcField, IpcSchema, MetadataVersion, RecordBatchRef,
    Room, batch_queues,
};
use std::alloc::Global;
use std::collections::VecDeque;

/// The columns of a batch, where they are all of one length.
///
/// # Errors
/// `OutOfSpec`: one of them has another length than the first.
fn chunk_of(arrays: Vec<AnyArray>) -> Result<Chunk<AnyArray>>
    ensures { MakesBatch arrays.items result }
{
    match Chunk::try_new(arrays) {
        Ok(chunk) => Ok(chunk),
        Err(_) => Err(Error::OutOfSpec("columns of unequal length")),
    }
}

/// Reads the columns of a batch from the fronts of the queues of its nodes and buffers.
///
/// # Errors
/// As of `read_children`; `OutOfSpec` also where the columns are of unequal length.
fn read_chunk<R: Room>(
    alloc: Global,
    field_nodes: &mut VecDeque<FieldNode>,
    fields: &[Field],
    ipc_schema: &IpcSchema,
    buffers: &mut VecDeque<Buffer>,
    reader: &mut R,
    dictionaries: &Dictionaries,
    block_offset: u64,
    limit: Option<usize>,
    version: MetadataVersion,
    scratch: &mut Vec<u8>,
    steps: &mut Steps,
) -> Result<Chunk<AnyArray>>
    ensures read { ReadsAs false (R.told reader.old) (R.told reader.new) (map slots)
        (λ room. placed_arrays fields.now (ids_views ipc_schema.now.fields) (at_front field_nodes.old.items buffers.old.items (version_view version)
        ipc_schema.now.is_little_endian (standing_in dictionaries.now) limit block_offset no_own_ids room)) result }
    ensures types { IfOk result (λ chunk. map column_type chunk ≡ map type_of fields.now) }
    ensures counted { CountsTaken (buffers_below (version_view version) fields.now) (length buffers.old.items) steps.old.count steps.new.count
        result }
{
    let arrays = read_children_counted(
        alloc,
        field_nodes,
        fields,
        ipc_schema.fields.as_slice(),
        buffers,
        reader,
        dictionaries,
        block_offset,
        ipc_schema.is_little_endian,
        limit,
        version,
        scratch,
        steps,
    )?;
    chunk_of(arrays)
}

/// Reads all columns of a record batch, as `read_record_batch` does.
///
/// # Errors
/// As `read_record_batch`.
fn read_columns<R: Room>(
    alloc: Global,
    batch: &RecordBatchRef<'_>,
    fields: &[Field],
    ipc_schema: &IpcSchema,
    limit: Option<usize>,
    dictionaries: &Dictionaries,
    version: MetadataVersion,
    reader: &mut R,
    block_offset: u64,
    file_size: u64,
    scratch: &mut Vec<u8>,
    steps: &mut Steps,
) -> Result<Chunk<AnyArray>>
    ensures read { ReadsAs (is_compressed batch.now.table.bytes.now (table_of batch.now.table.place))
        (sized file_size (R.told reader.old)) (sized file_size (R.told reader.new)) (map slots)
        (λ room. record_arrays (record {
          fields = fields.now;
          below = ids_views ipc_schema.now.fields;
          is_little_endian = ipc_schema.now.is_little_endian;
        }) (standing_in dictionaries.now) limit
        (entry_in batch.now.table.bytes.now (record_batch (table_of batch.now.table.place)) (version_view version) block_offset room)
        (table_of batch.now.table.place)) result }
    ensures types { IfOk result (λ chunk. map column_type chunk ≡ map type_of fields.now) }
    ensures stated { AreStated file_size (stated_buffers batch.now.table.bytes.now (table_of batch.now.table.place)) steps.old.count
        steps.new.count }
    ensures counted { IfOk result (λ _. steps.new.count ≡ steps.old.count + buffers_below (version_view version)
        fields.now) }
{
    let mut queues = batch_queues(alloc, batch, file_size)?;
    read_chunk(
        alloc,
        &mut queues.field_nodes,
        fields,
        ipc_schema,
        &mut queues.buffers,
        reader,
        dictionaries,
        block_offset,
        limit,
        version,
        scratch,
        steps,
    )
}

/// Reads chosen columns of a record batch, as `read_record_batch` does.
///
/// # Errors
/// As `read_record_batch`.
fn read_choice<R: Room>(
    alloc: Global,
    batch: &RecordBatchRef<'_>,
    fields: &[Field],
    ipc_schema: &IpcSchema,
    columns: &[usize],
    limit: Option<usize>,
    dictionaries: &Dictionaries,
    version: MetadataVersion,
    reader: &mut R,
    block_offset: u64,
    file_size: u64,
    scratch: &mut Vec<u8>,
    steps: &mut Steps,
) -> Result<Chunk<AnyArray>>
    requires { rise_below (length fields.now) columns.now ≡ true }
    ensures read { ReadsAs (is_compressed batch.now.table.bytes.now (table_of batch.now.table.place))
        (sized file_size (R.told reader.old)) (sized file_size (R.told reader.new)) (map slots)
        (λ room. chosen_record_arrays (record {
          fields = fields.now;
          below = ids_views ipc_schema.now.fields;
          is_little_endian = ipc_schema.now.is_little_endian;
        }) (standing_in dictionaries.now) limit columns.now
        (entry_in batch.now.table.bytes.now (record_batch (table_of batch.now.table.place)) (version_view version) block_offset room)
        (table_of batch.now.table.place)) result }
    ensures types { IfOk result (λ chunk. map column_type chunk ≡ map type_of (chosen columns.now fields.now)) }
    ensures stated { AreStated file_size (stated_buffers batch.now.table.bytes.now (table_of batch.now.table.place)) steps.old.count
        steps.new.count }
    ensures counted { IfOk result (λ _. steps.new.count ≡ steps.old.count + buffers_below (version_view version)
        (chosen columns.now fields.now)) }
{
    let mut queues = batch_queues(alloc, batch, file_size)?;
    let arrays = read_chosen(
        alloc,
        &mut queues.field_nodes,
        fields,
        ipc_schema.fields.as_slice(),
        columns,
        &mut queues.buffers,
        reader,
        dictionaries,
        block_offset,
        ipc_schema.is_little_endian,
        limit,
        version,
        scratch,
        steps,
    )?;
    chunk_of(arrays)
}

/// Reads chosen columns of a batch from the fronts of the queues of its nodes and buffers, whose columns rise. Those before each of them are
/// passed over, and what stands behind the last is not looked at.
///
/// # Errors
/// As of `read`; `OutOfSpec` also where no ids stand beside a field.
fn read_chosen<R: Room>(
    alloc: Global,
    field_nodes: &mut VecDeque<FieldNode>,
    fields: &[Field],
    ipc_fields: &[IpcField],
    columns: &[usize],
    buffers: &mut VecDeque<Buffer>,
    reader: &mut R,
    dictionaries: &Dictionaries,
    block_offset: u64,
    is_little_endian: bool,
    limit: Option<usize>,
    version: MetadataVersion,
    scratch: &mut Vec<u8>,
    steps: &mut Steps,
) -> Result<Vec<AnyArray>>
    requires { rise_below (length fields.now) columns.now ≡ true }
    ensures read { ReadsAs false (R.told reader.old) (R.told reader.new) (λ arrays. map slots arrays.items)
        (λ room. chosen_arrays (record {
          fields = fields.now;
          below = ids_views ipc_fields.now;
          is_little_endian = is_little_endian;
        }) (standing_in dictionaries.now) (at_front field_nodes.old.items buffers.old.items (version_view version) is_little_endian
        (standing_in dictionaries.now) limit block_offset no_own_ids room).source limit columns.now) result }
    ensures types { IfOk result (λ arrays. map column_type arrays.items ≡ map type_of (chosen columns.now fields.now)) }
    ensures counted { CountsTaken (buffers_below (version_view version) (chosen columns.now fields.now)) (length buffers.old.items) steps.old.count
        steps.new.count result }
{
    let mut arrays = Vec::new(alloc);
    let mut behind = 0;
    for k in 0..columns.len() {
        let column = columns[k];
        pass_fields(field_nodes, &fields[behind..column], buffers, version);
        if column >= ipc_fields.len() {
            return Err(Error::OutOfSpec("a field without dictionary ids beside it"));
        }
        let array = read_counted(
            alloc,
            field_nodes,
            &fields[column],
            &ipc_fields[column],
            buffers,
            reader,
            dictionaries,
            block_offset,
            is_little_endian,
            limit,
            version,
            scratch,
            steps,
        )?;
        arrays.push(array)?;
        behind = column + 1;
    }
    Ok(arrays)
}

/// Reads the columns of a record batch (Arrow IPC, "RecordBatch message"), at most `limit` rows of them: all, or those that `projection` names by
/// the places of their fields, which rise (`is_projection` tests it). A column that is not chosen is passed over by how many nodes and buffers it
/// has, and is not decoded. Buffers' offsets count from `block_offset` in a room of `file_size` bytes: the body of the message in a stream, the
/// whole file in a file. `version` tells how unions lie, and keys name values of `dictionaries`.
///
/// # Errors
/// - `NotYetImplemented`: the buffers are compressed.
/// - `OutOfSpec`: the batch's metadata is not whole, its buffers state more bytes than the room has, a column that is read is refused (as `read`
///   does), or these are of unequal length.
/// - `Io`: the device failed.
/// - `OutOfMemory`: there was no memory for what is read.
pub fn read_record_batch<R: Room>(
    alloc: Global,
    batch: &RecordBatchRef<'_>,
    fields: &[Field],
    ipc_schema: &IpcSchema,
    projection: Option<&[usize]>,
    limit: Option<usize>,
    dictionaries: &Dictionaries,
    version: MetadataVersion,
    reader: &mut R,
    block_offset: u64,
    file_size: u64,
    scratch: &mut Vec<u8>,
) -> Result<Chunk<AnyArray>>
    requires { IsProjection (length fields.now) (option_copied projection) }
    ensures read { ReadsAs (is_compressed batch.now.table.bytes.now (table_of batch.now.table.place))
        (sized file_size (R.told reader.old)) (sized file_size (R.told reader.new)) (map slots)
        (λ room. asked_arrays (option_copied projection.entry) (record {
          fields = fields.now;
          below = ids_views ipc_schema.now.fields;
          is_little_endian = ipc_schema.now.is_little_endian;
        }) (standing_in dictionaries.now) limit
        (entry_in batch.now.table.bytes.now (record_batch (table_of batch.now.table.place)) (version_view version) block_offset room)
        (table_of batch.now.table.place)) result }
    ensures types { IfOk result (λ chunk. map column_type chunk ≡ map type_of (asked_fields (option_copied projection.entry) fields.now)) }
{
    read_record_batch_counted(
        alloc,
        batch,
        fields,
        ipc_schema,
        projection,
        limit,
        dictionaries,
        version,
        reader,
        block_offset,
        file_size,
        scratch,
        &mut Steps::new(),
    )
}

/// As [`read_record_batch`]. Each buffer that is taken off for a column that is read is a step: where there is a batch these are as many as its
/// columns have, and never more than the message states, whose metadata has sixteen bytes for each.
///
/// # Errors
/// As [`read_record_batch`].
pub fn read_record_batch_counted<R: Room>(
    alloc: Global,
    batch: &RecordBatchRef<'_>,
    fields: &[Field],
    ipc_schema: &IpcSchema,
    projection: Option<&[usize]>,
    limit: Option<usize>,
    dictionaries: &Dictionaries,
    version: MetadataVersion,
    reader: &mut R,
    block_offset: u64,
    file_size: u64,
    scratch: &mut Vec<u8>,
    steps: &mut Steps,
) -> Result<Chunk<AnyArray>>
    requires { IsProjection (length fields.now) (option_copied projection) }
    ensures read { ReadsAs (is_compressed batch.now.table.bytes.now (table_of batch.now.table.place))
        (sized file_size (R.told reader.old)) (sized file_size (R.told reader.new)) (map slots)
        (λ room. asked_arrays (option_copied projection.entry)
        (record { fields = fields.now; below = ids_views ipc_schema.now.fields; is_little_endian = ipc_schema.now.is_little_endian })
        (standing_in dictionaries.now) limit
        (entry_in batch.now.table.bytes.now (record_batch (table_of batch.now.table.place)) (version_view version) block_offset room)
        (table_of batch.now.table.place)) result }
    ensures types { IfOk result (λ chunk. map column_type chunk ≡ map type_of (asked_fields (option_copied projection.entry) fields.now)) }
    ensures stated { AreStated file_size (stated_buffers batch.now.table.bytes.now (table_of batch.now.table.place)) steps.old.count
        steps.new.count }
    ensures most { steps.new.count ≤ steps.old.count + length batch.now.table.bytes.now }
    ensures counted { IfOk result (λ _. steps.new.count ≡ steps.old.count + buffers_below (version_view version)
        (asked_fields (option_copied projection.entry) fields.now)) }
{
    match projection {
        None => read_columns(
            alloc,
            batch,
            fields,
            ipc_schema,
            limit,
            dictionaries,
            version,
            reader,
            block_offset,
            file_size,
            scratch,
            steps,
        ),
        Some(columns) => read_choice(
            alloc,
            batch,
            fields,
            ipc_schema,
            columns,
            limit,
            dictionaries,
            version,
            reader,
            block_offset,
            file_size,
            scratch,
            steps,
        ),
    }
}

/// Whether columns rise and are each below a width: the condition of a projection.
pub fn is_projection(columns: &[usize], width: usize) -> bool
    ensures { result ≡ rise_below width columns.now }
{
    let mut least = 0;
    for k in 0..columns.len() {
        let column = columns[k];
        if column < least || column >= width {
            return false;
        }
        least = column + 1;
    }
    true
}
