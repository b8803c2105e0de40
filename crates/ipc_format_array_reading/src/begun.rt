//! What is read of a column with children before these: its node, and its own buffers.
ghost use Rattle.std.specs.Prelude.{◌≡◌, ◌+◌, ◌≤◌, drop, length, map, false, true, IfOk};
ghost use Rattle.ipc_format_column_writing.specs.column_reading.Flat.{IsMaskOf};
ghost use Rattle.ipc_format_column_writing.specs.column_reading.columnar_memory.Spans.{last_of, offsets_of};
ghost use Rattle.ipc_format_column_writing.specs.column_reading.columns.StoredColumns.{type_layer};
ghost use Rattle.ipc_format_column_writing.specs.column_reading.grammar.Columns.{limit_times};
ghost use Rattle.ipc_format_column_writing.specs.column_reading.grammar.Layouts.{before_V5};
ghost use Rattle.ipc_format_column_writing.specs.column_reading.messages.MessageViews.{version_view};
ghost use Rattle.ipc_format_column_writing.specs.column_reading.Buffers.{node_of};
ghost use Rattle.ipc_format_column_writing.specs.column_reading.Queues.{TakesOff};
ghost use Rattle.ipc_format_column_writing.specs.column_reading.Rooms.{ReadsAs};
ghost use Rattle.ipc_format_array_reading.specs.ArrayReads.{Takes};
ghost use Rattle.ipc_format_array_reading.specs.Limits.{AlikeLimits, AreSmall};
ghost use Rattle.ipc_format_array_reading.specs.Parts.{AreParts, HasPlaces, beginning_of, choices, fixed_size, has_children, limit_below, next_choices};
ghost use Rattle.ipc_format_array_reading.specs.Parts.{next_parts, next_places, next_spans, own_buffers, parts_in, place_buffers, spans};

use ipc_format_column_writing::column_reading::columnar_memory::{
    Buffer, DataType, Error, Index, Offset, OffsetsBuffer, Result, UnionMode,
};
use ipc_format_column_writing::column_reading::messages::{FieldNode, MetadataVersion};
use ipc_format_column_writing::column_reading::{
    Marked, Room, messages as ipc, read_buffer, read_marked, read_offsets, slots_taken,
};
use std::alloc::Global;
use std::collections::VecDeque;

/// What stands of a column before its children (Arrow columnar format, "Physical Memory Layout"): how many slots are taken and which are valid,
/// and of lists the offsets; of a union the ids, and of a dense one the places of its values in its children.
#[derive(Drop)]
pub enum Begun {
    Marks(Marked),
    Small(Marked, OffsetsBuffer<i32>),
    Large(Marked, OffsetsBuffer<i64>),
    Choices(Buffer<i8>, Option<Buffer<i32>>),
}

/// How a column with children begins: with marks alone, with offsets of 32 or of 64 bits behind them, or as a union of a mode.
#[derive(Clone, Copy)]
pub enum Beginning {
    Marks,
    Small,
    Large,
    Choices(UnionMode),
}

/// How a column of a type with children begins.
fn beginning_of(data_type: &DataType) -> Beginning
    ensures { result ≡ beginning_of (type_layer data_type.now) }
{
    match data_type.to_logical_type() {
        DataType::List(_) => Beginning::Small,
        DataType::Map(_, _) => Beginning::Small,
        DataType::LargeList(_) => Beginning::Large,
        DataType::Union(_, _, mode) => Beginning::Choices(*mode),
        _ => Beginning::Marks,
    }
}

/// Whether columns of a data type have columns below them that are read with them: those of lists, maps, structs and unions.
pub fn has_children(data_type: &DataType) -> bool
    ensures { result ≡ has_children (type_layer data_type.now) }
{
    matches!(
        data_type.to_logical_type(),
        DataType::List(_)
            | DataType::LargeList(_)
            | DataType::FixedSizeList(_, _)
            | DataType::Map(_, _)
            | DataType::Struct(_)
            | DataType::Union(_, _, _)
    )
}

/// Reads what stands of lists before their items: a node and two buffers.
fn begin_spans<O: Offset, R: Room>(
    alloc: Global,
    field_nodes: &mut VecDeque<FieldNode>,
    buffers: &mut VecDeque<ipc::Buffer>,
    reader: &mut R,
    block_offset: u64,
    is_little_endian: bool,
    limit: Option<usize>,
    scratch: &mut Vec<u8>,
) -> Result<(Marked, OffsetsBuffer<O>)>
    ensures read { Takes false (R.told reader.old) (R.told reader.new)
        (λ found. spans found.0.taken found.0.validity (offsets_of found.1))
        (next_spans O.IS_LARGE is_little_endian field_nodes.old.items limit buffers.old.items block_offset)
        1 2 field_nodes.old.items field_nodes.new.items buffers.old.items buffers.new.items result }
    ensures fit { IfOk result (λ found. IsMaskOf found.0.taken found.0.validity × (length found.1.lengths ≡ found.0.taken)) }
    ensures small { IfOk result (λ found. last_of found.1 ≤ O.greatest) }
{
    let marked = read_marked(
        alloc,
        field_nodes,
        buffers,
        reader,
        block_offset,
        is_little_endian,
        None,
        limit,
        scratch,
    )?;
    let offsets = read_offsets::<O, R>(
        alloc,
        buffers,
        marked.taken,
        reader,
        block_offset,
        is_little_endian,
        None,
        scratch,
    )?;
    let _end = offsets.last().to_usize();
    Ok((marked, offsets))
}

/// Where a dense union's values stand, in a buffer; a sparse one has no such buffer.
fn read_places<R: Room>(
    alloc: Global,
    mode: UnionMode,
    count: usize,
    buffers: &mut VecDeque<ipc::Buffer>,
    reader: &mut R,
    block_offset: u64,
    is_little_endian: bool,
    scratch: &mut Vec<u8>,
) -> Result<Option<Buffer<i32>>>
    ensures read { ReadsAs false (R.told reader.old) (R.told reader.new) (λ places. places)
        (next_places mode is_little_endian buffers.old.items block_offset count) result }
    ensures rest { TakesOff (place_buffers mode) buffers.old.items buffers.new.items result }
    ensures size { IfOk result (HasPlaces mode count) }
{
    match mode {
        UnionMode::Sparse => Ok(None),
        UnionMode::Dense => {
            let places = read_buffer::<i32, R>(
                alloc,
                buffers,
                count,
                reader,
                block_offset,
                is_little_endian,
                None,
                scratch,
            )?;
            Ok(Some(places))
        }
    }
}

/// Passes over the first buffer that a union has before V5, if it is there.
fn pass_unused(version: MetadataVersion, buffers: &mut VecDeque<ipc::Buffer>)
    ensures { buffers.new.items ≡ drop (length (before_V5 (version_view version))) buffers.old.items }
{
    if version != MetadataVersion::V5 {
        let _unused = buffers.pop_front();
    }
}

/// Reads the ids and the places of the slots of a union, of all that its node has.
fn begin_union<R: Room>(
    alloc: Global,
    field_nodes: &mut VecDeque<FieldNode>,
    mode: UnionMode,
    buffers: &mut VecDeque<ipc::Buffer>,
    reader: &mut R,
    block_offset: u64,
    is_little_endian: bool,
    scratch: &mut Vec<u8>,
) -> Result<(Buffer<i8>, Option<Buffer<i32>>)>
    ensures read { Takes false (R.told reader.old) (R.told reader.new) (λ found. choices found.0 found.1)
        (next_choices mode is_little_endian field_nodes.old.items buffers.old.items block_offset)
        1 (1 + place_buffers mode) field_nodes.old.items field_nodes.new.items buffers.old.items buffers.new.items result }
    ensures fit { IfOk result (λ found. HasPlaces mode (length found.0) found.1) }
{
    let Some(field_node) = field_nodes.pop_front() else {
        return Err(Error::OutOfSpec("MissingMessageNodes"));
    };
    let Some(count) = slots_taken(field_node, None) else {
        return Err(Error::OutOfSpec("UnexpectedNegativeInteger"));
    };
    let types = read_buffer::<i8, R>(
        alloc,
        buffers,
        count,
        reader,
        block_offset,
        true,
        None,
        scratch,
    )?;
    let places = read_places(
        alloc,
        mode,
        count,
        buffers,
        reader,
        block_offset,
        is_little_endian,
        scratch,
    )?;
    Ok((types, places))
}

/// Reads what stands of a column of a type that `has_children` before these (Arrow IPC, "RecordBatch message"): one node, and the column's own
/// buffers, come off the fronts of the queues. At most `limit` slots are taken, of a union all that its node has. Offsets of buffers count from
/// `block_offset`, in bytes. A union of a `version` before V5 has one buffer more, which is passed over.
///
/// # Errors
/// - `OutOfSpec`: the node or a buffer is missing, negative, not within the device's bytes, or has less than is taken; or offsets fall.
/// - `Io`: the device failed.
/// - `OutOfMemory`: there was no memory for what is read.
// match table: an arm for each way to begin.
pub fn begin<R: Room>(
    alloc: Global,
    field_nodes: &mut VecDeque<FieldNode>,
    data_type: &DataType,
    buffers: &mut VecDeque<ipc::Buffer>,
    reader: &mut R,
    block_offset: u64,
    is_little_endian: bool,
    limit: Option<usize>,
    version: MetadataVersion,
    scratch: &mut Vec<u8>,
) -> Result<Begun>
    requires { has_children (type_layer data_type.now) ≡ true }
    ensures read { Takes false (R.told reader.old) (R.told reader.new) parts_in
        (next_parts (type_layer data_type.now) (version_view version) is_little_endian field_nodes.old.items limit buffers.old.items block_offset)
        1 (own_buffers (version_view version) (type_layer data_type.now))
        field_nodes.old.items field_nodes.new.items buffers.old.items buffers.new.items result }
    ensures fit { IfOk result (AreParts (type_layer data_type.now)) }
{
    match beginning_of(data_type) {
        Beginning::Small => {
            let (marked, offsets) = begin_spans::<i32, R>(
                alloc,
                field_nodes,
                buffers,
                reader,
                block_offset,
                is_little_endian,
                limit,
                scratch,
            )?;
            Ok(Begun::Small(marked, offsets))
        }
        Beginning::Large => {
            let (marked, offsets) = begin_spans::<i64, R>(
                alloc,
                field_nodes,
                buffers,
                reader,
                block_offset,
                is_little_endian,
                limit,
                scratch,
            )?;
            Ok(Begun::Large(marked, offsets))
        }
        Beginning::Choices(mode) => {
            pass_unused(version, buffers);
            let (types, places) = begin_union(
                alloc,
                field_nodes,
                mode,
                buffers,
                reader,
                block_offset,
                is_little_endian,
                scratch,
            )?;
            Ok(Begun::Choices(types, places))
        }
        Beginning::Marks => {
            let marked = read_marked(
                alloc,
                field_nodes,
                buffers,
                reader,
                block_offset,
                is_little_endian,
                None,
                limit,
                scratch,
            )?;
            Ok(Begun::Marks(marked))
        }
    }
}

/// Hands to a proof that no node has 2^63 slots. It changes nothing.
fn read_lengths(field_nodes: &VecDeque<FieldNode>)
    ensures { AreSmall (map node_of field_nodes.now.items) }
{
    for k in 0..field_nodes.len() {
        let _taken = slots_taken(field_nodes[k], None);
    }
}

/// A limit that many times; past 64 bits the greatest number, which is above every length.
fn times(field_nodes: &VecDeque<FieldNode>, limit: Option<usize>, size: usize) -> Option<usize>
    ensures { AlikeLimits (map node_of field_nodes.now.items) (limit_times limit size) result }
{
    let Some(most) = limit else {
        return None;
    };
    match most.checked_mul(size) {
        Some(all) => Some(all),
        None => {
            read_lengths(field_nodes);
            Some(usize::MAX)
        }
    }
}

/// How many items each list has by a type of lists of one size.
fn size_of(data_type: &DataType) -> Option<usize>
    ensures { result ≡ fixed_size (type_layer data_type.now) }
{
    match data_type.to_logical_type() {
        DataType::FixedSizeList(_, size) => Some(*size),
        _ => None,
    }
}

/// Under which limit, in slots, the children of a column of a type are read, whose nodes stand at the front of the queue: of lists as many as
/// the last offset says, of lists of one size so many for each slot of the limit, of structs under the same limit, of unions under none.
pub fn limit_below(
    field_nodes: &VecDeque<FieldNode>,
    data_type: &DataType,
    limit: Option<usize>,
    begun: &Begun,
) -> Option<usize>
    ensures { AlikeLimits (map node_of field_nodes.now.items) (limit_below (type_layer data_type.now) limit (parts_in begun.now)) result }
{
    match begun {
        Begun::Small(_, offsets) => Some(offsets.last().to_usize()),
        Begun::Large(_, offsets) => Some(offsets.last().to_usize()),
        Begun::Choices(_, _) => None,
        Begun::Marks(_) => match size_of(data_type) {
            Some(size) => times(field_nodes, limit, size),
            None => limit,
        },
    }
}
