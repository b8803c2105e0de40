//! Columns of every type, with the columns below them.
ghost use Rattle.std.specs.Prelude.{◌≡◌, false, map, true, IfOk};
ghost use Rattle.ipc_format_array_reading.specs.ReadArrays.{ReadsArray, at_front, standing_in};
ghost use Rattle.ipc_format_array_reading.specs.ArrayReads.{Takes, fields_below};
ghost use Rattle.ipc_format_array_reading.specs.Parts.{has_children};
ghost use Rattle.ipc_format_array_reading.specs.columns.StoredColumns.{column_type, slots, type_layer};
ghost use Rattle.ipc_format_array_reading.specs.messages.MessageViews.{version_view};
ghost use Rattle.ipc_format_array_reading.specs.metadata.Views.{ids_view, ids_views};
ghost use Rattle.ipc_format_reading.specs.Below.{arrays_below, buffers_below, no_own_ids, nodes_below, type_of};

use ipc_format_array_reading::columnar_memory::{DataType, Error, Field, Result};
use ipc_format_array_reading::nested_arrays_core::AnyArray;
use ipc_format_array_reading::{
    Buffer, Dictionaries, FieldNode, IpcField, MetadataVersion, Room, array_of, begin,
    has_children, limit_below, read_childless,
};
use std::alloc::Global;
use std::collections::VecDeque;
use std::slice::from_ref;

/// The fields of the columns below a column of a data type, in order.
fn fields_of(data_type: &DataType) -> &[Field]
    ensures { result.now ≡ fields_below (type_layer data_type.now) }
{
    match data_type.to_logical_type() {
        DataType::List(item) => from_ref(item.get()),
        DataType::LargeList(item) => from_ref(item.get()),
        DataType::FixedSizeList(item, _) => from_ref(item.get()),
        DataType::Map(entry, _) => from_ref(entry.get()),
        DataType::Struct(fields) => fields.as_slice(),
        DataType::Union(fields, _, _) => fields.as_slice(),
        _ => &[],
    }
}

/// Reads a column of any type from the fronts of the queues, with the columns below it.
#[cycle(reads)]
pub(crate) fn read_column<R: Room>(
    alloc: Global,
    field_nodes: &mut VecDeque<FieldNode>,
    data_type: &DataType,
    ipc_field: &IpcField,
    buffers: &mut VecDeque<Buffer>,
    reader: &mut R,
    dictionaries: &Dictionaries,
    block_offset: u64,
    is_little_endian: bool,
    limit: Option<usize>,
    version: MetadataVersion,
    scratch: &mut Vec<u8>,
) -> Result<AnyArray>
    ensures { ReadsArray false (R.told reader.old) (R.told reader.new) data_type.now
        (at_front field_nodes.old.items buffers.old.items (version_view version) is_little_endian (standing_in dictionaries.now) limit
        block_offset (ids_view ipc_field.now)) (version_view version) field_nodes.old.items field_nodes.new.items buffers.old.items
        buffers.new.items result }
{
    if has_children(data_type) {
        return read_nested(
            alloc,
            field_nodes,
            data_type,
            ipc_field,
            buffers,
            reader,
            dictionaries,
            block_offset,
            is_little_endian,
            limit,
            version,
            scratch,
        );
    }
    read_childless(
        alloc,
        field_nodes,
        data_type,
        ipc_field,
        buffers,
        reader,
        dictionaries,
        block_offset,
        is_little_endian,
        limit,
        version,
        scratch,
    )
}

/// Reads a column that has columns below it: what stands before these, these, and the array of both.
#[cycle(reads)]
fn read_nested<R: Room>(
    alloc: Global,
    field_nodes: &mut VecDeque<FieldNode>,
    data_type: &DataType,
    ipc_field: &IpcField,
    buffers: &mut VecDeque<Buffer>,
    reader: &mut R,
    dictionaries: &Dictionaries,
    block_offset: u64,
    is_little_endian: bool,
    limit: Option<usize>,
    version: MetadataVersion,
    scratch: &mut Vec<u8>,
) -> Result<AnyArray>
    requires { has_children (type_layer data_type.now) ≡ true }
    ensures { ReadsArray false (R.told reader.old) (R.told reader.new) data_type.now
        (at_front field_nodes.old.items buffers.old.items (version_view version) is_little_endian (standing_in dictionaries.now) limit
        block_offset (ids_view ipc_field.now)) (version_view version) field_nodes.old.items field_nodes.new.items buffers.old.items
        buffers.new.items result }
{
    let begun = begin(
        alloc,
        field_nodes,
        data_type,
        buffers,
        reader,
        block_offset,
        is_little_endian,
        limit,
        version,
        scratch,
    )?;
    let below = limit_below(field_nodes, data_type, limit, &begun);
    let children = read_children(
        alloc,
        field_nodes,
        fields_of(data_type),
        ipc_field.fields.as_slice(),
        buffers,
        reader,
        dictionaries,
        block_offset,
        is_little_endian,
        below,
        version,
        scratch,
    )?;
    array_of(alloc, data_type, limit, begun, children)
}

/// Reads the columns of some fields, one after another, each by the dictionary ids beside its field.
///
/// # Errors
/// As `read`, of the first column that is refused; `OutOfSpec` also where no ids stand beside a field.
#[cycle(reads)]
pub fn read_children<R: Room>(
    alloc: Global,
    field_nodes: &mut VecDeque<FieldNode>,
    fields: &[Field],
    ipc_fields: &[IpcField],
    buffers: &mut VecDeque<Buffer>,
    reader: &mut R,
    dictionaries: &Dictionaries,
    block_offset: u64,
    is_little_endian: bool,
    limit: Option<usize>,
    version: MetadataVersion,
    scratch: &mut Vec<u8>,
) -> Result<Vec<AnyArray>>
    ensures read { Takes false (R.told reader.old) (R.told reader.new) (λ arrays. map slots arrays.items)
        (λ room. arrays_below fields.now (at_front field_nodes.old.items buffers.old.items (version_view version) is_little_endian
        (standing_in dictionaries.now) limit block_offset no_own_ids room) (ids_views ipc_fields.now))
        (nodes_below fields.now) (buffers_below (version_view version) fields.now)
        field_nodes.old.items field_nodes.new.items buffers.old.items buffers.new.items result }
    ensures types { IfOk result (λ arrays. map column_type arrays.items ≡ map type_of fields.now) }
{
    let mut children = Vec::new(alloc);
    for k in 0..fields.len() {
        if k >= ipc_fields.len() {
            return Err(Error::OutOfSpec("a field without dictionary ids beside it"));
        }
        let child = read_column(
            alloc,
            field_nodes,
            &fields[k].data_type,
            &ipc_fields[k],
            buffers,
            reader,
            dictionaries,
            block_offset,
            is_little_endian,
            limit,
            version,
            scratch,
        )?;
        children.push(child)?;
    }
    Ok(children)
}
