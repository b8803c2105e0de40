//! Columns that are read with a step for each buffer that is taken off.
ghost use Rattle.std.specs.Prelude.{◌≡◌, ◌+◌, ◌-◌, false, length, map, IfOk};
ghost use Rattle.ipc_format_reading.specs.Below.{arrays_below, buffers_below, no_own_ids, nodes_below, type_of};
ghost use Rattle.ipc_format_reading.specs.array_reading.ReadArrays.{ReadsArray, at_front, standing_in};
ghost use Rattle.ipc_format_reading.specs.array_reading.ArrayReads.{Takes};
ghost use Rattle.ipc_format_reading.specs.columns.StoredColumns.{column_type, slots};
ghost use Rattle.ipc_format_reading.specs.messages.MessageViews.{version_view};
ghost use Rattle.ipc_format_reading.specs.metadata.Views.{ids_view, ids_views};

use ipc_format_reading::columnar_memory::{Field, Result, Steps};
use ipc_format_reading::nested_arrays_core::AnyArray;
use ipc_format_reading::{
    Buffer, Dictionaries, FieldNode, IpcField, MetadataVersion, Room, read, read_children,
};
use std::alloc::Global;
use std::collections::VecDeque;

/// A step for each buffer that came off a queue which had so many.
fn count_taken(had: usize, buffers: &VecDeque<Buffer>, steps: &mut Steps)
    ensures { steps.new.count ≡ steps.old.count + (had - length buffers.now.items) }
{
    for _k in 0..had.saturating_sub(buffers.len()) {
        steps.tick();
    }
}

/// Reads the column of a field as `read` does. Each buffer that comes off the queue is a step.
///
/// # Errors
/// As of `read`.
pub(crate) fn read_counted<R: Room>(
    alloc: Global,
    field_nodes: &mut VecDeque<FieldNode>,
    field: &Field,
    ipc_field: &IpcField,
    buffers: &mut VecDeque<Buffer>,
    reader: &mut R,
    dictionaries: &Dictionaries,
    block_offset: u64,
    is_little_endian: bool,
    limit: Option<usize>,
    version: MetadataVersion,
    scratch: &mut Vec<u8>,
    steps: &mut Steps,
) -> Result<AnyArray>
    ensures read { ReadsArray false (R.told reader.old) (R.told reader.new) field.now.data_type
        (at_front field_nodes.old.items buffers.old.items (version_view version) is_little_endian (standing_in dictionaries.now) limit
        block_offset (ids_view ipc_field.now)) (version_view version) field_nodes.old.items field_nodes.new.items buffers.old.items
        buffers.new.items result }
    ensures counted { steps.new.count ≡ steps.old.count + (length buffers.old.items - length buffers.new.items) }
{
    let had = buffers.len();
    let found = read(
        alloc,
        field_nodes,
        field,
        ipc_field,
        buffers,
        reader,
        dictionaries,
        block_offset,
        is_little_endian,
        None,
        limit,
        version,
        scratch,
    );
    count_taken(had, buffers, steps);
    found
}

/// Reads the columns of some fields as `read_children` does. Each buffer that comes off the queue is a step.
///
/// # Errors
/// As of `read_children`.
pub(crate) fn read_children_counted<R: Room>(
    alloc: Global,
    field_nodes: &mut VecDeque<FieldNode>,
    fields: &[Field],
    ipc_fields: &[IpcField],
    buffers: &mut VecDeque<Buffer>,
    reader: &mut R,
    dictionaries: &Dictionaries,
    block_offset: u64,
    is_little_endian: bool,
    limit: Option<usize>,
    version: MetadataVersion,
    scratch: &mut Vec<u8>,
    steps: &mut Steps,
) -> Result<Vec<AnyArray>>
    ensures read { Takes false (R.told reader.old) (R.told reader.new) (λ arrays. map slots arrays.items)
        (λ room. arrays_below fields.now (at_front field_nodes.old.items buffers.old.items (version_view version) is_little_endian
        (standing_in dictionaries.now) limit block_offset no_own_ids room) (ids_views ipc_fields.now))
        (nodes_below fields.now) (buffers_below (version_view version) fields.now)
        field_nodes.old.items field_nodes.new.items buffers.old.items buffers.new.items result }
    ensures types { IfOk result (λ arrays. map column_type arrays.items ≡ map type_of fields.now) }
    ensures counted { steps.new.count ≡ steps.old.count + (length buffers.old.items - length buffers.new.items) }
{
    let had = buffers.len();
    let found = read_children(
        alloc,
        field_nodes,
        fields,
        ipc_fields,
        buffers,
        reader,
        dictionaries,
        block_offset,
        is_little_endian,
        limit,
        version,
        scratch,
    );
    count_taken(had, buffers, steps);
    found
}
