//! Columns of nulls.
ghost use Rattle.std.specs.Prelude.{[], true};
ghost use Rattle.ipc_format_column_writing.specs.column_reading.Reads.{front_slots};
ghost use Rattle.ipc_format_array_reading.specs.TypedReads.{ReadsNulls};

use ipc_format_column_writing::column_reading::columnar_memory::{
    DataType, Error, PhysicalType, Result,
};
use ipc_format_column_writing::column_reading::messages::FieldNode;
use ipc_format_column_writing::column_reading::slots_taken;
use ipc_format_column_writing::nested_arrays_core::NullArray;
use std::collections::VecDeque;

/// Reads a column of nulls: a node, and no buffer.
///
/// # Errors
/// `OutOfSpec`: the type is of another kind, and the queue stays; or there is no node, or its length is negative.
pub fn read_null(
    field_nodes: &mut VecDeque<FieldNode>,
    data_type: DataType,
    limit: Option<usize>,
) -> Result<NullArray>
    ensures { ReadsNulls data_type (front_slots data_type field_nodes.old.items [] true limit 0 []) field_nodes.old.items
        field_nodes.new.items result }
{
    if data_type.to_physical_type() != PhysicalType::Null {
        return Err(Error::OutOfSpec("InvalidDataType"));
    }
    let Some(field_node) = field_nodes.pop_front() else {
        return Err(Error::OutOfSpec("MissingMessageNodes"));
    };
    let Some(taken) = slots_taken(field_node, limit) else {
        return Err(Error::OutOfSpec("UnexpectedNegativeInteger"));
    };
    NullArray::try_new(data_type, taken)
}
