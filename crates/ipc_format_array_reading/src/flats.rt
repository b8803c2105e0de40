//! Columns whose arrays lie flat in memory.
ghost use Rattle.std.specs.Prelude.{◌≡◌, true};
ghost use Rattle.ipc_format_column_writing.specs.nested_arrays.Childless.{is_childless};
ghost use Rattle.ipc_format_column_writing.specs.columnar_memory.Layouts.{physical_type};
ghost use Rattle.ipc_format_array_reading.specs.Flats.{IsAnyOf, ReadsFlat};

use crate::fixed_size_binary::read_fixed_size_binary;
use crate::null::read_null;
use crate::numbers::read_numbers;
use ipc_format_column_writing::column_reading::{Room, read_binary, read_boolean, read_utf8};
use ipc_format_column_writing::columnar_memory::{DataType, Error, PhysicalType, Result};
use ipc_format_column_writing::messages as ipc;
use ipc_format_column_writing::messages::FieldNode;
use ipc_format_column_writing::nested_arrays_core::{AnyArray, ToBoxed};
use std::alloc::Global;
use std::collections::VecDeque;

/// An array that was read, as one of any type.
pub(crate) fn any_of<A: ToBoxed>(read: Result<A>) -> Result<AnyArray>
    ensures { IsAnyOf A.column read result }
{
    match read {
        Ok(array) => Ok(array.into_any()),
        Err(error) => Err(error),
    }
}

/// The same answer of each kind of flat arrays.
macro_rules! of_layout {
    ($layout:expr, $kind:ident, $nulls:tt, $numbers:tt, $others:tt) => {
        match $layout {
            PhysicalType::Primitive($kind) => read_numbers $numbers,
            PhysicalType::Null => any_of(read_null $nulls),
            PhysicalType::Boolean => any_of(read_boolean $others),
            PhysicalType::Binary => any_of(read_binary::<i32, R> $others),
            PhysicalType::LargeBinary => any_of(read_binary::<i64, R> $others),
            PhysicalType::FixedSizeBinary => any_of(read_fixed_size_binary $others),
            PhysicalType::Utf8 => any_of(read_utf8::<i32, R> $others),
            PhysicalType::LargeUtf8 => any_of(read_utf8::<i64, R> $others),
            _ => Err(Error::OutOfSpec("a type with columns below it")),
        }
    };
}

/// Reads a column whose arrays lie flat in memory.
pub(crate) fn read_flat<R: Room>(
    alloc: Global,
    field_nodes: &mut VecDeque<FieldNode>,
    data_type: DataType,
    buffers: &mut VecDeque<ipc::Buffer>,
    reader: &mut R,
    block_offset: u64,
    is_little_endian: bool,
    limit: Option<usize>,
    scratch: &mut Vec<u8>,
) -> Result<AnyArray>
    requires { is_childless (physical_type data_type) ≡ true }
    ensures { ReadsFlat (R.told reader.old) (R.told reader.new) data_type is_little_endian limit block_offset
        field_nodes.old.items field_nodes.new.items buffers.old.items buffers.new.items result }
{
    of_layout!(
        data_type.to_physical_type(),
        kind,
        (field_nodes, data_type, limit),
        (
            alloc,
            field_nodes,
            data_type,
            kind,
            buffers,
            reader,
            block_offset,
            is_little_endian,
            limit,
            scratch
        ),
        (
            alloc,
            field_nodes,
            data_type,
            buffers,
            reader,
            block_offset,
            is_little_endian,
            None,
            limit,
            scratch
        )
    )
}
