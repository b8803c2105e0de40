//! Columns of numbers of any kind.
ghost use Rattle.std.specs.Prelude.{◌≡◌, true};
ghost use Rattle.ipc_format_column_writing.specs.columnar_memory.Layouts.{physical_type};
ghost use Rattle.ipc_format_column_writing.specs.columnar_memory.declared.PhysicalType.TheVariants as layouts;
ghost use Rattle.ipc_format_array_reading.specs.Flats.{ReadsFlat, has_all};

use crate::flats::any_of;
use ipc_format_column_writing::column_reading::{Room, read_primitive};
use ipc_format_column_writing::columnar_memory::{
    DataType, Error, PrimitiveType, Result, days_ms, i256, months_days_ns,
};
use ipc_format_column_writing::messages as ipc;
use ipc_format_column_writing::messages::FieldNode;
use ipc_format_column_writing::nested_arrays_core::{AnyArray, PrimitiveKind};
use std::alloc::Global;
use std::collections::VecDeque;

/// Reads a column of values of one kind.
fn read_kind<T: PrimitiveKind, R: Room>(
    alloc: Global,
    field_nodes: &mut VecDeque<FieldNode>,
    data_type: DataType,
    buffers: &mut VecDeque<ipc::Buffer>,
    reader: &mut R,
    block_offset: u64,
    is_little_endian: bool,
    limit: Option<usize>,
    scratch: &mut Vec<u8>,
) -> Result<AnyArray>
    requires kind { physical_type data_type ≡ layouts.Primitive T.PRIMITIVE }
    requires all { has_all (layouts.Primitive T.PRIMITIVE) ≡ true }
    ensures { ReadsFlat (R.told reader.old) (R.told reader.new) data_type is_little_endian limit block_offset
        field_nodes.old.items field_nodes.new.items buffers.old.items buffers.new.items result }
{
    any_of(read_primitive::<T, R>(
        alloc,
        field_nodes,
        data_type,
        buffers,
        reader,
        block_offset,
        is_little_endian,
        None,
        limit,
        scratch,
    ))
}

/// The same answer of the type of each kind; floats have no arrays.
macro_rules! of_kind {
    ($kind:expr, $arguments:tt) => {
        match $kind {
            PrimitiveType::Int8 => read_kind::<i8, R> $arguments,
            PrimitiveType::Int16 => read_kind::<i16, R> $arguments,
            PrimitiveType::Int32 => read_kind::<i32, R> $arguments,
            PrimitiveType::Int64 => read_kind::<i64, R> $arguments,
            PrimitiveType::Int128 => read_kind::<i128, R> $arguments,
            PrimitiveType::Int256 => read_kind::<i256, R> $arguments,
            PrimitiveType::UInt8 => read_kind::<u8, R> $arguments,
            PrimitiveType::UInt16 => read_kind::<u16, R> $arguments,
            PrimitiveType::UInt32 => read_kind::<u32, R> $arguments,
            PrimitiveType::UInt64 => read_kind::<u64, R> $arguments,
            PrimitiveType::DaysMs => read_kind::<days_ms, R> $arguments,
            PrimitiveType::MonthDayNano => read_kind::<months_days_ns, R> $arguments,
            PrimitiveType::Float16 => Err(Error::OutOfSpec("floats of 16 bits")),
            PrimitiveType::Float32 => Err(Error::OutOfSpec("floats of 32 bits")),
            PrimitiveType::Float64 => Err(Error::OutOfSpec("floats of 64 bits")),
        }
    };
}

/// Reads a column of numbers of a kind: a node and two buffers.
pub(crate) fn read_numbers<R: Room>(
    alloc: Global,
    field_nodes: &mut VecDeque<FieldNode>,
    data_type: DataType,
    kind: PrimitiveType,
    buffers: &mut VecDeque<ipc::Buffer>,
    reader: &mut R,
    block_offset: u64,
    is_little_endian: bool,
    limit: Option<usize>,
    scratch: &mut Vec<u8>,
) -> Result<AnyArray>
    requires { physical_type data_type ≡ layouts.Primitive kind }
    ensures { ReadsFlat (R.told reader.old) (R.told reader.new) data_type is_little_endian limit block_offset
        field_nodes.old.items field_nodes.new.items buffers.old.items buffers.new.items result }
{
    of_kind!(
        kind,
        (
            alloc,
            field_nodes,
            data_type,
            buffers,
            reader,
            block_offset,
            is_little_endian,
            limit,
            scratch
        )
    )
}
