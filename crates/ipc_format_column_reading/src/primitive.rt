//! Columns of values of one width.
ghost use Rattle.std.specs.Prelude.{◌≡◌, is_some, length, map, IfOk};
ghost use Rattle.ipc_format_column_bytes.specs.flat_arrays.Flat.{IsMaskOf};
ghost use Rattle.ipc_format_column_bytes.specs.streams.columnar_memory.Layouts.{physical_type};
ghost use Rattle.ipc_format_column_bytes.specs.streams.columnar_memory.Numbers.{IsNative, zeros};
ghost use Rattle.ipc_format_column_bytes.specs.streams.columnar_memory.declared.PhysicalType.TheVariants as layouts;
ghost use Rattle.ipc_format_column_bytes.specs.streams.columns.StoredColumns.{flat};
ghost use Rattle.ipc_format_column_reading.specs.FlatColumns.{primitive_column, stored_numbers};
ghost use Rattle.ipc_format_column_reading.specs.Queues.{Skips};
ghost use Rattle.ipc_format_column_reading.specs.Reads.{ReadsColumn, front_slots};

use crate::marked::read_marked;
use crate::queues::skip_own;
use crate::read_basic::read_buffer;
use crate::room::Room;
use ipc_format_column_bytes::flat_arrays::PrimitiveArray;
use ipc_format_column_bytes::streams::columnar_memory::{
    Bitmap, Buffer, DataType, Error, NativeType, Result,
};
use ipc_format_column_bytes::streams::messages as ipc;
use ipc_format_column_bytes::streams::messages::{BodyCompressionRef, FieldNode};
use std::alloc::Global;
use std::collections::VecDeque;

/// Hands to a proof that the values of a type are no floats. It changes nothing.
fn has_numbers<T: NativeType>()
    ensures { IsNative T.PRIMITIVE (zeros T.PRIMITIVE) }
{
    let zero = T::default();
    let _bytes = zero.to_le_bytes();
}

/// The values and the validity of a column, whose type is looked at before.
fn read_numbers<T: NativeType, R: Room>(
    alloc: Global,
    field_nodes: &mut VecDeque<FieldNode>,
    data_type: &DataType,
    buffers: &mut VecDeque<ipc::Buffer>,
    reader: &mut R,
    block_offset: u64,
    is_little_endian: bool,
    compression: Option<BodyCompressionRef<'_>>,
    limit: Option<usize>,
    scratch: &mut Vec<u8>,
) -> Result<(Buffer<T>, Option<Bitmap>)>
    ensures read { ReadsColumn (physical_type data_type.now ≡ layouts.Primitive T.PRIMITIVE) (is_some compression.entry)
        (R.told reader.old) (R.told reader.new)
        (λ parts. flat data_type.now parts.1 (stored_numbers T.PRIMITIVE (map T.numbers parts.0))) data_type.now
        (front_slots data_type.now field_nodes.old.items buffers.old.items is_little_endian limit block_offset)
        1 2 field_nodes.old.items field_nodes.new.items buffers.old.items buffers.new.items result }
    ensures size { IfOk result (λ parts. IsMaskOf (length parts.0) parts.1) }
{
    has_numbers::<T>();
    if !data_type.to_physical_type().eq_primitive(T::PRIMITIVE) {
        return Err(Error::OutOfSpec("InvalidDataType"));
    }
    let marked = read_marked(
        alloc,
        field_nodes,
        buffers,
        reader,
        block_offset,
        is_little_endian,
        compression,
        limit,
        scratch,
    )?;
    let values = read_buffer::<T, R>(
        alloc,
        buffers,
        marked.taken,
        reader,
        block_offset,
        is_little_endian,
        compression,
        scratch,
    )?;
    Ok((values, marked.validity))
}

/// Reads a column of values of one width: a node and two buffers.
///
/// # Errors
/// - `OutOfSpec`: the type is of another kind, and the queues stay; or there is no node or too few buffers, a length or an offset is
///   negative, or a buffer states or has fewer bytes than are taken.
/// - `NotYetImplemented`: the buffers are compressed.
/// - `Io`: the device failed.
/// - `OutOfMemory`: there was no memory for the values, or for what the device reads.
pub fn read_primitive<T: NativeType, R: Room>(
    alloc: Global,
    field_nodes: &mut VecDeque<FieldNode>,
    data_type: DataType,
    buffers: &mut VecDeque<ipc::Buffer>,
    reader: &mut R,
    block_offset: u64,
    is_little_endian: bool,
    compression: Option<BodyCompressionRef<'_>>,
    limit: Option<usize>,
    scratch: &mut Vec<u8>,
) -> Result<PrimitiveArray<T>>
    ensures { ReadsColumn (physical_type data_type ≡ layouts.Primitive T.PRIMITIVE) (is_some compression.entry)
        (R.told reader.old) (R.told reader.new) (primitive_column T.PRIMITIVE T.numbers) data_type
        (front_slots data_type field_nodes.old.items buffers.old.items is_little_endian limit block_offset)
        1 2 field_nodes.old.items field_nodes.new.items buffers.old.items buffers.new.items result }
{
    let parts = read_numbers::<T, R>(
        alloc,
        field_nodes,
        &data_type,
        buffers,
        reader,
        block_offset,
        is_little_endian,
        compression,
        limit,
        scratch,
    )?;
    Ok(PrimitiveArray::new(data_type, parts.0, parts.1))
}

/// Passes over a column of values of one width: a node and two buffers.
///
/// # Errors
/// `OutOfSpec`: there are fewer. Each queue then holds an end of what it held.
pub fn skip_primitive(
    field_nodes: &mut VecDeque<FieldNode>,
    buffers: &mut VecDeque<ipc::Buffer>,
) -> Result<()>
    ensures { Skips 1 2 field_nodes.old.items field_nodes.new.items buffers.old.items buffers.new.items result }
{
    skip_own(field_nodes, buffers, 2)
}
