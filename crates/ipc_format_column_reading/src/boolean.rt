//! Columns of booleans.
ghost use Rattle.std.specs.Prelude.{◌≡◌, is_some, length, IfOk};
ghost use Rattle.ipc_format_column_bytes.specs.flat_arrays.Flat.{IsMaskOf};
ghost use Rattle.ipc_format_column_bytes.specs.streams.columnar_memory.Layouts.{physical_type};
ghost use Rattle.ipc_format_column_bytes.specs.streams.columnar_memory.declared.PhysicalType.TheVariants as layouts;
ghost use Rattle.ipc_format_column_bytes.specs.streams.columns.StoredColumns.{flat, bits};
ghost use Rattle.ipc_format_column_reading.specs.FlatColumns.{boolean_column};
ghost use Rattle.ipc_format_column_reading.specs.Queues.{Skips};
ghost use Rattle.ipc_format_column_reading.specs.Reads.{ReadsColumn, front_slots};

use crate::marked::read_marked;
use crate::queues::skip_own;
use crate::read_basic::read_bitmap;
use crate::room::Room;
use ipc_format_column_bytes::flat_arrays::BooleanArray;
use ipc_format_column_bytes::streams::columnar_memory::{
    Bitmap, DataType, Error, PhysicalType, Result,
};
use ipc_format_column_bytes::streams::messages as ipc;
use ipc_format_column_bytes::streams::messages::{BodyCompressionRef, Buffer, FieldNode};
use std::alloc::Global;
use std::collections::VecDeque;

/// The values and the validity of a column, whose type is looked at before.
fn read_bits<R: Room>(
    alloc: Global,
    field_nodes: &mut VecDeque<FieldNode>,
    data_type: &DataType,
    buffers: &mut VecDeque<ipc::Buffer>,
    reader: &mut R,
    block_offset: u64,
    is_little_endian: bool,
    compression: Option<BodyCompressionRef<'_>>,
    limit: Option<usize>,
    scratch: &mut Vec<u8>,
) -> Result<(Bitmap, Option<Bitmap>)>
    ensures read { ReadsColumn (physical_type data_type.now ≡ layouts.Boolean) (is_some compression.entry)
        (R.told reader.old) (R.told reader.new) (λ parts. flat data_type.now parts.1 (bits parts.0)) data_type.now
        (front_slots data_type.now field_nodes.old.items buffers.old.items is_little_endian limit block_offset)
        1 2 field_nodes.old.items field_nodes.new.items buffers.old.items buffers.new.items result }
    ensures size { IfOk result (λ parts. IsMaskOf (length parts.0) parts.1) }
{
    if data_type.to_physical_type() != PhysicalType::Boolean {
        return Err(Error::OutOfSpec("InvalidDataType"));
    }
    let marked = read_marked(
        alloc,
        field_nodes,
        buffers,
        reader,
        block_offset,
        is_little_endian,
        compression,
        limit,
        scratch,
    )?;
    let values = read_bitmap(
        alloc,
        buffers,
        marked.taken,
        reader,
        block_offset,
        is_little_endian,
        compression,
        scratch,
    )?;
    Ok((values, marked.validity))
}

/// Reads a column of booleans: a node and two buffers.
///
/// # Errors
/// - `OutOfSpec`: the type is of another kind, and the queues stay; or there is no node or too few buffers, a length or an offset is
///   negative, or a buffer states or has fewer bytes than are taken.
/// - `NotYetImplemented`: the buffers are compressed.
/// - `Io`: the device failed.
/// - `OutOfMemory`: there was no memory for the values, or for what the device reads.
pub fn read_boolean<R: Room>(
    alloc: Global,
    field_nodes: &mut VecDeque<FieldNode>,
    data_type: DataType,
    buffers: &mut VecDeque<ipc::Buffer>,
    reader: &mut R,
    block_offset: u64,
    is_little_endian: bool,
    compression: Option<BodyCompressionRef<'_>>,
    limit: Option<usize>,
    scratch: &mut Vec<u8>,
) -> Result<BooleanArray>
    ensures { ReadsColumn (physical_type data_type ≡ layouts.Boolean) (is_some compression.entry)
        (R.told reader.old) (R.told reader.new) (boolean_column) data_type
        (front_slots data_type field_nodes.old.items buffers.old.items is_little_endian limit block_offset)
        1 2 field_nodes.old.items field_nodes.new.items buffers.old.items buffers.new.items result }
{
    let parts = read_bits(
        alloc,
        field_nodes,
        &data_type,
        buffers,
        reader,
        block_offset,
        is_little_endian,
        compression,
        limit,
        scratch,
    )?;
    Ok(BooleanArray::new(data_type, parts.0, parts.1))
}

/// Passes over a column of booleans: a node and two buffers.
///
/// # Errors
/// `OutOfSpec`: there are fewer. Each queue then holds an end of what it held.
pub fn skip_boolean(
    field_nodes: &mut VecDeque<FieldNode>,
    buffers: &mut VecDeque<Buffer>,
) -> Result<()>
    ensures { Skips 1 2 field_nodes.old.items field_nodes.new.items buffers.old.items buffers.new.items result }
{
    skip_own(field_nodes, buffers, 2)
}
