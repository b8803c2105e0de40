//! Columns of byte strings of one length.
ghost use Rattle.std.specs.Prelude.{◌≡◌, ◌*◌, is_some, true};
ghost use Rattle.std.specs.List.{list_all};
ghost use Rattle.ipc_format_column_writing.specs.column_reading.columnar_memory.Layouts.{physical_type};
ghost use Rattle.ipc_format_column_writing.specs.column_reading.columnar_memory.declared.PhysicalType.TheVariants as layouts;
ghost use Rattle.ipc_format_column_writing.specs.column_reading.columns.SoundColumns.{is_byte};
ghost use Rattle.ipc_format_column_writing.specs.column_reading.Reads.{ReadsColumn};
ghost use Rattle.ipc_format_array_reading.specs.TypedReads.{IsNeeded, StatesSmall, front_array};

use ipc_format_column_writing::column_reading::columnar_memory::{
    Buffer, DataType, Error, PhysicalType, Result,
};
use ipc_format_column_writing::column_reading::messages::{BodyCompressionRef, FieldNode};
use ipc_format_column_writing::column_reading::{Room, messages as ipc, read_bytes, read_marked};
use ipc_format_column_writing::nested_arrays_core::FixedSizeBinaryArray;
use std::alloc::Global;
use std::collections::VecDeque;

/// Hands to a proof that the next buffer states fewer than 2^64 bytes. It changes nothing.
fn read_stated(buffers: &VecDeque<ipc::Buffer>)
    ensures { StatesSmall buffers.now.items }
{
    if let Some(buffer) = buffers.front() {
        let _stated = usize::try_from(buffer.length);
    }
}

/// Reads each byte, by which a proof knows its range. A compiler that looks at such a loop leaves it out.
fn are_bytes(bytes: &[u8])
    ensures { list_all is_byte bytes.now ≡ true }
{
    for byte in bytes {
        let _byte = *byte;
    }
}

/// How many bytes so many strings of a size have. None past 64 bits, which is more than a buffer states.
fn bytes_of(taken: usize, size: usize, buffers: &VecDeque<ipc::Buffer>) -> Option<usize>
    ensures { IsNeeded (taken * size) buffers.now.items result }
{
    match taken.checked_mul(size) {
        Some(needed) => Some(needed),
        None => {
            read_stated(buffers);
            None
        }
    }
}

/// Reads a column of byte strings of one length: a node and two buffers.
///
/// # Errors
/// - `OutOfSpec`: the type is of another kind, and the queues stay; or its strings have no bytes, there is no node or too few buffers, a length
///   or an offset is negative, or a buffer states or has fewer bytes than are taken.
/// - `NotYetImplemented`: the buffers are compressed.
/// - `Io`: the device failed.
/// - `OutOfMemory`: there was no memory for the values, or for what the device reads.
pub fn read_fixed_size_binary<R: Room>(
    alloc: Global,
    field_nodes: &mut VecDeque<FieldNode>,
    data_type: DataType,
    buffers: &mut VecDeque<ipc::Buffer>,
    reader: &mut R,
    block_offset: u64,
    is_little_endian: bool,
    compression: Option<BodyCompressionRef<'_>>,
    limit: Option<usize>,
    scratch: &mut Vec<u8>,
) -> Result<FixedSizeBinaryArray>
    ensures { ReadsColumn (physical_type data_type ≡ layouts.FixedSizeBinary) (is_some compression.entry)
        (R.told reader.old) (R.told reader.new) (λ array. array) data_type
        (front_array data_type field_nodes.old.items buffers.old.items is_little_endian limit block_offset)
        1 2 field_nodes.old.items field_nodes.new.items buffers.old.items buffers.new.items result }
{
    if data_type.to_physical_type() != PhysicalType::FixedSizeBinary {
        return Err(Error::OutOfSpec("InvalidDataType"));
    }
    let size = FixedSizeBinaryArray::get_size(&data_type);
    let marked = read_marked(
        alloc,
        field_nodes,
        buffers,
        reader,
        block_offset,
        is_little_endian,
        compression,
        limit,
        scratch,
    )?;
    let Some(needed) = bytes_of(marked.taken, size, buffers) else {
        return Err(Error::OutOfSpec("InvalidBuffer"));
    };
    let bytes = read_bytes(alloc, buffers, needed, reader, block_offset, compression)?;
    let values = Buffer::from_vec(bytes)?;
    are_bytes(values.as_slice());
    FixedSizeBinaryArray::try_new(data_type, values, marked.validity)
}
