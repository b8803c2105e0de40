//! The offsets of byte strings and of lists.
ghost use Rattle.std.specs.Prelude.{◌≡◌, ◌<◌, ◌^◌, ◌==◌, ◌&&◌, is_some, IfOk, length};
ghost use Rattle.ipc_format_column_bytes.specs.streams.columnar_memory.Spans.{offsets_of};
ghost use Rattle.ipc_format_column_reading.specs.Queues.{TakesOff};
ghost use Rattle.ipc_format_column_reading.specs.Reads.{next_offsets, states_less};
ghost use Rattle.ipc_format_column_reading.specs.Rooms.{ReadsAs};

use crate::read_basic::read_buffer;
use crate::room::Room;
use ipc_format_column_bytes::streams::columnar_memory::{Error, Offset, OffsetsBuffer, Result};
use ipc_format_column_bytes::streams::messages as ipc;
use ipc_format_column_bytes::streams::messages::BodyCompressionRef;
use std::alloc::Global;
use std::collections::VecDeque;

/// Whether there is a buffer that states fewer bytes than this.
fn states_less(buffers: &VecDeque<ipc::Buffer>, size: usize) -> bool
    ensures { result ≡ states_less buffers.now.items size }
{
    let Some(buffer) = buffers.front() else {
        return false;
    };
    match usize::try_from(buffer.length) {
        Ok(stated) => stated < size,
        Err(_) => false,
    }
}

/// Whether there are no slots, and a buffer of their offsets that is shorter than one offset.
fn has_no_offset(taken: usize, buffers: &VecDeque<ipc::Buffer>, size: usize) -> bool
    ensures { result ≡ ((taken == 0) && states_less buffers.now.items size) }
{
    taken == 0 && states_less(buffers, size)
}

/// One offset more than there are slots, from the next buffer. Where no slot is taken and the buffer is shorter than one offset, it is not
/// looked at, and the offset is 0.
///
/// # Errors
/// As of `read_buffer`; `OutOfSpec` also where an offset is negative, or below the one before it.
pub fn read_offsets<O: Offset, R: Room>(
    alloc: Global,
    buffers: &mut VecDeque<ipc::Buffer>,
    taken: usize,
    reader: &mut R,
    block_offset: u64,
    is_little_endian: bool,
    compression: Option<BodyCompressionRef<'_>>,
    scratch: &mut Vec<u8>,
) -> Result<OffsetsBuffer<O>>
    requires { taken < 2 ^ 63 }
    ensures read { ReadsAs (is_some compression.entry) (R.told reader.old) (R.told reader.new) offsets_of
        (next_offsets O.IS_LARGE is_little_endian buffers.old.items taken block_offset) result }
    ensures rest { TakesOff 1 buffers.old.items buffers.new.items result }
    ensures size { IfOk result (λ offsets. length offsets.lengths ≡ taken) }
{
    if compression.is_some() {
        return Err(Error::NotYetImplemented("compressed buffers"));
    }
    if has_no_offset(taken, buffers, O::SIZE) {
        let _passed = buffers.pop_front();
        return OffsetsBuffer::new(alloc);
    }
    let numbers = read_buffer::<O, R>(
        alloc,
        buffers,
        taken + 1,
        reader,
        block_offset,
        is_little_endian,
        compression,
        scratch,
    )?;
    OffsetsBuffer::try_from(numbers)
}
