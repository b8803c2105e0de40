//! The buffers of a column: their bytes as values, as bits, as bytes.
ghost use Rattle.std.specs.Prelude.{◌≡◌, ◌+◌, ◌*◌, ◌/◌, ◌<◌, ◌^◌, [], length, drop, map, is_some, vec_items, IfOk, IfSome, Some};
ghost use Rattle.std.specs.Option.{ForSome, option_map};
ghost use Rattle.ipc_format_column_bytes.specs.flat_arrays.Flat.{IsMaskOf};
ghost use Rattle.ipc_format_column_bytes.specs.streams.columnar_memory.Error.{IsOutOfMemory};
ghost use Rattle.ipc_format_column_reading.specs.Queues.{TakesOff};
ghost use Rattle.ipc_format_column_reading.specs.Buffers.{next_bits, next_stated, next_validity, next_values, next_window, taken_in, values_in};
ghost use Rattle.ipc_format_column_reading.specs.Rooms.{ReadsAs};

use crate::room::{Room, window_from};
use ipc_format_column_bytes::streams::columnar_memory::{
    Bitmap, Buffer, Error, NativeType, Result,
};
use ipc_format_column_bytes::streams::messages as ipc;
use ipc_format_column_bytes::streams::messages::{BodyCompressionRef, FieldNode};
use std::alloc::{AllocError, Global};
use std::collections::VecDeque;

/// Takes the next buffer off: where it begins, and how many bytes it states. None where there is no buffer, or where one of both is negative.
fn next_stated(buffers: &mut VecDeque<ipc::Buffer>) -> Option<(u64, usize)>
    ensures value { result ≡ next_stated buffers.old.items }
    ensures rest { buffers.new.items ≡ drop 1 buffers.old.items }
    ensures one { IfSome result (λ found. 0 < length buffers.old.items) }
    ensures small { IfSome result (λ found. found.1 < 2 ^ 64) }
{
    let buffer = buffers.pop_front()?;
    let offset = u64::try_from(buffer.offset).ok()?;
    let stated = usize::try_from(buffer.length).ok()?;
    Some((offset, stated))
}

/// The first `count` bytes of the next buffer.
///
/// # Errors
/// As of `read_buffer`.
#[tactic(auto, using(crate::proofs::NextBuffers::windows))]
pub fn read_bytes<R: Room>(
    alloc: Global,
    buffers: &mut VecDeque<ipc::Buffer>,
    count: usize,
    reader: &mut R,
    block_offset: u64,
    compression: Option<BodyCompressionRef<'_>>,
) -> Result<Vec<u8>>
    ensures read { ReadsAs (is_some compression.entry) (R.told reader.old) (R.told reader.new) vec_items
        (next_window buffers.old.items block_offset count) result }
    ensures taken { TakesOff 1 buffers.old.items buffers.new.items result }
    ensures size { IfOk result (λ bytes. length bytes.items ≡ count) }
{
    if compression.is_some() {
        return Err(Error::NotYetImplemented("compressed buffers"));
    }
    let Some((offset, stated)) = next_stated(buffers) else {
        return Err(Error::OutOfSpec("ExpectedBuffer"));
    };
    if stated < count {
        return Err(Error::OutOfSpec("InvalidBuffer"));
    }
    let mut bytes = Vec::new(alloc);
    match reader.fill_from(block_offset, offset, count, &mut bytes) {
        Ok(()) => Ok(bytes),
        Err(error) => Err(error),
    }
}

/// How many bytes so many bits take.
fn bytes_for(bits: usize) -> usize
    ensures { result ≡ (bits + 7) / 8 }
{
    let whole = bits / 8;
    if bits % 8 > 0 { whole + 1 } else { whole }
}

/// The first `count` bits of the next buffer. Their byte order is one, and the scratch is not used.
///
/// # Errors
/// As of `read_buffer`.
pub fn read_bitmap<R: Room>(
    alloc: Global,
    buffers: &mut VecDeque<ipc::Buffer>,
    count: usize,
    reader: &mut R,
    block_offset: u64,
    _is_little_endian: bool,
    compression: Option<BodyCompressionRef<'_>>,
    _scratch: &mut Vec<u8>,
) -> Result<Bitmap>
    ensures read { ReadsAs (is_some compression.entry) (R.told reader.old) (R.told reader.new) (λ bits. bits)
        (next_bits buffers.old.items block_offset count) result }
    ensures taken { TakesOff 1 buffers.old.items buffers.new.items result }
    ensures size { IfOk result (λ bits. length bits ≡ count) }
{
    let needed = bytes_for(count);
    let bytes = match read_bytes(alloc, buffers, needed, reader, block_offset, compression) {
        Ok(bytes) => bytes,
        Err(error) => return Err(error),
    };
    match Bitmap::from_u8_vec(bytes, count) {
        Ok(bits) => Ok(bits),
        Err(_) => Err(Error::OutOfMemory),
    }
}

/// How many slots are taken of a column: as many as its node has, and no more than the limit. None where the node's number is negative.
pub fn slots_taken(node: FieldNode, limit: Option<usize>) -> Option<usize>
    ensures value { result ≡ taken_in limit node }
    ensures small { IfSome result (λ taken. taken < 2 ^ 63) }
{
    let count = usize::try_from(node.length).ok()?;
    match limit {
        Some(limit) => Some(limit.min(count)),
        None => Some(count),
    }
}

/// The validity of a column's slots: the bitmap of the next buffer where the node counts nulls, and else none, and the buffer is passed over.
///
/// # Errors
/// As of `read_buffer`; `OutOfSpec` also where the node's length is negative.
pub fn read_validity<R: Room>(
    alloc: Global,
    buffers: &mut VecDeque<ipc::Buffer>,
    field_node: FieldNode,
    reader: &mut R,
    block_offset: u64,
    is_little_endian: bool,
    compression: Option<BodyCompressionRef<'_>>,
    limit: Option<usize>,
    scratch: &mut Vec<u8>,
) -> Result<Option<Bitmap>>
    ensures read { ReadsAs (is_some compression.entry) (R.told reader.old) (R.told reader.new) (λ validity. validity)
        (next_validity field_node limit buffers.old.items block_offset) result }
    ensures taken { TakesOff 1 buffers.old.items buffers.new.items result }
    ensures size { IfOk result (λ validity. ForSome (taken_in limit field_node) (λ taken. IsMaskOf taken validity)) }
{
    if compression.is_some() {
        return Err(Error::NotYetImplemented("compressed buffers"));
    }
    let Some(count) = slots_taken(field_node, limit) else {
        return Err(Error::OutOfSpec("UnexpectedNegativeInteger"));
    };
    if field_node.null_count > 0 {
        return match read_bitmap(
            alloc,
            buffers,
            count,
            reader,
            block_offset,
            is_little_endian,
            compression,
            scratch,
        ) {
            Ok(bits) => Ok(Some(bits)),
            Err(error) => Err(error),
        };
    }
    if buffers.pop_front().is_none() {
        return Err(Error::OutOfSpec("ExpectedBuffer"));
    }
    Ok(None)
}

/// The values that some bytes spell, one after another. There is room for all of them before the first one, so the loop asks for no memory and
/// becomes a copy of many at a time.
fn decoded<T: NativeType>(
    alloc: Global,
    bytes: &[u8],
    count: usize,
    is_little_endian: bool,
) -> std::result::Result<Vec<T>, AllocError>
    requires { length bytes.now ≡ count * T.SIZE }
    ensures { IfOk result (λ values. map T.numbers values.items ≡ values_in T.PRIMITIVE is_little_endian count bytes.now) }
{
    let mut values = Vec::with_capacity(alloc, count)?;
    for chunk in bytes.chunks_exact(T::SIZE) {
        let spelled = T::bytes_from_slice(chunk);
        let value = if is_little_endian {
            T::from_le_bytes(spelled)
        } else {
            T::from_be_bytes(spelled)
        };
        values.push_reserved(value);
    }
    Ok(values)
}

/// The values that some bytes spell, as a buffer.
fn buffer_of<T: NativeType>(
    alloc: Global,
    bytes: &[u8],
    count: usize,
    is_little_endian: bool,
) -> Option<Buffer<T>>
    requires { length bytes.now ≡ count * T.SIZE }
    ensures { IfSome result (λ values. map T.numbers values ≡ values_in T.PRIMITIVE is_little_endian count bytes.now) }
{
    let values = decoded(alloc, bytes, count, is_little_endian).ok()?;
    Buffer::from_vec(values).ok()
}

/// The first `count` values of the next buffer.
///
/// # Errors
/// - `NotYetImplemented`: the buffers are compressed.
/// - `OutOfSpec`: there is no buffer, its offset or length is negative, or it has fewer bytes.
/// - `Io`: the device failed.
/// - `OutOfMemory`: there was no memory for the values, or for what the device reads.
#[tactic(auto, using(crate::proofs::NextBuffers::windows))]
pub fn read_buffer<T: NativeType, R: Room>(
    alloc: Global,
    buffers: &mut VecDeque<ipc::Buffer>,
    count: usize,
    reader: &mut R,
    block_offset: u64,
    is_little_endian: bool,
    compression: Option<BodyCompressionRef<'_>>,
    scratch: &mut Vec<u8>,
) -> Result<Buffer<T>>
    ensures read { ReadsAs (is_some compression.entry) (R.told reader.old) (R.told reader.new) (map T.numbers)
        (next_values T.PRIMITIVE is_little_endian buffers.old.items block_offset count) result }
    ensures taken { TakesOff 1 buffers.old.items buffers.new.items result }
    ensures size { IfOk result (λ values. length values ≡ count) }
{
    if compression.is_some() {
        return Err(Error::NotYetImplemented("compressed buffers"));
    }
    let Some((offset, stated)) = next_stated(buffers) else {
        return Err(Error::OutOfSpec("ExpectedBuffer"));
    };
    let Some(needed) = count.checked_mul(T::SIZE) else {
        return Err(Error::OutOfSpec("InvalidBuffer"));
    };
    if stated < needed {
        return Err(Error::OutOfSpec("InvalidBuffer"));
    }
    if let Some(bytes) = reader.as_memory() {
        let Some(part) = window_from(bytes, block_offset, offset, needed) else {
            return Err(Error::OutOfSpec("InvalidBuffer"));
        };
        return match buffer_of(alloc, part, count, is_little_endian) {
            Some(values) => Ok(values),
            None => Err(Error::OutOfMemory),
        };
    }
    match reader.fill_from(block_offset, offset, needed, scratch) {
        Ok(()) => match buffer_of(alloc, scratch, count, is_little_endian) {
            Some(values) => Ok(values),
            None => Err(Error::OutOfMemory),
        },
        Err(error) => Err(error),
    }
}
