//! The bytes of offsets (Arrow columnar format, "Variable-size Binary Layout").
ghost use Rattle.std.specs.List.{flat_map, All};
ghost use Rattle.std.specs.Prelude.{◌≡◌, ◌+◌, ◌-◌, ◌*◌, ◌≤◌, ◌≤ℤ◌, ◌++◌, length, pos, true, false};
ghost use Rattle.std.specs.Vec.{vec_capacity, vec_len};
ghost use Rattle.ipc_format_column_bytes.specs.Appends.{Appends};
ghost use Rattle.ipc_format_column_bytes.specs.Numbers.{width_of};
ghost use Rattle.ipc_format_streams.specs.columns.StoredColumns.{cut_list};
ghost use Rattle.ipc_format_streams.specs.grammar.StoredEncoding.{moved_bytes, ordered_bytes};
ghost use Rattle.ipc_format_streams.specs.columnar_memory.Spans.{number_of, offset_at, offsets_of};

use crate::reserved::push_bytes;
use ipc_format_streams::columnar_memory::{Error, Offset, OffsetsBuffer, Result};
use std::convert::AsSlice;
use std::mem::replace;

/// Where the span of a place begins; at the number of spans, where the last one ends.
pub fn offset_at<O: Offset>(offsets: &OffsetsBuffer<O>, place: usize) -> usize
    requires { place ≤ length offsets.now.lengths }
    ensures { result ≡ offset_at offsets.now place }
{
    let _all = offsets.len();
    offsets.as_slice()[place].to_usize()
}

/// Adds the bytes of the offsets of the `count` spans from span `first` on, less the first one, behind some bytes, each offset by itself in
/// the byte order.
///
/// # Errors
/// `OutOfMemory`: the bytes found no memory. Some of them may stand there.
#[tactic(auto, using(crate::proofs::Added::begins_with_itself))]
pub fn append_offsets<O: Offset>(
    to: &mut Vec<u8>,
    offsets: &OffsetsBuffer<O>,
    first: usize,
    count: usize,
    is_little_endian: bool,
) -> Result<()>
    requires { first + count ≤ length offsets.now.lengths }
    ensures { Appends result to.old.items to.new.items
        (moved_bytes is_little_endian (width_of O.IS_LARGE) (cut_list (offsets_of offsets.now) first (count + 1))) }
{
    let start = offset_at(offsets, first);
    let _all = offsets.len();
    let part = &offsets.as_slice()[first..first + count + 1];
    let Some(size) = part.len().checked_mul(O::SIZE) else {
        return Err(Error::OutOfMemory);
    };
    to.reserve(size)?;
    let none = Vec::new(*to.allocator());
    let room = replace(to, none);
    *to = with_offsets(room, part, start, is_little_endian);
    Ok(())
}

/// Some bytes, and behind them those of offsets less a number that is not above them.
fn with_offsets<O: Offset>(
    room: Vec<u8>,
    offsets: &[O],
    first: usize,
    is_little_endian: bool,
) -> Vec<u8>
    requires first { All (λ x. pos first ≤ℤ O.value x) offsets.now }
    requires room { vec_len room + length offsets.now * O.SIZE ≤ vec_capacity room }
    ensures { result.items ≡ room.items
        ++ flat_map (λ x. ordered_bytes is_little_endian (width_of O.IS_LARGE) (number_of (O.value x) - first)) offsets.now }
{
    if is_little_endian {
        with_little(room, offsets, first)
    } else {
        with_big(room, offsets, first)
    }
}

/// The same with the lowest bytes of each offset first.
fn with_little<O: Offset>(room: Vec<u8>, offsets: &[O], first: usize) -> Vec<u8>
    requires first { All (λ x. pos first ≤ℤ O.value x) offsets.now }
    requires room { vec_len room + length offsets.now * O.SIZE ≤ vec_capacity room }
    ensures { result.items ≡ room.items ++ flat_map (λ x. ordered_bytes true (width_of O.IS_LARGE) (number_of (O.value x) - first)) offsets.now }
{
    let mut bytes = room;
    for offset in offsets {
        let moved = O::from_as_usize(offset.to_usize() - first);
        push_bytes(&mut bytes, moved.to_le_bytes().as_slice());
    }
    bytes
}

/// The same with their highest bytes first.
fn with_big<O: Offset>(room: Vec<u8>, offsets: &[O], first: usize) -> Vec<u8>
    requires first { All (λ x. pos first ≤ℤ O.value x) offsets.now }
    requires room { vec_len room + length offsets.now * O.SIZE ≤ vec_capacity room }
    ensures { result.items ≡ room.items ++ flat_map (λ x. ordered_bytes false (width_of O.IS_LARGE) (number_of (O.value x) - first)) offsets.now }
{
    let mut bytes = room;
    for offset in offsets {
        let moved = O::from_as_usize(offset.to_usize() - first);
        push_bytes(&mut bytes, moved.to_be_bytes().as_slice());
    }
    bytes
}
