//! Comparisons of stored byte strings, which stand one behind another.
ghost use Rattle.std.specs.Prelude.{◌≡◌, ◌+◌, ◌<◌, ◌≤◌, ◌↔◌, IsTrue, length, slice_index};
ghost use Rattle.nested_arrays_flat.specs.columnar_memory.Spans.{last_of, offsets_of};
ghost use Rattle.nested_arrays_parts.specs.Ranges.{bytes_between, SameLengths, SameStrings};

use nested_arrays_flat::columnar_memory::{Offset, OffsetsBuffer};

/// Whether a byte string is as long as another.
#[tactic(auto, using(crate::proofs::SameStrings::span_length))]
fn same_length<O: Offset>(
    left: &OffsetsBuffer<O>,
    i: usize,
    right: &OffsetsBuffer<O>,
    j: usize,
) -> bool
    requires left_within { i < length left.now.lengths }
    requires right_within { j < length right.now.lengths }
    ensures { IsTrue result ↔ (slice_index left.now.lengths i ≡ slice_index right.now.lengths j) }
{
    let (start, end) = left.start_end(i);
    let (other_start, other_end) = right.start_end(j);
    end - start == other_end - other_start
}

/// Whether so many byte strings from a place on are as long as others from a place on. None ends the loop, so that the compiler can compare many at
/// a time.
fn same_lengths<O: Offset>(
    left: &OffsetsBuffer<O>,
    i: usize,
    right: &OffsetsBuffer<O>,
    j: usize,
    count: usize,
) -> bool
    requires left_within { i + count ≤ length left.now.lengths }
    requires right_within { j + count ≤ length right.now.lengths }
    ensures { IsTrue result ↔ SameLengths left.now.lengths i right.now.lengths j count }
{
    let _left = left.len_proxy();
    let _right = right.len_proxy();
    let mut are_same = true;
    for k in 0..count {
        are_same = are_same & same_length(left, i + k, right, j + k);
    }
    are_same
}

/// The bytes of so many byte strings from a place on.
fn window<'a, O: Offset>(
    offsets: &OffsetsBuffer<O>,
    bytes: &'a [u8],
    i: usize,
    count: usize,
) -> &'a [u8]
    requires some { 0 < count }
    requires within { i + count ≤ length offsets.now.lengths }
    requires bytes { last_of offsets.now ≤ length bytes.now }
    ensures { result.now ≡ bytes_between offsets.now bytes.now i (i + count) }
{
    let _spans = offsets.len_proxy();
    let (start, _) = offsets.start_end(i);
    let (_, end) = offsets.start_end(i + count - 1);
    &bytes[start..end]
}

/// Whether so many byte strings from a place on are others from a place on: they are as long, and so the bytes of all of them are the same.
pub(crate) fn same_spans<O: Offset>(
    left: &OffsetsBuffer<O>,
    bytes: &[u8],
    i: usize,
    right: &OffsetsBuffer<O>,
    other_bytes: &[u8],
    j: usize,
    count: usize,
) -> bool
    requires left_within { i + count ≤ length left.now.lengths }
    requires right_within { j + count ≤ length right.now.lengths }
    requires left_bytes { last_of left.now ≤ length bytes.now }
    requires right_bytes { last_of right.now ≤ length other_bytes.now }
    ensures { IsTrue result ↔ SameStrings (offsets_of left.now) bytes.now i (offsets_of right.now) other_bytes.now j count }
{
    if count == 0 {
        return true;
    }
    if !same_lengths(left, i, right, j, count) {
        return false;
    }
    window(left, bytes, i, count) == window(right, other_bytes, j, count)
}
