//! Slices of offsets.
ghost use Rattle.std.specs.Prelude.{◌≡◌, ◌+◌, ◌<◌, ◌≤◌, ◌↔◌, [], IfOk, IsTrue, length, sum, vec_capacity, vec_len};
ghost use Rattle.columnar_memory_buffer.specs.Spans.{AreOffsets, IsStored, IsWhole, NeverFalls, extended, last_of, offset_at, spans_between, stored};

use columnar_memory_native::Offset;
use std::alloc::{AllocError, Global};

/// The offset at a place, as a number.
pub fn number_at<O: Offset>(offsets: &[O], index: usize) -> usize
    requires offsets_stand { IsStored O.value offsets.now }
    requires within { index ≤ length (stored O.value offsets.now).lengths }
    ensures value { result ≡ offset_at (stored O.value offsets.now) index }
    ensures bound { result ≤ O.greatest }
{
    offsets[index].to_usize()
}

/// How many spans stand between offsets.
pub fn span_count<O: Offset>(offsets: &[O]) -> usize
    requires { IsStored O.value offsets.now }
    ensures count { result ≡ length (stored O.value offsets.now).lengths }
    ensures held { length offsets.now ≡ result + 1 }
{
    offsets.len() - 1
}

/// The offsets of `count` spans, from a place on.
pub fn window_of<O: Offset>(offsets: &[O], start: usize, count: usize) -> &[O]
    requires offsets_stand { IsStored O.value offsets.now }
    requires within { start + count ≤ length (stored O.value offsets.now).lengths }
    ensures { AreOffsets O.value result.now (spans_between (stored O.value offsets.now) start count) }
{
    let _spans = span_count(offsets);
    let _held = offsets.len();
    &offsets[start..start + count + 1]
}

/// Whether there is an offset, and none is negative or below the one before it.
pub fn are_offsets<O: Offset>(offsets: &[O]) -> bool
    ensures { IsTrue result ↔ IsWhole O.value offsets.now }
{
    !offsets.is_empty() && never_falls(offsets)
}

fn never_falls<O: Offset>(offsets: &[O]) -> bool
    ensures { IsTrue result ↔ NeverFalls O.value 0 offsets.now }
{
    let mut last = 0;
    let mut rest = offsets;
    while let Some((offset, tail)) = rest.split_first() {
        let Some(number) = offset.try_to_usize() else {
            return false;
        };
        if number < last {
            return false;
        }
        last = number;
        rest = tail;
    }
    true
}

/// Whether spans as long as those of a slice of offsets, behind one that ends at `last`, end within the greatest offset of a type.
pub fn fit_behind<O: Offset, P: Offset>(last: usize, offsets: &[P]) -> bool
    requires { IsStored P.value offsets.now }
    ensures { IsTrue result ↔ (last + sum (stored P.value offsets.now).lengths ≤ O.greatest) }
{
    let total = number_at(offsets, span_count(offsets)) - number_at(offsets, 0);
    match last.checked_add(total) {
        Some(end) => O::from_usize(end).is_some(),
        None => false,
    }
}

/// The one offset `start`, in memory for this many offsets.
pub fn one_offset<O: Offset>(alloc: Global, start: usize, room: usize) -> Result<Vec<O>, AllocError>
    requires start { start ≤ O.greatest }
    requires room { 0 < room }
    ensures one { IfOk result (λ v. AreOffsets O.value v.items (record { start = start; lengths = [] })) }
    ensures len { IfOk result (λ v. vec_len v ≡ 1) }
    ensures capacity { IfOk result (λ v. vec_capacity v ≡ room) }
{
    match Vec::with_capacity(alloc, room) {
        Ok(mut values) => {
            values.push_reserved(O::from_as_usize(start));
            Ok(values)
        }
        Err(refused) => Err(refused),
    }
}

/// Adds offsets of spans as long as those of a slice behind others, the last of which is `last`. There is memory for them.
pub fn append<O: Offset, P: Offset>(values: &mut Vec<O>, last: usize, offsets: &[P])
    requires stand { IsStored O.value values.old.items }
    requires others_stand { IsStored P.value offsets.now }
    requires last { last ≡ last_of (stored O.value values.old.items) }
    requires fit { last + sum (stored P.value offsets.now).lengths ≤ O.greatest }
    requires room { vec_len values.old + length (stored P.value offsets.now).lengths ≤ vec_capacity values.old }
    ensures { AreOffsets O.value values.new.items (extended (stored O.value values.old.items) (stored P.value offsets.now).lengths) }
{
    let first = number_at(offsets, 0);
    for index in 0..span_count(offsets) {
        let next = number_at(offsets, index + 1);
        let end = last + (next - first);
        values.push_reserved(O::from_as_usize(end));
    }
}
