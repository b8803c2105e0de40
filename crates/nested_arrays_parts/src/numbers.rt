//! Comparisons of stored numbers.
ghost use Rattle.std.specs.Prelude.{◌≡◌, ◌+◌, ◌≤◌, ◌↔◌, IsTrue, length, map};
ghost use Rattle.nested_arrays_flat.specs.columns.StoredColumns.{column_len};
ghost use Rattle.nested_arrays_parts.specs.Forms.{bare};
ghost use Rattle.nested_arrays_parts.specs.Ranges.{number_slot, SameRanges, SameStored};
ghost use Rattle.nested_arrays_flat.specs.FlatColumns.{primitive_column, stored_numbers};

use crate::stored::holds_numbers;
use nested_arrays_flat::columnar_memory::NativeType;
use nested_arrays_flat::flat_arrays::PrimitiveArray;
use nested_arrays_flat::{AnyPrimitive, PrimitiveKind, PrimitiveNode};

/// Whether two numbers of a kind are the same.
#[tactic(auto, using(crate::proofs::SameNumbers::same_native))]
fn same_number<T: NativeType>(left: T, right: T) -> bool
    ensures { IsTrue result ↔ (number_slot T.PRIMITIVE (T.numbers left) ≡ number_slot T.PRIMITIVE (T.numbers right)) }
{
    let _left = left.to_le_bytes();
    let _right = right.to_le_bytes();
    left == right
}

/// How many numbers are compared before it is asked whether they are the same.
const BLOCK: usize = 64;

/// Whether so many numbers from a place on are those of others from a place on. No number ends the loop, so that the compiler can compare many at a
/// time.
fn same_block<T: NativeType>(left: &[T], i: usize, right: &[T], j: usize, count: usize) -> bool
    requires left_within { i + count ≤ length left.now }
    requires right_within { j + count ≤ length right.now }
    ensures { IsTrue result ↔ SameStored (stored_numbers T.PRIMITIVE (map T.numbers left.now)) i
        (stored_numbers T.PRIMITIVE (map T.numbers right.now)) j count }
{
    let mut are_same = true;
    for k in 0..count {
        are_same = are_same & same_number(left[i + k], right[j + k]);
    }
    are_same
}

/// The same, ended by the first block that is another.
fn same_values<T: NativeType>(left: &[T], i: usize, right: &[T], j: usize, count: usize) -> bool
    requires left_within { i + count ≤ length left.now }
    requires right_within { j + count ≤ length right.now }
    ensures { IsTrue result ↔ SameStored (stored_numbers T.PRIMITIVE (map T.numbers left.now)) i
        (stored_numbers T.PRIMITIVE (map T.numbers right.now)) j count }
{
    let mut k = 0;
    while count - k > BLOCK {
        if !same_block(left, i + k, right, j + k, BLOCK) {
            return false;
        }
        k += BLOCK;
    }
    same_block(left, i + k, right, j + k, count - k)
}

/// The same, where the others may be of another kind.
fn same_part<T: PrimitiveKind>(
    left: &PrimitiveArray<T>,
    i: usize,
    right: &AnyPrimitive,
    j: usize,
    count: usize,
) -> bool
    requires left_within { i + count ≤ column_len (primitive_column T.PRIMITIVE T.numbers left.now) }
    requires right_within { j + count ≤ column_len right.now }
    ensures { IsTrue result ↔ SameRanges (bare (primitive_column T.PRIMITIVE T.numbers left.now)) i (bare right.now) j count }
{
    right.whole();
    holds_numbers(right);
    match T::values(right) {
        Some(values) => same_values(left.values().as_slice(), i, values.as_slice(), j, count),
        None => count == 0,
    }
}

/// Whether so many stored numbers of an array from a place on are those of another from a place on.
pub(crate) fn same_numbers(
    left: &AnyPrimitive,
    i: usize,
    right: &AnyPrimitive,
    j: usize,
    count: usize,
) -> bool
    requires left_within { i + count ≤ column_len left.now }
    requires right_within { j + count ≤ column_len right.now }
    ensures { IsTrue result ↔ SameRanges (bare left.now) i (bare right.now) j count }
{
    match &left.node {
        PrimitiveNode::Int8(array) => same_part(array, i, right, j, count),
        PrimitiveNode::Int16(array) => same_part(array, i, right, j, count),
        PrimitiveNode::Int32(array) => same_part(array, i, right, j, count),
        PrimitiveNode::Int64(array) => same_part(array, i, right, j, count),
        PrimitiveNode::Int128(array) => same_part(array, i, right, j, count),
        PrimitiveNode::Int256(array) => same_part(array, i, right, j, count),
        PrimitiveNode::UInt8(array) => same_part(array, i, right, j, count),
        PrimitiveNode::UInt16(array) => same_part(array, i, right, j, count),
        PrimitiveNode::UInt32(array) => same_part(array, i, right, j, count),
        PrimitiveNode::UInt64(array) => same_part(array, i, right, j, count),
        PrimitiveNode::DaysMs(array) => same_part(array, i, right, j, count),
        PrimitiveNode::MonthsDaysNs(array) => same_part(array, i, right, j, count),
    }
}
