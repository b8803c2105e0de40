//! Comparisons of stored values.
ghost use Rattle.std.specs.Prelude.{◌≡◌, ◌≢◌, ◌+◌, ◌<◌, ◌≤◌, ◌↔◌, IsTrue, length};
ghost use Rattle.nested_arrays_flat.specs.columns.StoredColumns.{column_len, slot_at};
ghost use Rattle.nested_arrays_parts.specs.Forms.{bare, column_form};
ghost use Rattle.nested_arrays_parts.specs.Ranges.{SameRanges};
ghost use Rattle.nested_arrays_flat.specs.FlatColumns.{binary_column, boolean_column, text_column};

use crate::flats::{FlatArray, FlatNode};
use crate::numbers::same_numbers;
use crate::stored::{booleans, bytes, holds_values, numbers, text};
use crate::strings::same_spans;
use nested_arrays_flat::columnar_memory::Offset;
use nested_arrays_flat::flat_arrays::{BinaryArray, BooleanArray, Utf8Array};

/// Whether so many stored booleans from a place on are those of another array from a place on.
fn same_truths(left: &BooleanArray, i: usize, right: &BooleanArray, j: usize, count: usize) -> bool
    requires left_within { i + count ≤ length left.now.values }
    requires right_within { j + count ≤ length right.now.values }
    ensures { IsTrue result ↔ SameRanges (bare (boolean_column left.now)) i (bare (boolean_column right.now)) j count }
{
    left.values().same_range(i, right.values(), j, count)
}

/// Whether two stored values are the same that are neither booleans nor numbers.
fn same_string(left: &FlatArray, i: usize, right: &FlatArray, j: usize) -> bool
    requires left_within { i < column_len left.now }
    requires right_within { j < column_len right.now }
    requires left_truth { column_form left.now ≢ 1 }
    requires left_number { column_form left.now ≢ 2 }
    requires right_truth { column_form right.now ≢ 1 }
    requires right_number { column_form right.now ≢ 2 }
    ensures { IsTrue result ↔ (slot_at (bare left.now) i ≡ slot_at (bare right.now) j) }
{
    holds_values(left);
    holds_values(right);
    match (text(left, i), text(right, j)) {
        (Some(left), Some(right)) => return left == right,
        (None, None) => {}
        _ => return false,
    }
    match (bytes(left, i), bytes(right, j)) {
        (Some(left), Some(right)) => left == right,
        (None, None) => true,
        _ => false,
    }
}

/// Whether so many stored texts from a place on are those of another array from a place on.
fn same_texts<O: Offset>(
    left: &Utf8Array<O>,
    i: usize,
    right: &Utf8Array<O>,
    j: usize,
    count: usize,
) -> bool
    requires left_within { i + count ≤ column_len (text_column left.now) }
    requires right_within { j + count ≤ column_len (text_column right.now) }
    ensures { IsTrue result ↔ SameRanges (bare (text_column left.now)) i (bare (text_column right.now)) j count }
{
    let _left = left.len();
    let _right = right.len();
    let (bytes, other_bytes) = (left.values().as_slice(), right.values().as_slice());
    same_spans(
        left.offsets(),
        bytes,
        i,
        right.offsets(),
        other_bytes,
        j,
        count,
    )
}

/// The same of byte strings.
fn same_byte_strings<O: Offset>(
    left: &BinaryArray<O>,
    i: usize,
    right: &BinaryArray<O>,
    j: usize,
    count: usize,
) -> bool
    requires left_within { i + count ≤ column_len (binary_column left.now) }
    requires right_within { j + count ≤ column_len (binary_column right.now) }
    ensures { IsTrue result ↔ SameRanges (bare (binary_column left.now)) i (bare (binary_column right.now)) j count }
{
    let _left = left.len();
    let _right = right.len();
    let (bytes, other_bytes) = (left.values().as_slice(), right.values().as_slice());
    same_spans(
        left.offsets(),
        bytes,
        i,
        right.offsets(),
        other_bytes,
        j,
        count,
    )
}

/// Whether so many of them from a place on are those of another array from a place on.
fn same_strings(left: &FlatArray, i: usize, right: &FlatArray, j: usize, count: usize) -> bool
    requires left_within { i + count ≤ column_len left.now }
    requires right_within { j + count ≤ column_len right.now }
    requires left_truth { column_form left.now ≢ 1 }
    requires left_number { column_form left.now ≢ 2 }
    requires right_truth { column_form right.now ≢ 1 }
    requires right_number { column_form right.now ≢ 2 }
    ensures { IsTrue result ↔ SameRanges (bare left.now) i (bare right.now) j count }
{
    match (&left.node, &right.node) {
        (FlatNode::Utf8(left), FlatNode::Utf8(right)) => return same_texts(
            left, i, right, j, count,
        ),
        (FlatNode::LargeUtf8(left), FlatNode::LargeUtf8(right)) => {
            return same_texts(left, i, right, j, count);
        }
        (FlatNode::Binary(left), FlatNode::Binary(right)) => {
            return same_byte_strings(left, i, right, j, count);
        }
        (FlatNode::LargeBinary(left), FlatNode::LargeBinary(right)) => {
            return same_byte_strings(left, i, right, j, count);
        }
        _ => {}
    }
    let _left = left.len();
    let _right = right.len();
    for k in 0..count {
        if !same_string(left, i + k, right, j + k) {
            return false;
        }
    }
    true
}

/// Whether so many stored values of an array from a place on, those under nulls too, are those of another from a place on.
pub(crate) fn same_values(
    left: &FlatArray,
    i: usize,
    right: &FlatArray,
    j: usize,
    count: usize,
) -> bool
    requires left_within { i + count ≤ column_len left.now }
    requires right_within { j + count ≤ column_len right.now }
    ensures { IsTrue result ↔ SameRanges (bare left.now) i (bare right.now) j count }
{
    holds_values(left);
    holds_values(right);
    match (booleans(left), booleans(right)) {
        (Some(left), Some(right)) => return same_truths(left, i, right, j, count),
        (None, None) => {}
        _ => return count == 0,
    }
    match (numbers(left), numbers(right)) {
        (Some(left), Some(right)) => same_numbers(left, i, right, j, count),
        (None, None) => same_strings(left, i, right, j, count),
        _ => count == 0,
    }
}
