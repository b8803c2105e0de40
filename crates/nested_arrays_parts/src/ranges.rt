//! Comparisons of slots.
ghost use Rattle.std.specs.Prelude.{◌≡◌, ◌+◌, ◌<◌, ◌≤◌, ◌↔◌, ℕ, IsTrue, length, option_copied, true, Some};
ghost use Rattle.std.specs.Option.{ForSome};
ghost use Rattle.nested_arrays_flat.specs.columns.Slots.{null};
ghost use Rattle.nested_arrays_flat.specs.columns.StoredColumns.{column_len, is_valid_at, slot_at};
ghost use Rattle.nested_arrays_parts.specs.Forms.{column_form};
ghost use Rattle.nested_arrays_parts.specs.Ranges.{range_nodes, SameMarks, SameRanges};
ghost use Rattle.nested_arrays_flat.specs.ColumnMasks.{column_mask};

use crate::flats::{FlatArray, FlatNode};
use crate::stored::{holds_numbers, holds_values};
use crate::values::same_values;
use nested_arrays_flat::columnar_memory::{Bitmap, Steps};
use nested_arrays_flat::mark_at;

/// Whether the mask, if there is one, says that a slot has a value.
pub fn is_valid(array: &FlatArray, i: usize) -> bool
    requires { i < column_len array.now }
    ensures { result ≡ is_valid_at (column_mask array.now) i }
{
    array.whole();
    mark_at(array.validity(), i)
}

/// Whether an array is of nulls alone.
fn is_of_nulls(array: &FlatArray) -> bool
    ensures { IsTrue result ↔ (column_form array.now ≡ 0) }
{
    match &array.node {
        FlatNode::Null(array) => {
            array.holds_nulls();
            true
        }
        FlatNode::Boolean(_) => false,
        FlatNode::Primitive(array) => {
            holds_numbers(array);
            false
        }
        FlatNode::Binary(_) => false,
        FlatNode::LargeBinary(_) => false,
        FlatNode::FixedSizeBinary(array) => {
            let _values = array.values();
            false
        }
        FlatNode::Utf8(_) => false,
        FlatNode::LargeUtf8(_) => false,
    }
}

/// Whether a slot is null.
#[tactic(auto, using(crate::proofs::SameForms::nulls_where))]
pub fn is_null(array: &FlatArray, i: usize) -> bool
    requires { i < column_len array.now }
    ensures { IsTrue result ↔ (slot_at array.now i ≡ null) }
{
    holds_values(array);
    if is_valid(array, i) {
        return is_of_nulls(array);
    }
    true
}

/// Whether no mark of a mask, if there is one, from a place on is unset, of so many.
pub fn has_no_nulls(validity: Option<&Bitmap>, i: usize, count: usize) -> bool
    requires { ForSome (option_copied validity) (λ mask. i + count ≤ length mask) }
    ensures { IsTrue result ↔ ((k : ℕ) → k < count → is_valid_at (option_copied validity.entry) (i + k) ≡ true) }
{
    match validity {
        Some(mask) => mask.null_count_range(i, count) == 0,
        None => true,
    }
}

/// Whether a slot of an array is that of another.
fn same_slot(left: &FlatArray, i: usize, right: &FlatArray, j: usize) -> bool
    requires left_within { i < column_len left.now }
    requires right_within { j < column_len right.now }
    ensures { IsTrue result ↔ (slot_at left.now i ≡ slot_at right.now j) }
{
    holds_values(left);
    holds_values(right);
    if is_valid(left, i) {
        if is_valid(right, j) {
            return same_values(left, i, right, j, 1);
        }
        return is_of_nulls(left);
    }
    if is_valid(right, j) {
        return is_of_nulls(right);
    }
    true
}

/// How many slots are compared at once by their marks and stored values, before those that differ are looked at one by one.
const BLOCK: usize = 1024;

/// Whether so many bits of a mask from a place on are those of another from a place on.
fn same_bits(left: &Bitmap, i: usize, right: &Bitmap, j: usize, count: usize) -> bool
    requires left_within { i + count ≤ length left.now }
    requires right_within { j + count ≤ length right.now }
    ensures { IsTrue result → SameMarks (Some left.now) i (Some right.now) j count }
{
    left.same_range(i, right, j, count)
}

/// Whether two masks have the same marks for so many slots from a place on; where there is none, no slot is null.
fn same_marks(
    left: Option<&Bitmap>,
    i: usize,
    right: Option<&Bitmap>,
    j: usize,
    count: usize,
) -> bool
    requires left_within { ForSome (option_copied left) (λ mask. i + count ≤ length mask) }
    requires right_within { ForSome (option_copied right) (λ mask. j + count ≤ length mask) }
    ensures { IsTrue result → SameMarks (option_copied left.entry) i (option_copied right.entry) j count }
{
    if let (Some(left), Some(right)) = (left, right) {
        return same_bits(left, i, right, j, count);
    }
    has_no_nulls(left, i, count) && has_no_nulls(right, j, count)
}

/// Whether so many slots of an array from a place on are those of another. Where marks and stored values are the same, so are the slots; else
/// they are looked at one by one, since values under nulls may differ.
fn same_block(left: &FlatArray, i: usize, right: &FlatArray, j: usize, count: usize) -> bool
    requires left_within { i + count ≤ column_len left.now }
    requires right_within { j + count ≤ column_len right.now }
    ensures { IsTrue result ↔ SameRanges left.now i right.now j count }
{
    left.whole();
    right.whole();
    let _left = left.len();
    let _right = right.len();
    if same_marks(left.validity(), i, right.validity(), j, count)
        && same_values(left, i, right, j, count)
    {
        return true;
    }
    for k in 0..count {
        if !same_slot(left, i + k, right, j + k) {
            return false;
        }
    }
    true
}

/// Whether so many slots of an array from a place on are those of another from a place on. A value under a null is not seen.
fn same_slots(left: &FlatArray, i: usize, right: &FlatArray, j: usize, count: usize) -> bool
    requires left_within { i + count ≤ column_len left.now }
    requires right_within { j + count ≤ column_len right.now }
    ensures { IsTrue result ↔ SameRanges left.now i right.now j count }
{
    left.whole();
    right.whole();
    let _left = left.len();
    let _right = right.len();
    if has_no_nulls(left.validity(), i, count) && has_no_nulls(right.validity(), j, count) {
        return same_values(left, i, right, j, count);
    }
    let mut k = 0;
    while count - k > BLOCK {
        if !same_block(left, i + k, right, j + k, BLOCK) {
            return false;
        }
        k += BLOCK;
    }
    same_block(left, i + k, right, j + k, count - k)
}

/// So many steps more.
pub fn count_each(steps: &mut Steps, count: usize)
    ensures { steps.new.count ≡ steps.old.count + count }
{
    for _ in 0..count {
        steps.tick();
    }
}

/// Whether so many slots of an array from a place on are those of another from a place on, with a step for each slot of the left array that is
/// asked for, whatever the answer. A value under a null is not seen.
pub fn same_slots_counted(
    left: &FlatArray,
    i: usize,
    right: &FlatArray,
    j: usize,
    count: usize,
    steps: &mut Steps,
) -> bool
    requires left_within { i + count ≤ column_len left.now }
    requires right_within { j + count ≤ column_len right.now }
    ensures same { IsTrue result ↔ SameRanges left.now i right.now j count }
    ensures counted { steps.new.count ≡ steps.old.count + count }
    ensures used { IsTrue result → steps.new.count ≡ steps.old.count + range_nodes left.now i count }
{
    holds_values(left);
    count_each(steps, count);
    same_slots(left, i, right, j, count)
}
