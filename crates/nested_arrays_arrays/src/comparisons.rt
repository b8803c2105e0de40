//! Equality of arrays by their slots. A step is counted for each slot of the left side that is compared with one of the right; a run of slots of
//! arrays without children, one of records and one of lists is counted as a whole.
ghost use Rattle.std.specs.Prelude.{◌≡◌, ◌+◌, ◌<◌, ◌≤◌, ◌↔◌, IsTrue};
ghost use Rattle.nested_arrays_parts.specs.columns.SlotNodes.{nodes_of, slot_nodes};
ghost use Rattle.nested_arrays_parts.specs.columns.Slots.{in_slots, items, null, pick, window};
ghost use Rattle.nested_arrays_parts.specs.columns.StoredColumns.{column_len, column_type, in_columns, slot_at, slots_at};
ghost use Rattle.nested_arrays_parts.specs.Ranges.{range_nodes, SameRanges};
ghost use Rattle.nested_arrays_arrays.specs.Places.{columns_nodes, HavePlace, HaveRange, IsKeyless, SameFields};

use crate::any::AnyArray;
use crate::keys::value_of;
use crate::list_runs::list_run;
use crate::named_runs::same_named_run;
use crate::places::{fields_at, flat, items_at, pick_at, records_at, values_at};
use nested_arrays_parts::columnar_memory::Steps;
use nested_arrays_parts::{count_each, same_slots_counted};

/// Whether two arrays have one data type.
pub(crate) fn same_types(left: &AnyArray, right: &AnyArray) -> bool
    ensures { IsTrue result ↔ (column_type left.now ≡ column_type right.now) }
{
    *left.data_type() == *right.data_type()
}

/// Whether so many slots of an array from a place on are those of another from a place on.
#[cycle(comparing)]
pub(crate) fn same_range(
    left: &AnyArray,
    i: usize,
    right: &AnyArray,
    j: usize,
    count: usize,
    steps: &mut Steps,
) -> bool
    requires left_within { i + count ≤ column_len left.now }
    requires right_within { j + count ≤ column_len right.now }
    ensures same { IsTrue result ↔ SameRanges left.now i right.now j count }
    ensures counted { steps.new.count ≤ steps.old.count + range_nodes left.now i count }
    ensures used { IsTrue result → steps.new.count ≡ steps.old.count + range_nodes left.now i count }
{
    if let (Some(left), Some(right)) = (flat(left), flat(right)) {
        return same_slots_counted(left, i, right, j, count, steps);
    }
    if let (Some(fields), Some(others)) = (
        records_at(left, i, count),
        records_at(right, j, count),
    ) {
        count_each(steps, count);
        return same_columns(fields, i, others, j, count, steps);
    }
    if let Some(same) = same_named_run(left, i, right, j, count, steps) {
        return same;
    }
    let _left = left.len();
    let _right = right.len();
    let mut k = 0;
    while k < count {
        match list_run(left, i + k, right, j + k, count - k) {
            Some(run) => {
                count_each(steps, run.count);
                let (items, others) = (run.items, run.others);
                if !same_range(items, run.start, others, run.other_start, run.len, steps) {
                    return false;
                }
                k += run.count;
            }
            None => {
                if !same_slot(left, i + k, right, j + k, steps) {
                    return false;
                }
                k += 1;
            }
        }
    }
    true
}

/// Whether so many slots of several arrays from a place on are those of as many others.
#[cycle(comparing)]
fn same_columns(
    left: &[AnyArray],
    i: usize,
    right: &[AnyArray],
    j: usize,
    count: usize,
    steps: &mut Steps,
) -> bool
    requires left_within { HaveRange (in_columns left.now) i count }
    requires right_within { HaveRange (in_columns right.now) j count }
    ensures same { IsTrue result ↔ SameFields (in_columns left.now) i (in_columns right.now) j count }
    ensures counted { steps.new.count ≤ steps.old.count + columns_nodes (in_columns left.now) i count }
    ensures used { IsTrue result → steps.new.count ≡ steps.old.count + columns_nodes (in_columns left.now) i count }
{
    match left.split_first() {
        Some((array, arrays)) => match right.split_first() {
            Some((other, others)) => {
                if !same_range(array, i, other, j, count, steps) {
                    return false;
                }
                same_columns(arrays, i, others, j, count, steps)
            }
            None => count == 0,
        },
        None => match right.split_first() {
            Some(_) => count == 0,
            None => true,
        },
    }
}

/// Whether a slot of an array is that of another.
#[cycle(comparing)]
pub fn same_slot(left: &AnyArray, i: usize, right: &AnyArray, j: usize, steps: &mut Steps) -> bool
    requires left_within { i < column_len left.now }
    requires right_within { j < column_len right.now }
    ensures same { IsTrue result ↔ (slot_at left.now i ≡ slot_at right.now j) }
    ensures counted { steps.new.count ≤ steps.old.count + slot_nodes (slot_at left.now i) }
    ensures used { IsTrue result → steps.new.count ≡ steps.old.count + slot_nodes (slot_at left.now i) }
{
    let (values, place) = value_of(left, i);
    let (others, other_place) = value_of(right, j);
    if let (Some(values), Some(others)) = (flat(values), flat(others)) {
        return same_slots_counted(values, place, others, other_place, 1, steps);
    }
    same_value(values, place, others, other_place, steps)
}

/// The same of slots whose values no keys name.
#[cycle(comparing)]
fn same_value(left: &AnyArray, i: usize, right: &AnyArray, j: usize, steps: &mut Steps) -> bool
    requires left_within { i < column_len left.now }
    requires right_within { j < column_len right.now }
    requires left_keyless { IsKeyless left.now i }
    requires right_keyless { IsKeyless right.now j }
    ensures same { IsTrue result ↔ (slot_at left.now i ≡ slot_at right.now j) }
    ensures counted { steps.new.count ≤ steps.old.count + slot_nodes (slot_at left.now i) }
    ensures used { IsTrue result → steps.new.count ≡ steps.old.count + slot_nodes (slot_at left.now i) }
{
    match (values_at(left, i), values_at(right, j)) {
        (Some(values), Some(others)) => return same_slots_counted(values, i, others, j, 1, steps),
        (None, None) => steps.tick(),
        _ => {
            steps.tick();
            return false;
        }
    }
    match (items_at(left, i), items_at(right, j)) {
        (Some((child, start, len)), Some((other, other_start, other_len))) => {
            return same_items(child, start, len, other, other_start, other_len, steps);
        }
        (None, None) => {}
        _ => return false,
    }
    match (fields_at(left, i), fields_at(right, j)) {
        (Some(children), Some(others)) => return same_fields(children, i, others, j, steps),
        (None, None) => {}
        _ => return false,
    }
    match (pick_at(left, i), pick_at(right, j)) {
        (Some((child, place)), Some((other, other_place))) => same_pick(
            child,
            place,
            other,
            other_place,
            steps,
        ),
        (None, None) => true,
        _ => false,
    }
}

/// Whether the items of a list, so many from a place on, are those of another.
#[cycle(comparing)]
pub fn same_items(
    left: &AnyArray,
    i: usize,
    count: usize,
    right: &AnyArray,
    j: usize,
    other_count: usize,
    steps: &mut Steps,
) -> bool
    requires left_within { i + count ≤ column_len left.now }
    requires right_within { j + other_count ≤ column_len right.now }
    ensures same { IsTrue result
        ↔ (items (in_slots (window (slot_at left.now) i count)) ≡ items (in_slots (window (slot_at right.now) j other_count))) }
    ensures counted { steps.new.count ≤ steps.old.count + range_nodes left.now i count }
    ensures used { IsTrue result → steps.new.count ≡ steps.old.count + range_nodes left.now i count }
{
    if count != other_count {
        return false;
    }
    same_range(left, i, right, j, count, steps)
}

/// Whether the slots at a place of several arrays are those of as many others.
#[cycle(comparing)]
pub(crate) fn same_fields(
    left: &[AnyArray],
    i: usize,
    right: &[AnyArray],
    j: usize,
    steps: &mut Steps,
) -> bool
    requires left_within { HavePlace (in_columns left.now) i }
    requires right_within { HavePlace (in_columns right.now) j }
    ensures same { IsTrue result ↔ (slots_at (in_columns left.now) i ≡ slots_at (in_columns right.now) j) }
    ensures counted { steps.new.count ≤ steps.old.count + nodes_of (slots_at (in_columns left.now) i) }
    ensures used { IsTrue result → steps.new.count ≡ steps.old.count + nodes_of (slots_at (in_columns left.now) i) }
{
    match left.split_first() {
        Some((array, arrays)) => match right.split_first() {
            Some((other, others)) => {
                if !same_slot(array, i, other, j, steps) {
                    return false;
                }
                same_fields(arrays, i, others, j, steps)
            }
            None => false,
        },
        None => match right.split_first() {
            Some(_) => false,
            None => true,
        },
    }
}

/// Whether a slot of an array and the array's type are those of another.
#[cycle(comparing)]
pub(crate) fn same_pick(
    left: &AnyArray,
    i: usize,
    right: &AnyArray,
    j: usize,
    steps: &mut Steps,
) -> bool
    requires left_within { i < column_len left.now }
    requires right_within { j < column_len right.now }
    ensures same { IsTrue result ↔ (pick (column_type left.now) (slot_at left.now i) ≡ pick (column_type right.now) (slot_at right.now j)) }
    ensures counted { steps.new.count ≤ steps.old.count + slot_nodes (slot_at left.now i) }
    ensures used { IsTrue result → steps.new.count ≡ steps.old.count + slot_nodes (slot_at left.now i) }
{
    if !same_types(left, right) {
        return false;
    }
    same_slot(left, i, right, j, steps)
}

/// Whether a slot is null, or a valid key names a value that is.
#[tactic(auto, using(crate::proofs::SlotPlaces::classes, crate::proofs::SlotPlaces::class_bound))]
pub fn is_null_slot(array: &AnyArray, i: usize) -> bool
    requires { i < column_len array.now }
    ensures { IsTrue result ↔ (slot_at array.now i ≡ null) }
{
    let (values, place) = value_of(array, i);
    values_at(values, place).is_none()
        && items_at(values, place).is_none()
        && fields_at(values, place).is_none()
        && pick_at(values, place).is_none()
}
