//! Whether two arrays have the same slots, whatever their data types.
ghost use Rattle.std.specs.Prelude.{◌≡◌, ◌+◌, ◌≤◌, ◌↔◌, IsTrue, sum_by};
ghost use Rattle.nested_arrays_arrays.specs.columns.SlotNodes.{slot_nodes};
ghost use Rattle.nested_arrays_arrays.specs.columns.Slots.{window};
ghost use Rattle.nested_arrays_arrays.specs.columns.StoredColumns.{column_len, slot_at, slots};

use nested_arrays_arrays::columnar_memory::Steps;
use nested_arrays_arrays::{AnyArray, same_items};

/// Whether two arrays have the same slots. A value under a null is not seen, a dictionary's slots are the values that its keys name, and data
/// types are compared only where a union's slots have them. Takes no memory.
pub fn same_slots(left: &AnyArray, right: &AnyArray) -> bool
    ensures { IsTrue result ↔ (slots left.now ≡ slots right.now) }
{
    same_items(
        left,
        0,
        left.len(),
        right,
        0,
        right.len(),
        &mut Steps::new(),
    )
}

/// Whether `count` slots of an array from place `i` on are those of another from place `j` on, compared as `same_slots` does. A step is ticked
/// for each pair of slots that is compared, at every depth: no more than the left side has, and as many where they are the same.
pub fn same_slot_ranges(
    left: &AnyArray,
    i: usize,
    right: &AnyArray,
    j: usize,
    count: usize,
    steps: &mut Steps,
) -> bool
    requires left_within { i + count ≤ column_len left.now }
    requires right_within { j + count ≤ column_len right.now }
    ensures same { IsTrue result ↔ (window (slot_at left.now) i count ≡ window (slot_at right.now) j count) }
    ensures counted { steps.new.count ≤ steps.old.count + sum_by slot_nodes (window (slot_at left.now) i count) }
    ensures used { IsTrue result → steps.new.count ≡ steps.old.count + sum_by slot_nodes (window (slot_at left.now) i count) }
{
    same_items(left, i, count, right, j, count, steps)
}
