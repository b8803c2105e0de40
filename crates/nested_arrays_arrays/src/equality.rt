//! `==` of arrays of any type: of their data types and their slots.
ghost use Rattle.std.specs.Prelude.{◌≡◌, ◌+◌, ◌≤◌, ◌↔◌, IsTrue, sum_by};
ghost use Rattle.nested_arrays_parts.specs.columns.SlotNodes.{slot_nodes};
ghost use Rattle.nested_arrays_parts.specs.columns.StoredColumns.{slots};
ghost use Rattle.nested_arrays_parts.specs.flat.EqualArrays.{AreEqual};
ghost use Rattle.nested_arrays_parts.specs.flat.SameArrays.{same_column, same_column-equivalence, same_column-per};

use crate::any::AnyArray;
use crate::comparisons::{same_range, same_types};
use nested_arrays_parts::columnar_memory::Steps;

/// Whether two arrays have one data type and the same slots. A value under a null is not seen, and a dictionary's slots are the values that its
/// keys name. Takes no memory.
pub fn equal(left: &AnyArray, right: &AnyArray) -> bool
    ensures { IsTrue result ↔ AreEqual left.now right.now }
{
    equal_counted(left, right, &mut Steps::new())
}

/// The same, with a step for each pair of slots, one of each array, that is compared, at any depth: where the arrays are equal, as many as slots
/// stand in one of them, and where they are not, no more.
pub fn equal_counted(left: &AnyArray, right: &AnyArray, steps: &mut Steps) -> bool
    ensures same { IsTrue result ↔ AreEqual left.now right.now }
    ensures counted { steps.new.count ≤ steps.old.count + sum_by slot_nodes (slots left.now) }
    ensures used { IsTrue result → steps.new.count ≡ steps.old.count + sum_by slot_nodes (slots left.now) }
{
    if !same_types(left, right) {
        return false;
    }
    let count = left.len();
    if count != right.len() {
        return false;
    }
    same_range(left, 0, right, 0, count, steps)
}

impl PartialEq for AnyArray {
    ghost eq = { same_column };

    ghost laws = { same_column-per };

    fn eq(&self, other: &Self) -> bool
        ensures value { result ≡ same_column self.now other.now }
        ensures exact { IsTrue result ↔ AreEqual self.now other.now }
    {
        equal(self, other)
    }
}

impl Eq for AnyArray {
    ghost laws = { same_column-equivalence };
}
