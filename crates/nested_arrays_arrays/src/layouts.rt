//! `==` of arrays of one layout: of their data types and their slots.
ghost use Rattle.std.specs.Prelude.{◌≡◌, ◌<◌, ◌↔◌, IsTrue};
ghost use Rattle.nested_arrays_parts.specs.columns.StoredColumns.{Column, column_len, column_type, slot_at, slots};
ghost use Rattle.nested_arrays_parts.specs.flat.EqualArrays.{AreEqual};
ghost use Rattle.nested_arrays_parts.specs.flat.SameArrays.{same_column, same_column-equivalence, same_column-per};

use crate::comparisons::{same_fields, same_items, same_pick};
use crate::fixed_lists::FixedSizeListArray;
use crate::maps::MapArray;
use crate::places::{entries_at, fixed_items_at, record_at, union_pick};
use crate::records::StructArray;
use crate::unions::UnionArray;
use nested_arrays_parts::columnar_memory::{DataType, Steps};

/// An array of one layout, whose slots are compared with those of another.
pub trait CompareSlots {
    ghost column: { Self → Column };

    /// How many slots there are.
    fn count(&self) -> usize
        ensures { result ≡ column_len (column self.now) };

    fn array_type(&self) -> &DataType
        ensures { result.now ≡ column_type (column self.now) };

    /// Whether a slot is the same as another's at its place.
    fn has_slot_of(&self, other: &Self, i: usize) -> bool
        requires own { i < column_len (column self.now) }
        requires others { i < column_len (column other.now) }
        ensures { IsTrue result ↔ (slot_at (column self.now) i ≡ slot_at (column other.now) i) };
}

/// Whether two arrays have the same slots.
fn same_places<A: CompareSlots>(left: &A, right: &A) -> bool
    ensures { IsTrue result ↔ (slots (A.column left.now) ≡ slots (A.column right.now)) }
{
    let slots = left.count();
    if slots != right.count() {
        return false;
    }
    for i in 0..slots {
        if !left.has_slot_of(right, i) {
            return false;
        }
    }
    true
}

/// Whether two arrays have one data type and the same slots.
pub fn same_arrays<A: CompareSlots>(left: &A, right: &A) -> bool
    ensures value { result ≡ same_column (A.column left.now) (A.column right.now) }
    ensures exact { IsTrue result ↔ AreEqual (A.column left.now) (A.column right.now) }
{
    *left.array_type() == *right.array_type() && same_places(left, right)
}

impl CompareSlots for StructArray {
    ghost column = { λ array. array };

    fn count(&self) -> usize {
        self.len()
    }

    fn array_type(&self) -> &DataType {
        self.data_type()
    }

    fn has_slot_of(&self, other: &Self, i: usize) -> bool {
        match (record_at(self, i), record_at(other, i)) {
            (Some(fields), Some(others)) => same_fields(fields, i, others, i, &mut Steps::new()),
            (None, None) => true,
            _ => false,
        }
    }
}

impl CompareSlots for FixedSizeListArray {
    ghost column = { λ array. array };

    fn count(&self) -> usize {
        self.len()
    }

    fn array_type(&self) -> &DataType {
        self.data_type()
    }

    fn has_slot_of(&self, other: &Self, i: usize) -> bool {
        match (fixed_items_at(self, i), fixed_items_at(other, i)) {
            (Some((items, start, len)), Some((others, other_start, other_len))) => {
                same_items(
                    items,
                    start,
                    len,
                    others,
                    other_start,
                    other_len,
                    &mut Steps::new(),
                )
            }
            (None, None) => true,
            _ => false,
        }
    }
}

impl CompareSlots for MapArray {
    ghost column = { λ array. array };

    fn count(&self) -> usize {
        self.len()
    }

    fn array_type(&self) -> &DataType {
        self.data_type()
    }

    fn has_slot_of(&self, other: &Self, i: usize) -> bool {
        match (entries_at(self, i), entries_at(other, i)) {
            (Some((entries, start, len)), Some((others, other_start, other_len))) => {
                same_items(
                    entries,
                    start,
                    len,
                    others,
                    other_start,
                    other_len,
                    &mut Steps::new(),
                )
            }
            (None, None) => true,
            _ => false,
        }
    }
}

impl CompareSlots for UnionArray {
    ghost column = { λ array. array };

    fn count(&self) -> usize {
        self.len()
    }

    fn array_type(&self) -> &DataType {
        self.data_type()
    }

    #[tactic(auto, using(crate::proofs::SlotPlaces::classes))]
    fn has_slot_of(&self, other: &Self, i: usize) -> bool {
        let _fields = self.fields();
        let _others = other.fields();
        match (union_pick(self, i), union_pick(other, i)) {
            (Some((child, place)), Some((other, other_place))) => {
                same_pick(child, place, other, other_place, &mut Steps::new())
            }
            (None, None) => true,
            _ => false,
        }
    }
}

impl PartialEq for StructArray {
    ghost eq = { same_column };

    ghost laws = { same_column-per };

    fn eq(&self, other: &Self) -> bool
        ensures value { result ≡ same_column self.now other.now }
        ensures exact { IsTrue result ↔ AreEqual self.now other.now }
    {
        same_arrays(self, other)
    }
}

impl Eq for StructArray {
    ghost laws = { same_column-equivalence };
}

impl PartialEq for FixedSizeListArray {
    ghost eq = { same_column };

    ghost laws = { same_column-per };

    fn eq(&self, other: &Self) -> bool
        ensures value { result ≡ same_column self.now other.now }
        ensures exact { IsTrue result ↔ AreEqual self.now other.now }
    {
        same_arrays(self, other)
    }
}

impl Eq for FixedSizeListArray {
    ghost laws = { same_column-equivalence };
}

impl PartialEq for MapArray {
    ghost eq = { same_column };

    ghost laws = { same_column-per };

    fn eq(&self, other: &Self) -> bool
        ensures value { result ≡ same_column self.now other.now }
        ensures exact { IsTrue result ↔ AreEqual self.now other.now }
    {
        same_arrays(self, other)
    }
}

impl Eq for MapArray {
    ghost laws = { same_column-equivalence };
}

impl PartialEq for UnionArray {
    ghost eq = { same_column };

    ghost laws = { same_column-per };

    fn eq(&self, other: &Self) -> bool
        ensures value { result ≡ same_column self.now other.now }
        ensures exact { IsTrue result ↔ AreEqual self.now other.now }
    {
        same_arrays(self, other)
    }
}

impl Eq for UnionArray {
    ghost laws = { same_column-equivalence };
}
