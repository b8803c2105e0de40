//! `==` of lists and of dictionaries: of their data types and their slots.
ghost use Rattle.std.specs.Prelude.{◌≡◌, ◌<◌, ◌↔◌, IsTrue, MatchOption};
ghost use Rattle.nested_arrays_access.specs.columns.Slots.{null};
ghost use Rattle.nested_arrays_access.specs.columns.StoredColumns.{column_len, slot_at};
ghost use Rattle.nested_arrays_access.specs.flat.EqualArrays.{AreEqual};
ghost use Rattle.nested_arrays_access.specs.flat.SameArrays.{same_column, same_column-equivalence, same_column-per};
ghost use Rattle.nested_arrays_access.specs.arrays.Places.{AreItems};

use crate::dictionaries::DictionaryArray;
use crate::keys::DictionaryKey;
use crate::lists::ListArray;
use nested_arrays_access::arrays::{
    AnyArray, CompareSlots, is_null_slot, same_arrays, same_items, same_slot,
};
use nested_arrays_access::columnar_memory::{DataType, Offset, Steps};

/// The items of a list: the child, the place of the first, and how many there are; none where the list is null.
fn items_at<O: Offset>(array: &ListArray<O>, i: usize) -> Option<(&AnyArray, usize, usize)>
    requires { i < column_len array.now }
    ensures { MatchOption result (slot_at array.now i ≡ null) (λ found. AreItems array.now i found.0.now found.1 found.2) }
{
    array.whole();
    if array.is_null(i) {
        return None;
    }
    let (start, stop) = array.offsets.start_end(i);
    Some((&array.values, start, stop - start))
}

impl<O: Offset> CompareSlots for ListArray<O> {
    ghost column = { λ array. array };

    fn count(&self) -> usize {
        self.len()
    }

    fn array_type(&self) -> &DataType {
        self.data_type()
    }

    fn has_slot_of(&self, other: &Self, i: usize) -> bool {
        match (items_at(self, i), items_at(other, i)) {
            (Some((items, start, len)), Some((others, other_start, other_len))) => {
                same_items(
                    items,
                    start,
                    len,
                    others,
                    other_start,
                    other_len,
                    &mut Steps::new(),
                )
            }
            (None, None) => true,
            _ => false,
        }
    }
}

/// The value that the key of a slot names: the values and its place among them; none where the slot has no key.
fn named_at<K: DictionaryKey>(array: &DictionaryArray<K>, i: usize) -> Option<(&AnyArray, usize)>
    requires { i < column_len array.now }
    ensures { MatchOption result (slot_at array.now i ≡ null)
        (λ found. (slot_at array.now i ≡ slot_at found.0.now found.1) × (found.1 < column_len found.0.now)) }
{
    let _keys = array.keys();
    array.whole();
    match array.key(i) {
        Some(place) => Some((array.values(), place)),
        None => None,
    }
}

impl<K: DictionaryKey> CompareSlots for DictionaryArray<K> {
    ghost column = { λ array. array };

    fn count(&self) -> usize {
        self.len()
    }

    fn array_type(&self) -> &DataType {
        self.data_type()
    }

    fn has_slot_of(&self, other: &Self, i: usize) -> bool {
        match (named_at(self, i), named_at(other, i)) {
            (Some((values, place)), Some((others, other_place))) => {
                same_slot(values, place, others, other_place, &mut Steps::new())
            }
            (Some((values, place)), None) => is_null_slot(values, place),
            (None, Some((others, other_place))) => is_null_slot(others, other_place),
            (None, None) => true,
        }
    }
}

impl<O: Offset> PartialEq for ListArray<O> {
    ghost eq = { same_column };

    ghost laws = { same_column-per };

    fn eq(&self, other: &Self) -> bool
        ensures value { result ≡ same_column self.now other.now }
        ensures exact { IsTrue result ↔ AreEqual self.now other.now }
    {
        same_arrays(self, other)
    }
}

impl<O: Offset> Eq for ListArray<O> {
    ghost laws = { same_column-equivalence };
}

impl<K: DictionaryKey> PartialEq for DictionaryArray<K> {
    ghost eq = { same_column };

    ghost laws = { same_column-per };

    fn eq(&self, other: &Self) -> bool
        ensures value { result ≡ same_column self.now other.now }
        ensures exact { IsTrue result ↔ AreEqual self.now other.now }
    {
        same_arrays(self, other)
    }
}

impl<K: DictionaryKey> Eq for DictionaryArray<K> {
    ghost laws = { same_column-equivalence };
}
