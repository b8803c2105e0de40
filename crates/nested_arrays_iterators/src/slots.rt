//! Single slots of arrays.
ghost use Rattle.std.specs.Prelude.{◌≡◌, ◌<◌};
ghost use Rattle.nested_arrays_core.specs.columns.StoredColumns.{column_len, slot_at};

use nested_arrays_core::arrays::AnyArray;
use std::marker::Model;

/// A slot of an array of any type: the array and the place, which is within it. A contract sees the slot there.
#[derive(Drop)]
pub struct ArraySlot<'a> {
    array: &'a AnyArray,
    place: usize,
}

impl<'a> Model for ArraySlot<'a> {
    ghost use Rattle.std.specs.Prelude.{◌<◌};
    ghost use Rattle.nested_arrays_core.specs.columns.SlotCodes.{slot_code};
    ghost use Rattle.nested_arrays_core.specs.columns.Slots.{Slot};
    ghost use Rattle.nested_arrays_core.specs.columns.StoredColumns.{column_len, slot_at};

    ghost Value = { Slot };

    ghost coded = { slot_code };

    ghost view = { λ it. slot_at it.array.now it.place };

    ghost invariant = { λ it. it.place < column_len it.array.now };
}

impl<'a> ArraySlot<'a> {
    /// The slot at a place.
    pub fn new(array: &'a AnyArray, place: usize) -> Self
        requires { place < column_len array.now }
        ensures { result ≡ slot_at array.now place }
    {
        ArraySlot { array, place }
    }

    /// The array that has the slot, and the place in it.
    pub fn parts(&self) -> (&'a AnyArray, usize)
        ensures slot { slot_at result.0.now result.1 ≡ self.now }
        ensures within { result.1 < column_len result.0.now }
    {
        (self.array, self.place)
    }
}
