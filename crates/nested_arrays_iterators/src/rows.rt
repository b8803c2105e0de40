//! Slots of structs.
ghost use Rattle.std.specs.Prelude.{◌≡◌, ◌<◌, All, Some, length, map, slice_get};
ghost use Rattle.nested_arrays_core.specs.columns.StoredColumns.{column_len, slot_at};

use crate::slots::ArraySlot;
use nested_arrays_core::arrays::AnyArray;
use nested_arrays_core::flat_arrays::{ArrayAccessor, ArrayValuesIter};
use std::marker::Model;

/// The values of a struct's fields at one place. A contract sees the slot of each field.
#[derive(Drop)]
pub struct StructSlot<'a> {
    fields: &'a [AnyArray],
    place: usize,
}

impl<'a> Model for StructSlot<'a> {
    ghost use Rattle.std.specs.Prelude.{◌<◌, All, List, map};
    ghost use Rattle.std.specs.Coded.{coded_list};
    ghost use Rattle.nested_arrays_core.specs.columns.SlotCodes.{slot_code};
    ghost use Rattle.nested_arrays_core.specs.columns.Slots.{Slot};
    ghost use Rattle.nested_arrays_core.specs.columns.StoredColumns.{column_len, slot_at};

    ghost Value = { List Slot };

    ghost coded = { coded_list slot_code };

    ghost view = { λ it. map (λ column. slot_at column it.place) it.fields.now };

    ghost invariant = { λ it. All (λ column. it.place < column_len column) it.fields.now };
}

impl<'a> StructSlot<'a> {
    /// The values of several arrays at a place.
    pub fn new(fields: &'a [AnyArray], place: usize) -> Self
        requires { All (λ column. place < column_len column) fields.now }
        ensures { result ≡ map (λ column. slot_at column place) fields.now }
    {
        StructSlot { fields, place }
    }

    /// How many fields there are.
    pub fn len(&self) -> usize
        ensures { result ≡ length self.now }
    {
        self.fields.len()
    }

    /// The slot of a field, by the field's number, or none where there is no such field.
    pub fn get(&self, number: usize) -> Option<ArraySlot<'a>>
        ensures { result ≡ slice_get self.now number }
    {
        if number >= self.len() {
            return None;
        }
        Some(self.value(number))
    }

    /// The slots of the fields in order, from both ends.
    pub fn iter(&self) -> ArrayValuesIter<StructSlot<'a>>
        ensures { result ≡ record { array = self.now; first = 0; stop = length self.now } }
    {
        ArrayValuesIter::new(StructSlot::new(self.fields, self.place))
    }
}

impl<'a> ArrayAccessor for StructSlot<'a> {
    type Item = ArraySlot<'a>;

    ghost count = { length };

    ghost is_item = { λ row number slot. slice_get row number ≡ Some slot };

    fn value(&self, index: usize) -> ArraySlot<'a> {
        let fields = self.fields;
        ArraySlot::new(&fields[index], self.place)
    }

    fn len(&self) -> usize {
        StructSlot::len(self)
    }
}
