//! Parts of arrays.
ghost use Rattle.std.specs.Prelude.{◌≡◌, ◌+◌, ◌<◌, ◌≤◌, ◌↔◌, IfOk, IsTrue, true, slice_get};
ghost use Rattle.nested_arrays_core.specs.columns.SoundColumns.{is_sound};
ghost use Rattle.nested_arrays_core.specs.columns.StoredColumns.{column_len, column_type, cut, slot_at, slots};

use crate::slots::ArraySlot;
use nested_arrays_core::arrays::AnyArray;
use nested_arrays_core::columnar_memory::DataType;
use nested_arrays_core::flat_arrays::{ArrayAccessor, ArrayValuesIter};
use std::alloc::AllocError;
use std::marker::Model;

/// Some slots of an array of any type, one after another. A contract sees the column that is cut out of the array's.
#[derive(Drop)]
pub struct ArrayPart<'a> {
    array: &'a AnyArray,
    start: usize,
    count: usize,
}

impl<'a> Model for ArrayPart<'a> {
    ghost use Rattle.std.specs.Prelude.{◌+◌, ◌<◌, ◌≤◌, ◌^◌};
    ghost use Rattle.nested_arrays_core.specs.columns.ColumnCodes.{column_code};
    ghost use Rattle.nested_arrays_core.specs.columns.StoredColumns.{Column, column_len, cut};

    ghost Value = { Column };

    ghost coded = { column_code };

    ghost view = { λ it. cut it.array.now it.start it.count };

    ghost invariant = { λ it. (it.start + it.count ≤ column_len it.array.now) × (it.start + it.count < 2 ^ 64) };
}

impl<'a> ArrayPart<'a> {
    /// The `count` slots from `start` on.
    pub fn new(array: &'a AnyArray, start: usize, count: usize) -> Self
        requires { start + count ≤ column_len array.now }
        ensures { result ≡ cut array.now start count }
    {
        let _slots = array.len();
        ArrayPart {
            array,
            start,
            count,
        }
    }

    /// The array, the place of the first slot in it, and how many slots there are.
    pub fn parts(&self) -> (&'a AnyArray, usize, usize)
        ensures part { cut result.0.now result.1 result.2 ≡ self.now }
        ensures within { result.1 + result.2 ≤ column_len result.0.now }
    {
        (self.array, self.start, self.count)
    }

    /// How many slots there are.
    pub fn len(&self) -> usize
        ensures { result ≡ column_len self.now }
    {
        self.array.whole();
        self.count
    }

    pub fn is_empty(&self) -> bool
        ensures { IsTrue result ↔ (column_len self.now ≡ 0) }
    {
        self.len() == 0
    }

    pub fn data_type(&self) -> &'a DataType
        ensures { result.now ≡ column_type self.now }
    {
        self.array.data_type()
    }

    /// Hands to a proof that a part is sound at every depth.
    pub fn whole(&self)
        ensures { is_sound self.now ≡ true }
    {
        self.array.whole();
    }

    /// The slot at a place, or none where there is no such place.
    pub fn get(&self, i: usize) -> Option<ArraySlot<'a>>
        ensures { result ≡ slice_get (slots self.now) i }
    {
        if i >= self.len() {
            return None;
        }
        Some(self.value(i))
    }

    /// The part as an array of its own, which shares what is stored.
    ///
    /// # Errors
    /// Its data type, or the places of its children, found no memory.
    pub fn to_array(&self) -> Result<AnyArray, AllocError>
        ensures { IfOk result (λ array. array ≡ self.now) }
    {
        let mut array = self.array.clone()?;
        array.slice(self.start, self.count);
        Ok(array)
    }

    /// The slots in order, from both ends.
    pub fn iter(&self) -> ArrayValuesIter<ArrayPart<'a>>
        ensures { result ≡ record { array = self.now; first = 0; stop = column_len self.now } }
    {
        ArrayValuesIter::new(ArrayPart::new(self.array, self.start, self.count))
    }
}

impl<'a> ArrayAccessor for ArrayPart<'a> {
    type Item = ArraySlot<'a>;

    ghost count = { column_len };

    ghost is_item = { λ part i slot. slot ≡ slot_at part i };

    fn value(&self, index: usize) -> ArraySlot<'a> {
        self.array.whole();
        ArraySlot::new(self.array, self.start + index)
    }

    fn len(&self) -> usize {
        ArrayPart::len(self)
    }
}
