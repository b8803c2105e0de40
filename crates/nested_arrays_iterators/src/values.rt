//! Arrays whose values are read by their places.
ghost use Rattle.std.specs.Prelude.{◌≡◌, ◌<◌, ℕ};
ghost use Rattle.nested_arrays_core.specs.columns.StoredColumns.{Column, column_len, is_valid_at};
ghost use Rattle.nested_arrays_core.specs.flat.ColumnMasks.{column_mask};
ghost use Rattle.nested_arrays_iterators.specs.ReadValues.{IsRead, IsReadWithin};

use nested_arrays_core::flat_arrays::{ArrayAccessor, ArrayValuesIter};

/// An array, by a reference to it, whose values are read by their places. `column` is what it stores, and `is_value` says what stands at a
/// place, whatever the mask says.
pub trait ArrayValues: Copy + Drop {
    /// A value, or a reference to it.
    type Item;

    ghost column: { Self → Column };

    ghost is_value: { Column → ℕ → Self.Item → Type 0 };

    /// How many slots there are.
    fn count(self) -> usize
        ensures { result ≡ column_len (column self) };

    /// Whether the mask says that a slot has a value.
    fn has_value(self, i: usize) -> bool
        requires { i < column_len (column self) }
        ensures { result ≡ is_valid_at (column_mask (column self)) i };

    /// The value at a place, also where the slot is null.
    fn value(self, i: usize) -> Self::Item
        requires { i < column_len (column self) }
        ensures { is_value (column self) i result };

    /// The value at a place, or none where the slot is null or there is no such place.
    final fn get(self, i: usize) -> Option<Self::Item>
        ensures { IsReadWithin is_value (column self) i result }
    {
        if i >= self.count() {
            return None;
        }
        if !self.has_value(i) {
            return None;
        }
        Some(self.value(i))
    }

    /// The values in order, those under nulls too, from both ends.
    final fn values_iter(self) -> ArrayValuesIter<Values<Self>>
        ensures { result ≡ record { array = record { array = self }; first = 0; stop = column_len (column self) } }
    {
        ArrayValuesIter::new(Values { array: self })
    }

    /// The slots in order, none where one is null, from both ends.
    final fn iter(self) -> ArrayValuesIter<Slots<Self>>
        ensures { result ≡ record { array = record { array = self }; first = 0; stop = column_len (column self) } }
    {
        ArrayValuesIter::new(Slots { array: self })
    }
}

/// The values of an array, those under nulls too.
#[derive(Drop)]
pub struct Values<A: ArrayValues> {
    pub array: A,
}

impl<A: ArrayValues> ArrayAccessor for Values<A> {
    type Item = A::Item;

    ghost count = { λ values. column_len (A.column values.array) };

    ghost is_item = { λ values i item. A.is_value (A.column values.array) i item };

    fn value(&self, index: usize) -> A::Item {
        self.array.value(index)
    }

    fn len(&self) -> usize {
        self.array.count()
    }
}

/// The slots of an array: values, or none where a slot is null.
#[derive(Drop)]
pub struct Slots<A: ArrayValues> {
    pub array: A,
}

impl<A: ArrayValues> ArrayAccessor for Slots<A> {
    type Item = Option<A::Item>;

    ghost count = { λ slots. column_len (A.column slots.array) };

    ghost is_item = { λ slots i item. IsRead A.is_value (A.column slots.array) i item };

    fn value(&self, index: usize) -> Option<A::Item> {
        if !self.array.has_value(index) {
            return None;
        }
        Some(self.array.value(index))
    }

    fn len(&self) -> usize {
        self.array.count()
    }
}
