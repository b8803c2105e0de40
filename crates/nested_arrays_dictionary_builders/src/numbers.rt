//! Numbers as items of their builders.
ghost use Rattle.std.specs.Prelude.{◌≡◌, ◌↔◌, ◌<◌, IsTrue, length, refl};
ghost use Rattle.nested_arrays_sized_builders.specs.nulls.columnar_memory.Numbers.{IsNative};
ghost use Rattle.nested_arrays_sized_builders.specs.nulls.columns.Slots.{number};
ghost use Rattle.nested_arrays_sized_builders.specs.nulls.columns.StoredColumns.{slot_at};
ghost use Rattle.nested_arrays_sized_builders.specs.nulls.flat.FlatColumns.{primitive_column};
ghost use Rattle.nested_arrays_dictionary_builders.specs.NumberItems.{AddsNumber};

use crate::items::{MOST_SLOTS, SlotIs, TryExtend, TryPush};
use nested_arrays_sized_builders::flat_arrays::MutablePrimitiveArray;
use nested_arrays_sized_builders::nulls::columnar_memory::{Error, NativeType, Result};
use nested_arrays_sized_builders::nulls::generic::DictionaryKey;

/// Integers are pushed as they are.
impl<T: DictionaryKey> TryPush<T> for MutablePrimitiveArray<T> {
    ghost slot = { λ item. number T.PRIMITIVE (T.value item) };

    fn try_push(&mut self, item: &T) -> Result<()> {
        let _whole = self.len();
        push_number(self, *item)
    }
}

impl<T: DictionaryKey> TryExtend<T> for MutablePrimitiveArray<T> {}

impl<T: DictionaryKey> SlotIs<T> for MutablePrimitiveArray<T> {
    fn slot_is(&self, place: usize, item: &T) -> bool {
        let _whole = self.len();
        is_number(self, place, *item)
    }

    fn hash_of(item: &T) -> usize {
        match item.try_to_usize() {
            Some(number) => number,
            None => item.distance(&T::from_as_usize(0)),
        }
    }

    fn whole(&self) {
        let _whole = self.len();
    }

    ghost value_law = { λ item. refl };
}

/// Adds a number behind the others, or changes nothing.
fn push_number<T: NativeType>(numbers: &mut MutablePrimitiveArray<T>, item: T) -> Result<()>
    ensures native { IsNative T.PRIMITIVE (T.numbers item) }
    ensures number { AddsNumber item numbers.old numbers.new result }
{
    let _bytes = item.to_le_bytes();
    if numbers.len() >= MOST_SLOTS {
        return Err(Error::Overflow);
    }
    numbers.push(Some(item))
}

/// Whether the slot at a place is a number.
fn is_number<T: DictionaryKey>(numbers: &MutablePrimitiveArray<T>, place: usize, item: T) -> bool
    requires { place < length numbers.now.values }
    ensures { IsTrue result ↔ (slot_at (primitive_column T.PRIMITIVE T.numbers numbers.now) place ≡ number T.PRIMITIVE (T.value item)) }
{
    let _whole = numbers.len();
    if !numbers.is_valid(place) {
        return false;
    }
    numbers.value(place) == item
}
