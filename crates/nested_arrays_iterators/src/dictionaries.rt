//! The values that the slots of dictionaries name.
ghost use Rattle.std.specs.Prelude.{◌≡◌, ◌<◌, ◌↔◌, IsTrue, pos};
ghost use Rattle.nested_arrays_core.specs.columns.StoredColumns.{Column, column_len};
ghost use Rattle.nested_arrays_core.specs.Dictionaries.{raw_key};
ghost use Rattle.nested_arrays_iterators.specs.NamedValues.{AreNamed, ArePlaces, IsNamed, NamesValue};
ghost use Rattle.nested_arrays_iterators.specs.ReadValues.{IsRead, IsReadWithin};

use crate::slots::ArraySlot;
use nested_arrays_core::flat_arrays::{ArrayAccessor, ArrayValuesIter, check_indexes};
use nested_arrays_core::{DictionaryArray, DictionaryKey};

/// The slots of a dictionary: what its keys name, or none where a slot is null.
#[derive(Drop)]
pub struct KeyedSlots<'a, K: DictionaryKey> {
    pub array: &'a DictionaryArray<K>,
}

/// The values of a dictionary, slot by slot, where each key names one, those under nulls too.
#[derive(Drop)]
pub struct KeyedValues<'a, K: DictionaryKey> {
    pub array: &'a DictionaryArray<K>,
    ghost named: { AreNamed array.now },
}

/// The keys of a dictionary as places, where none is below zero, those under nulls too.
#[derive(Drop)]
pub struct KeyPlaces<'a, K: DictionaryKey> {
    pub array: &'a DictionaryArray<K>,
    ghost places: { ArePlaces array.now },
}

/// The values of a dictionary, slot by slot.
pub type DictionaryValuesIter<'a, K> = ArrayValuesIter<KeyedValues<'a, K>>;

/// What a dictionary's keys name, slot by slot.
pub trait DictionaryValues {
    type Key: DictionaryKey;

    ghost column: { Self → Column };

    /// The value that the key of a slot names, also where the slot is null.
    fn value(&self, index: usize) -> ArraySlot<'_>
        requires within { index < column_len (column self.now) }
        requires named { NamesValue (column self.now) index }
        ensures { IsNamed (column self.now) index result };

    /// The value that a slot names, or none where the slot is null or there is no such place.
    fn get(&self, index: usize) -> Option<ArraySlot<'_>>
        ensures { IsReadWithin IsNamed (column self.now) index result };

    /// The values that the keys name, in order, those under nulls too, from both ends.
    fn values_iter(&self) -> DictionaryValuesIter<'_, Self::Key>
        requires { AreNamed (column self.now) }
        ensures array { result.array.array.now ≡ column self.now }
        ensures first { result.first ≡ 0 }
        ensures stop { result.stop ≡ column_len (column self.now) };

    /// The slots in order, none where one is null, from both ends.
    fn iter(&self) -> ArrayValuesIter<KeyedSlots<'_, Self::Key>>
        ensures array { result.array.array.now ≡ column self.now }
        ensures first { result.first ≡ 0 }
        ensures stop { result.stop ≡ column_len (column self.now) };

    /// The keys as places, in order, those under nulls too, from both ends.
    fn keys_values_iter(&self) -> ArrayValuesIter<KeyPlaces<'_, Self::Key>>
        requires { ArePlaces (column self.now) }
        ensures array { result.array.array.now ≡ column self.now }
        ensures first { result.first ≡ 0 }
        ensures stop { result.stop ≡ column_len (column self.now) };
}

/// Whether each key of a dictionary names a value, those under nulls too.
pub fn keys_name_values<K: DictionaryKey>(array: &DictionaryArray<K>) -> bool
    ensures { IsTrue result ↔ AreNamed array.now }
{
    let count = array.values().len();
    let keys = array.keys();
    check_indexes(keys.values().as_slice(), count).is_ok()
}

impl<K: DictionaryKey> DictionaryValues for DictionaryArray<K> {
    type Key = K;

    ghost column = { λ array. array };

    fn value(&self, index: usize) -> ArraySlot<'_> {
        let _keys = self.keys();
        ArraySlot::new(self.values(), self.key_value(index))
    }

    fn get(&self, index: usize) -> Option<ArraySlot<'_>> {
        if index >= self.len() {
            return None;
        }
        slot_named(self, index)
    }

    fn values_iter(&self) -> DictionaryValuesIter<'_, K> {
        ArrayValuesIter::new(KeyedValues { array: self })
    }

    fn iter(&self) -> ArrayValuesIter<KeyedSlots<'_, K>> {
        ArrayValuesIter::new(KeyedSlots { array: self })
    }

    fn keys_values_iter(&self) -> ArrayValuesIter<KeyPlaces<'_, K>> {
        ArrayValuesIter::new(KeyPlaces { array: self })
    }
}

/// The value that a slot names, or none where it is null.
fn slot_named<K: DictionaryKey>(array: &DictionaryArray<K>, i: usize) -> Option<ArraySlot<'_>>
    requires { i < column_len array.now }
    ensures { IsRead IsNamed array.now i result }
{
    array.whole();
    let _keys = array.keys();
    match array.key(i) {
        Some(place) => Some(ArraySlot::new(array.values(), place)),
        None => None,
    }
}

impl<'a, K: DictionaryKey> ArrayAccessor for KeyedSlots<'a, K> {
    type Item = Option<ArraySlot<'a>>;

    ghost count = { λ slots. column_len slots.array.now };

    ghost is_item = { λ slots i slot. IsRead IsNamed slots.array.now i slot };

    fn value(&self, index: usize) -> Option<ArraySlot<'a>> {
        slot_named(self.array, index)
    }

    fn len(&self) -> usize {
        self.array.len()
    }
}

impl<'a, K: DictionaryKey> ArrayAccessor for KeyedValues<'a, K> {
    type Item = ArraySlot<'a>;

    ghost count = { λ values. column_len values.array.now };

    ghost is_item = { λ values i slot. IsNamed values.array.now i slot };

    fn value(&self, index: usize) -> ArraySlot<'a> {
        DictionaryValues::value(self.array, index)
    }

    fn len(&self) -> usize {
        self.array.len()
    }
}

impl<'a, K: DictionaryKey> ArrayAccessor for KeyPlaces<'a, K> {
    type Item = usize;

    ghost count = { λ places. column_len places.array.now };

    ghost is_item = { λ places i place. raw_key places.array.now i ≡ pos place };

    fn value(&self, index: usize) -> usize {
        self.array.key_value(index)
    }

    fn len(&self) -> usize {
        self.array.len()
    }
}
