//! Walks over the keys of dictionaries.
ghost use Rattle.std.specs.Prelude.{◌≡◌};
ghost use Rattle.nested_arrays_access.specs.columns.StoredColumns.{column_len};
ghost use Rattle.nested_arrays_core.specs.Dictionaries.{key_at};

use crate::dictionaries::DictionaryArray;
use crate::keys::DictionaryKey;
use nested_arrays_access::flat_arrays::{ArrayAccessor, ArrayValuesIter};

/// The slots of a dictionary as places of its values, none where a slot is null.
#[derive(Drop)]
pub struct DictionaryKeys<'a, K: DictionaryKey> {
    pub array: &'a DictionaryArray<K>,
}

impl<'a, K: DictionaryKey> ArrayAccessor for DictionaryKeys<'a, K> {
    type Item = Option<usize>;

    ghost count = { λ keys. column_len keys.array.now };

    ghost is_item = { λ keys i place. place ≡ key_at keys.array.now i };

    fn value(&self, index: usize) -> Option<usize> {
        self.array.key(index)
    }

    fn len(&self) -> usize {
        self.array.len()
    }
}

/// The places that the slots of a dictionary name, in order, from both ends.
pub type DictionaryKeysIter<'a, K> = ArrayValuesIter<DictionaryKeys<'a, K>>;

impl<K: DictionaryKey> DictionaryArray<K> {
    /// The place that each slot names, in order; none where a slot is null.
    pub fn keys_iter(&self) -> DictionaryKeysIter<'_, K>
        ensures array { result.array.array.now ≡ self.now }
        ensures first { result.first ≡ 0 }
        ensures stop { result.stop ≡ column_len self.now }
    {
        ArrayValuesIter::new(DictionaryKeys { array: self })
    }
}
