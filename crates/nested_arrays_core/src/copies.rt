//! Copies of lists and dictionaries: they share what is stored, and copy data types and the places of children.
ghost use Rattle.std.specs.Prelude.{◌≡◌};

use crate::dictionaries::DictionaryArray;
use crate::keys::DictionaryKey;
use crate::lists::ListArray;
use nested_arrays_access::columnar_memory::Offset;
use std::alloc::AllocError;

impl<O: Offset> Clone for ListArray<O> {
    ghost is_clone = { λ array copy. copy ≡ array };

    /// Shares what is stored at every depth, and copies data types and the places of children.
    fn clone(&self) -> Result<Self, AllocError> {
        Ok(ListArray {
            data_type: self.data_type.clone()?,
            offsets: self.offsets.clone()?,
            values: self.values.clone()?,
            validity: self.validity.clone()?,
        })
    }
}

impl<K: DictionaryKey> Clone for DictionaryArray<K> {
    ghost is_clone = { λ array copy. copy ≡ array };

    /// Shares what is stored at every depth, and copies data types and the places of children.
    fn clone(&self) -> Result<Self, AllocError> {
        Ok(DictionaryArray {
            data_type: self.data_type.clone()?,
            keys: self.keys.clone()?,
            values: self.values.clone()?,
        })
    }
}
