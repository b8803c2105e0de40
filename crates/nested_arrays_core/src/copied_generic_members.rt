//! Lists and dictionaries as arrays of any type.
use crate::boxes::ToBoxed;
use crate::{DictionaryArray, DictionaryKey, ListArray};
use nested_arrays_access::arrays::AnyArray;
use std::alloc::AllocError;

impl ToBoxed for ListArray<i32> {
    fn into_any(self) -> AnyArray {
        AnyArray::from(self)
    }

    fn to_any(&self) -> Result<AnyArray, AllocError> {
        Ok(AnyArray::from(self.clone()?))
    }
}

impl ToBoxed for ListArray<i64> {
    fn into_any(self) -> AnyArray {
        AnyArray::from(self)
    }

    fn to_any(&self) -> Result<AnyArray, AllocError> {
        Ok(AnyArray::from(self.clone()?))
    }
}

impl<K: DictionaryKey> ToBoxed for DictionaryArray<K> {
    fn into_any(self) -> AnyArray {
        AnyArray::from(self)
    }

    fn to_any(&self) -> Result<AnyArray, AllocError> {
        Ok(AnyArray::from(self.clone()?))
    }
}
