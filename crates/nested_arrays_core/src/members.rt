//! Lists and dictionaries as arrays.
use crate::dictionaries::DictionaryArray;
use crate::keys::DictionaryKey;
use crate::lists::ListArray;
use nested_arrays_access::Array;
use nested_arrays_access::columnar_memory::{Bitmap, DataType, Offset, Result};

impl<O: Offset> Array for ListArray<O> {
    ghost column = { λ array. array };

    fn len(&self) -> usize {
        ListArray::len(self)
    }

    fn data_type(&self) -> &DataType {
        ListArray::data_type(self)
    }

    fn validity(&self) -> Option<&Bitmap> {
        ListArray::validity(self)
    }

    fn whole(&self) {
        ListArray::whole(self);
    }

    fn slice(&mut self, offset: usize, count: usize) {
        ListArray::slice(self, offset, count);
    }

    fn set_validity(&mut self, validity: Option<Bitmap>) -> Result<()> {
        ListArray::set_validity(self, validity)
    }
}

impl<K: DictionaryKey> Array for DictionaryArray<K> {
    ghost column = { λ array. array };

    fn len(&self) -> usize {
        DictionaryArray::len(self)
    }

    fn data_type(&self) -> &DataType {
        DictionaryArray::data_type(self)
    }

    fn validity(&self) -> Option<&Bitmap> {
        DictionaryArray::validity(self)
    }

    fn whole(&self) {
        DictionaryArray::whole(self);
    }

    fn slice(&mut self, offset: usize, count: usize) {
        DictionaryArray::slice(self, offset, count);
    }

    fn set_validity(&mut self, validity: Option<Bitmap>) -> Result<()> {
        DictionaryArray::set_validity(self, validity)
    }
}
