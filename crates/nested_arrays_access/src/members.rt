//! Arrays of any type, and arrays with children, as arrays.
use crate::array::Array;
use nested_arrays_arrays::columnar_memory::{Bitmap, DataType, Result};
use nested_arrays_arrays::parts::FlatArray;
use nested_arrays_arrays::{AnyArray, FixedSizeListArray, MapArray, StructArray, UnionArray};

impl Array for AnyArray {
    ghost column = { λ array. array };

    fn len(&self) -> usize {
        AnyArray::len(self)
    }

    fn data_type(&self) -> &DataType {
        AnyArray::data_type(self)
    }

    fn validity(&self) -> Option<&Bitmap> {
        AnyArray::validity(self)
    }

    fn whole(&self) {
        AnyArray::whole(self);
    }

    fn slice(&mut self, offset: usize, count: usize) {
        AnyArray::slice(self, offset, count);
    }

    fn set_validity(&mut self, validity: Option<Bitmap>) -> Result<()> {
        AnyArray::set_validity(self, validity)
    }
}

impl Array for FlatArray {
    ghost column = { λ array. array };

    fn len(&self) -> usize {
        FlatArray::len(self)
    }

    fn data_type(&self) -> &DataType {
        FlatArray::data_type(self)
    }

    fn validity(&self) -> Option<&Bitmap> {
        FlatArray::validity(self)
    }

    fn whole(&self) {
        FlatArray::whole(self);
    }

    fn slice(&mut self, offset: usize, count: usize) {
        FlatArray::slice(self, offset, count);
    }

    fn set_validity(&mut self, validity: Option<Bitmap>) -> Result<()> {
        FlatArray::set_validity(self, validity)
    }
}

impl Array for FixedSizeListArray {
    ghost column = { λ array. array };

    fn len(&self) -> usize {
        FixedSizeListArray::len(self)
    }

    fn data_type(&self) -> &DataType {
        FixedSizeListArray::data_type(self)
    }

    fn validity(&self) -> Option<&Bitmap> {
        FixedSizeListArray::validity(self)
    }

    fn whole(&self) {
        FixedSizeListArray::whole(self);
    }

    fn slice(&mut self, offset: usize, count: usize) {
        FixedSizeListArray::slice(self, offset, count);
    }

    fn set_validity(&mut self, validity: Option<Bitmap>) -> Result<()> {
        FixedSizeListArray::set_validity(self, validity)
    }
}

impl Array for StructArray {
    ghost column = { λ array. array };

    fn len(&self) -> usize {
        StructArray::len(self)
    }

    fn data_type(&self) -> &DataType {
        StructArray::data_type(self)
    }

    fn validity(&self) -> Option<&Bitmap> {
        StructArray::validity(self)
    }

    fn whole(&self) {
        StructArray::whole(self);
    }

    fn slice(&mut self, offset: usize, count: usize) {
        StructArray::slice(self, offset, count);
    }

    fn set_validity(&mut self, validity: Option<Bitmap>) -> Result<()> {
        StructArray::set_validity(self, validity)
    }
}

impl Array for MapArray {
    ghost column = { λ array. array };

    fn len(&self) -> usize {
        MapArray::len(self)
    }

    fn data_type(&self) -> &DataType {
        MapArray::data_type(self)
    }

    fn validity(&self) -> Option<&Bitmap> {
        MapArray::validity(self)
    }

    fn whole(&self) {
        MapArray::whole(self);
    }

    fn slice(&mut self, offset: usize, count: usize) {
        MapArray::slice(self, offset, count);
    }

    fn set_validity(&mut self, validity: Option<Bitmap>) -> Result<()> {
        MapArray::set_validity(self, validity)
    }
}

impl Array for UnionArray {
    ghost column = { λ array. array };

    fn len(&self) -> usize {
        UnionArray::len(self)
    }

    fn data_type(&self) -> &DataType {
        UnionArray::data_type(self)
    }

    fn validity(&self) -> Option<&Bitmap> {
        UnionArray::validity(self)
    }

    fn whole(&self) {
        UnionArray::whole(self);
    }

    fn slice(&mut self, offset: usize, count: usize) {
        UnionArray::slice(self, offset, count);
    }

    fn set_validity(&mut self, validity: Option<Bitmap>) -> Result<()> {
        UnionArray::set_validity(self, validity)
    }
}
