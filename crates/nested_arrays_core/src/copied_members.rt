//! Arrays of any type, and arrays with children, on the heap.
use crate::boxes::ToBoxed;
use nested_arrays_access::arrays::{
    AnyArray, FixedSizeListArray, MapArray, StructArray, UnionArray,
};
use nested_arrays_access::parts::FlatArray;
use std::alloc::AllocError;

impl ToBoxed for AnyArray {
    fn into_any(self) -> AnyArray {
        self
    }

    fn to_any(&self) -> Result<AnyArray, AllocError> {
        self.clone()
    }
}

impl ToBoxed for FlatArray {
    fn into_any(self) -> AnyArray {
        AnyArray::from(self)
    }

    fn to_any(&self) -> Result<AnyArray, AllocError> {
        Ok(AnyArray::from(self.clone()?))
    }
}

impl ToBoxed for FixedSizeListArray {
    fn into_any(self) -> AnyArray {
        AnyArray::from(self)
    }

    fn to_any(&self) -> Result<AnyArray, AllocError> {
        Ok(AnyArray::from(self.clone()?))
    }
}

impl ToBoxed for StructArray {
    fn into_any(self) -> AnyArray {
        AnyArray::from(self)
    }

    fn to_any(&self) -> Result<AnyArray, AllocError> {
        Ok(AnyArray::from(self.clone()?))
    }
}

impl ToBoxed for MapArray {
    fn into_any(self) -> AnyArray {
        AnyArray::from(self)
    }

    fn to_any(&self) -> Result<AnyArray, AllocError> {
        Ok(AnyArray::from(self.clone()?))
    }
}

impl ToBoxed for UnionArray {
    fn into_any(self) -> AnyArray {
        AnyArray::from(self)
    }

    fn to_any(&self) -> Result<AnyArray, AllocError> {
        Ok(AnyArray::from(self.clone()?))
    }
}
