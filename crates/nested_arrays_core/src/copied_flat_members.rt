//! Arrays without children as arrays of any type.
use crate::boxes::ToBoxed;
use nested_arrays_access::arrays::AnyArray;
use nested_arrays_access::flat::{AnyPrimitive, FixedSizeBinaryArray, NullArray, PrimitiveKind};
use nested_arrays_access::flat_arrays::{BinaryArray, BooleanArray, PrimitiveArray, Utf8Array};
use nested_arrays_access::parts::FlatArray;
use std::alloc::AllocError;

impl ToBoxed for NullArray {
    fn into_any(self) -> AnyArray {
        AnyArray::from(FlatArray::from(self))
    }

    fn to_any(&self) -> Result<AnyArray, AllocError> {
        Ok(AnyArray::from(FlatArray::from(self.clone()?)))
    }
}

impl ToBoxed for AnyPrimitive {
    fn into_any(self) -> AnyArray {
        AnyArray::from(FlatArray::from(self))
    }

    fn to_any(&self) -> Result<AnyArray, AllocError> {
        Ok(AnyArray::from(FlatArray::from(self.clone()?)))
    }
}

impl ToBoxed for FixedSizeBinaryArray {
    fn into_any(self) -> AnyArray {
        AnyArray::from(FlatArray::from(self))
    }

    fn to_any(&self) -> Result<AnyArray, AllocError> {
        Ok(AnyArray::from(FlatArray::from(self.clone()?)))
    }
}

impl ToBoxed for BooleanArray {
    fn into_any(self) -> AnyArray {
        AnyArray::from(FlatArray::from(self))
    }

    fn to_any(&self) -> Result<AnyArray, AllocError> {
        Ok(AnyArray::from(FlatArray::from(self.clone()?)))
    }
}

impl ToBoxed for BinaryArray<i32> {
    fn into_any(self) -> AnyArray {
        AnyArray::from(FlatArray::from(self))
    }

    fn to_any(&self) -> Result<AnyArray, AllocError> {
        Ok(AnyArray::from(FlatArray::from(self.clone()?)))
    }
}

impl ToBoxed for BinaryArray<i64> {
    fn into_any(self) -> AnyArray {
        AnyArray::from(FlatArray::from(self))
    }

    fn to_any(&self) -> Result<AnyArray, AllocError> {
        Ok(AnyArray::from(FlatArray::from(self.clone()?)))
    }
}

impl ToBoxed for Utf8Array<i32> {
    fn into_any(self) -> AnyArray {
        AnyArray::from(FlatArray::from(self))
    }

    fn to_any(&self) -> Result<AnyArray, AllocError> {
        Ok(AnyArray::from(FlatArray::from(self.clone()?)))
    }
}

impl ToBoxed for Utf8Array<i64> {
    fn into_any(self) -> AnyArray {
        AnyArray::from(FlatArray::from(self))
    }

    fn to_any(&self) -> Result<AnyArray, AllocError> {
        Ok(AnyArray::from(FlatArray::from(self.clone()?)))
    }
}

impl<T: PrimitiveKind> ToBoxed for PrimitiveArray<T> {
    fn into_any(self) -> AnyArray {
        AnyArray::from(FlatArray::from(AnyPrimitive::from_array(self)))
    }

    fn to_any(&self) -> Result<AnyArray, AllocError> {
        Ok(AnyArray::from(FlatArray::from(AnyPrimitive::from_array(self.clone()?))))
    }
}
