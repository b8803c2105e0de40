//! Clones of arrays, which share the memory of values and marks.
ghost use Rattle.std.specs.Prelude.{◌≡◌, IfOk};

use crate::boolean::BooleanArray;
use crate::primitive::PrimitiveArray;
use columnar_memory_core::{DataType, NativeType};
use std::alloc::AllocError;

impl<T: NativeType> Clone for PrimitiveArray<T> {
    ghost is_clone = { λ array copy. copy ≡ array };

    /// Shares the values and the marks, and copies the data type.
    fn clone(&self) -> std::result::Result<Self, AllocError> {
        Ok(PrimitiveArray::new(
            copy_of_type(self.data_type())?,
            self.values().clone()?,
            self.validity().cloned()?,
        ))
    }
}

impl Clone for BooleanArray {
    ghost is_clone = { λ array copy. copy ≡ array };

    /// Shares the values and the marks, and copies the data type.
    fn clone(&self) -> std::result::Result<Self, AllocError> {
        Ok(BooleanArray::new(
            copy_of_type(self.data_type())?,
            self.values().clone()?,
            self.validity().cloned()?,
        ))
    }
}

/// A copy of a data type. The plain types of numbers and booleans are made in place, which saves a call for each clone of an array.
#[inline(always)]
fn copy_of_type(data_type: &DataType) -> std::result::Result<DataType, AllocError>
    ensures { IfOk result (λ copy. copy ≡ data_type.now) }
{
    match data_type {
        DataType::Boolean => Ok(DataType::Boolean),
        DataType::Int8 => Ok(DataType::Int8),
        DataType::Int16 => Ok(DataType::Int16),
        DataType::Int32 => Ok(DataType::Int32),
        DataType::Int64 => Ok(DataType::Int64),
        DataType::UInt8 => Ok(DataType::UInt8),
        DataType::UInt16 => Ok(DataType::UInt16),
        DataType::UInt32 => Ok(DataType::UInt32),
        DataType::UInt64 => Ok(DataType::UInt64),
        _ => data_type.clone(),
    }
}
