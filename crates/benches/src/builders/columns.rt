//! Columns that were built.
use crate::builders::bytes::put_column;
use benches_timing::bytes_checksum;
use columnar_memory_types::{DataType, Result};
use nested_arrays::{AnyArray, AnyMutableArray, MutableArray};
use std::alloc::Global;

/// Columns that were built.
#[derive(Drop)]
pub(crate) struct Columns {
    pub alloc: Global,
    pub arrays: Vec<AnyArray>,
}

impl Columns {
    /// A checksum of the bytes of each.
    pub(crate) fn checksum(&self) -> u64 {
        self.arrays.iter().fold(0u64, |sum, array| {
            sum.wrapping_mul(31)
                .wrapping_add(column_checksum(self.alloc, array))
        })
    }
}

/// A checksum of the bytes of a column, or 0 where there is no memory for them.
fn column_checksum(alloc: Global, array: &AnyArray) -> u64 {
    let mut bytes = Vec::new(alloc);
    match put_column(&mut bytes, array) {
        Ok(()) => bytes_checksum(&bytes),
        Err(_) => 0,
    }
}

/// A builder of each type.
pub(crate) fn builders_of(alloc: Global, types: &[DataType]) -> Result<Vec<AnyMutableArray>> {
    let mut builders = Vec::new(alloc);
    for data_type in types {
        builders.push(AnyMutableArray::new(alloc, data_type)?)?;
    }
    Ok(builders)
}

/// What builders built.
pub(crate) fn built(alloc: Global, builders: &mut Vec<AnyMutableArray>) -> Result<Columns> {
    let mut arrays = Vec::new(alloc);
    for builder in builders.iter_mut() {
        arrays.push(builder.as_box(alloc)?)?;
    }
    Ok(Columns { alloc, arrays })
}
