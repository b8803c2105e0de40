//! Work that compares.
use benches_timing::Work;
use columnar_memory_types::Result;
use nested_arrays::{AnyArray, equal};

/// `equal` of two arrays.
#[derive(Drop)]
pub(crate) struct Equal {
    left: AnyArray,
    right: AnyArray,
}

impl Equal {
    pub(crate) fn of(left: AnyArray, right: AnyArray) -> Equal {
        Equal { left, right }
    }
}

impl Work for Equal {
    type Made = bool;

    fn make(&self) -> Result<bool> {
        Ok(equal(&self.left, &self.right))
    }

    fn checksum(made: &bool) -> u64 {
        u64::from(*made)
    }
}
