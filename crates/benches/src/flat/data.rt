//! The data of the jobs, which follow from their sizes, and checksums.
use benches_timing::slot_at;
use columnar_memory_types::Result;
use std::alloc::Global;

/// So many slots.
pub(crate) fn slots(alloc: Global, count: usize) -> Result<Vec<Option<i32>>> {
    Ok((0..count).map(|k| slot_at(k as u64)).collect(alloc)?)
}

/// A checksum of numbers in their order.
pub(crate) fn numbers_checksum(numbers: &[i32]) -> u64 {
    numbers.iter().fold(0u64, |sum, number| {
        sum.wrapping_mul(31)
            .wrapping_add(u64::from(number.unsigned_abs()))
    })
}
