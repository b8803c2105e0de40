//! Work on bits beside values, and on offsets.
use crate::memory::data::{bitmap_checksum, booleans, lengths, noise_bitmap, values};
use benches_timing::Work;
use columnar_memory_types::Result;
use nested_arrays::columnar_memory::{Bitmap, Offsets, ZipValidity};
use std::alloc::Global;

/// `Bitmap::from_iter` of booleans.
#[derive(Drop)]
pub(crate) struct FromIter {
    alloc: Global,
    booleans: Vec<bool>,
}

impl FromIter {
    pub(crate) fn of(alloc: Global, bits: usize) -> Result<FromIter> {
        let booleans = booleans(alloc, bits)?;
        Ok(FromIter { alloc, booleans })
    }
}

impl Work for FromIter {
    type Made = Bitmap;

    fn make(&self) -> Result<Bitmap> {
        Bitmap::from_iter(self.alloc, self.booleans.iter().copied())
    }

    fn checksum(made: &Bitmap) -> u64 {
        bitmap_checksum(made)
    }
}

/// `Offsets::try_from_iter` of lengths.
#[derive(Drop)]
pub(crate) struct OffsetsFromLengths {
    alloc: Global,
    lengths: Vec<usize>,
}

impl OffsetsFromLengths {
    pub(crate) fn of(alloc: Global, count: usize) -> Result<OffsetsFromLengths> {
        let lengths = lengths(alloc, count)?;
        Ok(OffsetsFromLengths { alloc, lengths })
    }
}

impl Work for OffsetsFromLengths {
    type Made = Offsets<i32>;

    fn make(&self) -> Result<Offsets<i32>> {
        Offsets::try_from_iter(self.alloc, self.lengths.iter().copied())
    }

    fn checksum(made: &Offsets<i32>) -> u64 {
        made.as_slice().iter().fold(0u64, |sum, offset| {
            sum.wrapping_mul(31)
                .wrapping_add(u64::from(offset.unsigned_abs()))
        })
    }
}

/// The sum of the values whose bits are set, by `ZipValidity`.
#[derive(Drop)]
pub(crate) struct ZippedSum {
    values: Vec<u32>,
    validity: Bitmap,
}

impl ZippedSum {
    pub(crate) fn of(alloc: Global, bits: usize) -> Result<ZippedSum> {
        Ok(ZippedSum {
            values: values(alloc, bits)?,
            validity: noise_bitmap(alloc, 0, 0, bits)?,
        })
    }
}

impl Work for ZippedSum {
    type Made = u64;

    fn make(&self) -> Result<u64> {
        let mut sum = 0u64;
        for value in ZipValidity::new_with_validity(self.values.iter(), Some(&self.validity)) {
            if let Some(value) = value {
                sum = sum.wrapping_add(u64::from(*value));
            }
        }
        Ok(sum)
    }

    fn checksum(made: &u64) -> u64 {
        *made
    }
}
