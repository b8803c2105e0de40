//! Work on bitmaps alone.
ghost use Rattle.std.specs.Prelude.{◌+◌, ◌*◌, ◌^◌, ◌≤◌, ◌<◌, length, IfOk};

use crate::memory::data::{bitmap_checksum, noise, noise_bitmap};
use benches_timing::{Work, bytes_checksum};
use columnar_memory::{Bitmap, MutableBitmap, SlicesIterator, and, count_zeros};
use columnar_memory_types::{Error, Result};
use std::alloc::Global;

/// The offset of bits that begin amid a byte.
const ODD: usize = 3;

/// `and` of two bitmaps.
#[derive(Drop)]
pub(crate) struct And {
    alloc: Global,
    left: Bitmap,
    right: Bitmap,
}

impl And {
    /// Of bitmaps whose first bits stand at these places of their bytes.
    pub(crate) fn at(alloc: Global, left: usize, right: usize, bits: usize) -> Result<And> {
        Ok(And {
            alloc,
            left: noise_bitmap(alloc, 0, left, bits)?,
            right: noise_bitmap(alloc, 1 << 32, right, bits)?,
        })
    }
}

impl Work for And {
    type Made = Bitmap;

    fn make(&self) -> Result<Bitmap> {
        if self.left.len() != self.right.len() {
            return Err(Error::InvalidArgumentError("bitmaps of two lengths"));
        }
        and(self.alloc, &self.left, &self.right)
    }

    fn checksum(made: &Bitmap) -> u64 {
        bitmap_checksum(made)
    }
}

/// `count_zeros` of bits that begin amid a byte.
#[derive(Drop)]
pub(crate) struct CountZeros {
    bytes: Vec<u8>,
    bits: usize,
}

impl CountZeros {
    pub(crate) fn of(alloc: Global, bits: usize) -> Result<CountZeros> {
        let bytes = noise(alloc, 0, bits)?;
        Ok(CountZeros { bytes, bits })
    }
}

impl Work for CountZeros {
    type Made = usize;

    fn make(&self) -> Result<usize> {
        let bits = bits_behind(&self.bytes, self.bits)?;
        Ok(count_zeros(&self.bytes, ODD, bits))
    }

    fn checksum(made: &usize) -> u64 {
        *made as u64
    }
}

/// `extend_from_slice` of bits that begin amid a byte, behind five that are set.
#[derive(Drop)]
pub(crate) struct ExtendFromSlice {
    alloc: Global,
    bytes: Vec<u8>,
    bits: usize,
}

impl ExtendFromSlice {
    pub(crate) fn of(alloc: Global, bits: usize) -> Result<ExtendFromSlice> {
        let bytes = noise(alloc, 0, bits)?;
        Ok(ExtendFromSlice { alloc, bytes, bits })
    }
}

impl Work for ExtendFromSlice {
    type Made = MutableBitmap;

    fn make(&self) -> Result<MutableBitmap> {
        let bits = bits_behind(&self.bytes, self.bits)?;
        let mut bitmap = MutableBitmap::from_len_set(self.alloc, 5)?;
        bitmap.extend_from_slice(&self.bytes, ODD, bits)?;
        Ok(bitmap)
    }

    fn checksum(made: &MutableBitmap) -> u64 {
        bytes_checksum(made.as_slice())
    }
}

/// The walk over the runs of a bitmap.
#[derive(Drop)]
pub(crate) struct Slices {
    pub bitmap: Bitmap,
}

impl Work for Slices {
    type Made = u64;

    /// The runs' places and lengths in one number.
    fn make(&self) -> Result<u64> {
        let mut sum = 0u64;
        for (start, count) in SlicesIterator::new(&self.bitmap) {
            sum = sum.wrapping_add(start as u64) ^ (count as u64);
        }
        Ok(sum)
    }

    fn checksum(made: &u64) -> u64 {
        *made
    }
}

/// So many bits, where some bytes have them behind the odd offset.
fn bits_behind(bytes: &[u8], bits: usize) -> Result<usize>
    ensures { IfOk result (λ n. (3 + n ≤ 8 * length bytes.now) × (3 + n < 2 ^ 64)) }
{
    match bits.checked_add(ODD) {
        Some(end) if end / 8 < bytes.len() => Ok(bits),
        _ => Err(Error::InvalidArgumentError("too many bits")),
    }
}
