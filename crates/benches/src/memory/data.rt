//! The data of the jobs, which follow from their sizes, and checksums.
use benches_timing::{bytes_checksum, mixed};
use columnar_memory_types::{Error, Result};
use nested_arrays::columnar_memory::{Bitmap, MutableBitmap};
use std::alloc::Global;

/// Bytes that look like chance, from a place of the sequence on: at least 64 bits more than are asked for.
pub(crate) fn noise(alloc: Global, place: u64, bits: usize) -> Result<Vec<u8>> {
    let mut bytes = Vec::new(alloc);
    for k in 0..bits / 64 + 2 {
        bytes.extend_from_slice(&mixed(place.wrapping_add(k as u64)).to_le_bytes())?;
    }
    Ok(bytes)
}

/// A bitmap whose bits look like chance, and whose first bit stands at bit `offset` of its bytes.
pub(crate) fn noise_bitmap(
    alloc: Global,
    place: u64,
    offset: usize,
    bits: usize,
) -> Result<Bitmap> {
    let bitmap = Bitmap::try_new(noise(alloc, place, bits)?, bits.saturating_add(offset))?;
    if bitmap.len() < offset || bitmap.len() - offset < bits {
        return Err(Error::InvalidArgumentError("too many bits"));
    }
    Ok(bitmap.sliced(offset, bits))
}

/// A bitmap of runs of 1 to 256 bits of one value.
pub(crate) fn runs_bitmap(alloc: Global, bits: usize) -> Result<Bitmap> {
    let mut bitmap = MutableBitmap::new(alloc);
    for k in 0..bits {
        let run = (mixed(k as u64) % 256) as usize + 1;
        let left = bits.saturating_sub(bitmap.len());
        if left == 0 {
            break;
        }
        bitmap.extend_constant(run.min(left), k % 2 == 0)?;
    }
    bitmap.freeze()
}

/// Booleans that look like chance.
pub(crate) fn booleans(alloc: Global, count: usize) -> Result<Vec<bool>> {
    Ok((0..count).map(|k| mixed(k as u64) % 2 == 1).collect(alloc)?)
}

/// Lengths below 100.
pub(crate) fn lengths(alloc: Global, count: usize) -> Result<Vec<usize>> {
    Ok(
        (0..count)
            .map(|k| (mixed(k as u64) % 100) as usize)
            .collect(alloc)?,
    )
}

/// Values below 2^16.
pub(crate) fn values(alloc: Global, count: usize) -> Result<Vec<u32>> {
    Ok(
        (0..count)
            .map(|k| (mixed(k as u64) % 0x1_0000) as u32)
            .collect(alloc)?,
    )
}

/// The bits, and how many are not set, in one number.
pub(crate) fn bitmap_checksum(bitmap: &Bitmap) -> u64 {
    let (bytes, _, _) = bitmap.as_slice();
    bytes_checksum(bytes).wrapping_add(bitmap.unset_bits() as u64)
}
