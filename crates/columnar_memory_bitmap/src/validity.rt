ghost use Rattle.std.specs.Prelude.{◌≡◌, ◌<◌, Some, None, if◌then◌else◌, ◌==◌};
ghost use Rattle.columnar_memory_bits.specs.Bits.{unset_count};
ghost use Rattle.columnar_memory_bitmap.specs.Results.{OrOutOfMemory};

use crate::{Bitmap, MutableBitmap};
use columnar_memory_bits::{BitmapIter, Validity};
use columnar_memory_types::{Error, Result};

impl Validity for Bitmap {
    ghost valid = { λ bits. bits };

    fn unset_bits(&self) -> usize {
        Bitmap::unset_bits(self)
    }

    fn valid_iter(&self) -> BitmapIter<'_> {
        self.iter()
    }
}

/// The bitmap of validity bits, or none where each of them is set.
impl TryFrom<MutableBitmap> for Option<Bitmap> {
    type Error = Error;

    ghost try_from_gives = { λ bits r. OrOutOfMemory r (λ validity. validity ≡ (if unset_count bits == 0 then None else Some bits)) };

    /// # Errors
    /// `OutOfMemory`: the count of owners found no memory.
    fn try_from(bits: MutableBitmap) -> Result<Option<Bitmap>> {
        if bits.unset_bits() == 0 {
            return Ok(None);
        }
        Ok(Some(bits.freeze()?))
    }
}
