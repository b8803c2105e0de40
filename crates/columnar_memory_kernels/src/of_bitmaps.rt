//! Bitmaps in chunks.
ghost use Rattle.std.specs.Prelude.{◌≡◌, List, Bool};
ghost use Rattle.columnar_memory_bitmap.specs.bits.Words.{whole_words, rest_bits};

use crate::bit_chunk::BitChunk;
use crate::chunk_iterator::BitChunks;
use columnar_memory_bitmap::Bitmap;

/// What has bits that are read in chunks.
pub trait HasChunks {
    // The bits.
    ghost bits_in: { Self → List Bool };

    /// The bits in whole chunks, and the bits behind them.
    fn chunks<T: BitChunk>(&self) -> BitChunks<'_, T>
        ensures { result ≡ (whole_words T.bits (bits_in self.now), rest_bits T.bits (bits_in self.now)) };
}

impl HasChunks for Bitmap {
    ghost bits_in = { λ bitmap. bitmap };

    fn chunks<T: BitChunk>(&self) -> BitChunks<'_, T> {
        let (bytes, offset, len) = self.as_slice();
        BitChunks::new(bytes, offset, len)
    }
}
