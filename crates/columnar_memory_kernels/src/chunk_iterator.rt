ghost use Rattle.std.specs.Prelude.{◌≡◌, ℕ, ◌+◌, ◌*◌, ◌^◌, ◌<◌, ◌≤◌, length, IfSome, Some};
ghost use Rattle.std.specs.Iterator.{YieldsFirst, YieldsLast, item_count, UpTo};
ghost use Rattle.std.specs.Iterator.SizeHint.{IsWithinCount};
ghost use Rattle.columnar_memory_bitmap.specs.bits.Bits.{bits_of};
ghost use Rattle.columnar_memory_bitmap.specs.bits.Words.{word, word_bits, whole_words, rest_bits};
ghost use Rattle.columnar_memory_kernels.specs.Chunks.{YieldsWord};

use crate::bit_chunk::BitChunk;
use columnar_memory_bitmap::bits::load_word;
use std::marker::{Model, PhantomData};

/// Bits of some bytes in chunks, the first in the least significant bit of the first chunk. It is seen as the chunks that are left and the
/// bits behind the last, which are fewer than a chunk has.
#[derive(Drop)]
pub struct BitChunks<'a, T: BitChunk> {
    bytes: &'a [u8],
    // the place of the first bit of the next chunk, how many chunks are left, and how many bits stand behind them
    start: usize,
    chunks: usize,
    rest: usize,
    kind: PhantomData<T>,
}

impl<'a, T: BitChunk> Model for BitChunks<'a, T> {
    ghost use Rattle.std.specs.Prelude.{ℕ, ◌+◌, ◌*◌, ◌^◌, ◌<◌, ◌≤◌, List, Bool, length};
    ghost use Rattle.columnar_memory_bitmap.specs.bits.Bits.{bits_of};
    ghost use Rattle.columnar_memory_bitmap.specs.bits.Words.{words_from};

    ghost Value = { List ℕ × List Bool };

    ghost view = { λ it. (words_from T.bits it.bytes.now it.start it.chunks, bits_of it.bytes.now (it.start + T.bits * it.chunks) it.rest) };

    ghost invariant = { λ it.
        (it.start + T.bits * it.chunks + it.rest ≤ 8 * length it.bytes.now)
        × (it.start + T.bits * it.chunks + it.rest < 2 ^ 64)
        × (it.rest < T.bits) };
}

impl<'a, T: BitChunk> BitChunks<'a, T> {
    /// The bits from bit `offset` on, `len` of them.
    pub fn new(bytes: &'a [u8], offset: usize, len: usize) -> Self
        requires in_range { offset + len ≤ 8 * length bytes.now }
        requires fits { offset + len < 2 ^ 64 }
        ensures { result ≡ (whole_words T.bits (bits_of bytes.now offset len), rest_bits T.bits (bits_of bytes.now offset len)) }
    {
        BitChunks {
            bytes,
            start: offset,
            chunks: len / T::bits(),
            rest: len % T::bits(),
            kind: PhantomData,
        }
    }

    /// The bits behind the last chunk, as a chunk whose further bits are zeros.
    pub fn remainder(&self) -> T
        ensures { T.bits_of result ≡ word self.now.1 }
    {
        T::from_word(load_word(self.bytes, self.start + T::bits() * self.chunks, self.rest))
    }

    /// How many bits stand behind the last chunk.
    pub fn remainder_len(&self) -> usize
        ensures len { result ≡ length self.now.1 }
        ensures fewer { result < T.bits }
    {
        self.rest
    }
}

impl<'a, T: BitChunk> Iterator for BitChunks<'a, T> {
    type Item = T;

    ghost next_gives = { YieldsWord T.bits_of };

    ghost remaining = { item_count (λ s. s.0) };

    fn next(&mut self) -> Option<T> {
        if self.chunks == 0 {
            return None;
        }
        let bits = T::bits();
        let chunk = T::from_word(load_word(self.bytes, self.start, bits));
        self.start += bits;
        self.chunks -= 1;
        Some(chunk)
    }

    fn size_hint(&self) -> (usize, Option<usize>)
        ensures lower { IsWithinCount result.0 (item_count (λ s. s.0) self.now) }
        ensures upper { IfSome result.1 (UpTo (item_count (λ s. s.0) self.now)) }
        ensures exact { result ≡ (length self.now.0, Some (length self.now.0)) }
    {
        let len = self.len();
        (len, Some(len))
    }
}

impl<'a, T: BitChunk> ExactSizeIterator for BitChunks<'a, T> {
    fn len(&self) -> usize {
        self.chunks
    }
}
