ghost use Rattle.std.specs.Prelude.{◌≡◌, ◌*◌, ◌^◌, ◌<◌, ◌≤◌, [], ◌↔◌, IsTrue, List, Bool, length, IfSome, Some};
ghost use Rattle.std.specs.Iterator.{item_count, UpTo};
ghost use Rattle.std.specs.Iterator.SizeHint.{IsWithinCount};
ghost use Rattle.columnar_memory_bitmap.specs.bits.Bits.{bits_of};
ghost use Rattle.columnar_memory_bitmap.specs.bits.Words.{word, word_bits, whole_words, rest_bits};
ghost use Rattle.columnar_memory_kernels.specs.Chunks.{YieldsWord};

use crate::bit_chunk::BitChunk;
use crate::bit_chunk_iter::BitChunkIter;
use crate::chunk_iterator::BitChunks;
use std::marker::Model;

/// Chunks of bits, with fewer bits than a chunk has behind the last.
pub trait BitChunkIterExact<B: BitChunk>: Iterator<Item = B> {
    ghost rest: { Self → List Bool };

    /// The bits behind the last chunk, as a chunk whose further bits are zeros.
    fn remainder(&self) -> B
        ensures { B.bits_of result ≡ word (rest self.now) };

    /// How many bits stand behind the last chunk.
    fn remainder_len(&self) -> usize
        ensures len { result ≡ length (rest self.now) }
        ensures fewer { result < B.bits };

    /// The bits behind the last chunk.
    fn remainder_iter(&self) -> BitChunkIter<B>
        ensures { result ≡ rest self.now }
    {
        BitChunkIter::new(self.remainder(), self.remainder_len())
    }
}

impl<'a, T: BitChunk> BitChunkIterExact<T> for BitChunks<'a, T> {
    ghost rest = { λ s. s.1 };

    fn remainder(&self) -> T {
        BitChunks::remainder(self)
    }

    fn remainder_len(&self) -> usize {
        BitChunks::remainder_len(self)
    }
}

/// The first bits of some bytes in chunks. It is seen as the chunks that are left and the bits behind the last.
#[derive(Drop)]
pub struct BitChunksExact<'a, T: BitChunk> {
    chunks: BitChunks<'a, T>,
}

impl<'a, T: BitChunk> Model for BitChunksExact<'a, T> {
    ghost use Rattle.std.specs.Prelude.{ℕ, List, Bool};

    ghost Value = { List ℕ × List Bool };

    ghost view = { λ it. it.chunks };
}

impl<'a, T: BitChunk> BitChunksExact<'a, T> {
    /// The first `len` bits.
    pub fn new(bytes: &'a [u8], len: usize) -> Self
        requires { len ≤ 8 * length bytes.now }
        ensures { result ≡ (whole_words T.bits (bits_of bytes.now 0 len), rest_bits T.bits (bits_of bytes.now 0 len)) }
    {
        BitChunksExact {
            chunks: BitChunks::new(bytes, 0, len),
        }
    }

    /// How many chunks are left.
    pub fn len(&self) -> usize
        ensures { result ≡ length self.now.0 }
    {
        self.chunks.len()
    }

    /// Whether no chunk is left.
    pub fn is_empty(&self) -> bool
        ensures { IsTrue result ↔ (self.now.0 ≡ []) }
    {
        self.chunks.len() == 0
    }

    /// The bits behind the last chunk, as a chunk whose further bits are zeros.
    pub fn remainder(&self) -> T
        ensures { T.bits_of result ≡ word self.now.1 }
    {
        BitChunks::remainder(&self.chunks)
    }

    /// How many bits stand behind the last chunk.
    pub fn remainder_len(&self) -> usize
        ensures len { result ≡ length self.now.1 }
        ensures fewer { result < T.bits }
    {
        BitChunks::remainder_len(&self.chunks)
    }
}

impl<'a, T: BitChunk> Iterator for BitChunksExact<'a, T> {
    type Item = T;

    ghost next_gives = { YieldsWord T.bits_of };

    ghost remaining = { item_count (λ s. s.0) };

    fn next(&mut self) -> Option<T> {
        self.chunks.next()
    }

    fn size_hint(&self) -> (usize, Option<usize>)
        ensures lower { IsWithinCount result.0 (item_count (λ s. s.0) self.now) }
        ensures upper { IfSome result.1 (UpTo (item_count (λ s. s.0) self.now)) }
        ensures exact { result ≡ (length self.now.0, Some (length self.now.0)) }
    {
        let len = self.chunks.len();
        (len, Some(len))
    }
}

impl<'a, T: BitChunk> BitChunkIterExact<T> for BitChunksExact<'a, T> {
    ghost rest = { λ s. s.1 };

    fn remainder(&self) -> T {
        BitChunksExact::remainder(self)
    }

    fn remainder_len(&self) -> usize {
        BitChunksExact::remainder_len(self)
    }
}
