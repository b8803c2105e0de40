ghost use Rattle.std.specs.Prelude.{◌≡◌, ℕ, ◌<◌, ◌≤◌, filter};
ghost use Rattle.std.specs.Iterator.{YieldsFirst, item_count};
ghost use Rattle.columnar_memory_bitmap.specs.bits.Bits.{bit};
ghost use Rattle.columnar_memory_bitmap.specs.bits.Words.{word_bits, set_places};

use crate::bit_chunk::BitChunk;
use std::marker::{Model, PhantomData};

/// Whether bit `i` of a word is set.
fn word_bit(word: u64, i: usize) -> bool
    requires { i < 64 }
    ensures { result ≡ bit word i }
{
    (word >> i) & 1 == 1
}

/// The first bits of a chunk, the least significant first, seen as the list of those that are left.
#[derive(Drop)]
pub struct BitChunkIter<T: BitChunk> {
    word: u64,
    start: usize,
    end: usize,
    kind: PhantomData<T>,
}

impl<T: BitChunk> Model for BitChunkIter<T> {
    ghost use Rattle.std.specs.Prelude.{◌-◌, ◌≤◌, List, Bool};
    ghost use Rattle.columnar_memory_bitmap.specs.bits.Bits.{bit};
    ghost use Rattle.columnar_memory_bitmap.specs.bits.Windows.{window};

    ghost Value = { List Bool };

    ghost view = { λ it. window (bit it.word) it.start (it.end - it.start) };

    ghost invariant = { λ it. (it.start ≤ it.end) × (it.end ≤ 64) };
}

impl<T: BitChunk> BitChunkIter<T> {
    /// The first `len` bits of a chunk.
    pub fn new(value: T, len: usize) -> Self
        requires { len ≤ T.bits }
        ensures { result ≡ word_bits len (T.bits_of value) }
    {
        BitChunkIter {
            word: value.to_word(),
            start: 0,
            end: len,
            kind: PhantomData,
        }
    }
}

impl<T: BitChunk> Iterator for BitChunkIter<T> {
    type Item = bool;

    ghost next_gives = { YieldsFirst (λ rest. rest) };

    ghost remaining = { item_count (λ rest. rest) };

    fn next(&mut self) -> Option<bool> {
        let start = self.start;
        if start == self.end {
            return None;
        }
        self.start = start + 1;
        Some(word_bit(self.word, start))
    }
}

/// The places of the set bits of a chunk, rising, seen as the list of those that are left.
#[derive(Drop)]
pub struct BitChunkOnes<T: BitChunk> {
    word: u64,
    start: usize,
    end: usize,
    kind: PhantomData<T>,
}

impl<T: BitChunk> Model for BitChunkOnes<T> {
    ghost use Rattle.std.specs.Prelude.{ℕ, ◌-◌, ◌≤◌, List};
    ghost use Rattle.columnar_memory_bitmap.specs.bits.Words.{set_places};

    ghost Value = { List ℕ };

    ghost view = { λ it. set_places it.word it.start (it.end - it.start) };

    ghost invariant = { λ it. (it.start ≤ it.end) × (it.end ≤ 64) };
}

impl<T: BitChunk> BitChunkOnes<T> {
    pub fn new(value: T) -> Self
        ensures { result ≡ set_places (T.bits_of value) 0 T.bits }
    {
        BitChunkOnes {
            word: value.to_word(),
            start: 0,
            end: T::bits(),
            kind: PhantomData,
        }
    }
}

impl<T: BitChunk> Iterator for BitChunkOnes<T> {
    type Item = usize;

    ghost next_gives = { YieldsFirst (λ rest. rest) };

    ghost remaining = { item_count (λ rest. rest) };

    fn next(&mut self) -> Option<usize> {
        if self.start == self.end {
            return None;
        }
        let left = self.word >> self.start;
        let place = self.start + left.trailing_zeros() as usize;
        if left == 0 || place >= self.end {
            self.start = self.end;
            return None;
        }
        self.start = place + 1;
        Some(place)
    }
}
