ghost use Rattle.std.specs.Prelude.{◌≡◌, ◌+◌, ◌*◌, ◌/◌, ◌%◌, ◌<◌, ◌≤◌, ◌++◌, length, take};
ghost use Rattle.std.specs.Iterator.{at_most};
ghost use Rattle.columnar_memory_bitmap.specs.bits.Bits as format;
ghost use Rattle.columnar_memory_kernels.specs.ChunksMut.{LendsChunk};

use crate::bit_chunk::ChunkWidth;
use columnar_memory_bitmap::bits::bytes_for;
use std::marker::{Model, PhantomData};
use std::slice::ChunksExactMut;

/// The bytes of some bits in chunks, lent to be written, each as many bytes as a chunk has.
#[derive(Drop)]
pub struct BitChunksExactMut<'a, T: ChunkWidth> {
    chunks: ChunksExactMut<'a, u8>,
    rest: &'a mut [u8],
    rest_len: usize,
    kind: PhantomData<T>,
}

impl<'a, T: ChunkWidth> Model for BitChunksExactMut<'a, T> {
    ghost use Rattle.std.specs.Prelude.{◌≡◌, ◌*◌, ◌<◌};
    ghost use Rattle.std.specs.Slice.Iter.{chunks_exact_mut_rest, chunks_exact_mut_size};
    ghost use Rattle.columnar_memory_kernels.specs.ChunksMut.{ChunksLeft};

    ghost Value = { ChunksLeft };

    ghost view = { λ it. record { chunks = chunks_exact_mut_rest it.chunks; rest = it.rest.now; rest_len = it.rest_len } };

    ghost invariant = { λ it. (8 * chunks_exact_mut_size it.chunks ≡ T.bits) × (it.rest_len < T.bits) };
}

impl<'a, T: ChunkWidth> BitChunksExactMut<'a, T> {
    ghost use mir.Syntax.{named};
    ghost use Rattle.std.specs.Prelude.{[]};
    ghost use Rattle.std.specs.Borrow.{Array, Lends, sem, u8};
    ghost use Rattle.columnar_memory_kernels.specs.contracts.chunks_exact_mut.BitChunksExactMut.{the_row};
    ghost use Rattle.columnar_memory_kernels.specs.ChunksMut.{with_rest};

    /// The first `len` bits.
    pub fn new(bitmap: &'a mut [u8], len: usize) -> Self
        requires { len ≤ 8 * length bitmap.old }
        ensures chunks { result.chunks ≡ take (len / T.bits * (T.bits / 8)) bitmap.old }
        ensures rest { result.chunks ++ result.rest ≡ take (format.bytes_for len) bitmap.old }
        ensures rest_len { result.rest_len ≡ len % T.bits }
    {
        let width = T::bits();
        let bytes = &mut bitmap[..bytes_for(len)];
        let (chunks, rest) = bytes.split_at_mut(len / width * (width / 8));
        BitChunksExactMut {
            chunks: chunks.chunks_exact_mut(width / 8),
            rest,
            rest_len: len % width,
            kind: PhantomData,
        }
    }

    /// The bytes behind the last chunk.
    pub fn remainder(&mut self) -> &mut [u8]
        ensures* written { sem 𝓛 (Lends (the_row (record { mir = named 0; lft = [] }) T.row T.ChunkWidth) (Array u8 0)
            self.entry result (with_rest self.old)) }
        ensures shown { result.now ≡ self.old.rest }
    {
        &mut *self.rest
    }

    /// How many bits stand behind the last chunk.
    pub fn remainder_len(&self) -> usize
        ensures len { result ≡ self.now.rest_len }
        ensures fewer { result < T.bits }
    {
        self.rest_len
    }
}

impl<'a, T: ChunkWidth> Iterator for BitChunksExactMut<'a, T> {
    type Item = &'a mut [u8];

    ghost next_gives = { LendsChunk T.bits };

    ghost remaining = { λ it. at_most (8 * length it.chunks / T.bits) };

    fn next(&mut self) -> Option<&'a mut [u8]> {
        self.chunks.next()
    }
}
