//! The arrays of a chunk as a vector or a slice, by their places, and walks over them.
ghost use Rattle.std.specs.Prelude.{◌≡◌, ◌<◌, length, slice_index_or};
ghost use Rattle.std.specs.Slice.Iter.{iter_rest};
ghost use Rattle.std.specs.Iterator.Adapters.{IterYieldsInOrder};
ghost use Rattle.std.specs.Vec.Iter.{into_iter_items, into_iter_len};

use crate::chunk::Chunk;
use nested_arrays_core::Array;
use std::convert::AsSlice;
use std::ops::{Deref, Index};
use std::slice::Iter;
use std::vec::IntoIter;

impl<A: Array> Chunk<A> {
    /// The arrays in order.
    pub fn iter(&self) -> Iter<'_, A>
        ensures rest { iter_rest result ≡ self.now }
        ensures runs { IterYieldsInOrder A }
    {
        self.arrays().iter()
    }
}

/// A chunk may be asked as the vector of its arrays is.
impl<A: Array> Deref for Chunk<A> {
    type Target = Vec<A>;

    ghost deref_gives = { λ chunk arrays. arrays.items ≡ chunk };

    fn deref(&self) -> &Vec<A> {
        self.vector()
    }
}

/// The array at a place.
impl<A: Array> Index<usize> for Chunk<A> {
    type Output = A;

    ghost can_index = { λ chunk i. i < length chunk };

    ghost index_gives = { λ chunk i array. array ≡ slice_index_or chunk i array };

    fn index(&self, index: usize) -> &A {
        &self.arrays()[index]
    }
}

impl<A: Array> AsSlice<A> for Chunk<A> {
    ghost items = { λ chunk. chunk };

    fn as_slice(&self) -> &[A] {
        self.arrays()
    }
}

impl<'a, A: Array> IntoIterator for &'a Chunk<A> {
    type Item = &'a A;

    type IntoIter = Iter<'a, A>;

    ghost into_iter_gives = { λ chunk arrays. (iter_rest arrays ≡ chunk.now) × IterYieldsInOrder A };

    fn into_iter(self) -> Iter<'a, A> {
        self.iter()
    }
}

impl<A: Array> IntoIterator for Chunk<A> {
    type Item = A;

    type IntoIter = IntoIter<A>;

    ghost into_iter_gives = { λ chunk arrays. (into_iter_items arrays ≡ chunk) × (into_iter_len arrays ≡ length chunk) };

    fn into_iter(self) -> IntoIter<A> {
        self.into_arrays().into_iter()
    }
}
