//! Clones of chunks, which share what their arrays store.
ghost use Rattle.std.specs.Prelude.{◌≡◌, IfOk};

use crate::chunk::Chunk;
use nested_arrays_core::columnar_memory::{NativeType, Offset};
use nested_arrays_core::flat_arrays::{BinaryArray, BooleanArray, PrimitiveArray, Utf8Array};
use nested_arrays_core::{
    AnyArray, AnyPrimitive, Array, DictionaryArray, DictionaryKey, FixedSizeBinaryArray,
    FixedSizeListArray, FlatArray, ListArray, MapArray, NullArray, StructArray, UnionArray,
};
use std::alloc::AllocError;

/// An array whose clone is the same value, as each array's is. So the clones of arrays of one length have one length.
pub trait CloneArray: Array + Clone {
    ghost clones_are_same: { (array copy : Self) → Self.is_clone array copy → copy ≡ array };
}

impl CloneArray for AnyArray {
    ghost clones_are_same = { λ array copy same. same };
}

impl CloneArray for FlatArray {
    ghost clones_are_same = { λ array copy same. same };
}

impl CloneArray for AnyPrimitive {
    ghost clones_are_same = { λ array copy same. same };
}

impl CloneArray for NullArray {
    ghost clones_are_same = { λ array copy same. same };
}

impl CloneArray for BooleanArray {
    ghost clones_are_same = { λ array copy same. same };
}

impl<T: NativeType> CloneArray for PrimitiveArray<T> {
    ghost clones_are_same = { λ array copy same. same };
}

impl CloneArray for FixedSizeBinaryArray {
    ghost clones_are_same = { λ array copy same. same };
}

impl<O: Offset> CloneArray for BinaryArray<O> {
    ghost clones_are_same = { λ array copy same. same };
}

impl<O: Offset> CloneArray for Utf8Array<O> {
    ghost clones_are_same = { λ array copy same. same };
}

impl<O: Offset> CloneArray for ListArray<O> {
    ghost clones_are_same = { λ array copy same. same };
}

impl CloneArray for FixedSizeListArray {
    ghost clones_are_same = { λ array copy same. same };
}

impl CloneArray for MapArray {
    ghost clones_are_same = { λ array copy same. same };
}

impl CloneArray for StructArray {
    ghost clones_are_same = { λ array copy same. same };
}

impl CloneArray for UnionArray {
    ghost clones_are_same = { λ array copy same. same };
}

impl<K: DictionaryKey> CloneArray for DictionaryArray<K> {
    ghost clones_are_same = { λ array copy same. same };
}

/// A clone of each array.
fn clones<A: CloneArray>(arrays: &Vec<A>) -> Result<Vec<A>, AllocError>
    ensures { IfOk result (λ copies. copies.items ≡ arrays.now.items) }
{
    arrays.clone()
}

impl<A: CloneArray> Clone for Chunk<A> {
    ghost is_clone = { λ chunk copy. copy ≡ chunk };

    /// Shares what the arrays store. An error is for want of memory.
    fn clone(&self) -> Result<Self, AllocError> {
        Ok(Chunk::new(clones(self.vector())?))
    }
}
