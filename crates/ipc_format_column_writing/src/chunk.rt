//! Arrays of one length (Arrow IPC, "RecordBatch message").
ghost use Rattle.std.specs.Prelude.{◌≡◌, ◌↔◌, IsTrue, slice_get, Some};
ghost use Rattle.ipc_format_column_writing.specs.Chunks.{rows_of, AreAsLong, HaveLength, MakesChunk};

use nested_arrays_core::Array;
use nested_arrays_core::columnar_memory::{Error, Result};
use std::marker::Model;

/// Arrays of one length: the columns of a batch of rows. A contract sees the arrays.
#[derive(Debug, Drop)]
pub struct Chunk<A: Array> {
    arrays: Vec<A>,
}

impl<A: Array> Model for Chunk<A> {
    ghost use Rattle.std.specs.Prelude.{List};
    ghost use Rattle.ipc_format_column_writing.specs.Chunks.{AreAsLong};

    ghost Value = { List A };

    ghost view = { λ it. it.arrays.items };

    ghost invariant = { λ it. AreAsLong A.column it.arrays.items };
}

/// Whether each array has so many slots.
fn have_length<A: Array>(arrays: &[A], count: usize) -> bool
    ensures { IsTrue result ↔ HaveLength A.column count arrays.now }
{
    for array in arrays {
        if array.len() != count {
            return false;
        }
    }
    true
}

/// How many slots the first array has, and without an array none.
fn first_length<A: Array>(arrays: &[A]) -> usize
    ensures { result ≡ rows_of A.column arrays.now }
{
    match arrays.first() {
        Some(array) => array.len(),
        None => 0,
    }
}

impl<A: Array> Chunk<A> {
    /// The columns of a batch: arrays that are all as long as the first. No memory is taken.
    ///
    /// # Errors
    /// `InvalidArgumentError`: one of them has another length.
    pub fn try_new(arrays: Vec<A>) -> Result<Self>
        ensures { MakesChunk A.column arrays.items result }
    {
        let count = first_length(&arrays);
        if !have_length(&arrays, count) {
            return Err(Error::InvalidArgumentError("arrays of unequal length"));
        }
        Ok(Chunk { arrays })
    }

    /// The columns of a batch: arrays that are all as long as the first, which `try_new` tests.
    pub fn new(arrays: Vec<A>) -> Self
        requires { AreAsLong A.column arrays.items }
        ensures { result ≡ arrays.items }
    {
        Chunk { arrays }
    }

    /// The arrays.
    pub fn arrays(&self) -> &[A]
        ensures { result.now ≡ self.now }
    {
        &self.arrays
    }

    /// The arrays.
    pub fn columns(&self) -> &[A]
        ensures { result.now ≡ self.now }
    {
        &self.arrays
    }

    /// The vector of the arrays.
    pub(crate) fn vector(&self) -> &Vec<A>
        ensures arrays { result.now.items ≡ self.now }
        ensures lengths { AreAsLong A.column self.now }
    {
        &self.arrays
    }

    /// How many rows there are: as many as the first array has slots, and without an array none.
    pub fn len(&self) -> usize
        ensures { result ≡ rows_of A.column self.now }
    {
        first_length(&self.arrays)
    }

    /// Whether there are no rows.
    pub fn is_empty(&self) -> bool
        ensures { IsTrue result ↔ (rows_of A.column self.now ≡ 0) }
    {
        self.len() == 0
    }

    /// Hands to a proof that all arrays are as long as the first.
    pub fn whole(&self)
        ensures { AreAsLong A.column self.now }
    {
        let _arrays = &self.arrays;
    }

    /// The arrays, with no copy.
    pub fn into_arrays(self) -> Vec<A>
        ensures arrays { result.items ≡ self }
        ensures lengths { AreAsLong A.column self }
    {
        self.arrays
    }
}

impl<A: Array> From<Chunk<A>> for Vec<A> {
    fn from(chunk: Chunk<A>) -> Vec<A>
        ensures { result.items ≡ chunk }
    {
        chunk.into_arrays()
    }
}

impl<A: Array> TryFrom<Vec<A>> for Chunk<A> {
    type Error = Error;

    ghost try_from_gives = { λ arrays result. MakesChunk A.column arrays.items result };

    /// # Errors
    /// As in `Chunk::try_new`.
    fn try_from(arrays: Vec<A>) -> Result<Self> {
        Chunk::try_new(arrays)
    }
}
