//! Arrays of nulls.
ghost use Rattle.std.specs.Prelude.{◌≡◌, ◌+◌, ◌≤◌, ◌↔◌, IsTrue, true, MatchResult, option_copied};
ghost use Rattle.flat_arrays_core.specs.columnar_memory.Layouts.{physical_type};
ghost use Rattle.flat_arrays_core.specs.columnar_memory.declared.PhysicalType.TheVariants as physical;
ghost use Rattle.nested_arrays_columns.specs.SoundColumns.{is_sound};
ghost use Rattle.nested_arrays_columns.specs.StoredColumns.{column_len, column_type, cut, nulls};
ghost use Rattle.nested_arrays_flat.specs.Checked.{IsChecked};
ghost use Rattle.nested_arrays_flat.specs.ColumnMasks.{column_mask, ReplacesMask};
ghost use Rattle.nested_arrays_flat.specs.EqualArrays.{AreEqual};
ghost use Rattle.nested_arrays_flat.specs.SameArrays.{same_column, same_column-equivalence, same_column-per};

use flat_arrays_core::columnar_memory::{Bitmap, DataType, Error, PhysicalType, Result};
use std::alloc::AllocError;
use std::marker::Model;

/// Nulls alone, which take no memory (Arrow columnar format, "Null Layout"). A contract sees the column that it stores.
#[derive(Debug)]
pub struct NullArray {
    data_type: DataType,
    length: usize,
}

impl Drop for NullArray {
    fn drop(self) {
        let NullArray {
            data_type: _,
            length: _,
        } = self;
    }
}

impl Model for NullArray {
    ghost use Rattle.std.specs.Prelude.{◌≡◌, true};
    ghost use Rattle.nested_arrays_columns.specs.StoredColumns.{Column, nulls};
    ghost use Rattle.nested_arrays_columns.specs.ColumnCodes.{column_code};
    ghost use Rattle.nested_arrays_columns.specs.SoundColumns.{is_sound};

    ghost Value = { Column };

    ghost coded = { column_code };

    ghost view = { λ it. nulls it.data_type it.length };

    ghost invariant = { λ it. is_sound (nulls it.data_type it.length) ≡ true };
}

impl NullArray {
    /// So many nulls of a data type.
    ///
    /// # Errors
    /// `OutOfSpec`: arrays of the data type are not of nulls alone.
    #[tactic(auto, using(crate::proofs::NullTypes::null_types))]
    pub fn try_new(data_type: DataType, length: usize) -> Result<Self>
        ensures { IsChecked (nulls data_type length) result }
    {
        match data_type.to_physical_type() {
            PhysicalType::Null => Ok(NullArray { data_type, length }),
            _ => Err(Error::OutOfSpec("a data type whose arrays are not of nulls alone")),
        }
    }

    /// The array of parts that fit, as `try_new` tests.
    pub fn new(data_type: DataType, length: usize) -> Self
        requires { is_sound (nulls data_type length) ≡ true }
        ensures { result ≡ nulls data_type length }
    {
        NullArray { data_type, length }
    }

    /// No slots.
    pub fn new_empty(data_type: DataType) -> Self
        requires { is_sound (nulls data_type 0) ≡ true }
        ensures { result ≡ nulls data_type 0 }
    {
        NullArray::new(data_type, 0)
    }

    /// So many nulls, as `new` makes them.
    pub fn new_null(data_type: DataType, length: usize) -> Self
        requires { is_sound (nulls data_type length) ≡ true }
        ensures { result ≡ nulls data_type length }
    {
        NullArray::new(data_type, length)
    }

    /// How many slots there are.
    pub fn len(&self) -> usize
        ensures { result ≡ column_len self.now }
    {
        self.length
    }

    pub fn is_empty(&self) -> bool
        ensures { IsTrue result ↔ (column_len self.now ≡ 0) }
    {
        self.length == 0
    }

    pub fn data_type(&self) -> &DataType
        ensures value { result.now ≡ column_type self.now }
        ensures fits { physical_type result.now ≡ physical.Null }
    {
        &self.data_type
    }

    /// The mask, of which nulls have none.
    pub fn validity(&self) -> Option<&Bitmap>
        ensures { option_copied result ≡ column_mask self.now }
    {
        let _length = self.length;
        None
    }

    /// Leaves this without a mask, as all nulls are.
    ///
    /// # Errors
    /// `InvalidArgumentError`: a mask is given.
    pub fn set_validity(&mut self, validity: Option<Bitmap>) -> Result<()>
        ensures { ReplacesMask self.old validity self.new result }
    {
        let _length = self.length;
        match validity {
            Some(_) => Err(Error::InvalidArgumentError("a mask for nulls alone, which have none")),
            None => Ok(()),
        }
    }

    /// Hands to a proof what holds of every such array.
    pub fn whole(&self)
        ensures { is_sound self.now ≡ true }
    {
        let _length = self.length;
    }

    /// Hands to a proof that each slot is null.
    pub fn holds_nulls(&self)
        ensures { self.now ≡ nulls (column_type self.now) (column_len self.now) }
    {
        let _length = self.length;
    }

    /// Narrows this to the `count` slots from `offset` on.
    pub fn slice(&mut self, offset: usize, count: usize)
        requires { offset + count ≤ column_len self.old }
        ensures { self.new ≡ cut self.old offset count }
    {
        let _start = offset;
        self.length = count;
    }

    /// The `count` slots from `offset` on.
    pub fn sliced(self, offset: usize, count: usize) -> Self
        requires { offset + count ≤ column_len self }
        ensures { result ≡ cut self offset count }
    {
        let mut array = self;
        array.slice(offset, count);
        array
    }
}

impl Clone for NullArray {
    ghost is_clone = { λ array copy. copy ≡ array };

    /// Copies the data type.
    fn clone(&self) -> std::result::Result<Self, AllocError> {
        Ok(NullArray {
            data_type: self.data_type.clone()?,
            length: self.length,
        })
    }
}

impl PartialEq for NullArray {
    ghost eq = { same_column };

    ghost laws = { same_column-per };

    fn eq(&self, other: &Self) -> bool
        ensures value { result ≡ same_column self.now other.now }
        ensures exact { IsTrue result ↔ AreEqual self.now other.now }
    {
        self.data_type == other.data_type && self.length == other.length
    }
}

impl Eq for NullArray {
    ghost laws = { same_column-equivalence };
}
