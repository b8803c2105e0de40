//! The trait of arrays.
ghost use Rattle.std.specs.Prelude.{◌≡◌, ◌+◌, ◌<◌, ◌≤◌, ◌↔◌, IsTrue, not, true, option_copied};
ghost use Rattle.nested_arrays_arrays.specs.columnar_memory.Layouts.{physical_type};
ghost use Rattle.nested_arrays_arrays.specs.columnar_memory.declared.PhysicalType.TheVariants as physical;
ghost use Rattle.nested_arrays_arrays.specs.columns.SoundColumns.{is_sound};
ghost use Rattle.nested_arrays_arrays.specs.columns.StoredColumns.{Column, column_len, column_type, cut};
ghost use Rattle.nested_arrays_arrays.specs.flat.ColumnMasks.{column_mask, ReplacesMask};
ghost use Rattle.nested_arrays_access.specs.MaskedArrays.{IsMasked};
ghost use Rattle.nested_arrays_access.specs.Nulls.{is_null_at, null_count_of};

use nested_arrays_arrays::columnar_memory::{Bitmap, DataType, PhysicalType, Result};
use nested_arrays_arrays::flat::{mark_at, unset_marks};

/// An array of any type, of which a contract sees the column that it stores, a sound one.
pub trait Array: Drop + Sized {
    ghost column: { Self → Column };

    /// How many slots there are.
    fn len(&self) -> usize
        ensures { result ≡ column_len (column self.now) };

    fn data_type(&self) -> &DataType
        ensures { result.now ≡ column_type (column self.now) };

    /// The mask, where there is one: a bit is set where its slot is not null.
    fn validity(&self) -> Option<&Bitmap>
        ensures { option_copied result ≡ column_mask (column self.now) };

    /// Hands to a proof that this is sound at every depth.
    fn whole(&self)
        ensures { is_sound (column self.now) ≡ true };

    /// Narrows this to the `count` slots from `offset` on, with no copy.
    fn slice(&mut self, offset: usize, count: usize)
        requires { offset + count ≤ column_len (column self.old) }
        ensures { column self.new ≡ cut (column self.old) offset count };

    /// Replaces the mask.
    ///
    /// # Errors
    /// `InvalidArgumentError`: the mask has another length than the array; or the array may have none, as nulls alone and unions; or a key of a
    /// dictionary that the mask says is valid names no value. The array is as it was.
    fn set_validity(&mut self, validity: Option<Bitmap>) -> Result<()>
        ensures { ReplacesMask (column self.old) validity (column self.new) result };

    fn is_empty(&self) -> bool
        ensures { IsTrue result ↔ (column_len (column self.now) ≡ 0) }
    {
        self.len() == 0
    }

    /// How many slots are null.
    fn null_count(&self) -> usize
        ensures { result ≡ null_count_of (column self.now) }
    {
        self.whole();
        if is_of_nulls(self.data_type()) {
            return self.len();
        }
        unset_marks(self.validity())
    }

    /// Whether the slot at a place is null.
    fn is_null(&self, i: usize) -> bool
        requires { i < column_len (column self.now) }
        ensures { result ≡ is_null_at (column self.now) i }
    {
        self.whole();
        if is_of_nulls(self.data_type()) {
            return true;
        }
        !mark_at(self.validity(), i)
    }

    /// Whether the slot at a place has a value.
    fn is_valid(&self, i: usize) -> bool
        requires { i < column_len (column self.now) }
        ensures { result ≡ not (is_null_at (column self.now) i) }
    {
        !self.is_null(i)
    }

    /// The `count` slots from `offset` on, in the same memory.
    fn sliced(self, offset: usize, count: usize) -> Self
        requires { offset + count ≤ column_len (column self) }
        ensures { column result ≡ cut (column self) offset count }
    {
        let mut array = self;
        array.slice(offset, count);
        array
    }

    /// The same values under another mask.
    ///
    /// # Errors
    /// `InvalidArgumentError`: as in `set_validity`.
    fn with_validity(self, validity: Option<Bitmap>) -> Result<Self>
        ensures { IsMasked column self validity result }
    {
        let mut array = self;
        match array.set_validity(validity) {
            Ok(()) => Ok(array),
            Err(error) => Err(error),
        }
    }
}

/// Whether arrays of a data type are of nulls alone.
fn is_of_nulls(data_type: &DataType) -> bool
    ensures { IsTrue result ↔ (physical_type data_type.now ≡ physical.Null) }
{
    matches!(data_type.to_physical_type(), PhysicalType::Null)
}
