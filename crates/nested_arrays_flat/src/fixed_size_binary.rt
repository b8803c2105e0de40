//! Arrays of byte strings of one size.
ghost use Rattle.std.specs.Prelude.{◌≡◌, ◌+◌, ◌*◌, ◌/◌, ◌^◌, ◌<◌, ◌≤◌, ◌↔◌, IsTrue, [], length, replicate};
ghost use Rattle.std.specs.Prelude.{false, true, MatchOption, None, Some, option_copied};
ghost use Rattle.flat_arrays_core.specs.columnar_memory.Layouts.{physical_type};
ghost use Rattle.flat_arrays_core.specs.columnar_memory.Results.{OrOutOfMemory};
ghost use Rattle.flat_arrays_core.specs.columnar_memory.declared.PhysicalType.TheVariants as physical;
ghost use Rattle.nested_arrays_columns.specs.Slots.{bytes, null};
ghost use Rattle.nested_arrays_columns.specs.SoundColumns.{is_sound, mask_fits};
ghost use Rattle.nested_arrays_columns.specs.StoredColumns.{column_len, column_type, cut, cut_list, is_valid_at, slot_at, slots};
ghost use Rattle.nested_arrays_flat.specs.Checked.{IsChecked};
ghost use Rattle.nested_arrays_flat.specs.ColumnMasks.{column_mask, unset_in, with_mask, ReplacesMask};
ghost use Rattle.nested_arrays_flat.specs.ColumnTypes.{with_type};
ghost use Rattle.nested_arrays_flat.specs.FlatColumns.{byte_width, fixed_column};
ghost use Rattle.nested_arrays_flat.specs.EqualArrays.{AreEqual};
ghost use Rattle.nested_arrays_flat.specs.SameArrays.{same_column, same_column-equivalence, same_column-per};

use crate::masks::{is_mask_of, mark_at, slice_mask, unset_marks};
use crate::ranges::read_bytes;
use flat_arrays_core::columnar_memory::{Bitmap, Buffer, DataType, Error, Result};
use std::alloc::{AllocError, Global};
use std::marker::Model;

/// Byte strings of one size, any of which may be null (Arrow columnar format, "Fixed-size Primitive Layout"). A contract sees the column
/// that it stores. A clone and a cut share the memory.
#[derive(Debug)]
pub struct FixedSizeBinaryArray {
    data_type: DataType,
    size: usize,
    values: Buffer<u8>,
    validity: Option<Bitmap>,
}

impl Drop for FixedSizeBinaryArray {
    fn drop(self) {
        let FixedSizeBinaryArray {
            data_type: _,
            size: _,
            values: _,
            validity: _,
        } = self;
    }
}

impl Model for FixedSizeBinaryArray {
    ghost use Rattle.std.specs.Prelude.{◌≡◌, true};
    ghost use Rattle.nested_arrays_columns.specs.ColumnCodes.{column_code};
    ghost use Rattle.nested_arrays_columns.specs.SoundColumns.{is_sound};
    ghost use Rattle.nested_arrays_columns.specs.StoredColumns.{Column};
    ghost use Rattle.nested_arrays_flat.specs.FlatColumns.{fixed_column};

    ghost Value = { Column };

    ghost coded = { column_code };

    ghost view = { λ it. fixed_column it.data_type it.size it.values it.validity };

    ghost invariant = { λ it. is_sound (fixed_column it.data_type it.size it.values it.validity) ≡ true };
}

impl FixedSizeBinaryArray {
    /// The array of a data type, bytes and a mask. Takes no memory.
    ///
    /// # Errors
    /// `OutOfSpec`: arrays of the data type are not of byte strings of one size, of a byte at least; the bytes are no whole number of such
    /// strings; or the mask is not as long as the array.
    #[tactic(auto, using(crate::proofs::FixedWidths::parts))]
    pub fn try_new(
        data_type: DataType,
        values: Buffer<u8>,
        validity: Option<Bitmap>,
    ) -> Result<Self>
        ensures { IsChecked (fixed_column data_type (byte_width data_type) values validity) result }
    {
        read_bytes(values.as_slice());
        let size = FixedSizeBinaryArray::get_size(&data_type);
        if size == 0 {
            return Err(Error::OutOfSpec("a data type whose arrays store other values"));
        }
        if values.len() % size != 0 {
            return Err(Error::OutOfSpec("bytes that are no whole number of strings"));
        }
        if !is_mask_of(&validity, values.len() / size) {
            return Err(Error::OutOfSpec("a mask of another length than the strings"));
        }
        Ok(FixedSizeBinaryArray {
            data_type,
            size,
            values,
            validity,
        })
    }

    /// The array of parts that fit, as `try_new` tests.
    pub fn new(data_type: DataType, values: Buffer<u8>, validity: Option<Bitmap>) -> Self
        requires { is_sound (fixed_column data_type (byte_width data_type) values validity) ≡ true }
        ensures { result ≡ fixed_column data_type (byte_width data_type) values validity }
    {
        let size = FixedSizeBinaryArray::get_size(&data_type);
        FixedSizeBinaryArray {
            data_type,
            size,
            values,
            validity,
        }
    }

    /// No slots.
    ///
    /// # Errors
    /// `OutOfMemory`: the count of owners found no memory.
    pub fn new_empty(alloc: Global, data_type: DataType) -> Result<Self>
        requires { 0 < byte_width data_type }
        ensures { OrOutOfMemory result (λ array. array ≡ fixed_column data_type (byte_width data_type) [] None) }
    {
        let values = Buffer::new(alloc)?;
        Ok(FixedSizeBinaryArray::new(data_type, values, None))
    }

    /// So many nulls, which store zeros.
    ///
    /// # Errors
    /// `OutOfMemory`: the bytes, the mask or a count of owners found no memory.
    pub fn new_null(alloc: Global, data_type: DataType, count: usize) -> Result<Self>
        requires some { 0 < byte_width data_type }
        requires fits { byte_width data_type * count < 2 ^ 64 }
        ensures { OrOutOfMemory result (λ array.
            array ≡ fixed_column data_type (byte_width data_type) (replicate (byte_width data_type * count) 0) (Some (replicate count false))) }
    {
        let values = zeros(alloc, FixedSizeBinaryArray::get_size(&data_type) * count)?;
        let mask = Bitmap::new_zeroed(alloc, count)?;
        Ok(FixedSizeBinaryArray::new(data_type, values, Some(mask)))
    }

    /// How many bytes each byte string of a type takes; none for a type of other values.
    #[tactic(auto, using(crate::proofs::FixedWidths::widths))]
    pub fn get_size(data_type: &DataType) -> usize
        ensures { result ≡ byte_width data_type.now }
    {
        match data_type.to_logical_type() {
            DataType::FixedSizeBinary(size) => *size,
            _ => 0,
        }
    }

    /// The data type, the bytes and the mask.
    #[tactic(auto, using(crate::proofs::FixedWidths::same_size))]
    pub fn into_inner(self) -> (DataType, Buffer<u8>, Option<Bitmap>)
        ensures { self ≡ fixed_column result.0 (byte_width result.0) result.1 result.2 }
    {
        let FixedSizeBinaryArray {
            data_type,
            size: _,
            values,
            validity,
        } = self;
        (data_type, values, validity)
    }

    /// How many slots there are.
    #[tactic(auto, using(crate::proofs::FixedWidths::some_size))]
    pub fn len(&self) -> usize
        ensures { result ≡ column_len self.now }
    {
        self.values.len() / self.size
    }

    #[tactic(auto, using(crate::proofs::FixedWidths::fixed_laid))]
    pub fn data_type(&self) -> &DataType
        ensures value { result.now ≡ column_type self.now }
        ensures fits { physical_type result.now ≡ physical.FixedSizeBinary }
    {
        &self.data_type
    }

    /// How many bytes each byte string takes, one at least.
    #[tactic(auto, using(crate::proofs::FixedWidths::same_size, crate::proofs::FixedWidths::some_size))]
    pub fn size(&self) -> usize
        ensures value { result ≡ byte_width (column_type self.now) }
        ensures some { 0 < result }
    {
        self.size
    }

    /// The bytes of the strings, one string after another, those under nulls too.
    #[tactic(auto, using(crate::proofs::FixedWidths::same_size))]
    pub fn values(&self) -> &Buffer<u8>
        ensures { self.now ≡ fixed_column (column_type self.now) (byte_width (column_type self.now)) result.now (column_mask self.now) }
    {
        &self.values
    }

    /// The mask, where there is one: a bit is set where its slot is not null.
    pub fn validity(&self) -> Option<&Bitmap>
        ensures { option_copied result ≡ column_mask self.now }
    {
        self.validity.as_ref()
    }

    /// The byte string at a place, also where the slot is null.
    #[tactic(auto, using(crate::proofs::FixedWidths::some_size, crate::proofs::FixedWidths::string_within))]
    pub fn value(&self, i: usize) -> &[u8]
        requires { i < column_len self.now }
        ensures { slot_at (with_mask self.now None) i ≡ bytes result.now }
    {
        let _all = self.values.len();
        let start = self.size * i;
        &self.values.as_slice()[start..start + self.size]
    }

    /// The slot at a place: its byte string, or none where it is null or where there is no such place.
    pub fn get(&self, i: usize) -> Option<&[u8]>
        ensures { MatchOption result (i < column_len self.now → slot_at self.now i ≡ null)
            (λ value. (i < column_len self.now) × (slot_at self.now i ≡ bytes value.now)) }
    {
        if i >= self.len() {
            return None;
        }
        if self.is_valid(i) {
            Some(self.value(i))
        } else {
            None
        }
    }

    /// Whether the slot at a place has a value.
    pub fn is_valid(&self, i: usize) -> bool
        requires { i < column_len self.now }
        ensures { result ≡ is_valid_at (column_mask self.now) i }
    {
        self.whole();
        mark_at(self.validity(), i)
    }

    /// How many slots are null.
    pub fn null_count(&self) -> usize
        ensures { result ≡ unset_in (column_mask self.now) }
    {
        unset_marks(self.validity())
    }

    /// Hands to a proof what holds of every such array.
    pub fn whole(&self)
        ensures { is_sound self.now ≡ true }
    {
        let _size = self.size;
    }

    /// Narrows this to the `count` slots from `offset` on, with no copy.
    pub fn slice(&mut self, offset: usize, count: usize)
        requires { offset + count ≤ column_len self.old }
        ensures { self.new ≡ cut self.old offset count }
    {
        slice_mask(&mut self.validity, offset, count);
        slice_strings(&mut self.values, self.size, offset, count);
    }

    /// The `count` slots from `offset` on, in the same memory.
    pub fn sliced(self, offset: usize, count: usize) -> Self
        requires { offset + count ≤ column_len self }
        ensures { result ≡ cut self offset count }
    {
        let mut array = self;
        array.slice(offset, count);
        array
    }

    /// Replaces the mask.
    ///
    /// # Errors
    /// `InvalidArgumentError`: the mask has another length than the array, which is as it was.
    #[tactic(auto, using(crate::proofs::FixedWidths::masked_sound))]
    pub fn set_validity(&mut self, validity: Option<Bitmap>) -> Result<()>
        ensures { ReplacesMask self.old validity self.new result }
    {
        if !is_mask_of(&validity, self.len()) {
            return Err(Error::InvalidArgumentError("a mask of another length than the array"));
        }
        self.validity = validity;
        Ok(())
    }

    /// The same slots under another data type whose arrays store byte strings of the same size.
    #[tactic(auto, using(crate::proofs::FixedWidths::retyped_sound))]
    pub fn to(self, data_type: DataType) -> Self
        requires { byte_width data_type ≡ byte_width (column_type self) }
        ensures { result ≡ with_type self data_type }
    {
        let FixedSizeBinaryArray {
            data_type: _,
            size,
            values,
            validity,
        } = self;
        FixedSizeBinaryArray {
            data_type,
            size,
            values,
            validity,
        }
    }
}

/// So many bytes of zero.
fn zeros(alloc: Global, count: usize) -> Result<Buffer<u8>>
    ensures { OrOutOfMemory result (λ bytes. bytes ≡ replicate count 0) }
{
    let mut values: Vec<u8> = Vec::new(alloc);
    values.resize(count, 0)?;
    Buffer::from_vec(values)
}

/// Narrows bytes to those of the `count` strings from `offset` on, each of which takes `size` bytes.
#[tactic(auto, using(crate::proofs::FixedWidths::byte_cuts))]
fn slice_strings(values: &mut Buffer<u8>, size: usize, offset: usize, count: usize)
    requires { offset + count ≤ length values.old / size }
    ensures { values.new ≡ cut_list values.old (size * offset) (size * count) }
{
    let _all = values.len();
    values.slice(size * offset, size * count);
}

impl Clone for FixedSizeBinaryArray {
    ghost is_clone = { λ array copy. copy ≡ array };

    /// Shares the bytes and the marks, and copies the data type.
    fn clone(&self) -> std::result::Result<Self, AllocError> {
        Ok(FixedSizeBinaryArray {
            data_type: self.data_type.clone()?,
            size: self.size,
            values: self.values.clone()?,
            validity: self.validity.clone()?,
        })
    }
}

impl FixedSizeBinaryArray {
    /// Whether a slot is the same as another's at its place.
    fn has_slot_of(&self, other: &FixedSizeBinaryArray, i: usize) -> bool
        requires own { i < column_len self.now }
        requires others { i < column_len other.now }
        ensures { IsTrue result ↔ (slot_at self.now i ≡ slot_at other.now i) }
    {
        match (self.get(i), other.get(i)) {
            (Some(value), Some(other)) => *value == *other,
            (None, None) => true,
            _ => false,
        }
    }

    /// Whether the slots are the same as another's.
    fn has_slots_of(&self, other: &FixedSizeBinaryArray) -> bool
        ensures { IsTrue result ↔ (slots self.now ≡ slots other.now) }
    {
        let count = self.len();
        if count != other.len() {
            return false;
        }
        for i in 0..count {
            if !self.has_slot_of(other, i) {
                return false;
            }
        }
        true
    }
}

impl PartialEq for FixedSizeBinaryArray {
    ghost eq = { same_column };

    ghost laws = { same_column-per };

    fn eq(&self, other: &Self) -> bool
        ensures value { result ≡ same_column self.now other.now }
        ensures exact { IsTrue result ↔ AreEqual self.now other.now }
    {
        self.data_type == other.data_type && self.has_slots_of(other)
    }
}

impl Eq for FixedSizeBinaryArray {
    ghost laws = { same_column-equivalence };
}
