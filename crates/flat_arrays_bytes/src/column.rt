//! Byte strings between offsets, with validity marks: what arrays of bytes and of texts hold.
ghost use Rattle.std.specs.Prelude.{◌≡◌, ◌+◌, ◌<◌, ◌≤◌, ◌↔◌, IsTrue, Bool, Some, None, List, []};
ghost use Rattle.std.specs.Prelude.{false, length, replicate, slice_get, MatchOption, MatchResult};
ghost use Rattle.std.specs.Option.{ForSome, option_copied};
ghost use Rattle.flat_arrays_values.specs.columnar_memory.Bits.{unset_count};
ghost use Rattle.flat_arrays_values.specs.columnar_memory.Error.{IsOutOfSpec};
ghost use Rattle.flat_arrays_values.specs.columnar_memory.Layouts.{physical_type};
ghost use Rattle.flat_arrays_values.specs.columnar_memory.Results.{OrOutOfMemory};
ghost use Rattle.flat_arrays_values.specs.columnar_memory.Spans.{last_of, no_spans};
ghost use Rattle.flat_arrays_bytes.specs.ByteStrings.{byte_strings, cut, cut_mask, len_of, marks_of, nulls, slots_of, values_of, with_mask};
ghost use Rattle.flat_arrays_bytes.specs.Equal.{AreEqual};
ghost use Rattle.flat_arrays_bytes.specs.Fits.{HoldsMarks, IsChecked, Fits, IsMaskOf, KeepsLength};

use crate::HoldsByteStrings;
use flat_arrays_values::columnar_memory::{
    Bitmap, Buffer, DataType, Error, Index, Offset, Offsets, OffsetsBuffer, PhysicalType, Result,
};
use std::alloc::Global;
use std::marker::Model;

/// Byte strings, each between two neighbouring offsets, a data type, and a validity mark for each where a mask is held (Arrow columnar
/// format, "Variable-size Binary Layout", "Validity bitmaps"). A contract sees just these parts. A cut shares the memory.
#[derive(Debug)]
pub struct ByteColumn<O: Offset> {
    data_type: DataType,
    offsets: OffsetsBuffer<O>,
    values: Buffer<u8>,
    validity: Option<Bitmap>,
}

impl<O: Offset> Drop for ByteColumn<O> {
    fn drop(self) {
        let ByteColumn {
            data_type: _,
            offsets: _,
            values: _,
            validity: _,
        } = self;
    }
}

impl<O: Offset> Model for ByteColumn<O> {
    ghost use Rattle.std.specs.Prelude.{◌≤◌, length};
    ghost use Rattle.flat_arrays_values.specs.columnar_memory.Spans.{last_of};
    ghost use Rattle.flat_arrays_bytes.specs.ByteStrings.{ByteStrings, byte_strings, byte_strings_code};
    ghost use Rattle.flat_arrays_bytes.specs.Fits.{IsMaskOf};

    ghost Value = { ByteStrings };

    ghost coded = { byte_strings_code };

    ghost view = { λ it. byte_strings it.data_type it.offsets it.values it.validity };

    ghost invariant = { λ it. IsMaskOf (length it.offsets.lengths) it.validity × (last_of it.offsets ≤ length it.values) };
}

/// Whether arrays of a data type lie in memory so.
fn has_layout(data_type: &DataType, layout: PhysicalType) -> bool
    ensures { IsTrue result ↔ (physical_type data_type.now ≡ layout) }
{
    data_type.to_physical_type() == layout
}

/// Whether a mask has a mark for each of `count` slots.
fn is_mask_of(validity: &Option<Bitmap>, count: usize) -> bool
    ensures { IsTrue result ↔ IsMaskOf count validity.now }
{
    match validity {
        Some(mask) => mask.len() == count,
        None => true,
    }
}

/// The `count` marks of a mask from `offset` on, where there is a mask.
#[tactic(auto, using(crate::proofs::Cuts::ranges))]
fn cut_of_mask(validity: Option<Bitmap>, offset: usize, count: usize) -> Option<Bitmap>
    requires { HoldsMarks (offset + count) validity }
    ensures { result ≡ cut_mask validity offset count }
{
    match validity {
        Some(mask) => Some(mask.sliced(offset, count)),
        None => None,
    }
}

/// Whether two slots are both null or hold the same bytes.
fn is_same_slot(a: Option<&[u8]>, b: Option<&[u8]>) -> bool
    ensures { IsTrue result ↔ (option_copied a.entry ≡ option_copied b.entry) }
{
    match (a, b) {
        (Some(a), Some(b)) => a == b,
        (None, None) => true,
        _ => false,
    }
}

/// Where the last span ends, as a number.
pub(crate) fn end_of<O: Offset>(offsets: &OffsetsBuffer<O>) -> usize
    ensures { result ≡ last_of offsets.now }
{
    offsets.last().to_usize()
}

/// Where the first span begins, as a number.
pub(crate) fn start_of<O: Offset>(offsets: &OffsetsBuffer<O>) -> usize
    ensures { result ≡ offsets.now.start }
{
    offsets.first().to_usize()
}

/// Refuses parts that make no column of the layout.
fn check_parts<O: Offset>(
    layout: PhysicalType,
    data_type: &DataType,
    offsets: &OffsetsBuffer<O>,
    values: &Buffer<u8>,
    validity: &Option<Bitmap>,
) -> Result<()>
    ensures { MatchResult result (λ _. Fits layout (byte_strings data_type.now offsets.now values.now validity.now))
        (λ e. IsOutOfSpec e × ¬ Fits layout (byte_strings data_type.now offsets.now values.now validity.now)) }
{
    if !has_layout(data_type, layout) {
        return Err(Error::OutOfSpec("data type of another layout than the array's"));
    }
    if !is_mask_of(validity, offsets.len_proxy()) {
        return Err(Error::OutOfSpec("validity of another length than the array"));
    }
    if end_of(offsets) > values.len() {
        return Err(Error::OutOfSpec("offsets past the end of the values"));
    }
    Ok(())
}

/// Offsets, bytes and a mask of so many nulls, each of which stores no bytes.
fn null_parts<O: Offset>(
    alloc: Global,
    count: usize,
) -> Result<(OffsetsBuffer<O>, Buffer<u8>, Bitmap)>
    ensures { OrOutOfMemory result (λ parts. (parts.0.start ≡ 0) × (parts.0.lengths ≡ replicate count 0)
        × (parts.1 ≡ []) × (parts.2 ≡ replicate count false)) }
{
    let offsets = Offsets::new_zeroed(alloc, count)?.freeze()?;
    Ok((
        offsets,
        Buffer::new(alloc)?,
        Bitmap::new_zeroed(alloc, count)?,
    ))
}

impl<O: Offset> ByteColumn<O> {
    /// The column of these parts, where they make one of the layout. Takes no memory.
    ///
    /// # Errors
    /// `OutOfSpec`: the data type is not laid out so, the mask has another length, or the last offset is past the bytes.
    pub fn try_new(
        layout: PhysicalType,
        data_type: DataType,
        offsets: OffsetsBuffer<O>,
        values: Buffer<u8>,
        validity: Option<Bitmap>,
    ) -> Result<Self>
        ensures { IsChecked (Fits layout) (byte_strings data_type offsets values validity) result }
    {
        check_parts(layout, &data_type, &offsets, &values, &validity)?;
        Ok(ByteColumn {
            data_type,
            offsets,
            values,
            validity,
        })
    }

    /// The column of parts that fit: the mask is as long as the column, and the last offset is within the bytes. Takes no memory.
    pub fn new(
        data_type: DataType,
        offsets: OffsetsBuffer<O>,
        values: Buffer<u8>,
        validity: Option<Bitmap>,
    ) -> Self
        requires masked { IsMaskOf (length offsets.lengths) validity }
        requires within { last_of offsets ≤ length values }
        ensures { result ≡ byte_strings data_type offsets values validity }
    {
        ByteColumn {
            data_type,
            offsets,
            values,
            validity,
        }
    }

    /// No slots.
    ///
    /// # Errors
    /// `OutOfMemory`: the offsets or the count of owners found no memory.
    pub fn new_empty(alloc: Global, data_type: DataType) -> Result<Self>
        ensures { OrOutOfMemory result (λ a. a ≡ byte_strings data_type no_spans [] None) }
    {
        Ok(ByteColumn {
            data_type,
            offsets: OffsetsBuffer::new(alloc)?,
            values: Buffer::new(alloc)?,
            validity: None,
        })
    }

    /// So many nulls, each of which stores no bytes.
    ///
    /// # Errors
    /// `OutOfMemory`: the offsets, the mask or a count of owners found no memory.
    pub fn new_null(alloc: Global, data_type: DataType, count: usize) -> Result<Self>
        ensures { OrOutOfMemory result (λ a. a ≡ nulls data_type count) }
    {
        let (offsets, values, mask) = null_parts(alloc, count)?;
        Ok(ByteColumn {
            data_type,
            offsets,
            values,
            validity: Some(mask),
        })
    }

    /// How many slots there are.
    pub fn len(&self) -> usize
        ensures value { result ≡ len_of self.now }
        ensures masked { IsMaskOf (len_of self.now) self.now.validity }
    {
        self.offsets.len_proxy()
    }

    /// The data type of the slots.
    pub fn data_type(&self) -> &DataType
        ensures { result.now ≡ self.now.data_type }
    {
        &self.data_type
    }

    /// The offsets: the byte string of a slot stands between two neighbouring ones.
    pub fn offsets(&self) -> &OffsetsBuffer<O>
        ensures { result.now ≡ self.now.offsets }
    {
        &self.offsets
    }

    /// The bytes, also those that stand before the first offset or behind the last.
    pub fn values(&self) -> &Buffer<u8>
        ensures { result.now ≡ self.now.bytes }
    {
        &self.values
    }

    /// The mask, where there is one: a bit is set where its slot is not null.
    pub fn validity(&self) -> Option<&Bitmap>
        ensures { option_copied result ≡ self.now.validity }
    {
        self.validity.as_ref()
    }

    /// The stored byte string of a slot, under a null too.
    #[tactic(auto, using(crate::proofs::Places::value_between))]
    pub fn value(&self, index: usize) -> &[u8]
        requires { index < len_of self.now }
        ensures { slice_get (values_of self.now) index ≡ Some result.now }
    {
        let (start, end) = self.offsets.start_end(index);
        &self.values.as_slice()[start..end]
    }

    /// Whether the mark of a slot is true.
    #[tactic(auto, using(crate::proofs::Slots::marks_all))]
    pub fn is_valid(&self, index: usize) -> bool
        requires { index < len_of self.now }
        ensures { slice_get (marks_of self.now) index ≡ Some result }
    {
        match &self.validity {
            Some(mask) => mask.get_bit(index),
            None => true,
        }
    }

    /// The slot at a place: its byte string, or none where it is null.
    pub fn get(&self, index: usize) -> Option<&[u8]>
        requires { index < len_of self.now }
        ensures { slice_get (slots_of self.now) index ≡ Some (option_copied result) }
    {
        if self.is_valid(index) {
            Some(self.value(index))
        } else {
            None
        }
    }

    /// How many marks are false.
    #[tactic(auto, using(crate::proofs::Slots::none_unset))]
    pub fn null_count(&self) -> usize
        ensures { result ≡ unset_count (marks_of self.now) }
    {
        match &self.validity {
            Some(mask) => mask.unset_bits(),
            None => 0,
        }
    }

    /// Narrows this to `count` slots from `offset` on, with no copy.
    pub fn slice(&mut self, offset: usize, count: usize)
        requires { offset + count ≤ len_of self.old }
        ensures { self.new ≡ cut self.old offset count }
    {
        let _slots = self.offsets.len();
        self.offsets.slice(offset, count + 1);
        self.validity = cut_of_mask(self.validity.take(), offset, count);
    }

    /// Puts another mask in place of the one that is held, or none.
    pub fn set_validity(&mut self, validity: Option<Bitmap>)
        requires { IsMaskOf (len_of self.old) validity }
        ensures { self.new ≡ with_mask self.old validity }
    {
        self.validity = validity;
    }

    /// Gives the mask, where there is one, to a function that gives one of the same length back.
    pub fn apply_validity<F: FnOnce(Bitmap) -> Bitmap + Drop>(&mut self, f: F)
        requires callable { ForSome self.old.validity (F.pre f) }
        requires keeps_length { KeepsLength (F.post f) self.old.validity }
        ensures { MatchOption self.old.validity (self.new ≡ self.old)
            (λ mask. (after : List Bool) × F.post f mask after × (self.new ≡ with_mask self.old (Some after))) }
    {
        self.validity = match self.validity.take() {
            Some(mask) => Some(f(mask)),
            None => None,
        };
    }

    /// Whether another column has the same data type.
    fn has_type_of(&self, other: &Self) -> bool
        ensures { IsTrue result ↔ (self.now.data_type ≡ other.now.data_type) }
    {
        self.data_type == other.data_type
    }

    /// Whether another column has the same slots.
    fn has_slots_of(&self, other: &Self) -> bool
        ensures { IsTrue result ↔ (slots_of self.now ≡ slots_of other.now) }
    {
        let count = self.len();
        if count != other.len() {
            return false;
        }
        for index in 0..count {
            if !is_same_slot(self.get(index), other.get(index)) {
                return false;
            }
        }
        true
    }

    /// Whether another column has the same data type and the same slots.
    pub fn is_equal(&self, other: &Self) -> bool
        ensures { IsTrue result ↔ AreEqual self.now other.now }
    {
        self.has_type_of(other) && self.has_slots_of(other)
    }

    /// The data type, the offsets, the bytes and the mask.
    pub fn into_inner(self) -> (DataType, OffsetsBuffer<O>, Buffer<u8>, Option<Bitmap>)
        ensures { self ≡ byte_strings result.0 result.1 result.2 result.3 }
    {
        let ByteColumn {
            data_type,
            offsets,
            values,
            validity,
        } = self;
        (data_type, offsets, values, validity)
    }
}

impl<O: Offset> HoldsByteStrings for ByteColumn<O> {
    ghost held = { λ column. column };

    fn count(&self) -> usize {
        self.len()
    }

    fn bytes_at(&self, index: usize) -> &[u8] {
        self.value(index)
    }
}
