ghost use Rattle.std.specs.Prelude.{◌≡◌, ◌+◌, ◌<◌, ◌≤◌, ◌↔◌, IsTrue, Bool, Some};
ghost use Rattle.std.specs.Prelude.{None, List, MatchOption, not, [], length, slice_get, unwrap_or};
ghost use Rattle.std.specs.Option.{ForSome, option_copied};
ghost use Rattle.flat_arrays_values.specs.columnar_memory.Bits.{unset_count};
ghost use Rattle.flat_arrays_values.specs.columnar_memory.Layouts.{physical_type};
ghost use Rattle.flat_arrays_values.specs.columnar_memory.Results.{OrOutOfMemory};
ghost use Rattle.flat_arrays_values.specs.columnar_memory.Spans.{no_spans};
ghost use Rattle.flat_arrays_bytes.specs.ByteStrings.{byte_strings, cut, len_of, marks_of, nulls, slots_of, values_of, with_mask};
ghost use Rattle.flat_arrays_bytes.specs.ByteWalks.{StandsBefore};
ghost use Rattle.flat_arrays_bytes.specs.Equal.{AreEqual, same_array, same_array-equivalence, same_array-per};
ghost use Rattle.flat_arrays_bytes.specs.Fits.{binary_layout, binary_type, IsBinary, IsChecked, IsMaskOf, KeepsLength};

use crate::{ByteColumn, ByteValuesIter};
use flat_arrays_values::columnar_memory::{
    Bitmap, BitmapIter, Buffer, DataType, Offset, OffsetsBuffer, PhysicalType, Result, ZipValidity,
};
use std::alloc::Global;
use std::marker::Model;

/// The byte strings of an array, those under nulls too, in order or from the back.
pub type BinaryValueIter<'a, O> = ByteValuesIter<'a, BinaryArray<O>>;

/// Byte strings of any length, any of which may be null (Arrow columnar format, "Variable-size Binary Layout"). A contract sees its data type,
/// where each byte string stands among the bytes, the bytes, and its mask. A cut shares the memory.
#[derive(Debug, Drop)]
pub struct BinaryArray<O: Offset> {
    column: ByteColumn<O>,
}

impl<O: Offset> Model for BinaryArray<O> {
    ghost use Rattle.flat_arrays_bytes.specs.ByteStrings.{ByteStrings, byte_strings_code};
    ghost use Rattle.flat_arrays_bytes.specs.Fits.{IsBinary};

    ghost Value = { ByteStrings };

    ghost coded = { byte_strings_code };

    ghost view = { λ it. it.column };

    ghost invariant = { λ it. IsBinary O.IS_LARGE it.column };
}

/// How byte strings lie in memory, by the width of their offsets.
fn layout<O: Offset>() -> PhysicalType
    ensures { result ≡ binary_layout O.IS_LARGE }
{
    if O::IS_LARGE {
        PhysicalType::LargeBinary
    } else {
        PhysicalType::Binary
    }
}

impl<O: Offset> BinaryArray<O> {
    /// The array of a data type, offsets, bytes and a mask. Takes no memory.
    ///
    /// # Errors
    /// `OutOfSpec`: arrays of the data type do not store byte strings with such offsets, the mask is not as long as the array, or the last
    /// offset is past the bytes.
    pub fn try_new(
        data_type: DataType,
        offsets: OffsetsBuffer<O>,
        values: Buffer<u8>,
        validity: Option<Bitmap>,
    ) -> Result<Self>
        ensures { IsChecked (IsBinary O.IS_LARGE) (byte_strings data_type offsets values validity) result }
    {
        let column = ByteColumn::try_new(layout::<O>(), data_type, offsets, values, validity)?;
        Ok(BinaryArray { column })
    }

    /// The array of parts that fit, as `try_new` tests.
    pub fn new(
        data_type: DataType,
        offsets: OffsetsBuffer<O>,
        values: Buffer<u8>,
        validity: Option<Bitmap>,
    ) -> Self
        requires { IsBinary O.IS_LARGE (byte_strings data_type offsets values validity) }
        ensures { result ≡ byte_strings data_type offsets values validity }
    {
        BinaryArray {
            column: ByteColumn::new(data_type, offsets, values, validity),
        }
    }

    /// No slots.
    ///
    /// # Errors
    /// `OutOfMemory`: the offsets or the count of owners found no memory.
    pub fn new_empty(alloc: Global, data_type: DataType) -> Result<Self>
        requires { physical_type data_type ≡ binary_layout O.IS_LARGE }
        ensures { OrOutOfMemory result (λ a. a ≡ byte_strings data_type no_spans [] None) }
    {
        let column = ByteColumn::new_empty(alloc, data_type)?;
        Ok(BinaryArray { column })
    }

    /// So many nulls, each of which stores no bytes.
    ///
    /// # Errors
    /// `OutOfMemory`: the offsets, the mask or a count of owners found no memory.
    pub fn new_null(alloc: Global, data_type: DataType, length: usize) -> Result<Self>
        requires { physical_type data_type ≡ binary_layout O.IS_LARGE }
        ensures { OrOutOfMemory result (λ a. a ≡ nulls data_type length) }
    {
        let column = ByteColumn::new_null(alloc, data_type, length)?;
        Ok(BinaryArray { column })
    }

    /// The data type of byte strings with such offsets: `Binary` or `LargeBinary`.
    pub fn default_data_type() -> DataType
        ensures value { result ≡ binary_type O.IS_LARGE }
        ensures fits { physical_type result ≡ binary_layout O.IS_LARGE }
    {
        if O::IS_LARGE {
            DataType::LargeBinary
        } else {
            DataType::Binary
        }
    }

    /// The data type, the offsets, the bytes and the mask.
    pub fn into_inner(self) -> (DataType, OffsetsBuffer<O>, Buffer<u8>, Option<Bitmap>)
        ensures value { self ≡ byte_strings result.0 result.1 result.2 result.3 }
        ensures whole { IsBinary O.IS_LARGE self }
    {
        let BinaryArray { column } = self;
        column.into_inner()
    }

    /// How many slots there are.
    pub fn len(&self) -> usize
        ensures value { result ≡ len_of self.now }
        ensures whole { IsBinary O.IS_LARGE self.now }
    {
        self.column.len()
    }

    pub fn is_empty(&self) -> bool
        ensures { IsTrue result ↔ (len_of self.now ≡ 0) }
    {
        self.column.len() == 0
    }

    pub fn data_type(&self) -> &DataType
        ensures value { result.now ≡ self.now.data_type }
        ensures fits { physical_type result.now ≡ binary_layout O.IS_LARGE }
    {
        self.column.data_type()
    }

    /// The offsets: the byte string of a slot stands between two neighbouring ones.
    pub fn offsets(&self) -> &OffsetsBuffer<O>
        ensures { result.now ≡ self.now.offsets }
    {
        self.column.offsets()
    }

    /// The bytes, also those that stand before the first offset or behind the last.
    pub fn values(&self) -> &Buffer<u8>
        ensures { result.now ≡ self.now.bytes }
    {
        self.column.values()
    }

    /// The mask, where there is one: a bit is set where its slot is not null.
    pub fn validity(&self) -> Option<&Bitmap>
        ensures value { option_copied result ≡ self.now.validity }
        ensures length { IsMaskOf (len_of self.now) self.now.validity }
    {
        self.column.validity()
    }

    /// The stored byte string at a place, also where the slot is null.
    pub fn value(&self, index: usize) -> &[u8]
        requires { index < len_of self.now }
        ensures { slice_get (values_of self.now) index ≡ Some result.now }
    {
        self.column.value(index)
    }

    /// The slot at a place: its byte string, or none where it is null or where there is no such place.
    #[tactic(auto, using(crate::proofs::Slots::past_slots))]
    pub fn get(&self, index: usize) -> Option<&[u8]>
        ensures { option_copied result ≡ unwrap_or (slice_get (slots_of self.now) index) None }
    {
        if index < self.len() {
            self.column.get(index)
        } else {
            None
        }
    }

    /// Whether the slot at a place has a value.
    pub fn is_valid(&self, index: usize) -> bool
        requires { index < len_of self.now }
        ensures { slice_get (marks_of self.now) index ≡ Some result }
    {
        self.column.is_valid(index)
    }

    /// Whether the slot at a place is null.
    pub fn is_null(&self, index: usize) -> bool
        requires { index < len_of self.now }
        ensures { slice_get (marks_of self.now) index ≡ Some (not result) }
    {
        !self.column.is_valid(index)
    }

    /// How many slots are null.
    pub fn null_count(&self) -> usize
        ensures { result ≡ unset_count (marks_of self.now) }
    {
        self.column.null_count()
    }

    /// Narrows this to the `count` slots from `offset` on, with no copy.
    pub fn slice(&mut self, offset: usize, count: usize)
        requires { offset + count ≤ len_of self.old }
        ensures { self.new ≡ cut self.old offset count }
    {
        self.column.slice(offset, count);
    }

    /// The `count` slots from `offset` on, in the same memory. A slice of a slice is one at the sum of the places.
    pub fn sliced(self, offset: usize, count: usize) -> Self
        requires { offset + count ≤ len_of self }
        ensures { result ≡ cut self offset count }
    {
        let mut array = self;
        array.slice(offset, count);
        array
    }

    /// Replaces the mask.
    pub fn set_validity(&mut self, validity: Option<Bitmap>)
        requires { IsMaskOf (len_of self.old) validity }
        ensures { self.new ≡ with_mask self.old validity }
    {
        self.column.set_validity(validity);
    }

    /// The same values under another mask.
    pub fn with_validity(self, validity: Option<Bitmap>) -> Self
        requires { IsMaskOf (len_of self) validity }
        ensures { result ≡ with_mask self validity }
    {
        let mut array = self;
        array.set_validity(validity);
        array
    }

    /// Gives the mask, where there is one, to a function that gives one of the same length back.
    pub fn apply_validity<F: FnOnce(Bitmap) -> Bitmap + Drop>(&mut self, f: F)
        requires callable { ForSome self.old.validity (F.pre f) }
        requires keeps_length { KeepsLength (F.post f) self.old.validity }
        ensures { MatchOption self.old.validity (self.new ≡ self.old)
            (λ mask. (after : List Bool) × F.post f mask after × (self.new ≡ with_mask self.old (Some after))) }
    {
        self.column.apply_validity(f);
    }

    /// The stored byte strings, those under nulls too, from both ends.
    pub fn values_iter(&self) -> BinaryValueIter<'_, O>
        ensures { result ≡ values_of self.now }
    {
        ByteValuesIter::new(self)
    }

    /// The slots from both ends: the stored byte strings, and where a slot is null their marks beside them.
    pub fn iter(&self) -> ZipValidity<&[u8], BinaryValueIter<'_, O>, BitmapIter<'_>>
        ensures { StandsBefore self.now result }
    {
        ZipValidity::new_with_validity(self.values_iter(), self.column.validity())
    }
}

impl<O: Offset> PartialEq for BinaryArray<O> {
    ghost eq = { same_array };

    ghost laws = { same_array-per };

    fn eq(&self, other: &Self) -> bool
        ensures value { result ≡ same_array self.now other.now }
        ensures exact { IsTrue result ↔ AreEqual self.now other.now }
    {
        self.column.is_equal(&other.column)
    }
}

impl<O: Offset> Eq for BinaryArray<O> {
    ghost laws = { same_array-equivalence };
}
