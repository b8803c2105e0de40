ghost use Rattle.std.specs.Prelude.{◌≡◌, ◌+◌, ◌<◌, ◌≤◌, [], not, length, slice_get, option_copied, unwrap_or, ◌↔◌, IsTrue, Some, None, Bool, List, MatchResult};
ghost use Rattle.std.specs.Option.{ForSome};
ghost use Rattle.columnar_memory_core.specs.Bits.{unset_count};
ghost use Rattle.columnar_memory_core.specs.Error.{IsOutOfMemory};
ghost use Rattle.columnar_memory_core.specs.Layouts.{physical_type};
ghost use Rattle.columnar_memory_core.specs.declared.PhysicalType.TheVariants as layouts;
ghost use Rattle.flat_arrays_values.specs.Flat.{flat, cut, marks_of, slots_of, IsFlat, IsMaskOf};
ghost use Rattle.flat_arrays_values.specs.Results.{AppliesTo, IsChecked};

use crate::masks::{apply_to_mask, is_mask_of, mark_at, slice_mask, unset_marks};
use columnar_memory_core::{Bitmap, DataType, Error, MutableBitmap, PhysicalType, Result};
use std::marker::Model;

/// Booleans, any of which may be null (Arrow columnar format, "Fixed-size Primitive Layout", one bit a value). A contract sees its data
/// type, its stored values and its mask. A cut has the same memory.
#[derive(Debug)]
pub struct BooleanArray {
    data_type: DataType,
    values: Bitmap,
    validity: Option<Bitmap>,
}

impl Drop for BooleanArray {
    fn drop(self) {
        let BooleanArray {
            data_type: _,
            values: _,
            validity: _,
        } = self;
    }
}

impl Model for BooleanArray {
    ghost use Rattle.std.specs.Prelude.{Bool};
    ghost use Rattle.std.specs.Coded.{coded_bool};
    ghost use Rattle.columnar_memory_core.specs.declared.PhysicalType.TheVariants as layouts;
    ghost use Rattle.flat_arrays_values.specs.Flat.{Flat, flat, flat_code, IsFlat};

    ghost Value = { Flat Bool };

    ghost coded = { flat_code coded_bool };

    ghost view = { λ a. flat a.data_type a.values a.validity };

    ghost invariant = { λ a. IsFlat layouts.Boolean (flat a.data_type a.values a.validity) };
}

impl BooleanArray {
    /// The array of a data type, values and a mask. Takes no memory.
    ///
    /// # Errors
    /// `OutOfSpec`: arrays of the data type do not store booleans, or the mask is not as long as the values.
    pub fn try_new(data_type: DataType, values: Bitmap, validity: Option<Bitmap>) -> Result<Self>
        ensures { IsChecked layouts.Boolean (flat data_type values validity) result }
    {
        if !is_mask_of(&validity, values.len()) {
            return Err(Error::OutOfSpec("a mask of another length than the values"));
        }
        if data_type.to_physical_type() != PhysicalType::Boolean {
            return Err(Error::OutOfSpec("a data type whose arrays store other values"));
        }
        Ok(BooleanArray {
            data_type,
            values,
            validity,
        })
    }

    /// The array of parts that fit, as `try_new` tests.
    pub fn new(data_type: DataType, values: Bitmap, validity: Option<Bitmap>) -> Self
        requires { IsFlat layouts.Boolean (flat data_type values validity) }
        ensures { result ≡ flat data_type values validity }
    {
        BooleanArray {
            data_type,
            values,
            validity,
        }
    }

    /// The array of parts such as `into_inner` gives. Takes no memory.
    ///
    /// # Errors
    /// `OutOfSpec`: arrays of the data type do not store booleans, or the mask is not as long as the values.
    pub fn from_inner(data_type: DataType, values: Bitmap, validity: Option<Bitmap>) -> Result<Self>
        ensures { IsChecked layouts.Boolean (flat data_type values validity) result }
    {
        BooleanArray::try_new(data_type, values, validity)
    }

    /// The data type, the values and the mask.
    pub fn into_inner(self) -> (DataType, Bitmap, Option<Bitmap>)
        ensures data_type { result.0 ≡ self.data_type }
        ensures values { result.1 ≡ self.values }
        ensures validity { result.2 ≡ self.validity }
        ensures whole { IsFlat layouts.Boolean self }
    {
        let BooleanArray {
            data_type,
            values,
            validity,
        } = self;
        (data_type, values, validity)
    }

    /// How many slots there are.
    #[tactic(auto, using(crate::proofs::Cuts::lengths))]
    pub fn len(&self) -> usize
        ensures value { result ≡ length self.now.values }
        ensures slots { result ≡ length (slots_of self.now) }
        ensures whole { IsFlat layouts.Boolean self.now }
    {
        self.values.len()
    }

    pub fn is_empty(&self) -> bool
        ensures { IsTrue result ↔ (self.now.values ≡ []) }
    {
        self.values.is_empty()
    }

    pub fn data_type(&self) -> &DataType
        ensures value { result.now ≡ self.now.data_type }
        ensures fits { physical_type result.now ≡ layouts.Boolean }
    {
        &self.data_type
    }

    /// The stored values, those under nulls too.
    pub fn values(&self) -> &Bitmap
        ensures { result.now ≡ self.now.values }
    {
        &self.values
    }

    /// The mask, where there is one: a bit is set where its slot is not null.
    pub fn validity(&self) -> Option<&Bitmap>
        ensures value { option_copied result ≡ self.now.validity }
        ensures length { IsMaskOf (length self.now.values) self.now.validity }
    {
        self.validity.as_ref()
    }

    /// The stored value at a place, also where the slot is null.
    pub fn value(&self, i: usize) -> bool
        requires { i < length self.now.values }
        ensures { slice_get self.now.values i ≡ Some result }
    {
        self.values.get_bit(i)
    }

    /// The slot at a place: its value, or none where it is null or where there is no such place.
    #[tactic(auto, using(crate::proofs::MarkPlaces::past_slots))]
    pub fn get(&self, i: usize) -> Option<bool>
        ensures { result ≡ unwrap_or (slice_get (slots_of self.now) i) None }
    {
        if i < self.len() { self.slot(i) } else { None }
    }

    /// The slot at a place that there is: its value, or none where it is null.
    #[tactic(auto, using(crate::proofs::MarkPlaces::slot_lemmas))]
    pub(crate) fn slot(&self, i: usize) -> Option<bool>
        requires { i < length self.now.values }
        ensures { slice_get (slots_of self.now) i ≡ Some result }
    {
        if self.is_valid(i) {
            Some(self.value(i))
        } else {
            None
        }
    }

    /// Whether the slot at a place has a value.
    pub fn is_valid(&self, i: usize) -> bool
        requires { i < length self.now.values }
        ensures { slice_get (marks_of self.now) i ≡ Some result }
    {
        mark_at(&self.validity, i)
    }

    /// Whether the slot at a place is null.
    pub fn is_null(&self, i: usize) -> bool
        requires { i < length self.now.values }
        ensures { slice_get (marks_of self.now) i ≡ Some (not result) }
    {
        !self.is_valid(i)
    }

    /// How many slots are null.
    pub fn null_count(&self) -> usize
        ensures { result ≡ unset_count (marks_of self.now) }
    {
        unset_marks(&self.validity)
    }

    /// Narrows this to the `count` slots from `offset` on, with no copy.
    pub fn slice(&mut self, offset: usize, count: usize)
        requires { offset + count ≤ length self.old.values }
        ensures { self.new ≡ cut self.old offset count }
    {
        slice_mask(&mut self.validity, offset, count);
        self.values.slice(offset, count);
    }

    /// The `count` slots from `offset` on, in the same memory.
    pub fn sliced(self, offset: usize, count: usize) -> Self
        requires { offset + count ≤ length self.values }
        ensures { result ≡ cut self offset count }
    {
        let mut array = self;
        array.slice(offset, count);
        array
    }

    /// Replaces the mask.
    pub fn set_validity(&mut self, validity: Option<Bitmap>)
        requires { IsMaskOf (length self.old.values) validity }
        ensures { self.new ≡ flat self.old.data_type self.old.values validity }
    {
        self.validity = validity;
    }

    /// The same values with another mask.
    pub fn with_validity(self, validity: Option<Bitmap>) -> Self
        requires { IsMaskOf (length self.values) validity }
        ensures { result ≡ flat self.data_type self.values validity }
    {
        let mut array = self;
        array.set_validity(validity);
        array
    }

    /// Replaces the values by as many others.
    pub fn set_values(&mut self, values: Bitmap)
        requires { length values ≡ length self.old.values }
        ensures { self.new ≡ flat self.old.data_type values self.old.validity }
    {
        self.values = values;
    }

    /// The same mask with other values.
    pub fn with_values(self, values: Bitmap) -> Self
        requires { length values ≡ length self.values }
        ensures { result ≡ flat self.data_type values self.validity }
    {
        let mut array = self;
        array.set_values(values);
        array
    }

    /// The same slots under another data type whose arrays store booleans.
    pub fn to(self, data_type: DataType) -> Self
        requires { physical_type data_type ≡ layouts.Boolean }
        ensures { result ≡ flat data_type self.values self.validity }
    {
        let BooleanArray {
            data_type: _,
            values,
            validity,
        } = self;
        BooleanArray {
            data_type,
            values,
            validity,
        }
    }

    /// Replaces the mask, if there is one, by what a function gives for it, which has as many marks.
    pub fn apply_validity<F: FnOnce(Bitmap) -> Bitmap + Drop>(&mut self, f: F)
        requires callable { ForSome self.old.validity (F.pre f) }
        requires keeps { ForSome self.old.validity (λ mask. (made : List Bool) → F.post f mask made → length made ≡ length mask) }
        ensures applied { AppliesTo (F.post f) self.old.validity self.new.validity }
        ensures rest { self.new ≡ flat self.old.data_type self.old.values self.new.validity }
    {
        apply_to_mask(&mut self.validity, f);
    }

    /// Replaces the values by what a function makes of them, as many: of the bytes themselves, with no copy and no memory taken, where this
    /// is their one owner and the first value stands first in them; else of a copy.
    ///
    /// # Errors
    /// `OutOfMemory`: the copy or its count of owners found no memory. The array is as it was.
    pub fn apply_values_mut<F: FnOnce(MutableBitmap) -> MutableBitmap + Drop>(
        &mut self,
        f: F,
    ) -> Result<()>
        requires callable { F.pre f self.old.values }
        requires keeps { (made : List Bool) → F.post f self.old.values made → length made ≡ length self.old.values }
        ensures { MatchResult result
            (λ _. (made : List Bool) × F.post f self.old.values made × (self.new ≡ flat self.old.data_type made self.old.validity))
            (λ e. IsOutOfMemory e × (self.new ≡ self.old)) }
    {
        self.values.apply_mut(f)
    }
}
