ghost use Rattle.std.specs.Prelude.{◌≡◌, ◌<◌, ◌≤◌, [], ◌∷◌, length, slice_get, option_copied, ◌↔◌, IfErr, IsTrue, None, Some};
ghost use Rattle.flat_arrays_values.specs.columnar_memory.Conversions.{type_of_primitive};
ghost use Rattle.flat_arrays_values.specs.columnar_memory.Error.{IsOutOfMemory};
ghost use Rattle.flat_arrays_values.specs.columnar_memory.Layouts.{physical_type};
ghost use Rattle.flat_arrays_values.specs.columnar_memory.Results.{OrOutOfMemory};
ghost use Rattle.flat_arrays_values.specs.columnar_memory.declared.PhysicalType.TheVariants as layouts;
ghost use Rattle.flat_arrays_values.specs.Flat.{cut, flat, marks_of, slots_of, tidied, IsFlat, IsMaskOf};
ghost use Rattle.flat_arrays_values.specs.Results.{ForZero, IsChecked};
ghost use Rattle.flat_arrays_values.specs.Growth.{grown, with_slots};
ghost use Rattle.flat_arrays_values.specs.Changes.{Changes, Pops};

use flat_arrays_values::PrimitiveArray;
use flat_arrays_values::columnar_memory::{
    Buffer, DataType, Error, MutableBitmap, NativeType, Result,
};
use flat_arrays_values::marks::{
    freeze_needed_mask, is_mask_of, mark_at, push_mark, reserve_marks, shrink_marks, tidy_mask,
    truncate_mask,
};
use std::alloc::Global;
use std::marker::Model;
use std::rc::Rc;

/// A builder of a `PrimitiveArray`: values of one width, any of which may be null (Arrow columnar format, "Fixed-size Primitive Layout").
/// A contract sees its data type, its stored values and its mask.
///
/// A call that grows it and finds no memory answers `OutOfMemory` and changes nothing.
#[derive(Debug)]
pub struct MutablePrimitiveArray<T: NativeType> {
    pub(crate) data_type: DataType,
    pub(crate) values: Vec<T>,
    pub(crate) validity: Option<MutableBitmap>,
}

impl<T: NativeType> Drop for MutablePrimitiveArray<T> {
    fn drop(self) {
        let MutablePrimitiveArray {
            data_type: _,
            values: _,
            validity: _,
        } = self;
    }
}

impl<T: NativeType> Model for MutablePrimitiveArray<T> {
    ghost use Rattle.flat_arrays_values.specs.columnar_memory.declared.PhysicalType.TheVariants as layouts;
    ghost use Rattle.flat_arrays_values.specs.Flat.{Flat, flat, flat_code, IsFlat};

    ghost Value = { Flat T };

    ghost coded = { flat_code T.code };

    ghost view = { λ b. flat b.data_type b.values.items b.validity };

    ghost invariant = { λ b. IsFlat (layouts.Primitive T.PRIMITIVE) (flat b.data_type b.values.items b.validity) };
}

impl<T: NativeType> MutablePrimitiveArray<T> {
    /// No slots, under the plainest data type of such values. Takes no memory.
    #[tactic(auto, using(flat_arrays_values::proofs::Layouts::plainest))]
    pub fn new(alloc: Global) -> Self
        ensures { result ≡ flat (type_of_primitive T.PRIMITIVE) [] None }
    {
        MutablePrimitiveArray {
            data_type: DataType::from(T::PRIMITIVE),
            values: Vec::new(alloc),
            validity: None,
        }
    }

    /// No slots, under the plainest data type of such values, with room for `capacity` values.
    ///
    /// # Errors
    /// `OutOfMemory`: the room found no memory.
    #[tactic(auto, using(flat_arrays_values::proofs::Layouts::plainest))]
    pub fn with_capacity(alloc: Global, capacity: usize) -> Result<Self>
        ensures { OrOutOfMemory result (λ builder. builder ≡ flat (type_of_primitive T.PRIMITIVE) [] None) }
    {
        MutablePrimitiveArray::with_capacity_from(alloc, capacity, DataType::from(T::PRIMITIVE))
    }

    /// No slots, with room for `capacity` values.
    ///
    /// # Errors
    /// `OutOfMemory`: the room found no memory.
    pub fn with_capacity_from(alloc: Global, capacity: usize, data_type: DataType) -> Result<Self>
        requires { physical_type data_type ≡ layouts.Primitive T.PRIMITIVE }
        ensures { OrOutOfMemory result (λ builder. builder ≡ flat data_type [] None) }
    {
        let values = Vec::with_capacity(alloc, capacity)?;
        Ok(MutablePrimitiveArray {
            data_type,
            values,
            validity: None,
        })
    }

    /// The builder of a data type, values and a mask. Takes no memory.
    ///
    /// # Errors
    /// `OutOfSpec`: arrays of the data type do not store values of `T`, or the mask is not as long as the values.
    pub fn try_new(
        data_type: DataType,
        values: Vec<T>,
        validity: Option<MutableBitmap>,
    ) -> Result<Self>
        ensures { IsChecked (layouts.Primitive T.PRIMITIVE) (flat data_type values.items validity) result }
    {
        if !is_mask_of(&validity, values.len()) {
            return Err(Error::OutOfSpec("a mask of another length than the values"));
        }
        if !data_type.to_physical_type().eq_primitive(T::PRIMITIVE) {
            return Err(Error::OutOfSpec("a data type whose arrays store other values"));
        }
        Ok(MutablePrimitiveArray {
            data_type,
            values,
            validity,
        })
    }

    /// The data type, the values and the mask.
    pub fn into_inner(self) -> (DataType, Vec<T>, Option<MutableBitmap>)
        ensures data_type { result.0 ≡ self.data_type }
        ensures values { result.1.items ≡ self.values }
        ensures validity { result.2 ≡ self.validity }
        ensures whole { IsFlat (layouts.Primitive T.PRIMITIVE) self }
    {
        let MutablePrimitiveArray {
            data_type,
            values,
            validity,
        } = self;
        (data_type, values, validity)
    }

    /// How many slots there are.
    #[tactic(auto, using(flat_arrays_values::proofs::Cuts::lengths))]
    pub fn len(&self) -> usize
        ensures value { result ≡ length self.now.values }
        ensures slots { result ≡ length (slots_of self.now) }
        ensures whole { IsFlat (layouts.Primitive T.PRIMITIVE) self.now }
    {
        self.values.len()
    }

    pub fn is_empty(&self) -> bool
        ensures { IsTrue result ↔ (self.now.values ≡ []) }
    {
        self.values.is_empty()
    }

    /// How many values its memory has room for, at least as many as there are.
    pub fn capacity(&self) -> usize
        ensures { length self.now.values ≤ result }
    {
        self.values.capacity()
    }

    pub fn data_type(&self) -> &DataType
        ensures value { result.now ≡ self.now.data_type }
        ensures fits { physical_type result.now ≡ layouts.Primitive T.PRIMITIVE }
    {
        &self.data_type
    }

    /// The stored values, those under nulls too.
    pub fn values(&self) -> &Vec<T>
        ensures { result.now.items ≡ self.now.values }
    {
        &self.values
    }

    /// The mask, where there is one: a bit is set where its slot is not null.
    pub fn validity(&self) -> Option<&MutableBitmap>
        ensures value { option_copied result ≡ self.now.validity }
        ensures length { IsMaskOf (length self.now.values) self.now.validity }
    {
        self.validity.as_ref()
    }

    /// The stored value at a place, also where the slot is null.
    pub fn value(&self, i: usize) -> T
        requires { i < length self.now.values }
        ensures { slice_get self.now.values i ≡ Some result }
    {
        self.values[i]
    }

    /// Whether the slot at a place has a value.
    pub fn is_valid(&self, i: usize) -> bool
        requires { i < length self.now.values }
        ensures { slice_get (marks_of self.now) i ≡ Some result }
    {
        mark_at(&self.validity, i)
    }

    /// The slot at a place: its value, or none where it is null.
    #[tactic(auto, using(flat_arrays_values::proofs::MarkPlaces::slot_lemmas))]
    pub fn get(&self, i: usize) -> Option<T>
        requires { i < length self.now.values }
        ensures { slice_get (slots_of self.now) i ≡ Some result }
    {
        if self.is_valid(i) {
            Some(self.value(i))
        } else {
            None
        }
    }

    /// Makes room for some more slots.
    ///
    /// # Errors
    /// `OutOfMemory`: the room found no memory.
    pub fn reserve(&mut self, additional: usize) -> Result<()>
        ensures same { self.new ≡ self.old }
        ensures error { IfErr result IsOutOfMemory }
    {
        self.values.reserve(additional)?;
        reserve_marks(&mut self.validity, additional)
    }

    /// Gives back memory that no slot needs, as far as the allocator takes it.
    pub fn shrink_to_fit(&mut self)
        ensures { self.new ≡ self.old }
    {
        self.values.shrink_to_fit();
        shrink_marks(&mut self.validity);
    }

    /// Adds a value and its mark at the end.
    #[inline(always)]
    #[tactic(auto, using(flat_arrays_values::proofs::Marked::cut_back, flat_arrays_values::proofs::Marked::masked))]
    pub(crate) fn push_marked(&mut self, value: T, mark: bool) -> Result<()>
        ensures { Changes result self.old self.new (grown self.old (value ∷ []) (mark ∷ [])) }
    {
        let alloc = *self.values.allocator();
        let held = self.values.len();
        self.values.push(value)?;
        if push_mark(alloc, &mut self.validity, held, mark).is_err() {
            self.values.truncate(held);
            return Err(Error::OutOfMemory);
        }
        Ok(())
    }

    /// Adds a slot at the end. A null stores zeros, and the first one makes the mask.
    ///
    /// # Errors
    /// `OutOfMemory`: the slot found no memory.
    #[inline(always)]
    pub fn push(&mut self, slot: Option<T>) -> Result<()>
        ensures { ForZero T.numbers T.PRIMITIVE (λ zero. Changes result self.old self.new (with_slots zero self.old (slot ∷ []))) }
    {
        let zero = T::default();
        match slot {
            Some(value) => self.push_marked(value, true),
            None => self.push_marked(zero, false),
        }
    }

    /// The same as `push`.
    ///
    /// # Errors
    /// `OutOfMemory`: the slot found no memory.
    #[inline(always)]
    pub fn try_push(&mut self, slot: Option<T>) -> Result<()>
        ensures { ForZero T.numbers T.PRIMITIVE (λ zero. Changes result self.old self.new (with_slots zero self.old (slot ∷ []))) }
    {
        self.push(slot)
    }

    /// Adds a null at the end.
    ///
    /// # Errors
    /// `OutOfMemory`: the slot found no memory.
    pub fn push_null(&mut self) -> Result<()>
        ensures { ForZero T.numbers T.PRIMITIVE (λ zero. Changes result self.old self.new (with_slots zero self.old (None ∷ []))) }
    {
        self.push(None)
    }

    /// Drops the slots from `len` on, and the mask where none of the others is null.
    pub fn truncate(&mut self, len: usize)
        requires { len ≤ length self.old.values }
        ensures { self.new ≡ tidied (cut self.old 0 len) }
    {
        self.keep_first(len);
        tidy_mask(&mut self.validity);
    }

    /// Drops the slots from `len` on, and their marks.
    fn keep_first(&mut self, len: usize)
        requires { len ≤ length self.old.values }
        ensures { self.new ≡ cut self.old 0 len }
    {
        self.values.truncate(len);
        truncate_mask(&mut self.validity, len);
    }

    /// Takes the last slot off: its value, or none where it is null or there is no slot.
    pub fn pop(&mut self) -> Option<T>
        ensures { Pops self.old result self.new }
    {
        let len = self.len();
        if len == 0 {
            return None;
        }
        let slot = self.get(len - 1);
        self.keep_first(len - 1);
        slot
    }

    /// The array of these slots, with no copy. It has no mask where no slot is null.
    ///
    /// # Errors
    /// `OutOfMemory`: the counts of owners found no memory.
    pub fn freeze(self) -> Result<PrimitiveArray<T>>
        ensures { OrOutOfMemory result (λ array. array ≡ tidied self) }
    {
        let MutablePrimitiveArray {
            data_type,
            values,
            validity,
        } = self;
        Ok(PrimitiveArray::new(
            data_type,
            Buffer::from_vec(values)?,
            freeze_needed_mask(validity)?,
        ))
    }

    /// The same array behind a count of owners.
    ///
    /// # Errors
    /// `OutOfMemory`: the counts of owners found no memory.
    pub fn into_arc(self) -> Result<Rc<PrimitiveArray<T>>>
        ensures { OrOutOfMemory result (λ array. array.value ≡ tidied self) }
    {
        let alloc = *self.values.allocator();
        Ok(Rc::new(alloc, self.freeze()?)?)
    }
}
