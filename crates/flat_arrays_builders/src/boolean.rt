ghost use Rattle.std.specs.Prelude.{◌≡◌, ◌<◌, ◌≤◌, [], ◌∷◌, length, slice_get, option_copied, ◌↔◌, IfErr, IsTrue, None, Some, false};
ghost use Rattle.flat_arrays_values.specs.columnar_memory.Error.{IsOutOfMemory};
ghost use Rattle.flat_arrays_values.specs.columnar_memory.Layouts.{physical_type};
ghost use Rattle.flat_arrays_values.specs.columnar_memory.Results.{OrOutOfMemory};
ghost use Rattle.flat_arrays_values.specs.columnar_memory.declared.PhysicalType.TheVariants as layouts;
ghost use Rattle.flat_arrays_values.specs.Flat.{cut, flat, marks_of, slots_of, tidied, IsFlat, IsMaskOf};
ghost use Rattle.flat_arrays_values.specs.Results.{IsChecked};
ghost use Rattle.flat_arrays_values.specs.Growth.{grown, with_slots};
ghost use Rattle.flat_arrays_values.specs.Changes.{Changes, Pops};

use flat_arrays_values::BooleanArray;
use flat_arrays_values::columnar_memory::{DataType, Error, MutableBitmap, PhysicalType, Result};
use flat_arrays_values::marks::{
    freeze_needed_mask, is_mask_of, mark_at, push_mark, reserve_marks, shrink_marks, tidy_mask,
    truncate_bits, truncate_mask,
};
use std::alloc::Global;
use std::marker::Model;
use std::rc::Rc;

/// A builder of a `BooleanArray`: booleans, any of which may be null (Arrow columnar format, "Fixed-size Primitive Layout",
/// one bit a value). A contract sees its data type, its stored values and its mask.
///
/// A call that grows it and finds no memory answers `OutOfMemory` and changes nothing.
#[derive(Debug)]
pub struct MutableBooleanArray {
    pub(crate) data_type: DataType,
    pub(crate) values: MutableBitmap,
    pub(crate) validity: Option<MutableBitmap>,
}

impl Drop for MutableBooleanArray {
    fn drop(self) {
        let MutableBooleanArray {
            data_type: _,
            values: _,
            validity: _,
        } = self;
    }
}

impl Model for MutableBooleanArray {
    ghost use Rattle.std.specs.Prelude.{Bool};
    ghost use Rattle.std.specs.Coded.{coded_bool};
    ghost use Rattle.flat_arrays_values.specs.columnar_memory.declared.PhysicalType.TheVariants as layouts;
    ghost use Rattle.flat_arrays_values.specs.Flat.{Flat, flat, flat_code, IsFlat};

    ghost Value = { Flat Bool };

    ghost coded = { flat_code coded_bool };

    ghost view = { λ b. flat b.data_type b.values b.validity };

    ghost invariant = { λ b. IsFlat layouts.Boolean (flat b.data_type b.values b.validity) };
}

impl MutableBooleanArray {
    /// No slots. Takes no memory.
    #[tactic(auto, using(flat_arrays_values::proofs::Layouts::plainest))]
    pub fn new(alloc: Global) -> Self
        ensures { result ≡ flat DataType.Boolean [] None }
    {
        MutableBooleanArray {
            data_type: DataType::Boolean,
            values: MutableBitmap::new(alloc),
            validity: None,
        }
    }

    /// No slots, with room for `capacity` booleans.
    ///
    /// # Errors
    /// `OutOfMemory`: the room found no memory.
    #[tactic(auto, using(flat_arrays_values::proofs::Layouts::plainest))]
    pub fn with_capacity(alloc: Global, capacity: usize) -> Result<Self>
        ensures { OrOutOfMemory result (λ builder. builder ≡ flat DataType.Boolean [] None) }
    {
        let values = MutableBitmap::with_capacity(alloc, capacity)?;
        Ok(MutableBooleanArray {
            data_type: DataType::Boolean,
            values,
            validity: None,
        })
    }

    /// The builder of a data type, values and a mask. Takes no memory.
    ///
    /// # Errors
    /// `OutOfSpec`: arrays of the data type do not store booleans, or the mask is not as long as the values.
    pub fn try_new(
        data_type: DataType,
        values: MutableBitmap,
        validity: Option<MutableBitmap>,
    ) -> Result<Self>
        ensures { IsChecked layouts.Boolean (flat data_type values validity) result }
    {
        if !is_mask_of(&validity, values.len()) {
            return Err(Error::OutOfSpec("a mask of another length than the values"));
        }
        if data_type.to_physical_type() != PhysicalType::Boolean {
            return Err(Error::OutOfSpec("a data type whose arrays store other values"));
        }
        Ok(MutableBooleanArray {
            data_type,
            values,
            validity,
        })
    }

    /// The data type, the values and the mask.
    pub fn into_data(self) -> (DataType, MutableBitmap, Option<MutableBitmap>)
        ensures data_type { result.0 ≡ self.data_type }
        ensures values { result.1 ≡ self.values }
        ensures validity { result.2 ≡ self.validity }
        ensures whole { IsFlat layouts.Boolean self }
    {
        let MutableBooleanArray {
            data_type,
            values,
            validity,
        } = self;
        (data_type, values, validity)
    }

    /// How many slots there are.
    #[tactic(auto, using(flat_arrays_values::proofs::Cuts::lengths))]
    pub fn len(&self) -> usize
        ensures value { result ≡ length self.now.values }
        ensures slots { result ≡ length (slots_of self.now) }
        ensures whole { IsFlat layouts.Boolean self.now }
    {
        self.values.len()
    }

    pub fn is_empty(&self) -> bool
        ensures { IsTrue result ↔ (self.now.values ≡ []) }
    {
        self.values.is_empty()
    }

    /// How many values its memory has room for, at least as many as there are.
    pub fn capacity(&self) -> usize
        ensures { length self.now.values ≤ result }
    {
        self.values.capacity()
    }

    pub fn data_type(&self) -> &DataType
        ensures value { result.now ≡ self.now.data_type }
        ensures fits { physical_type result.now ≡ layouts.Boolean }
    {
        &self.data_type
    }

    /// The stored values, those under nulls too.
    pub fn values(&self) -> &MutableBitmap
        ensures { result.now ≡ self.now.values }
    {
        &self.values
    }

    /// The mask, where there is one: a bit is set where its slot is not null.
    pub fn validity(&self) -> Option<&MutableBitmap>
        ensures value { option_copied result ≡ self.now.validity }
        ensures length { IsMaskOf (length self.now.values) self.now.validity }
    {
        self.validity.as_ref()
    }

    /// The stored value at a place, also where the slot is null.
    pub fn value(&self, i: usize) -> bool
        requires { i < length self.now.values }
        ensures { slice_get self.now.values i ≡ Some result }
    {
        self.values.get(i)
    }

    /// Whether the slot at a place has a value.
    pub fn is_valid(&self, i: usize) -> bool
        requires { i < length self.now.values }
        ensures { slice_get (marks_of self.now) i ≡ Some result }
    {
        mark_at(&self.validity, i)
    }

    /// The slot at a place: its value, or none where it is null.
    #[tactic(auto, using(flat_arrays_values::proofs::MarkPlaces::slot_lemmas))]
    pub fn get(&self, i: usize) -> Option<bool>
        requires { i < length self.now.values }
        ensures { slice_get (slots_of self.now) i ≡ Some result }
    {
        if self.is_valid(i) {
            Some(self.value(i))
        } else {
            None
        }
    }

    /// Makes room for some more slots.
    ///
    /// # Errors
    /// `OutOfMemory`: the room found no memory.
    pub fn reserve(&mut self, additional: usize) -> Result<()>
        ensures same { self.new ≡ self.old }
        ensures error { IfErr result IsOutOfMemory }
    {
        self.values.reserve(additional)?;
        reserve_marks(&mut self.validity, additional)
    }

    /// Gives back memory that no slot needs, as far as the allocator takes it.
    pub fn shrink_to_fit(&mut self)
        ensures { self.new ≡ self.old }
    {
        self.values.shrink_to_fit();
        shrink_marks(&mut self.validity);
    }

    /// Adds a value and its mark at the end.
    #[inline(always)]
    #[tactic(auto, using(flat_arrays_values::proofs::Marked::cut_back, flat_arrays_values::proofs::Marked::masked))]
    pub(crate) fn push_marked(&mut self, value: bool, mark: bool) -> Result<()>
        ensures { Changes result self.old self.new (grown self.old (value ∷ []) (mark ∷ [])) }
    {
        let alloc = self.values.allocator();
        let held = self.values.len();
        self.values.push(value)?;
        if push_mark(alloc, &mut self.validity, held, mark).is_err() {
            truncate_bits(&mut self.values, held);
            return Err(Error::OutOfMemory);
        }
        Ok(())
    }

    /// Adds a slot at the end. A null stores false, and the first one makes the mask.
    ///
    /// # Errors
    /// `OutOfMemory`: the slot found no memory.
    #[inline(always)]
    pub fn push(&mut self, slot: Option<bool>) -> Result<()>
        ensures { Changes result self.old self.new (with_slots false self.old (slot ∷ [])) }
    {
        match slot {
            Some(value) => self.push_marked(value, true),
            None => self.push_marked(false, false),
        }
    }

    /// The same as `push`.
    ///
    /// # Errors
    /// `OutOfMemory`: the slot found no memory.
    #[inline(always)]
    pub fn try_push(&mut self, slot: Option<bool>) -> Result<()>
        ensures { Changes result self.old self.new (with_slots false self.old (slot ∷ [])) }
    {
        self.push(slot)
    }

    /// Adds a null at the end.
    ///
    /// # Errors
    /// `OutOfMemory`: the slot found no memory.
    pub fn push_null(&mut self) -> Result<()>
        ensures { Changes result self.old self.new (with_slots false self.old (None ∷ [])) }
    {
        self.push(None)
    }

    /// Drops the slots from `len` on, and the mask where none of the others is null.
    pub fn truncate(&mut self, len: usize)
        requires { len ≤ length self.old.values }
        ensures { self.new ≡ tidied (cut self.old 0 len) }
    {
        self.keep_first(len);
        tidy_mask(&mut self.validity);
    }

    /// Drops the slots from `len` on, and their marks.
    fn keep_first(&mut self, len: usize)
        requires { len ≤ length self.old.values }
        ensures { self.new ≡ cut self.old 0 len }
    {
        truncate_bits(&mut self.values, len);
        truncate_mask(&mut self.validity, len);
    }

    /// Takes the last slot off: its value, or none where it is null or there is no slot.
    pub fn pop(&mut self) -> Option<bool>
        ensures { Pops self.old result self.new }
    {
        let len = self.len();
        if len == 0 {
            return None;
        }
        let slot = self.get(len - 1);
        self.keep_first(len - 1);
        slot
    }

    /// The array of these slots, with no copy. It has no mask where no slot is null.
    ///
    /// # Errors
    /// `OutOfMemory`: the counts of owners found no memory.
    pub fn freeze(self) -> Result<BooleanArray>
        ensures { OrOutOfMemory result (λ array. array ≡ tidied self) }
    {
        let MutableBooleanArray {
            data_type,
            values,
            validity,
        } = self;
        Ok(BooleanArray::new(data_type, values.freeze()?, freeze_needed_mask(validity)?))
    }

    /// The same array behind a count of owners.
    ///
    /// # Errors
    /// `OutOfMemory`: the counts of owners found no memory.
    pub fn into_arc(self) -> Result<Rc<BooleanArray>>
        ensures { OrOutOfMemory result (λ array. array.value ≡ tidied self) }
    {
        let alloc = self.values.allocator();
        Ok(Rc::new(alloc, self.freeze()?)?)
    }
}
