//! Slots added to builders of primitive arrays, many at once.
ghost use Rattle.std.specs.Prelude.{length, replicate};
ghost use Rattle.std.specs.Iterator.{IsFinite};
ghost use Rattle.flat_arrays_values.specs.Flat.{marks, marks_of, IsMaskOf};
ghost use Rattle.flat_arrays_values.specs.Results.{ForZero};
ghost use Rattle.flat_arrays_values.specs.Growth.{grown, with_slots, with_values};
ghost use Rattle.flat_arrays_values.specs.Changes.{Changes, ChangesAlong};

use crate::primitive::MutablePrimitiveArray;
use flat_arrays_values::columnar_memory::{Error, MutableBitmap, NativeType, Result};
use flat_arrays_values::marks::{extend_constant_marks, extend_marks};

impl<T: NativeType> MutablePrimitiveArray<T> {
    /// Adds the slots of an iterator that ends, one after another, until one finds no memory: the slots before it stay. A null stores
    /// zeros, and the first one makes the mask.
    ///
    /// # Errors
    /// `OutOfMemory`: a slot found no memory.
    pub fn extend<I: Iterator<Item = Option<T>> + Drop>(&mut self, slots: I) -> Result<()>
        requires can { I.can_next slots }
        requires ends { IsFinite (I.remaining slots) }
        ensures { ForZero T.numbers T.PRIMITIVE (λ zero. ChangesAlong I.next_gives (with_slots zero self.old) slots self.new result) }
    {
        let zero = T::default();
        // An iterator that promises more slots than there is memory for may give fewer.
        let _ = self.reserve(slots.size_hint().0);
        for slot in slots {
            self.push_marked(slot.unwrap_or(zero), slot.is_some())?;
        }
        Ok(())
    }

    /// The same as `extend`.
    ///
    /// # Errors
    /// `OutOfMemory`: a slot found no memory.
    pub fn try_extend<I: Iterator<Item = Option<T>> + Drop>(&mut self, slots: I) -> Result<()>
        requires can { I.can_next slots }
        requires ends { IsFinite (I.remaining slots) }
        ensures { ForZero T.numbers T.PRIMITIVE (λ zero. ChangesAlong I.next_gives (with_slots zero self.old) slots self.new result) }
    {
        self.extend(slots)
    }

    /// Adds the values of an iterator that ends, none of them null, one after another, until one finds no memory: those before it stay.
    ///
    /// # Errors
    /// `OutOfMemory`: a value found no memory.
    pub fn extend_values<I: Iterator<Item = T> + Drop>(&mut self, values: I) -> Result<()>
        requires can { I.can_next values }
        requires ends { IsFinite (I.remaining values) }
        ensures { ChangesAlong I.next_gives (with_values self.old) values self.new result }
    {
        // An iterator that promises more values than there is memory for may give fewer.
        let _ = self.reserve(values.size_hint().0);
        for value in values {
            self.push_marked(value, true)?;
        }
        Ok(())
    }

    /// Adds `additional` equal slots at the end. A null stores zeros, and the first one makes the mask.
    ///
    /// # Errors
    /// `OutOfMemory`: the slots found no memory.
    pub fn extend_constant(&mut self, additional: usize, slot: Option<T>) -> Result<()>
        ensures { ForZero T.numbers T.PRIMITIVE (λ zero. Changes result self.old self.new (with_slots zero self.old (replicate additional slot))) }
    {
        let zero = T::default();
        self.extend_equal(additional, slot.unwrap_or(zero), slot.is_some())
    }

    /// Adds `additional` equal values with equal marks at the end.
    fn extend_equal(&mut self, additional: usize, value: T, mark: bool) -> Result<()>
        ensures { Changes result self.old self.new (grown self.old (replicate additional value) (replicate additional mark)) }
    {
        let alloc = *self.values.allocator();
        let held = self.values.len();
        let Some(len) = held.checked_add(additional) else {
            return Err(Error::OutOfMemory);
        };
        self.values.resize(len, value)?;
        let marked = extend_constant_marks(alloc, &mut self.validity, held, additional, mark);
        if marked.is_err() {
            self.values.truncate(held);
        }
        marked
    }

    /// Adds a copy of some values at the end, none of them null.
    ///
    /// # Errors
    /// `OutOfMemory`: the values found no memory.
    pub fn extend_from_slice(&mut self, values: &[T]) -> Result<()>
        ensures { Changes result self.old self.new (with_values self.old values.now) }
    {
        self.extend_marked(values, &None)
    }

    /// Adds the slots of another builder at the end, whatever its data type.
    ///
    /// # Errors
    /// `OutOfMemory`: the slots found no memory.
    pub fn try_extend_from_self(&mut self, other: &Self) -> Result<()>
        ensures { Changes result self.old self.new (grown self.old other.now.values (marks_of other.now)) }
    {
        self.extend_marked(&other.values, &other.validity)
    }

    /// Adds a copy of some values, with their marks, at the end.
    #[tactic(auto, using(flat_arrays_values::proofs::Marked::cut_back, flat_arrays_values::proofs::Marked::masked))]
    fn extend_marked(&mut self, values: &[T], validity: &Option<MutableBitmap>) -> Result<()>
        requires { IsMaskOf (length values.now) validity.now }
        ensures { Changes result self.old self.new (grown self.old values.now (marks (length values.now) validity.now)) }
    {
        let alloc = *self.values.allocator();
        let held = self.values.len();
        self.values.extend_from_slice(values)?;
        let marked = extend_marks(alloc, &mut self.validity, held, validity, values.len());
        if marked.is_err() {
            self.values.truncate(held);
        }
        marked
    }
}
