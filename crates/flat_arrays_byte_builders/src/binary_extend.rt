//! Slots added to builders of byte strings many at once, and builders made of many.
ghost use Rattle.std.specs.Prelude.{None, Some, [], map, option_map};
ghost use Rattle.std.specs.Iterator.{IsFinite};
ghost use Rattle.flat_arrays_byte_values_builders.specs.columnar_memory.Spans.{no_spans};
ghost use Rattle.flat_arrays_byte_values_builders.specs.bytes.ByteStrings.{byte_strings};
ghost use Rattle.flat_arrays_byte_values_builders.specs.bytes.Fits.{binary_type};
ghost use Rattle.flat_arrays_byte_values_builders.specs.Growing.{GathersAlong, Grows, GrowsAlong, IsGathered, joined, with_slot};

use crate::MutableBinaryArray;
use flat_arrays_byte_values_builders::columnar_memory::{Offset, Result};
use std::alloc::Global;
use std::convert::AsSlice;

impl<O: Offset> MutableBinaryArray<O> {
    /// Adds the slots of an iterator that ends, one after another, until one is refused: those before it stay.
    ///
    /// # Errors
    /// `Overflow`: a slot would end past the greatest offset of the type.
    /// `OutOfMemory`: a slot found no memory.
    pub fn try_extend<P: AsSlice<u8> + Drop, I: Iterator<Item = Option<P>> + Drop>(
        &mut self,
        slots: I,
    ) -> Result<()>
        requires can { I.can_next slots }
        requires ends { IsFinite (I.remaining slots) }
        ensures { GrowsAlong I.next_gives O.greatest (option_map P.items) slots self.old self.new result }
    {
        // An iterator that promises more slots than there is memory for may give fewer.
        let _ = self.reserve(slots.size_hint().0, 0);
        for slot in slots {
            self.push_slot(slot)?;
        }
        Ok(())
    }

    /// Adds a slot behind the others, or changes nothing.
    fn push_slot<P: AsSlice<u8> + Drop>(&mut self, slot: Option<P>) -> Result<()>
        ensures { Grows O.greatest self.old (with_slot self.old (option_map P.items slot)) self.new result }
    {
        match slot {
            Some(value) => self.try_push(Some(value.as_slice())),
            None => self.try_push(None),
        }
    }

    /// The same as `try_extend`.
    ///
    /// # Errors
    /// `Overflow`: a slot would end past the greatest offset of the type.
    /// `OutOfMemory`: a slot found no memory.
    pub fn extend<P: AsSlice<u8> + Drop, I: Iterator<Item = Option<P>> + Drop>(
        &mut self,
        slots: I,
    ) -> Result<()>
        requires can { I.can_next slots }
        requires ends { IsFinite (I.remaining slots) }
        ensures { GrowsAlong I.next_gives O.greatest (option_map P.items) slots self.old self.new result }
    {
        self.try_extend(slots)
    }

    /// Adds the byte strings of an iterator that ends, none of them null, one after another, until one is refused: those before it stay.
    ///
    /// # Errors
    /// `Overflow`: a byte string would end past the greatest offset of the type.
    /// `OutOfMemory`: a byte string found no memory.
    pub fn extend_values<P: AsSlice<u8> + Drop, I: Iterator<Item = P> + Drop>(
        &mut self,
        values: I,
    ) -> Result<()>
        requires can { I.can_next values }
        requires ends { IsFinite (I.remaining values) }
        ensures { GrowsAlong I.next_gives O.greatest (λ value. Some (P.items value)) values self.old self.new result }
    {
        // An iterator that promises more than there is memory for may give fewer.
        let _ = self.reserve(values.size_hint().0, 0);
        for value in values {
            self.try_push(Some(value.as_slice()))?;
        }
        Ok(())
    }

    /// Adds the slots of another builder behind the others, whatever its data type, or changes nothing. Its bytes are copied at once, and
    /// those under its nulls too.
    ///
    /// # Errors
    /// `Overflow`: the last one would end past the greatest offset of the type.
    /// `OutOfMemory`: they found no memory.
    pub fn try_extend_from_self(&mut self, other: &Self) -> Result<()>
        ensures { Grows O.greatest self.old (joined self.old other.now) self.new result }
    {
        self.builder.try_extend_from_self(&other.builder)
    }

    /// The slots of an iterator that ends.
    ///
    /// # Errors
    /// `Overflow`: a slot would end past the greatest offset of the type.
    /// `OutOfMemory`: a slot found no memory.
    pub fn from_iter<P: AsSlice<u8> + Drop, I: Iterator<Item = Option<P>> + Drop>(
        alloc: Global,
        slots: I,
    ) -> Result<Self>
        requires can { I.can_next slots }
        requires ends { IsFinite (I.remaining slots) }
        ensures { GathersAlong I.next_gives O.greatest (option_map P.items) slots (byte_strings (binary_type O.IS_LARGE) no_spans [] None) result }
    {
        let mut builder = MutableBinaryArray::new(alloc)?;
        builder.try_extend(slots)?;
        Ok(builder)
    }

    /// The byte strings of an iterator that ends, none of them null.
    ///
    /// # Errors
    /// `Overflow`: a byte string would end past the greatest offset of the type.
    /// `OutOfMemory`: a byte string found no memory.
    pub fn from_iter_values<P: AsSlice<u8> + Drop, I: Iterator<Item = P> + Drop>(
        alloc: Global,
        values: I,
    ) -> Result<Self>
        requires can { I.can_next values }
        requires ends { IsFinite (I.remaining values) }
        ensures { GathersAlong I.next_gives O.greatest (λ value. Some (P.items value)) values
            (byte_strings (binary_type O.IS_LARGE) no_spans [] None) result }
    {
        let mut builder = MutableBinaryArray::new(alloc)?;
        builder.extend_values(values)?;
        Ok(builder)
    }

    /// Copies of some slots.
    ///
    /// # Errors
    /// `Overflow`: the last one would end past the greatest offset of the type.
    /// `OutOfMemory`: they found no memory.
    pub fn from<P: AsSlice<u8>>(alloc: Global, slots: &[Option<P>]) -> Result<Self>
        ensures { IsGathered O.greatest (byte_strings (binary_type O.IS_LARGE) no_spans [] None) (map (option_map P.items) slots.now) result }
    {
        MutableBinaryArray::from_iter(alloc, slots.iter().map(|slot| slot.as_ref()))
    }

    /// Copies of some byte strings, none of them null.
    ///
    /// # Errors
    /// `Overflow`: the last one would end past the greatest offset of the type.
    /// `OutOfMemory`: they found no memory.
    pub fn from_slice<P: AsSlice<u8>>(alloc: Global, values: &[P]) -> Result<Self>
        ensures { IsGathered O.greatest (byte_strings (binary_type O.IS_LARGE) no_spans [] None) (map (λ value. Some (P.items value)) values.now)
            result }
    {
        MutableBinaryArray::from_iter_values(alloc, values.iter())
    }
}
