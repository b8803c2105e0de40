//! Slots added to builders of texts many at once, and builders made of many.
ghost use Rattle.std.specs.Prelude.{None, Some, [], map, option_map};
ghost use Rattle.std.specs.Iterator.{IsFinite};
ghost use Rattle.flat_arrays_byte_values_builders.specs.columnar_memory.Spans.{no_spans};
ghost use Rattle.flat_arrays_byte_values_builders.specs.bytes.ByteStrings.{byte_strings};
ghost use Rattle.flat_arrays_byte_values_builders.specs.bytes.Fits.{text_type};
ghost use Rattle.flat_arrays_byte_values_builders.specs.Growing.{GathersAlong, Grows, GrowsAlong, IsGathered, joined, with_slot};

use crate::MutableUtf8Array;
use flat_arrays_byte_values_builders::columnar_memory::{Offset, Result};
use std::alloc::Global;
use std::convert::AsStr;

impl<O: Offset> MutableUtf8Array<O> {
    /// Adds the slots of an iterator that ends, one after another, until one is refused: those before it stay.
    ///
    /// # Errors
    /// `Overflow`: a slot would end past the greatest offset of the type.
    /// `OutOfMemory`: a slot found no memory.
    pub fn try_extend<P: AsStr + Drop, I: Iterator<Item = Option<P>> + Drop>(
        &mut self,
        slots: I,
    ) -> Result<()>
        requires can { I.can_next slots }
        requires ends { IsFinite (I.remaining slots) }
        ensures { GrowsAlong I.next_gives O.greatest (option_map P.text) slots self.old self.new result }
    {
        // An iterator that promises more slots than there is memory for may give fewer.
        let _ = self.reserve(slots.size_hint().0, 0);
        for slot in slots {
            self.push_slot(slot)?;
        }
        Ok(())
    }

    /// Adds a slot behind the others, or changes nothing.
    fn push_slot<P: AsStr + Drop>(&mut self, slot: Option<P>) -> Result<()>
        ensures { Grows O.greatest self.old (with_slot self.old (option_map P.text slot)) self.new result }
    {
        match slot {
            Some(value) => self.try_push(Some(value.as_str())),
            None => self.try_push(None),
        }
    }

    /// The same as `try_extend`.
    ///
    /// # Errors
    /// `Overflow`: a slot would end past the greatest offset of the type.
    /// `OutOfMemory`: a slot found no memory.
    pub fn extend<P: AsStr + Drop, I: Iterator<Item = Option<P>> + Drop>(
        &mut self,
        slots: I,
    ) -> Result<()>
        requires can { I.can_next slots }
        requires ends { IsFinite (I.remaining slots) }
        ensures { GrowsAlong I.next_gives O.greatest (option_map P.text) slots self.old self.new result }
    {
        self.try_extend(slots)
    }

    /// Adds the texts of an iterator that ends, none of them null, one after another, until one is refused: those before it stay.
    ///
    /// # Errors
    /// `Overflow`: a text would end past the greatest offset of the type.
    /// `OutOfMemory`: a text found no memory.
    pub fn extend_values<P: AsStr + Drop, I: Iterator<Item = P> + Drop>(
        &mut self,
        values: I,
    ) -> Result<()>
        requires can { I.can_next values }
        requires ends { IsFinite (I.remaining values) }
        ensures { GrowsAlong I.next_gives O.greatest (λ value. Some (P.text value)) values self.old self.new result }
    {
        // An iterator that promises more than there is memory for may give fewer.
        let _ = self.reserve(values.size_hint().0, 0);
        for value in values {
            self.try_push(Some(value.as_str()))?;
        }
        Ok(())
    }

    /// Adds the slots of another builder behind the others, whatever its data type, or changes nothing. Its bytes are copied at once, and
    /// those under its nulls too.
    ///
    /// # Errors
    /// `Overflow`: the last one would end past the greatest offset of the type.
    /// `OutOfMemory`: they found no memory.
    pub fn try_extend_from_self(&mut self, other: &Self) -> Result<()>
        ensures { Grows O.greatest self.old (joined self.old other.now) self.new result }
    {
        self.builder.try_extend_from_self(&other.builder)
    }

    /// The slots of an iterator that ends.
    ///
    /// # Errors
    /// `Overflow`: a slot would end past the greatest offset of the type.
    /// `OutOfMemory`: a slot found no memory.
    pub fn from_iter<P: AsStr + Drop, I: Iterator<Item = Option<P>> + Drop>(
        alloc: Global,
        slots: I,
    ) -> Result<Self>
        requires can { I.can_next slots }
        requires ends { IsFinite (I.remaining slots) }
        ensures { GathersAlong I.next_gives O.greatest (option_map P.text) slots (byte_strings (text_type O.IS_LARGE) no_spans [] None) result }
    {
        let mut builder = MutableUtf8Array::new(alloc)?;
        builder.try_extend(slots)?;
        Ok(builder)
    }

    /// The texts of an iterator that ends, none of them null.
    ///
    /// # Errors
    /// `Overflow`: a text would end past the greatest offset of the type.
    /// `OutOfMemory`: a text found no memory.
    pub fn from_iter_values<P: AsStr + Drop, I: Iterator<Item = P> + Drop>(
        alloc: Global,
        values: I,
    ) -> Result<Self>
        requires can { I.can_next values }
        requires ends { IsFinite (I.remaining values) }
        ensures { GathersAlong I.next_gives O.greatest (λ value. Some (P.text value)) values
            (byte_strings (text_type O.IS_LARGE) no_spans [] None) result }
    {
        let mut builder = MutableUtf8Array::new(alloc)?;
        builder.extend_values(values)?;
        Ok(builder)
    }

    /// Copies of some slots.
    ///
    /// # Errors
    /// `Overflow`: the last one would end past the greatest offset of the type.
    /// `OutOfMemory`: they found no memory.
    pub fn from<P: AsStr>(alloc: Global, slots: &[Option<P>]) -> Result<Self>
        ensures { IsGathered O.greatest (byte_strings (text_type O.IS_LARGE) no_spans [] None) (map (option_map P.text) slots.now) result }
    {
        MutableUtf8Array::from_iter(alloc, slots.iter().map(|slot| slot.as_ref()))
    }

    /// Copies of some texts, none of them null.
    ///
    /// # Errors
    /// `Overflow`: the last one would end past the greatest offset of the type.
    /// `OutOfMemory`: they found no memory.
    pub fn from_slice<P: AsStr>(alloc: Global, values: &[P]) -> Result<Self>
        ensures { IsGathered O.greatest (byte_strings (text_type O.IS_LARGE) no_spans [] None) (map (λ value. Some (P.text value)) values.now)
            result }
    {
        MutableUtf8Array::from_iter_values(alloc, values.iter())
    }
}
