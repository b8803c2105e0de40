//! Byte strings added to builders many at once, and builders made of many.
ghost use Rattle.std.specs.Prelude.{None, Some, [], map};
ghost use Rattle.std.specs.Iterator.{IsFinite};
ghost use Rattle.flat_arrays_bytes.specs.columnar_memory.Spans.{no_spans};
ghost use Rattle.flat_arrays_bytes.specs.ByteStrings.{byte_strings};
ghost use Rattle.flat_arrays_bytes.specs.Fits.{binary_type};
ghost use Rattle.flat_arrays_byte_values_builders.specs.Growing.{GathersAlong, Grows, GrowsAlong, IsGathered, joined};

use crate::MutableBinaryValuesArray;
use flat_arrays_bytes::columnar_memory::{Offset, Result};
use std::alloc::Global;
use std::convert::AsSlice;

impl<O: Offset> MutableBinaryValuesArray<O> {
    /// Adds the byte strings of an iterator that ends, one after another, until one is refused: those before it stay.
    ///
    /// # Errors
    /// `Overflow`: a byte string would end past the greatest offset of the type.
    /// `OutOfMemory`: a byte string found no memory.
    pub fn try_extend<P: AsSlice<u8> + Drop, I: Iterator<Item = P> + Drop>(
        &mut self,
        values: I,
    ) -> Result<()>
        requires can { I.can_next values }
        requires ends { IsFinite (I.remaining values) }
        ensures { GrowsAlong I.next_gives O.greatest (λ value. Some (P.items value)) values self.old self.new result }
    {
        // An iterator that promises more than there is memory for may give fewer.
        let _ = self.reserve(values.size_hint().0, 0);
        for value in values {
            self.try_push(value.as_slice())?;
        }
        Ok(())
    }

    /// The same as `try_extend`.
    ///
    /// # Errors
    /// `Overflow`: a byte string would end past the greatest offset of the type.
    /// `OutOfMemory`: a byte string found no memory.
    pub fn extend<P: AsSlice<u8> + Drop, I: Iterator<Item = P> + Drop>(
        &mut self,
        values: I,
    ) -> Result<()>
        requires can { I.can_next values }
        requires ends { IsFinite (I.remaining values) }
        ensures { GrowsAlong I.next_gives O.greatest (λ value. Some (P.items value)) values self.old self.new result }
    {
        self.try_extend(values)
    }

    /// Adds the byte strings of another builder behind the others, whatever its data type, or changes nothing. Its bytes are copied at once.
    ///
    /// # Errors
    /// `Overflow`: the last one would end past the greatest offset of the type.
    /// `OutOfMemory`: they found no memory.
    pub fn try_extend_from_self(&mut self, other: &Self) -> Result<()>
        ensures { Grows O.greatest self.old (joined self.old other.now) self.new result }
    {
        self.builder.try_extend_from_self(&other.builder)
    }

    /// The byte strings of an iterator that ends.
    ///
    /// # Errors
    /// `Overflow`: a byte string would end past the greatest offset of the type.
    /// `OutOfMemory`: a byte string found no memory.
    pub fn try_from_iter<P: AsSlice<u8> + Drop, I: Iterator<Item = P> + Drop>(
        alloc: Global,
        values: I,
    ) -> Result<Self>
        requires can { I.can_next values }
        requires ends { IsFinite (I.remaining values) }
        ensures { GathersAlong I.next_gives O.greatest (λ value. Some (P.items value)) values
            (byte_strings (binary_type O.IS_LARGE) no_spans [] None) result }
    {
        let mut builder = MutableBinaryValuesArray::new(alloc)?;
        builder.try_extend(values)?;
        Ok(builder)
    }

    /// The same as `try_from_iter`.
    ///
    /// # Errors
    /// `Overflow`: a byte string would end past the greatest offset of the type.
    /// `OutOfMemory`: a byte string found no memory.
    pub fn from_iter<P: AsSlice<u8> + Drop, I: Iterator<Item = P> + Drop>(
        alloc: Global,
        values: I,
    ) -> Result<Self>
        requires can { I.can_next values }
        requires ends { IsFinite (I.remaining values) }
        ensures { GathersAlong I.next_gives O.greatest (λ value. Some (P.items value)) values
            (byte_strings (binary_type O.IS_LARGE) no_spans [] None) result }
    {
        MutableBinaryValuesArray::try_from_iter(alloc, values)
    }

    /// Copies of some byte strings.
    ///
    /// # Errors
    /// `Overflow`: the last one would end past the greatest offset of the type.
    /// `OutOfMemory`: they found no memory.
    pub fn from_slice<P: AsSlice<u8>>(alloc: Global, values: &[P]) -> Result<Self>
        ensures { IsGathered O.greatest (byte_strings (binary_type O.IS_LARGE) no_spans [] None) (map (λ value. Some (P.items value)) values.now)
            result }
    {
        MutableBinaryValuesArray::try_from_iter(alloc, values.iter())
    }
}
