//! Texts added to builders many at once, and builders made of many.
ghost use Rattle.std.specs.Prelude.{None, Some, [], map};
ghost use Rattle.std.specs.Iterator.{IsFinite};
ghost use Rattle.flat_arrays_bytes.specs.columnar_memory.Spans.{no_spans};
ghost use Rattle.flat_arrays_bytes.specs.ByteStrings.{byte_strings};
ghost use Rattle.flat_arrays_bytes.specs.Fits.{text_type};
ghost use Rattle.flat_arrays_byte_values_builders.specs.Growing.{GathersAlong, Grows, GrowsAlong, IsGathered, joined};

use crate::MutableUtf8ValuesArray;
use flat_arrays_bytes::columnar_memory::{Offset, Result};
use std::alloc::Global;
use std::convert::AsStr;

impl<O: Offset> MutableUtf8ValuesArray<O> {
    /// Adds the texts of an iterator that ends, one after another, until one is refused: those before it stay.
    ///
    /// # Errors
    /// `Overflow`: a text would end past the greatest offset of the type.
    /// `OutOfMemory`: a text found no memory.
    pub fn try_extend<P: AsStr + Drop, I: Iterator<Item = P> + Drop>(
        &mut self,
        values: I,
    ) -> Result<()>
        requires can { I.can_next values }
        requires ends { IsFinite (I.remaining values) }
        ensures { GrowsAlong I.next_gives O.greatest (λ value. Some (P.text value)) values self.old self.new result }
    {
        // An iterator that promises more than there is memory for may give fewer.
        let _ = self.reserve(values.size_hint().0, 0);
        for value in values {
            self.try_push(value.as_str())?;
        }
        Ok(())
    }

    /// The same as `try_extend`.
    ///
    /// # Errors
    /// `Overflow`: a text would end past the greatest offset of the type.
    /// `OutOfMemory`: a text found no memory.
    pub fn extend<P: AsStr + Drop, I: Iterator<Item = P> + Drop>(&mut self, values: I) -> Result<()>
        requires can { I.can_next values }
        requires ends { IsFinite (I.remaining values) }
        ensures { GrowsAlong I.next_gives O.greatest (λ value. Some (P.text value)) values self.old self.new result }
    {
        self.try_extend(values)
    }

    /// Adds the texts of another builder behind the others, whatever its data type, or changes nothing. Its bytes are copied at once.
    ///
    /// # Errors
    /// `Overflow`: the last one would end past the greatest offset of the type.
    /// `OutOfMemory`: they found no memory.
    pub fn try_extend_from_self(&mut self, other: &Self) -> Result<()>
        ensures { Grows O.greatest self.old (joined self.old other.now) self.new result }
    {
        self.builder.try_extend_from_self(&other.builder)
    }

    /// The texts of an iterator that ends.
    ///
    /// # Errors
    /// `Overflow`: a text would end past the greatest offset of the type.
    /// `OutOfMemory`: a text found no memory.
    pub fn try_from_iter<P: AsStr + Drop, I: Iterator<Item = P> + Drop>(
        alloc: Global,
        values: I,
    ) -> Result<Self>
        requires can { I.can_next values }
        requires ends { IsFinite (I.remaining values) }
        ensures { GathersAlong I.next_gives O.greatest (λ value. Some (P.text value)) values
            (byte_strings (text_type O.IS_LARGE) no_spans [] None) result }
    {
        let mut builder = MutableUtf8ValuesArray::new(alloc)?;
        builder.try_extend(values)?;
        Ok(builder)
    }

    /// The same as `try_from_iter`.
    ///
    /// # Errors
    /// `Overflow`: a text would end past the greatest offset of the type.
    /// `OutOfMemory`: a text found no memory.
    pub fn from_iter<P: AsStr + Drop, I: Iterator<Item = P> + Drop>(
        alloc: Global,
        values: I,
    ) -> Result<Self>
        requires can { I.can_next values }
        requires ends { IsFinite (I.remaining values) }
        ensures { GathersAlong I.next_gives O.greatest (λ value. Some (P.text value)) values
            (byte_strings (text_type O.IS_LARGE) no_spans [] None) result }
    {
        MutableUtf8ValuesArray::try_from_iter(alloc, values)
    }

    /// Copies of some texts.
    ///
    /// # Errors
    /// `Overflow`: the last one would end past the greatest offset of the type.
    /// `OutOfMemory`: they found no memory.
    pub fn from_slice<P: AsStr>(alloc: Global, values: &[P]) -> Result<Self>
        ensures { IsGathered O.greatest (byte_strings (text_type O.IS_LARGE) no_spans [] None) (map (λ value. Some (P.text value)) values.now)
            result }
    {
        MutableUtf8ValuesArray::try_from_iter(alloc, values.iter())
    }
}
