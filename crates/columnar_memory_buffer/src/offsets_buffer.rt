ghost use Rattle.std.specs.Prelude.{◌≡◌, ◌+◌, ◌-◌, ◌<◌, ◌≤◌, ◌↔◌, IsTrue, length, pos, sum, take, drop, MatchResult};
ghost use Rattle.either.specs.Either.{MatchEither};
ghost use Rattle.columnar_memory_native.specs.types.Error.{IsOutOfMemory};
ghost use Rattle.columnar_memory_buffer.specs.Growth.{Grows, Holds, IsChecked, IsCheckedInMemory};
ghost use Rattle.columnar_memory_buffer.specs.SpansEqual.{spans_eq, spans_eq_equivalence, spans_eq_partial_equivalence};
ghost use Rattle.columnar_memory_buffer.specs.Spans.{AreOffsets, last_of, no_spans, offset_at, spans_between};

use crate::offsets::converted;
use crate::places::{are_offsets, number_at, window_of};
use crate::{Buffer, Offsets, OffsetsLengths};
use columnar_memory_native::Offset;
use columnar_memory_native::types::{Error, Result};
use either::Either;
use std::alloc::{AllocError, Global};
use std::marker::Model;

/// Offsets in shared memory: at least one, none negative, none below the one before it. A contract sees them as
/// spans, where the first begins and the length of each (Arrow columnar format, "Variable-size Binary Layout").
#[derive(Debug, Drop)]
pub struct OffsetsBuffer<O: Offset> {
    values: Buffer<O>,
}

impl<O: Offset> Model for OffsetsBuffer<O> {
    ghost use Rattle.columnar_memory_buffer.specs.Spans.{Spans, stored, IsStored};

    ghost Value = { Spans };

    ghost view = { λ it. stored O.value it.values };

    ghost invariant = { λ it. IsStored O.value it.values };
}

impl<O: Offset> OffsetsBuffer<O> {
    /// The one offset 0.
    ///
    /// # Errors
    /// `OutOfMemory`: it found no memory.
    pub fn new(alloc: Global) -> Result<Self>
        ensures { MatchResult result (λ o. o ≡ no_spans) IsOutOfMemory }
    {
        Offsets::new(alloc)?.freeze()
    }

    /// The number of offsets, one more than that of the spans.
    pub fn len(&self) -> usize
        ensures { result ≡ length self.now.lengths + 1 }
    {
        self.values.len()
    }

    /// The number of spans.
    pub fn len_proxy(&self) -> usize
        ensures { result ≡ length self.now.lengths }
    {
        self.values.len() - 1
    }

    /// The offsets as a buffer.
    pub fn buffer(&self) -> &Buffer<O>
        ensures { AreOffsets O.value result.now self.now }
    {
        &self.values
    }

    pub fn as_slice(&self) -> &[O]
        ensures { AreOffsets O.value result.now self.now }
    {
        self.values.as_slice()
    }

    /// The offset at a place, as a number.
    fn number(&self, index: usize) -> usize
        requires { index ≤ length self.now.lengths }
        ensures value { result ≡ offset_at self.now index }
        ensures bound { result ≤ O.greatest }
    {
        number_at(self.values.as_slice(), index)
    }

    /// Where the first span begins.
    pub fn first(&self) -> &O
        ensures { O.value result.now ≡ pos self.now.start }
    {
        &self.values.as_slice()[0]
    }

    /// Where the last span ends.
    pub fn last(&self) -> &O
        ensures { O.value result.now ≡ pos (last_of self.now) }
    {
        let spans = self.len_proxy();
        &self.values.as_slice()[spans]
    }

    /// Where a span begins and ends.
    pub fn start_end(&self, index: usize) -> (usize, usize)
        requires { index < length self.now.lengths }
        ensures start { result.0 ≡ offset_at self.now index }
        ensures stop { result.1 ≡ offset_at self.now (index + 1) }
        ensures ordered { result.0 ≤ result.1 }
        ensures within { result.1 ≤ last_of self.now }
    {
        let _spans = self.len_proxy();
        (self.number(index), self.number(index + 1))
    }

    /// From where the first span begins to where the last one ends.
    pub fn range(&self) -> O
        ensures { O.value result ≡ pos (sum self.now.lengths) }
    {
        let start = self.number(0);
        let last = self.number(self.len_proxy());
        O::from_as_usize(last - start)
    }

    /// Narrows to this many offsets from a place on, with no copy. Of so many offsets there is one span less.
    pub fn slice(&mut self, offset: usize, count: usize)
        requires some { 0 < count }
        requires within { offset + count ≤ length self.old.lengths + 1 }
        ensures { self.new ≡ spans_between self.old offset (count - 1) }
    {
        let _offsets = self.len();
        self.values.slice(offset, count);
    }

    /// The lengths of the spans, in order.
    pub fn lengths(&self) -> OffsetsLengths<'_, O>
        ensures { result ≡ self.now.lengths }
    {
        OffsetsLengths::new(self.values.as_slice())
    }

    /// The offsets to grow, on the right, where this is the one owner of its memory and a window on all of it; else
    /// this, on the left. No memory is taken.
    pub fn into_mut(self) -> Either<OffsetsBuffer<O>, Offsets<O>>
        ensures { MatchEither result (λ b. b ≡ self) (λ o. o ≡ self) }
    {
        let OffsetsBuffer { values } = self;
        match values.into_mut() {
            Either::Left(values) => Either::Left(OffsetsBuffer { values }),
            Either::Right(values) => Either::Right(Offsets::from_stored(values)),
        }
    }

    /// The offsets as they stand, with no copy.
    pub fn into_inner(self) -> Buffer<O>
        ensures { AreOffsets O.value result self }
    {
        let OffsetsBuffer { values } = self;
        values
    }
}

impl<O: Offset> Offsets<O> {
    /// The offsets to share, with no copy of them.
    ///
    /// # Errors
    /// `OutOfMemory`: the count of owners found no memory.
    pub fn freeze(self) -> Result<OffsetsBuffer<O>>
        ensures { MatchResult result (λ b. b ≡ self) IsOutOfMemory }
    {
        let values = Buffer::from_vec(self.into_inner())?;
        Ok(OffsetsBuffer { values })
    }

    /// Adds spans of the same lengths as `count` spans of other offsets, from a place on, behind these.
    ///
    /// # Errors
    /// `Overflow`: the last one would end past the greatest offset of the type.
    /// `OutOfMemory`: the offsets found no memory.
    pub fn try_extend_from_slice(
        &mut self,
        other: &OffsetsBuffer<O>,
        start: usize,
        count: usize,
    ) -> Result<()>
        requires { start + count ≤ length other.now.lengths }
        ensures { Grows O.greatest self.old (take count (drop start other.now.lengths)) self.new result }
    {
        self.extend_from_offsets(window_of(other.as_slice(), start, count))
    }
}

impl<O: Offset> TryFrom<Buffer<O>> for OffsetsBuffer<O> {
    type Error = Error;

    ghost try_from_gives = { λ values r. IsChecked O.value values r };

    /// # Errors
    /// `OutOfSpec`: no offset, a negative one, or one below the one before it.
    fn try_from(values: Buffer<O>) -> Result<Self> {
        if are_offsets(values.as_slice()) {
            Ok(OffsetsBuffer { values })
        } else {
            Err(Error::OutOfSpec("offsets that are empty, negative or falling"))
        }
    }
}

impl TryFrom<&OffsetsBuffer<i64>> for OffsetsBuffer<i32> {
    type Error = Error;

    ghost try_from_gives = { λ offsets r. Holds 0x7fff_ffff offsets.now r };

    /// # Errors
    /// `Overflow`: the last offset passes the greatest `i32`.
    /// `OutOfMemory`: the offsets found no memory.
    fn try_from(offsets: &OffsetsBuffer<i64>) -> Result<Self> {
        let converted: Offsets<i32> = converted(offsets.values.allocator(), offsets.as_slice())?;
        converted.freeze()
    }
}

impl TryFrom<&OffsetsBuffer<i32>> for OffsetsBuffer<i64> {
    type Error = Error;

    ghost try_from_gives = { λ offsets r. MatchResult r (λ new. new ≡ offsets.now) IsOutOfMemory };

    /// # Errors
    /// `OutOfMemory`: the offsets found no memory.
    fn try_from(offsets: &OffsetsBuffer<i32>) -> Result<Self> {
        let _last = offsets.number(offsets.len_proxy());
        let converted: Offsets<i64> = converted(offsets.values.allocator(), offsets.as_slice())?;
        converted.freeze()
    }
}

impl<O: Offset> PartialEq for OffsetsBuffer<O> {
    ghost eq = { spans_eq };

    ghost laws = { spans_eq_partial_equivalence };

    fn eq(&self, other: &Self) -> bool
        ensures value { result ≡ spans_eq self.now other.now }
        ensures exact { IsTrue result ↔ (self.now ≡ other.now) }
    {
        self.as_slice() == other.as_slice()
    }
}

impl<O: Offset> Eq for OffsetsBuffer<O> {
    ghost laws = { spans_eq_equivalence };
}

impl<O: Offset> Clone for OffsetsBuffer<O> {
    ghost is_clone = { λ offsets copy. copy ≡ offsets };

    /// Shares the memory, and is refused only where the count of owners is at its greatest.
    fn clone(&self) -> std::result::Result<Self, AllocError> {
        Ok(OffsetsBuffer {
            values: self.values.clone()?,
        })
    }
}

impl<O: Offset> TryFrom<Vec<O>> for OffsetsBuffer<O> {
    type Error = Error;

    ghost try_from_gives = { λ values r. IsCheckedInMemory O.value values.items r };

    /// # Errors
    /// `OutOfSpec`: no offset, a negative one, or one below the one before it.
    /// `OutOfMemory`: the count of owners found no memory.
    fn try_from(values: Vec<O>) -> Result<Self> {
        Offsets::try_from(values)?.freeze()
    }
}
