ghost use Rattle.std.specs.Prelude.{◌≡◌, ◌+◌, ◌<◌, ◌≤◌, ◌↔◌, IsTrue, [], ◌∷◌, length, pos, sum, replicate, MatchOption, MatchResult, IfErr, IfOk};
ghost use Rattle.std.specs.Iterator.{IsFinite};
ghost use Rattle.columnar_memory_native.specs.types.Error.{IsOutOfMemory};
ghost use Rattle.columnar_memory_buffer.specs.Growth.{CollectsAlong, Grows, GrowsAlong, Holds, IsChecked};
ghost use Rattle.columnar_memory_buffer.specs.SpansEqual.{spans_eq, spans_eq_equivalence, spans_eq_partial_equivalence};
ghost use Rattle.columnar_memory_buffer.specs.Spans.{AreOffsets, IsStored, stored, extended, last_of, first_spans, no_spans, offset_at, shortened};

use crate::places::{append, are_offsets, fit_behind, number_at, one_offset, span_count};
use columnar_memory_native::Offset;
use columnar_memory_native::types::{Error, Result};
use std::alloc::{AllocError, Global};
use std::marker::Model;

/// Offsets that can grow: at least one, none negative, none below the one before it. A contract sees them as
/// spans, where the first begins and the length of each (Arrow columnar format, "Variable-size Binary Layout").
#[derive(Debug, Drop)]
pub struct Offsets<O: Offset> {
    values: Vec<O>,
}

impl<O: Offset> Model for Offsets<O> {
    ghost use Rattle.columnar_memory_buffer.specs.Spans.{Spans, stored, IsStored};

    ghost Value = { Spans };

    ghost view = { λ it. stored O.value it.values.items };

    ghost invariant = { λ it. IsStored O.value it.values.items };
}

impl<O: Offset> Offsets<O> {
    /// The one offset 0.
    ///
    /// # Errors
    /// `OutOfMemory`: it found no memory.
    pub fn new(alloc: Global) -> Result<Self>
        ensures { MatchResult result (λ o. o ≡ no_spans) IsOutOfMemory }
    {
        Offsets::with_capacity(alloc, 0)
    }

    /// The one offset 0, with memory for this many spans.
    ///
    /// # Errors
    /// `OutOfMemory`: there is not so much memory.
    pub fn with_capacity(alloc: Global, capacity: usize) -> Result<Self>
        ensures { MatchResult result (λ o. o ≡ no_spans) IsOutOfMemory }
    {
        Offsets::starting_at(alloc, 0, capacity)
    }

    /// The one offset `start`, with memory for this many spans.
    fn starting_at(alloc: Global, start: usize, capacity: usize) -> Result<Self>
        requires { start ≤ O.greatest }
        ensures { MatchResult result (λ o. o ≡ record { start = start; lengths = [] }) IsOutOfMemory }
    {
        let mut values = Vec::with_capacity(alloc, capacity.saturating_add(1))?;
        values.push(O::from_as_usize(start))?;
        Ok(Offsets { values })
    }

    /// This many spans of no length, from 0 on.
    ///
    /// # Errors
    /// `OutOfMemory`: there is not so much memory.
    pub fn new_zeroed(alloc: Global, count: usize) -> Result<Self>
        ensures { MatchResult result (λ o. o ≡ record { start = 0; lengths = replicate count 0 }) IsOutOfMemory }
    {
        let mut offsets = Offsets::with_capacity(alloc, count)?;
        offsets.extend_constant(count)?;
        Ok(offsets)
    }

    /// How many spans the memory has room for.
    pub fn capacity(&self) -> usize
        ensures { length self.now.lengths ≤ result }
    {
        self.values.capacity() - 1
    }

    /// Makes room for more spans.
    ///
    /// # Errors
    /// `OutOfMemory`: there is not so much memory.
    pub fn reserve(&mut self, additional: usize) -> Result<()>
        ensures same { self.new ≡ self.old }
        ensures err { IfErr result IsOutOfMemory }
    {
        self.values.reserve(additional)?;
        Ok(())
    }

    /// Gives memory back that the offsets do not need.
    pub fn shrink_to_fit(&mut self)
        ensures { self.new ≡ self.old }
    {
        self.values.shrink_to_fit();
    }

    /// The number of offsets, one more than that of the spans.
    pub fn len(&self) -> usize
        ensures { result ≡ length self.now.lengths + 1 }
    {
        self.values.as_slice().len()
    }

    /// The number of spans.
    pub fn len_proxy(&self) -> usize
        ensures { result ≡ length self.now.lengths }
    {
        self.values.as_slice().len() - 1
    }

    pub fn as_slice(&self) -> &[O]
        ensures { AreOffsets O.value result.now self.now }
    {
        self.values.as_slice()
    }

    /// The offset at a place, as a number.
    fn number(&self, index: usize) -> usize
        requires { index ≤ length self.now.lengths }
        ensures value { result ≡ offset_at self.now index }
        ensures bound { result ≤ O.greatest }
    {
        number_at(self.values.as_slice(), index)
    }

    /// Where the first span begins.
    pub fn first(&self) -> &O
        ensures { O.value result.now ≡ pos self.now.start }
    {
        &self.values.as_slice()[0]
    }

    /// Where the last span ends.
    pub fn last(&self) -> &O
        ensures { O.value result.now ≡ pos (last_of self.now) }
    {
        let spans = self.len_proxy();
        &self.values.as_slice()[spans]
    }

    /// Where a span begins and ends.
    pub fn start_end(&self, index: usize) -> (usize, usize)
        requires { index < length self.now.lengths }
        ensures start { result.0 ≡ offset_at self.now index }
        ensures stop { result.1 ≡ offset_at self.now (index + 1) }
        ensures ordered { result.0 ≤ result.1 }
        ensures within { result.1 ≤ last_of self.now }
    {
        let _spans = self.len_proxy();
        (self.number(index), self.number(index + 1))
    }

    /// Adds a span of this length behind the others.
    ///
    /// # Errors
    /// `Overflow`: it would end past the greatest offset of the type.
    /// `OutOfMemory`: the offset found no memory.
    pub fn try_push(&mut self, length: usize) -> Result<()>
        ensures { Grows O.greatest self.old (length ∷ []) self.new result }
    {
        let last = self.number(self.len_proxy());
        self.push_behind(last, length)?;
        Ok(())
    }

    /// Adds a span of this length behind the others, the last of which ends at `last`, and answers where it ends.
    #[inline(always)]
    fn push_behind(&mut self, last: usize, length: usize) -> Result<usize>
        requires { last ≡ last_of self.old }
        ensures grows { Grows O.greatest self.old (length ∷ []) self.new result }
        ensures end { IfOk result (λ end. end ≡ last_of self.new) }
    {
        let Some(next) = last.checked_add(length) else {
            return Err(Error::Overflow);
        };
        let Some(offset) = O::from_usize(next) else {
            return Err(Error::Overflow);
        };
        self.values.push(offset)?;
        Ok(next)
    }

    /// Takes the last offset off where there is a span.
    pub fn pop(&mut self) -> Option<O>
        ensures { MatchOption result ((self.old.lengths ≡ []) × (self.new ≡ self.old))
            (λ x. (O.value x ≡ pos (last_of self.old)) × (0 < length self.old.lengths) × (self.new ≡ shortened self.old)) }
    {
        let spans = self.len_proxy();
        if spans == 0 {
            return None;
        }
        let last = *self.last();
        self.truncate(spans - 1);
        Some(last)
    }

    /// Keeps the first spans alone.
    fn truncate(&mut self, spans: usize)
        requires { spans ≤ length self.old.lengths }
        ensures { self.new ≡ first_spans self.old spans }
    {
        let _all = self.len();
        self.values.truncate(spans + 1);
    }

    /// Adds this many spans of no length behind the others.
    ///
    /// # Errors
    /// `OutOfMemory`: the offsets found no memory.
    pub fn extend_constant(&mut self, additional: usize) -> Result<()>
        ensures { MatchResult result (λ _. self.new ≡ extended self.old (replicate additional 0)) (λ e. (self.new ≡ self.old) × IsOutOfMemory e) }
    {
        let Some(count) = self.len().checked_add(additional) else {
            return Err(Error::OutOfMemory);
        };
        let last = *self.last();
        self.values.resize(count, last)?;
        Ok(())
    }

    /// Adds spans of these lengths behind the others, one after another, until one is refused: the spans before it stay.
    ///
    /// # Errors
    /// `Overflow`: a span would end past the greatest offset of the type.
    /// `OutOfMemory`: an offset found no memory.
    pub fn try_extend_from_lengths<I: Iterator<Item = usize> + Drop>(
        &mut self,
        lengths: I,
    ) -> Result<()>
        requires can { I.can_next lengths }
        requires ends { IsFinite (I.remaining lengths) }
        ensures { GrowsAlong I.next_gives O.greatest lengths self.old self.new result }
    {
        let mut last = self.number(self.len_proxy());
        // An iterator that promises more than there is memory for may be refused for another cause first.
        let _ = self.reserve(lengths.size_hint().0);
        for length in lengths {
            last = self.push_behind(last, length)?;
        }
        Ok(())
    }

    /// Spans of these lengths, from 0 on.
    ///
    /// # Errors
    /// `Overflow`: a span would end past the greatest offset of the type.
    /// `OutOfMemory`: an offset found no memory.
    pub fn try_from_iter<I: Iterator<Item = usize> + Drop>(
        alloc: Global,
        lengths: I,
    ) -> Result<Self>
        requires can { I.can_next lengths }
        requires ends { IsFinite (I.remaining lengths) }
        ensures { CollectsAlong I.next_gives O.greatest lengths result }
    {
        let mut offsets = Offsets::new(alloc)?;
        offsets.try_extend_from_lengths(lengths)?;
        Ok(offsets)
    }

    /// Adds spans of the same lengths as those of other offsets behind these.
    ///
    /// # Errors
    /// `Overflow`: the last one would end past the greatest offset of the type.
    /// `OutOfMemory`: the offsets found no memory.
    pub fn try_extend_from_self(&mut self, other: &Self) -> Result<()>
        ensures { Grows O.greatest self.old other.now.lengths self.new result }
    {
        self.extend_from_offsets(other.as_slice())
    }

    /// Adds spans of the same lengths as those of a slice of offsets, all or none.
    pub(crate) fn extend_from_offsets(&mut self, offsets: &[O]) -> Result<()>
        requires { IsStored O.value offsets.now }
        ensures { Grows O.greatest self.old (stored O.value offsets.now).lengths self.new result }
    {
        let last = self.number(self.len_proxy());
        if !fit_behind::<O, O>(last, offsets) {
            return Err(Error::Overflow);
        }
        match self.values.reserve(span_count(offsets)) {
            Ok(()) => {
                append(&mut self.values, last, offsets);
                Ok(())
            }
            Err(_) => Err(Error::OutOfMemory),
        }
    }

    /// From where the first span begins to where the last one ends.
    pub fn range(&self) -> O
        ensures { O.value result ≡ pos (sum self.now.lengths) }
    {
        let start = self.number(0);
        let last = self.number(self.len_proxy());
        O::from_as_usize(last - start)
    }

    /// The offsets in a vector in which offsets stand.
    pub(crate) fn from_stored(values: Vec<O>) -> Self
        requires { IsStored O.value values.items }
        ensures { result ≡ stored O.value values.items }
    {
        Offsets { values }
    }

    /// The allocator of the offsets' memory.
    pub(crate) fn allocator(&self) -> Global {
        *self.values.allocator()
    }

    /// The offsets as they stand, with no copy.
    pub fn into_inner(self) -> Vec<O>
        ensures { AreOffsets O.value result.items self }
    {
        let Offsets { values } = self;
        values
    }
}

impl<O: Offset> TryFrom<Vec<O>> for Offsets<O> {
    type Error = Error;

    ghost try_from_gives = { λ values r. IsChecked O.value values.items r };

    /// # Errors
    /// `OutOfSpec`: no offset, a negative one, or one below the one before it.
    fn try_from(values: Vec<O>) -> Result<Self> {
        if are_offsets(values.as_slice()) {
            Ok(Offsets { values })
        } else {
            Err(Error::OutOfSpec("offsets that are empty, negative or falling"))
        }
    }
}

/// The same offsets as those of a slice, in another type.
///
/// # Errors
/// `Overflow`: the last one passes the greatest offset of the type.
/// `OutOfMemory`: they found no memory.
pub(crate) fn converted<P: Offset, O: Offset>(alloc: Global, offsets: &[P]) -> Result<Offsets<O>>
    requires { IsStored P.value offsets.now }
    ensures { Holds O.greatest (stored P.value offsets.now) result }
{
    let start = number_at(offsets, 0);
    if !fit_behind::<O, P>(start, offsets) {
        return Err(Error::Overflow);
    }
    match one_offset(alloc, start, offsets.len()) {
        Ok(mut values) => {
            append(&mut values, start, offsets);
            Ok(Offsets { values })
        }
        Err(_) => Err(Error::OutOfMemory),
    }
}

impl TryFrom<Offsets<i64>> for Offsets<i32> {
    type Error = Error;

    ghost try_from_gives = { λ offsets r. Holds 0x7fff_ffff offsets r };

    /// # Errors
    /// `Overflow`: the last offset passes the greatest `i32`.
    /// `OutOfMemory`: the offsets found no memory.
    fn try_from(offsets: Offsets<i64>) -> Result<Self> {
        converted(offsets.allocator(), offsets.as_slice())
    }
}

impl TryFrom<Offsets<i32>> for Offsets<i64> {
    type Error = Error;

    ghost try_from_gives = { λ offsets r. MatchResult r (λ new. new ≡ offsets) IsOutOfMemory };

    /// # Errors
    /// `OutOfMemory`: the offsets found no memory.
    fn try_from(offsets: Offsets<i32>) -> Result<Self> {
        let _last = offsets.number(offsets.len_proxy());
        converted(offsets.allocator(), offsets.as_slice())
    }
}

impl<O: Offset> PartialEq for Offsets<O> {
    ghost eq = { spans_eq };

    ghost laws = { spans_eq_partial_equivalence };

    fn eq(&self, other: &Self) -> bool
        ensures value { result ≡ spans_eq self.now other.now }
        ensures exact { IsTrue result ↔ (self.now ≡ other.now) }
    {
        self.as_slice() == other.as_slice()
    }
}

impl<O: Offset> Eq for Offsets<O> {
    ghost laws = { spans_eq_equivalence };
}

impl<O: Offset> Clone for Offsets<O> {
    ghost is_clone = { λ offsets copy. copy ≡ offsets };

    fn clone(&self) -> std::result::Result<Self, AllocError> {
        Ok(Offsets {
            values: Vec::from_slice(self.allocator(), self.as_slice())?,
        })
    }
}
