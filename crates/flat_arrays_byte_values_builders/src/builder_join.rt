//! Builders of byte strings that take over the slots of another, or another mask.
ghost use Rattle.std.specs.Prelude.{◌≡◌, ◌+◌, ◌<◌, ◌≤◌, ◌↔◌, ◌++◌, Bool, IsTrue, List, None, MatchResult, length, if◌then◌else◌};
ghost use Rattle.std.specs.Option.{ForSome};
ghost use Rattle.flat_arrays_bytes.specs.columnar_memory.Error.{IsOutOfMemory};
ghost use Rattle.flat_arrays_bytes.specs.columnar_memory.Spans.{last_of};
ghost use Rattle.flat_arrays_bytes.specs.ByteStrings.{cut_mask, len_of, marks, with_mask};
ghost use Rattle.flat_arrays_bytes.specs.Fits.{IsMaskOf};
ghost use Rattle.flat_arrays_bytes.specs.values.Growth.{with_marks};
ghost use Rattle.flat_arrays_bytes.specs.values.Results.{AppliesTo};
ghost use Rattle.flat_arrays_byte_values_builders.specs.Growing.{Grows, IsFilled, joined};

use crate::builder::{ByteBuilder, end_of};
use flat_arrays_bytes::columnar_memory::{Error, MutableBitmap, Offset, Offsets, Result};
use flat_arrays_bytes::values::marks::{apply_to_mask, extend_marks, truncate_mask};

/// Where the first span begins, as a number.
fn start_of<O: Offset>(offsets: &Offsets<O>) -> usize
    ensures { result ≡ offsets.now.start }
{
    offsets.first().to_usize()
}

/// Whether so many bytes behind the last span would end past the greatest offset of the type.
fn would_overflow<O: Offset>(offsets: &Offsets<O>, more: usize) -> bool
    ensures { IsTrue result ↔ (O.greatest < last_of offsets.now + more) }
{
    match end_of(offsets).checked_add(more) {
        Some(end) => O::from_usize(end).is_none(),
        None => true,
    }
}

/// Takes the marks from `count` on off again, and the mask too where it was made for them.
fn undo_marks(validity: &mut Option<MutableBitmap>, count: usize, had_mask: bool)
    requires { ForSome validity.old (λ mask. count ≤ length mask) }
    ensures { validity.new ≡ (if had_mask then cut_mask validity.old 0 count else None) }
{
    if had_mask {
        truncate_mask(validity, count);
    } else {
        *validity = None;
    }
}

/// Adds bytes behind others, and marks behind those of `count` values, or changes nothing.
fn extend_stored(
    values: &mut Vec<u8>,
    validity: &mut Option<MutableBitmap>,
    count: usize,
    more: &[u8],
    more_marks: &Option<MutableBitmap>,
    more_count: usize,
) -> Result<()>
    requires { IsMaskOf more_count more_marks.now }
    ensures { MatchResult result
        (λ _. (values.new.items ≡ values.old.items ++ more.now) × (validity.new ≡ with_marks count validity.old (marks more_count more_marks.now)))
        (λ e. IsOutOfMemory e × (values.new.items ≡ values.old.items) × (validity.new ≡ validity.old)) }
{
    let held = values.len();
    let alloc = *values.allocator();
    values.extend_from_slice(more)?;
    let marked = extend_marks(alloc, validity, count, more_marks, more_count);
    if marked.is_err() {
        values.truncate(held);
    }
    marked
}

impl<O: Offset> ByteBuilder<O> {
    /// Adds the slots of another builder behind the others, whatever its data type, or changes nothing. Its bytes are copied at once.
    ///
    /// # Errors
    /// `Overflow`: the last one would end past the greatest offset of the type.
    /// `OutOfMemory`: they found no memory.
    pub fn try_extend_from_self(&mut self, other: &Self) -> Result<()>
        ensures grown { Grows O.greatest self.old (joined self.old other.now) self.new result }
        ensures whole { IsFilled self.old }
        ensures whole_other { IsFilled other.now }
    {
        let count = self.offsets.len_proxy();
        let held = self.values.len();
        let had_mask = self.validity.is_some();
        let start = start_of(&other.offsets);
        let end = end_of(&other.offsets);
        if would_overflow(&self.offsets, end - start) {
            return Err(Error::Overflow);
        }
        let more = &other.values[start..];
        let (values, validity) = (&mut self.values, &mut self.validity);
        extend_stored(
            values,
            validity,
            count,
            more,
            &other.validity,
            other.offsets.len_proxy(),
        )?;
        let grown = self.offsets.try_extend_from_self(&other.offsets);
        if grown.is_err() {
            self.values.truncate(held);
            undo_marks(&mut self.validity, count, had_mask);
        }
        grown
    }

    /// Replaces the mask.
    pub fn set_validity(&mut self, validity: Option<MutableBitmap>)
        requires { IsMaskOf (len_of self.old) validity }
        ensures { self.new ≡ with_mask self.old validity }
    {
        self.validity = validity;
    }

    /// Replaces the mask, if there is one, by what a function gives for it, which has as many marks.
    pub fn apply_validity<F: FnOnce(MutableBitmap) -> MutableBitmap + Drop>(&mut self, f: F)
        requires callable { ForSome self.old.validity (F.pre f) }
        requires keeps { ForSome self.old.validity (λ mask. (made : List Bool) → F.post f mask made → length made ≡ length mask) }
        ensures applied { AppliesTo (F.post f) self.old.validity self.new.validity }
        ensures rest { self.new ≡ with_mask self.old self.new.validity }
    {
        apply_to_mask(&mut self.validity, f);
    }
}
