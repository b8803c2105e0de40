//! Stored byte strings and texts in order or from the back.
ghost use Rattle.std.specs.Prelude.{◌≡◌, ◌<◌, Some, length, slice_get, IfSome};
ghost use Rattle.std.specs.Iterator.{UpTo, YieldsFirstBy, YieldsLastBy, item_count};
ghost use Rattle.std.specs.Iterator.SizeHint.{IsWithinCount};
ghost use Rattle.flat_arrays_bytes.specs.ByteStrings.{ByteStrings, len_of, values_of};
ghost use Rattle.flat_arrays_bytes.specs.Texts.{AllTexts};

use std::iter::FusedIterator;
use std::marker::Model;
use std::str::from_utf8_unchecked;

/// What holds byte strings that are read by their places: a column, an array or a builder.
pub trait HoldsByteStrings {
    // the byte strings, and all that stands beside them
    ghost held: { Self → ByteStrings };

    /// How many byte strings there are.
    fn count(&self) -> usize
        ensures { result ≡ len_of (held self.now) };

    /// The stored byte string at a place, under a null too.
    fn bytes_at(&self, index: usize) -> &[u8]
        requires { index < len_of (held self.now) }
        ensures { slice_get (values_of (held self.now)) index ≡ Some result.now };
}

/// Stored byte strings, those under nulls too, seen as the list of those that are left.
#[derive(Drop)]
pub struct ByteValuesIter<'a, H: HoldsByteStrings> {
    holder: &'a H,
    start: usize,
    end: usize,
}

impl<'a, H: HoldsByteStrings> Model for ByteValuesIter<'a, H> {
    ghost use Rattle.std.specs.Prelude.{◌≤◌, ℕ, List, slice_range};
    ghost use Rattle.flat_arrays_bytes.specs.ByteStrings.{len_of, values_of};

    ghost Value = { List (List ℕ) };

    ghost view = { λ it. slice_range (values_of (H.held it.holder.now)) it.start it.end };

    ghost invariant = { λ it. (it.start ≤ it.end) × (it.end ≤ len_of (H.held it.holder.now)) };
}

impl<'a, H: HoldsByteStrings> ByteValuesIter<'a, H> {
    /// All of the byte strings.
    pub fn new(holder: &'a H) -> Self
        ensures { result ≡ values_of (H.held holder.now) }
    {
        ByteValuesIter {
            holder,
            start: 0,
            end: holder.count(),
        }
    }
}

impl<'a, H: HoldsByteStrings> Iterator for ByteValuesIter<'a, H> {
    type Item = &'a [u8];

    ghost next_gives = { YieldsFirstBy (λ x. x.now) (λ left. left) };

    ghost remaining = { item_count (λ left. left) };

    fn next(&mut self) -> Option<&'a [u8]> {
        let start = self.start;
        if start == self.end {
            return None;
        }
        let value = self.holder.bytes_at(start);
        self.start = start + 1;
        Some(value)
    }

    #[tactic(auto, using(crate::proofs::Ranges::range_len, crate::proofs::Slots::length_values))]
    fn size_hint(&self) -> (usize, Option<usize>)
        ensures lower { IsWithinCount result.0 (item_count (λ left. left) self.now) }
        ensures upper { IfSome result.1 (UpTo (item_count (λ left. left) self.now)) }
        ensures exact { result ≡ (length self.now, Some (length self.now)) }
    {
        let left = self.end - self.start;
        (left, Some(left))
    }
}

impl<'a, H: HoldsByteStrings> DoubleEndedIterator for ByteValuesIter<'a, H> {
    ghost next_back_gives = { YieldsLastBy (λ x. x.now) (λ left. left) };

    fn next_back(&mut self) -> Option<&'a [u8]> {
        if self.start == self.end {
            return None;
        }
        let last = self.end - 1;
        let value = self.holder.bytes_at(last);
        self.end = last;
        Some(value)
    }
}

impl<'a, H: HoldsByteStrings> ExactSizeIterator for ByteValuesIter<'a, H> {
    #[tactic(auto, using(crate::proofs::Ranges::range_len, crate::proofs::Slots::length_values))]
    fn len(&self) -> usize {
        self.end - self.start
    }
}

impl<'a, H: HoldsByteStrings> FusedIterator for ByteValuesIter<'a, H> {}

/// What holds texts alone, as arrays and builders of texts do, in something that holds byte strings.
pub trait HoldsTexts {
    /// What the texts stand in.
    type Holder: HoldsByteStrings;

    // the texts, and all that stands beside them
    ghost texts: { Self → ByteStrings };

    /// What the texts stand in, each of which is UTF-8 by itself.
    fn holder(&self) -> &Self::Holder
        ensures held { Self.Holder.held result.now ≡ texts self.now }
        ensures texts { AllTexts (values_of (texts self.now)) };
}

/// Stored texts, those under nulls too, seen as the list of those that are left.
#[derive(Drop)]
pub struct TextValuesIter<'a, H: HoldsByteStrings> {
    values: ByteValuesIter<'a, H>,
}

impl<'a, H: HoldsByteStrings> Model for TextValuesIter<'a, H> {
    ghost use Rattle.std.specs.Prelude.{ℕ, List};
    ghost use Rattle.flat_arrays_bytes.specs.Texts.{AllTexts};

    ghost Value = { List (List ℕ) };

    ghost view = { λ it. it.values };

    ghost invariant = { λ it. AllTexts it.values };
}

impl<'a, H: HoldsByteStrings> TextValuesIter<'a, H> {
    /// All of the texts of an array or a builder.
    pub fn new<T: HoldsTexts<Holder = H>>(texts: &'a T) -> Self
        ensures { result ≡ values_of (T.texts texts.now) }
    {
        TextValuesIter::over(texts.holder())
    }

    /// All of the byte strings of what holds texts alone.
    pub fn over(holder: &'a H) -> Self
        requires { AllTexts (values_of (H.held holder.now)) }
        ensures { result ≡ values_of (H.held holder.now) }
    {
        TextValuesIter {
            values: ByteValuesIter::new(holder),
        }
    }
}

impl<'a, H: HoldsByteStrings> Iterator for TextValuesIter<'a, H> {
    type Item = &'a str;

    ghost next_gives = { YieldsFirstBy (λ x. x.now) (λ left. left) };

    ghost remaining = { item_count (λ left. left) };

    fn next(&mut self) -> Option<&'a str> {
        match self.values.next() {
            Some(bytes) => Some(unsafe { from_utf8_unchecked(bytes) }),
            None => None,
        }
    }

    fn size_hint(&self) -> (usize, Option<usize>)
        ensures lower { IsWithinCount result.0 (item_count (λ left. left) self.now) }
        ensures upper { IfSome result.1 (UpTo (item_count (λ left. left) self.now)) }
        ensures exact { result ≡ (length self.now, Some (length self.now)) }
    {
        self.values.size_hint()
    }
}

impl<'a, H: HoldsByteStrings> DoubleEndedIterator for TextValuesIter<'a, H> {
    ghost next_back_gives = { YieldsLastBy (λ x. x.now) (λ left. left) };

    #[tactic(auto, using(crate::proofs::Ranges::texts_before, crate::proofs::Ranges::text_last))]
    fn next_back(&mut self) -> Option<&'a str> {
        match self.values.next_back() {
            Some(bytes) => Some(unsafe { from_utf8_unchecked(bytes) }),
            None => None,
        }
    }
}

impl<'a, H: HoldsByteStrings> ExactSizeIterator for TextValuesIter<'a, H> {
    fn len(&self) -> usize {
        self.values.len()
    }
}

impl<'a, H: HoldsByteStrings> FusedIterator for TextValuesIter<'a, H> {}
