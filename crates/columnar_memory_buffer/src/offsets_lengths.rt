ghost use Rattle.std.specs.Prelude.{◌≡◌, length, Some, IfSome};
ghost use Rattle.std.specs.Iterator.{UpTo, YieldsFirst, item_count};
ghost use Rattle.std.specs.Iterator.SizeHint.{IsWithinCount};
ghost use Rattle.columnar_memory_buffer.specs.Spans.{IsStored, stored};

use crate::places::{number_at, span_count};
use columnar_memory_native::Offset;
use std::marker::Model;

/// The lengths between offsets in order, which a contract sees as those that are left.
#[derive(Debug, Drop)]
pub struct OffsetsLengths<'a, O: Offset> {
    offsets: &'a [O],
}

impl<'a, O: Offset> Model for OffsetsLengths<'a, O> {
    ghost use Rattle.std.specs.Prelude.{ℕ, List};
    ghost use Rattle.columnar_memory_buffer.specs.Spans.{stored, IsStored};

    ghost Value = { List ℕ };

    ghost view = { λ it. (stored O.value it.offsets.now).lengths };

    ghost invariant = { λ it. IsStored O.value it.offsets.now };
}

impl<'a, O: Offset> OffsetsLengths<'a, O> {
    /// Of a slice in which offsets stand.
    pub(crate) fn new(offsets: &'a [O]) -> Self
        requires { IsStored O.value offsets.now }
        ensures { result ≡ (stored O.value offsets.now).lengths }
    {
        OffsetsLengths { offsets }
    }
}

impl<'a, O: Offset> Iterator for OffsetsLengths<'a, O> {
    type Item = usize;

    ghost next_gives = { YieldsFirst (λ s. s) };

    ghost remaining = { item_count (λ s. s) };

    fn next(&mut self) -> Option<usize> {
        if span_count(self.offsets) == 0 {
            return None;
        }
        let length = number_at(self.offsets, 1) - number_at(self.offsets, 0);
        self.offsets = &self.offsets[1..];
        Some(length)
    }

    fn size_hint(&self) -> (usize, Option<usize>)
        ensures lower { IsWithinCount result.0 (item_count (λ s. s) self.now) }
        ensures upper { IfSome result.1 (UpTo (item_count (λ s. s) self.now)) }
        ensures exact { result ≡ (length self.now, Some (length self.now)) }
    {
        let left = span_count(self.offsets);
        (left, Some(left))
    }
}
