ghost use Rattle.std.specs.Prelude.{◌≡◌, Some, length};
ghost use Rattle.std.specs.Iterator.{YieldsFirst, YieldsLast, item_count};

use crate::Bitmap;
use std::marker::Model;

/// The bits of a bitmap that it owns, from both ends. A contract sees those that are left.
#[derive(Drop)]
pub struct IntoIter {
    values: Bitmap,
    index: usize,
    end: usize,
}

impl Model for IntoIter {
    ghost use Rattle.std.specs.Prelude.{◌≤◌, List, Bool, length, slice_range};

    ghost Value = { List Bool };

    ghost view = { λ s. slice_range s.values s.index s.end };

    ghost invariant = { λ s. (s.index ≤ s.end) × (s.end ≤ length s.values) };
}

impl IntoIter {
    /// All bits of a bitmap.
    pub fn new(values: Bitmap) -> IntoIter
        ensures { result ≡ values }
    {
        let end = values.len();
        IntoIter {
            values,
            index: 0,
            end,
        }
    }
}

impl Iterator for IntoIter {
    type Item = bool;

    ghost next_gives = { YieldsFirst (λ s. s) };

    ghost remaining = { item_count (λ s. s) };

    fn next(&mut self) -> Option<bool> {
        if self.index == self.end {
            return None;
        }
        let bit = self.values.get_bit(self.index);
        self.index += 1;
        Some(bit)
    }

    #[tactic(auto, using(crate::proofs::Lists::ranges))]
    fn size_hint(&self) -> (usize, Option<usize>)
        ensures { result ≡ (length self.now, Some (length self.now)) }
    {
        let left = self.end - self.index;
        (left, Some(left))
    }
}

impl DoubleEndedIterator for IntoIter {
    ghost next_back_gives = { YieldsLast (λ s. s) };

    fn next_back(&mut self) -> Option<bool> {
        if self.index == self.end {
            return None;
        }
        let last = self.end - 1;
        let bit = self.values.get_bit(last);
        self.end = last;
        Some(bit)
    }
}

impl ExactSizeIterator for IntoIter {
    #[tactic(auto, using(crate::proofs::Lists::ranges))]
    fn len(&self) -> usize {
        self.end - self.index
    }
}

impl IntoIterator for Bitmap {
    type Item = bool;

    type IntoIter = IntoIter;

    ghost into_iter_gives = { λ bits it. it ≡ bits };

    fn into_iter(self) -> IntoIter {
        IntoIter::new(self)
    }
}
