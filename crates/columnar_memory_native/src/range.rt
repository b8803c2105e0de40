//! Indices one after another.

ghost use Rattle.std.specs.Prelude.{◌≡◌, ◌+ℤ◌, ◌≤ℤ◌, ℕ, pos, length, Some};
ghost use Rattle.std.specs.Iterator.{YieldsFirstBy, item_count};
ghost use Rattle.columnar_memory_native.specs.Ranges.{integers, SpansTo};

use crate::index::Index;
use std::marker::Model;

/// The indices from a first one up to an end that is not among them, which a contract sees as the
/// list of their integers.
#[derive(Debug, Drop)]
pub struct IndexRange<I: Index> {
    start: I,
    left: usize,
}

impl<I: Index> Model for IndexRange<I> {
    ghost use Rattle.std.specs.Prelude.{◌+ℤ◌, ℤ, List, pos};
    ghost use Rattle.columnar_memory_native.specs.Ranges.{integers};

    ghost Value = { List ℤ };

    ghost view = { λ r. integers (I.value r.start) r.left };

    ghost invariant = { λ r. I.fits (I.value r.start) × I.fits (I.value r.start +ℤ pos r.left) };
}

impl<I: Index> IndexRange<I> {
    /// The indices from `start` up to `end`, which is not below it.
    pub fn new(start: I, end: I) -> Self
        requires { I.value start ≤ℤ I.value end }
        ensures { SpansTo (I.value start) (I.value end) result }
    {
        let left = start.distance(&end);
        IndexRange { start, left }
    }
}

impl<I: Index> Iterator for IndexRange<I> {
    type Item = I;

    ghost next_gives = { YieldsFirstBy I.value (λ r. r) };

    ghost remaining = { item_count (λ r. r) };

    fn next(&mut self) -> Option<I> {
        if self.left == 0 {
            return None;
        }
        let first = self.start;
        let one = I::from_as_usize(1);
        let Some(next) = first.checked_add(&one) else {
            unreachable!()
        };
        self.start = next;
        self.left -= 1;
        Some(first)
    }

    fn size_hint(&self) -> (usize, Option<usize>)
        ensures { result ≡ (length self.now, Some (length self.now)) }
    {
        (self.left, Some(self.left))
    }
}
