ghost use Rattle.std.specs.Prelude.{◌≡◌, ◌+◌, ◌*◌, ◌^◌, ◌<◌, ◌≤◌, length, IfSome, Some};
ghost use Rattle.std.specs.Iterator.{YieldsFirst, YieldsLast, item_count, UpTo};
ghost use Rattle.std.specs.Iterator.SizeHint.{IsWithinCount};
ghost use Rattle.columnar_memory_bits.specs.Bits.{bits_of};

use crate::utils::get_bit;
use std::iter::FusedIterator;
use std::marker::Model;

/// The bits of some bytes in order or from the back, seen as the list of those that are left.
#[derive(Drop)]
pub struct BitmapIter<'a> {
    bytes: &'a [u8],
    start: usize,
    end: usize,
}

impl<'a> Model for BitmapIter<'a> {
    ghost use Rattle.std.specs.Prelude.{◌-◌, ◌*◌, ◌≤◌, List, Bool, length};
    ghost use Rattle.columnar_memory_bits.specs.Bits.{bits_of};

    ghost Value = { List Bool };

    ghost view = { λ it. bits_of it.bytes.now it.start (it.end - it.start) };

    ghost invariant = { λ it. (it.start ≤ it.end) × (it.end ≤ 8 * length it.bytes.now) };
}

impl<'a> BitmapIter<'a> {
    /// The bits from bit `offset` on, `len` of them.
    pub fn new(bytes: &'a [u8], offset: usize, len: usize) -> Self
        requires in_range { offset + len ≤ 8 * length bytes.now }
        requires fits { offset + len < 2 ^ 64 }
        ensures { result ≡ bits_of bytes.now offset len }
    {
        BitmapIter {
            bytes,
            start: offset,
            end: offset + len,
        }
    }
}

impl<'a> Iterator for BitmapIter<'a> {
    type Item = bool;

    ghost next_gives = { YieldsFirst (λ rest. rest) };

    ghost remaining = { item_count (λ rest. rest) };

    fn next(&mut self) -> Option<bool> {
        let start = self.start;
        if start == self.end {
            return None;
        }
        self.start = start + 1;
        Some(get_bit(self.bytes, start))
    }

    fn size_hint(&self) -> (usize, Option<usize>)
        ensures lower { IsWithinCount result.0 (item_count (λ rest. rest) self.now) }
        ensures upper { IfSome result.1 (UpTo (item_count (λ rest. rest) self.now)) }
        ensures exact { result ≡ (length self.now, Some (length self.now)) }
    {
        let len = self.len();
        (len, Some(len))
    }
}

impl<'a> DoubleEndedIterator for BitmapIter<'a> {
    ghost next_back_gives = { YieldsLast (λ rest. rest) };

    fn next_back(&mut self) -> Option<bool> {
        if self.start == self.end {
            return None;
        }
        self.end -= 1;
        Some(get_bit(self.bytes, self.end))
    }
}

impl<'a> ExactSizeIterator for BitmapIter<'a> {
    fn len(&self) -> usize {
        self.end - self.start
    }
}

impl<'a> FusedIterator for BitmapIter<'a> {}
