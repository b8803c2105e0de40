//! The integers that number items.

ghost use Rattle.std.specs.Prelude.{◌≡◌, ◌-◌, ◌+ℤ◌, MatchOption, ◌↔◌, ◌<◌, ◌≤◌, ◌≤ℤ◌, ◌^◌, ℕ, pos};
ghost use Rattle.columnar_memory_native.specs.Numbers.{one};
ghost use Rattle.columnar_memory_native.specs.Ranges.{integers};
ghost use Rattle.columnar_memory_native.specs.Natural.{IsNumber, IsNumberOf, IsValueOf};

use crate::NativeType;
use crate::range::IndexRange;
use num_traits::CheckedAdd;

/// An integer that can number items, as a key or an offset does. `value` is its integer, and
/// `greatest` the greatest integer of the type, which fits `usize`.
pub trait Index: NativeType + Ord + CheckedAdd {
    ghost greatest: { ℕ };

    /// The number that this is, which is not below zero.
    fn to_usize(&self) -> usize
        requires { pos 0 ≤ℤ Self.value self.now }
        ensures { IsNumber Self.value greatest result self.now };

    /// The number that this is, or `None` where it is below zero.
    fn try_to_usize(&self) -> Option<usize>
        ensures number { IsNumberOf Self.value greatest self.now result }
        ensures fits { Self.fits (Self.value self.now) };

    /// How far `end`, which is not below this, is above this.
    fn distance(&self, end: &Self) -> usize
        requires { Self.value self.now ≤ℤ Self.value end.now }
        ensures number { Self.value end.now ≡ Self.value self.now +ℤ pos result }
        ensures fits { Self.fits (Self.value self.now) × Self.fits (Self.value end.now) };

    /// The value of a number, or `None` where the number is past the greatest of the type.
    fn from_usize(index: usize) -> Option<Self>
        ensures { IsValueOf Self.value greatest index result };

    /// The value of a number that the type has.
    fn from_as_usize(index: usize) -> Self
        requires { index ≤ greatest }
        ensures { IsNumber Self.value greatest index result };

    /// The indices from `start` up to `end`, which is not below it, or `None` where `end` is past
    /// the greatest of the type.
    final fn range(start: usize, end: usize) -> Option<IndexRange<Self>>
        requires { start ≤ end }
        ensures { MatchOption result (greatest < end) (λ range. (end ≤ greatest) × (range ≡ integers (pos start) (end - start))) }
    {
        let end = Self::from_usize(end)?;
        let start = Self::from_usize(start)?;
        Some(IndexRange::new(start, end))
    }

    // A value is stored as its integer, and is that integer.
    ghost numbers_law: { (x : Self) → Self.numbers x ≡ one (Self.value x) };

    ghost value_law: { (x y : Self) → Self.value x ≡ Self.value y → x ≡ y };

    // The numbers that the type has are those up to the greatest, which `usize` has too.
    ghost fits_law: { (n : ℕ) → Self.fits (pos n) ↔ (n ≤ greatest) };

    ghost greatest_law: { (127 ≤ greatest) × (greatest < 2 ^ 64) };
}
