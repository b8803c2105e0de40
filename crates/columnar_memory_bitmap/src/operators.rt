ghost use Rattle.std.specs.Prelude.{◌≡◌, ℕ, ◌+◌, ◌*◌, ◌^◌, ◌≤◌, ◌<◌, ◌&&◌, ◌||◌, not, map, length};
ghost use Rattle.columnar_memory_bits.specs.Bits.{IsPacked, bit, bit_at};
ghost use Rattle.columnar_memory_bitmap.specs.Operators.{pairwise, table, xor};
ghost use Rattle.columnar_memory_bitmap.specs.Results.{OrOutOfMemory};

use crate::{Bitmap, MutableBitmap};
use columnar_memory_bits::load_word;
use columnar_memory_types::Result;
use std::ops::{BitAnd, BitAndAssign, BitOr, BitOrAssign, BitXor, BitXorAssign, Not};

/// An operator on two bits.
#[derive(Clone, Copy)]
pub(crate) enum Operator {
    And,
    Or,
    Xor,
}

impl BitAndAssign<&Bitmap> for MutableBitmap {
    ghost can_bitand_assign = { λ a b. length a ≡ length b.now };

    ghost bitand_assign_gives = { λ a b result. result ≡ pairwise (λ x y. x && y) a b.now };

    fn bitand_assign(&mut self, rhs: &Bitmap) {
        self.combine(rhs, Operator::And);
    }
}

impl BitOrAssign<&Bitmap> for MutableBitmap {
    ghost can_bitor_assign = { λ a b. length a ≡ length b.now };

    ghost bitor_assign_gives = { λ a b result. result ≡ pairwise (λ x y. x || y) a b.now };

    fn bitor_assign(&mut self, rhs: &Bitmap) {
        self.combine(rhs, Operator::Or);
    }
}

impl BitXorAssign<&Bitmap> for MutableBitmap {
    ghost can_bitxor_assign = { λ a b. length a ≡ length b.now };

    ghost bitxor_assign_gives = { λ a b result. result ≡ pairwise xor a b.now };

    fn bitxor_assign(&mut self, rhs: &Bitmap) {
        self.combine(rhs, Operator::Xor);
    }
}

impl BitAnd<&Bitmap> for MutableBitmap {
    type Output = MutableBitmap;

    ghost can_bitand = { λ a b. length a ≡ length b.now };

    ghost bitand_gives = { λ a b result. result ≡ pairwise (λ x y. x && y) a b.now };

    fn bitand(self, rhs: &Bitmap) -> MutableBitmap {
        let mut bits = self;
        bits.combine(rhs, Operator::And);
        bits
    }
}

impl BitOr<&Bitmap> for MutableBitmap {
    type Output = MutableBitmap;

    ghost can_bitor = { λ a b. length a ≡ length b.now };

    ghost bitor_gives = { λ a b result. result ≡ pairwise (λ x y. x || y) a b.now };

    fn bitor(self, rhs: &Bitmap) -> MutableBitmap {
        let mut bits = self;
        bits.combine(rhs, Operator::Or);
        bits
    }
}

impl BitXor<&Bitmap> for MutableBitmap {
    type Output = MutableBitmap;

    ghost can_bitxor = { λ a b. length a ≡ length b.now };

    ghost bitxor_gives = { λ a b result. result ≡ pairwise xor a b.now };

    fn bitxor(self, rhs: &Bitmap) -> MutableBitmap {
        let mut bits = self;
        bits.combine(rhs, Operator::Xor);
        bits
    }
}

impl Not for MutableBitmap {
    type Output = MutableBitmap;

    ghost not_gives = { λ bits result. result ≡ map not bits };

    fn not(self) -> MutableBitmap {
        let mut bits = self;
        bits.invert();
        bits
    }
}

impl BitAnd<&Bitmap> for &Bitmap {
    type Output = Result<Bitmap>;

    ghost can_bitand = { λ a b. length a.now ≡ length b.now };

    ghost bitand_gives = { λ a b result. OrOutOfMemory result (λ bits. bits ≡ pairwise (λ x y. x && y) a.now b.now) };

    /// # Errors
    /// `OutOfMemory`: the bits found no memory.
    fn bitand(self, rhs: &Bitmap) -> Result<Bitmap> {
        combined_bitmap(self, rhs, Operator::And)
    }
}

impl BitOr<&Bitmap> for &Bitmap {
    type Output = Result<Bitmap>;

    ghost can_bitor = { λ a b. length a.now ≡ length b.now };

    ghost bitor_gives = { λ a b result. OrOutOfMemory result (λ bits. bits ≡ pairwise (λ x y. x || y) a.now b.now) };

    /// # Errors
    /// `OutOfMemory`: the bits found no memory.
    fn bitor(self, rhs: &Bitmap) -> Result<Bitmap> {
        combined_bitmap(self, rhs, Operator::Or)
    }
}

impl BitXor<&Bitmap> for &Bitmap {
    type Output = Result<Bitmap>;

    ghost can_bitxor = { λ a b. length a.now ≡ length b.now };

    ghost bitxor_gives = { λ a b result. OrOutOfMemory result (λ bits. bits ≡ pairwise xor a.now b.now) };

    /// # Errors
    /// `OutOfMemory`: the bits found no memory.
    fn bitxor(self, rhs: &Bitmap) -> Result<Bitmap> {
        combined_bitmap(self, rhs, Operator::Xor)
    }
}

impl Not for &Bitmap {
    type Output = Result<Bitmap>;

    ghost not_gives = { λ bits result. OrOutOfMemory result (λ turned. turned ≡ map not bits.now) };

    /// # Errors
    /// `OutOfMemory`: the bits found no memory.
    fn not(self) -> Result<Bitmap> {
        let mut bits = self.to_mutable()?;
        bits.invert();
        bits.freeze()
    }
}

/// The bits of two bitmaps under an operator.
fn combined_bitmap(left: &Bitmap, right: &Bitmap, operator: Operator) -> Result<Bitmap>
    requires { length left.now ≡ length right.now }
    ensures { OrOutOfMemory result (λ bits. bits ≡ pairwise (table operator) left.now right.now) }
{
    let mut bits = left.to_mutable()?;
    bits.combine(right, operator);
    bits.freeze()
}

/// Turns each bit of some bytes.
pub(crate) fn invert_bytes(bytes: &mut [u8])
    ensures { (k : ℕ) → k < 8 * length bytes.old → bit_at bytes.new k ≡ not (bit_at bytes.old k) }
{
    for i in 0..bytes.len() {
        let byte = bytes[i];
        bytes[i] = !byte;
    }
}

/// Combines the bits that a vector packs with as many of some bytes.
pub(crate) fn combine_bits(
    to: &mut Vec<u8>,
    len: usize,
    bytes: &[u8],
    offset: usize,
    operator: Operator,
)
    requires packed { IsPacked to.old.items len }
    requires in_range { offset + len ≤ 8 * length bytes.now }
    requires fits { offset + len < 2 ^ 64 }
    ensures bits { (k : ℕ) → k < len → bit_at to.new.items k ≡ table operator (bit_at to.old.items k) (bit_at bytes.now (offset + k)) }
    ensures packed { IsPacked to.new.items len }
{
    for i in 0..to.len() {
        let count = (len - 8 * i).min(8);
        let other = load_word(bytes, offset + 8 * i, count) as u8;
        to[i] = combined(to[i], other, operator);
    }
}

/// The bits of two bytes under an operator.
fn combined(left: u8, right: u8, operator: Operator) -> u8
    ensures { (i : ℕ) → bit result i ≡ table operator (bit left i) (bit right i) }
{
    match operator {
        Operator::And => left & right,
        Operator::Or => left | right,
        Operator::Xor => left ^ right,
    }
}
