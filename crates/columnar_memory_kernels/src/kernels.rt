ghost use Rattle.std.specs.Prelude.{◌≡◌, ◌+◌, ◌≤◌, ◌&&◌, ◌||◌, Bool, length, map};
ghost use Rattle.columnar_memory_bitmap.specs.bits.Words.{word_at};
ghost use Rattle.columnar_memory_bitmap.specs.Operators as operator;
ghost use Rattle.columnar_memory_bitmap.specs.Operators.{pairwise};
ghost use Rattle.columnar_memory_bitmap.specs.Results.{OrOutOfMemory};
ghost use Rattle.columnar_memory_kernels.specs.Kernels.{CombinesBits, CombinesFour, CombinesThree, IsWordwise, TurnsBits, fourwise, part, threewise};

use crate::words::{BitWords, answered_words};
use columnar_memory_bitmap::Bitmap;
use columnar_memory_bitmap::types::Result;
use std::alloc::Global;

/// The answers of a function to the words of a bitmap.
///
/// # Errors
///
/// `OutOfMemory`.
pub fn unary<F: Fn(u64) -> u64>(alloc: Global, lhs: &Bitmap, op: F) -> Result<Bitmap>
    requires { F.IsAlwaysCallable op }
    ensures words { OrOutOfMemory result (IsWordwise 64 (λ k answer. F.post op (word_at 64 lhs.now k) answer) (length lhs.now)) }
    ensures bits { (table : Bool → Bool) → TurnsBits table (λ x answer. F.post op x answer) → OrOutOfMemory result (λ b. b ≡ map table lhs.now) }
{
    let bits = BitWords::of(lhs);
    let answer = |first: usize, count: usize| -> u64
        requires callable { F.IsAlwaysCallable op }
        requires few { count ≤ 64 }
        requires within { first + count ≤ length bits }
        ensures { F.post op (part bits.entry first count) result }
    { op(bits.part(first, count)) };
    let len = bits.len();
    Bitmap::from_u8_vec(answered_words(alloc, len, answer)?, len)
}

/// The answers of a function to the words of two bitmaps.
///
/// # Errors
///
/// `OutOfMemory`.
pub fn binary<F: Fn(u64, u64) -> u64>(
    alloc: Global,
    lhs: &Bitmap,
    rhs: &Bitmap,
    op: F,
) -> Result<Bitmap>
    requires callable { F.IsAlwaysCallable op }
    requires lengths { length lhs.now ≡ length rhs.now }
    ensures words { OrOutOfMemory result (IsWordwise 64 (λ k answer. F.post op (word_at 64 lhs.now k) (word_at 64 rhs.now k) answer)
        (length lhs.now)) }
    ensures bits { (table : Bool → Bool → Bool) → CombinesBits table (λ x y answer. F.post op x y answer) →
        OrOutOfMemory result (λ b. b ≡ pairwise table lhs.now rhs.now) }
{
    let left = BitWords::of(lhs);
    let right = BitWords::of(rhs);
    let answer = |first: usize, count: usize| -> u64
        requires callable { F.IsAlwaysCallable op }
        requires few { count ≤ 64 }
        requires left { first + count ≤ length left }
        requires right { first + count ≤ length right }
        ensures { F.post op (part left.entry first count) (part right.entry first count) result }
    { op(left.part(first, count), right.part(first, count)) };
    let len = left.len();
    Bitmap::from_u8_vec(answered_words(alloc, len, answer)?, len)
}

/// The answers of a function to the words of three bitmaps.
///
/// # Errors
///
/// `OutOfMemory`.
pub fn ternary<F: Fn(u64, u64, u64) -> u64>(
    alloc: Global,
    a1: &Bitmap,
    a2: &Bitmap,
    a3: &Bitmap,
    op: F,
) -> Result<Bitmap>
    requires callable { F.IsAlwaysCallable op }
    requires second { length a1.now ≡ length a2.now }
    requires third { length a1.now ≡ length a3.now }
    ensures words { OrOutOfMemory result (IsWordwise 64 (λ k answer.
        F.post op (word_at 64 a1.now k) (word_at 64 a2.now k) (word_at 64 a3.now k) answer) (length a1.now)) }
    ensures bits { (table : Bool → Bool → Bool → Bool) → CombinesThree table (λ x y z answer. F.post op x y z answer) →
        OrOutOfMemory result (λ b. b ≡ threewise table a1.now a2.now a3.now) }
{
    let one = BitWords::of(a1);
    let two = BitWords::of(a2);
    let three = BitWords::of(a3);
    let answer = |first: usize, count: usize| -> u64
        requires callable { F.IsAlwaysCallable op }
        requires few { count ≤ 64 }
        requires one { first + count ≤ length one }
        requires two { first + count ≤ length two }
        requires three { first + count ≤ length three }
        ensures { F.post op (part one.entry first count) (part two.entry first count) (part three.entry first count) result }
    {
        op(
            one.part(first, count),
            two.part(first, count),
            three.part(first, count),
        )
    };
    let len = one.len();
    Bitmap::from_u8_vec(answered_words(alloc, len, answer)?, len)
}

/// The answers of a function to the words of four bitmaps.
///
/// # Errors
///
/// `OutOfMemory`.
pub fn quaternary<F: Fn(u64, u64, u64, u64) -> u64>(
    alloc: Global,
    a1: &Bitmap,
    a2: &Bitmap,
    a3: &Bitmap,
    a4: &Bitmap,
    op: F,
) -> Result<Bitmap>
    requires callable { F.IsAlwaysCallable op }
    requires second { length a1.now ≡ length a2.now }
    requires third { length a1.now ≡ length a3.now }
    requires fourth { length a1.now ≡ length a4.now }
    ensures words { OrOutOfMemory result (IsWordwise 64 (λ k answer.
        F.post op (word_at 64 a1.now k) (word_at 64 a2.now k) (word_at 64 a3.now k) (word_at 64 a4.now k) answer) (length a1.now)) }
    ensures bits { (table : Bool → Bool → Bool → Bool → Bool) → CombinesFour table (λ x y z w answer. F.post op x y z w answer) →
        OrOutOfMemory result (λ b. b ≡ fourwise table a1.now a2.now a3.now a4.now) }
{
    let one = BitWords::of(a1);
    let two = BitWords::of(a2);
    let three = BitWords::of(a3);
    let four = BitWords::of(a4);
    let answer = |first: usize, count: usize| -> u64
        requires callable { F.IsAlwaysCallable op }
        requires few { count ≤ 64 }
        requires one { first + count ≤ length one }
        requires two { first + count ≤ length two }
        requires three { first + count ≤ length three }
        requires four { first + count ≤ length four }
        ensures { F.post op (part one.entry first count) (part two.entry first count)
            (part three.entry first count) (part four.entry first count) result }
    {
        op(
            one.part(first, count),
            two.part(first, count),
            three.part(first, count),
            four.part(first, count),
        )
    };
    let len = one.len();
    Bitmap::from_u8_vec(answered_words(alloc, len, answer)?, len)
}

/// Whether both bits are set, place by place.
///
/// # Errors
///
/// `OutOfMemory`.
pub fn and(alloc: Global, lhs: &Bitmap, rhs: &Bitmap) -> Result<Bitmap>
    requires { length lhs.now ≡ length rhs.now }
    ensures { OrOutOfMemory result (λ b. b ≡ pairwise (λ x y. x && y) lhs.now rhs.now) }
{
    binary(alloc, lhs, rhs, |x, y| x & y)
}

/// Whether one of two bits is set, place by place.
///
/// # Errors
///
/// `OutOfMemory`.
pub fn or(alloc: Global, lhs: &Bitmap, rhs: &Bitmap) -> Result<Bitmap>
    requires { length lhs.now ≡ length rhs.now }
    ensures { OrOutOfMemory result (λ b. b ≡ pairwise (λ x y. x || y) lhs.now rhs.now) }
{
    binary(alloc, lhs, rhs, |x, y| x | y)
}

/// Whether just one of two bits is set, place by place.
///
/// # Errors
///
/// `OutOfMemory`.
pub fn xor(alloc: Global, lhs: &Bitmap, rhs: &Bitmap) -> Result<Bitmap>
    requires { length lhs.now ≡ length rhs.now }
    ensures { OrOutOfMemory result (λ b. b ≡ pairwise operator.xor lhs.now rhs.now) }
{
    binary(alloc, lhs, rhs, |x, y| x ^ y)
}
