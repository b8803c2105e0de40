ghost use Rattle.std.specs.Prelude.{◌≡◌, ◌+◌, ◌*◌, ◌^◌, ◌<◌, ◌≤◌, Bool, length, map};
ghost use Rattle.columnar_memory_bitmap.specs.Operators.{pairwise};
ghost use Rattle.columnar_memory_bitmap.specs.bits.Bits.{bits_of};
ghost use Rattle.columnar_memory_bitmap.specs.bits.Words.{word_at};
ghost use Rattle.columnar_memory_kernels.specs.Kernels.{AnswersOne, AnswersTwo, CombinesValues, IsWordwise, TurnsValues};

use crate::bit_chunk::BitChunk;
use crate::write::{bits_of_word, write_word};
use columnar_memory_bitmap::bits::load_word;
use columnar_memory_bitmap::{Bitmap, MutableBitmap};

/// Writes the answers of a function to the words of some bits over them.
fn assign_one<T: BitChunk, F: Fn(T) -> T>(bytes: &mut [u8], len: usize, op: F)
    requires callable { F.IsAlwaysCallable op }
    requires in_range { len ≤ 8 * length bytes.old }
    ensures { IsWordwise T.bits (λ k. AnswersOne T.bits_of (F.post op) (word_at T.bits (bits_of bytes.old 0 len) k)) len (bits_of bytes.new 0 len) }
{
    let width = T::bits();
    for k in 0..len.div_ceil(width) {
        let first = width * k;
        let n = bits_of_word(width, first, len);
        let answer = op(T::from_word(load_word(bytes, first, n)));
        write_word(bytes, first, answer.to_word(), n);
    }
}

/// Writes the answers of a function to the words of some bits, and of as many others, over the first.
fn assign_two<T: BitChunk, F: Fn(T, T) -> T>(
    bytes: &mut [u8],
    len: usize,
    other: &[u8],
    offset: usize,
    op: F,
)
    requires callable { F.IsAlwaysCallable op }
    requires in_range { len ≤ 8 * length bytes.old }
    requires other_in_range { offset + len ≤ 8 * length other.now }
    requires other_fits { offset + len < 2 ^ 64 }
    ensures { IsWordwise T.bits (λ k. AnswersTwo T.bits_of (F.post op)
        (word_at T.bits (bits_of bytes.old 0 len) k)
        (word_at T.bits (bits_of other.now offset len) k)) len (bits_of bytes.new 0 len) }
{
    let width = T::bits();
    for k in 0..len.div_ceil(width) {
        let first = width * k;
        let n = bits_of_word(width, first, len);
        let left = T::from_word(load_word(bytes, first, n));
        let right = T::from_word(load_word(other, offset + first, n));
        let answer = op(left, right);
        write_word(bytes, first, answer.to_word(), n);
    }
}

/// Writes the answers of a function to the words of a bitmap over them.
fn unary_in_place<T: BitChunk, F: Fn(T) -> T>(lhs: &mut MutableBitmap, op: F)
    requires { F.IsAlwaysCallable op }
    ensures { IsWordwise T.bits (λ k. AnswersOne T.bits_of (F.post op) (word_at T.bits lhs.old k)) (length lhs.old) lhs.new }
{
    let none = MutableBitmap::new(lhs.allocator());
    let (mut bytes, len) = std::mem::replace(lhs, none).into_inner();
    assign_one(&mut bytes, len, op);
    *lhs = MutableBitmap::from_vec(bytes, len);
}

/// Writes the answers of a function to the words of a bitmap, and of another of the same length, over the first.
fn binary_in_place<T: BitChunk, F: Fn(T, T) -> T>(lhs: &mut MutableBitmap, rhs: &Bitmap, op: F)
    requires callable { F.IsAlwaysCallable op }
    requires lengths { length lhs.old ≡ length rhs.now }
    ensures { IsWordwise T.bits (λ k. AnswersTwo T.bits_of (F.post op) (word_at T.bits lhs.old k) (word_at T.bits rhs.now k))
        (length lhs.old) lhs.new }
{
    let none = MutableBitmap::new(lhs.allocator());
    let (mut bytes, len) = std::mem::replace(lhs, none).into_inner();
    let (other, offset, _) = rhs.as_slice();
    assign_two(&mut bytes, len, other, offset, op);
    *lhs = MutableBitmap::from_vec(bytes, len);
}

/// Replaces the words of a bitmap by the answers of a function to them, in place. A word has as many bits as the type `T`, and the last one
/// is filled with false.
pub fn unary_assign<T: BitChunk, F: Fn(T) -> T>(lhs: &mut MutableBitmap, op: F)
    requires { F.IsAlwaysCallable op }
    ensures words { IsWordwise T.bits (λ k. AnswersOne T.bits_of (F.post op) (word_at T.bits lhs.old k)) (length lhs.old) lhs.new }
    ensures bits { (table : Bool → Bool) → TurnsValues T.bits_of T.bits table (F.post op) → lhs.new ≡ map table lhs.old }
{
    unary_in_place(lhs, op);
}

/// Replaces the words of a bitmap by the answers of a function to them and to those of another of the same length, in place. A word has as
/// many bits as the type `T`, and the last one is filled with false.
pub fn binary_assign<T: BitChunk, F: Fn(T, T) -> T>(lhs: &mut MutableBitmap, rhs: &Bitmap, op: F)
    requires callable { F.IsAlwaysCallable op }
    requires lengths { length lhs.old ≡ length rhs.now }
    ensures words { IsWordwise T.bits (λ k. AnswersTwo T.bits_of (F.post op) (word_at T.bits lhs.old k) (word_at T.bits rhs.now k))
        (length lhs.old) lhs.new }
    ensures bits { (table : Bool → Bool → Bool) → CombinesValues T.bits_of T.bits table (F.post op) →
        lhs.new ≡ pairwise table lhs.old rhs.now }
{
    binary_in_place(lhs, rhs, op);
}
