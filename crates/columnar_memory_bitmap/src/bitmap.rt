ghost use Rattle.std.specs.Prelude.{◌≡◌, ℕ, not, ◌+◌, ◌*◌, ◌≤◌, ◌<◌, ◌^◌, false, [], length, replicate, slice_get, slice_range, ◌↔◌, IsTrue, Some};
ghost use Rattle.std.specs.Prelude.{MatchResult};
ghost use Rattle.columnar_memory_types.specs.Error.{IsOutOfMemory};
ghost use Rattle.columnar_memory_bits.specs.Bits.{bits_of, unset_count};
ghost use Rattle.columnar_memory_bits.specs.Bits as format;
ghost use Rattle.std.specs.Cmp.Lexicographic.{pointwise, lists_per, lists_equiv};
ghost use Rattle.std.specs.Cmp.{bool_eq_equiv, partial_equiv_from_equiv};
ghost use Rattle.std.proofs.Math.Bool.{beq};
ghost use Rattle.std.specs.Iterator.{IsFinite};
ghost use Rattle.std.specs.Iterator.Runs.{WholeRun};
ghost use Rattle.either.specs.Either.{MatchEither};
ghost use Rattle.columnar_memory_bitmap.specs.Results.{FirstBits, OrOutOfMemory};
ghost use Rattle.columnar_memory_bitmap.specs.Runs.{HoldsBits};

use crate::MutableBitmap;
use crate::equal::same_bits;
use columnar_memory_bits::{BitmapIter, bytes_for, count_zeros, get_bit, load_word};
use columnar_memory_types::{Error, Result};
use either::Either;
use std::alloc::{AllocError, Global};
use std::marker::Model;
use std::mem;
use std::rc::Rc;

/// Shared bits that are not changed, which a contract sees as their list, `true` where a bit is set (Arrow columnar format, "Validity
/// bitmaps"). It is a window on bytes: a clone and a slice share them, and equal lists are equal bitmaps whatever stands around the bits.
#[derive(Drop)]
pub struct Bitmap {
    // the bits stand from bit `offset` on, and `unset_bits` of them are not set
    bytes: Rc<Vec<u8>>,
    offset: usize,
    len: usize,
    unset_bits: usize,
}

impl Model for Bitmap {
    ghost use Rattle.std.specs.Prelude.{◌≡◌, ◌+◌, ◌*◌, ◌^◌, ◌≤◌, ◌<◌, List, Bool, length};
    ghost use Rattle.columnar_memory_bits.specs.Bits.{bits_of, unset_count};

    ghost Value = { List Bool };

    ghost view = { λ b. bits_of b.bytes.value.items b.offset b.len };

    ghost invariant = { λ b.
        (b.offset + b.len ≤ 8 * length b.bytes.value.items)
        × (b.offset + b.len < 2 ^ 64)
        × (b.unset_bits ≡ unset_count (bits_of b.bytes.value.items b.offset b.len)) };
}

impl Bitmap {
    /// How many bits there are.
    #[tactic(auto, using(crate::proofs::Lists::windows))]
    pub fn len(&self) -> usize
        ensures { result ≡ length self.now }
    {
        self.len
    }

    /// Whether there is no bit.
    #[tactic(auto, using(crate::proofs::Lists::windows))]
    pub fn is_empty(&self) -> bool
        ensures { IsTrue result ↔ (self.now ≡ []) }
    {
        self.len == 0
    }

    /// How many bits are not set. It is kept, not counted.
    pub fn unset_bits(&self) -> usize
        ensures { result ≡ unset_count self.now }
    {
        self.unset_bits
    }

    /// How many bits are not set, by the name that arrays use.
    pub fn null_count(&self) -> usize
        ensures { result ≡ unset_count self.now }
    {
        self.unset_bits
    }

    /// The bit at a place.
    #[tactic(auto, using(crate::proofs::Lists::windows))]
    pub fn get_bit(&self, i: usize) -> bool
        requires { i < length self.now }
        ensures { slice_get self.now i ≡ Some result }
    {
        get_bit(&self.bytes, self.offset + i)
    }

    /// A bit, if there is one at this place.
    #[tactic(auto, using(crate::proofs::Lists::windows))]
    pub fn get(&self, i: usize) -> Option<bool>
        ensures { result ≡ slice_get self.now i }
    {
        if i < self.len {
            Some(get_bit(&self.bytes, self.offset + i))
        } else {
            None
        }
    }

    /// How many of the `count` bits from `offset` on are not set. It counts those, or those around them, whichever are fewer.
    #[tactic(auto, using(crate::proofs::Lists::parts))]
    pub fn null_count_range(&self, offset: usize, count: usize) -> usize
        requires { offset + count ≤ length self.now }
        ensures { result ≡ unset_count (slice_range self.now offset (offset + count)) }
    {
        if self.unset_bits == 0 {
            return 0;
        }
        if count < self.len / 2 {
            return count_zeros(&self.bytes, self.offset + offset, count);
        }
        let behind = offset + count;
        let before = count_zeros(&self.bytes, self.offset, offset);
        let after = count_zeros(&self.bytes, self.offset + behind, self.len - behind);
        self.unset_bits - before - after
    }

    /// Whether the `count` bits from a place on are those of another bitmap from a place on.
    #[tactic(auto, using(crate::proofs::Lists::windows))]
    pub fn same_range(&self, i: usize, other: &Bitmap, j: usize, count: usize) -> bool
        requires within { i + count ≤ length self.now }
        requires other_within { j + count ≤ length other.now }
        ensures { IsTrue result ↔ (slice_range self.now i (i + count) ≡ slice_range other.now j (j + count)) }
    {
        same_bits(
            &self.bytes,
            self.offset + i,
            &other.bytes,
            other.offset + j,
            count,
        )
    }

    /// The bits, from both ends.
    pub fn iter(&self) -> BitmapIter<'_>
        ensures { result ≡ self.now }
    {
        BitmapIter::new(&self.bytes, self.offset, self.len)
    }

    /// Narrows this to the `count` bits from `offset` on.
    #[inline(always)]
    #[tactic(auto, using(crate::proofs::Lists::windows))]
    pub fn slice(&mut self, offset: usize, count: usize)
        requires { offset + count ≤ length self.old }
        ensures { self.new ≡ slice_range self.old offset (offset + count) }
    {
        self.unset_bits = self.null_count_range(offset, count);
        self.offset += offset;
        self.len = count;
    }

    /// The `count` bits from `offset` on, in the same memory. A slice of a slice is one at the sum of the places.
    pub fn sliced(self, offset: usize, count: usize) -> Bitmap
        requires { offset + count ≤ length self }
        ensures { result ≡ slice_range self offset (offset + count) }
    {
        let mut bitmap = self;
        bitmap.slice(offset, count);
        bitmap
    }

    /// The bytes that hold the bits and no others, the place of the first bit in the first of them, and how many bits there are. No clause
    /// can say which place that is, since a list has none: it follows where the bits came from.
    #[tactic(auto, using(crate::proofs::Lists::windows))]
    pub fn as_slice(&self) -> (&[u8], usize, usize)
        ensures bits { bits_of result.0.now result.1 result.2 ≡ self.now }
        ensures len { result.2 ≡ length self.now }
        ensures first { result.1 < 8 }
        ensures fits { result.1 + result.2 < 2 ^ 64 }
        ensures bytes { length result.0.now ≡ format.bytes_for (result.1 + result.2) }
    {
        let start = self.offset / 8;
        let end = bytes_for(self.offset + self.len);
        (&self.bytes[start..end], self.offset % 8, self.len)
    }

    /// The bytes, the place of the first bit in them, how many bits there are, and how many of these are not set.
    #[tactic(auto, using(crate::proofs::Lists::windows))]
    pub fn into_inner(self) -> (Rc<Vec<u8>>, usize, usize, usize)
        ensures bits { bits_of result.0.value.items result.1 result.2 ≡ self }
        ensures len { result.2 ≡ length self }
        ensures within { result.1 + result.2 ≤ 8 * length result.0.value.items }
        ensures unset { result.3 ≡ unset_count self }
    {
        (self.bytes, self.offset, self.len, self.unset_bits)
    }

    /// The bits to change, on the right, where this is the one owner of its bytes and its first bit stands first in them; else this bitmap,
    /// on the left. No memory is taken.
    pub fn into_mut(self) -> Either<Bitmap, MutableBitmap>
        ensures { MatchEither result (λ b. b ≡ self) (λ m. m ≡ self) }
    {
        let Bitmap {
            bytes,
            offset,
            len,
            unset_bits,
        } = self;
        if offset > 0 {
            return Either::Left(Bitmap {
                bytes,
                offset,
                len,
                unset_bits,
            });
        }
        match Rc::try_unwrap(bytes) {
            Ok(bytes) => Either::Right(MutableBitmap::from_vec(bytes, len)),
            Err(bytes) => Either::Left(Bitmap {
                bytes,
                offset,
                len,
                unset_bits,
            }),
        }
    }

    /// The bits to change: the bytes themselves where `into_mut` gives them, else a copy.
    ///
    /// # Errors
    /// `OutOfMemory`: the copy found no memory.
    pub fn make_mut(self) -> Result<MutableBitmap>
        ensures { OrOutOfMemory result (λ m. m ≡ self) }
    {
        match self.into_mut() {
            Either::Left(shared) => shared.to_mutable(),
            Either::Right(own) => Ok(own),
        }
    }

    /// Replaces the bits by what a function makes of them: of the bytes themselves, with no copy and no memory taken, where this is their
    /// one owner and its first bit stands first in them; else of a copy.
    ///
    /// # Errors
    /// `OutOfMemory`: the copy or its count of owners found no memory. The bitmap is as it was.
    pub fn apply_mut<F: FnOnce(MutableBitmap) -> MutableBitmap + Drop>(
        &mut self,
        f: F,
    ) -> Result<()>
        requires { F.pre f self.old }
        ensures { MatchResult result (λ _. F.post f self.old self.new) (λ e. IsOutOfMemory e × (self.new ≡ self.old)) }
    {
        if self.offset == 0 {
            if let Some(bytes) = Rc::get_mut(&mut self.bytes) {
                let alloc = *bytes.allocator();
                let own = mem::replace(bytes, Vec::new(alloc));
                let made = f(MutableBitmap::from_vec(own, self.len));
                self.unset_bits = made.unset_bits();
                (*bytes, self.len) = made.into_inner();
                return Ok(());
            }
        }
        let copy = self.to_mutable()?;
        *self = f(copy).freeze()?;
        Ok(())
    }

    /// The allocator of the bytes.
    pub fn allocator(&self) -> Global {
        *self.bytes.allocator()
    }

    /// Some bits, from a place on, as a word whose further bits are zeros.
    #[tactic(auto, using(crate::proofs::Lists::windows))]
    pub(crate) fn load(&self, place: usize, len: usize) -> u64
        requires few { len ≤ 64 }
        requires within { place + len ≤ length self.now }
        ensures { HoldsBits self.now place result len }
    {
        load_word(&self.bytes, self.offset + place, len)
    }

    /// Whether the bits are the same as another's.
    fn has_bits_of(&self, other: &Bitmap) -> bool
        ensures { IsTrue result ↔ (self.now ≡ other.now) }
    {
        if self.len != other.len {
            return false;
        }
        same_bits(
            &self.bytes,
            self.offset,
            &other.bytes,
            other.offset,
            self.len,
        )
    }

    /// A copy of the bits.
    pub(crate) fn to_mutable(&self) -> Result<MutableBitmap>
        ensures { OrOutOfMemory result (λ m. m ≡ self.now) }
    {
        let mut copy = MutableBitmap::new(self.allocator());
        copy.extend_from_bitmap(self)?;
        Ok(copy)
    }
}

impl Bitmap {
    /// No bits.
    ///
    /// # Errors
    /// `OutOfMemory`: the count of owners found no memory.
    pub fn new(alloc: Global) -> Result<Bitmap>
        ensures { OrOutOfMemory result (λ b. b ≡ []) }
    {
        Bitmap::from_u8_vec(Vec::new(alloc), 0)
    }

    /// Bits none of which is set.
    ///
    /// # Errors
    /// `OutOfMemory`: the bytes or the count of owners found no memory.
    pub fn new_zeroed(alloc: Global, len: usize) -> Result<Bitmap>
        ensures { OrOutOfMemory result (λ b. b ≡ replicate len false) }
    {
        MutableBitmap::from_len_zeroed(alloc, len)?.freeze()
    }

    /// The items of an iterator that ends, in order.
    ///
    /// # Errors
    /// `OutOfMemory`: the bytes or the count of owners found no memory.
    pub fn from_iter<I: Iterator<Item = bool> + Drop>(alloc: Global, iter: I) -> Result<Bitmap>
        requires can { I.can_next iter }
        requires ends { IsFinite (I.remaining iter) }
        ensures { OrOutOfMemory result (λ b. WholeRun I.next_gives iter (λ p. b ≡ p.items)) }
    {
        MutableBitmap::from_iter(alloc, iter)?.freeze()
    }

    /// The bits of a slice, in order.
    ///
    /// # Errors
    /// `OutOfMemory`: the bytes or the count of owners found no memory.
    pub fn from(alloc: Global, bits: &[bool]) -> Result<Bitmap>
        ensures { OrOutOfMemory result (λ b. b ≡ bits.now) }
    {
        MutableBitmap::from(alloc, bits)?.freeze()
    }

    /// A copy of the first `len` bits of some bytes.
    ///
    /// # Errors
    /// `OutOfMemory`: the bytes or the count of owners found no memory.
    #[tactic(auto, using(crate::proofs::Places::firsts))]
    pub fn from_u8_slice(alloc: Global, bytes: &[u8], len: usize) -> Result<Bitmap>
        requires { len ≤ 8 * length bytes.now }
        ensures { OrOutOfMemory result (λ b. b ≡ bits_of bytes.now 0 len) }
    {
        let count = bytes_for(len);
        Bitmap::from_u8_vec(bytes[..count].to_vec(alloc)?, len)
    }

    /// The first `len` bits of a vector, with no copy. Its spare bytes are cut.
    ///
    /// # Errors
    /// `InvalidArgumentError`: the bytes have fewer bits.
    /// `OutOfMemory`: the count of owners found no memory.
    pub fn try_new(bytes: Vec<u8>, len: usize) -> Result<Bitmap>
        ensures { FirstBits bytes.items len result }
    {
        if bytes_for(len) > bytes.len() {
            return Err(Error::InvalidArgumentError(
                "fewer bits in the bytes than the bitmap's length",
            ));
        }
        Bitmap::from_u8_vec(bytes, len)
    }

    /// The first `len` bits of a vector that has them, with no copy. Its spare bytes are cut.
    ///
    /// # Errors
    /// `OutOfMemory`: the count of owners found no memory.
    #[tactic(auto, using(crate::proofs::Places::firsts))]
    pub fn from_u8_vec(bytes: Vec<u8>, len: usize) -> Result<Bitmap>
        requires { len ≤ 8 * length bytes.items }
        ensures { OrOutOfMemory result (λ b. b ≡ bits_of bytes.items 0 len) }
    {
        let mut bytes = bytes;
        bytes.truncate(bytes_for(len));
        let unset_bits = count_zeros(&bytes, 0, len);
        let alloc = *bytes.allocator();
        let bytes = Rc::new(alloc, bytes)?;
        Ok(Bitmap {
            bytes,
            offset: 0,
            len,
            unset_bits,
        })
    }
}

/// A clone shares the bytes. It takes no memory, and fails only where the count of owners is at its greatest.
impl Clone for Bitmap {
    ghost is_clone = { λ a b. b ≡ a };

    fn clone(&self) -> std::result::Result<Bitmap, AllocError> {
        Ok(Bitmap {
            bytes: self.bytes.clone()?,
            offset: self.offset,
            len: self.len,
            unset_bits: self.unset_bits,
        })
    }
}

impl PartialEq for Bitmap {
    ghost eq = { pointwise beq };

    ghost laws = { lists_per (partial_equiv_from_equiv bool_eq_equiv) };

    fn eq(&self, other: &Bitmap) -> bool
        ensures value { result ≡ pointwise beq self.now other.now }
        ensures exact { IsTrue result ↔ (self.now ≡ other.now) }
    {
        self.has_bits_of(other)
    }
}

impl Eq for Bitmap {
    ghost laws = { lists_equiv bool_eq_equiv };
}

impl<'a> IntoIterator for &'a Bitmap {
    type Item = bool;

    type IntoIter = BitmapIter<'a>;

    ghost into_iter_gives = { λ bits it. it ≡ bits.now };

    fn into_iter(self) -> BitmapIter<'a> {
        self.iter()
    }
}
