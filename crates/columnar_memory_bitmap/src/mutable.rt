ghost use Rattle.std.specs.Prelude.{◌≡◌, not, map, ◌+◌, ◌*◌, ◌%◌, ◌≤◌, ◌<◌, true, false, [], ◌∷◌, ◌++◌, length, replicate, slice_get, slice_set, ◌↔◌};
ghost use Rattle.std.specs.Prelude.{IsTrue, IsSome, OnOk, OnErr, ◌^◌};
ghost use Rattle.std.specs.Option.{option_to_list};
ghost use Rattle.std.specs.Iterator.{IsFinite};
ghost use Rattle.std.specs.Iterator.Runs.{WholeRun};
ghost use Rattle.std.specs.Cmp.Lexicographic.{pointwise, lists_per, lists_equiv};
ghost use Rattle.std.specs.Cmp.{bool_eq_equiv, partial_equiv_from_equiv};
ghost use Rattle.std.proofs.Math.Bool.{beq};
ghost use Rattle.columnar_memory_bits.specs.Bits.{IsPacked, bits_of, unset_count};
ghost use Rattle.columnar_memory_bits.specs.Words.{word_bits};
ghost use Rattle.columnar_memory_bitmap.specs.Operators.{pairwise, table};
ghost use Rattle.columnar_memory_bitmap.specs.Edits.{Writes};
ghost use Rattle.columnar_memory_bitmap.specs.Results.{TakesBits, Grows, OrOutOfMemory};

use crate::equal::same_bits;
use crate::gatherer::with_bit;
use crate::operators::{Operator, combine_bits, invert_bytes};
use crate::{BitGatherer, Bitmap};
use columnar_memory_bits::{
    BitmapIter, append_bits, append_constant, append_word, bytes_for, count_zeros, get_bit,
    keep_bits, set_bit,
};
use columnar_memory_types::{Error, Result};
use std::alloc::{AllocError, Global};
use std::marker::Model;

/// Bits of its own that can be changed, which a contract sees as their list, `true` where a bit is set. Its bytes are just those that the
/// bits need, the first bit in the least significant place of the first, and the spare bits of the last byte are zeros.
///
/// A call that grows it and finds no memory, or would hold more bits than a `usize` counts, answers `OutOfMemory` and changes nothing.
#[derive(Drop)]
pub struct MutableBitmap {
    buffer: Vec<u8>,
    len: usize,
}

impl Model for MutableBitmap {
    ghost use Rattle.std.specs.Prelude.{List, Bool};
    ghost use Rattle.columnar_memory_bits.specs.Bits.{IsPacked, bits_of};

    ghost Value = { List Bool };

    ghost view = { λ b. bits_of b.buffer.items 0 b.len };

    ghost invariant = { λ b. IsPacked b.buffer.items b.len };
}

impl MutableBitmap {
    /// No bits, which takes no memory.
    #[tactic(auto, using(crate::proofs::Places::empty))]
    pub fn new(alloc: Global) -> MutableBitmap
        ensures { result ≡ [] }
    {
        MutableBitmap {
            buffer: Vec::new(alloc),
            len: 0,
        }
    }

    /// The first `len` bits of a vector, with no copy. Its spare bytes are cut, and its spare bits become zeros.
    ///
    /// # Errors
    /// `InvalidArgumentError`: the bytes have fewer bits.
    pub fn try_new(bytes: Vec<u8>, len: usize) -> Result<MutableBitmap>
        ensures { TakesBits bytes.items len result }
    {
        if bytes_for(len) > bytes.len() {
            return Err(Error::InvalidArgumentError(
                "fewer bits in the bytes than the bitmap's length",
            ));
        }
        Ok(MutableBitmap::from_vec(bytes, len))
    }

    /// The first `len` bits of a vector that has them, with no copy. Its spare bytes are cut, and its spare bits become zeros.
    pub fn from_vec(bytes: Vec<u8>, len: usize) -> MutableBitmap
        requires { len ≤ 8 * length bytes.items }
        ensures { result ≡ bits_of bytes.items 0 len }
    {
        let mut buffer = bytes;
        keep_bits(&mut buffer, len);
        MutableBitmap { buffer, len }
    }

    /// No bits, with room for `capacity` of them.
    ///
    /// # Errors
    /// `OutOfMemory`: the room found no memory.
    #[tactic(auto, using(crate::proofs::Places::empty))]
    pub fn with_capacity(alloc: Global, capacity: usize) -> Result<MutableBitmap>
        ensures { OrOutOfMemory result (λ b. b ≡ []) }
    {
        let buffer = Vec::with_capacity(alloc, bytes_for(capacity))?;
        Ok(MutableBitmap { buffer, len: 0 })
    }

    /// Bits none of which is set.
    ///
    /// # Errors
    /// `OutOfMemory`: the bits found no memory.
    pub fn from_len_zeroed(alloc: Global, len: usize) -> Result<MutableBitmap>
        ensures { OrOutOfMemory result (λ b. b ≡ replicate len false) }
    {
        let mut bitmap = MutableBitmap::new(alloc);
        bitmap.extend_constant(len, false)?;
        Ok(bitmap)
    }

    /// Bits each of which is set.
    ///
    /// # Errors
    /// `OutOfMemory`: the bits found no memory.
    pub fn from_len_set(alloc: Global, len: usize) -> Result<MutableBitmap>
        ensures { OrOutOfMemory result (λ b. b ≡ replicate len true) }
    {
        let mut bitmap = MutableBitmap::new(alloc);
        bitmap.extend_constant(len, true)?;
        Ok(bitmap)
    }

    /// The items of an iterator that ends, in order.
    ///
    /// # Errors
    /// `OutOfMemory`: the bits found no memory.
    pub fn from_iter<I: Iterator<Item = bool> + Drop>(
        alloc: Global,
        iter: I,
    ) -> Result<MutableBitmap>
        requires can { I.can_next iter }
        requires ends { IsFinite (I.remaining iter) }
        ensures { OrOutOfMemory result (λ b. WholeRun I.next_gives iter (λ p. b ≡ p.items)) }
    {
        // A word and its count by themselves stay in registers, where those of a gatherer are written at each bit.
        let mut bitmap = MutableBitmap::new(alloc);
        let mut word = 0;
        let mut count = 0;
        for bit in iter {
            word = with_bit(word, count, bit);
            count += 1;
            if count == 64 {
                bitmap.extend_word(word, 64)?;
                word = 0;
                count = 0;
            }
        }
        bitmap.extend_word(word, count)?;
        Ok(bitmap)
    }

    /// The bits of a slice, in order.
    ///
    /// # Errors
    /// `OutOfMemory`: the bits found no memory.
    pub fn from(alloc: Global, bits: &[bool]) -> Result<MutableBitmap>
        ensures { OrOutOfMemory result (λ b. b ≡ bits.now) }
    {
        let mut packed = BitGatherer::new(alloc);
        packed.reserve(bits.len())?;
        for bit in bits {
            if packed.push(*bit).is_err() {
                return Err(Error::OutOfMemory);
            }
        }
        packed.finish()
    }

    /// Adds the first `count` bits of a word behind whole bytes.
    #[tactic(auto, using(crate::proofs::Lists::windows))]
    pub(crate) fn extend_word(&mut self, word: u64, count: usize) -> Result<()>
        requires whole { length self.old % 8 ≡ 0 }
        requires few { count ≤ 64 }
        ensures { Grows result self.old self.new (self.old ++ word_bits count word) }
    {
        let Some(len) = self.len.checked_add(count) else {
            return Err(Error::OutOfMemory);
        };
        append_word(&mut self.buffer, self.len, word, count)?;
        self.len = len;
        Ok(())
    }

    /// How many bits there are.
    #[tactic(auto, using(crate::proofs::Lists::windows))]
    pub fn len(&self) -> usize
        ensures { result ≡ length self.now }
    {
        self.len
    }

    /// Whether there is no bit.
    #[tactic(auto, using(crate::proofs::Lists::windows))]
    pub fn is_empty(&self) -> bool
        ensures { IsTrue result ↔ (self.now ≡ []) }
    {
        self.len == 0
    }

    /// How many bits its memory has room for, at least as many as there are.
    #[tactic(auto, using(crate::proofs::Lists::windows))]
    pub fn capacity(&self) -> usize
        ensures { length self.now ≤ result }
    {
        self.len.max(self.buffer.capacity().saturating_mul(8))
    }

    /// How many bits are not set, counted anew.
    pub fn unset_bits(&self) -> usize
        ensures { result ≡ unset_count self.now }
    {
        count_zeros(&self.buffer, 0, self.len)
    }

    /// The bit at a place.
    #[tactic(auto, using(crate::proofs::Lists::windows))]
    pub fn get(&self, i: usize) -> bool
        requires { i < length self.now }
        ensures { slice_get self.now i ≡ Some result }
    {
        get_bit(&self.buffer, i)
    }

    /// The bits, from both ends.
    pub fn iter(&self) -> BitmapIter<'_>
        ensures { result ≡ self.now }
    {
        BitmapIter::new(&self.buffer, 0, self.len)
    }

    /// The bytes of the bits, from the first bit on.
    #[tactic(auto, using(crate::proofs::Lists::windows))]
    pub fn as_slice(&self) -> &[u8]
        ensures bits { bits_of result.now 0 (length self.now) ≡ self.now }
        ensures packed { IsPacked result.now (length self.now) }
    {
        self.buffer.as_slice()
    }

    /// Writes the bit at a place.
    #[tactic(auto, using(crate::proofs::Places::writes))]
    pub fn set(&mut self, i: usize, value: bool)
        requires { i < length self.old }
        ensures { self.new ≡ slice_set self.old i value }
    {
        write_bit(&mut self.buffer, i, value);
    }

    /// Adds a bit at the end.
    ///
    /// # Errors
    /// `OutOfMemory`: the growth found no memory.
    #[inline(always)]
    pub fn push(&mut self, value: bool) -> Result<()>
        ensures { Grows result self.old self.new (self.old ++ value ∷ []) }
    {
        if self.len == usize::MAX {
            return Err(Error::OutOfMemory);
        }
        push_bit(&mut self.buffer, self.len, value)?;
        self.len += 1;
        Ok(())
    }

    /// Takes the last bit off, if there is one.
    pub fn pop(&mut self) -> Option<bool>
        ensures last { self.old ≡ self.new ++ option_to_list result }
        ensures empty { IsSome result ↔ (0 < length self.old) }
    {
        if self.len == 0 {
            return None;
        }
        let last = self.len - 1;
        let value = get_bit(&self.buffer, last);
        keep_bits(&mut self.buffer, last);
        self.len = last;
        Some(value)
    }

    /// Drops all bits, and keeps the memory.
    #[tactic(auto, using(crate::proofs::Places::empty))]
    pub fn clear(&mut self)
        ensures { self.new ≡ [] }
    {
        self.buffer.clear();
        self.len = 0;
    }

    /// Makes room for some more bits.
    ///
    /// # Errors
    /// `OutOfMemory`: the room found no memory.
    pub fn reserve(&mut self, additional: usize) -> Result<()>
        ensures { Grows result self.old self.new self.old }
    {
        let Some(len) = self.len.checked_add(additional) else {
            return Err(Error::OutOfMemory);
        };
        self.buffer.reserve(bytes_for(len) - self.buffer.len())?;
        Ok(())
    }

    /// Gives back memory that no bit needs, as far as the allocator takes it.
    pub fn shrink_to_fit(&mut self)
        ensures { self.new ≡ self.old }
    {
        self.buffer.shrink_to_fit();
    }

    /// Adds `additional` bits of one value at the end.
    ///
    /// # Errors
    /// `OutOfMemory`: the growth found no memory.
    pub fn extend_constant(&mut self, additional: usize, value: bool) -> Result<()>
        ensures { Grows result self.old self.new (self.old ++ replicate additional value) }
    {
        let Some(len) = self.len.checked_add(additional) else {
            return Err(Error::OutOfMemory);
        };
        append_constant(&mut self.buffer, self.len, additional, value)?;
        self.len = len;
        Ok(())
    }

    /// Adds the `count` bits of some bytes from bit `offset` on at the end.
    ///
    /// # Errors
    /// `OutOfMemory`: the growth found no memory.
    pub fn extend_from_slice(&mut self, bytes: &[u8], offset: usize, count: usize) -> Result<()>
        requires { offset + count ≤ 8 * length bytes.now }
        ensures { Grows result self.old self.new (self.old ++ bits_of bytes.now offset count) }
    {
        let Some(len) = self.len.checked_add(count) else {
            return Err(Error::OutOfMemory);
        };
        let first = offset % 8;
        if first.checked_add(count).is_none() {
            return Err(Error::OutOfMemory);
        }
        append_bits(
            &mut self.buffer,
            self.len,
            &bytes[offset / 8..],
            first,
            count,
        )?;
        self.len = len;
        Ok(())
    }

    /// Adds the bits of a bitmap at the end.
    ///
    /// # Errors
    /// `OutOfMemory`: the growth found no memory.
    pub fn extend_from_bitmap(&mut self, bitmap: &Bitmap) -> Result<()>
        ensures { Grows result self.old self.new (self.old ++ bitmap.now) }
    {
        let (bytes, offset, count) = bitmap.as_slice();
        self.extend_from_slice(bytes, offset, count)
    }

    /// The bitmap of these bits, with no copy.
    ///
    /// # Errors
    /// `OutOfMemory`: the count of owners found no memory.
    pub fn freeze(self) -> Result<Bitmap>
        ensures { OrOutOfMemory result (λ b. b ≡ self) }
    {
        let MutableBitmap { buffer, len } = self;
        Bitmap::from_u8_vec(buffer, len)
    }

    /// The bytes of the bits, as `as_slice` shows them, and how many bits there are, with no copy.
    #[tactic(auto, using(crate::proofs::Lists::windows))]
    pub fn into_inner(self) -> (Vec<u8>, usize)
        ensures bits { bits_of result.0.items 0 result.1 ≡ self }
        ensures len { result.1 ≡ length self }
        ensures packed { IsPacked result.0.items result.1 }
    {
        let MutableBitmap { buffer, len } = self;
        (buffer, len)
    }

    /// The allocator of the bytes.
    pub fn allocator(&self) -> Global {
        *self.buffer.allocator()
    }

    /// Whether the bits are the same as another's.
    fn has_bits_of(&self, other: &MutableBitmap) -> bool
        ensures { IsTrue result ↔ (self.now ≡ other.now) }
    {
        if self.len != other.len {
            return false;
        }
        same_bits(&self.buffer, 0, &other.buffer, 0, self.len)
    }

    /// Turns each bit.
    pub(crate) fn invert(&mut self)
        ensures { self.new ≡ map not self.old }
    {
        invert_bytes(&mut self.buffer);
        keep_bits(&mut self.buffer, self.len);
    }

    /// Combines the bits with those of a bitmap.
    #[tactic(auto, using(crate::proofs::Lists::windows))]
    pub(crate) fn combine(&mut self, other: &Bitmap, operator: Operator)
        requires { length self.old ≡ length other.now }
        ensures { self.new ≡ pairwise (table operator) self.old other.now }
    {
        let (bytes, offset, _) = other.as_slice();
        combine_bits(&mut self.buffer, self.len, bytes, offset, operator);
    }
}

impl Clone for MutableBitmap {
    ghost is_clone = { λ a b. b ≡ a };

    fn clone(&self) -> std::result::Result<MutableBitmap, AllocError> {
        Ok(MutableBitmap {
            buffer: self.buffer.clone()?,
            len: self.len,
        })
    }
}

impl PartialEq for MutableBitmap {
    ghost eq = { pointwise beq };

    ghost laws = { lists_per (partial_equiv_from_equiv bool_eq_equiv) };

    fn eq(&self, other: &MutableBitmap) -> bool
        ensures value { result ≡ pointwise beq self.now other.now }
        ensures exact { IsTrue result ↔ (self.now ≡ other.now) }
    {
        self.has_bits_of(other)
    }
}

impl Eq for MutableBitmap {
    ghost laws = { lists_equiv bool_eq_equiv };
}

impl<'a> IntoIterator for &'a MutableBitmap {
    type Item = bool;

    type IntoIter = BitmapIter<'a>;

    ghost into_iter_gives = { λ bits it. it ≡ bits.now };

    fn into_iter(self) -> BitmapIter<'a> {
        self.iter()
    }
}

/// Adds a bit behind the first `held` bits of a vector.
#[tactic(auto, using(crate::proofs::Places::pushes))]
fn push_bit(to: &mut Vec<u8>, held: usize, value: bool) -> std::result::Result<(), AllocError>
    requires packed { IsPacked to.old.items held }
    requires held_fits { held + 1 < 2 ^ 64 }
    ensures ok { OnOk result (bits_of to.new.items 0 (held + 1) ≡ bits_of to.old.items 0 held ++ value ∷ []) }
    ensures packed { OnOk result (IsPacked to.new.items (held + 1)) }
    ensures err { OnErr result (to.new.items ≡ to.old.items) }
{
    if held % 8 == 0 {
        to.push(if value { 1 } else { 0 })?;
    } else if value {
        write_bit(to, held, true);
    }
    Ok(())
}

/// Writes bit `i` of a vector.
fn write_bit(to: &mut Vec<u8>, i: usize, value: bool)
    requires { i < 8 * length to.old.items }
    ensures written { Writes to.old.items to.new.items i value }
    ensures len { length to.new.items ≡ length to.old.items }
{
    set_bit(to, i, value);
}
