ghost use Rattle.std.specs.Int.{w64, to_le_bytes};
ghost use Rattle.std.specs.Prelude.{◌≡◌, ◌+◌, ◌-◌, ◌*◌, ◌≤◌, ◌<◌, ◌++◌, min, length, IfOk};
ghost use Rattle.std.specs.Vec.{vec_capacity, vec_len};
ghost use Rattle.columnar_memory_bitmap.specs.bits.Bits.{bits_of, IsPacked};
ghost use Rattle.columnar_memory_kernels.specs.Kernels.{IsWordwise, TakesParts, part};

use columnar_memory_bitmap::Bitmap;
use columnar_memory_bitmap::bits::{append_word, bytes_for, load_word};
use std::alloc::{AllocError, Global};
use std::convert::AsSlice;
use std::marker::Model;

/// The bits of a bitmap, which are read a word at a time, seen as the list of them.
#[derive(Drop)]
pub(crate) struct BitWords<'a> {
    bytes: &'a [u8],
    offset: usize,
    len: usize,
}

impl<'a> Model for BitWords<'a> {
    ghost use Rattle.std.specs.Prelude.{◌+◌, ◌*◌, ◌^◌, ◌≤◌, ◌<◌, List, Bool, length};
    ghost use Rattle.columnar_memory_bitmap.specs.bits.Bits.{bits_of};

    ghost Value = { List Bool };

    ghost view = { λ it. bits_of it.bytes.now it.offset it.len };

    ghost invariant = { λ it. (it.offset + it.len ≤ 8 * length it.bytes.now) × (it.offset + it.len < 2 ^ 64) };
}

impl<'a> BitWords<'a> {
    pub(crate) fn of(bitmap: &'a Bitmap) -> Self
        ensures { result ≡ bitmap.now }
    {
        let (bytes, offset, len) = bitmap.as_slice();
        BitWords { bytes, offset, len }
    }

    pub(crate) fn len(&self) -> usize
        ensures { result ≡ length self.now }
    {
        self.len
    }

    /// The word of so many bits from bit `first` on.
    pub(crate) fn part(&self, first: usize, count: usize) -> u64
        requires few { count ≤ 64 }
        requires within { first + count ≤ length self.now }
        ensures { result ≡ part self.now first count }
    {
        load_word(self.bytes, self.offset + first, count)
    }
}

/// Adds the bytes of a word, for which there is room, so that the loop over words asks for no memory.
#[inline(always)]
fn push_word(to: &mut Vec<u8>, word: u64)
    requires { vec_len to.old + 8 ≤ vec_capacity to.old }
    ensures items { to.new.items ≡ to.old.items ++ to_le_bytes w64 word }
    ensures len { vec_len to.new ≡ vec_len to.old + 8 }
    ensures room { vec_capacity to.new ≡ vec_capacity to.old }
{
    for byte in word.to_le_bytes().as_slice() {
        to.push_reserved(*byte);
    }
}

/// The answers of a function to each of the words that `len` bits fill. It is given a word's first bit and how many bits the word has.
pub(crate) fn answered_words<F: Fn(usize, usize) -> u64>(
    alloc: Global,
    len: usize,
    answer: F,
) -> Result<Vec<u8>, AllocError>
    requires { TakesParts (F.pre answer) len }
    ensures answers { IfOk result (λ v. IsWordwise 64 (λ k y. F.post answer (64 * k) (min 64 (len - 64 * k)) y) len (bits_of v.items 0 len)) }
    ensures packed { IfOk result (λ v. IsPacked v.items len) }
{
    let mut out = Vec::with_capacity(alloc, bytes_for(len))?;
    let words = len / 64;
    for k in 0..words {
        push_word(&mut out, answer(64 * k, 64));
    }
    let rest = len - 64 * words;
    if rest > 0 {
        let last = answer(64 * words, rest);
        append_word(&mut out, 64 * words, last, rest)?;
    }
    Ok(out)
}
