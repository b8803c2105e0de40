ghost use Rattle.std.specs.Prelude.{◌≡◌, ◌⊎◌, ◌+◌, ◌*◌, ◌/◌, ◌%◌, ◌^◌, ◌<◌, ◌≤◌, length, slice_set};
ghost use Rattle.columnar_memory_bitmap.specs.bits.Bits.{bit};
ghost use Rattle.columnar_memory_kernels.specs.Writes.{WritesWord};

use columnar_memory_bitmap::bits::{low_bits, set_bit};

/// Whether bit `i` of a word is set, the least significant first.
fn word_bit(word: u64, i: usize) -> bool
    requires { i < 64 }
    ensures { result ≡ bit word i }
{
    (word >> i) & 1 == 1
}

/// Byte `k` of a word, the least significant first.
fn word_byte(word: u64, k: usize) -> u8
    requires { k < 8 }
    ensures { result ≡ word / 2 ^ (8 * k) % 2 ^ 8 }
{
    low_bits(word >> (8 * k), 8) as u8
}

/// How many whole bytes the first `n` bits of a word are over the bits from bit `first` on.
fn whole_bytes(first: usize, n: usize) -> usize
    ensures within { 8 * result ≤ n }
    ensures aligned { 0 < result → first % 8 ≡ 0 }
{
    if first % 8 == 0 { n / 8 } else { 0 }
}

/// Writes the first `n` bits of a word over the bits from bit `first` on: whole bytes where they begin at one, then the bits behind them.
pub(crate) fn write_word(to: &mut [u8], first: usize, word: u64, n: usize)
    requires few { n ≤ 64 }
    requires in_range { first + n ≤ 8 * length to.old }
    requires fits { first + n < 2 ^ 64 }
    ensures { WritesWord to.old to.new first word n }
{
    let whole = whole_bytes(first, n);
    for k in 0..whole {
        write_byte(to, first / 8 + k, word_byte(word, k));
    }
    for i in 8 * whole..n {
        set_bit(to, first + i, word_bit(word, i));
    }
}

/// Writes a byte.
fn write_byte(to: &mut [u8], place: usize, byte: u8)
    requires { place < length to.old }
    ensures { to.new ≡ slice_set to.old place byte }
{
    to[place] = byte;
}

/// How many bits a word has of some bits from bit `first` on.
pub(crate) fn bits_of_word(width: usize, first: usize, len: usize) -> usize
    requires { first < len }
    ensures few { result ≤ width }
    ensures within { first + result ≤ len }
    ensures most { (result ≡ width) ⊎ (first + result ≡ len) }
{
    width.min(len - first)
}
