ghost use Rattle.std.specs.Prelude.{◌≡◌, ◌+◌, ◌*◌, ◌^◌, ◌<◌, ◌≤◌, length};
ghost use Rattle.columnar_memory_bits.specs.Bits.{bits_of, unset_count};

use crate::load::load_word;

/// How many of the bits from bit `offset` on, `len` of them, are not set. Where one word does not hold them, those before the first whole byte
/// are counted first, then whole words, then those behind.
pub fn count_zeros(bytes: &[u8], offset: usize, len: usize) -> usize
    requires in_range { offset + len ≤ 8 * length bytes.now }
    requires fits { offset + len < 2 ^ 64 }
    ensures { result ≡ unset_count (bits_of bytes.now offset len) }
{
    if len <= 64 {
        return len - load_word(bytes, offset, len).count_ones() as usize;
    }
    let before = len.min((8 - offset % 8) % 8);
    let mut ones = load_word(bytes, offset, before).count_ones() as usize;
    let first = (offset + before) / 8;
    let count = (len - before) / 64;
    let (words, _) = bytes[first..first + 8 * count].as_chunks::<8>();
    for word in words {
        ones += u64::from_le_bytes(*word).count_ones() as usize;
    }
    let done = before + 64 * count;
    let rest = load_word(bytes, offset + done, len - done);
    len - (ones + rest.count_ones() as usize)
}
