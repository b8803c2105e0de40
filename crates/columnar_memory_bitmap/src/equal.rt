ghost use Rattle.std.specs.Prelude.{◌≡◌, ◌+◌, ◌*◌, ◌^◌, ◌≤◌, ◌<◌, ℕ, not, length, ◌↔◌, IsTrue};
ghost use Rattle.columnar_memory_bits.specs.Bits.{bit, bits_of};

use columnar_memory_bits::load_word;

/// How many places of a word, from the lowest on, have one value.
#[inline(always)]
pub(crate) fn equal_places(word: u64, value: bool) -> usize
    ensures within { result ≤ 64 }
    ensures same { (k : ℕ) → k < result → bit word k ≡ value }
    ensures ends { result < 64 → bit word result ≡ not value }
{
    if value {
        (!word).trailing_zeros() as usize
    } else {
        word.trailing_zeros() as usize
    }
}

/// Whether as many bits of some bytes as of some others are the same.
pub fn same_bits(
    left: &[u8],
    left_offset: usize,
    right: &[u8],
    right_offset: usize,
    len: usize,
) -> bool
    requires left_within { left_offset + len ≤ 8 * length left.now }
    requires right_within { right_offset + len ≤ 8 * length right.now }
    requires left_fits { left_offset + len < 2 ^ 64 }
    requires right_fits { right_offset + len < 2 ^ 64 }
    ensures { IsTrue result ↔ (bits_of left.now left_offset len ≡ bits_of right.now right_offset len) }
{
    let mut same = 0;
    while same < len {
        let count = (len - same).min(64);
        if load_word(left, left_offset + same, count)
            != load_word(right, right_offset + same, count)
        {
            return false;
        }
        same += count;
    }
    true
}
