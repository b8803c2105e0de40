ghost use Rattle.std.specs.Prelude.{◌≡◌, ℕ, ◌+◌, ◌*◌, ◌/◌, ◌%◌, ◌^◌, ◌<◌, ◌≤◌, length, slice_index};
ghost use Rattle.std.specs.Int as number;
ghost use Rattle.std.specs.Simd.Lanes.{number_l};
ghost use Rattle.columnar_memory_bits.specs.Bits.{bits_of};
ghost use Rattle.columnar_memory_bits.specs.Words.{word};

/// The number that fewer than eight bytes make, the least significant first.
fn few_bytes(bytes: &[u8]) -> u64
    requires { length bytes.now < 8 }
    ensures { result ≡ number_l 256 bytes.now }
{
    match bytes {
        [] => 0,
        [byte, more @ ..] => (few_bytes(more) << 8) | u64::from(*byte),
    }
}

/// The number that the first eight bytes make, or all where there are fewer.
fn first_bytes(bytes: &[u8]) -> u64
    ensures { (i : ℕ) → i < 64 → number.bit_at result i ≡ number.bit_at (slice_index bytes.now (i / 8)) (i % 8) }
{
    if bytes.len() < 8 {
        few_bytes(bytes)
    } else {
        u64::from_le_bytes([
            bytes[0], bytes[1], bytes[2], bytes[3], bytes[4], bytes[5], bytes[6], bytes[7],
        ])
    }
}

/// The first `len` bits of a word; its bits from there on are zeros.
pub fn low_bits(word: u64, len: usize) -> u64
    requires { len ≤ 64 }
    ensures { result ≡ word % 2 ^ len }
{
    if len == 0 {
        0
    } else {
        word & (u64::MAX >> (64 - len))
    }
}

/// The word whose bits are `len` bits of some bytes from bit `offset` on; its bits from there on are zeros.
pub fn load_word(bytes: &[u8], offset: usize, len: usize) -> u64
    requires few { len ≤ 64 }
    requires in_range { offset + len ≤ 8 * length bytes.now }
    ensures { result ≡ word (bits_of bytes.now offset len) }
{
    if len == 0 {
        return 0;
    }
    let part = &bytes[offset / 8..];
    let shift = offset % 8;
    let low = first_bytes(part) >> shift;
    let found = if shift + len <= 64 {
        low
    } else {
        low | (u64::from(part[8]) << (64 - shift))
    };
    found & (u64::MAX >> (64 - len))
}
