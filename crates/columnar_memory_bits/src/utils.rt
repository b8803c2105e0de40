ghost use Rattle.std.specs.Prelude.{◌≡◌, ◌≢◌, ℕ, ◌*◌, ◌<◌, length, if◌then◌else◌, ◌==◌};
ghost use Rattle.columnar_memory_bits.specs.Bits as format;

/// How many bytes so many bits need.
pub fn bytes_for(bits: usize) -> usize
    ensures { result ≡ format.bytes_for bits }
{
    bits.div_ceil(8)
}

/// Whether bit `i` of a byte is set, the least significant bit first.
pub fn is_set(byte: u8, i: usize) -> bool
    requires { i < 8 }
    ensures { result ≡ format.bit byte i }
{
    (byte >> i) & 1 == 1
}

/// A byte with bit `i` as given, and its other bits as they were.
pub fn set(byte: u8, i: usize, value: bool) -> u8
    requires { i < 8 }
    ensures { (j : ℕ) → format.bit result j ≡ (if j == i then value else format.bit byte j) }
{
    if value {
        byte | (1u8 << i)
    } else {
        byte & !(1u8 << i)
    }
}

/// Whether bit `i` of some bytes is set.
pub fn get_bit(bytes: &[u8], i: usize) -> bool
    requires { i < 8 * length bytes.now }
    ensures { result ≡ format.bit_at bytes.now i }
{
    is_set(bytes[i / 8], i % 8)
}

/// Writes bit `i` of some bytes, and leaves the others as they were.
pub fn set_bit(bytes: &mut [u8], i: usize, value: bool)
    requires { i < 8 * length bytes.old }
    ensures { (j : ℕ) → format.bit_at bytes.new j ≡ (if j == i then value else format.bit_at bytes.old j) }
{
    bytes[i / 8] = set(bytes[i / 8], i % 8, value);
}
