//! Bytes as arrays.

ghost use Rattle.std.specs.Prelude.{◌≡◌, length};

/// The bytes of a slice of just so many.
pub fn array_of<const N: usize>(slice: &[u8]) -> [u8; N]
    requires { length slice.now ≡ N }
    ensures { result ≡ slice.now }
{
    let mut bytes = [0; N];
    bytes.copy_from_slice(slice);
    bytes
}
