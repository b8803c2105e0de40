//! What the value of some bytes is stored as.

ghost use Rattle.std.specs.Prelude.{◌≡◌, ℕ, ◌<◌, length, slice_index};

use crate::native_type::NativeType;
use std::convert::AsSlice;

/// The bytes of the value of some bytes, the lowest first, are these bytes.
pub fn le_bytes_of_their_value<T: NativeType>(bytes: T::Bytes) -> T::Bytes
    requires { length (T.Bytes.items bytes) ≡ T.SIZE }
    ensures { T.Bytes.items result ≡ T.Bytes.items bytes }
{
    are_bytes(bytes.as_slice());
    T::from_le_bytes(bytes).to_le_bytes()
}

/// The bytes of the value of some bytes, the highest first, are these bytes.
pub fn be_bytes_of_their_value<T: NativeType>(bytes: T::Bytes) -> T::Bytes
    requires { length (T.Bytes.items bytes) ≡ T.SIZE }
    ensures { T.Bytes.items result ≡ T.Bytes.items bytes }
{
    are_bytes(bytes.as_slice());
    T::from_be_bytes(bytes).to_be_bytes()
}

/// Hands to a proof that a byte is below 256.
fn are_bytes(bytes: &[u8])
    ensures { (i : ℕ) → slice_index bytes.now i < 256 }
{
    let _len = bytes.len();
}
