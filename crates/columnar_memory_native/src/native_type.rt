//! The values of one width that a primitive array stores.

ghost use Rattle.std.specs.Prelude.{◌≡◌, ◌↔◌, ℕ, true, false, length, IsTrue};
ghost use Rattle.columnar_memory_types.specs.declared.kinds.PrimitiveType.{PrimitiveType};
ghost use Rattle.columnar_memory_native.specs.Numbers.{Numbers, IsNative, bytes_of, kind_size, numbers_in, zeros};

use columnar_memory_types::PrimitiveType;
use std::convert::AsSlice;
use std::fmt::Debug;

/// A value of one width (Arrow columnar format, "Fixed-size Primitive Layout"). `numbers` is the
/// whole numbers that it is made of.
pub trait NativeType: Copy + Debug + Default + PartialEq {
    /// The bytes of a value, an array of as many as a value takes.
    type Bytes: Copy + AsSlice<u8>;

    ghost PRIMITIVE: { PrimitiveType };

    ghost SIZE: { ℕ };

    ghost numbers: { Self → Numbers };

    /// The kind of the values.
    const PRIMITIVE: PrimitiveType;

    /// How many bytes a value takes.
    const SIZE: usize;

    /// The bytes of the value in two's complement, the lowest first. The parts of an interval stand
    /// in that order singly.
    fn to_le_bytes(&self) -> Self::Bytes
        ensures bytes { Self.Bytes.items result ≡ bytes_of PRIMITIVE true (numbers self.now) }
        ensures back { numbers_in PRIMITIVE true (Self.Bytes.items result) ≡ numbers self.now }
        ensures native { IsNative PRIMITIVE (numbers self.now) };

    /// The same, the highest byte first.
    fn to_be_bytes(&self) -> Self::Bytes
        ensures bytes { Self.Bytes.items result ≡ bytes_of PRIMITIVE false (numbers self.now) }
        ensures back { numbers_in PRIMITIVE false (Self.Bytes.items result) ≡ numbers self.now }
        ensures native { IsNative PRIMITIVE (numbers self.now) };

    /// The value of some bytes in two's complement, the lowest first.
    fn from_le_bytes(bytes: Self::Bytes) -> Self
        ensures value { numbers result ≡ numbers_in PRIMITIVE true (Self.Bytes.items bytes) }
        ensures native { IsNative PRIMITIVE (numbers result) };

    /// The value of some bytes in two's complement, the highest first.
    fn from_be_bytes(bytes: Self::Bytes) -> Self
        ensures value { numbers result ≡ numbers_in PRIMITIVE false (Self.Bytes.items bytes) }
        ensures native { IsNative PRIMITIVE (numbers result) };

    /// The bytes of one value, copied from a slice of just so many.
    fn bytes_from_slice(slice: &[u8]) -> Self::Bytes
        requires { length slice.now ≡ SIZE }
        ensures { Self.Bytes.items result ≡ slice.now };

    ghost size_law: { SIZE ≡ kind_size PRIMITIVE };

    // A value is its numbers.
    ghost same_law: { (x y : Self) → numbers x ≡ numbers y → x ≡ y };

    ghost eq_law: { (x y : Self) → IsTrue (Self.eq x y) ↔ (x ≡ y) };

    ghost default_law: { (x : Self) → Self.is_default x → numbers x ≡ zeros PRIMITIVE };
}
