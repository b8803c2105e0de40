//! Integers of 256 bits.

ghost use Rattle.std.specs.Prelude.{◌≡◌, ◌+ℤ◌, ◌*ℤ◌, ◌++◌, ◌^◌, pos, neg_ℤ, Some};
ghost use Rattle.std.specs.Int.{w128, cast_unsigned};
ghost use Rattle.std.specs.Ordering.{int_cmp, int_eq};
ghost use Rattle.std.specs.Cmp.Rules.{comparing, hashing};
ghost use Rattle.std.specs.Hash as fed;
ghost use Rattle.std.proofs.Common.{refl, rules};
ghost use Rattle.columnar_memory_native.specs.Numbers.{FitsWide, one};
ghost use Rattle.columnar_memory_native.specs.Wide.{high_half, low_half};
ghost use Rattle.columnar_memory_types.specs.declared.kinds.PrimitiveType.TheVariants as kinds;

use crate::arrays::array_of;
use crate::native_type::NativeType;
use columnar_memory_types::PrimitiveType;
use std::cmp::Ordering;
use std::hash::{Hash, Hasher};
use std::marker::Model;
use std::ops::Neg;

/// An integer of 256 bits in two's complement, which a contract sees as the integer.
#[allow(non_camel_case_types)]
#[derive(Clone, Copy, Debug)]
pub struct i256 {
    high: i128,
    low: u128,
}

impl Model for i256 {
    ghost use Rattle.std.specs.Prelude.{◌≡◌, ◌<◌, ◌^◌, ℤ, FitsSigned};
    ghost use Rattle.std.specs.Int.{w128};
    ghost use Rattle.columnar_memory_native.specs.Wide.{of_halves, high_half, low_half, high_half-of_halves, low_half-of_halves};

    ghost Value = { ℤ };

    ghost view = { λ x. of_halves x.high x.low };

    ghost invariant = { λ x. FitsSigned w128 x.high × (x.low < 2 ^ 128) };

    ghost inverse = { λ z. record { high = high_half z; low = low_half z } };

    ghost inverse_ok = { λ x h i. record { high = high_half-of_halves x.high x.low h.1 i; low = low_half-of_halves x.high x.low h.1 i } };
}

impl i256 {
    /// The integer of two words of 128 bits, of which the higher one has the sign.
    pub fn from_words(hi: i128, lo: i128) -> Self
        ensures { result ≡ hi *ℤ pos (2 ^ 128) +ℤ pos (cast_unsigned w128 lo) }
    {
        i256 {
            high: hi,
            low: lo.cast_unsigned(),
        }
    }
}

impl Default for i256 {
    ghost is_default = { λ x. x ≡ pos 0 };

    fn default() -> Self {
        i256 { high: 0, low: 0 }
    }
}

impl PartialEq for i256 {
    ghost eq = { int_eq };

    ghost laws = { Prim.search (comparing, rules) };

    fn eq(&self, other: &Self) -> bool {
        self.high == other.high && self.low == other.low
    }
}

impl Eq for i256 {
    ghost laws = { Prim.search rules };
}

impl PartialOrd for i256 {
    ghost partial_cmp = { λ x y. Some (int_cmp x y) };

    ghost laws = { Prim.search (comparing, rules) };

    fn partial_cmp(&self, other: &Self) -> Option<Ordering> {
        Some(self.cmp(other))
    }
}

impl Ord for i256 {
    ghost cmp = { int_cmp };

    ghost total = { Prim.search rules };

    ghost matches_partial_cmp = { Prim.search rules };

    ghost matches_eq = { Prim.search rules };

    fn cmp(&self, other: &Self) -> Ordering {
        if self.high == other.high {
            self.low.cmp(&other.low)
        } else {
            self.high.cmp(&other.high)
        }
    }
}

impl Hash for i256 {
    ghost hash_input = { λ z. fed.i128 (high_half z) ++ fed.u128 (low_half z) };

    ghost respects_eq = { Prim.search (hashing, rules) };

    fn hash<H: Hasher>(&self, state: &mut H) {
        self.high.hash(state);
        self.low.hash(state);
    }
}

impl Neg for i256 {
    type Output = i256;

    ghost can_neg = { λ x. FitsWide (neg_ℤ x) };

    ghost neg_gives = { λ x r. r ≡ neg_ℤ x };

    fn neg(self) -> i256 {
        if self.low == 0 {
            i256 {
                high: -self.high,
                low: 0,
            }
        } else {
            i256 {
                high: -1 - self.high,
                low: u128::MAX - self.low + 1,
            }
        }
    }
}

// Two words of bytes one after the other.
fn joined(first: &[u8; 16], second: &[u8; 16]) -> [u8; 32]
    ensures { result ≡ first.now ++ second.now }
{
    let mut bytes = [0; 32];
    bytes[..16].copy_from_slice(first);
    bytes[16..].copy_from_slice(second);
    bytes
}

impl NativeType for i256 {
    type Bytes = [u8; 32];

    ghost PRIMITIVE = { kinds.Int256 };

    ghost SIZE = { 32 };

    ghost numbers = { one };

    const PRIMITIVE: PrimitiveType = PrimitiveType::Int256;

    const SIZE: usize = 32;

    fn to_le_bytes(&self) -> [u8; 32] {
        joined(&self.low.to_le_bytes(), &self.high.to_le_bytes())
    }

    fn to_be_bytes(&self) -> [u8; 32] {
        joined(&self.high.to_be_bytes(), &self.low.to_be_bytes())
    }

    fn from_le_bytes(bytes: [u8; 32]) -> i256 {
        let low = i128::bytes_from_slice(&bytes[..16]);
        let high = i128::bytes_from_slice(&bytes[16..]);
        i256 {
            high: u128::from_le_bytes(high).cast_signed(),
            low: u128::from_le_bytes(low),
        }
    }

    fn from_be_bytes(bytes: [u8; 32]) -> i256 {
        let high = i128::bytes_from_slice(&bytes[..16]);
        let low = i128::bytes_from_slice(&bytes[16..]);
        i256 {
            high: u128::from_be_bytes(high).cast_signed(),
            low: u128::from_be_bytes(low),
        }
    }

    fn bytes_from_slice(slice: &[u8]) -> [u8; 32] {
        array_of(slice)
    }

    ghost size_law = { refl };

    ghost same_law = { λ x y same. Prim.cc };

    ghost eq_law = { λ x y. Prim.search rules };

    ghost default_law = { λ x is. Prim.cc };
}
