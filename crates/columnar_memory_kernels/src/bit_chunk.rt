ghost use Rattle.std.specs.Prelude.{◌≡◌, ℕ, ◌*◌, ◌/◌, ◌%◌, ◌^◌, ◌<◌, ◌≤◌, bit_and, bit_or, bit_xor};
ghost use Rattle.std.proofs.Common.{refl, rules};
ghost use Rattle.std.specs.Int as number;
ghost use Rattle.std.specs.Int.{bit_not, w8, w16, w32, w64};
ghost use Rattle.num_traits.specs.Laws.{bit_len};

use num_traits::PrimInt;

/// A type that has as many bits as a chunk: whole bytes of them, and no more than 64.
pub trait ChunkWidth {
    // How many bits it has.
    ghost bits: { ℕ };

    /// How many bits the type has.
    fn bits() -> usize
        ensures { result ≡ bits };

    ghost few: { bits ≤ 64 };

    ghost some: { 0 < bits };

    // It is whole bytes.
    ghost whole: { bits % 8 ≡ 0 };
}

impl ChunkWidth for u8 {
    ghost bits = { 8 };

    ghost few = { Prim.search rules };

    ghost some = { Prim.search rules };

    ghost whole = { Prim.search rules };

    fn bits() -> usize {
        8
    }
}

impl ChunkWidth for u16 {
    ghost bits = { 16 };

    ghost few = { Prim.search rules };

    ghost some = { Prim.search rules };

    ghost whole = { Prim.search rules };

    fn bits() -> usize {
        16
    }
}

impl ChunkWidth for u32 {
    ghost bits = { 32 };

    ghost few = { Prim.search rules };

    ghost some = { Prim.search rules };

    ghost whole = { Prim.search rules };

    fn bits() -> usize {
        32
    }
}

impl ChunkWidth for u64 {
    ghost bits = { 64 };

    ghost few = { Prim.search rules };

    ghost some = { Prim.search rules };

    ghost whole = { Prim.search rules };

    fn bits() -> usize {
        64
    }
}

/// An unsigned type whose bits are a chunk of booleans, the first in the least significant bit, with the operators of primitive integers. Its
/// bytes are those of this project's machines, the least significant first.
pub trait BitChunk: PrimInt + ChunkWidth {
    type Bytes;

    // The bytes of a number.
    ghost bytes: { ℕ → Self.Bytes };

    /// The value as a word, its further bits zeros.
    fn to_word(self) -> u64
        ensures { result ≡ Self.bits_of self };

    /// The value of a word that fits.
    fn from_word(word: u64) -> Self
        requires { word < 2 ^ Self.bits }
        ensures { Self.bits_of result ≡ word };

    fn to_ne_bytes(self) -> Self::Bytes
        ensures { result ≡ bytes (Self.bits_of self) };

    fn from_ne_bytes(raw: Self::Bytes) -> Self
        ensures { bytes (Self.bits_of result) ≡ raw };

    // Its bits are all that the type has.
    ghost bits_law: { Self.bits ≡ bit_len Self.width };

    // What operators make of the bits; those that a shift moves out are let go.
    ghost bits_of_not: { (a r : Self) → Self.not_gives a r → Self.bits_of r ≡ bit_not Self.width (Self.bits_of a) };

    ghost bits_of_and: { (a b r : Self) → Self.bitand_gives a b r → Self.bits_of r ≡ bit_and (Self.bits_of a) (Self.bits_of b) };

    ghost bits_of_or: { (a b r : Self) → Self.bitor_gives a b r → Self.bits_of r ≡ bit_or (Self.bits_of a) (Self.bits_of b) };

    ghost bits_of_xor: { (a b r : Self) → Self.bitxor_gives a b r → Self.bits_of r ≡ bit_xor (Self.bits_of a) (Self.bits_of b) };

    ghost bits_of_shl: { (a : Self) (k : ℕ) (r : Self) → Self.shl_gives a k r
        → Self.bits_of r ≡ Self.bits_of a * 2 ^ k % 2 ^ Self.bits };

    ghost bits_of_shr: { (a : Self) (k : ℕ) (r : Self) → Self.shr_gives a k r → Self.bits_of r ≡ Self.bits_of a / 2 ^ k };
}

impl BitChunk for u8 {
    type Bytes = [u8; 1];

    ghost bytes = { number.to_le_bytes w8 };

    ghost bits_law = { refl };

    ghost bits_of_not = { λ a r given. given };

    ghost bits_of_and = { λ a b r given. given };

    ghost bits_of_or = { λ a b r given. given };

    ghost bits_of_xor = { λ a b r given. given };

    ghost bits_of_shl = { λ a k r given. given };

    ghost bits_of_shr = { λ a k r given. given };

    fn to_word(self) -> u64 {
        u64::from(self)
    }

    fn from_word(word: u64) -> Self {
        word as u8
    }

    fn to_ne_bytes(self) -> [u8; 1] {
        self.to_le_bytes()
    }

    fn from_ne_bytes(raw: [u8; 1]) -> Self {
        u8::from_le_bytes(raw)
    }
}

impl BitChunk for u16 {
    type Bytes = [u8; 2];

    ghost bytes = { number.to_le_bytes w16 };

    ghost bits_law = { refl };

    ghost bits_of_not = { λ a r given. given };

    ghost bits_of_and = { λ a b r given. given };

    ghost bits_of_or = { λ a b r given. given };

    ghost bits_of_xor = { λ a b r given. given };

    ghost bits_of_shl = { λ a k r given. given };

    ghost bits_of_shr = { λ a k r given. given };

    fn to_word(self) -> u64 {
        u64::from(self)
    }

    fn from_word(word: u64) -> Self {
        word as u16
    }

    fn to_ne_bytes(self) -> [u8; 2] {
        self.to_le_bytes()
    }

    fn from_ne_bytes(raw: [u8; 2]) -> Self {
        u16::from_le_bytes(raw)
    }
}

impl BitChunk for u32 {
    type Bytes = [u8; 4];

    ghost bytes = { number.to_le_bytes w32 };

    ghost bits_law = { refl };

    ghost bits_of_not = { λ a r given. given };

    ghost bits_of_and = { λ a b r given. given };

    ghost bits_of_or = { λ a b r given. given };

    ghost bits_of_xor = { λ a b r given. given };

    ghost bits_of_shl = { λ a k r given. given };

    ghost bits_of_shr = { λ a k r given. given };

    fn to_word(self) -> u64 {
        u64::from(self)
    }

    fn from_word(word: u64) -> Self {
        word as u32
    }

    fn to_ne_bytes(self) -> [u8; 4] {
        self.to_le_bytes()
    }

    fn from_ne_bytes(raw: [u8; 4]) -> Self {
        u32::from_le_bytes(raw)
    }
}

impl BitChunk for u64 {
    type Bytes = [u8; 8];

    ghost bytes = { number.to_le_bytes w64 };

    ghost bits_law = { refl };

    ghost bits_of_not = { λ a r given. given };

    ghost bits_of_and = { λ a b r given. given };

    ghost bits_of_or = { λ a b r given. given };

    ghost bits_of_xor = { λ a b r given. given };

    ghost bits_of_shl = { λ a k r given. given };

    ghost bits_of_shr = { λ a k r given. given };

    fn to_word(self) -> u64 {
        u64::from(self)
    }

    fn from_word(word: u64) -> Self {
        word as u64
    }

    fn to_ne_bytes(self) -> [u8; 8] {
        self.to_le_bytes()
    }

    fn from_ne_bytes(raw: [u8; 8]) -> Self {
        u64::from_le_bytes(raw)
    }
}
