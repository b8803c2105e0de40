//! The integers of Rust as values of an array.

ghost use Rattle.std.specs.Prelude.{pos};
ghost use Rattle.std.proofs.Common.{ap, refl, rules};
ghost use Rattle.columnar_memory_types.specs.declared.kinds.PrimitiveType.TheVariants as kinds;
ghost use Rattle.columnar_memory_native.specs.Numbers.{one};

use crate::arrays::array_of;
use crate::native_type::NativeType;
use columnar_memory_types::PrimitiveType;

impl NativeType for i8 {
    type Bytes = [u8; 1];

    ghost PRIMITIVE = { kinds.Int8 };

    ghost SIZE = { 1 };

    ghost numbers = { one };

    const PRIMITIVE: PrimitiveType = PrimitiveType::Int8;

    const SIZE: usize = 1;

    fn to_le_bytes(&self) -> [u8; 1] {
        i8::to_le_bytes(*self)
    }

    fn to_be_bytes(&self) -> [u8; 1] {
        i8::to_be_bytes(*self)
    }

    fn from_le_bytes(bytes: [u8; 1]) -> i8 {
        i8::from_le_bytes(bytes)
    }

    fn from_be_bytes(bytes: [u8; 1]) -> i8 {
        i8::from_be_bytes(bytes)
    }

    fn bytes_from_slice(slice: &[u8]) -> [u8; 1] {
        array_of(slice)
    }

    ghost size_law = { refl };

    ghost same_law = { λ x y same. Prim.cc };

    ghost eq_law = { λ x y. Prim.search rules };

    ghost default_law = { λ x is. ap one is };
}

impl NativeType for i16 {
    type Bytes = [u8; 2];

    ghost PRIMITIVE = { kinds.Int16 };

    ghost SIZE = { 2 };

    ghost numbers = { one };

    const PRIMITIVE: PrimitiveType = PrimitiveType::Int16;

    const SIZE: usize = 2;

    fn to_le_bytes(&self) -> [u8; 2] {
        i16::to_le_bytes(*self)
    }

    fn to_be_bytes(&self) -> [u8; 2] {
        i16::to_be_bytes(*self)
    }

    fn from_le_bytes(bytes: [u8; 2]) -> i16 {
        i16::from_le_bytes(bytes)
    }

    fn from_be_bytes(bytes: [u8; 2]) -> i16 {
        i16::from_be_bytes(bytes)
    }

    fn bytes_from_slice(slice: &[u8]) -> [u8; 2] {
        array_of(slice)
    }

    ghost size_law = { refl };

    ghost same_law = { λ x y same. Prim.cc };

    ghost eq_law = { λ x y. Prim.search rules };

    ghost default_law = { λ x is. ap one is };
}

impl NativeType for i32 {
    type Bytes = [u8; 4];

    ghost PRIMITIVE = { kinds.Int32 };

    ghost SIZE = { 4 };

    ghost numbers = { one };

    const PRIMITIVE: PrimitiveType = PrimitiveType::Int32;

    const SIZE: usize = 4;

    fn to_le_bytes(&self) -> [u8; 4] {
        i32::to_le_bytes(*self)
    }

    fn to_be_bytes(&self) -> [u8; 4] {
        i32::to_be_bytes(*self)
    }

    fn from_le_bytes(bytes: [u8; 4]) -> i32 {
        i32::from_le_bytes(bytes)
    }

    fn from_be_bytes(bytes: [u8; 4]) -> i32 {
        i32::from_be_bytes(bytes)
    }

    fn bytes_from_slice(slice: &[u8]) -> [u8; 4] {
        array_of(slice)
    }

    ghost size_law = { refl };

    ghost same_law = { λ x y same. Prim.cc };

    ghost eq_law = { λ x y. Prim.search rules };

    ghost default_law = { λ x is. ap one is };
}

impl NativeType for i64 {
    type Bytes = [u8; 8];

    ghost PRIMITIVE = { kinds.Int64 };

    ghost SIZE = { 8 };

    ghost numbers = { one };

    const PRIMITIVE: PrimitiveType = PrimitiveType::Int64;

    const SIZE: usize = 8;

    fn to_le_bytes(&self) -> [u8; 8] {
        i64::to_le_bytes(*self)
    }

    fn to_be_bytes(&self) -> [u8; 8] {
        i64::to_be_bytes(*self)
    }

    fn from_le_bytes(bytes: [u8; 8]) -> i64 {
        i64::from_le_bytes(bytes)
    }

    fn from_be_bytes(bytes: [u8; 8]) -> i64 {
        i64::from_be_bytes(bytes)
    }

    fn bytes_from_slice(slice: &[u8]) -> [u8; 8] {
        array_of(slice)
    }

    ghost size_law = { refl };

    ghost same_law = { λ x y same. Prim.cc };

    ghost eq_law = { λ x y. Prim.search rules };

    ghost default_law = { λ x is. ap one is };
}

impl NativeType for i128 {
    type Bytes = [u8; 16];

    ghost PRIMITIVE = { kinds.Int128 };

    ghost SIZE = { 16 };

    ghost numbers = { one };

    const PRIMITIVE: PrimitiveType = PrimitiveType::Int128;

    const SIZE: usize = 16;

    fn to_le_bytes(&self) -> [u8; 16] {
        i128::to_le_bytes(*self)
    }

    fn to_be_bytes(&self) -> [u8; 16] {
        i128::to_be_bytes(*self)
    }

    fn from_le_bytes(bytes: [u8; 16]) -> i128 {
        i128::from_le_bytes(bytes)
    }

    fn from_be_bytes(bytes: [u8; 16]) -> i128 {
        i128::from_be_bytes(bytes)
    }

    fn bytes_from_slice(slice: &[u8]) -> [u8; 16] {
        array_of(slice)
    }

    ghost size_law = { refl };

    ghost same_law = { λ x y same. Prim.cc };

    ghost eq_law = { λ x y. Prim.search rules };

    ghost default_law = { λ x is. ap one is };
}

impl NativeType for u8 {
    type Bytes = [u8; 1];

    ghost PRIMITIVE = { kinds.UInt8 };

    ghost SIZE = { 1 };

    ghost numbers = { λ x. one (pos x) };

    const PRIMITIVE: PrimitiveType = PrimitiveType::UInt8;

    const SIZE: usize = 1;

    fn to_le_bytes(&self) -> [u8; 1] {
        u8::to_le_bytes(*self)
    }

    fn to_be_bytes(&self) -> [u8; 1] {
        u8::to_be_bytes(*self)
    }

    fn from_le_bytes(bytes: [u8; 1]) -> u8 {
        u8::from_le_bytes(bytes)
    }

    fn from_be_bytes(bytes: [u8; 1]) -> u8 {
        u8::from_be_bytes(bytes)
    }

    fn bytes_from_slice(slice: &[u8]) -> [u8; 1] {
        array_of(slice)
    }

    ghost size_law = { refl };

    ghost same_law = { λ x y same. Prim.cc };

    ghost eq_law = { λ x y. Prim.search rules };

    ghost default_law = { λ x is. ap (λ n. one (pos n)) is };
}

impl NativeType for u16 {
    type Bytes = [u8; 2];

    ghost PRIMITIVE = { kinds.UInt16 };

    ghost SIZE = { 2 };

    ghost numbers = { λ x. one (pos x) };

    const PRIMITIVE: PrimitiveType = PrimitiveType::UInt16;

    const SIZE: usize = 2;

    fn to_le_bytes(&self) -> [u8; 2] {
        u16::to_le_bytes(*self)
    }

    fn to_be_bytes(&self) -> [u8; 2] {
        u16::to_be_bytes(*self)
    }

    fn from_le_bytes(bytes: [u8; 2]) -> u16 {
        u16::from_le_bytes(bytes)
    }

    fn from_be_bytes(bytes: [u8; 2]) -> u16 {
        u16::from_be_bytes(bytes)
    }

    fn bytes_from_slice(slice: &[u8]) -> [u8; 2] {
        array_of(slice)
    }

    ghost size_law = { refl };

    ghost same_law = { λ x y same. Prim.cc };

    ghost eq_law = { λ x y. Prim.search rules };

    ghost default_law = { λ x is. ap (λ n. one (pos n)) is };
}

impl NativeType for u32 {
    type Bytes = [u8; 4];

    ghost PRIMITIVE = { kinds.UInt32 };

    ghost SIZE = { 4 };

    ghost numbers = { λ x. one (pos x) };

    const PRIMITIVE: PrimitiveType = PrimitiveType::UInt32;

    const SIZE: usize = 4;

    fn to_le_bytes(&self) -> [u8; 4] {
        u32::to_le_bytes(*self)
    }

    fn to_be_bytes(&self) -> [u8; 4] {
        u32::to_be_bytes(*self)
    }

    fn from_le_bytes(bytes: [u8; 4]) -> u32 {
        u32::from_le_bytes(bytes)
    }

    fn from_be_bytes(bytes: [u8; 4]) -> u32 {
        u32::from_be_bytes(bytes)
    }

    fn bytes_from_slice(slice: &[u8]) -> [u8; 4] {
        array_of(slice)
    }

    ghost size_law = { refl };

    ghost same_law = { λ x y same. Prim.cc };

    ghost eq_law = { λ x y. Prim.search rules };

    ghost default_law = { λ x is. ap (λ n. one (pos n)) is };
}

impl NativeType for u64 {
    type Bytes = [u8; 8];

    ghost PRIMITIVE = { kinds.UInt64 };

    ghost SIZE = { 8 };

    ghost numbers = { λ x. one (pos x) };

    const PRIMITIVE: PrimitiveType = PrimitiveType::UInt64;

    const SIZE: usize = 8;

    fn to_le_bytes(&self) -> [u8; 8] {
        u64::to_le_bytes(*self)
    }

    fn to_be_bytes(&self) -> [u8; 8] {
        u64::to_be_bytes(*self)
    }

    fn from_le_bytes(bytes: [u8; 8]) -> u64 {
        u64::from_le_bytes(bytes)
    }

    fn from_be_bytes(bytes: [u8; 8]) -> u64 {
        u64::from_be_bytes(bytes)
    }

    fn bytes_from_slice(slice: &[u8]) -> [u8; 8] {
        array_of(slice)
    }

    ghost size_law = { refl };

    ghost same_law = { λ x y same. Prim.cc };

    ghost eq_law = { λ x y. Prim.search rules };

    ghost default_law = { λ x is. ap (λ n. one (pos n)) is };
}
