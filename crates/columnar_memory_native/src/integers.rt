//! The integers of Rust as numbers of items.

ghost use Rattle.std.proofs.Common.{refl, rules, lit<, lit≤};

use crate::index::Index;

impl Index for i8 {
    ghost greatest = { 0x7f };

    fn to_usize(&self) -> usize {
        *self as usize
    }

    fn try_to_usize(&self) -> Option<usize> {
        if *self < 0 {
            None
        } else {
            Some(*self as usize)
        }
    }

    fn distance(&self, end: &Self) -> usize {
        (*end as i64 - *self as i64) as usize
    }

    fn from_usize(index: usize) -> Option<Self> {
        if index <= i8::MAX as usize {
            Some(index as i8)
        } else {
            None
        }
    }

    fn from_as_usize(index: usize) -> Self {
        index as i8
    }

    ghost numbers_law = { λ x. refl };

    ghost value_law = { λ x y same. same };

    ghost fits_law = { λ n. Prim.search rules };

    ghost greatest_law = { (lit≤ tt, lit< tt) };
}

impl Index for i16 {
    ghost greatest = { 0x7fff };

    fn to_usize(&self) -> usize {
        *self as usize
    }

    fn try_to_usize(&self) -> Option<usize> {
        if *self < 0 {
            None
        } else {
            Some(*self as usize)
        }
    }

    fn distance(&self, end: &Self) -> usize {
        (*end as i64 - *self as i64) as usize
    }

    fn from_usize(index: usize) -> Option<Self> {
        if index <= i16::MAX as usize {
            Some(index as i16)
        } else {
            None
        }
    }

    fn from_as_usize(index: usize) -> Self {
        index as i16
    }

    ghost numbers_law = { λ x. refl };

    ghost value_law = { λ x y same. same };

    ghost fits_law = { λ n. Prim.search rules };

    ghost greatest_law = { (lit≤ tt, lit< tt) };
}

impl Index for i32 {
    ghost greatest = { 0x7fff_ffff };

    fn to_usize(&self) -> usize {
        *self as usize
    }

    fn try_to_usize(&self) -> Option<usize> {
        if *self < 0 {
            None
        } else {
            Some(*self as usize)
        }
    }

    fn distance(&self, end: &Self) -> usize {
        (*end as i64 - *self as i64) as usize
    }

    fn from_usize(index: usize) -> Option<Self> {
        if index <= i32::MAX as usize {
            Some(index as i32)
        } else {
            None
        }
    }

    fn from_as_usize(index: usize) -> Self {
        index as i32
    }

    ghost numbers_law = { λ x. refl };

    ghost value_law = { λ x y same. same };

    ghost fits_law = { λ n. Prim.search rules };

    ghost greatest_law = { (lit≤ tt, lit< tt) };
}

impl Index for i64 {
    ghost greatest = { 0x7fff_ffff_ffff_ffff };

    fn to_usize(&self) -> usize {
        *self as usize
    }

    fn try_to_usize(&self) -> Option<usize> {
        if *self < 0 {
            None
        } else {
            Some(*self as usize)
        }
    }

    fn distance(&self, end: &Self) -> usize {
        (*end as i128 - *self as i128) as usize
    }

    fn from_usize(index: usize) -> Option<Self> {
        if index <= i64::MAX as usize {
            Some(index as i64)
        } else {
            None
        }
    }

    fn from_as_usize(index: usize) -> Self {
        index as i64
    }

    ghost numbers_law = { λ x. refl };

    ghost value_law = { λ x y same. same };

    ghost fits_law = { λ n. Prim.search rules };

    ghost greatest_law = { (lit≤ tt, lit< tt) };
}

impl Index for u8 {
    ghost greatest = { 0xff };

    fn to_usize(&self) -> usize {
        *self as usize
    }

    fn try_to_usize(&self) -> Option<usize> {
        Some(*self as usize)
    }

    fn distance(&self, end: &Self) -> usize {
        (*end - *self) as usize
    }

    fn from_usize(index: usize) -> Option<Self> {
        if index <= u8::MAX as usize {
            Some(index as u8)
        } else {
            None
        }
    }

    fn from_as_usize(index: usize) -> Self {
        index as u8
    }

    ghost numbers_law = { λ x. refl };

    ghost value_law = { λ x y same. Prim.cc };

    ghost fits_law = { λ n. Prim.search rules };

    ghost greatest_law = { (lit≤ tt, lit< tt) };
}

impl Index for u16 {
    ghost greatest = { 0xffff };

    fn to_usize(&self) -> usize {
        *self as usize
    }

    fn try_to_usize(&self) -> Option<usize> {
        Some(*self as usize)
    }

    fn distance(&self, end: &Self) -> usize {
        (*end - *self) as usize
    }

    fn from_usize(index: usize) -> Option<Self> {
        if index <= u16::MAX as usize {
            Some(index as u16)
        } else {
            None
        }
    }

    fn from_as_usize(index: usize) -> Self {
        index as u16
    }

    ghost numbers_law = { λ x. refl };

    ghost value_law = { λ x y same. Prim.cc };

    ghost fits_law = { λ n. Prim.search rules };

    ghost greatest_law = { (lit≤ tt, lit< tt) };
}

impl Index for u32 {
    ghost greatest = { 0xffff_ffff };

    fn to_usize(&self) -> usize {
        *self as usize
    }

    fn try_to_usize(&self) -> Option<usize> {
        Some(*self as usize)
    }

    fn distance(&self, end: &Self) -> usize {
        (*end - *self) as usize
    }

    fn from_usize(index: usize) -> Option<Self> {
        if index <= u32::MAX as usize {
            Some(index as u32)
        } else {
            None
        }
    }

    fn from_as_usize(index: usize) -> Self {
        index as u32
    }

    ghost numbers_law = { λ x. refl };

    ghost value_law = { λ x y same. Prim.cc };

    ghost fits_law = { λ n. Prim.search rules };

    ghost greatest_law = { (lit≤ tt, lit< tt) };
}

impl Index for u64 {
    ghost greatest = { 0xffff_ffff_ffff_ffff };

    fn to_usize(&self) -> usize {
        *self as usize
    }

    fn try_to_usize(&self) -> Option<usize> {
        Some(*self as usize)
    }

    fn distance(&self, end: &Self) -> usize {
        (*end - *self) as usize
    }

    fn from_usize(index: usize) -> Option<Self> {
        Some(index as u64)
    }

    fn from_as_usize(index: usize) -> Self {
        index as u64
    }

    ghost numbers_law = { λ x. refl };

    ghost value_law = { λ x y same. Prim.cc };

    ghost fits_law = { λ n. Prim.search rules };

    ghost greatest_law = { (lit≤ tt, lit< tt) };
}
