use crate::cases::{BYTES, LENGTHS, marked};
use columnar_memory_bitmap::{Bitmap, MutableBitmap};
use columnar_memory_kernels::{
    and, binary, binary_assign, or, quaternary, ternary, unary, unary_assign, xor,
};
use columnar_memory_types::Error;
use std::alloc::Global;
use std::test::Fail;

/// The offset of the second bitmap of a kernel.
const OTHER: u8 = 200;

#[derive(Clone, Copy)]
enum Kernel {
    Unary,
    And,
    Or,
    Xor,
    Binary,
    Ternary,
    Quaternary,
}

const KERNELS: [Kernel; 7] = [
    Kernel::Unary,
    Kernel::And,
    Kernel::Or,
    Kernel::Xor,
    Kernel::Binary,
    Kernel::Ternary,
    Kernel::Quaternary,
];

/// What a kernel's function gives of two bits.
fn wanted(kernel: Kernel, x: bool, y: bool) -> bool {
    match kernel {
        Kernel::Unary => !x,
        Kernel::And => x && y,
        Kernel::Or | Kernel::Quaternary => x || y,
        Kernel::Xor => x != y,
        Kernel::Binary => x && !y,
        Kernel::Ternary => !x && y,
    }
}

/// What a kernel gives of two bitmaps, or no bits where their lengths differ.
fn answered(alloc: Global, kernel: Kernel, a: &Bitmap, b: &Bitmap) -> Result<Bitmap, Error> {
    if a.len() != b.len() {
        return Bitmap::new(alloc);
    }
    match kernel {
        Kernel::Unary => unary(alloc, a, |x| !x),
        Kernel::And => and(alloc, a, b),
        Kernel::Or => or(alloc, a, b),
        Kernel::Xor => xor(alloc, a, b),
        Kernel::Binary => binary(alloc, a, b, |x, y| x & !y),
        Kernel::Ternary => ternary(alloc, a, b, a, |x, y, z| (x | y) ^ z),
        Kernel::Quaternary => quaternary(alloc, a, b, b, a, |x, y, z, w| (x & y) | (z ^ w)),
    }
}

/// Whether a kernel's answer on the bits from bit `offset` on is that of a loop over booleans.
fn agrees(alloc: Global, kernel: Kernel, offset: u8, len: u8) -> Result<bool, Error> {
    let all = Bitmap::from_u8_slice(alloc, &BYTES, 512)?;
    let a = all.clone()?.sliced(usize::from(offset), usize::from(len));
    let b = all.sliced(usize::from(OTHER), usize::from(len));
    let answer = answered(alloc, kernel, &a, &b)?;
    let mut agrees = answer.len() == usize::from(len);
    for i in 0..len {
        let want = wanted(kernel, marked(offset, i), marked(OTHER, i));
        agrees = agrees && answer.get(usize::from(i)) == Some(want);
    }
    Ok(agrees)
}

#[test]
fn kernels_at_every_offset(rt: HostRuntime) -> Result<(), Fail> {
    for kernel in KERNELS {
        for offset in 0..16 {
            for len in LENGTHS {
                assert!(rt; agrees(rt.alloc(), kernel, offset, len)?, "{offset} {len}");
            }
        }
    }
    Ok(())
}

#[test]
fn spare_bits_are_false(rt: HostRuntime) -> Result<(), Fail> {
    let bits = Bitmap::from_iter(rt.alloc(), [true, true, false].into_iter())?;
    let next = unary(rt.alloc(), &bits, |w| w.wrapping_add(1))?;
    assert!(rt; next == Bitmap::from_iter(rt.alloc(), [false, false, true].into_iter())?);
    Ok(())
}

/// Nine bits that are set at some places.
fn nine_bits(alloc: Global, places: &[usize]) -> Result<MutableBitmap, Error> {
    let mut bits = MutableBitmap::from_len_zeroed(alloc, 9)?;
    for place in places {
        if *place < bits.len() {
            bits.set(*place, true);
        }
    }
    Ok(bits)
}

#[test]
fn words_of_eight_bits_in_place(rt: HostRuntime) -> Result<(), Fail> {
    let mut bits = nine_bits(rt.alloc(), &[0])?;
    unary_assign(&mut bits, |w: u8| w.wrapping_add(1));
    assert!(rt; bits == nine_bits(rt.alloc(), &[1, 8])?);
    Ok(())
}

#[test]
fn words_of_64_bits_in_place(rt: HostRuntime) -> Result<(), Fail> {
    let mut bits = nine_bits(rt.alloc(), &[0])?;
    unary_assign(&mut bits, |w: u64| w.wrapping_add(1));
    assert!(rt; bits == nine_bits(rt.alloc(), &[1])?);
    Ok(())
}

#[derive(Clone, Copy)]
enum InPlace {
    NotBy16,
    NotBy32,
    XorBy8,
    OrBy64,
}

const IN_PLACE: [InPlace; 4] = [
    InPlace::NotBy16,
    InPlace::NotBy32,
    InPlace::XorBy8,
    InPlace::OrBy64,
];

/// What a kernel in place gives of two bits.
fn wanted_in_place(kernel: InPlace, x: bool, y: bool) -> bool {
    match kernel {
        InPlace::NotBy16 | InPlace::NotBy32 => !x,
        InPlace::XorBy8 => x != y,
        InPlace::OrBy64 => x || y,
    }
}

/// Changes bits by a kernel in place, where the other bits are as many.
fn change(kernel: InPlace, bits: &mut MutableBitmap, other: &Bitmap) {
    if bits.len() != other.len() {
        return;
    }
    match kernel {
        InPlace::NotBy16 => unary_assign(bits, |w: u16| !w),
        InPlace::NotBy32 => unary_assign(bits, |w: u32| !w),
        InPlace::XorBy8 => binary_assign(bits, other, |x: u8, y| x ^ y),
        InPlace::OrBy64 => binary_assign(bits, other, |x: u64, y| x | y),
    }
}

/// Whether a kernel in place changes bits as a loop over booleans does.
fn agrees_in_place(alloc: Global, kernel: InPlace, offset: u8, len: u8) -> Result<bool, Error> {
    let all = Bitmap::from_u8_slice(alloc, &BYTES, 512)?;
    let other = all.sliced(usize::from(offset), usize::from(len));
    let mut bits = MutableBitmap::from_iter(alloc, (0..len).map(|i| marked(OTHER, i)))?;
    change(kernel, &mut bits, &other);
    let bits = bits.freeze()?;
    let mut agrees = bits.len() == usize::from(len);
    for i in 0..len {
        let want = wanted_in_place(kernel, marked(OTHER, i), marked(offset, i));
        agrees = agrees && bits.get(usize::from(i)) == Some(want);
    }
    Ok(agrees)
}

#[test]
fn kernels_in_place(rt: HostRuntime) -> Result<(), Fail> {
    for kernel in IN_PLACE {
        for offset in 0..16 {
            for len in LENGTHS {
                assert!(rt;
                    agrees_in_place(rt.alloc(), kernel, offset, len)?,
                    "{offset} {len}"
                );
            }
        }
    }
    Ok(())
}
