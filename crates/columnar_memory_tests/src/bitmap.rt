ghost use Rattle.std.specs.Prelude.{◌≡◌, length, IfOk};

use crate::cases::{BYTES, LENGTHS, marked, unset};
use columnar_memory_bitmap::{Bitmap, MutableBitmap, SlicesIterator};
use columnar_memory_bits::ZipValidity;
use columnar_memory_kernels::HasChunks;
use columnar_memory_types::Error;
use either::Either;
use std::alloc::Global;
use std::test::Fail;

/// The bits from bit `offset` on, as a window.
fn window(alloc: Global, offset: u8, len: u8) -> Result<Bitmap, Error> {
    let all = Bitmap::from_u8_slice(alloc, &BYTES, 512)?;
    Ok(all.sliced(usize::from(offset), usize::from(len)))
}

/// Whether bits are those from bit `offset` on, by place and by count.
fn is_window(bits: &Bitmap, offset: u8, len: u8) -> bool {
    bits.len() == usize::from(len)
        && bits.unset_bits() == unset(offset, len)
        && (0..len).all(|i| bits.get(usize::from(i)) == Some(marked(offset, i)))
}

/// A bitmap's bits, behind bits that are set.
fn copied(alloc: Global, held: u8, bits: &Bitmap) -> Result<MutableBitmap, Error> {
    let mut copy = MutableBitmap::from_len_set(alloc, usize::from(held))?;
    copy.extend_from_bitmap(bits)?;
    Ok(copy)
}

/// Whether a copy has a bitmap's bits behind `held` that are set.
fn is_copy(copy: MutableBitmap, held: u8, bits: &Bitmap) -> Result<bool, Error> {
    let held = usize::from(held);
    if copy.unset_bits() != bits.unset_bits() || held > copy.len() {
        return Ok(false);
    }
    let len = copy.len() - held;
    Ok(copy.freeze()?.sliced(held, len) == *bits)
}

#[test]
fn copies_and_counts(rt: HostRuntime) -> Result<(), Fail> {
    for offset in 0..16 {
        for len in LENGTHS {
            let bits = window(rt.alloc(), offset, len)?;
            assert!(rt; is_window(&bits, offset, len), "{offset} {len}");
            let copy = copied(rt.alloc(), offset, &bits)?;
            assert!(rt; is_copy(copy, offset, &bits)?, "{offset} {len}");
        }
    }
    Ok(())
}

/// Whether a bitmap's storage is as said.
fn shows(bits: &Bitmap, bytes: &[u8], offset: usize, len: usize) -> bool {
    let (shown, first, count) = bits.as_slice();
    shown == bytes && first == offset && count == len
}

#[test]
fn a_slice_shows_its_bytes(rt: HostRuntime) -> Result<(), Fail> {
    let bits = Bitmap::from_u8_slice(rt.alloc(), &[0, 0, 0, 0b00010101], 27)?;
    assert!(rt; shows(&bits.sliced(22, 5), &[0, 0b00010101], 6, 5));
    Ok(())
}

#[test]
fn runs_of_true(rt: HostRuntime) -> Result<(), Fail> {
    let bits = Bitmap::from_iter(rt.alloc(), [true, true, false, true].into_iter())?;
    let mut runs = SlicesIterator::new(&bits);
    assert!(rt; runs.slots() == 3);
    for run in [(0, 2), (3, 1)] {
        assert!(rt; runs.next() == Some(run));
    }
    assert!(rt; runs.next().is_none());
    Ok(())
}

/// Bits 1, 0, then 1 three times, then 1, 1, 0.
fn grown(alloc: Global) -> Result<MutableBitmap, Error> {
    let mut bits = MutableBitmap::with_capacity(alloc, 10)?;
    bits.reserve(20)?;
    bits.push(true)?;
    bits.push(false)?;
    bits.extend_constant(3, true)?;
    bits.extend_from_slice(&[0b0110], 1, 3)?;
    Ok(bits)
}

#[test]
fn a_bitmap_grows(rt: HostRuntime) -> Result<(), Fail> {
    let mut bits = grown(rt.alloc())?;
    assert!(rt; bits.as_slice() == [0b0111_1101].as_slice());
    assert!(rt; bits.pop() == Some(false));
    assert!(rt; bits.len() == 7);
    Ok(())
}

#[test]
fn a_bitmap_is_cleared(rt: HostRuntime) -> Result<(), Fail> {
    let mut bits = grown(rt.alloc())?;
    bits.clear();
    assert!(rt; bits.is_empty());
    Ok(())
}

#[test]
fn operators_in_place(rt: HostRuntime) -> Result<(), Fail> {
    let other = Bitmap::from_u8_slice(rt.alloc(), &[0b0101_0110, 1], 9)?.sliced(1, 7);
    let mut bits = MutableBitmap::from_vec(vec![in rt.alloc(); 0b0111_1101]?, 7);
    bits ^= &other;
    assert!(rt; bits.as_slice() == [0b0101_0110].as_slice());
    let turned = !bits;
    assert!(rt; turned.as_slice() == [0b0010_1001].as_slice());
    Ok(())
}

#[test]
fn one_owner_changes_its_bits(rt: HostRuntime) -> Result<(), Fail> {
    let bits = Bitmap::new_zeroed(rt.alloc(), 9)?;
    assert!(rt; matches!(bits.clone()?.into_mut(), Either::Left(_)));
    assert!(rt; matches!(bits.into_mut(), Either::Right(_)));
    Ok(())
}

#[test]
fn a_shared_bitmap_is_copied_to_change(rt: HostRuntime) -> Result<(), Fail> {
    let bits = Bitmap::new_zeroed(rt.alloc(), 9)?;
    assert!(rt; bits.clone()?.make_mut()?.unset_bits() == 9);
    assert!(rt; MutableBitmap::from_len_zeroed(rt.alloc(), 9)?.freeze()? == bits);
    Ok(())
}

// Bits 1, 1, 0, in a vector with room for a thousand.
fn roomy(alloc: Global) -> Result<Bitmap, Error>
    ensures { IfOk result (λ bits. length bits ≡ 3) }
{
    let mut bits = MutableBitmap::with_capacity(alloc, 1000)?;
    bits.extend_constant(2, true)?;
    bits.push(false)?;
    bits.freeze()
}

// Turns each bit, and says for how many bits the vector had room that was turned.
fn turn(bitmap: &mut Bitmap) -> Result<usize, Error> {
    let mut room = 0;
    bitmap.apply_mut(|bits| {
        room = bits.capacity();
        !bits
    })?;
    Ok(room)
}

#[test]
fn the_bits_of_one_owner_are_changed_in_place(rt: HostRuntime) -> Result<(), Fail> {
    let mut one = roomy(rt.alloc())?;
    let rooms = (turn(&mut one)?, turn(&mut one)?);
    assert!(rt; rooms.0 >= 1000 && rooms.1 >= 1000);
    assert!(rt; one == roomy(rt.alloc())?);
    Ok(())
}

#[test]
fn shared_bits_are_copied_to_change(rt: HostRuntime) -> Result<(), Fail> {
    let one = roomy(rt.alloc())?;
    let mut other = one.clone()?;
    assert!(rt; turn(&mut other)? < 1000);
    assert!(rt; one.unset_bits() == 1 && other.unset_bits() == 2);
    assert!(rt; other.get(2) == Some(true));
    Ok(())
}

#[test]
fn bits_of_one_owner_behind_others_are_copied_to_change(rt: HostRuntime) -> Result<(), Fail> {
    let mut window = roomy(rt.alloc())?.sliced(1, 2);
    assert!(rt; turn(&mut window)? < 1000);
    assert!(rt; (window.get(0), window.get(1)) == (Some(false), Some(true)));
    Ok(())
}

#[test]
fn first_bits_of_one_owner_are_changed_in_place(rt: HostRuntime) -> Result<(), Fail> {
    let mut window = roomy(rt.alloc())?.sliced(0, 2);
    assert!(rt; turn(&mut window)? >= 1000);
    assert!(rt; window.len() == 2 && window.unset_bits() == 2);
    Ok(())
}

#[test]
fn too_few_bytes_are_refused(rt: HostRuntime) -> Result<(), Fail> {
    assert!(rt; Bitmap::new(rt.alloc())?.is_empty());
    assert!(rt; Bitmap::try_new(vec![in rt.alloc(); 255, 1]?, 17).is_err());
    Ok(())
}

#[test]
fn bytes_as_a_bitmap(rt: HostRuntime) -> Result<(), Fail> {
    let bits = Bitmap::try_new(vec![in rt.alloc(); 255, 1]?, 16)?;
    assert!(rt; bits.into_iter().rev().position(|bit| bit) == Some(7));
    Ok(())
}

#[test]
fn a_window_of_eight_bits_is_one_chunk(rt: HostRuntime) -> Result<(), Fail> {
    let bits = Bitmap::from_u8_slice(rt.alloc(), &[255, 1], 9)?.sliced(1, 8);
    let mut chunks = bits.chunks::<u8>();
    assert!(rt; chunks.next() == Some(255));
    assert!(rt; chunks.next().is_none() && chunks.remainder_len() == 0);
    Ok(())
}

/// What an operator gives of 1, 1, 0, 0 and 1, 0, 1, 0.
fn operated(alloc: Global, operator: &str) -> Result<Bitmap, Error> {
    let a = Bitmap::from_u8_slice(alloc, &[0b0011], 4)?;
    let b = Bitmap::from_u8_slice(alloc, &[0b0101], 4)?;
    match operator {
        "&" => &a & &b,
        "|" => &a | &b,
        "^" => &a ^ &b,
        _ => !&a,
    }
}

#[test]
fn operators_on_bitmaps(rt: HostRuntime) -> Result<(), Fail> {
    for (operator, want) in [("&", 0b0001), ("|", 0b0111), ("^", 0b0110), ("!", 0b1100)] {
        let want = Bitmap::from_u8_slice(rt.alloc(), &[want], 4)?;
        assert!(rt; operated(rt.alloc(), operator)? == want, "{operator}");
    }
    Ok(())
}

#[test]
fn a_bitmap_says_which_values_are_there(rt: HostRuntime) -> Result<(), Fail> {
    let bits = Bitmap::from_u8_slice(rt.alloc(), &[0b101], 3)?;
    let values = Vec::from_slice(rt.alloc(), &[1, 2, 3])?;
    let mut slots = ZipValidity::new_with_validity(values.into_iter(), Some(&bits));
    for slot in [Some(1), None, Some(3)] {
        assert!(rt; slots.next() == Some(slot));
    }
    Ok(())
}

#[test]
fn bits_that_are_all_set_are_no_validity(rt: HostRuntime) -> Result<(), Fail> {
    let all = MutableBitmap::from_len_set(rt.alloc(), 9)?;
    assert!(rt; Option::<Bitmap>::try_from(all)?.is_none());
    let none = MutableBitmap::from_len_zeroed(rt.alloc(), 9)?;
    let some = Option::<Bitmap>::try_from(none)?;
    assert!(rt; matches!(&some, Some(bits) if bits.len() == 9));
    Ok(())
}

#[test]
fn bits_as_text(rt: HostRuntime) -> Result<(), Fail> {
    for (offset, len, want) in [
        (0, 0, "[]"),
        (0, 8, "[0b01011011]"),
        (0, 9, "[0b01011011, 0b_______1]"),
        (0, 2, "[0b______11]"),
        (1, 2, "[0b_____01_]"),
        (6, 2, "[0b01______]"),
        (1, 9, "[0b0101101_, 0b______01]"),
        (2, 16, "[0b010110__, 0b00000001, 0b______11]"),
    ] {
        let bits = window(rt.alloc(), offset, len)?;
        assert!(rt;
            format!(in rt.alloc(); "{bits:?}")?.as_str() == want,
            "{want}"
        );
    }
    Ok(())
}
