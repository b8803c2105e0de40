//! Bitmaps and kernels.
use columnar_memory::{Bitmap, Error, MutableBitmap, and, ternary, unary, unary_assign};
use std::alloc::Global;
use std::test::Fail;

#[test]
fn a_bitmap_is_read(rt: HostRuntime) -> Result<(), Fail> {
    let bits = Bitmap::from(rt.alloc(), &[true, false, true])?;
    assert_eq!(rt; (bits.len(), bits.unset_bits()), (3, 1));
    assert_eq!(rt;
        (bits.get(1), bits.get(2), bits.get(3)),
        (Some(false), Some(true), None)
    );
    assert_eq!(rt; bits.iter().len(), 3);
    Ok(())
}

#[test]
fn a_bitmap_grows_and_is_frozen(rt: HostRuntime) -> Result<(), Fail> {
    let mut bits = MutableBitmap::with_capacity(rt.alloc(), 3)?;
    bits.push(true)?;
    bits.extend_constant(2, false)?;
    unary_assign(&mut bits, |word: u64| !word);
    let bits = bits.freeze()?;
    assert!(rt; bits == Bitmap::from(rt.alloc(), &[false, true, true])?);
    Ok(())
}

/// Which slots of two columns are both valid, where they are as many.
fn both_valid(alloc: Global, left: &Bitmap, right: &Bitmap) -> Result<Option<Bitmap>, Error> {
    if left.len() != right.len() {
        return Ok(None);
    }
    Ok(Some(and(alloc, left, right)?))
}

/// The bits of one bitmap where a choice is set, and of another where it is not, where they are as many.
fn chosen(
    alloc: Global,
    choice: &Bitmap,
    one: &Bitmap,
    other: &Bitmap,
) -> Result<Option<Bitmap>, Error> {
    if choice.len() != one.len() || choice.len() != other.len() {
        return Ok(None);
    }
    let bits = ternary(alloc, choice, one, other, |c, x, y| (c & x) | (!c & y))?;
    Ok(Some(bits))
}

#[test]
fn bitmaps_are_combined(rt: HostRuntime) -> Result<(), Fail> {
    let left = Bitmap::from(rt.alloc(), &[true, true, false])?;
    let right = Bitmap::from(rt.alloc(), &[true, false, false])?;
    assert!(rt; both_valid(rt.alloc(), &left, &right)? == Some(right.clone()?));
    let none = unary(rt.alloc(), &left, |word| !word)?;
    assert!(rt;
        chosen(rt.alloc(), &left, &right, &none)?
            == Some(Bitmap::from(rt.alloc(), &[true, false, true])?)
    );
    Ok(())
}
