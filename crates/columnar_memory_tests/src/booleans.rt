use columnar_memory_bitmap::{Bitmap, MutableBitmap};
use std::test::Fail;

/// Seventy-one booleans, more than a word of bits, each third of them false.
fn thirds() -> [bool; 71] {
    let mut bits = [true; 71];
    for (i, bit) in bits.iter_mut().enumerate() {
        *bit = i % 3 != 0;
    }
    bits
}

#[test]
fn a_bitmap_has_the_booleans_of_a_slice(rt: HostRuntime) -> Result<(), Fail> {
    let bits = thirds();
    let bitmap = Bitmap::from(rt.alloc(), &bits)?;
    assert_eq!(rt; (bitmap.len(), bitmap.unset_bits()), (71, 24));
    assert!(rt; (0u8..71).all(|i| bitmap.get(usize::from(i)) == Some(i % 3 != 0)));
    drop(bitmap);
    Ok(())
}

#[test]
fn a_growing_bitmap_has_the_booleans_of_a_slice(rt: HostRuntime) -> Result<(), Fail> {
    let bits = thirds();
    let mut bitmap = MutableBitmap::from(rt.alloc(), &bits)?;
    bitmap.push(true)?;
    assert_eq!(rt; (bitmap.len(), bitmap.unset_bits()), (72, 24));
    assert!(rt; bitmap.get(70) && !bitmap.get(69) && bitmap.get(71));
    drop(bitmap);
    Ok(())
}

#[test]
fn no_booleans_are_an_empty_bitmap(rt: HostRuntime) -> Result<(), Fail> {
    let bitmap = Bitmap::from(rt.alloc(), &[])?;
    assert!(rt; bitmap.is_empty());
    drop(bitmap);
    let bitmap = MutableBitmap::from(rt.alloc(), &[])?;
    assert!(rt; bitmap.is_empty());
    drop(bitmap);
    Ok(())
}
