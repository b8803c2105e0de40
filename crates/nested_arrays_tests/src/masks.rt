use crate::cases::numbers;
use nested_arrays_nulls::access::Array;
use nested_arrays_nulls::columnar_memory::{Bitmap, Error};
use std::test::Fail;

/// How many slots of an array are null, and whether one is, through the trait.
fn nulls_of<A: Array>(array: &A) -> usize {
    array.null_count()
}

#[test]
fn a_mask_of_another_length_is_refused(rt: HostRuntime) -> Result<(), Fail> {
    let mut array = numbers(rt.alloc(), &[1, 2])?;
    let refused = array.set_validity(Some(Bitmap::new_zeroed(rt.alloc(), 3)?));
    assert!(rt; matches!(refused, Err(Error::InvalidArgumentError(_))));
    assert_eq!(rt; nulls_of(&array), 0);
    Ok(())
}

#[test]
fn a_mask_is_replaced(rt: HostRuntime) -> Result<(), Fail> {
    let array = numbers(rt.alloc(), &[1, 2])?;
    let masked = array.with_validity(Some(Bitmap::new_zeroed(rt.alloc(), 2)?))?;
    assert_eq!(rt; nulls_of(&masked), 2);
    Ok(())
}
