use crate::cases::{letters, lists};
use nested_arrays_nulls::access::Array;
use nested_arrays_nulls::columnar_memory::{Bitmap, Error};
use std::test::Fail;

/// Replaces the mask of an array through the trait.
fn masked<A: Array>(array: &mut A, validity: Option<Bitmap>) -> Result<(), Error> {
    array.set_validity(validity)
}

#[test]
fn lists_take_a_mask_of_their_length(rt: HostRuntime) -> Result<(), Fail> {
    let mut array = lists(rt.alloc(), &[0, 2, 2])?;
    let refused = masked(&mut array, Some(Bitmap::new_zeroed(rt.alloc(), 3)?));
    assert!(rt; matches!(refused, Err(Error::InvalidArgumentError(_))));
    assert_eq!(rt; (array.len(), array.null_count()), (2, 0));
    let mut array = array.with_validity(Some(Bitmap::from_u8_slice(rt.alloc(), &[1], 2)?))?;
    assert_eq!(rt; array.len(), 2);
    assert!(rt; Array::is_null(&array, 1));
    Array::slice(&mut array, 0, 1);
    assert_eq!(rt; Array::null_count(&array), 0);
    Ok(())
}

#[test]
fn a_mask_shows_no_key_that_names_nothing(rt: HostRuntime) -> Result<(), Fail> {
    let first = Bitmap::from_u8_slice(rt.alloc(), &[1], 2)?;
    let mut array = letters(rt.alloc(), &[0, 9], Some(first))?;
    assert!(rt;
        matches!(
            masked(&mut array, None),
            Err(Error::InvalidArgumentError(_))
        )
    );
    assert_eq!(rt; (array.len(), array.null_count()), (2, 1));
    let array = array.with_validity(Some(Bitmap::new_zeroed(rt.alloc(), 2)?))?;
    assert_eq!(rt; array.len(), 2);
    assert!(rt; Array::is_null(&array, 0));
    Ok(())
}
