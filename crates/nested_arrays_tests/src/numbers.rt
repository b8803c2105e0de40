use nested_arrays_nulls::columnar_memory::{Bitmap, Error};
use nested_arrays_nulls::flat::{AnyPrimitive, PrimitiveKind};
use nested_arrays_nulls::flat_arrays::PrimitiveArray;
use std::alloc::{AllocError, Global};
use std::test::Fail;

fn numbers(alloc: Global) -> Result<AnyPrimitive, Error> {
    Ok(AnyPrimitive::from_array(PrimitiveArray::from_slice(alloc, &[1i32, 2, 3])?))
}

fn copied_numbers(alloc: Global) -> Result<AnyPrimitive, Error> {
    let any = numbers(alloc)?;
    let outcome: Result<_, AllocError> = any.clone();
    drop(any);
    Ok(outcome?)
}

#[test]
fn a_cut_copy_is_taken_out(rt: HostRuntime) -> Result<(), Fail> {
    let mut any = copied_numbers(rt.alloc())?;
    assert_eq!(rt; any.len(), 3);
    any.slice(1, 2);
    assert_eq!(rt; (any.len(), any.null_count()), (2, 0));
    assert!(rt; i64::values(&any).is_none());
    let array = any.into_array::<i32>().ok();
    assert!(rt;
        array.is_some_and(|array| {
            let is_two = array.value(0) == 2;
            drop(array);
            is_two
        })
    );
    Ok(())
}

fn set_zeros(any: &mut AnyPrimitive, alloc: Global, len: usize) -> Result<(), Error> {
    let mask = Bitmap::new_zeroed(alloc, len)?;
    any.set_validity(Some(mask))
}

#[test]
fn a_mask_has_the_length_of_its_array(rt: HostRuntime) -> Result<(), Fail> {
    let mut any = numbers(rt.alloc())?;
    let short = set_zeros(&mut any, rt.alloc(), 2);
    assert!(rt; matches!(short, Err(Error::InvalidArgumentError(_))));
    assert!(rt; set_zeros(&mut any, rt.alloc(), 3).is_ok());
    assert_eq!(rt; any.len(), 3);
    assert_eq!(rt; (any.null_count(), any.is_valid(2)), (3, false));
    drop(any);
    Ok(())
}
