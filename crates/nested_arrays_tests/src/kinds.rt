use crate::cases::numbers;
use nested_arrays_nulls::flat_arrays::{PrimitiveArray, Utf8Array};
use std::test::Fail;

#[test]
fn numbers_of_their_kind_come_out(rt: HostRuntime) -> Result<(), Fail> {
    let array = numbers(rt.alloc(), &[1, 2])?;
    match PrimitiveArray::<i32>::try_from(array) {
        Ok(numbers) => assert!(rt; numbers.get(1) == Some(2)),
        Err(_) => assert!(rt; false),
    }
    Ok(())
}

#[test]
fn an_array_of_another_kind_is_given_back(rt: HostRuntime) -> Result<(), Fail> {
    match Utf8Array::<i32>::try_from(numbers(rt.alloc(), &[1, 2])?) {
        Ok(_) => assert!(rt; false),
        Err(any) => assert_eq!(rt; any.len(), 2),
    }
    Ok(())
}
