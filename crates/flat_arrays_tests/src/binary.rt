use crate::cases::{bytes_of, offsets_of};
use columnar_memory_core::{DataType, Error};
use flat_arrays::BinaryArray;
use std::alloc::{AllocError, Global};
use std::test::Fail;

fn byte_strings(alloc: Global, offsets: &[i32], bytes: &[u8]) -> Result<BinaryArray<i32>, Error> {
    let offsets = offsets_of(alloc, offsets)?;
    let bytes = bytes_of(alloc, bytes)?;
    BinaryArray::try_new(DataType::Binary, offsets, bytes, None)
}

#[test]
fn offsets_stay_within_the_bytes(rt: HostRuntime) -> Result<(), Fail> {
    let past = byte_strings(rt.alloc(), &[0, 5], &[1, 2, 3, 4]);
    assert!(rt; matches!(past, Err(Error::OutOfSpec(_))));
    drop(past);
    Ok(())
}

#[test]
fn slots_are_gathered(rt: HostRuntime) -> Result<(), Fail> {
    let array: BinaryArray<i32> = BinaryArray::from(
        rt.alloc(),
        &[Some(&[1, 2][..]), None, Some(&[3][..])],
    )?;
    assert!(rt; array.values().as_slice() == [1u8, 2, 3].as_slice());
    assert!(rt; array.offsets().as_slice() == [0i32, 2, 2, 3].as_slice());
    assert!(rt; array.is_valid(0));
    assert!(rt; array.is_null(1));
    assert!(rt; array.is_valid(2));
    drop(array);
    Ok(())
}

#[test]
fn a_new_array_has_no_slot(rt: HostRuntime) -> Result<(), Fail> {
    let array: BinaryArray<i64> = BinaryArray::new_empty(rt.alloc(), DataType::LargeBinary)?;
    assert!(rt; array.is_empty());
    drop(array);
    Ok(())
}

#[test]
fn an_array_of_nulls_has_no_value(rt: HostRuntime) -> Result<(), Fail> {
    let array: BinaryArray<i32> = BinaryArray::new_null(rt.alloc(), DataType::Binary, 2)?;
    assert_eq!(rt; array.null_count(), 2);
    drop(array);
    Ok(())
}

fn two_values(alloc: Global) -> Result<BinaryArray<i32>, Error> {
    BinaryArray::from_slice(alloc, &["a", "bc"])
}

#[test]
fn values_are_copied(rt: HostRuntime) -> Result<(), Fail> {
    let array = two_values(rt.alloc())?;
    assert_eq!(rt; array.len(), 2);
    assert!(rt; array.value(1) == "bc".as_bytes());
    drop(array);
    Ok(())
}

fn is_cloned(array: &BinaryArray<i32>) -> Result<bool, AllocError> {
    let same = array.clone()?;
    let is_same = same == *array;
    drop(same);
    Ok(is_same)
}

#[test]
fn a_clone_is_equal(rt: HostRuntime) -> Result<(), Fail> {
    let array = two_values(rt.alloc())?;
    let is_cloned = is_cloned(&array);
    drop(array);
    assert!(rt; is_cloned?);
    Ok(())
}
