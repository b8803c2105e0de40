use crate::cases;
use nested_arrays_nulls::arrays::{AnyArray, equal};
use nested_arrays_nulls::columnar_memory::{Boxed, DataType, Error, IntegerType};
use nested_arrays_nulls::flat_arrays::{PrimitiveArray, Utf8Array};
use nested_arrays_nulls::generic::DictionaryArray;
use nested_arrays_nulls::parts::FlatArray;
use std::alloc::Global;
use std::test::Fail;

/// Lists of the numbers 1, 2 and 3 between offsets.
fn lists(alloc: Global, offsets: &[i32]) -> Result<AnyArray, Error> {
    Ok(AnyArray::from(cases::lists(alloc, offsets)?))
}

#[test]
fn lists_are_equal_to_themselves(rt: HostRuntime) -> Result<(), Fail> {
    let array = lists(rt.alloc(), &[0, 2, 2, 3])?;
    assert_eq!(rt; array.len(), 3);
    assert!(rt; equal(&array, &array));
    Ok(())
}

#[test]
fn lists_that_are_divided_otherwise_are_not_equal(rt: HostRuntime) -> Result<(), Fail> {
    let left = lists(rt.alloc(), &[0, 2, 2, 3])?;
    let right = lists(rt.alloc(), &[0, 1, 2, 3])?;
    assert!(rt; left != right);
    Ok(())
}

/// Keys over two texts.
fn letters(alloc: Global, keys: &[i8], texts: &[&str]) -> Result<AnyArray, Error> {
    let texts: Utf8Array<i32> = Utf8Array::from_slice(alloc, texts)?;
    let texts = Box::new(alloc, AnyArray::from(FlatArray::from(texts)))?;
    let keys = PrimitiveArray::from_slice(alloc, keys)?;
    let data_type = DataType::Dictionary(
        IntegerType::Int8,
        Boxed::new(alloc, DataType::Utf8)?,
        false,
    );
    Ok(AnyArray::from(DictionaryArray::try_new(data_type, keys, texts)?))
}

#[test]
fn dictionaries_are_compared_by_value(rt: HostRuntime) -> Result<(), Fail> {
    let left = letters(rt.alloc(), &[0, 1, 0], &["a", "b"])?;
    let right = letters(rt.alloc(), &[1, 0, 1], &["b", "a"])?;
    assert!(rt; equal(&left, &right));
    Ok(())
}

#[test]
fn equal_keys_of_other_values_are_not_equal(rt: HostRuntime) -> Result<(), Fail> {
    let left = letters(rt.alloc(), &[0, 1, 0], &["a", "b"])?;
    let right = letters(rt.alloc(), &[0, 1, 0], &["b", "a"])?;
    assert!(rt; !equal(&left, &right));
    Ok(())
}
