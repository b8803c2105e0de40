//! Arrays of one type as arrays of any type, and arrays of any type looked at as one of their type, without a copy.
use nested_arrays_nulls::Downcast;
use nested_arrays_nulls::arrays::AnyArray;
use nested_arrays_nulls::columnar_memory::{DataType, Error};
use nested_arrays_nulls::flat::{FixedSizeBinaryArray, NullArray};
use nested_arrays_nulls::flat_arrays::{BinaryArray, BooleanArray, PrimitiveArray, Utf8Array};
use std::alloc::Global;
use std::test::*;

/// The second of 32-bit numbers.
fn second_number(any: &AnyArray) -> Option<i32> {
    PrimitiveArray::<i32>::downcast_ref(any)?.get(1)
}

/// How long the second of texts is.
fn second_text(any: &AnyArray) -> Option<usize> {
    let text = Utf8Array::<i32>::downcast_ref(any)?.get(1)?;
    Some(text.len())
}

/// The second of booleans.
fn second_boolean(any: &AnyArray) -> Option<bool> {
    BooleanArray::downcast_ref(any)?.get(1)
}

#[test]
fn numbers_are_looked_at_as_numbers_alone(rt: HostRuntime) -> Result<(), Fail> {
    let numbers = AnyArray::from(PrimitiveArray::from_slice(rt.alloc(), &[7i32, 8])?);
    assert_eq!(rt; second_number(&numbers), Some(8));
    assert_eq!(rt; second_text(&numbers), None);
    assert!(rt; PrimitiveArray::<u32>::downcast_ref(&numbers).is_none());
    Ok(())
}

#[test]
fn texts_are_looked_at_as_texts_alone(rt: HostRuntime) -> Result<(), Fail> {
    let texts: Utf8Array<i32> = Utf8Array::from_slice(rt.alloc(), &["a", "two"])?;
    let any = AnyArray::from(texts);
    assert_eq!(rt; second_text(&any), Some(3));
    assert_eq!(rt; second_boolean(&any), None);
    assert!(rt; BinaryArray::<i32>::downcast_ref(&any).is_none());
    Ok(())
}

/// How many slots arrays of other kinds have as arrays of any type.
fn lengths(alloc: Global) -> Result<(usize, usize, usize, usize), Error> {
    let booleans = AnyArray::from(BooleanArray::from_slice(alloc, &[true, false])?);
    let strings: BinaryArray<i64> = BinaryArray::from_slice(alloc, &["one"])?;
    let strings = AnyArray::from(strings);
    let sized = FixedSizeBinaryArray::from_slice(alloc, &[[1u8, 2], [3, 4], [5, 6]])?;
    let sized = AnyArray::from(sized);
    let nulls = AnyArray::from(NullArray::try_new(DataType::Null, 4)?);
    Ok((booleans.len(), strings.len(), sized.len(), nulls.len()))
}

#[test]
fn arrays_of_each_kind_become_arrays_of_any_type(rt: HostRuntime) -> Result<(), Fail> {
    assert_eq!(rt; lengths(rt.alloc())?, (2, 1, 3, 4));
    Ok(())
}
