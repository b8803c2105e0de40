use nested_arrays_nulls::arrays::{AnyArray, equal};
use nested_arrays_nulls::columnar_memory::{Bitmap, Buffer, DataType, Error};
use nested_arrays_nulls::flat::AnyPrimitive;
use nested_arrays_nulls::flat_arrays::PrimitiveArray;
use nested_arrays_nulls::parts::FlatArray;
use std::alloc::Global;
use std::test::Fail;

/// Numbers of a type, the second of which is null where the mask says so.
fn numbers(
    alloc: Global,
    data_type: DataType,
    values: &[i32],
    mask: Option<Bitmap>,
) -> Result<AnyArray, Error> {
    let values = Buffer::from_vec(Vec::from_slice(alloc, values)?)?;
    let array = PrimitiveArray::try_new(data_type, values, mask)?;
    Ok(AnyArray::from(FlatArray::from(AnyPrimitive::from_array(array))))
}

fn first_of_two(alloc: Global) -> Result<Bitmap, Error> {
    Bitmap::from_u8_slice(alloc, &[1], 2)
}

#[test]
fn a_value_under_a_null_is_not_seen(rt: HostRuntime) -> Result<(), Fail> {
    let mask = Some(first_of_two(rt.alloc())?);
    let other = Some(first_of_two(rt.alloc())?);
    let left = numbers(rt.alloc(), DataType::Int32, &[1, 2], mask)?;
    let right = numbers(rt.alloc(), DataType::Int32, &[1, 3], other)?;
    assert!(rt; equal(&left, &right));
    Ok(())
}

#[test]
fn values_are_seen(rt: HostRuntime) -> Result<(), Fail> {
    let left = numbers(rt.alloc(), DataType::Int32, &[1, 2], None)?;
    let right = numbers(rt.alloc(), DataType::Int32, &[1, 3], None)?;
    assert!(rt; left != right);
    Ok(())
}

#[test]
fn another_type_is_not_equal(rt: HostRuntime) -> Result<(), Fail> {
    let left = numbers(rt.alloc(), DataType::Int32, &[1, 2], None)?;
    let right = numbers(rt.alloc(), DataType::Date32, &[1, 2], None)?;
    assert!(rt; !equal(&left, &right));
    Ok(())
}

/// More slots than are compared at once.
const LONG: usize = 3000;

fn number_at(place: usize, hidden: i32, seen: i32, last: i32) -> i32 {
    if place == LONG - 1 {
        return last;
    }
    if place % 3 == 0 { hidden } else { seen }
}

/// More numbers than are compared at once, each third of them null: the number under the nulls, that of the others, and the last one.
fn long(alloc: Global, hidden: i32, seen: i32, last: i32) -> Result<AnyArray, Error> {
    let marks = Bitmap::from_iter(alloc, (0..LONG).map(|k| k % 3 > 0))?;
    let values = (0..LONG)
        .map(|k| number_at(k, hidden, seen, last))
        .collect(alloc)?;
    let array = PrimitiveArray::try_new(DataType::Int32, Buffer::from_vec(values)?, Some(marks))?;
    Ok(AnyArray::from(FlatArray::from(AnyPrimitive::from_array(array))))
}

#[test]
fn no_value_under_a_null_is_seen_in_a_long_array(rt: HostRuntime) -> Result<(), Fail> {
    let left = long(rt.alloc(), 1, 5, 5)?;
    let right = long(rt.alloc(), 2, 5, 5)?;
    assert!(rt; equal(&left, &right));
    Ok(())
}

#[test]
fn the_last_value_of_a_long_array_is_seen(rt: HostRuntime) -> Result<(), Fail> {
    let left = long(rt.alloc(), 1, 5, 5)?;
    let right = long(rt.alloc(), 1, 5, 6)?;
    assert!(rt; !equal(&left, &right));
    Ok(())
}
