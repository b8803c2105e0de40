use crate::cases::{dense, letters, lists, numbers};
use nested_arrays_nulls::access::Array;
use nested_arrays_nulls::arrays::{AnyArray, FixedSizeListArray, MapArray, StructArray, equal};
use nested_arrays_nulls::columnar_memory::{
    Bitmap, Boxed, DataType, Error, Field, Items, OffsetsBuffer, Text,
};
use nested_arrays_nulls::generic::{ListArray, ToBoxed};
use nested_arrays_nulls::iterators::ArrayPart;
use std::alloc::{AllocError, Global};
use std::test::Fail;

/// Whether a copy on the heap is equal to the array, once that is shared.
fn is_copied<A: ToBoxed>(alloc: Global, array: A) -> Result<bool, AllocError> {
    let copy = array.to_boxed(alloc)?;
    let shared = array.arced(alloc)?;
    Ok(equal(&copy, &shared))
}

fn unnamed(alloc: Global) -> Result<Text, AllocError> {
    Text::from_str(alloc, "")
}

/// The struct of arrays, whose fields have no names.
fn struct_of(
    alloc: Global,
    values: Vec<AnyArray>,
    validity: Option<Bitmap>,
) -> Result<StructArray, Error> {
    let mut fields = Items::new(alloc);
    for value in &values {
        let data_type = value.data_type().clone()?;
        fields.push(Field::new(alloc, unnamed(alloc)?, data_type, true))?;
    }
    StructArray::try_new(DataType::Struct(fields), values, validity)
}

/// Two maps of numbers, the first of one entry, the other of two.
fn maps(alloc: Global) -> Result<MapArray, Error> {
    let mut columns = Vec::new(alloc);
    columns.push(numbers(alloc, &[1, 2, 3])?)?;
    columns.push(numbers(alloc, &[4, 5, 6])?)?;
    let entries = AnyArray::from(struct_of(alloc, columns, None)?);
    let entry = Field::new(alloc, unnamed(alloc)?, entries.data_type().clone()?, false);
    MapArray::try_new(
        DataType::Map(Boxed::new(alloc, entry)?, false),
        OffsetsBuffer::try_from(Vec::from_slice(alloc, &[0i32, 1, 3])?)?,
        Box::new(alloc, entries)?,
        Some(Bitmap::from_u8_slice(alloc, &[2], 2)?),
    )
}

/// Two pairs of numbers, of which the first is null.
fn pairs(alloc: Global) -> Result<FixedSizeListArray, Error> {
    let item = Field::new(alloc, unnamed(alloc)?, DataType::Int32, true);
    FixedSizeListArray::try_new(
        DataType::FixedSizeList(Boxed::new(alloc, item)?, 2),
        Box::new(alloc, numbers(alloc, &[1, 2, 3, 4])?)?,
        Some(Bitmap::from_u8_slice(alloc, &[2], 2)?),
    )
}

fn large_lists(alloc: Global) -> Result<ListArray<i64>, Error> {
    let item = Field::new(alloc, unnamed(alloc)?, DataType::Int32, true);
    ListArray::try_new(
        DataType::LargeList(Boxed::new(alloc, item)?),
        OffsetsBuffer::try_from(Vec::from_slice(alloc, &[0i64, 2, 3])?)?,
        Box::new(alloc, numbers(alloc, &[1, 2, 3])?)?,
        None,
    )
}

/// Structs of a value of each layout, of which the second is null.
fn layouts(alloc: Global) -> Result<StructArray, Error> {
    let mut values = Vec::new(alloc);
    values.push(AnyArray::from(lists(alloc, &[0, 2, 3])?))?;
    values.push(AnyArray::from(large_lists(alloc)?))?;
    values.push(AnyArray::from(pairs(alloc)?))?;
    values.push(AnyArray::from(maps(alloc)?))?;
    values.push(AnyArray::from(dense(alloc, &[1, 0], &[7, 8])?))?;
    values.push(AnyArray::from(letters(alloc, &[1, 0], None)?))?;
    struct_of(alloc, values, Some(Bitmap::from_u8_slice(alloc, &[1], 2)?))
}

#[test]
fn a_copy_of_each_layout_is_equal(rt: HostRuntime) -> Result<(), Fail> {
    let array = AnyArray::from(layouts(rt.alloc())?);
    assert!(rt; is_copied(rt.alloc(), array)?);
    Ok(())
}

#[test]
fn structs_are_copied(rt: HostRuntime) -> Result<(), Fail> {
    let array = layouts(rt.alloc())?;
    assert!(rt; is_copied(rt.alloc(), array)?);
    Ok(())
}

#[test]
fn lists_of_one_size_are_copied(rt: HostRuntime) -> Result<(), Fail> {
    let array = pairs(rt.alloc())?;
    assert!(rt; is_copied(rt.alloc(), array)?);
    Ok(())
}

#[test]
fn maps_are_copied(rt: HostRuntime) -> Result<(), Fail> {
    let array = maps(rt.alloc())?;
    assert!(rt; is_copied(rt.alloc(), array)?);
    Ok(())
}

#[test]
fn unions_are_copied(rt: HostRuntime) -> Result<(), Fail> {
    let array = dense(rt.alloc(), &[1, 0], &[7, 8])?;
    assert!(rt; is_copied(rt.alloc(), array)?);
    Ok(())
}

#[test]
fn lists_are_copied(rt: HostRuntime) -> Result<(), Fail> {
    let array = large_lists(rt.alloc())?;
    assert!(rt; is_copied(rt.alloc(), array)?);
    Ok(())
}

#[test]
fn dictionaries_are_copied(rt: HostRuntime) -> Result<(), Fail> {
    let array = letters(rt.alloc(), &[1, 0], None)?;
    assert!(rt; is_copied(rt.alloc(), array)?);
    Ok(())
}

/// All slots but the first as an array of their own.
fn behind_the_first(array: &AnyArray) -> Result<AnyArray, AllocError> {
    if array.len() == 0 {
        return array.clone();
    }
    ArrayPart::new(array, 1, array.len() - 1).to_array()
}

#[test]
fn a_part_is_taken_out(rt: HostRuntime) -> Result<(), Fail> {
    let array = numbers(rt.alloc(), &[1, 2, 3])?;
    let part = behind_the_first(&array)?;
    let other = numbers(rt.alloc(), &[2, 3])?;
    assert!(rt; equal(&part, &other));
    drop(part);
    drop(other);
    drop(array);
    Ok(())
}
