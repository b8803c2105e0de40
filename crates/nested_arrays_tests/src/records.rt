//! Rows of a dictionary of lists, a map, a sparse union and a list of one size, from parts that differ, and what is cut out of them.
use crate::cases::numbers;
use nested_arrays_nulls::arrays::{
    AnyArray, FixedSizeListArray, MapArray, StructArray, UnionArray, equal,
};
use nested_arrays_nulls::columnar_memory::{
    Bitmap, Boxed, Buffer, DataType, Error, Field, Items, OffsetsBuffer, Text, UnionMode,
};
use nested_arrays_nulls::flat_arrays::PrimitiveArray;
use nested_arrays_nulls::generic::{DictionaryArray, ListArray};
use std::alloc::Global;
use std::test::Fail;

/// A field of the type of a column.
fn field_of(alloc: Global, column: &AnyArray) -> Result<Field, Error> {
    let name = Text::from_str(alloc, "field")?;
    Ok(Field::new(alloc, name, column.data_type().clone()?, true))
}

fn fields_of(alloc: Global, columns: &[AnyArray]) -> Result<Items<Field>, Error> {
    let mut fields = Items::new(alloc);
    for column in columns {
        fields.push(field_of(alloc, column)?)?;
    }
    Ok(fields)
}

fn offsets(alloc: Global, offsets: &[i32]) -> Result<OffsetsBuffer<i32>, Error> {
    OffsetsBuffer::try_from(Vec::from_slice(alloc, offsets)?)
}

fn structs(alloc: Global, columns: Vec<AnyArray>) -> Result<AnyArray, Error> {
    let data_type = DataType::Struct(fields_of(alloc, &columns)?);
    Ok(AnyArray::from(StructArray::try_new(data_type, columns, None)?))
}

fn pair(alloc: Global, first: AnyArray, second: AnyArray) -> Result<Vec<AnyArray>, Error> {
    let mut columns = Vec::new(alloc);
    columns.push(first)?;
    columns.push(second)?;
    Ok(columns)
}

fn lists(alloc: Global, places: &[i32], items: AnyArray) -> Result<AnyArray, Error> {
    let data_type = DataType::List(Boxed::new(alloc, field_of(alloc, &items)?)?);
    let items = Box::new(alloc, items)?;
    Ok(AnyArray::from(ListArray::try_new(data_type, offsets(alloc, places)?, items, None)?))
}

fn dictionary(alloc: Global, keys: &[i8], values: AnyArray) -> Result<AnyArray, Error> {
    let keys = PrimitiveArray::from_slice(alloc, keys)?;
    let values = Box::new(alloc, values)?;
    Ok(AnyArray::from(DictionaryArray::try_from_keys(alloc, keys, values)?))
}

/// Maps of numbers to numbers.
fn maps(alloc: Global, places: &[i32], keys: &[i32], values: &[i32]) -> Result<AnyArray, Error> {
    let columns = pair(alloc, numbers(alloc, keys)?, numbers(alloc, values)?)?;
    let entries = structs(alloc, columns)?;
    let data_type = DataType::Map(Boxed::new(alloc, field_of(alloc, &entries)?)?, false);
    let entries = Box::new(alloc, entries)?;
    Ok(AnyArray::from(MapArray::try_new(data_type, offsets(alloc, places)?, entries, None)?))
}

/// Numbers of two columns, picked in turn.
fn unions(alloc: Global, even: &[i32], odd: &[i32]) -> Result<AnyArray, Error> {
    let columns = pair(alloc, numbers(alloc, even)?, numbers(alloc, odd)?)?;
    let data_type = DataType::Union(fields_of(alloc, &columns)?, None, UnionMode::Sparse);
    let types = Buffer::from_vec(Vec::from_slice(alloc, &[0i8, 1, 0, 1])?)?;
    Ok(AnyArray::from(UnionArray::try_new(data_type, types, columns, None)?))
}

/// Four pairs of numbers, the second of which is null.
fn pairs(alloc: Global, items: &[i32]) -> Result<AnyArray, Error> {
    let items = numbers(alloc, items)?;
    let data_type = DataType::FixedSizeList(Boxed::new(alloc, field_of(alloc, &items)?)?, 2);
    let mask = Bitmap::from_u8_slice(alloc, &[0b1101], 4)?;
    let items = Box::new(alloc, items)?;
    Ok(AnyArray::from(FixedSizeListArray::try_new(data_type, items, Some(mask))?))
}

/// Four rows.
fn rows(alloc: Global) -> Result<AnyArray, Error> {
    let values = lists(alloc, &[0, 2, 3], numbers(alloc, &[1, 2, 3])?)?;
    let mut columns = pair(
        alloc,
        dictionary(alloc, &[0, 1, 0, 1], values)?,
        maps(alloc, &[0, 1, 2, 2, 3], &[1, 2, 3], &[10, 20, 30])?,
    )?;
    columns.push(unions(alloc, &[7, 0, 8, 0], &[0, 5, 0, 6])?)?;
    columns.push(pairs(alloc, &[1, 2, 0, 0, 5, 6, 7, 8])?)?;
    structs(alloc, columns)
}

/// The same from other parts, where the union's numbers in the first row and the third are 7 and 8: values of the dictionary in another order,
/// entries before the first map, other numbers that are not picked, and others under the null.
fn other_rows(alloc: Global, first: i32, third: i32) -> Result<AnyArray, Error> {
    let values = lists(alloc, &[0, 1, 3], numbers(alloc, &[3, 1, 2])?)?;
    let mut columns = pair(
        alloc,
        dictionary(alloc, &[1, 0, 1, 0], values)?,
        maps(alloc, &[1, 2, 3, 3, 4], &[9, 1, 2, 3], &[9, 10, 20, 30])?,
    )?;
    columns.push(unions(alloc, &[first, 9, third, 9], &[9, 5, 9, 6])?)?;
    columns.push(pairs(alloc, &[1, 2, 9, 9, 5, 6, 7, 8])?)?;
    structs(alloc, columns)
}

/// The slots but the first and the last.
fn middle(array: AnyArray) -> Result<AnyArray, Error> {
    let mut array = array;
    let count = array.len();
    if count < 2 {
        return Err(Error::OutOfSpec("fewer than two slots"));
    }
    array.slice(1, count - 2);
    Ok(array)
}

#[test]
fn rows_of_other_parts_are_equal(rt: HostRuntime) -> Result<(), Fail> {
    let rows = rows(rt.alloc())?;
    assert!(rt; equal(&rows, &other_rows(rt.alloc(), 7, 8)?));
    assert!(rt; !equal(&rows, &other_rows(rt.alloc(), 7, 9)?));
    Ok(())
}

#[test]
fn a_cut_has_the_rows_in_it_alone(rt: HostRuntime) -> Result<(), Fail> {
    let rows = middle(rows(rt.alloc())?)?;
    assert!(rt; equal(&rows, &middle(other_rows(rt.alloc(), 6, 8)?)?));
    assert!(rt; !equal(&rows, &middle(other_rows(rt.alloc(), 7, 9)?)?));
    Ok(())
}

#[test]
fn a_cut_list_has_the_rows_of_a_list_of_cut_rows(rt: HostRuntime) -> Result<(), Fail> {
    let left = middle(lists(rt.alloc(), &[0, 1, 3, 4], rows(rt.alloc())?)?)?;
    let right = lists(rt.alloc(), &[0, 2], middle(other_rows(rt.alloc(), 6, 8)?)?)?;
    assert!(rt; equal(&left, &right));
    let other = lists(rt.alloc(), &[0, 2], middle(other_rows(rt.alloc(), 6, 9)?)?)?;
    assert!(rt; !equal(&left, &other));
    Ok(())
}

/// Rows as the one column of a struct.
fn wrapped(alloc: Global, rows: AnyArray) -> Result<AnyArray, Error> {
    let mut columns = Vec::new(alloc);
    columns.push(rows)?;
    structs(alloc, columns)
}

#[test]
fn a_cut_struct_has_the_rows_of_a_struct_of_cut_rows(rt: HostRuntime) -> Result<(), Fail> {
    let left = middle(wrapped(rt.alloc(), rows(rt.alloc())?)?)?;
    let right = wrapped(rt.alloc(), middle(other_rows(rt.alloc(), 6, 8)?)?)?;
    assert!(rt; equal(&left, &right));
    let other = wrapped(rt.alloc(), middle(other_rows(rt.alloc(), 6, 9)?)?)?;
    assert!(rt; !equal(&left, &other));
    Ok(())
}
