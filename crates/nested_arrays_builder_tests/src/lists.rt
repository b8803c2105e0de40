use columnar_memory_types::{Boxed, DataType, Error, Field, Items, Text};
use nested_arrays_dictionary_builders::cells::builders::AnyMutableArray;
use nested_arrays_dictionary_builders::cells::taken::MutableArray;
use nested_arrays_dictionary_builders::flat_arrays::PrimitiveArray;
use nested_arrays_dictionary_builders::nulls::Downcast;
use nested_arrays_dictionary_builders::nulls::arrays::{AnyArray, FixedSizeListArray, StructArray};
use nested_arrays_scalars::AnyScalar;
use std::alloc::Global;
use std::test::Fail;

/// The type of lists of two numbers.
fn pairs(alloc: Global) -> Result<DataType, Error> {
    let item = Field::new(alloc, Text::from_str(alloc, "item")?, DataType::Int32, true);
    Ok(DataType::FixedSizeList(Boxed::new(alloc, item)?, 2))
}

/// A list of the first numbers from 1 on.
fn list_of(alloc: Global, count: i32) -> Result<AnyScalar, Error> {
    let mut cells = Items::new(alloc);
    for i in 0..count {
        cells.push(AnyScalar::Int32(i + 1))?;
    }
    Ok(AnyScalar::List(cells))
}

/// Whether an array is of these numbers, with these bytes as its mask.
fn holds(array: AnyArray, values: &[i32], mask: &[u8]) -> bool {
    let Some(numbers) = PrimitiveArray::<i32>::downcast_ref(&array) else {
        return false;
    };
    let masked = match numbers.validity() {
        Some(bits) => bits.as_slice().0 == mask,
        None => mask.is_empty(),
    };
    masked && numbers.values().as_slice() == values
}

#[test]
fn zeros_stand_under_the_items_of_a_null(rt: HostRuntime) -> Result<(), Fail> {
    let mut builder = AnyMutableArray::new(rt.alloc(), &pairs(rt.alloc())?)?;
    builder.try_push_scalar(&list_of(rt.alloc(), 2)?)?;
    builder.push_null()?;
    let array = builder.as_box(rt.alloc())?;
    let Some(lists) = FixedSizeListArray::downcast_ref(&array) else {
        return Err(Fail::from("an array of lists"));
    };
    let items = lists.values().clone()?;
    assert!(rt; holds(items, &[1, 2, 0, 0], &[3]));
    drop(builder);
    Ok(())
}

/// The type of structs of a number and of a list of two numbers.
fn numbered(alloc: Global) -> Result<DataType, Error> {
    let mut fields = Items::new(alloc);
    fields.push(Field::new(
        alloc,
        Text::from_str(alloc, "number")?,
        DataType::Int32,
        true,
    ))?;
    fields.push(Field::new(alloc, Text::from_str(alloc, "pair")?, pairs(alloc)?, true))?;
    Ok(DataType::Struct(fields))
}

/// How many slots each of the two fields of an array of structs has.
fn field_lengths(array: AnyArray) -> Option<(usize, usize)> {
    match StructArray::downcast_ref(&array)?.values() {
        [first, second] => Some((first.len(), second.len())),
        _ => None,
    }
}

/// A row of a number and of a list of three.
fn long_row(alloc: Global) -> Result<AnyScalar, Error> {
    let mut cells = Items::new(alloc);
    cells.push(AnyScalar::Int32(5))?;
    cells.push(list_of(alloc, 3)?)?;
    Ok(AnyScalar::Record(cells))
}

/// A builder of records of a number and of a pair.
fn new_numbered(alloc: Global) -> Result<AnyMutableArray, Error> {
    let data_type = numbered(alloc)?;
    AnyMutableArray::new(alloc, &data_type)
}

/// Whether a row of a number and of a list of three is refused.
fn is_refused(builder: &mut AnyMutableArray, alloc: Global) -> Result<bool, Error> {
    let row = long_row(alloc)?;
    let refused = builder.try_push_scalar(&row);
    Ok(matches!(refused, Err(Error::InvalidArgumentError(_))))
}

#[test]
fn a_refused_row_lengthens_no_field(rt: HostRuntime) -> Result<(), Fail> {
    let mut builder = new_numbered(rt.alloc())?;
    builder.push_null()?;
    let is_refused = is_refused(&mut builder, rt.alloc());
    let array = builder.as_box(rt.alloc());
    drop(builder);
    let lengths = match array {
        Ok(array) => field_lengths(array),
        Err(_) => None,
    };
    assert!(rt; lengths == Some((1, 1)));
    assert!(rt; is_refused?);
    Ok(())
}
