//! Columns that are built slot by slot.
use nested_arrays::columnar_memory::{DataType, Error, Field, Items, Text};
use nested_arrays::flat_arrays::MutablePrimitiveArray;
use nested_arrays::{
    AnyArray, AnyMutableArray, AnyScalar, Array, MutValues, MutableArray, MutableListArray,
};
use std::alloc::Global;
use std::test::Fail;

/// Pushes a list of two numbers, one of none, and a null.
fn fill(lists: &mut MutableListArray<i32, MutablePrimitiveArray<i32>>) -> Result<(), Error> {
    lists.mut_values().push(Some(7))?;
    lists.mut_values().push(None)?;
    lists.try_push_valid()?;
    lists.try_push_valid()?;
    lists.push_null()
}

/// Lists of two numbers, of none, and a null.
pub(crate) fn lists_of_numbers(alloc: Global) -> Result<AnyArray, Error> {
    let items = MutablePrimitiveArray::<i32>::new(alloc);
    let mut lists: MutableListArray<i32, MutablePrimitiveArray<i32>> =
        MutableListArray::new_with_capacity(alloc, items, 3)?;
    fill(&mut lists)?;
    lists.as_box(alloc)
}

/// The type of records of a name and a number.
fn record_type(alloc: Global) -> Result<DataType, Error> {
    let mut fields = Items::new(alloc);
    fields.push(Field::new(alloc, Text::from_str(alloc, "name")?, DataType::Utf8, true))?;
    fields.push(Field::new(alloc, Text::from_str(alloc, "age")?, DataType::Int32, true))?;
    Ok(DataType::Struct(fields))
}

/// The record of a name and an age.
fn record(alloc: Global, name: &str, age: Option<i32>) -> Result<AnyScalar, Error> {
    let mut cells = Items::new(alloc);
    cells.push(AnyScalar::Text(Text::from_str(alloc, name)?))?;
    cells.push(match age {
        Some(age) => AnyScalar::Int32(age),
        None => AnyScalar::Null,
    })?;
    Ok(AnyScalar::Record(cells))
}

/// A column of two records and a null.
fn people(alloc: Global) -> Result<AnyArray, Error> {
    let mut builder = AnyMutableArray::new(alloc, &record_type(alloc)?)?;
    builder.try_push_scalar(&record(alloc, "Ada", Some(36))?)?;
    builder.push_null()?;
    builder.try_push_scalar(&record(alloc, "Grace", None)?)?;
    builder.as_box(alloc)
}

#[test]
fn records_are_pushed(rt: HostRuntime) -> Result<(), Fail> {
    let people = people(rt.alloc())?;
    assert_eq!(rt; (people.len(), people.null_count()), (3, 1));
    Ok(())
}

/// Whether a truth value is refused behind a number, and how many slots there are then.
fn refuses(builder: &mut AnyMutableArray) -> Result<(bool, usize), Error> {
    builder.try_push_scalar(&AnyScalar::Int32(1))?;
    let answer = builder.try_push_scalar(&AnyScalar::Boolean(true));
    let is_refused = matches!(answer, Err(Error::InvalidArgumentError(_)));
    Ok((is_refused, builder.len()))
}

#[test]
fn a_cell_of_another_type_is_refused(rt: HostRuntime) -> Result<(), Fail> {
    let mut builder = AnyMutableArray::new(rt.alloc(), &DataType::Int32)?;
    let found = refuses(&mut builder);
    drop(builder);
    assert_eq!(rt; found?, (true, 1));
    Ok(())
}
