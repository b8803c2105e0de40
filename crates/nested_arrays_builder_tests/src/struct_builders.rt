use crate::generic_lists::keep;
use columnar_memory_types::{DataType, Error, Field, Items, Text};
use nested_arrays_dictionary_builders::cells::builders::AnyMutableArray;
use nested_arrays_dictionary_builders::cells::taken::MutableArray;
use nested_arrays_dictionary_builders::nulls::arrays::{AnyArray, Node, StructArray};
use nested_arrays_dictionary_builders::nulls::columnar_memory::MutableBitmap;
use nested_arrays_dictionary_builders::{MutValues, MutableStructArray};
use nested_arrays_scalars::AnyScalar;
use std::alloc::Global;
use std::test::Fail;

/// The type of structs of a number and of a truth value.
fn flagged(alloc: Global) -> Result<DataType, Error> {
    let mut fields = Items::new(alloc);
    fields.push(Field::new(
        alloc,
        Text::from_str(alloc, "number")?,
        DataType::Int32,
        true,
    ))?;
    fields.push(Field::new(
        alloc,
        Text::from_str(alloc, "flag")?,
        DataType::Boolean,
        true,
    ))?;
    Ok(DataType::Struct(fields))
}

/// A builder of numbers, and one of truth values.
fn builders(alloc: Global) -> Result<Vec<AnyMutableArray>, Error> {
    let mut values = Vec::new(alloc);
    values.push(AnyMutableArray::new(alloc, &DataType::Int32)?)?;
    values.push(AnyMutableArray::new(alloc, &DataType::Boolean)?)?;
    Ok(values)
}

fn new_rows(alloc: Global) -> Result<MutableStructArray, Error> {
    let values = builders(alloc)?;
    let data_type = flagged(alloc)?;
    MutableStructArray::try_new(alloc, data_type, values, None)
}

/// Pushes a cell to the field at a place, where there is one.
fn push_cell(rows: &mut MutableStructArray, place: usize, cell: &AnyScalar) -> Result<(), Fail> {
    if place >= rows.values().len() {
        return Err(Fail::from("fewer fields"));
    }
    rows.value(place).try_push_scalar(cell)?;
    Ok(())
}

/// Pushes a record of a number and of a truth value.
fn push_row(rows: &mut MutableStructArray, number: i32, flag: bool) -> Result<(), Fail> {
    push_cell(rows, 0, &AnyScalar::Int32(number))?;
    push_cell(rows, 1, &AnyScalar::Boolean(flag))?;
    rows.push(true)?;
    Ok(())
}

/// How many slots an array of structs has, how many each of its two fields, and the first byte of its mask.
fn shape(array: StructArray) -> Option<(usize, usize, usize, Option<u8>)> {
    let count = array.len();
    let (data_type, fields, validity) = array.into_data();
    drop(data_type);
    let mask = match &validity {
        Some(bits) => bits.as_slice().0.first().copied(),
        None => None,
    };
    drop(validity);
    let found = if fields.len() == 2 {
        Some((count, fields[0].len(), fields[1].len(), mask))
    } else {
        None
    };
    drop(fields);
    found
}

fn shape_of_any(array: AnyArray) -> Option<(usize, usize, usize, Option<u8>)> {
    match array.into_node() {
        Node::Struct(rows) => shape(rows),
        _ => None,
    }
}

#[test]
fn records_are_pushed_field_by_field(rt: HostRuntime) -> Result<(), Fail> {
    let mut rows = new_rows(rt.alloc())?;
    rows.reserve(4)?;
    push_row(&mut rows, 1, true)?;
    rows.push_null()?;
    push_row(&mut rows, 2, false)?;
    let counts = (rows.len(), rows.values().len(), rows.is_whole());
    let masked = rows.validity().is_some();
    let array = rows.as_box(rt.alloc())?;
    assert_eq!(rt; counts, (3, 2, true));
    assert!(rt; masked && shape_of_any(array) == Some((3, 3, 3, Some(5))));
    push_row(&mut rows, 4, true)?;
    let array = rows.freeze(rt.alloc())?;
    assert_eq!(rt; shape(array), Some((1, 1, 1, None)));
    Ok(())
}

#[test]
fn records_that_are_cut_back_keep_their_fields(rt: HostRuntime) -> Result<(), Fail> {
    let mut rows = new_rows(rt.alloc())?;
    push_row(&mut rows, 1, true)?;
    rows.push_null()?;
    push_cell(&mut rows, 0, &AnyScalar::Int32(7))?;
    keep(&mut rows, 1)?;
    rows.shrink_to_fit();
    push_row(&mut rows, 3, true)?;
    let array = rows.as_arc(rt.alloc())?;
    let found = (array.len(), rows.len());
    drop(array);
    drop(rows);
    assert_eq!(rt; found, (2, 0));
    Ok(())
}

/// Whether no array was made of records that are not whole.
fn is_out_of_spec(made: Result<AnyArray, Error>) -> bool {
    matches!(made, Err(Error::OutOfSpec(_)))
}

#[test]
fn records_that_are_not_closed_make_no_array(rt: HostRuntime) -> Result<(), Fail> {
    let mut rows = new_rows(rt.alloc())?;
    push_row(&mut rows, 1, true)?;
    push_cell(&mut rows, 0, &AnyScalar::Int32(2))?;
    let is_whole = rows.is_whole();
    let is_refused = is_out_of_spec(rows.as_box(rt.alloc()));
    push_row(&mut rows, 3, true)?;
    let array = rows.as_box(rt.alloc());
    drop(rows);
    assert!(rt; !is_whole && is_refused);
    assert_eq!(rt; shape_of_any(array?), Some((1, 1, 1, None)));
    Ok(())
}

/// Takes a field's builder away, by way of the loan of all of them.
fn swap_first(rows: &mut MutableStructArray, builder: AnyMutableArray) -> Result<(), Fail> {
    let values = rows.mut_values();
    if values.len() == 0 {
        return Err(Fail::from("no fields"));
    }
    *values.value(0) = builder;
    Ok(())
}

#[test]
fn fields_of_another_type_make_no_array(rt: HostRuntime) -> Result<(), Fail> {
    let mut rows = new_rows(rt.alloc())?;
    swap_first(
        &mut rows,
        AnyMutableArray::new(rt.alloc(), &DataType::Boolean)?,
    )?;
    rows.push_null()?;
    let is_whole = rows.is_whole();
    let is_refused = is_out_of_spec(rows.as_box(rt.alloc()));
    drop(rows);
    assert!(rt; !is_whole && is_refused);
    Ok(())
}

/// A mask of one null.
fn mask_of_null(alloc: Global) -> Result<MutableBitmap, Error> {
    let mut mask = MutableBitmap::new(alloc);
    mask.push(false)?;
    Ok(mask)
}

/// A builder of the same fields with a null each, under a mask.
fn rows_of_parts(alloc: Global, mask: MutableBitmap) -> Result<MutableStructArray, Error> {
    let mut values = builders(alloc)?;
    for value in values.iter_mut() {
        value.push_null()?;
    }
    let data_type = flagged(alloc)?;
    MutableStructArray::try_new(alloc, data_type, values, Some(mask))
}

#[test]
fn records_are_made_of_parts(rt: HostRuntime) -> Result<(), Fail> {
    let rows = rows_of_parts(rt.alloc(), mask_of_null(rt.alloc())?)?;
    let (data_type, values, marks) = rows.into_inner();
    drop(data_type);
    let found = (values.len(), marks.len(), marks.null_count());
    drop(values);
    drop(marks);
    assert_eq!(rt; found, (2, 1, 1));
    let refused = rows_of_parts(rt.alloc(), MutableBitmap::new(rt.alloc()));
    let is_refused = matches!(&refused, Err(Error::OutOfSpec(_)));
    drop(refused);
    assert!(rt; is_refused);
    Ok(())
}

#[test]
fn records_begin_empty(rt: HostRuntime) -> Result<(), Fail> {
    let data_type = DataType::Int32;
    let refused = MutableStructArray::try_new(rt.alloc(), data_type, Vec::new(rt.alloc()), None);
    let is_refused = matches!(&refused, Err(Error::OutOfSpec(_)));
    drop(refused);
    assert!(rt; is_refused);
    Ok(())
}
