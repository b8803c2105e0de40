//! Tables that are built of rows.
use crate::samples::EXAMPLE;
use columnar_memory_types::{Boxed, DataType, Field, IntegerType, Items, Schema, Text, UnionMode};
use std::alloc::{AllocError, Global};
use tables::nested_arrays_cells::AnyScalar;
use tables::{Fault, Form, Table, TableBuilder};

fn column(alloc: Global, name: &str, data_type: DataType) -> Result<Field, AllocError> {
    let name = Text::from_str(alloc, name)?;
    Ok(Field::new(alloc, name, data_type, true))
}

/// One column of a type.
fn schema_of(alloc: Global, data_type: DataType) -> Result<Schema, AllocError> {
    let mut fields = Vec::new(alloc);
    fields.push(column(alloc, "x", data_type)?)?;
    Ok(Schema::from(fields))
}

/// A column of numbers and one of texts.
fn numbers_and_texts(alloc: Global) -> Result<Schema, AllocError> {
    let mut fields = Vec::new(alloc);
    fields.push(column(alloc, "number", DataType::Int32)?)?;
    fields.push(column(alloc, "text", DataType::Utf8)?)?;
    Ok(Schema::from(fields))
}

/// A column of texts under keys of 8 bits.
pub fn keyed_texts(alloc: Global) -> Result<Schema, AllocError> {
    let texts = Boxed::new(alloc, DataType::Utf8)?;
    schema_of(alloc, DataType::Dictionary(IntegerType::Int8, texts, false))
}

/// A column of unions.
fn unions(alloc: Global) -> Result<Schema, AllocError> {
    let mut fields = Items::new(alloc);
    fields.push(column(alloc, "number", DataType::Int32)?)?;
    schema_of(alloc, DataType::Union(fields, None, UnionMode::Sparse))
}

fn text(alloc: Global, text: &str) -> Result<AnyScalar, AllocError> {
    Ok(AnyScalar::Text(Text::from_str(alloc, text)?))
}

/// Pushes a row of one cell.
fn push_one(builder: &mut TableBuilder, cell: AnyScalar) -> Result<(), Fault> {
    builder.push_row(&[cell])
}

/// Pushes a row of a number and another cell.
fn push_two(
    builder: &mut TableBuilder,
    alloc: Global,
    number: i32,
    cell: AnyScalar,
) -> Result<(), Fault> {
    // the given cell goes in first, so that no `?` lets it go
    let mut row = Vec::new(alloc);
    row.push(cell)?;
    row.insert(0, AnyScalar::Int32(number))?;
    builder.push_row(&row)
}

/// Pushes a row of the text of a number.
pub fn push_name(builder: &mut TableBuilder, alloc: Global, k: usize) -> Result<(), Fault> {
    let name = Text::new(format!(in alloc; "{k}")?);
    builder.push_row(&[AnyScalar::Text(name)])
}

/// The table of a builder, which is let go where it is refused.
pub fn finished(builder: TableBuilder, alloc: Global) -> Result<Table, Fault> {
    match builder.finish(alloc) {
        Ok(table) => Ok(table),
        Err((fault, builder)) => {
            drop(builder);
            Err(fault)
        }
    }
}

/// A column x with the rows 7 and null, in one batch.
fn example(alloc: Global) -> Result<Table, Fault> {
    Table::read(alloc, Form::Stream, &EXAMPLE)
}

/// What is said of a row that was pushed.
fn told(answer: &Result<(), Fault>) -> &'static str {
    match answer {
        Ok(()) => "taken",
        Err(fault) => fault.text(),
    }
}

/// What is said of a builder of a schema.
fn told_of(alloc: Global, schema: Schema) -> &'static str {
    match TableBuilder::new(alloc, schema) {
        Ok(builder) => {
            drop(builder);
            "begun"
        }
        Err(fault) => fault.text(),
    }
}

#[test]
fn a_row_has_a_cell_a_column(rt: HostRuntime) -> Result<(), Fault> {
    let alloc = rt.alloc();
    let mut none = TableBuilder::new(alloc, Schema::from(Vec::new(alloc)))?;
    assert_eq!(rt; told(&none.push_row(&[])), "no columns");
    assert_eq!(rt;
        told(&push_one(&mut none, AnyScalar::Int32(1))),
        "no columns"
    );
    let mut two = TableBuilder::new(alloc, numbers_and_texts(alloc)?)?;
    assert_eq!(rt;
        told(&push_one(&mut two, AnyScalar::Int32(1))),
        "row of another width"
    );
    assert_eq!(rt; told(&two.push_row(&[])), "row of another width");
    assert_eq!(rt; two.open_rows(), 0);
    Ok(())
}

#[test]
fn a_row_that_is_refused_leaves_nothing(rt: HostRuntime) -> Result<(), Fault> {
    let alloc = rt.alloc();
    let mut builder = TableBuilder::new(alloc, numbers_and_texts(alloc)?)?;
    assert_eq!(rt;
        told(&push_two(&mut builder, alloc, 1, AnyScalar::Int32(2))),
        "lower: invalid argument"
    );
    assert_eq!(rt; builder.open_rows(), 0);
    push_two(&mut builder, alloc, 3, text(alloc, "a")?)?;
    assert_eq!(rt; builder.open_rows(), 1);
    let mut other = TableBuilder::new(alloc, numbers_and_texts(alloc)?)?;
    push_two(&mut other, alloc, 3, text(alloc, "a")?)?;
    let table = finished(builder, alloc)?;
    assert_eq!(rt; table.rows(), 1);
    assert!(rt; Table::same(&table, &finished(other, alloc)?)?);
    Ok(())
}

#[test]
fn a_batch_has_as_many_values_as_its_keys_tell_apart(rt: HostRuntime) -> Result<(), Fault> {
    let alloc = rt.alloc();
    let mut builder = TableBuilder::new(alloc, keyed_texts(alloc)?)?;
    for k in 0..128 {
        push_name(&mut builder, alloc, k)?;
    }
    assert_eq!(rt;
        told(&push_name(&mut builder, alloc, 128)),
        "lower: overflow"
    );
    push_name(&mut builder, alloc, 127)?;
    assert_eq!(rt; builder.open_rows(), 129);
    builder.end_batch(alloc)?;
    assert_eq!(rt; builder.open_rows(), 0);
    push_name(&mut builder, alloc, 128)?;
    let table = finished(builder, alloc)?;
    assert_eq!(rt; table.rows(), 130);
    assert_eq!(rt; table.batches().len(), 2);
    Ok(())
}

#[test]
fn a_union_has_no_builder(rt: HostRuntime) -> Result<(), Fault> {
    let alloc = rt.alloc();
    assert_eq!(rt; told_of(alloc, unions(alloc)?), "not sealable: union");
    Ok(())
}

/// A column x with the rows 7 and null, in two batches.
fn two_batches(alloc: Global) -> Result<Table, Fault> {
    let mut builder = TableBuilder::new(alloc, schema_of(alloc, DataType::Int32)?)?;
    push_one(&mut builder, AnyScalar::Int32(7))?;
    builder.end_batch(alloc)?;
    builder.end_batch(alloc)?;
    push_one(&mut builder, AnyScalar::Null)?;
    finished(builder, alloc)
}

#[test]
fn rows_become_the_table_that_is_read(rt: HostRuntime) -> Result<(), Fault> {
    let alloc = rt.alloc();
    let table = two_batches(alloc)?;
    assert_eq!(rt; table.batches().len(), 2);
    assert!(rt; Table::same(&table, &example(alloc)?)?);
    Ok(())
}
