//! Tables of chosen columns that are read from bytes.
use columnar_memory_types::{DataType, Field, Schema, Text};
use std::alloc::{AllocError, Global};
use tables::nested_arrays_cells::AnyScalar;
use tables::{Fault, Form, ReadChoice, Table, TableBuilder, distinct};

fn schema_of(alloc: Global, columns: [(&str, DataType); 2]) -> Result<Schema, AllocError> {
    let mut fields = Vec::new(alloc);
    for (name, data_type) in columns {
        let name = Text::from_str(alloc, name)?;
        fields.push(Field::new(alloc, name, data_type, true))?;
    }
    Ok(Schema::from(fields))
}

/// Pushes a row of two numbers.
fn push_pair(builder: &mut TableBuilder, first: i32, second: i32) -> Result<(), Fault> {
    builder.push_row(&[AnyScalar::Int32(first), AnyScalar::Int32(second)])
}

/// The stream of a builder's table.
fn stream_of(builder: TableBuilder, alloc: Global) -> Result<Vec<u8>, Fault> {
    let table = match builder.finish(alloc) {
        Ok(table) => table,
        Err((fault, builder)) => {
            drop(builder);
            return Err(fault);
        }
    };
    let mut bytes = Vec::new(alloc);
    table.write_stream(alloc, &mut bytes)?;
    Ok(bytes)
}

/// Columns x and y, in five batches of the rows (-1, 1) and (1, -1).
fn five_batches(alloc: Global) -> Result<Vec<u8>, Fault> {
    let schema = schema_of(alloc, [("x", DataType::Int32), ("y", DataType::Int32)])?;
    let mut builder = TableBuilder::new(alloc, schema)?;
    for _batch in 0..5 {
        push_pair(&mut builder, -1, 1)?;
        push_pair(&mut builder, 1, -1)?;
        builder.end_batch(alloc)?;
    }
    stream_of(builder, alloc)
}

/// Columns y and x, of the rows (1, -1), (-1, 1) and (1, -1).
fn three_rows(alloc: Global) -> Result<Vec<u8>, Fault> {
    let schema = schema_of(alloc, [("y", DataType::Int32), ("x", DataType::Int32)])?;
    let mut builder = TableBuilder::new(alloc, schema)?;
    push_pair(&mut builder, 1, -1)?;
    push_pair(&mut builder, -1, 1)?;
    push_pair(&mut builder, 1, -1)?;
    stream_of(builder, alloc)
}

/// A column of texts and one of numbers, of the row (é, 7).
fn text_and_number(alloc: Global) -> Result<Vec<u8>, Fault> {
    let schema = schema_of(alloc, [("text", DataType::Utf8), ("x", DataType::Int32)])?;
    let mut builder = TableBuilder::new(alloc, schema)?;
    let text = Text::from_str(alloc, "é")?;
    builder.push_row(&[AnyScalar::Text(text), AnyScalar::Int32(7)])?;
    stream_of(builder, alloc)
}

/// Writes bytes that are no UTF-8 in the place of an é.
fn spoil(bytes: &mut [u8]) {
    for byte in bytes {
        if *byte == 0xc3 {
            *byte = 0xff;
        }
    }
}

/// What is said of chosen columns that are read of a stream.
fn told(alloc: Global, bytes: &[u8], columns: &[usize], limit: Option<usize>) -> &'static str {
    if !distinct(columns) {
        return "column named twice";
    }
    match Table::read_choice(alloc, Form::Stream, bytes, columns, limit) {
        Ok(_) => "read",
        Err(fault) => fault.text(),
    }
}

#[test]
fn columns_come_in_the_asked_order(rt: HostRuntime) -> Result<(), Fault> {
    let alloc = rt.alloc();
    let bytes = five_batches(alloc)?;
    let table = Table::read_choice(alloc, Form::Stream, &bytes, &[1, 0], Some(3))?;
    assert_eq!(rt; table.batches().len(), 2);
    let expected = Table::read(alloc, Form::Stream, &three_rows(alloc)?)?;
    assert!(rt; Table::same(&table, &expected)?);
    Ok(())
}

#[test]
fn no_column_has_no_row(rt: HostRuntime) -> Result<(), Fault> {
    let alloc = rt.alloc();
    let bytes = five_batches(alloc)?;
    let table = Table::read_choice(alloc, Form::Stream, &bytes, &[], None)?;
    assert_eq!(rt; table.rows(), 0);
    assert_eq!(rt; table.batches().len(), 0);
    assert_eq!(rt; told(alloc, &bytes, &[2], None), "no such column");
    assert_eq!(rt; told(alloc, &bytes, &[1, 1], None), "column named twice");
    Ok(())
}

#[test]
fn what_is_not_chosen_refuses_nothing(rt: HostRuntime) -> Result<(), Fault> {
    let alloc = rt.alloc();
    let mut bytes = text_and_number(alloc)?;
    assert_eq!(rt; told(alloc, &bytes, &[0], None), "read");
    spoil(&mut bytes);
    assert_eq!(rt; told(alloc, &bytes, &[1], None), "read");
    assert_eq!(rt;
        told(alloc, &bytes, &[0], None),
        "ipc: out of specification"
    );
    Ok(())
}
