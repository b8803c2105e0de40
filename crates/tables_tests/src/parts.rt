//! Tables that are joined, cut, chosen from, grown and compared.
use crate::streams::{NESTED, REPLACED, ROWS, TWO_BATCHES};
use std::alloc::Global;
use tables::nested_arrays_core::{AnyArray, FlatNode, Node, PrimitiveKind};
use tables::{Fault, Form, GrowingTable, Table, distinct, fits_schema, is_table_schema};

fn read(alloc: Global, bytes: &[u8]) -> Result<Table, Fault> {
    Table::read(alloc, Form::Stream, bytes)
}

/// The rows of two tables, where they can be joined.
fn joined(alloc: Global, first: &Table, second: &Table) -> Result<Option<Table>, Fault> {
    if !Table::can_join(first, second) {
        return Ok(None);
    }
    Ok(Some(Table::join(alloc, first, second)?))
}

/// Rows of a table, where it has so many.
fn cut(alloc: Global, table: &Table, offset: usize, length: usize) -> Result<Option<Table>, Fault> {
    if !table.in_range(offset, length) {
        return Ok(None);
    }
    Ok(Some(table.cut(alloc, offset, length)?))
}

/// Columns of a table, where they may be chosen.
fn chosen(alloc: Global, table: &Table, columns: &[usize]) -> Result<Option<Table>, Fault> {
    if !table.is_choice(columns) {
        return Ok(None);
    }
    Ok(Some(table.choose(alloc, columns)?))
}

/// A table that was grown batch by batch.
fn grown(alloc: Global, table: &Table) -> Result<Option<Table>, Fault> {
    let schema = table.schema().clone()?;
    if !is_table_schema(alloc, &schema)? {
        return Ok(None);
    }
    let mut growing = GrowingTable::new(alloc, schema);
    for batch in table.batches() {
        if !fits_schema(growing.schema(), batch) {
            return Ok(None);
        }
        growing.push(batch.clone()?)?;
    }
    Ok(Some(growing.finish()))
}

/// Whether a table that may be there has so many rows, in so many batches.
fn has(table: &Option<Table>, rows: usize, batches: usize) -> bool {
    match table {
        Some(table) => table.rows() == rows && table.batches().len() == batches,
        None => false,
    }
}

/// Whether a table that may be there is the same as another.
fn is_same(table: &Option<Table>, other: &Table) -> Result<bool, Fault> {
    match table {
        Some(table) => Table::same(table, other),
        None => Ok(false),
    }
}

/// The stored numbers of an array, if it is one of 32-bit integers.
fn numbers_in(array: &AnyArray) -> Option<&[i32]> {
    let Node::Flat(flat) = &array.node else {
        return None;
    };
    let FlatNode::Primitive(numbers) = &flat.node else {
        return None;
    };
    let values = i32::values(numbers)?;
    Some(values.as_slice())
}

/// Whether the batch of a place has one column, of these numbers.
fn has_numbers(table: &Option<Table>, place: usize, wanted: &[i32]) -> bool {
    let Some(table) = table else {
        return false;
    };
    let Some(batch) = table.batches().get(place) else {
        return false;
    };
    match batch.arrays() {
        [array] => numbers_in(array) == Some(wanted),
        _ => false,
    }
}

/// The first row of a table, joined with the rows behind it.
fn rejoined(alloc: Global, table: &Table) -> Result<Option<Table>, Fault> {
    let first = cut(alloc, table, 0, 1)?;
    let others = cut(alloc, table, 1, table.rows().saturating_sub(1))?;
    match (&first, &others) {
        (Some(first), Some(others)) => joined(alloc, first, others),
        _ => Ok(None),
    }
}

#[test]
fn a_join_has_the_rows_of_both(rt: HostRuntime) -> Result<(), Fault> {
    let alloc = rt.alloc();
    let two = read(alloc, &TWO_BATCHES)?;
    let both = rejoined(alloc, &two)?;
    let is_first = has_numbers(&both, 0, &[1]);
    let is_second = has_numbers(&both, 1, &[2, 3]);
    let has_all = has(&both, 3, 2);
    drop(both);
    drop(two);
    assert_eq!(rt; (is_first, is_second, has_all), (true, true, true));
    Ok(())
}

#[test]
fn tables_are_joined(rt: HostRuntime) -> Result<(), Fault> {
    let alloc = rt.alloc();
    let rows = read(alloc, &ROWS)?;
    let two = read(alloc, &TWO_BATCHES)?;
    let both = joined(alloc, &rows, &two)?;
    assert!(rt; has(&both, 6, 3));
    let nested = read(alloc, &NESTED)?;
    assert!(rt; joined(alloc, &rows, &nested)?.is_none());
    Ok(())
}

#[test]
fn tables_are_cut(rt: HostRuntime) -> Result<(), Fault> {
    let alloc = rt.alloc();
    let two = read(alloc, &TWO_BATCHES)?;
    let part = cut(alloc, &two, 1, 2)?;
    assert!(rt; has(&part, 2, 1));
    assert!(rt; !is_same(&part, &two)?);
    let whole = cut(alloc, &two, 0, 3)?;
    assert!(rt; is_same(&whole, &two)?);
    assert!(rt; cut(alloc, &two, 2, 2)?.is_none());
    Ok(())
}

#[test]
fn columns_are_chosen(rt: HostRuntime) -> Result<(), Fault> {
    let alloc = rt.alloc();
    let nested = read(alloc, &NESTED)?;
    let all = chosen(alloc, &nested, &[0])?;
    assert!(rt; is_same(&all, &nested)?);
    assert!(rt; has(&chosen(alloc, &nested, &[])?, 0, 0));
    assert!(rt; chosen(alloc, &nested, &[1])?.is_none());
    assert!(rt; !distinct(&[0, 1, 0]));
    Ok(())
}

#[test]
fn tables_grow(rt: HostRuntime) -> Result<(), Fault> {
    let alloc = rt.alloc();
    for bytes in [&REPLACED[..], &TWO_BATCHES[..]] {
        let table = read(alloc, bytes)?;
        let again = grown(alloc, &table)?;
        assert!(rt; is_same(&again, &table)?);
        assert!(rt; has(&again, 3, 2));
    }
    Ok(())
}

#[test]
fn a_copy_is_the_same_table(rt: HostRuntime) -> Result<(), Fault> {
    let alloc = rt.alloc();
    let table = read(alloc, &NESTED)?;
    let copy = table.clone()?;
    assert!(rt; Table::same(&copy, &table)?);
    assert_eq!(rt; copy.batches().len(), table.batches().len());
    Ok(())
}
