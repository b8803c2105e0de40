//! Work on columns of any type.
use crate::builders::columns::{Columns, builders_of, built};
use crate::builders::data::{ROWS, column_types, rows_of_cells};
use benches_timing::Work;
use columnar_memory_types::{DataType, Result};
use nested_arrays::{AnyArray, AnyMutableArray, AnyScalar, TryPushFrom};
use std::alloc::Global;

/// So many rows of cells by `try_push_scalar`.
#[derive(Drop)]
pub(crate) struct Cells {
    alloc: Global,
    types: Vec<DataType>,
    rows: Vec<Vec<AnyScalar>>,
    count: usize,
}

impl Cells {
    pub(crate) fn of(alloc: Global, count: usize) -> Result<Cells> {
        let types = column_types(alloc)?;
        let rows = rows_of_cells(alloc)?;
        Ok(Cells {
            alloc,
            types,
            rows,
            count,
        })
    }
}

/// Pushes a cell to each column.
fn push_cells(builders: &mut Vec<AnyMutableArray>, cells: &[AnyScalar]) -> Result<()> {
    for (column, builder) in builders.iter_mut().enumerate() {
        if let Some(cell) = cells.get(column) {
            builder.try_push_scalar(cell)?;
        }
    }
    Ok(())
}

impl Work for Cells {
    type Made = Columns;

    fn make(&self) -> Result<Columns> {
        let mut builders = builders_of(self.alloc, &self.types)?;
        for k in 0..self.count {
            if let Some(cells) = self.rows.get(k % ROWS) {
                push_cells(&mut builders, cells)?;
            }
        }
        built(self.alloc, &mut builders)
    }

    fn checksum(made: &Columns) -> u64 {
        made.checksum()
    }
}

/// So many rows of the slots of arrays by `try_push_from`.
#[derive(Drop)]
pub(crate) struct Copied {
    types: Vec<DataType>,
    columns: Columns,
    count: usize,
}

impl Copied {
    pub(crate) fn of(alloc: Global, count: usize) -> Result<Copied> {
        let columns = Cells::of(alloc, ROWS)?.make()?;
        let types = column_types(alloc)?;
        Ok(Copied {
            types,
            columns,
            count,
        })
    }
}

/// Pushes the slot at a place of an array, where there is one.
fn push_slot(
    alloc: Global,
    builder: &mut AnyMutableArray,
    array: &AnyArray,
    place: usize,
) -> Result<()> {
    if place < array.len() {
        builder.try_push_from(alloc, array, place)?;
    }
    Ok(())
}

/// Pushes the slot at a place of each array to the column of its type.
fn push_slots(
    alloc: Global,
    builders: &mut Vec<AnyMutableArray>,
    arrays: &[AnyArray],
    place: usize,
) -> Result<()> {
    for (column, builder) in builders.iter_mut().enumerate() {
        if let Some(array) = arrays.get(column) {
            push_slot(alloc, builder, array, place)?;
        }
    }
    Ok(())
}

impl Work for Copied {
    type Made = Columns;

    fn make(&self) -> Result<Columns> {
        let alloc = self.columns.alloc;
        let mut builders = builders_of(alloc, &self.types)?;
        for k in 0..self.count {
            push_slots(alloc, &mut builders, &self.columns.arrays, k % ROWS)?;
        }
        built(alloc, &mut builders)
    }

    fn checksum(made: &Columns) -> u64 {
        made.checksum()
    }
}
