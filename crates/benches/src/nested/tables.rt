//! Work on tables.
use crate::nested::data::{any_numbers, number_column, text_column};
use benches_timing::Work;
use columnar_memory_types::{DataType, Field, Items, Result, Text};
use nested_arrays::flat_arrays::{Int32Array, Utf8Array};
use nested_arrays::{AnyArray, Array, FlatArray, StructArray};
use std::alloc::Global;

/// How many columns the table has.
const COLUMNS: usize = 100;

/// Cuts in place of a table, each of which takes the first row away. Every second column is of numbers, the others of texts.
#[derive(Drop)]
pub(crate) struct Cut {
    alloc: Global,
    numbers: Int32Array,
    texts: Utf8Array<i32>,
    cuts: usize,
}

impl Cut {
    /// The columns have twice as many rows as are cut away.
    pub(crate) fn of(alloc: Global, cuts: usize) -> Result<Cut> {
        let rows = cuts.saturating_mul(2);
        Ok(Cut {
            alloc,
            numbers: number_column(alloc, rows)?,
            texts: text_column(alloc, rows)?,
            cuts,
        })
    }

    /// A table of columns that share their memory.
    fn table(&self) -> Result<StructArray> {
        let mut fields = Items::new(self.alloc);
        let mut columns = Vec::new(self.alloc);
        for k in 0..COLUMNS {
            let column = self.column(k % 2 == 0)?;
            let name = Text::from_str(self.alloc, "column")?;
            let data_type = column.data_type().clone()?;
            fields.push(Field::new(self.alloc, name, data_type, true))?;
            columns.push(column)?;
        }
        StructArray::try_new(DataType::Struct(fields), columns, None)
    }

    /// The numbers or the texts.
    fn column(&self, is_number: bool) -> Result<AnyArray> {
        if is_number {
            return Ok(any_numbers(self.numbers.clone()?));
        }
        Ok(AnyArray::from(FlatArray::from(self.texts.clone()?)))
    }
}

impl Work for Cut {
    type Made = StructArray;

    fn make(&self) -> Result<StructArray> {
        let mut table = self.table()?;
        for _ in 0..self.cuts {
            let rows = table.len();
            if rows > 0 {
                table.slice(1, rows - 1);
            }
        }
        Ok(table)
    }

    /// How many rows are left, and how many nulls each column has.
    fn checksum(made: &StructArray) -> u64 {
        made.values().iter().fold(made.len() as u64, |sum, column| {
            sum.wrapping_mul(31)
                .wrapping_add(column.null_count() as u64)
        })
    }
}
