//! Callers of `tables` and of `tables_rows`, as the pages CALLING.md of these crates have them.
ghost use Rattle.std.specs.Prelude.{◌≡◌, IfOk, min};
ghost use Rattle.tables.specs.Made.{stream_of};
ghost use Rattle.tables.specs.StoredTables.{row_count};
ghost use Rattle.tables.specs.TableParts.{cut_table};

use std::alloc::Global;
use tables::columnar_memory::Error;
use tables::nested_arrays_cells::AnyScalar;
use tables::{Fault, Table, TableBuilder};

/// The stream of a table's first rows, `count` of them where there are so many.
pub fn head(alloc: Global, table: &Table, count: usize) -> Result<Vec<u8>, Fault>
    ensures { IfOk result (λ bytes. bytes.items ≡ stream_of (cut_table 0 (min count (row_count table.now)) table.now)) }
{
    let first = table.cut(alloc, 0, count.min(table.rows()))?;
    let mut bytes = Vec::new(alloc);
    first.write_stream(alloc, &mut bytes)?;
    Ok(bytes)
}

/// Pushes a row, into a batch of its own where the open rows leave no room for it.
pub fn push(builder: &mut TableBuilder, alloc: Global, row: &[AnyScalar]) -> Result<(), Fault> {
    match builder.push_row(row) {
        Err(Fault::Lower(Error::Overflow)) => {
            builder.end_batch(alloc)?;
            builder.push_row(row)
        }
        answer => answer,
    }
}
