//! What open columns hold, taken as the columns of a batch.
ghost use Rattle.tables_rows.specs.Columns.{AreLong, TakesBatch, TakesFirst};
ghost use Rattle.tables_rows.specs.Columns.{open_count};

use crate::columns::{are_whole, keep_first, lower_fault};
use columnar_memory_types::Result as Answer;
use nested_arrays_cells::{AnyMutableArray, MutableArray};
use std::alloc::Global;
use tables_chunks::nested_arrays_core::AnyArray;
use tables_chunks::{Chunk, Fault};

/// The arrays of what the columns hold, which are left empty; or only those up to the first for which there was no memory are.
fn take_first(alloc: Global, columns: &mut Vec<AnyMutableArray>) -> Answer<Vec<AnyArray>>
    ensures { TakesFirst (λ arrays. arrays.items) columns.old.items columns.new.items result }
{
    let mut arrays = Vec::new(alloc);
    let count = columns.len();
    for place in 0..count {
        let array = columns[place].as_box(alloc)?;
        arrays.push(array)?;
    }
    Ok(arrays)
}

/// The batch of what the columns hold, all as much as the first. They are left empty, also where there was no memory.
pub(crate) fn take_batch(
    alloc: Global,
    columns: &mut Vec<AnyMutableArray>,
) -> Result<Chunk<AnyArray>, Fault>
    requires { AreLong (open_count columns.old.items) columns.old.items }
    ensures { TakesBatch columns.old.items columns.new.items result }
{
    are_whole(columns);
    match take_first(alloc, columns) {
        Ok(arrays) => Ok(Chunk::new(arrays)),
        Err(error) => {
            let count = columns.len();
            keep_first(columns, count, 0);
            Err(lower_fault(error))
        }
    }
}
