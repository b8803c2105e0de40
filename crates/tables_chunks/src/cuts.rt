//! Rows of a table, as windows of its batches.
ghost use Rattle.std.specs.Prelude.{◌≡◌, ◌+◌, ◌≤◌, ◌<◌, IfOk, length, true};
ghost use Rattle.tables_chunks.specs.Batches.{AreBatches, batch_len, cut_batch, cut_batches, is_batch};
ghost use Rattle.tables_chunks.specs.StoredTables.{row_count};
ghost use Rattle.tables_chunks.specs.TableParts.{CutsTable};

use crate::batches::{chunk_of, is_whole, len_of};
use crate::fault::Fault;
use crate::table::Table;
use ipc_format::Chunk;
use ipc_format::nested_arrays_core::AnyArray;
use std::alloc::{AllocError, Global};

impl Table {
    /// The `length` rows from `offset` on, with no cell copied: a window of each batch that has one of these rows, in order, under the same
    /// schema. `in_range` tests whether there are so many.
    ///
    /// # Errors
    /// - `Memory`: there was no memory.
    pub fn cut(&self, alloc: Global, offset: usize, length: usize) -> Result<Table, Fault>
        requires { offset + length ≤ row_count self.now }
        ensures { CutsTable offset length self.now result }
    {
        self.whole();
        let schema = self.schema().clone()?;
        let windows = cut_all(alloc, self.batches(), offset, length)?;
        Ok(Table::made(schema, windows, length))
    }
}

/// A window of each batch that has a row from `offset` on, of at most `length` rows in all.
fn cut_all(
    alloc: Global,
    batches: &[Chunk<AnyArray>],
    offset: usize,
    length: usize,
) -> Result<Vec<Chunk<AnyArray>>, AllocError>
    ensures { IfOk result (λ windows. windows.items ≡ cut_batches offset length batches.now) }
{
    let mut windows = Vec::new(alloc);
    let mut skipped = offset;
    let mut missing = length;
    for batch in batches {
        let rows = len_of(batch);
        let taken = missing.min(rows.saturating_sub(skipped));
        if taken > 0 {
            windows.push(window_of(alloc, batch, skipped, taken)?)?;
        }
        skipped = skipped.saturating_sub(rows);
        missing -= taken;
    }
    Ok(windows)
}

/// The `count` rows of a batch from `offset` on, in the same memory.
fn window_of(
    alloc: Global,
    batch: &Chunk<AnyArray>,
    offset: usize,
    count: usize,
) -> Result<Chunk<AnyArray>, AllocError>
    requires inside { offset + count ≤ batch_len batch.now }
    requires some { 0 < count }
    ensures { IfOk result (λ window. window ≡ cut_batch offset count batch.now) }
{
    is_whole(batch);
    let mut arrays = Vec::new(alloc);
    for array in batch.arrays() {
        let mut part = array.clone()?;
        part.slice(offset, count);
        arrays.push(part)?;
    }
    Ok(chunk_of(arrays))
}
