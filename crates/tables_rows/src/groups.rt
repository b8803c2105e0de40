//! The rows of a table in groups of one size, each pushed into open columns of its own.
ghost use Rattle.std.specs.Prelude.{◌≡◌, ◌<◌, ◌==◌, ◌∷◌, [], MatchResult, length, map, true};
ghost use Rattle.std.specs.List.{list_all};
ghost use Rattle.tables_chunks.specs.Batches.{batch_len, stored_rows};
ghost use Rattle.tables_chunks.specs.SameRows.{rows_from, stored_row};
ghost use Rattle.tables_chunks.specs.declared.fault.Fault.TheVariants.{Memory};
ghost use Rattle.tables_chunks.specs.ipc_format.columns.FreshLaws.{is_buildable};
ghost use Rattle.tables_chunks.specs.ipc_format.columns.StoredColumns.{column_len, column_type, slot_at};
ghost use Rattle.nested_arrays_cells.specs.builders.Begun.{opened_none};
ghost use Rattle.nested_arrays_cells.specs.builders.BuiltTypes.{has_builder, have_builders};
ghost use Rattle.nested_arrays_cells.specs.parts.Open.{Open, opened};
ghost use Rattle.tables_rows.specs.Grouping.{GroupsRows, IsReady, PushesRow, PushesRows, PushesSlot, TakesColumns, TakesRow};
ghost use Rattle.tables_rows.specs.Grouping.{all_fit, closed, refusal_of};
ghost use Rattle.tables_rows.specs.GroupViews.{grouped};

use columnar_memory_types::{DataType, Error, Field};
use nested_arrays_cells::{AnyMutableArray, MutableArray, TryPushFrom};
use std::alloc::Global;
use tables_chunks::nested_arrays_core::AnyArray;
use tables_chunks::{Chunk, Fault, Table};

/// Rows in groups of one size: the batches of the groups that are full, the open columns of the last group, and how many rows these have.
#[derive(Drop)]
struct Groups {
    batches: Vec<Chunk<AnyArray>>,
    columns: Vec<AnyMutableArray>,
    count: usize,
}

/// No slots of a type that has a builder. An error is for want of memory.
fn begin_column(alloc: Global, data_type: &DataType) -> Result<AnyMutableArray, Fault>
    requires { has_builder data_type.now ≡ true }
    ensures { MatchResult result (λ column. column ≡ opened data_type.now []) (λ fault. fault ≡ Memory) }
{
    Ok(AnyMutableArray::new(alloc, data_type)?)
}

/// Builders of columns without slots, of the type of each field, which have builders. An error is for want of memory.
pub fn begin_columns(alloc: Global, fields: &[Field]) -> Result<Vec<AnyMutableArray>, Fault>
    requires { have_builders fields.now ≡ true }
    ensures { MatchResult result (λ columns. columns.items ≡ opened_none fields.now) (λ fault. fault ≡ Memory) }
{
    let mut columns = Vec::new(alloc);
    for field in fields {
        columns.push(begin_column(alloc, &field.data_type)?)?;
    }
    Ok(columns)
}

/// What a push of a slot that is refused is called: that it doesn't fit its column, where there was memory.
fn refusal_of(error: Error) -> Fault
    ensures { result ≡ refusal_of error }
{
    match error {
        Error::OutOfMemory => Fault::Memory,
        _ => Fault::Lower(Error::Overflow),
    }
}

/// Pushes the slot at a place of an array into a column of its type.
///
/// # Errors
/// - `Lower(Overflow)`: the slots with this one don't fit the type.
/// - `Memory`: there was no memory.
fn push_slot(
    alloc: Global,
    column: &mut AnyMutableArray,
    array: &AnyArray,
    row: usize,
) -> Result<(), Fault>
    requires inside { row < column_len array.now }
    requires typed { column.old.data_type ≡ column_type array.now }
    ensures { PushesSlot column.old (slot_at array.now row) result column.new }
{
    match column.try_push_from(alloc, array, row) {
        Ok(()) => Ok(()),
        Err(error) => Err(refusal_of(error)),
    }
}

/// Pushes the row at a place of arrays into columns of their types.
///
/// # Errors
/// - `Lower(Overflow)`: the slots of a column with that of this row don't fit its type.
/// - `Memory`: there was no memory.
fn push_row(
    alloc: Global,
    columns: &mut Vec<AnyMutableArray>,
    arrays: &[AnyArray],
    row: usize,
) -> Result<(), Fault>
    requires { TakesRow columns.old.items arrays.now row }
    ensures { PushesRow columns.old.items (stored_row arrays.now row) result columns.new.items }
{
    for k in 0..arrays.len() {
        push_slot(alloc, &mut columns[k], &arrays[k], row)?;
    }
    Ok(())
}

/// The arrays of columns, which are left empty. An error is for want of memory.
fn take_columns(alloc: Global, columns: &mut Vec<AnyMutableArray>) -> Result<Vec<AnyArray>, Fault>
    ensures { TakesColumns columns.old.items result columns.new.items }
{
    let mut arrays = Vec::new(alloc);
    for k in 0..columns.len() {
        arrays.push(columns[k].as_box(alloc)?)?;
    }
    Ok(arrays)
}

/// Hands to a proof that the slots of columns fit their types, and are stored as they come.
fn are_whole(columns: &[AnyMutableArray])
    ensures fits { all_fit columns.now ≡ true }
    ensures stored { list_all (λ (column : Open). is_buildable column.data_type) columns.now ≡ true }
{
    for column in columns {
        column.whole();
    }
}

impl Groups {
    /// Takes the rows of the last group as a batch. An error is for want of memory.
    fn close(&mut self, alloc: Global) -> Result<(), Fault>
        requires { list_all (λ (column : Open). length column.slots == self.old.count) self.old.columns.items ≡ true }
        ensures { MatchResult result (λ _. grouped self.new ≡ closed (grouped self.old)) (λ fault. fault ≡ Memory) }
    {
        are_whole(&self.columns);
        let arrays = take_columns(alloc, &mut self.columns)?;
        self.batches.push(Chunk::new(arrays))?;
        self.count = 0;
        Ok(())
    }

    /// Pushes the row at a place of arrays, and closes the group where it has n rows then.
    fn push(
        &mut self,
        alloc: Global,
        arrays: &[AnyArray],
        row: usize,
        n: usize,
    ) -> Result<(), Fault>
        requires ready { IsReady n (map column_type arrays.now) (grouped self.old) }
        requires takes { TakesRow self.old.columns.items arrays.now row }
        ensures { PushesRows n (grouped self.old) (stored_row arrays.now row ∷ []) result (grouped self.new) }
    {
        push_row(alloc, &mut self.columns, arrays, row)?;
        self.count += 1;
        if self.count == n {
            self.close(alloc)?;
        }
        Ok(())
    }

    /// Pushes the rows of a batch, in groups of n.
    fn push_batch(&mut self, alloc: Global, batch: &Chunk<AnyArray>, n: usize) -> Result<(), Fault>
        requires { IsReady n (map column_type batch.now) (grouped self.old) }
        ensures { PushesRows n (grouped self.old) (rows_from batch.now 0 (batch_len batch.now)) result (grouped self.new) }
    {
        batch.whole();
        for row in 0..batch.len() {
            self.push(alloc, batch.arrays(), row, n)?;
        }
        Ok(())
    }
}

/// The batches of a table's rows in groups of n, where each type has a builder.
///
/// # Errors
/// - `Lower(Overflow)`: the rows of a group don't fit their columns.
/// - `Memory`: there was no memory.
pub(crate) fn group_rows(
    alloc: Global,
    table: &Table,
    n: usize,
) -> Result<Vec<Chunk<AnyArray>>, Fault>
    requires begin { have_builders table.now.schema.fields ≡ true }
    requires some { 0 < n }
    ensures { GroupsRows n table.now.schema.fields (stored_rows table.now.batches) result }
{
    table.whole();
    let columns = begin_columns(alloc, table.schema().fields.as_slice())?;
    let mut groups = Groups {
        batches: Vec::new(alloc),
        columns,
        count: 0,
    };
    for batch in table.batches() {
        groups.push_batch(alloc, batch, n)?;
    }
    if groups.count > 0 {
        groups.close(alloc)?;
    }
    Ok(groups.batches)
}
