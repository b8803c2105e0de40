//! Columns of a table, in another order.
ghost use Rattle.std.specs.Prelude.{◌≡◌, ◌↔◌, IsTrue, IfOk, List, length, map, true};
ghost use Rattle.std.specs.List.{list_all};
ghost use Rattle.ipc_format.specs.columns.StoredColumns.{Column};
ghost use Rattle.ipc_format.specs.columns.Tables.{chosen};
ghost use Rattle.tables_chunks.specs.Choices.{IsChoice, are_below, are_distinct};
ghost use Rattle.tables_chunks.specs.TableParts.{ChoosesColumns};

use crate::batches::{chunk_of, is_whole};
use crate::fault::Fault;
use crate::table::Table;
use columnar_memory_types::{Items, Schema};
use ipc_format::Chunk;
use ipc_format::nested_arrays_core::AnyArray;
use std::alloc::{AllocError, Global};

/// Whether no column is named twice. No memory is taken.
pub fn distinct(columns: &[usize]) -> bool
    ensures { result ≡ are_distinct columns.now }
{
    let mut rest = columns;
    while let [first, others @ ..] = rest {
        if others.contains(first) {
            return false;
        }
        rest = others;
    }
    true
}

/// Whether each number is below a width.
pub fn are_all_below(width: usize, columns: &[usize]) -> bool
    ensures { result ≡ are_below width columns.now }
{
    columns.iter().all(|column| *column < width)
}

impl Table {
    /// Whether columns may be chosen: each is one of the table's, by its place from 0 on, and none is named twice. No memory is taken.
    pub fn is_choice(&self, columns: &[usize]) -> bool
        ensures { IsTrue result ↔ IsChoice (length self.now.schema.fields) columns.now }
    {
        are_all_below(self.schema().fields.len(), columns) && distinct(columns)
    }

    /// The columns of these places, in this order, with no cell copied: those of each batch, empty ones too, under their fields and with what
    /// else is said of the table. Where no column is chosen there is no batch, and no row. `is_choice` tests whether these may be chosen.
    ///
    /// # Errors
    /// - `Memory`: there was no memory.
    pub fn choose(&self, alloc: Global, columns: &[usize]) -> Result<Table, Fault>
        requires { IsChoice (length self.now.schema.fields) columns.now }
        ensures { ChoosesColumns columns.now self.now result }
    {
        self.whole();
        let schema = choose_fields(alloc, self.schema(), columns)?;
        if columns.is_empty() {
            return Ok(Table::made(schema, Vec::new(alloc), 0));
        }
        let batches = choose_all(alloc, self.batches(), columns)?;
        let picked = Table::made(schema, batches, self.rows());
        Ok(picked)
    }
}

/// The fields of these places, with what else is said of the table.
pub fn choose_fields(
    alloc: Global,
    schema: &Schema,
    columns: &[usize],
) -> Result<Schema, AllocError>
    requires { are_below (length schema.now.fields) columns.now ≡ true }
    ensures { IfOk result (λ picked. picked ≡ record schema.now { fields = chosen columns.now schema.now.fields }) }
{
    let mut fields = Items::new(alloc);
    for column in columns {
        fields.push(schema.fields.as_slice()[*column].clone()?)?;
    }
    let metadata = schema.metadata.clone()?;
    Ok(Schema { fields, metadata })
}

/// The columns of these places of each batch.
fn choose_all(
    alloc: Global,
    batches: &[Chunk<AnyArray>],
    columns: &[usize],
) -> Result<Vec<Chunk<AnyArray>>, AllocError>
    requires { list_all (λ (batch : List Column). are_below (length batch) columns.now) batches.now ≡ true }
    ensures { IfOk result (λ picked. picked.items ≡ map (chosen columns.now) batches.now) }
{
    let mut picked = Vec::new(alloc);
    for batch in batches {
        picked.push(choose_of(alloc, batch, columns)?)?;
    }
    Ok(picked)
}

/// The columns of these places of a batch.
pub fn choose_of(
    alloc: Global,
    batch: &Chunk<AnyArray>,
    columns: &[usize],
) -> Result<Chunk<AnyArray>, AllocError>
    requires { are_below (length batch.now) columns.now ≡ true }
    ensures { IfOk result (λ picked. picked ≡ chosen columns.now batch.now) }
{
    is_whole(batch);
    let all = batch.arrays();
    let mut arrays = Vec::new(alloc);
    for column in columns {
        arrays.push(all[*column].clone()?)?;
    }
    Ok(chunk_of(arrays))
}
