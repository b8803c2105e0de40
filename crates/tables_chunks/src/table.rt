//! Tables: a schema, and rows batch by batch.
ghost use Rattle.std.specs.Prelude.{◌≡◌, ◌+◌, ◌≤◌, ◌<◌, ◌^◌, ◌↔◌, IsTrue, length, true};
ghost use Rattle.std.specs.List.{list_all};
ghost use Rattle.ipc_format.specs.reading_laws.SealLaws.{IsTableOfTexts};
ghost use Rattle.tables_chunks.specs.Batches.{stored_rows};
ghost use Rattle.tables_chunks.specs.StoredTables.{AddsBatch, IsTable, MakesTable, as_table, is_of_fields, row_count};
ghost use Rattle.tables_chunks.specs.TableSchemas.{IsTableSchema};

use crate::batches::{are_batches, is_whole, len_of, rows_of};
use crate::fault::Fault;
use columnar_memory_types::Schema;
use ipc_format::Chunk;
use ipc_format::nested_arrays_core::AnyArray;
use std::alloc::{AllocError, Global};
use std::marker::Model;

/// A schema, and rows under it, batch by batch: a contract sees the schema, and what each column of each batch stores. Arrays are shared between
/// a table and what is made of it. The schema may be written, and is in its one form. Without fields there are no rows.
pub struct Table {
    schema: Schema,
    batches: Vec<Chunk<AnyArray>>,
    rows: usize,
}

impl Drop for Table {
    fn drop(self) {
        let Table {
            schema: _,
            batches: _,
            rows: _,
        } = self;
    }
}

impl Model for Table {
    ghost use Rattle.std.specs.Prelude.{◌≡◌, length};
    ghost use Rattle.tables_chunks.specs.Batches.{stored_rows};
    ghost use Rattle.tables_chunks.specs.StoredTables.{IsTable, Stored, stored_code};

    ghost Value = { Stored };

    ghost coded = { stored_code };

    ghost view = { λ a. record { schema = a.schema; batches = a.batches.items } };

    ghost invariant = { λ a. (a.rows ≡ length (stored_rows a.batches.items)) × IsTable a.schema a.batches.items };
}

impl Table {
    /// The table of some batches under a schema, in order, empty ones too. No memory is taken.
    ///
    /// The schema may be written and is in its one form, as `is_table_schema` tests; each batch has a column a field, as `fits_schema` tests.
    ///
    /// # Errors
    /// - `TooManyRows`: the number of rows doesn't fit 64 bits.
    pub fn of_batches(schema: Schema, batches: Vec<Chunk<AnyArray>>) -> Result<Table, Fault>
        requires form { IsTableSchema schema }
        requires fields { list_all (is_of_fields schema.fields) batches.items ≡ true }
        ensures { MakesTable schema batches.items result }
    {
        let Some(rows) = rows_of(&batches) else {
            return Err(Fault::TooManyRows);
        };
        are_batches(&schema, &batches);
        Ok(Table::made(schema, batches, rows))
    }

    /// The names and types of the columns, and what else is said of the table.
    pub fn schema(&self) -> &Schema
        ensures { result.now ≡ self.now.schema }
    {
        &self.schema
    }

    /// How many rows all batches have together.
    pub fn rows(&self) -> usize
        ensures { result ≡ row_count self.now }
    {
        self.rows
    }

    /// The rows, batch by batch, empty ones too.
    pub fn batches(&self) -> &[Chunk<AnyArray>]
        ensures { result.now ≡ self.now.batches }
    {
        &self.batches
    }

    /// Whether the rows from `offset` on are at least `length` many.
    pub fn in_range(&self, offset: usize, length: usize) -> bool
        ensures { IsTrue result ↔ (offset + length ≤ row_count self.now) }
    {
        offset <= self.rows && length <= self.rows - offset
    }

    /// Hands to a proof that each batch fits the schema, that the rows fit 64 bits, and that each row has a value a field, where names and metadata
    /// are texts, as the laws of seals want it.
    pub fn whole(&self)
        ensures batches { IsTable self.now.schema self.now.batches }
        ensures rows { row_count self.now < 2 ^ 64 }
        ensures texts { IsTableOfTexts (as_table self.now) }
    {
        let _rows = self.rows;
        self.schema.whole();
    }

    /// The table of some batches that fit the schema, whose rows are counted.
    pub(crate) fn made(schema: Schema, batches: Vec<Chunk<AnyArray>>, rows: usize) -> Table
        requires counted { rows ≡ length (stored_rows batches.items) }
        requires fits { IsTable schema batches.items }
        ensures { result ≡ record { schema = schema; batches = batches.items } }
    {
        Table {
            schema,
            batches,
            rows,
        }
    }

    /// Adds a batch that fits the schema behind the others. `GrowingTable` passes this on.
    pub(crate) fn add(&mut self, batch: Chunk<AnyArray>) -> Result<(), Fault>
        requires { is_of_fields self.old.schema.fields batch ≡ true }
        ensures { AddsBatch self.old batch result self.new }
    {
        let Some(rows) = self.rows.checked_add(len_of(&batch)) else {
            return Err(Fault::TooManyRows);
        };
        is_whole(&batch);
        self.batches.push(batch)?;
        self.rows = rows;
        Ok(())
    }
}

impl Clone for Table {
    ghost is_clone = { λ table copy. copy ≡ table };

    /// Shares what the arrays store. An error is for want of memory.
    fn clone(&self) -> Result<Self, AllocError> {
        let schema = self.schema.clone()?;
        let batches = self.batches.clone()?;
        Ok(Table::made(schema, batches, self.rows))
    }
}

/// Whether two tables have one schema.
pub(crate) fn has_schema_of(left: &Table, right: &Table) -> bool
    ensures { IsTrue result ↔ (left.now.schema ≡ right.now.schema) }
{
    *left.schema() == *right.schema()
}
