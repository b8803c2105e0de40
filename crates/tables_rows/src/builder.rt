//! Tables that are built row by row.
ghost use Rattle.std.specs.Prelude.{◌≡◌, length, map};
ghost use Rattle.tables_rows.specs.Building.{IsBuilding, IsNew};
ghost use Rattle.tables_rows.specs.Ending.{EndsBatch, Finishes};
ghost use Rattle.tables_rows.specs.Pushing.{PushesRow};
ghost use Rattle.nested_arrays_cells.specs.parts.Scalars.{cell_of};

use crate::bars::seal_bar;
use crate::columns::{are_whole, count_of};
use crate::forms::one_form;
use crate::groups::begin_columns;
use crate::pushing::push_each;
use crate::taking::take_batch;
use columnar_memory_types::Schema;
use nested_arrays_cells::{AnyMutableArray, AnyScalar};
use std::alloc::Global;
use std::marker::Model;
use tables_chunks::{Fault, GrowingTable, Table};

/// A table that grows by rows of cells, in batches. A contract sees its schema, the batches that were ended, as what their columns store, and the
/// rows that are open, as lists of slots.
///
/// The schema may be sealed, and is in its one form. A row that is pushed is open until its batch is ended.
pub struct TableBuilder {
    table: GrowingTable,
    columns: Vec<AnyMutableArray>,
}

impl Drop for TableBuilder {
    fn drop(self) {
        let TableBuilder {
            table: _,
            columns: _,
        } = self;
    }
}

impl Model for TableBuilder {
    ghost use Rattle.tables_rows.specs.Building.{Building, building_code, seen, IsHeld};

    ghost Value = { Building };

    ghost coded = { building_code };

    ghost view = { λ a. seen a.table a.columns.items };

    ghost invariant = { λ a. IsHeld a.table.schema a.columns.items };
}

impl TableBuilder {
    /// A builder without a row. Its schema is the one form of the given one, in which the metadata of each field names the extension of its type.
    ///
    /// # Errors
    /// - `NotSealable`: a map, a union, a dictionary whose keys have the order of its values, or a struct without fields stands in the schema, the
    ///   first of these that does is named, or else the schema can't be written.
    /// - `Memory`: there was no memory.
    pub fn new(alloc: Global, schema: Schema) -> Result<TableBuilder, Fault>
        ensures { IsNew schema result }
    {
        if let Some(bar) = seal_bar(&schema) {
            return Err(Fault::NotSealable(bar));
        }
        let schema = one_form(alloc, schema)?;
        let columns = begin_columns(alloc, schema.fields.as_slice())?;
        let table = GrowingTable::new(alloc, schema);
        Ok(TableBuilder { table, columns })
    }

    /// The schema of the table, in its one form.
    pub fn schema(&self) -> &Schema
        ensures { result.now ≡ self.now.schema }
    {
        self.table.schema()
    }

    /// How many rows are open.
    pub fn open_rows(&self) -> usize
        ensures { result ≡ length self.now.rows }
    {
        count_of(&self.columns)
    }

    /// Pushes a row: a cell a column, in the order of the fields. The cell of a dictionary or of an extension is that of its inner type.
    ///
    /// # Errors
    /// Nothing changes. The first of these that holds:
    /// - `NoColumns`: the schema has no fields.
    /// - `RowWidth`: the row has another number of cells than the schema has fields.
    ///
    /// Then one of these:
    /// - `Lower(InvalidArgumentError)`: a cell doesn't fit its field's type.
    /// - `Lower(Overflow)`: with this row the open rows of a column are more than it may have, or their items or bytes than offsets may number, or
    ///   the values of a dictionary than its keys tell apart. After `end_batch` there is room again.
    /// - `Memory`: there was no memory.
    pub fn push_row(&mut self, row: &[AnyScalar]) -> Result<(), Fault>
        ensures { PushesRow self.old (map cell_of row.now) result self.new }
    {
        let count = self.columns.len();
        if count == 0 {
            return Err(Fault::NoColumns);
        }
        if row.len() != count {
            return Err(Fault::RowWidth);
        }
        let held = count_of(&self.columns);
        push_each(&mut self.columns, held, row)
    }

    /// Ends the batch of the open rows; where no row is open, no batch is added.
    ///
    /// # Errors
    /// The open rows are let go. The batches that were ended before stay, and rows may be pushed again.
    /// - `Memory`: there was no memory for the batch.
    /// - `TooManyRows`: the rows of all batches don't fit 64 bits.
    pub fn end_batch(&mut self, alloc: Global) -> Result<(), Fault>
        ensures { EndsBatch self.old result self.new }
    {
        if count_of(&self.columns) == 0 {
            let _rows = self.table.rows();
            return Ok(());
        }
        let batch = take_batch(alloc, &mut self.columns)?;
        self.table.push(batch)
    }

    /// The table of the batches, after the open rows are ended as the last one.
    ///
    /// # Errors
    /// As in `end_batch`, and the builder comes back as it leaves it.
    pub fn finish(self, alloc: Global) -> Result<Table, (Fault, TableBuilder)>
        ensures { Finishes self result }
    {
        let mut builder = self;
        match builder.end_batch(alloc) {
            Ok(()) => Ok(builder.into_table()),
            Err(fault) => Err((fault, builder)),
        }
    }

    /// The table of the batches, without the open rows.
    fn into_table(self) -> Table
        ensures { result ≡ record { schema = self.schema; batches = self.batches } }
    {
        let TableBuilder { table, columns } = self;
        drop(columns);
        table.finish()
    }

    /// Hands to a proof that the schema is a table's and may be sealed, and that the open rows fit.
    pub fn whole(&self)
        ensures { IsBuilding self.now }
    {
        are_whole(&self.columns);
    }
}
