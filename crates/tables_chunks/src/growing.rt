//! Tables that grow batch by batch, as a reader hands them over.
ghost use Rattle.std.specs.Prelude.{◌≡◌, [], true};
ghost use Rattle.tables_chunks.specs.StoredTables.{AddsBatch, is_of_fields, row_count};
ghost use Rattle.tables_chunks.specs.TableSchemas.{IsTableSchema};

use crate::fault::Fault;
use crate::table::Table;
use columnar_memory_types::Schema;
use ipc_format::Chunk;
use ipc_format::nested_arrays_core::AnyArray;
use std::alloc::Global;
use std::marker::Model;

/// A schema, and the batches of a table under it that came so far. A contract sees the table of these.
#[derive(Drop)]
pub struct GrowingTable {
    table: Table,
}

impl Model for GrowingTable {
    ghost use Rattle.tables_chunks.specs.StoredTables.{Stored, stored_code};

    ghost Value = { Stored };

    ghost coded = { stored_code };

    ghost view = { λ growing. growing.table };
}

impl GrowingTable {
    /// No batch yet, under a schema that may be written and is in its one form, which `is_table_schema` tests. No memory is taken.
    pub fn new(alloc: Global, schema: Schema) -> Self
        requires { IsTableSchema schema }
        ensures { result ≡ record { schema = schema; batches = [] } }
    {
        GrowingTable {
            table: Table::made(schema, Vec::new(alloc), 0),
        }
    }

    /// Puts a batch behind the others, empty ones too. It has a column a field, of the field's type, which `fits_schema` tests.
    ///
    /// # Errors
    /// The batches are as before, and go on growing.
    /// - `TooManyRows`: the number of rows would not fit 64 bits.
    /// - `Memory`: there was no memory.
    pub fn push(&mut self, batch: Chunk<AnyArray>) -> Result<(), Fault>
        requires { is_of_fields self.old.schema.fields batch ≡ true }
        ensures { AddsBatch self.old batch result self.new }
    {
        self.table.add(batch)
    }

    /// The schema of the table.
    pub fn schema(&self) -> &Schema
        ensures { result.now ≡ self.now.schema }
    {
        self.table.schema()
    }

    /// How many rows the batches have so far.
    pub fn rows(&self) -> usize
        ensures { result ≡ row_count self.now }
    {
        self.table.rows()
    }

    /// The table of the batches that came. No memory is taken.
    pub fn finish(self) -> Table
        ensures { result ≡ self }
    {
        self.table
    }
}
