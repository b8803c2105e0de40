//! The seal of a table: its groups of rows as batches, written as a stream.
ghost use Rattle.std.specs.Prelude.{◌≡◌, IfOk, true};
ghost use Rattle.tables_chunks.specs.StoredTables.{as_table};
ghost use Rattle.tables_chunks.specs.ipc_format.Seals.{is_batch_size, is_sealable};
ghost use Rattle.tables_rows.specs.Seals.{GroupsTable, ReadInBatches, Seals, Streams};

use crate::bars::seal_bar;
use crate::groups::group_rows;
use columnar_memory_types::Error;
use std::alloc::Global;
use tables_chunks::nested_arrays_core::a_beginning_of_what_fits_fits;
use tables_chunks::{Fault, Table, seals_read_back};

/// The most rows that a batch of a seal may have.
pub const MOST_BATCH_ROWS: usize = 65_536;

/// Whether the batches of a seal may have so many rows: 1 to 65,536.
pub fn is_batch_size(n: usize) -> bool
    ensures { result ≡ is_batch_size n }
{
    1 <= n && n <= MOST_BATCH_ROWS
}

/// What has a seal: the one byte text of a schema and its rows, for each batch size.
pub trait Seal {
    ghost use Rattle.tables_chunks.specs.ipc_format.columns.Tables.{Table};

    // The schema and the rows that are sealed.
    ghost content: { Self → Table };

    /// The seal in batches of n rows, the last one shorter: an Arrow stream of the rows (Arrow IPC, "IPC Streaming Format"), little-endian, each
    /// column from its slots alone, the dictionaries numbered from 0 in pre-order, their values in the order of first use. So it depends on
    /// the schema, the rows and n alone, and tells tables apart. It reads as this very table. `is_batch_size` tests whether n may be asked for.
    ///
    /// # Errors
    /// - `NotSealable`: a map, a union, a dictionary whose keys have the order of its values or a struct without fields stands in the schema,
    ///   or it isn't writable: the first of these, as `seal_bar` answers it.
    /// - `Lower(Overflow)`: a column of a group of n rows has more items or bytes than its offsets may number, or a dictionary more values than
    ///   its keys tell apart.
    /// - `Ipc(Overflow)`: a message has a body of 2^63 bytes or more, or metadata that with its prefix of 8 bytes is longer than
    ///   2,147,483,640 bytes.
    /// - `Memory`: there was no memory.
    fn seal(&self, alloc: Global, n: usize) -> Result<Vec<u8>, Fault>
        requires { is_batch_size n ≡ true }
        ensures sealed { Seals (content self.now) n result }
        ensures reads_back { IfOk result (λ bytes. ReadInBatches bytes.items (content self.now) n) };
}

impl Seal for Table {
    ghost content = { as_table };

    fn seal(&self, alloc: Global, n: usize) -> Result<Vec<u8>, Fault> {
        self.whole();
        if let Some(bar) = seal_bar(self.schema()) {
            return Err(Fault::NotSealable(bar));
        }
        let groups = group_table(alloc, self, n)?;
        seals_read_back();
        stream_of(alloc, &groups)
    }
}

/// The table of a table's rows in batches of n, whose columns store these rows' slots and nothing else.
///
/// # Errors
/// - `Lower(Overflow)`: the rows of a group don't fit their columns.
/// - `Memory`: there was no memory.
fn group_table(alloc: Global, table: &Table, n: usize) -> Result<Table, Fault>
    requires sealable { is_sealable table.now.schema ≡ true }
    requires size { is_batch_size n ≡ true }
    ensures { GroupsTable n table.now result }
{
    table.whole();
    a_beginning_of_what_fits_fits();
    let batches = group_rows(alloc, table, n)?;
    let schema = table.schema().clone()?;
    Table::of_batches(schema, batches)
}

/// The stream of a table.
///
/// # Errors
/// - `Ipc(Overflow)`: a message, or a node in it, is past its limit.
/// - `Memory`: there was no memory.
fn stream_of(alloc: Global, table: &Table) -> Result<Vec<u8>, Fault>
    ensures { Streams table.now result }
{
    let mut bytes = Vec::new(alloc);
    match table.write_stream(alloc, &mut bytes) {
        Ok(()) => Ok(bytes),
        Err(Fault::Ipc(Error::Overflow)) => Err(Fault::Ipc(Error::Overflow)),
        // A vector refuses a write only where it cannot grow.
        Err(_) => Err(Fault::Memory),
    }
}
