//! Tables written as streams.
ghost use Rattle.std.specs.Prelude.{IfOk};
ghost use Rattle.tables_chunks.specs.Refusals.{WritesStream};
ghost use Rattle.tables_chunks.specs.WrittenTables.{ReadAsTable, table_bytes};

use crate::fault::Fault;
use crate::table::Table;
use crate::writing::write_batches;
use ipc_format::Faults;
use std::alloc::Global;
use std::io::Write;

impl Table {
    /// Writes the table as an Arrow stream (Arrow IPC, "IPC Streaming Format", "Dictionary Messages"): its schema, with the ids of dictionaries
    /// from 0 on in pre-order, and for each batch the dictionaries that differ from the last ones under their ids and a record batch message.
    /// What is written reads as this very table, batch by batch.
    ///
    /// # Errors
    /// - `Ipc(Overflow)`: a message, or a node in it, is past its limit. Exactly the messages before those of its batch are written.
    /// - `Ipc(Io)`: the writer failed; its count of failures rose, perhaps though each write was answered by `Ok`.
    /// - `Ipc(OutOfSpec)`: it took nothing of what was to be written, or refused it without a failure, or its count of failures fell. Memory never
    ///   answers this.
    /// - `Memory`: there was no memory, also in the writer.
    ///
    /// What was written before an error stays written: a beginning of the stream, perhaps all of it.
    pub fn write_stream<W: Write + Faults>(
        &self,
        alloc: Global,
        writer: &mut W,
    ) -> Result<(), Fault>
        ensures written { WritesStream result self.now.schema self.now.batches W.in_memory (W.failures writer.old) (W.failures writer.new)
            (W.contents writer.old) (W.contents writer.new) }
        ensures reads_back { IfOk result (λ done.
            ReadAsTable (table_bytes self.now.schema self.now.batches) self.now.schema self.now.batches) }
    {
        self.whole();
        self.schema().whole();
        write_batches(alloc, writer, self.schema(), self.batches())
    }
}
