//! Tables read from bytes.
ghost use Rattle.tables_chunks.specs.ReadTables.{ReadsTable};

use crate::batches::are_batches;
use crate::fault::Fault;
use crate::reading::read_stream;
use crate::table::Table;
use ipc_format::read_file;
use std::alloc::Global;

/// The two forms of Arrow's bytes (Arrow IPC, "IPC File Format", "IPC Streaming Format").
#[derive(Clone, Copy, Debug, PartialEq, Eq)]
pub enum Form {
    File,
    Stream,
}

impl Table {
    /// The table of an Arrow file or an Arrow stream (Arrow IPC, "IPC File Format", "IPC Streaming Format"), with the batches as they stand there,
    /// empty ones too, and in one form of its schema: the keys of extensions in custom metadata are those of the types.
    ///
    /// # Errors
    /// - `Ipc(OutOfSpec)`: the bytes break a rule of the format.
    /// - `Ipc(NotYetImplemented)`: a float field, a compressed batch, or a dictionary that adds to an earlier one.
    /// - `Unfinished`: a stream ends within the first four bytes of a message after the first, where its end mark may be missing.
    /// - `TooManyRows`: the number of rows doesn't fit 64 bits.
    /// - `Memory`: there was no memory.
    pub fn read(alloc: Global, form: Form, bytes: &[u8]) -> Result<Table, Fault>
        ensures { ReadsTable form result bytes.now }
    {
        match form {
            Form::File => {
                let read = read_file(alloc, bytes)?;
                Table::of_batches(read.schema, read.chunks)
            }
            Form::Stream => {
                let read = read_stream(alloc, bytes)?;
                are_batches(&read.schema, &read.chunks);
                Ok(Table::made(read.schema, read.chunks, read.rows))
            }
        }
    }
}
