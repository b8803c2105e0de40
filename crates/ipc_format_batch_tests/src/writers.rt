//! Calls of writers.
use crate::answers::{Short, told};
use crate::cases::{numbers, numbers_schema, of_one};
use ipc_format::columnar_memory::{Error, Schema};
use ipc_format::nested_arrays_core::AnyArray;
use ipc_format::{Faults, IpcField, StreamWriter, WriteOptions};
use std::alloc::Global;
use std::io::Write;

/// A writer to memory.
pub(crate) fn to_memory(alloc: Global) -> StreamWriter<Vec<u8>> {
    StreamWriter::new(alloc, Vec::new(alloc), WriteOptions::new())
}

/// A writer to memory that has written a schema.
pub(crate) fn started(
    alloc: Global,
    schema: &Schema,
    ids: Option<Vec<IpcField>>,
) -> Result<StreamWriter<Vec<u8>>, Error> {
    let mut writer = to_memory(alloc);
    writer.start(alloc, schema, ids)?;
    Ok(writer)
}

/// Writes a batch of one column.
pub(crate) fn write_one<W: Write + Faults>(
    alloc: Global,
    writer: &mut StreamWriter<W>,
    array: AnyArray,
) -> Result<(), Error> {
    let batch = of_one(alloc, array)?;
    writer.write(alloc, &batch, None)
}

/// Writes the schema of numbers.
pub(crate) fn start_numbers<W: Write + Faults>(
    alloc: Global,
    writer: &mut StreamWriter<W>,
) -> Result<(), Error> {
    let schema = numbers_schema(alloc)?;
    writer.start(alloc, &schema, None)
}

/// Writes a batch of numbers.
pub(crate) fn write_numbers<W: Write + Faults>(
    alloc: Global,
    writer: &mut StreamWriter<W>,
) -> Result<(), Error> {
    write_one(alloc, writer, numbers(alloc)?)
}

/// What `start`, `write` and `finish` answer, one after the other.
pub(crate) fn calls<W: Write + Faults>(alloc: Global, writer: &mut StreamWriter<W>) -> [Short; 3] {
    let start = told(start_numbers(alloc, writer));
    let write = told(write_numbers(alloc, writer));
    [start, write, told(writer.finish())]
}
