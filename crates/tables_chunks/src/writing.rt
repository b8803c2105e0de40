//! The stream of a table: its schema, its batches with the dictionaries that go before them, and the end mark.
ghost use Rattle.std.specs.Prelude.{◌≡◌, ◌<◌, ◌^◌, IfOk, length};
ghost use Rattle.ipc_format.specs.reading_laws.laws.Schemas.{HasTexts};
ghost use Rattle.tables_chunks.specs.Batches.{stored_rows};
ghost use Rattle.tables_chunks.specs.Refusals.{PutsTable, WritesStream, WritesTable};
ghost use Rattle.tables_chunks.specs.WrittenTables.{ReadAsTable, table_bytes};
ghost use Rattle.tables_chunks.specs.StoredTables.{IsTable};

use crate::fault::Fault;
use crate::putting::{put_batches, put_schema};
use columnar_memory_types::{Result as Answer, Schema};
use ipc_format::nested_arrays_core::AnyArray;
use ipc_format::{Chunk, Faults, default_ipc_fields, outcome, put};
use std::alloc::Global;
use std::io::Write;

/// A length of 0 behind the continuation marker, which ends a stream.
const END: [u8; 8] = [0xff, 0xff, 0xff, 0xff, 0, 0, 0, 0];

/// Writes a schema and batches as a stream; `Io` is each refusal of the device.
fn put_table<W: Write>(
    alloc: Global,
    writer: &mut W,
    schema: &Schema,
    batches: &[Chunk<AnyArray>],
) -> Answer<()>
    requires { IsTable schema.now batches.now }
    ensures { PutsTable result (W.contents writer.old) (W.contents writer.new) schema.now batches.now }
{
    let ids = default_ipc_fields(alloc, schema.fields.as_slice())?;
    put_schema(alloc, writer, schema, &ids)?;
    put_batches(alloc, writer, schema, batches, &ids)?;
    put(writer, &END)
}

/// Writes a schema and batches as a stream, as `write_batches` does.
///
/// # Errors
/// - `Overflow`: a message, or a node in it, is past its limit. Exactly the messages before those of its batch are written.
/// - `Io`: the device failed; its count of failures rose, perhaps though each write was answered by `Ok`.
/// - `OutOfSpec`: it took nothing of a piece, or refused it without a failure, or its count of failures fell. Memory never answers this.
/// - `OutOfMemory`: it had no memory, or there was none for the messages.
///
/// What was written before an error stays written: a beginning of the stream, perhaps all of it.
#[tactic(auto, using(crate::proofs::RefusedWrites::table_told))]
pub fn write_table<W: Write + Faults>(
    alloc: Global,
    writer: &mut W,
    schema: &Schema,
    batches: &[Chunk<AnyArray>],
) -> Answer<()>
    requires { IsTable schema.now batches.now }
    ensures { WritesTable result schema.now batches.now W.in_memory (W.failures writer.old) (W.failures writer.new)
        (W.contents writer.old) (W.contents writer.new) }
{
    let is_memory = writer.is_memory();
    let before = writer.faults();
    let written = put_table(alloc, writer, schema, batches);
    outcome(written, is_memory, before, writer.faults())
}

/// Writes a schema and batches of columns of any type as an Arrow stream (Arrow IPC, "IPC Streaming Format", "Dictionary Messages"): the schema's
/// message, with ids of dictionaries from 0 on in pre-order; for each batch the dictionaries whose type or slots differ from the last one
/// written under their id, inner ones first, and its record batch message; and the end mark. Bodies are little-endian, and each buffer begins at
/// a multiple of 64 bytes. What is written reads as these batches.
///
/// # Errors
/// - `Ipc(Overflow)`: a body has 2^63 bytes or more, a node more than 2^63 - 1 slots, or with its prefix of 8 bytes a message's metadata would
///   have more than 2,147,483,640 bytes. Exactly the messages before those of this batch are written.
/// - `Ipc(Io)`: the device failed; its count of failures rose, perhaps though each write was answered by `Ok`.
/// - `Ipc(OutOfSpec)`: it took nothing of a piece, or refused it without a failure, or its count of failures fell. Memory never answers this.
/// - `Memory`: there was no memory, also in the device.
///
/// What was written before an error stays written: a beginning of the stream, perhaps all of it.
pub fn write_batches<W: Write + Faults>(
    alloc: Global,
    writer: &mut W,
    schema: &Schema,
    batches: &[Chunk<AnyArray>],
) -> Result<(), Fault>
    requires { IsTable schema.now batches.now }
    ensures written { WritesStream result schema.now batches.now W.in_memory (W.failures writer.old) (W.failures writer.new)
        (W.contents writer.old) (W.contents writer.new) }
    ensures reads_back { IfOk result (λ _. HasTexts schema.now → length (stored_rows batches.now) < 2 ^ 64
        → ReadAsTable (table_bytes schema.now batches.now) schema.now batches.now) }
{
    Ok(write_table(alloc, writer, schema, batches)?)
}
