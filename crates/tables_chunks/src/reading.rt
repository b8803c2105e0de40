//! Streams in memory, read whole.
ghost use Rattle.std.specs.Prelude.{◌<◌, ◌≤◌, length};
ghost use Rattle.ipc_format.specs.Readable.{HasArrays};
ghost use Rattle.ipc_format.specs.MessageViews.{version_view};
ghost use Rattle.tables_chunks.specs.Messages.{layout_by};
ghost use Rattle.tables_chunks.specs.Reading.{ReadsBatches, ReadsStream};

use crate::fault::Fault;
use crate::messages::{Next, read_next};
use ipc_format::columnar_memory::Schema;
use ipc_format::format::MetadataVersion;
use ipc_format::metadata::IpcSchema;
use ipc_format::nested_arrays_core::AnyArray;
use ipc_format::{
    Chunk, look_ups_are_enough, normalised, schemas_have_arrays, stream_start, values_by_id,
};
use std::alloc::Global;
use std::collections::BTreeMap;

/// What a stream holds.
#[derive(Drop)]
pub struct StreamBatches {
    /// The schema of the first message, in its one form.
    pub schema: Schema,
    /// The batches as they stand in the stream, empty ones too: in each a column a field, all of one length.
    pub chunks: Vec<Chunk<AnyArray>>,
    /// How many rows all batches have together.
    pub rows: usize,
}

/// The schema and the batches of an Arrow stream (Arrow IPC, "IPC Streaming Format", "Dictionary Messages"), of columns of every type. Each key
/// means a value of the last dictionary of its id before the batch. Whatever stands behind the end mark is unread.
///
/// # Errors
/// - `Ipc(OutOfSpec)`: the bytes break a rule of the format.
/// - `Ipc(NotYetImplemented)`: a float field, a compressed batch, or a dictionary that adds to an earlier one stands in them.
/// - `Unfinished`: the stream ends within the first four bytes of a message after the first, where its end mark may be missing.
/// - `TooManyRows`: the number of rows doesn't fit 64 bits.
/// - `Memory`: there was no memory.
pub fn read_stream(alloc: Global, bytes: &[u8]) -> Result<StreamBatches, Fault>
    ensures { ReadsStream result bytes.now }
{
    let (metadata, place) = stream_start(alloc, bytes)?;
    metadata.schema.whole();
    let schema = normalised(alloc, &metadata.schema)?;
    schemas_have_arrays();
    read_batches(
        alloc,
        bytes,
        schema,
        &metadata.ipc_schema,
        metadata.version,
        place,
    )
}

/// The batches of the messages from a place on, under a schema in its one form.
// It stays whole, as it is one loop (`match table`) over what stands at a place.
fn read_batches(
    alloc: Global,
    bytes: &[u8],
    schema: Schema,
    ipc_schema: &IpcSchema,
    version: MetadataVersion,
    first: usize,
) -> Result<StreamBatches, Fault>
    requires arrays { HasArrays (layout_by schema.fields ipc_schema.now) }
    requires begun { 0 < first }
    requires inside { first ≤ length bytes.now }
    ensures { ReadsBatches schema (layout_by schema.fields ipc_schema.now) (version_view version) bytes.now first result }
{
    look_ups_are_enough();
    let known = values_by_id(
        alloc,
        schema.fields.as_slice(),
        ipc_schema.fields.as_slice(),
    )?;
    let mut scratch = Vec::new(alloc);
    let mut dictionaries = BTreeMap::new(alloc);
    let mut chunks = Vec::new(alloc);
    let mut rows: usize = 0;
    let mut in_a_row = 0;
    let mut place = first;
    'messages: loop {
        match read_next(
            alloc,
            bytes,
            place,
            in_a_row,
            schema.fields.as_slice(),
            ipc_schema,
            &known,
            version,
            &mut dictionaries,
            &mut scratch,
        )? {
            Next::Truncated => return Err(Fault::Unfinished),
            Next::End => break,
            Next::Dictionary(after) => {
                in_a_row += 1;
                place = after;
            }
            Next::Rows(chunk, after) => {
                let Some(sum) = rows.checked_add(chunk.len()) else {
                    return Err(Fault::TooManyRows);
                };
                rows = sum;
                chunks.push(chunk)?;
                in_a_row = 0;
                place = after;
            }
        }
    }
    drop(known);
    Ok(StreamBatches {
        schema,
        chunks,
        rows,
    })
}
