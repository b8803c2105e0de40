//! What a stream says before its batches.
ghost use Rattle.std.specs.Prelude.{◌<◌, ◌≤◌, length, IfOk};
ghost use Rattle.ipc_format_chunk_writing.specs.grammar.Refusals.{HasFloat};
ghost use Rattle.ipc_format_chunk_writing.specs.grammar.Tables.{stream};
ghost use Rattle.ipc_format_chunk_writing.specs.metadata.Reading.{Reads};
ghost use Rattle.ipc_format_chunk_writing.specs.streams.Starts.{start_in, start_view};

use ipc_format_chunk_writing::streams::columnar_memory::{Error, Result};
use ipc_format_chunk_writing::streams::messages::{MessageHeaderRef, version_in};
use ipc_format_chunk_writing::streams::metadata::schema_in;
use ipc_format_chunk_writing::streams::{NextMessage, StreamMetadata, next_at};
use std::alloc::Global;

/// What the first message of a stream says, and where the next one stands.
///
/// # Errors
/// - `OutOfSpec`: the bytes are truncated, or the first message is no schema, or one that is not written, or states no version.
/// - `NotYetImplemented`: a float field stands in the schema.
/// - `OutOfMemory`: there was no memory for names and fields.
#[tactic(auto, unfolding(crate::proofs::Passed::first_of))]
pub fn stream_start(alloc: Global, bytes: &[u8]) -> Result<(StreamMetadata, usize)>
    ensures value { Reads (λ found. (start_view found.0, found.1)) (HasFloat stream bytes.now) result (start_in bytes.now) }
    ensures reach { IfOk result (λ found. (0 < found.1) × (found.1 ≤ length bytes.now)) }
{
    let Some(NextMessage::Message(framed, after)) = next_at(bytes, 0) else {
        return Err(Error::OutOfSpec("MissingSchema"));
    };
    let MessageHeaderRef::Schema(header) = framed.header else {
        return Err(Error::OutOfSpec("UnexpectedMessageType"));
    };
    let Some(version) = version_in(framed.metadata) else {
        return Err(Error::OutOfSpec("InvalidFlatbufferVersion"));
    };
    let (schema, ipc_schema) = schema_in(alloc, framed.metadata, &header.table.place)?;
    let metadata = StreamMetadata {
        schema,
        version,
        ipc_schema,
    };
    Ok((metadata, after))
}
