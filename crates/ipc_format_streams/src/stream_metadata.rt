//! What a stream says before its batches (Arrow IPC, "IPC Streaming Format", "Schema message").
ghost use Rattle.std.specs.Prelude.{◌≡◌};
ghost use Rattle.ipc_format_values.specs.metadata.Reading.{Reads};
ghost use Rattle.ipc_format_values.specs.metadata.Steps.{FloatInMessage};
ghost use Rattle.ipc_format_streams.specs.Starts.{IsNamedStart, IsReadOutcome, IsReadRefusal, ReadsStart, start_of_message, start_view};

use crate::Faults;
use crate::incoming::{Incoming, next_message};
use ipc_format_values::columnar_memory::{Error, Result, Schema};
use ipc_format_values::messages::{MetadataVersion, version_in};
use ipc_format_values::metadata::{IpcSchema, deserialize_schema};
use std::alloc::{AllocError, Global};
use std::io;
use std::io::{ErrorKind, Read};

/// What the first message of a stream says.
#[derive(Debug, Drop)]
pub struct StreamMetadata {
    /// The schema, as it is read.
    pub schema: Schema,
    /// The version of the message, by which the unions of all batches lie.
    pub version: MetadataVersion,
    /// The ids of dictionaries beside the fields, and the byte order of the batches.
    pub ipc_schema: IpcSchema,
}

impl Clone for StreamMetadata {
    ghost is_clone = { λ a b. b ≡ a };

    /// An error is for want of memory.
    fn clone(&self) -> std::result::Result<Self, AllocError> {
        Ok(StreamMetadata {
            schema: self.schema.clone()?,
            version: self.version,
            ipc_schema: self.ipc_schema.clone()?,
        })
    }
}

/// What a stream says before its batches, by the metadata of its first message.
///
/// # Errors
/// - `OutOfSpec`: the bytes are no message with a schema, or with one that is not written, or state no version.
/// - `NotYetImplemented`: a field of floating-point numbers stands in the schema.
/// - `OutOfMemory`: there was no memory for names and fields.
pub fn deserialize_stream_metadata(alloc: Global, metadata: &[u8]) -> Result<StreamMetadata>
    ensures { Reads start_view (FloatInMessage metadata.now) result (start_of_message metadata.now) }
{
    let Some(version) = version_in(metadata) else {
        return Err(Error::OutOfSpec("InvalidFlatbufferVersion"));
    };
    let (schema, ipc_schema) = deserialize_schema(alloc, metadata)?;
    Ok(StreamMetadata {
        schema,
        version,
        ipc_schema,
    })
}

/// The same of the message that a device begins with, each refusal of the device by `Io`.
#[tactic(auto, using(crate::proofs::Starts::starts))]
fn read_start<R: Read>(alloc: Global, reader: &mut R) -> Result<StreamMetadata>
    ensures { ReadsStart (R.remaining reader.old) (R.remaining reader.new) result }
{
    let mut held = Vec::new(alloc);
    let mut metadata = Vec::new(alloc);
    let mut body = Vec::new(alloc);
    match next_message(reader, &mut held, &mut metadata, &mut body)? {
        Incoming::Message => deserialize_stream_metadata(alloc, &metadata),
        Incoming::Waiting | Incoming::End => Err(Error::OutOfSpec("MissingSchema")),
    }
}

/// What a refusal is called of a device that is memory alone or is not, had failed `before` times before the call, and has failed `after` times now.
/// Memory refuses for want of memory, by `OutOfMemory`. Another device's refusal is `Io` where its count rose in the call, and else `OutOfMemory`
/// for want of memory and `OutOfSpec`. An error that is none of the device keeps its name.
fn read_refusal(error: Error, is_memory: bool, before: u64, after: u64) -> Error
    ensures { IsReadRefusal error is_memory before after result }
{
    match error {
        Error::Io(error) => {
            if is_memory {
                Error::OutOfMemory
            } else if before < after {
                Error::Io(error)
            } else if error.kind() == ErrorKind::OutOfMemory {
                Error::OutOfMemory
            } else {
                Error::OutOfSpec("a read was refused")
            }
        }
        other => other,
    }
}

/// What a call answers whose reads gave a result, where the device had failed `before` times before it, and has failed `after` times now. What was
/// read is taken for a success only where the count is what it was. A refusal is called as `read_refusal` says, and so is a count that changed
/// though each read was answered by `Ok`: `Io` of kind `Other` where it rose, and `OutOfSpec` where it fell.
///
/// # Errors
/// Those of the result, by the names of `read_refusal`, and a count that changed.
pub fn read_outcome<T: Drop>(read: Result<T>, is_memory: bool, before: u64, after: u64) -> Result<T>
    ensures { IsReadOutcome read is_memory before after result }
{
    match read {
        Ok(value) if before == after => Ok(value),
        Ok(_) => Err(read_refusal(
            Error::Io(io::Error::from(ErrorKind::Other)),
            is_memory,
            before,
            after,
        )),
        Err(error) => Err(read_refusal(error, is_memory, before, after)),
    }
}

/// What a stream says before its batches: its first message is taken of the device, and no byte behind it.
///
/// # Errors
/// - `OutOfSpec`: the first message is not there, or none with a schema that is written, or states no version; or the device refuses without a
///   failure, or its count of failures falls, which memory never does.
/// - `NotYetImplemented`: a field of floating-point numbers stands in the schema.
/// - `Io`: the device failed, also where each of its reads was answered by `Ok`.
/// - `OutOfMemory`: there was no memory for what came.
#[tactic(auto, using(crate::proofs::Starts::start_told))]
pub fn read_stream_metadata<R: Read + Faults>(
    alloc: Global,
    reader: &mut R,
) -> Result<StreamMetadata>
    ensures { IsNamedStart (R.remaining reader.old) (R.remaining reader.new) R.in_memory (R.failures reader.old) (R.failures reader.new)
        result }
{
    let is_memory = reader.is_memory();
    let before = reader.faults();
    let found = read_start(alloc, reader);
    read_outcome(found, is_memory, before, reader.faults())
}
