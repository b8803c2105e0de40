//! Encoded messages, and writing them to a device (Arrow IPC, "Encapsulated message format").
ghost use Rattle.std.specs.Prelude.{◌≡◌, ◌+◌, ◌≤◌, ◌++◌, [], length, replicate};
ghost use Rattle.ipc_format_values.specs.grammar.WrittenMessages.{most_metadata, prefix_size};
ghost use Rattle.ipc_format_streams.specs.Devices.{Puts};
ghost use Rattle.ipc_format_streams.specs.EncodedMessages.{continuation_bytes, encoded_bytes, padded_metadata, prefix_bytes, Writes, WritesEncoded};

use crate::{Faults, outcome, put};
use ipc_format_values::columnar_memory::{Error, Result};
use std::alloc::Global;
use std::io::Write;

const CONTINUATION_MARKER: [u8; 4] = [0xff; 4];

/// How many bytes stand before a message's metadata: the marker, and the length of the metadata.
const PREFIX: usize = 8;

/// With its prefix a message's metadata has at most so many bytes.
const MOST_METADATA: usize = 2_147_483_640;

/// The metadata of a message is a whole number of so many bytes.
const METADATA_ALIGNMENT: usize = 8;

/// So is its body.
const BODY_ALIGNMENT: usize = 64;

const ZEROS: [u8; 64] = [0; 64];

/// An encoded message.
#[derive(Debug, Drop)]
pub struct EncodedData {
    /// The metadata of the message.
    pub ipc_message: Vec<u8>,
    /// The buffers of its body.
    pub arrow_data: Vec<u8>,
}

impl EncodedData {
    /// No bytes of either.
    pub fn new(alloc: Global) -> EncodedData
        ensures message { result.ipc_message.items ≡ [] }
        ensures data { result.arrow_data.items ≡ [] }
    {
        EncodedData {
            ipc_message: Vec::new(alloc),
            arrow_data: Vec::new(alloc),
        }
    }
}

/// Writes the continuation marker and a length, and answers how many bytes these are. A length of 0 ends a stream.
///
/// # Errors
/// - `Io`: the device failed, also where each of its writes was answered by `Ok`.
/// - `OutOfSpec`: it took nothing of a piece, or refused it without a failure, or its count of failures fell. Memory never answers this.
/// - `OutOfMemory`: it had no memory.
///
/// A beginning of the bytes is then written, perhaps all of them.
pub fn write_continuation<W: Write + Faults>(writer: &mut W, total_len: i32) -> Result<usize>
    ensures { Writes result prefix_size W.in_memory (W.failures writer.old) (W.failures writer.new) (W.contents writer.old)
        (W.contents writer.new) (continuation_bytes total_len) }
{
    let is_memory = writer.is_memory();
    let before = writer.faults();
    let written = put_prefix(writer, total_len.cast_unsigned());
    outcome(written, is_memory, before, writer.faults())?;
    Ok(PREFIX)
}

/// Writes the marker and a length.
fn put_prefix<W: Write>(writer: &mut W, length: u32) -> Result<()>
    ensures { Puts result (W.contents writer.old) (W.contents writer.new) (prefix_bytes length) }
{
    put(writer, &CONTINUATION_MARKER)?;
    put(writer, &length.to_le_bytes())
}

/// Writes some zeros.
fn put_zeros<W: Write>(writer: &mut W, count: usize) -> Result<()>
    requires { count ≤ 64 }
    ensures { Puts result (W.contents writer.old) (W.contents writer.new) (replicate count 0) }
{
    put(writer, &ZEROS[..count])
}

/// Writes bytes, and some zeros behind them.
fn put_padded<W: Write>(writer: &mut W, bytes: &[u8], zeros: usize) -> Result<()>
    requires { zeros ≤ 64 }
    ensures { Puts result (W.contents writer.old) (W.contents writer.new) (bytes.now ++ replicate zeros 0) }
{
    put(writer, bytes)?;
    put_zeros(writer, zeros)
}

/// Writes a message's prefix, metadata and body.
fn put_encoded<W: Write>(writer: &mut W, metadata: &[u8], body: &[u8]) -> Result<()>
    requires { prefix_size + length (padded_metadata metadata.now) ≤ most_metadata }
    ensures { Puts result (W.contents writer.old) (W.contents writer.new) (encoded_bytes metadata.now body.now) }
{
    let size = metadata.len().next_multiple_of(METADATA_ALIGNMENT);
    let room = body.len().next_multiple_of(BODY_ALIGNMENT);
    put_prefix(writer, size as u32)?;
    put_padded(writer, metadata, size - metadata.len())?;
    put_padded(writer, body, room - body.len())
}

/// Writes an encoded message: its prefix, its metadata with zeros up to the next multiple of 8 bytes, and its body with zeros up to the next
/// multiple of 64. Answers how many bytes the prefix and the metadata take, and how many the body.
///
/// # Errors
/// - `Overflow`: with its prefix the metadata is longer than 2,147,483,640 bytes. Nothing is written.
/// - `Io`: the device failed, also where each of its writes was answered by `Ok`.
/// - `OutOfSpec`: it took nothing of a piece, or refused it without a failure, or its count of failures fell. Memory never answers this.
/// - `OutOfMemory`: it had no memory.
///
/// A device that refuses has taken a beginning of the bytes, perhaps all of them.
#[tactic(auto, using(crate::proofs::Outcomes::encoded_refused))]
pub fn write_message<W: Write + Faults>(
    writer: &mut W,
    encoded: &EncodedData,
) -> Result<(usize, usize)>
    ensures { WritesEncoded result W.in_memory (W.failures writer.old) (W.failures writer.new) (W.contents writer.old)
        (W.contents writer.new) encoded.now.ipc_message.items encoded.now.arrow_data.items }
{
    let metadata = encoded.ipc_message.as_slice();
    let body = encoded.arrow_data.as_slice();
    if metadata.len() > MOST_METADATA - PREFIX {
        return Err(Error::Overflow);
    }
    let is_memory = writer.is_memory();
    let before = writer.faults();
    let written = put_encoded(writer, metadata, body);
    outcome(written, is_memory, before, writer.faults())?;
    Ok((
        PREFIX + metadata.len().next_multiple_of(METADATA_ALIGNMENT),
        body.len().next_multiple_of(BODY_ALIGNMENT),
    ))
}
