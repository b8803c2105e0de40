//! Messages written to a device, one behind the other (Arrow IPC, "Encapsulated message format").
ghost use Rattle.std.specs.Prelude.{◌≡◌, ◌+◌, ◌≤◌, ◌++◌, ◌∷◌, [], length, true};
ghost use Rattle.std.specs.List.{list_all};
ghost use Rattle.ipc_format_chunk_writing.specs.EncodedChunks.{message_in, messages_in};
ghost use Rattle.ipc_format_batch_reading.specs.grammar.WrittenMessages.{fits_limit, framed, most_metadata, prefix_size};
ghost use Rattle.ipc_format_batch_reading.specs.grammar.WrittenStreams.{bytes_of_messages};
ghost use Rattle.ipc_format_batch_reading.specs.streams.Devices.{Puts};
ghost use Rattle.ipc_format_batch_reading.specs.streams.EncodedMessages.{prefix_bytes};
ghost use Rattle.ipc_format_chunk_writing.specs.Sending.{Delivers};

use ipc_format_batch_reading::columnar_memory::Result;
use ipc_format_batch_reading::streams::{EncodedData, Faults, outcome, put};
use std::io::Write;

/// Before each message's length.
const MARKER: [u8; 4] = [0xff; 4];

/// Writes the marker and a length.
fn put_prefix<W: Write>(writer: &mut W, length: u32) -> Result<()>
    ensures { Puts result (W.contents writer.old) (W.contents writer.new) (prefix_bytes length) }
{
    put(writer, &MARKER)?;
    put(writer, &length.to_le_bytes())
}

/// Writes a message to a device: its marker, the length of its metadata, its metadata and its body (Arrow IPC, "Encapsulated message format").
///
/// # Errors
/// - `Io`: the device refused. A beginning of the message is written.
pub fn put_message<W: Write>(writer: &mut W, metadata: &[u8], body: &[u8]) -> Result<()>
    requires { prefix_size + length metadata.now ≤ most_metadata }
    ensures { Puts result (W.contents writer.old) (W.contents writer.new) (framed metadata.now body.now) }
{
    put_prefix(writer, metadata.len() as u32)?;
    put(writer, metadata)?;
    put(writer, body)
}

/// Writes encoded messages to a device, one after another.
///
/// # Errors
/// - `Io`: the device refused. A beginning of the messages is written.
pub fn put_messages<W: Write>(writer: &mut W, messages: &[EncodedData]) -> Result<()>
    requires { list_all fits_limit (messages_in messages.now) ≡ true }
    ensures { Puts result (W.contents writer.old) (W.contents writer.new) (bytes_of_messages (messages_in messages.now)) }
{
    for message in messages {
        put_message(
            writer,
            message.ipc_message.as_slice(),
            message.arrow_data.as_slice(),
        )?;
    }
    Ok(())
}

/// Writes messages, and another one behind them.
fn put_all<W: Write>(writer: &mut W, messages: &[EncodedData], last: &EncodedData) -> Result<()>
    requires { list_all fits_limit (messages_in messages.now ++ message_in last.now ∷ []) ≡ true }
    ensures { Puts result (W.contents writer.old) (W.contents writer.new) (bytes_of_messages (messages_in messages.now ++ message_in last.now ∷ [])) }
{
    put_messages(writer, messages)?;
    put_message(
        writer,
        last.ipc_message.as_slice(),
        last.arrow_data.as_slice(),
    )
}

/// Writes messages, and another one behind them.
///
/// # Errors
/// - `Io`: the device failed, also where each of its writes was answered by `Ok`.
/// - `OutOfSpec`: it took nothing of a piece, or refused it without a failure, or its count of failures fell. Memory never answers this.
/// - `OutOfMemory`: it had no memory.
///
/// A beginning of the bytes is then written, perhaps all of them.
#[tactic(auto, using(crate::proofs::Delivered::delivered))]
pub fn send<W: Write + Faults>(
    writer: &mut W,
    messages: &[EncodedData],
    last: &EncodedData,
) -> Result<()>
    requires { list_all fits_limit (messages_in messages.now ++ message_in last.now ∷ []) ≡ true }
    ensures { Delivers result W.in_memory (W.failures writer.old) (W.failures writer.new) (W.contents writer.old) (W.contents writer.new)
        (bytes_of_messages (messages_in messages.now ++ message_in last.now ∷ [])) }
{
    let is_memory = writer.is_memory();
    let before = writer.faults();
    let written = put_all(writer, messages, last);
    outcome(written, is_memory, before, writer.faults())
}
