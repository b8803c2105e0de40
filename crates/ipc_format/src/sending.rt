//! What stands at both ends of a file, written to a device (Arrow IPC, "IPC File Format").
ghost use Rattle.std.specs.Prelude.{◌≡◌, ◌<◌, ◌^◌, [], IfErr, MatchResult, length, replicate, true};
ghost use Rattle.ipc_format_readers.specs.chunk_writing.Sending.{Delivers};
ghost use Rattle.ipc_format_readers.specs.chunk_writing.EncodedChunks.{message_in};
ghost use Rattle.ipc_format_readers.specs.chunk_writing.grammar.WrittenMessages.{fits_limit};
ghost use Rattle.ipc_format_readers.specs.chunk_writing.columnar_memory.Error.{IsIo};
ghost use Rattle.ipc_format_readers.specs.streams.Devices.{IsRefusedWrite, Puts};
ghost use Rattle.ipc_format.specs.Ends.{end_with_zeros, file_tail, first_bytes};

use ipc_format_readers::chunk_writing::put_message;
use ipc_format_readers::streams::columnar_memory::{Error, Result};
use ipc_format_readers::streams::{EncodedData, Faults, outcome, put};
use std::io::{Seek, SeekFrom, Write};

/// The mark of a file, and two zeros.
const START: [u8; 8] = [65, 82, 82, 79, 87, 49, 0, 0];

/// The mark of a file.
const MARK: [u8; 6] = [65, 82, 82, 79, 87, 49];

/// What ends the messages.
const END: [u8; 8] = [255, 255, 255, 255, 0, 0, 0, 0];

/// As many zeros as are written at once.
const ZEROS: [u8; 4096] = [0; 4096];

/// Writes the start of a file, and its first message.
fn put_start<W: Write>(writer: &mut W, message: &EncodedData) -> Result<()>
    requires { fits_limit (message_in message.now) ≡ true }
    ensures { Puts result (W.contents writer.old) (W.contents writer.new) (first_bytes (message_in message.now)) }
{
    put(writer, &START)?;
    put_message(
        writer,
        message.ipc_message.as_slice(),
        message.arrow_data.as_slice(),
    )
}

/// Writes the length of a footer, and the mark.
fn put_tail<W: Write>(writer: &mut W, length: u32) -> Result<()>
    ensures { Puts result (W.contents writer.old) (W.contents writer.new) (file_tail length) }
{
    put(writer, &length.to_le_bytes())?;
    put(writer, &MARK)
}

/// Writes so many zeros.
pub(crate) fn put_zeros<W: Write>(writer: &mut W, count: u64) -> Result<()>
    ensures { Puts result (W.contents writer.old) (W.contents writer.new) (replicate count 0) }
{
    let mut left = count;
    while left > 0 {
        let piece = left.min(ZEROS.len() as u64);
        put(writer, &ZEROS[..piece as usize])?;
        left -= piece;
    }
    Ok(())
}

/// Writes the end mark of the messages, so many zeros, a footer, its length, and the mark.
pub(crate) fn put_end<W: Write>(writer: &mut W, zeros: u64, footer: &[u8]) -> Result<()>
    requires { length footer.now < 2 ^ 31 }
    ensures { Puts result (W.contents writer.old) (W.contents writer.new) (end_with_zeros zeros footer.now) }
{
    put(writer, &END)?;
    put_zeros(writer, zeros)?;
    put(writer, footer)?;
    put_tail(writer, footer.len() as u32)
}

/// Has a device let go what it holds back.
fn flush<W: Write>(writer: &mut W) -> Result<()>
    ensures { Puts result (W.contents writer.old) (W.contents writer.new) [] }
{
    match writer.flush() {
        Ok(()) => Ok(()),
        Err(error) => Err(Error::Io(error)),
    }
}

/// Writes the end of a file, and has the device let go what it holds back.
fn put_whole_end<W: Write>(writer: &mut W, zeros: u64, footer: &[u8]) -> Result<()>
    requires { length footer.now < 2 ^ 31 }
    ensures { Puts result (W.contents writer.old) (W.contents writer.new) (end_with_zeros zeros footer.now) }
{
    put_end(writer, zeros, footer)?;
    flush(writer)
}

/// Writes the start of a file, and its first message.
///
/// # Errors
/// - `Io`: the device failed, also where each of its writes was answered by `Ok`.
/// - `OutOfSpec`: it took nothing of a piece, or refused it without a failure, or its count of failures fell. Memory never answers this.
/// - `OutOfMemory`: it had no memory.
///
/// A beginning of the bytes is then written, perhaps all of them.
#[tactic(auto, using(crate::proofs::FileDelivered::file_delivered))]
pub(crate) fn send_start<W: Write + Faults>(writer: &mut W, message: &EncodedData) -> Result<()>
    requires { fits_limit (message_in message.now) ≡ true }
    ensures { Delivers result W.in_memory (W.failures writer.old) (W.failures writer.new) (W.contents writer.old) (W.contents writer.new)
        (first_bytes (message_in message.now)) }
{
    let is_memory = writer.is_memory();
    let before = writer.faults();
    let written = put_start(writer, message);
    outcome(written, is_memory, before, writer.faults())
}

/// Writes the end mark of the messages, so many zeros, a footer, its length, and the mark, and has the device let go what it holds back.
///
/// # Errors
/// - `Io`: the device failed, also where each of its writes was answered by `Ok`.
/// - `OutOfSpec`: it took nothing of a piece, or refused it without a failure, or its count of failures fell. Memory never answers this.
/// - `OutOfMemory`: it had no memory.
///
/// A beginning of the bytes is then written, perhaps all of them.
#[tactic(auto, using(crate::proofs::FileDelivered::file_delivered))]
pub(crate) fn send_end<W: Write + Faults>(writer: &mut W, zeros: u64, footer: &[u8]) -> Result<()>
    requires { length footer.now < 2 ^ 31 }
    ensures { Delivers result W.in_memory (W.failures writer.old) (W.failures writer.new) (W.contents writer.old) (W.contents writer.new)
        (end_with_zeros zeros footer.now) }
{
    let is_memory = writer.is_memory();
    let before = writer.faults();
    let written = put_whole_end(writer, zeros, footer);
    outcome(written, is_memory, before, writer.faults())
}

/// Has a device stand at a place, and writes so many zeros there.
fn seek_behind<W: Write + Seek>(writer: &mut W, place: u64, zeros: u64) -> Result<()>
    ensures { IfErr result IsIo }
{
    if let Err(error) = writer.seek(SeekFrom::Start(place)) {
        return Err(Error::Io(error));
    }
    put_zeros(writer, zeros)
}

/// Has a device stand at a place, and writes so many zeros there.
///
/// # Errors
/// - `Io`: the device failed, also where each of its calls was answered by `Ok`.
/// - `OutOfSpec`: it took nothing of a piece, or refused without a failure, or its count of failures fell. Memory never answers this.
/// - `OutOfMemory`: it had no memory.
#[tactic(auto, using(crate::proofs::Stood::stood))]
pub(crate) fn stand_behind<W: Write + Seek + Faults>(
    writer: &mut W,
    place: u64,
    zeros: u64,
) -> Result<()>
    ensures { MatchResult result (λ _. W.failures writer.new ≡ W.failures writer.old)
        (IsRefusedWrite W.in_memory (W.failures writer.old) (W.failures writer.new)) }
{
    let is_memory = writer.is_memory();
    let before = writer.faults();
    let written = seek_behind(writer, place, zeros);
    outcome(written, is_memory, before, writer.faults())
}
