//! Where the buffers of batches stand: in memory, or on a device.
ghost use Rattle.std.specs.Prelude.{◌≡◌, ◌+◌, ◌<◌, ◌≤◌, IfErr, length, MatchResult};
ghost use Rattle.std.specs.Option.{option_copied};
ghost use Rattle.ipc_format_column_bytes.specs.streams.flatbuffers.Reading.{window_at};
ghost use Rattle.ipc_format_column_bytes.specs.streams.Arriving.{IsOfDevice};
ghost use Rattle.ipc_format_column_reading.specs.Rooms.{FillsFrom, TellsExtent};

use ipc_format_column_bytes::streams::columnar_memory::{Error, Result};
use ipc_format_column_bytes::streams::flatbuffers::window;
use ipc_format_column_bytes::streams::{Faults, read_outcome};
use std::io::{Read, Seek, SeekFrom};

/// How many bytes are asked for at once of a device, beyond those that came.
const PIECE: usize = 65536;

/// Where the buffers of batches stand. Every device that reads, seeks and counts its failures is one, and so are bytes in memory.
pub trait Room {
    ghost use Rattle.ipc_format_column_reading.specs.Rooms.{Told};

    // All the bytes, where they stand in memory, and how often the device has failed.
    ghost told: { Self → Told };

    /// All the bytes, where they stand in memory.
    fn as_memory(&self) -> Option<&[u8]>
        ensures { option_copied result ≡ (told self.now).bytes };

    /// Puts `count` bytes in place of those that a vector holds: those from `origin + offset` on. Bytes in memory stay, whatever comes.
    ///
    /// # Errors
    /// - `Io`: the device failed, also where each of its reads was answered by `Ok`.
    /// - `OutOfSpec`: the bytes end before, or the device refuses without a failure, or its count of failures falls.
    /// - `OutOfMemory`: the vector, or the device, found no memory. Memory is asked for by what came.
    fn fill_from(
        &mut self,
        origin: u64,
        offset: u64,
        count: usize,
        into: &mut Vec<u8>,
    ) -> Result<()>
        ensures room { (told self.new).bytes ≡ (told self.old).bytes }
        ensures fills { FillsFrom (told self.old) (told self.new) (origin + offset) count into.new.items result };

    /// Where the room begins, and where it ends: a device begins where it stands.
    ///
    /// # Errors
    /// - `Io`: the device failed, also where each of its calls was answered by `Ok`.
    /// - `OutOfSpec`: it refuses without a failure, or its count of failures falls.
    /// - `OutOfMemory`: it found no memory.
    fn extent(&mut self) -> Result<(u64, u64)>
        ensures room { (told self.new).bytes ≡ (told self.old).bytes }
        ensures tells { TellsExtent (told self.old) (told self.new) result };
}

/// Bytes in memory.
#[derive(Clone, Copy, Debug)]
pub struct InMemory<'a> {
    pub bytes: &'a [u8],
}

/// The `count` bytes from `origin + offset` on, where there are so many.
pub fn window_from(bytes: &[u8], origin: u64, offset: u64, count: usize) -> Option<&[u8]>
    ensures { option_copied result ≡ window_at bytes.now (origin + offset) count }
{
    let len = bytes.len();
    let place = usize::try_from(origin.checked_add(offset)?).ok()?;
    if place > len {
        return None;
    }
    window(bytes, place, count)
}

impl<'a> Room for InMemory<'a> {
    ghost use Rattle.std.specs.Prelude.{Some};

    ghost told = { λ room. record { bytes = Some room.bytes.now; failures = 0 } };

    fn as_memory(&self) -> Option<&[u8]> {
        Some(self.bytes)
    }

    fn fill_from(
        &mut self,
        origin: u64,
        offset: u64,
        count: usize,
        into: &mut Vec<u8>,
    ) -> Result<()> {
        let Some(part) = window_from(self.bytes, origin, offset, count) else {
            return Err(Error::OutOfSpec("bytes that end before"));
        };
        into.clear();
        into.extend_from_slice(part)?;
        Ok(())
    }

    fn extent(&mut self) -> Result<(u64, u64)> {
        Ok((0, self.bytes.len() as u64))
    }
}

impl<R: Read + Seek + Faults> Room for R {
    ghost use Rattle.std.specs.Prelude.{None};

    ghost told = { λ device. record { bytes = None; failures = R.failures device } };

    fn as_memory(&self) -> Option<&[u8]> {
        None
    }

    #[tactic(auto, using(crate::proofs::RoomOutcomes::room_fills))]
    fn fill_from(
        &mut self,
        origin: u64,
        offset: u64,
        count: usize,
        into: &mut Vec<u8>,
    ) -> Result<()> {
        let Some(place) = origin.checked_add(offset) else {
            return Err(Error::OutOfSpec("a place past 64 bits"));
        };
        let is_memory = self.is_memory();
        let before = self.faults();
        let filled = fill_in_pieces(self, place, count, into);
        read_outcome(filled, is_memory, before, self.faults())
    }

    #[tactic(auto, using(crate::proofs::RoomOutcomes::room_tells))]
    fn extent(&mut self) -> Result<(u64, u64)> {
        let is_memory = self.is_memory();
        let before = self.faults();
        let found = ends_of(self);
        read_outcome(found, is_memory, before, self.faults())
    }
}

/// The place where a device stands, and that of its end, where it stands then.
fn ends_of<S: Seek>(device: &mut S) -> Result<(u64, u64)>
    ensures { IfErr result IsOfDevice }
{
    let start = device.seek(SeekFrom::Current(0))?;
    let end = device.seek(SeekFrom::End(0))?;
    Ok((start, end))
}

/// Puts the next piece of `count` bytes behind those that a vector holds.
fn fill_piece<R: Read>(device: &mut R, count: usize, into: &mut Vec<u8>) -> Result<()>
    requires { length into.old.items < count }
    ensures { MatchResult result (λ _. (length into.old.items < length into.new.items) × (length into.new.items ≤ count)) IsOfDevice }
{
    let start = into.len();
    into.resize(start + PIECE.min(count - start), 0)?;
    device.read_exact(&mut into[start..])?;
    Ok(())
}

/// Puts the `count` bytes from a place on in place of those that a vector holds, in pieces, so that memory is asked for by what came.
fn fill_in_pieces<R: Read + Seek>(
    device: &mut R,
    place: u64,
    count: usize,
    into: &mut Vec<u8>,
) -> Result<()>
    ensures { MatchResult result (λ _. length into.new.items ≡ count) IsOfDevice }
{
    into.clear();
    device.seek(SeekFrom::Start(place))?;
    while into.len() < count {
        fill_piece(device, count, into)?;
    }
    Ok(())
}
