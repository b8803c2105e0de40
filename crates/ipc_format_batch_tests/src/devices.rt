//! Devices whose bytes come in parts, or that fail.
use ipc_format::Faults;
use std::io;
use std::io::{ErrorKind, Read, Write};

/// A device that pauses once, behind its first bytes.
#[derive(Drop)]
pub(crate) struct Pausing<'a> {
    pub(crate) bytes: &'a [u8],
    pub(crate) place: usize,
    pub(crate) pause: usize,
}

impl Read for Pausing<'_> {
    fn read(&mut self, buffer: &mut [u8]) -> io::Result<usize> {
        let end = self.pause.min(self.bytes.len());
        if self.place >= end {
            self.pause = self.bytes.len();
            return Ok(0);
        }
        let count = buffer.len().min(end - self.place);
        buffer[..count].copy_from_slice(&self.bytes[self.place..self.place + count]);
        self.place += count;
        Ok(count)
    }
}

/// A device that fails behind its bytes.
#[derive(Drop)]
pub(crate) struct Failing<'a> {
    pub(crate) bytes: &'a [u8],
}

impl Read for Failing<'_> {
    fn read(&mut self, buffer: &mut [u8]) -> io::Result<usize> {
        if self.bytes.is_empty() {
            return Err(io::Error::from(ErrorKind::Other));
        }
        let count = buffer.len().min(self.bytes.len());
        buffer[..count].copy_from_slice(&self.bytes[..count]);
        self.bytes = &self.bytes[count..];
        Ok(count)
    }
}

/// A device that takes so many bytes, and fails behind them.
#[derive(Drop)]
pub(crate) struct Full {
    pub(crate) bytes: Vec<u8>,
    pub(crate) room: usize,
}

impl Write for Full {
    fn write(&mut self, buffer: &[u8]) -> io::Result<usize> {
        let count = buffer.len().min(self.room);
        if count == 0 {
            return Err(io::Error::from(ErrorKind::Other));
        }
        self.bytes.extend_from_slice(&buffer[..count])?;
        self.room -= count;
        Ok(count)
    }

    fn flush(&mut self) -> io::Result<()> {
        Ok(())
    }
}

/// A device that takes so many bytes, and behind them nothing, which is no failure of its own.
#[derive(Drop)]
pub(crate) struct Stopped {
    pub(crate) bytes: Vec<u8>,
    pub(crate) room: usize,
}

impl Write for Stopped {
    fn write(&mut self, buffer: &[u8]) -> io::Result<usize> {
        let count = buffer.len().min(self.room);
        self.bytes.extend_from_slice(&buffer[..count])?;
        self.room -= count;
        Ok(count)
    }

    fn flush(&mut self) -> io::Result<()> {
        Ok(())
    }
}

/// A device that counts a failure at each call behind its first ones, though it answers each by `Ok`.
#[derive(Drop)]
pub(crate) struct Silent<T> {
    pub(crate) device: T,
    /// How many calls were made.
    pub(crate) calls: u64,
    /// So many of them are no failures.
    pub(crate) good: u64,
}

impl<T> Faults for Silent<T> {
    ghost use Rattle.std.specs.Prelude.{false, ◌-◌};

    ghost failures = { λ silent. silent.calls - silent.good };

    ghost in_memory = { false };

    fn faults(&self) -> u64 {
        self.calls.saturating_sub(self.good)
    }

    fn is_memory(&self) -> bool {
        false
    }
}

impl Read for Silent<&[u8]> {
    fn read(&mut self, buffer: &mut [u8]) -> io::Result<usize> {
        self.calls = self.calls.saturating_add(1);
        self.device.read(buffer)
    }
}

impl Write for Silent<Vec<u8>> {
    fn write(&mut self, buffer: &[u8]) -> io::Result<usize> {
        self.calls = self.calls.saturating_add(1);
        self.device.write(buffer)
    }

    fn flush(&mut self) -> io::Result<()> {
        Ok(())
    }
}
