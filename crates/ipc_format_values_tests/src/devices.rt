//! Devices that give another byte once, or take no more bytes.
use std::io;
use std::io::{Cursor, ErrorKind, Read, Seek, SeekFrom, Write};

/// A file of which one byte is another one when it is read first.
#[derive(Drop)]
pub(crate) struct Mending<'a> {
    pub(crate) file: Cursor<&'a [u8]>,
    /// Where the byte stands, until it was read.
    pub(crate) spoilt: Option<u64>,
}

impl Mending<'_> {
    /// Spoils the byte among those that were read from a place on, if it is one of them.
    fn spoil(&mut self, bytes: &mut [u8], start: u64) {
        let Some(place) = self.spoilt else {
            return;
        };
        if place < start {
            return;
        }
        let Ok(index) = usize::try_from(place - start) else {
            return;
        };
        if let Some(byte) = bytes.get_mut(index) {
            *byte = 255;
            self.spoilt = None;
        }
    }
}

impl Read for Mending<'_> {
    fn read(&mut self, buffer: &mut [u8]) -> io::Result<usize> {
        let start = self.file.position();
        let count = self.file.read(buffer)?;
        self.spoil(&mut buffer[..count], start);
        Ok(count)
    }
}

impl Seek for Mending<'_> {
    fn seek(&mut self, place: SeekFrom) -> io::Result<u64> {
        self.file.seek(place)
    }
}

/// A device that takes so many bytes, and behind them fails or takes nothing.
#[derive(Drop)]
pub(crate) struct Stopped {
    pub(crate) bytes: Vec<u8>,
    pub(crate) room: usize,
    pub(crate) may_fail: bool,
}

impl Write for Stopped {
    fn write(&mut self, buffer: &[u8]) -> io::Result<usize> {
        let count = buffer.len().min(self.room);
        if count == 0 && self.may_fail {
            return Err(io::Error::from(ErrorKind::Other));
        }
        self.bytes.extend_from_slice(&buffer[..count])?;
        self.room -= count;
        Ok(count)
    }

    fn flush(&mut self) -> io::Result<()> {
        Ok(())
    }
}
