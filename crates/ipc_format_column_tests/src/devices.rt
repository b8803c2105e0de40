//! Buffers that are read from devices.
use crate::cases::buffers;
use ipc_format_reading::Room;
use ipc_format_reading::array_reading::column_writing::column_reading::read_buffer;
use ipc_format_reading::columnar_memory::{Buffer, Error};
use ipc_format_reading::streams::{Counting, Faults};
use std::alloc::Global;
use std::io;
use std::io::{Cursor, ErrorKind, Read, Seek, SeekFrom};
use std::test::*;

/// The two numbers of a buffer that begins at place 4 of a device.
fn two_numbers<R: Room>(alloc: Global, device: &mut R) -> Result<Result<Buffer<i32>, Error>, Fail> {
    let mut queue = buffers(alloc, &[(1, 8)])?;
    let mut scratch = Vec::new(alloc);
    Ok(read_buffer::<i32, _>(alloc, &mut queue, 2, device, 3, true, None, &mut scratch))
}

const BYTES: [u8; 12] = [9, 9, 9, 9, 1, 0, 0, 0, 2, 0, 0, 0];

#[test]
fn a_cursor(rt: HostRuntime) -> Result<(), Fail> {
    let alloc = rt.alloc();
    let found = two_numbers(alloc, &mut Cursor::new(&BYTES[..]))?;
    let two = found.ok().ok_or("refused")?;
    assert_eq!(rt; two.as_slice(), &[1, 2][..]);
    let found = two_numbers(alloc, &mut Cursor::new(&BYTES[..11]))?;
    assert!(rt; matches!(found, Err(Error::OutOfSpec(_))));
    Ok(())
}

/// A device whose reads fail from the second one on.
#[derive(Drop)]
struct Failing {
    reads: u8,
}

impl Read for Failing {
    fn read(&mut self, buffer: &mut [u8]) -> io::Result<usize> {
        if self.reads > 0 {
            return Err(io::Error::from(ErrorKind::BrokenPipe));
        }
        self.reads = 1;
        Ok(buffer.len().min(1))
    }
}

impl Seek for Failing {
    fn seek(&mut self, _to: SeekFrom) -> io::Result<u64> {
        Ok(0)
    }
}

impl Faults for Failing {
    ghost use Rattle.std.specs.Prelude.{false};

    ghost failures = { λ _. 0 };

    ghost in_memory = { false };

    fn faults(&self) -> u64 {
        0
    }

    fn is_memory(&self) -> bool {
        false
    }
}

#[test]
fn failures_are_told_from_refusals(rt: HostRuntime) -> Result<(), Fail> {
    let alloc = rt.alloc();
    let found = two_numbers(alloc, &mut Failing { reads: 0 })?;
    assert!(rt; matches!(found, Err(Error::OutOfSpec(_))));
    let mut counting = Counting::new(Failing { reads: 0 });
    let found = two_numbers(alloc, &mut counting)?;
    assert!(rt; matches!(found, Err(Error::Io(_))));
    assert_eq!(rt; counting.failures, 1);
    Ok(())
}
