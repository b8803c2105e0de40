use crate::calling::head;
use crate::samples::{EXAMPLE, EXAMPLE_FILE};
use crate::streams::REPLACED;
use std::alloc::Global;
use std::io;
use std::io::{ErrorKind, Write};
use std::test::Fail;
use tables::columnar_memory::Error;
use tables::{Failure, Fault, Faults, Form, Table};

// A device with room for so many bytes. Once it is full it fails and counts that, or takes nothing.
#[derive(Drop)]
struct Device {
    bytes: Vec<u8>,
    room: usize,
    may_fail: bool,
    failed: u64,
}

impl Device {
    fn new(alloc: Global, room: usize, may_fail: bool) -> Device {
        Device {
            bytes: Vec::new(alloc),
            room,
            may_fail,
            failed: 0,
        }
    }

    // Whether the device holds the first `size` bytes of the example.
    fn is_beginning(&self, size: usize) -> bool {
        self.bytes.len() == size && EXAMPLE.starts_with(&self.bytes)
    }
}

impl Write for Device {
    fn write(&mut self, buf: &[u8]) -> io::Result<usize> {
        let count = self.room.min(buf.len());
        if count == 0 && self.may_fail {
            self.failed = self.failed.saturating_add(1);
            return Err(io::Error::from(ErrorKind::BrokenPipe));
        }
        self.bytes.extend_from_slice(&buf[..count])?;
        self.room -= count;
        Ok(count)
    }

    fn flush(&mut self) -> io::Result<()> {
        Ok(())
    }
}

impl Faults for Device {
    ghost use Rattle.std.specs.Prelude.{false};

    ghost failures = { λ device. device.failed };

    ghost in_memory = { false };

    fn faults(&self) -> u64 {
        self.failed
    }

    fn is_memory(&self) -> bool {
        false
    }
}

fn table_of(alloc: Global) -> Result<Table, Fault> {
    Table::read(alloc, Form::Stream, &EXAMPLE)
}

#[test]
fn writes_a_beginning(rt: HostRuntime) -> Result<(), Fault> {
    let table = table_of(rt.alloc())?;
    for room in [0, 7, 8, 200, 204, 300, 488, 495] {
        let mut failing = Device::new(rt.alloc(), room, true);
        let refused = table.write_stream(rt.alloc(), &mut failing);
        assert!(rt;
            matches!(&refused, Err(Fault::Ipc(Error::Io(_)))),
            "room for {room}"
        );
        assert!(rt; failing.is_beginning(room), "room for {room}");
        let mut full = Device::new(rt.alloc(), room, false);
        let refused = table.write_stream(rt.alloc(), &mut full);
        assert!(rt;
            matches!(&refused, Err(Fault::Ipc(Error::OutOfSpec(_)))),
            "room for {room}"
        );
        assert!(rt; full.is_beginning(room), "room for {room}");
    }
    Ok(())
}

#[test]
fn writes_a_stream_where_there_is_room(rt: HostRuntime) -> Result<(), Fault> {
    let table = table_of(rt.alloc())?;
    let mut device = Device::new(rt.alloc(), 496, true);
    table.write_stream(rt.alloc(), &mut device)?;
    assert!(rt; device.bytes.as_slice() == EXAMPLE.as_slice());
    Ok(())
}

#[test]
fn writes_a_file_where_there_is_room(rt: HostRuntime) -> Result<(), Fault> {
    let table = table_of(rt.alloc())?;
    let mut device = Device::new(rt.alloc(), 746, true);
    table.write_file(rt.alloc(), &mut device)?;
    assert!(rt; device.bytes.as_slice() == EXAMPLE_FILE.as_slice());
    Ok(())
}

#[test]
fn writes_no_file_of_a_replaced_dictionary(rt: HostRuntime) -> Result<(), Fault> {
    let table = Table::read(rt.alloc(), Form::Stream, &REPLACED)?;
    let mut bytes = Vec::new(rt.alloc());
    let refused = table.write_file(rt.alloc(), &mut bytes);
    assert!(rt; matches!(&refused, Err(Fault::Ipc(Error::InvalidArgumentError(_)))));
    Ok(())
}

#[test]
fn writes_the_first_rows(rt: HostRuntime) -> Result<(), Fault> {
    let table = table_of(rt.alloc())?;
    for (count, rows) in [(0, 0), (1, 1), (2, 2), (3, 2)] {
        let bytes = head(rt.alloc(), &table, count)?;
        let read = Table::read(rt.alloc(), Form::Stream, &bytes)?;
        assert_eq!(rt; read.rows(), rows);
    }
    Ok(())
}

#[test]
fn prints_texts(rt: HostRuntime) -> Result<(), Fail> {
    let alloc = rt.alloc();
    let fault = Fault::Ipc(Error::OutOfSpec("a rule"));
    assert!(rt; format!(in alloc; "{fault}")?.as_str() == "ipc: out of specification");
    let failure = Failure::Fault(Fault::Memory);
    assert!(rt; format!(in alloc; "{failure}")?.as_str() == "out of memory");
    Ok(())
}
