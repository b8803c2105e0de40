//! Streams of which a part is refused.
use crate::answers::{Short, told};
use crate::cases::{id, letters, numbers, numbers_schema, of_one, of_two, other_numbers};
use crate::devices::{Full, Silent, Stopped};
use crate::samples::EXAMPLE;
use crate::writers::{calls, start_numbers, started, write_numbers, write_one};
use ipc_format::columnar_memory::Error;
use ipc_format::{Compression, Counting, StreamWriter, WriteOptions};
use std::alloc::Global;
use std::test::*;

/// Where the example's schema ends.
const SCHEMA: usize = 200;

/// Where its batch ends.
const BATCH: usize = 488;

/// Writes a batch of letters.
fn write_letters(alloc: Global, writer: &mut StreamWriter<Vec<u8>>) -> Result<(), Error> {
    write_one(alloc, writer, letters(alloc, &["a", "b"])?)
}

/// Writes a batch of two columns of numbers.
fn write_two(alloc: Global, writer: &mut StreamWriter<Vec<u8>>) -> Result<(), Error> {
    let batch = of_two(alloc, numbers(alloc)?, numbers(alloc)?)?;
    writer.write(alloc, &batch, None)
}

/// Writes a batch of numbers with an id, which no number has.
fn write_with_id(alloc: Global, writer: &mut StreamWriter<Vec<u8>>) -> Result<(), Error> {
    let batch = of_one(alloc, other_numbers(alloc)?)?;
    writer.write(alloc, &batch, Some(&[id(alloc, Some(0))]))
}

#[test]
fn a_batch_belongs_to_the_schema(rt: HostRuntime) -> Result<(), Fail> {
    let alloc = rt.alloc();
    let mut writer = started(alloc, &numbers_schema(alloc)?, None)?;
    let other = told(write_letters(alloc, &mut writer));
    let more = told(write_two(alloc, &mut writer));
    let with_id = told(write_with_id(alloc, &mut writer));
    let bytes: Vec<u8> = writer.into_inner();
    let is_schema = bytes.as_slice() == &EXAMPLE[..SCHEMA];
    drop(bytes);
    let refused = Short::InvalidArgument;
    assert_eq!(rt; [other, more, with_id], [refused, refused, refused]);
    assert!(rt; is_schema);
    Ok(())
}

/// What three calls answer where the device has room for so many bytes, what they answer then, and whether the example is written so far.
fn full_at(alloc: Global, room: usize) -> ([Short; 3], [Short; 3], bool) {
    let device = Full {
        bytes: Vec::new(alloc),
        room,
    };
    let mut writer = StreamWriter::new(alloc, Counting::new(device), WriteOptions::new());
    let first = calls(alloc, &mut writer);
    let later = calls(alloc, &mut writer);
    let counting = writer.into_inner();
    let bytes = counting.device.bytes.as_slice();
    let is_beginning = bytes.len() == room && EXAMPLE.starts_with(bytes);
    (first, later, is_beginning)
}

#[test]
fn a_device_fails(rt: HostRuntime) -> Result<(), Fail> {
    let (done, refused, failed) = (Short::Done, Short::OutOfSpec, Short::Io);
    let cases = [
        (0, [failed, refused, refused]),
        (SCHEMA - 1, [failed, refused, refused]),
        (SCHEMA, [done, failed, refused]),
        (BATCH - 1, [done, failed, refused]),
        (BATCH, [done, done, failed]),
        (EXAMPLE.len(), [done, done, done]),
    ];
    for (room, want) in cases {
        let (first, later, is_beginning) = full_at(rt.alloc(), room);
        assert_eq!(rt; first, want, "room for {room}");
        assert_eq!(rt; later, [refused, refused, refused], "room for {room}");
        assert!(rt; is_beginning, "room for {room}");
    }
    Ok(())
}

/// The same where the device takes nothing more behind so many bytes.
fn stopped_at(alloc: Global, room: usize) -> ([Short; 3], [Short; 3], bool) {
    let device = Stopped {
        bytes: Vec::new(alloc),
        room,
    };
    let mut writer = StreamWriter::new(alloc, Counting::new(device), WriteOptions::new());
    let first = calls(alloc, &mut writer);
    let later = calls(alloc, &mut writer);
    let counting = writer.into_inner();
    let bytes = counting.device.bytes.as_slice();
    let is_beginning = bytes.len() == room && EXAMPLE.starts_with(bytes);
    (first, later, is_beginning)
}

#[test]
fn a_device_takes_nothing(rt: HostRuntime) -> Result<(), Fail> {
    let (done, refused) = (Short::Done, Short::OutOfSpec);
    let cases = [
        (0, [refused, refused, refused]),
        (SCHEMA, [done, refused, refused]),
        (BATCH - 1, [done, refused, refused]),
        (BATCH, [done, done, refused]),
    ];
    for (room, want) in cases {
        let (first, later, is_beginning) = stopped_at(rt.alloc(), room);
        assert_eq!(rt; first, want, "room for {room}");
        assert_eq!(rt; later, [refused, refused, refused], "room for {room}");
        assert!(rt; is_beginning, "room for {room}");
    }
    Ok(())
}

#[test]
fn a_failure_in_silence_is_no_success(rt: HostRuntime) {
    let alloc = rt.alloc();
    let device = Silent {
        device: Vec::new(alloc),
        calls: 0,
        good: 0,
    };
    let mut writer = StreamWriter::new(alloc, device, WriteOptions::new());
    let found = calls(alloc, &mut writer);
    let silent = writer.into_inner();
    let is_schema = silent.device.as_slice() == &EXAMPLE[..SCHEMA];
    drop(silent);
    let refused = Short::OutOfSpec;
    assert_eq!(rt; found, [Short::Io, refused, refused]);
    assert!(rt; is_schema);
}

#[test]
fn no_batch_is_compressed(rt: HostRuntime) -> Result<(), Fail> {
    let alloc = rt.alloc();
    let options = WriteOptions {
        compression: Some(Compression::LZ4),
    };
    let mut writer = StreamWriter::new(alloc, Vec::new(alloc), options);
    let start = told(start_numbers(alloc, &mut writer));
    let refused = told(write_numbers(alloc, &mut writer));
    let bytes: Vec<u8> = writer.into_inner();
    let is_schema = bytes.as_slice() == &EXAMPLE[..SCHEMA];
    drop(bytes);
    assert_eq!(rt; (start, refused), (Short::Done, Short::NotYetImplemented));
    assert!(rt; is_schema);
    Ok(())
}
