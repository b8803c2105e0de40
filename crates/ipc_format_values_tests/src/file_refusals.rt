//! Files whose dictionary is refused, and devices that take no more of a file.
use crate::answers::{Short, told};
use crate::cases::{letters, letters_schema, numbers, numbers_schema, of_one, texts_by_key};
use crate::devices::{Mending, Stopped};
use crate::file_reader::{file_of, next_of, place_of, reader_of};
use crate::file_writer::numbers_file;
use ipc_format::columnar_memory::Error;
use ipc_format::nested_arrays_core::AnyArray;
use ipc_format::{Counting, Faults, FileWriter, InMemory, Room, WriteOptions};
use std::alloc::Global;
use std::io::{Cursor, Write};
use std::test::*;

/// The values of the dictionary, of which the first one is spoilt.
const TEXTS: [&str; 2] = ["kept", "lost"];

/// Where the schema ends in the file of numbers.
const SCHEMA: usize = 208;

/// Where its batch ends.
const BATCH: usize = 496;

/// The column of the second batch.
fn second_letters(alloc: Global) -> Result<AnyArray, Error> {
    texts_by_key(alloc, &TEXTS, &[1, 0])
}

/// A file of two batches of one dictionary.
fn two_batches(alloc: Global) -> Result<Vec<u8>, Error> {
    let mut chunks = Vec::new(alloc);
    chunks.push(of_one(alloc, letters(alloc, &TEXTS)?)?)?;
    chunks.push(of_one(alloc, second_letters(alloc)?)?)?;
    file_of(alloc, letters_schema(alloc)?, &chunks)
}

/// What a reader of a file answers to four calls, beside the second batch.
fn four_of<R: Room + Drop>(alloc: Global, room: R) -> Result<[Short; 4], Error> {
    let wanted = [second_letters(alloc)?];
    let mut reader = reader_of(alloc, room)?;
    Ok([
        next_of(&mut reader, &wanted),
        next_of(&mut reader, &wanted),
        next_of(&mut reader, &wanted),
        next_of(&mut reader, &wanted),
    ])
}

#[test]
fn each_block_is_tried_once(rt: HostRuntime) -> Result<(), Fail> {
    let alloc = rt.alloc();
    let mut bytes = two_batches(alloc)?;
    let place = place_of(&bytes, b"kept");
    if let Some(byte) = bytes.get_mut(place) {
        *byte = 255;
    }
    let found = four_of(alloc, InMemory { bytes: &bytes })?;
    drop(bytes);
    let (refused, none) = (Short::OutOfSpec, Short::Nothing);
    assert_eq!(rt; found, [refused, refused, none, none]);
    Ok(())
}

#[test]
fn dictionaries_are_read_anew(rt: HostRuntime) -> Result<(), Fail> {
    let alloc = rt.alloc();
    let bytes = two_batches(alloc)?;
    let device = Mending {
        file: Cursor::new(bytes.as_slice()),
        spoilt: Some(place_of(&bytes, b"kept") as u64),
    };
    let found = four_of(alloc, Counting::new(device))?;
    drop(bytes);
    let (refused, none) = (Short::OutOfSpec, Short::Nothing);
    assert_eq!(rt; found, [refused, Short::Expected, none, none]);
    Ok(())
}

/// Writes a batch of numbers.
fn write_numbers<W: Write + Faults>(
    alloc: Global,
    writer: &mut FileWriter<W>,
) -> Result<(), Error> {
    let batch = of_one(alloc, numbers(alloc)?)?;
    writer.write(alloc, &batch, None)
}

/// What `start`, `write` and `finish` answer, one after the other.
fn calls<W: Write + Faults>(alloc: Global, writer: &mut FileWriter<W>) -> [Short; 3] {
    let start = told(writer.start(alloc));
    let write = told(write_numbers(alloc, writer));
    [start, write, told(writer.finish(alloc))]
}

/// What three calls answer where a device takes so many bytes, what they answer then, and whether the file is written so far.
fn stopped_at(
    alloc: Global,
    room: usize,
    may_fail: bool,
) -> Result<([Short; 3], [Short; 3], bool), Error> {
    let device = Stopped {
        bytes: Vec::new(alloc),
        room,
        may_fail,
    };
    let whole = numbers_file(alloc)?;
    let schema = numbers_schema(alloc)?;
    let options = WriteOptions::new();
    let mut writer = FileWriter::new(alloc, Counting::new(device), schema, None, options)?;
    let first = calls(alloc, &mut writer);
    let later = calls(alloc, &mut writer);
    let counting = writer.into_inner();
    let bytes = counting.device.bytes.as_slice();
    let is_beginning = bytes.len() == room && whole.starts_with(bytes);
    Ok((first, later, is_beginning))
}

#[test]
fn a_device_fails(rt: HostRuntime) -> Result<(), Fail> {
    let (done, refused, failed) = (Short::Done, Short::OutOfSpec, Short::Io);
    let cases = [
        (0, [failed, refused, refused]),
        (SCHEMA, [done, failed, refused]),
        (BATCH, [done, done, failed]),
    ];
    for (room, want) in cases {
        let (first, later, is_beginning) = stopped_at(rt.alloc(), room, true)?;
        assert_eq!(rt; first, want, "room for {room}");
        assert_eq!(rt; later, [refused, refused, refused], "room for {room}");
        assert!(rt; is_beginning, "room for {room}");
    }
    Ok(())
}

#[test]
fn a_device_takes_nothing(rt: HostRuntime) -> Result<(), Fail> {
    let (done, refused) = (Short::Done, Short::OutOfSpec);
    let cases = [
        (0, [refused, refused, refused]),
        (SCHEMA, [done, refused, refused]),
        (BATCH, [done, done, refused]),
    ];
    for (room, want) in cases {
        let (first, later, is_beginning) = stopped_at(rt.alloc(), room, false)?;
        assert_eq!(rt; first, want, "room for {room}");
        assert_eq!(rt; later, [refused, refused, refused], "room for {room}");
        assert!(rt; is_beginning, "room for {room}");
    }
    Ok(())
}
