//! Files that are written.
use crate::answers::{Short, told};
use crate::cases::{letters, letters_schema, numbers, numbers_schema, of_one};
use crate::samples::{EXAMPLE, EXAMPLE_END};
use ipc_format::columnar_memory::{Error, Items, Schema};
use ipc_format::nested_arrays_core::AnyArray;
use ipc_format::{
    Faults, FileWriter, StreamReader, StreamState, WriteOptions, read_stream_metadata,
};
use std::alloc::Global;
use std::io::Read;
use std::test::*;

/// The length of the footer of a file without fields, 104 bytes, as it stands before the mark.
const FOOTER_LENGTH: [u8; 4] = [0x68, 0, 0, 0];

/// A writer to memory, which has written what stands before a file's batches.
fn started(alloc: Global, schema: Schema) -> Result<FileWriter<Vec<u8>>, Error> {
    FileWriter::try_new(alloc, Vec::new(alloc), schema, None, WriteOptions::new())
}

/// Writes a batch of one column.
fn write_one(
    alloc: Global,
    writer: &mut FileWriter<Vec<u8>>,
    array: AnyArray,
) -> Result<(), Error> {
    let batch = of_one(alloc, array)?;
    writer.write(alloc, &batch, None)
}

/// The file of one batch of numbers.
pub(crate) fn numbers_file(alloc: Global) -> Result<Vec<u8>, Error> {
    let mut writer = started(alloc, numbers_schema(alloc)?)?;
    write_one(alloc, &mut writer, numbers(alloc)?)?;
    writer.finish(alloc)?;
    Ok(writer.into_inner())
}

#[test]
fn a_file_of_one_batch(rt: HostRuntime) -> Result<(), Fail> {
    let bytes = numbers_file(rt.alloc())?;
    let length = bytes.len();
    let is_begun = bytes.starts_with(b"ARROW1\0\0");
    let has_stream = bytes.get(8..504) == Some(EXAMPLE.as_slice());
    let is_ended = bytes.get(504..) == Some(EXAMPLE_END.as_slice());
    drop(bytes);
    assert_eq!(rt;
        (length, is_begun, has_stream, is_ended),
        (746, true, true, true)
    );
    Ok(())
}

/// The file of a schema without fields, and no batch.
fn empty_file(alloc: Global) -> Result<Vec<u8>, Error> {
    let mut writer = started(alloc, Schema::from_fields(Items::new(alloc)))?;
    writer.finish(alloc)?;
    Ok(writer.into_inner())
}

#[test]
fn a_file_without_fields(rt: HostRuntime) -> Result<(), Fail> {
    let bytes = empty_file(rt.alloc())?;
    let length = bytes.len();
    let is_stated = bytes.get(216..220) == Some(FOOTER_LENGTH.as_slice());
    let is_ended = bytes.ends_with(b"ARROW1");
    drop(bytes);
    assert_eq!(rt; (length, is_stated, is_ended), (226, true, true));
    Ok(())
}

/// What a reader's state is, beside a column.
fn short_of_state(state: StreamState, wanted: &AnyArray) -> Short {
    match state {
        StreamState::Waiting => Short::Other,
        StreamState::Some(chunk) => match chunk.arrays() {
            [array] if array == wanted => Short::Expected,
            _ => Short::Other,
        },
    }
}

/// What a reader of a stream answers next, beside a column.
fn next_of<R: Read + Faults + Drop>(reader: &mut StreamReader<R>, wanted: &AnyArray) -> Short {
    match reader.next() {
        None => Short::Nothing,
        Some(Ok(state)) => short_of_state(state, wanted),
        Some(Err(_)) => Short::OutOfSpec,
    }
}

/// A reader of what stands behind a stream's schema.
fn reader_of<R: Read + Faults + Drop>(
    alloc: Global,
    mut device: R,
) -> Result<StreamReader<R>, Error> {
    let metadata = read_stream_metadata(alloc, &mut device)?;
    StreamReader::new(alloc, device, metadata, None)
}

/// What a reader of a stream answers to two calls, beside a column.
fn two_of(alloc: Global, bytes: &[u8], wanted: &AnyArray) -> Result<[Short; 2], Error> {
    let mut reader = reader_of(alloc, bytes)?;
    Ok([next_of(&mut reader, wanted), next_of(&mut reader, wanted)])
}

/// What stands behind the first eight bytes.
fn behind_mark(bytes: &[u8]) -> &[u8] {
    match bytes.get(8..) {
        Some(rest) => rest,
        None => bytes,
    }
}

#[test]
fn a_file_is_a_stream_behind_its_mark(rt: HostRuntime) -> Result<(), Fail> {
    let alloc = rt.alloc();
    let bytes = numbers_file(alloc)?;
    let wanted = numbers(alloc)?;
    let found = two_of(alloc, behind_mark(&bytes), &wanted)?;
    drop(wanted);
    drop(bytes);
    assert_eq!(rt; found, [Short::Expected, Short::Nothing]);
    Ok(())
}

#[test]
fn a_file_replaces_no_dictionary(rt: HostRuntime) -> Result<(), Fail> {
    let alloc = rt.alloc();
    let mut writer = started(alloc, letters_schema(alloc)?)?;
    let first = told(write_one(alloc, &mut writer, letters(alloc, &["a", "b"])?));
    let other = told(write_one(alloc, &mut writer, letters(alloc, &["c", "d"])?));
    let same = told(write_one(alloc, &mut writer, letters(alloc, &["a", "b"])?));
    let finish = told(writer.finish(alloc));
    let late = told(writer.finish(alloc));
    drop(writer);
    assert_eq!(rt;
        (first, other, same),
        (Short::Done, Short::InvalidArgument, Short::Done)
    );
    assert_eq!(rt; (finish, late), (Short::Done, Short::OutOfSpec));
    Ok(())
}

#[test]
fn a_file_is_started_once(rt: HostRuntime) -> Result<(), Fail> {
    let alloc = rt.alloc();
    let schema = numbers_schema(alloc)?;
    let mut writer = FileWriter::new(alloc, Vec::new(alloc), schema, None, WriteOptions::new())?;
    let early = told(write_one(alloc, &mut writer, numbers(alloc)?));
    let first = told(writer.start(alloc));
    let again = told(writer.start(alloc));
    let other = told(write_one(alloc, &mut writer, letters(alloc, &["a", "b"])?));
    let bytes: Vec<u8> = writer.into_inner();
    let length = bytes.len();
    drop(bytes);
    assert_eq!(rt;
        (early, first, again),
        (Short::OutOfSpec, Short::Done, Short::OutOfSpec)
    );
    assert_eq!(rt; (other, length), (Short::InvalidArgument, 208));
    Ok(())
}
