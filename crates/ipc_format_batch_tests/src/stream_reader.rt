//! Batches of a stream whose dictionary is replaced between them, and chosen columns of a stream.
use crate::answers::{Short, next_of, read_back, reader_of, told};
use crate::cases::{letters, mixed_schema, of_two, other_numbers, texts_by_key};
use crate::devices::{Failing, Pausing, Silent};
use crate::samples::STREAM;
use crate::writers::started;
use ipc_format::columnar_memory::Error;
use ipc_format::nested_arrays_core::AnyArray;
use ipc_format::{Counting, Faults, StreamReader, StreamState, is_choice, read_stream_metadata};
use std::alloc::Global;
use std::io::Read;
use std::test::*;

/// Where the first dictionary ends.
const FIRST_DICTIONARY: usize = 368;

/// Where the first batch ends.
const FIRST_BATCH: usize = 520;

/// Where the second batch ends.
const SECOND_BATCH: usize = 880;

/// The column of the first batch.
fn first_column(alloc: Global) -> Result<AnyArray, Error> {
    texts_by_key(alloc, &["a", "b"], &[0, 1, 0])
}

/// The column of the second batch.
fn second_column(alloc: Global) -> Result<AnyArray, Error> {
    texts_by_key(alloc, &["c"], &[0])
}

#[test]
fn each_batch_by_its_own_dictionary(rt: HostRuntime) -> Result<(), Fail> {
    let alloc = rt.alloc();
    let (first, second) = (first_column(alloc)?, second_column(alloc)?);
    let found = read_back(alloc, &STREAM, &first, &second)?;
    drop(first);
    drop(second);
    assert_eq!(rt; found, [Short::Expected, Short::Expected, Short::Nothing]);
    Ok(())
}

/// What a reader says of itself, and whether it has ended.
fn said<R: Read + Faults + Drop>(reader: &StreamReader<R>) -> (bool, usize, bool) {
    let is_little_endian = reader.metadata().ipc_schema.is_little_endian;
    (
        is_little_endian,
        reader.schema().fields.len(),
        reader.is_finished(),
    )
}

#[test]
fn a_reader_ends_behind_the_end_mark(rt: HostRuntime) -> Result<(), Fail> {
    let first = first_column(rt.alloc())?;
    let mut reader = reader_of(rt.alloc(), &STREAM[..])?;
    let batches = [next_of(&mut reader, &first), next_of(&mut reader, &first)];
    let before = said(&reader);
    let none = [next_of(&mut reader, &first), next_of(&mut reader, &first)];
    let after = said(&reader);
    drop(reader);
    drop(first);
    assert_eq!(rt; batches, [Short::Expected, Short::Other]);
    assert_eq!(rt; none, [Short::Nothing, Short::Nothing]);
    assert_eq!(rt; (before, after), ((true, 1, false), (true, 1, true)));
    Ok(())
}

/// What four calls answer where the device pauses at a place.
fn paused_at(alloc: Global, pause: usize) -> Result<[Short; 4], Error> {
    let (first, second) = (first_column(alloc)?, second_column(alloc)?);
    let device = Pausing {
        bytes: &STREAM,
        place: 0,
        pause,
    };
    let mut reader = reader_of(alloc, Counting::new(device))?;
    Ok([
        next_of(&mut reader, &first),
        next_of(
            &mut reader,
            if pause > FIRST_BATCH { &second } else { &first },
        ),
        next_of(&mut reader, &second),
        next_of(&mut reader, &second),
    ])
}

#[test]
fn a_reader_waits_and_goes_on(rt: HostRuntime) -> Result<(), Fail> {
    let behind_a_dictionary = paused_at(rt.alloc(), FIRST_DICTIONARY + 3)?;
    let behind_a_batch = paused_at(rt.alloc(), FIRST_BATCH)?;
    let before_the_end = paused_at(rt.alloc(), SECOND_BATCH + 1)?;
    let (wait, whole, none) = (Short::Waiting, Short::Expected, Short::Nothing);
    assert_eq!(rt; behind_a_dictionary, [wait, whole, whole, none]);
    assert_eq!(rt; behind_a_batch, [whole, wait, whole, none]);
    assert_eq!(rt; before_the_end, [whole, whole, wait, none]);
    Ok(())
}

#[test]
fn an_end_within_a_message(rt: HostRuntime) -> Result<(), Fail> {
    let first = first_column(rt.alloc())?;
    let found = read_back(rt.alloc(), &STREAM[..FIRST_BATCH + 4], &first, &first)?;
    drop(first);
    assert_eq!(rt; found, [Short::Expected, Short::OutOfSpec, Short::Nothing]);
    Ok(())
}

#[test]
fn a_device_that_fails(rt: HostRuntime) -> Result<(), Fail> {
    let first = first_column(rt.alloc())?;
    let device = Failing {
        bytes: &STREAM[..FIRST_BATCH],
    };
    let mut reader = reader_of(rt.alloc(), Counting::new(device))?;
    let found = [
        next_of(&mut reader, &first),
        next_of(&mut reader, &first),
        next_of(&mut reader, &first),
    ];
    drop(reader);
    drop(first);
    assert_eq!(rt; found, [Short::Expected, Short::Io, Short::Nothing]);
    Ok(())
}

/// A device of a whole stream that fails in silence behind so many reads.
fn silent_behind(good: u64) -> Silent<&'static [u8]> {
    Silent {
        device: &STREAM,
        calls: 0,
        good,
    }
}

#[test]
fn a_failure_in_silence_is_no_start(rt: HostRuntime) {
    let mut device = silent_behind(0);
    let found = told(read_stream_metadata(rt.alloc(), &mut device));
    assert_eq!(rt; found, Short::Io);
}

#[test]
fn a_failure_in_silence_is_no_batch(rt: HostRuntime) -> Result<(), Fail> {
    let first = first_column(rt.alloc())?;
    // The schema is read by three reads, of the marker, the length and the metadata.
    let mut reader = reader_of(rt.alloc(), silent_behind(3))?;
    let found = [next_of(&mut reader, &first), next_of(&mut reader, &first)];
    drop(reader);
    drop(first);
    assert_eq!(rt; found, [Short::Io, Short::Nothing]);
    Ok(())
}

/// The stream of a batch of numbers and letters.
fn mixed_stream(alloc: Global) -> Result<Vec<u8>, Error> {
    let mut writer = started(alloc, &mixed_schema(alloc)?, None)?;
    let batch = of_two(alloc, other_numbers(alloc)?, letters(alloc, &["a", "b"])?)?;
    writer.write(alloc, &batch, None)?;
    writer.finish()?;
    Ok(writer.into_inner())
}

/// A reader of some columns of what stands behind the schema.
fn reader_of_columns<R: Read + Faults + Drop>(
    alloc: Global,
    mut device: R,
    columns: &[usize],
) -> Result<StreamReader<R>, Error> {
    let metadata = read_stream_metadata(alloc, &mut device)?;
    let asked = Vec::from_slice(alloc, columns)?;
    if !is_choice(asked.as_slice(), metadata.schema.fields.len()) {
        return Err(Error::InvalidArgumentError("no choice of columns"));
    }
    StreamReader::new(alloc, device, metadata, Some(asked))
}

fn short_of_two(state: StreamState, first: &AnyArray, second: &AnyArray) -> Short {
    match state {
        StreamState::Waiting => Short::Waiting,
        StreamState::Some(chunk) => match chunk.arrays() {
            [one, other] if one == first && other == second => Short::Expected,
            _ => Short::Other,
        },
    }
}

/// What a reader answers next, beside two columns.
fn next_of_two<R: Read + Faults + Drop>(
    reader: &mut StreamReader<R>,
    first: &AnyArray,
    second: &AnyArray,
) -> Short {
    match reader.next() {
        None => Short::Nothing,
        Some(Ok(state)) => short_of_two(state, first, second),
        Some(Err(_)) => Short::OutOfSpec,
    }
}

/// What a reader of some columns of a whole stream answers to two calls, beside two columns.
fn read_two(
    alloc: Global,
    bytes: &[u8],
    columns: &[usize],
    first: &AnyArray,
    second: &AnyArray,
) -> Result<[Short; 2], Error> {
    let mut reader = reader_of_columns(alloc, bytes, columns)?;
    Ok([
        next_of_two(&mut reader, first, second),
        next_of_two(&mut reader, first, second),
    ])
}

#[test]
fn columns_in_the_asked_order(rt: HostRuntime) -> Result<(), Fail> {
    let alloc = rt.alloc();
    let bytes = mixed_stream(alloc)?;
    let (numbers, letters) = (other_numbers(alloc)?, letters(alloc, &["a", "b"])?);
    let swapped = read_two(alloc, &bytes[..], &[1, 0], &letters, &numbers)?;
    let as_they_stand = read_two(alloc, &bytes[..], &[0, 1], &letters, &numbers)?;
    drop(bytes);
    drop(letters);
    drop(numbers);
    assert_eq!(rt; swapped, [Short::Expected, Short::Nothing]);
    assert_eq!(rt; as_they_stand, [Short::Other, Short::Nothing]);
    Ok(())
}
