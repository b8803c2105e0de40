//! Files that are read, from memory and from devices.
use crate::answers::{Short, told, told_beside};
use crate::cases::{column, field, numbers, numbers_schema, of_one, of_two};
use ipc_format::columnar_memory::{DataType, Error, Items, Schema};
use ipc_format::nested_arrays_core::flat_arrays::Utf8Array;
use ipc_format::nested_arrays_core::{AnyArray, FlatArray};
use ipc_format::{
    Chunk, Counting, Dictionaries, FileReader, FileWriter, InMemory, Room, WriteOptions, is_choice,
    is_projection, read_batch, read_file_dictionaries, read_file_metadata,
};
use std::alloc::Global;
use std::io::Cursor;
use std::test::*;

/// A schema of two fields without nulls.
fn schema_of(alloc: Global, first: DataType, second: DataType) -> Result<Schema, Error> {
    let mut fields = Items::new(alloc);
    fields.push(field(alloc, "x", first, false)?)?;
    fields.push(field(alloc, "y", second, false)?)?;
    Ok(Schema::from_fields(fields))
}

/// The file of some batches.
pub(crate) fn file_of(
    alloc: Global,
    schema: Schema,
    chunks: &[Chunk<AnyArray>],
) -> Result<Vec<u8>, Error> {
    let mut writer = FileWriter::try_new(
        alloc,
        Vec::new(alloc),
        schema,
        None,
        WriteOptions::new(),
    )?;
    for chunk in chunks {
        writer.write(alloc, chunk, None)?;
    }
    writer.finish(alloc)?;
    Ok(writer.into_inner())
}

/// A file of five batches of x, -1 and 1, and y, 1 and -1.
fn five_batches(alloc: Global) -> Result<Vec<u8>, Error> {
    let schema = schema_of(alloc, DataType::Int32, DataType::Int32)?;
    let mut chunks = Vec::new(alloc);
    for _ in 0..5 {
        chunks.push(of_two(alloc, column(alloc, &[-1, 1])?, column(alloc, &[1, -1])?)?)?;
    }
    file_of(alloc, schema, &chunks)
}

/// Where a word stands first in some bytes, or their length.
pub(crate) fn place_of(bytes: &[u8], word: &[u8]) -> usize {
    for k in 0..bytes.len() {
        if bytes[k..].starts_with(word) {
            return k;
        }
    }
    bytes.len()
}

/// A file of texts and of numbers, with the texts' bytes spoilt.
fn spoilt_texts(alloc: Global) -> Result<Vec<u8>, Error> {
    let schema = schema_of(alloc, DataType::Utf8, DataType::Int32)?;
    let texts: Utf8Array<i32> = Utf8Array::from_slice(alloc, &["kept"])?;
    let texts = AnyArray::from(FlatArray::from(texts));
    let mut chunks = Vec::new(alloc);
    chunks.push(of_two(alloc, texts, column(alloc, &[7])?)?)?;
    let mut bytes = file_of(alloc, schema, &chunks)?;
    let place = place_of(&bytes, b"kept");
    if let Some(byte) = bytes.get_mut(place) {
        *byte = 255;
    }
    Ok(bytes)
}

/// A reader of all columns of a file.
pub(crate) fn reader_of<R: Room + Drop>(
    alloc: Global,
    mut room: R,
) -> Result<FileReader<R>, Error> {
    let metadata = read_file_metadata(alloc, &mut room)?;
    FileReader::new(alloc, room, metadata, None, None)
}

/// A reader of some columns of a file, and so many rows.
fn reader_of_columns<R: Room + Drop>(
    alloc: Global,
    mut room: R,
    columns: &[usize],
    limit: Option<usize>,
) -> Result<FileReader<R>, Error> {
    let metadata = read_file_metadata(alloc, &mut room)?;
    let asked = Vec::from_slice(alloc, columns)?;
    if !is_choice(asked.as_slice(), metadata.schema.fields.len()) {
        return Err(Error::InvalidArgumentError("no choice of columns"));
    }
    FileReader::new(alloc, room, metadata, Some(asked), limit)
}

/// What a reader answers next, beside some columns.
pub(crate) fn next_of<R: Room + Drop>(reader: &mut FileReader<R>, wanted: &[AnyArray]) -> Short {
    told_beside(reader.next(), wanted)
}

/// What a reader of y and x, of three rows, answers to seven calls.
fn swapped<R: Room + Drop>(alloc: Global, room: R) -> Result<[Short; 7], Error> {
    let mut reader = reader_of_columns(alloc, room, &[1, 0], Some(3))?;
    let both = [column(alloc, &[1, -1])?, column(alloc, &[-1, 1])?];
    let one = [column(alloc, &[1])?, column(alloc, &[-1])?];
    let none = [column(alloc, &[])?, column(alloc, &[])?];
    Ok([
        next_of(&mut reader, &both),
        next_of(&mut reader, &one),
        next_of(&mut reader, &none),
        next_of(&mut reader, &none),
        next_of(&mut reader, &none),
        next_of(&mut reader, &none),
        next_of(&mut reader, &none),
    ])
}

#[test]
fn chosen_columns_of_the_first_rows(rt: HostRuntime) -> Result<(), Fail> {
    let alloc = rt.alloc();
    let bytes = five_batches(alloc)?;
    let of_memory = swapped(alloc, InMemory { bytes: &bytes })?;
    let of_device = swapped(alloc, Counting::new(Cursor::new(bytes.as_slice())))?;
    drop(bytes);
    let (whole, none) = (Short::Expected, Short::Nothing);
    assert_eq!(rt; of_memory, [whole, whole, whole, whole, whole, none, none]);
    assert_eq!(rt; of_device, [whole, whole, whole, whole, whole, none, none]);
    Ok(())
}

/// What a reader of a file answers first, of all columns and of the second one.
fn first_of_both<R: Room + Drop>(
    alloc: Global,
    all: R,
    second: R,
    wanted: &[AnyArray],
) -> Result<(Short, Short), Error> {
    let mut all = reader_of(alloc, all)?;
    let mut second = reader_of_columns(alloc, second, &[1], None)?;
    Ok((next_of(&mut all, wanted), next_of(&mut second, wanted)))
}

#[test]
fn what_is_not_chosen_is_not_read(rt: HostRuntime) -> Result<(), Fail> {
    let alloc = rt.alloc();
    let bytes = spoilt_texts(alloc)?;
    let wanted = [column(alloc, &[7])?];
    let found = first_of_both(
        alloc,
        InMemory { bytes: &bytes },
        InMemory { bytes: &bytes },
        &wanted,
    )?;
    drop(wanted);
    drop(bytes);
    assert_eq!(rt; found, (Short::OutOfSpec, Short::Expected));
    Ok(())
}

/// The place of the message of a file's first record batch.
fn first_block(alloc: Global, bytes: &[u8]) -> Result<usize, Error> {
    let mut room = InMemory { bytes };
    let metadata = read_file_metadata(alloc, &mut room)?;
    match metadata.blocks.first() {
        Some(block) => Ok(block.offset),
        None => Err(Error::OutOfSpec("no block")),
    }
}

/// What a reader of a file answers to three calls, beside some columns.
fn three_of<R: Room + Drop>(
    alloc: Global,
    room: R,
    wanted: &[AnyArray],
) -> Result<[Short; 3], Error> {
    let mut reader = reader_of(alloc, room)?;
    Ok([
        next_of(&mut reader, wanted),
        next_of(&mut reader, wanted),
        next_of(&mut reader, wanted),
    ])
}

#[test]
fn a_reader_goes_on_behind_a_refusal(rt: HostRuntime) -> Result<(), Fail> {
    let alloc = rt.alloc();
    let mut chunks = Vec::new(alloc);
    chunks.push(of_one(alloc, column(alloc, &[1, 2, 3])?)?)?;
    chunks.push(of_one(alloc, numbers(alloc)?)?)?;
    let mut bytes = file_of(alloc, numbers_schema(alloc)?, &chunks)?;
    drop(chunks);
    let place = first_block(alloc, &bytes)?;
    if let Some(length) = place.checked_add(7) {
        if let Some(byte) = bytes.get_mut(length) {
            *byte = 255;
        }
    }
    let wanted = [numbers(alloc)?];
    let found = three_of(alloc, InMemory { bytes: &bytes }, &wanted)?;
    drop(wanted);
    drop(bytes);
    assert_eq!(rt; found, [Short::OutOfSpec, Short::Expected, Short::Nothing]);
    Ok(())
}

/// The second batch of a file of five, read by itself: y alone, and one row of it.
fn second_batch(alloc: Global, bytes: &[u8]) -> Result<bool, Error> {
    let mut room = InMemory { bytes };
    let metadata = read_file_metadata(alloc, &mut room)?;
    let (mut message, mut data) = (Vec::new(alloc), Vec::new(alloc));
    let dictionaries: Dictionaries = read_file_dictionaries(
        alloc, &mut room, &metadata, &mut data,
    )?;
    let columns = [1];
    if metadata.blocks.len() <= 1 || !is_projection(&columns, metadata.schema.fields.len()) {
        return Ok(false);
    }
    let chunk = read_batch(
        alloc,
        &mut room,
        &dictionaries,
        &metadata,
        Some(&columns),
        Some(1),
        1,
        &mut message,
        &mut data,
    )?;
    Ok(chunk.arrays() == [column(alloc, &[1])?].as_slice())
}

#[test]
fn one_batch_by_itself(rt: HostRuntime) -> Result<(), Fail> {
    let bytes = five_batches(rt.alloc())?;
    let is_found = second_batch(rt.alloc(), &bytes)?;
    drop(bytes);
    assert_eq!(rt; is_found, true);
    Ok(())
}

/// What two readers of a file answer, of which the first gives its memory to the second, and how many columns that one has.
fn shared_scratches<R: Room + Drop>(
    alloc: Global,
    first: R,
    second: R,
    wanted: &[AnyArray],
) -> Result<([Short; 3], usize), Error> {
    let mut first = reader_of(alloc, first)?;
    let mut second = reader_of(alloc, second)?;
    let begun = next_of(&mut first, wanted);
    let scratches = first.get_scratches();
    second.set_scratches(scratches);
    let found = [
        begun,
        next_of(&mut second, wanted),
        next_of(&mut first, wanted),
    ];
    let width = second.schema().fields.len();
    let _room = first.into_inner();
    Ok((found, width))
}

#[test]
fn scratches_go_from_reader_to_reader(rt: HostRuntime) -> Result<(), Fail> {
    let alloc = rt.alloc();
    let bytes = five_batches(alloc)?;
    let both = [column(alloc, &[-1, 1])?, column(alloc, &[1, -1])?];
    let (found, width) = shared_scratches(
        alloc,
        InMemory { bytes: &bytes },
        InMemory { bytes: &bytes },
        &both,
    )?;
    drop(both);
    drop(bytes);
    assert_eq!(rt; found, [Short::Expected, Short::Expected, Short::Expected]);
    assert_eq!(rt; width, 2);
    Ok(())
}

#[test]
fn files_that_are_none(rt: HostRuntime) -> Result<(), Fail> {
    let alloc = rt.alloc();
    let mut feather = InMemory {
        bytes: b"FEA1 and more behind it",
    };
    let mut other = InMemory {
        bytes: b"ARROW1\0\0ARROW1",
    };
    assert_eq!(rt;
        told(read_file_metadata(alloc, &mut feather)),
        Short::NotYetImplemented
    );
    assert_eq!(rt;
        told(read_file_metadata(alloc, &mut other)),
        Short::OutOfSpec
    );
    Ok(())
}
