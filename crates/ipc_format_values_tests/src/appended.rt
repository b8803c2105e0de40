//! Batches that are appended to files, in memory and on devices.
use crate::answers::{Short, told, told_beside};
use crate::cases::{column, field, letters, letters_schema, numbers, numbers_schema, of_one};
use crate::samples::{NOTED_END, NOTED_FOOTER, NOTED_MESSAGES};
use ipc_format::columnar_memory::{DataType, Error, Items, Schema};
use ipc_format::format::Block;
use ipc_format::nested_arrays_core::flat_arrays::BooleanArray;
use ipc_format::nested_arrays_core::{AnyArray, FlatArray};
use ipc_format::{
    Chunk, FileMetadata, FileReader, FileWriter, InMemory, MessageBlock, Room, WriteOptions,
    append_file, footer_to_bytes, read_file_metadata,
};
use std::alloc::Global;
use std::io::Cursor;
use std::test::*;

/// What stands behind a file's messages.
const END: [u8; 8] = [0xff, 0xff, 0xff, 0xff, 0, 0, 0, 0];

/// True, true, false and a null.
fn truths(alloc: Global) -> Result<AnyArray, Error> {
    let array = BooleanArray::from(alloc, &[Some(true), Some(true), Some(false), None])?;
    Ok(AnyArray::from(FlatArray::from(array)))
}

/// The schema of x, truth values and nulls.
fn truths_schema(alloc: Global) -> Result<Schema, Error> {
    let mut fields = Items::new(alloc);
    fields.push(field(alloc, "x", DataType::Boolean, true)?)?;
    Ok(Schema::from_fields(fields))
}

/// Batches of one column each.
fn chunks_of(alloc: Global, first: AnyArray) -> Result<Vec<Chunk<AnyArray>>, Error> {
    let mut chunks = Vec::new(alloc);
    chunks.push(of_one(alloc, first)?)?;
    Ok(chunks)
}

/// The file of some batches.
fn file_of(alloc: Global, schema: Schema, chunks: &[Chunk<AnyArray>]) -> Result<Vec<u8>, Error> {
    let options = WriteOptions::new();
    let mut writer = FileWriter::try_new(alloc, Vec::new(alloc), schema, None, options)?;
    for chunk in chunks {
        writer.write(alloc, chunk, None)?;
    }
    writer.finish(alloc)?;
    Ok(writer.into_inner())
}

/// The file of one batch of truth values.
fn truths_file(alloc: Global) -> Result<Vec<u8>, Error> {
    let chunks = chunks_of(alloc, truths(alloc)?)?;
    file_of(alloc, truths_schema(alloc)?, &chunks)
}

/// A file with a batch of one column more.
fn with_one(alloc: Global, file: Vec<u8>, array: AnyArray) -> Result<Vec<u8>, Error> {
    let chunks = chunks_of(alloc, array)?;
    append_file(alloc, file, &chunks)
}

/// The same by a writer on a device, which takes the memory of another writer.
fn with_one_on_device(alloc: Global, file: Vec<u8>, array: AnyArray) -> Result<Vec<u8>, Error> {
    let mut device = Cursor::new(file);
    let metadata = read_file_metadata(alloc, &mut device)?;
    let mut other = FileWriter::new(
        alloc,
        Vec::new(alloc),
        truths_schema(alloc)?,
        None,
        WriteOptions::new(),
    )?;
    let mut writer = FileWriter::try_from_file(alloc, device, metadata, WriteOptions::new())?;
    writer.set_scratches(other.get_scratches(alloc));
    let batch = of_one(alloc, array)?;
    writer.write(alloc, &batch, None)?;
    writer.finish(alloc)?;
    Ok(writer.into_inner().into_inner())
}

/// What a reader answers next, beside some columns.
fn next_of<R: Room + Drop>(reader: &mut FileReader<R>, wanted: &[AnyArray]) -> Short {
    told_beside(reader.next(), wanted)
}

/// What a reader of a file answers to three calls, beside some columns.
fn three_of<R: Room + Drop>(
    alloc: Global,
    mut room: R,
    wanted: &[AnyArray],
) -> Result<[Short; 3], Error> {
    let metadata = read_file_metadata(alloc, &mut room)?.clone()?;
    let mut reader = FileReader::new(alloc, room, metadata, None, None)?;
    Ok([
        next_of(&mut reader, wanted),
        next_of(&mut reader, wanted),
        next_of(&mut reader, wanted),
    ])
}

#[test]
fn a_batch_is_appended(rt: HostRuntime) -> Result<(), Fail> {
    let alloc = rt.alloc();
    let wanted = [truths(alloc)?];
    let bytes = with_one(alloc, truths_file(alloc)?, truths(alloc)?)?;
    let same = with_one_on_device(alloc, truths_file(alloc)?, truths(alloc)?)?;
    let found = three_of(alloc, InMemory { bytes: &bytes }, &wanted)?;
    let is_same = bytes == same;
    drop(wanted);
    drop(bytes);
    drop(same);
    assert_eq!(rt; found, [Short::Expected, Short::Expected, Short::Nothing]);
    assert_eq!(rt; is_same, true);
    Ok(())
}

/// The file of truth values with another footer, which holds 4,096 bytes of custom metadata.
fn with_note(alloc: Global, file: &[u8]) -> Result<Vec<u8>, Error> {
    let mut bytes = Vec::new(alloc);
    if let Some(messages) = file.get(..NOTED_MESSAGES) {
        bytes.extend_from_slice(messages)?;
    }
    bytes.extend_from_slice(&NOTED_FOOTER)?;
    for _ in 0..4096 {
        bytes.push(b'm')?;
    }
    bytes.extend_from_slice(&NOTED_END)?;
    Ok(bytes)
}

#[test]
fn a_file_gets_no_shorter(rt: HostRuntime) -> Result<(), Fail> {
    let alloc = rt.alloc();
    let wanted = [truths(alloc)?];
    let short = truths_file(alloc)?;
    let long = with_note(alloc, &short)?;
    let again = with_note(alloc, &short)?;
    let length = long.len();
    let bytes = with_one(alloc, long, truths(alloc)?)?;
    let same = with_one_on_device(alloc, again, truths(alloc)?)?;
    let found = three_of(alloc, InMemory { bytes: &bytes }, &wanted)?;
    let (is_as_long, is_same) = (bytes.len() == length, bytes == same);
    drop(wanted);
    drop(short);
    drop(bytes);
    drop(same);
    assert_eq!(rt; found, [Short::Expected, Short::Expected, Short::Nothing]);
    assert_eq!(rt; (is_as_long, is_same), (true, true));
    Ok(())
}

/// A block of a message of which another one tells the lengths.
fn block_like(other: &MessageBlock, place: usize) -> Result<Block, Error> {
    let (Ok(offset), Ok(meta_data_length)) = (
        i64::try_from(place),
        i32::try_from(other.metadata_length),
    ) else {
        return Err(Error::Overflow);
    };
    Ok(Block {
        offset,
        meta_data_length,
        body_length: other.body_length,
    })
}

/// Puts the end of a file behind its messages, the dictionary's and the batch's.
fn put_footer(
    alloc: Global,
    bytes: &mut Vec<u8>,
    metadata: &FileMetadata,
    dictionary: Block,
    batch: Block,
) -> Result<(), Error> {
    let footer = footer_to_bytes(
        alloc,
        &metadata.schema,
        metadata.ipc_schema.fields.as_slice(),
        &[dictionary],
        &[batch],
    )?;
    let Ok(length) = u32::try_from(footer.len()) else {
        return Err(Error::Overflow);
    };
    bytes.extend_from_slice(&END)?;
    bytes.extend_from_slice(&footer)?;
    bytes.extend_from_slice(&length.to_le_bytes())?;
    bytes.extend_from_slice(b"ARROW1")?;
    Ok(())
}

/// Where the body of a block ends.
fn end_of(block: &MessageBlock) -> Option<usize> {
    let body = usize::try_from(block.body_length).ok()?;
    block
        .offset
        .checked_add(block.metadata_length)?
        .checked_add(body)
}

/// A file whose dictionary stands behind its batch, made of one where it stands before it.
fn dictionary_last(alloc: Global, file: &[u8]) -> Result<Vec<u8>, Error> {
    let mut room = InMemory { bytes: file };
    let metadata = read_file_metadata(alloc, &mut room)?;
    let mut bytes = Vec::new(alloc);
    let Some(dictionary) = metadata.dictionaries.first() else {
        return Ok(bytes);
    };
    let Some(batch) = metadata.blocks.first() else {
        return Ok(bytes);
    };
    let Some(end) = end_of(batch) else {
        return Ok(bytes);
    };
    if let Some(head) = file.get(..dictionary.offset) {
        bytes.extend_from_slice(head)?;
    }
    let batch_block = block_like(batch, bytes.len())?;
    if let Some(rows) = file.get(batch.offset..end) {
        bytes.extend_from_slice(rows)?;
    }
    let dictionary_block = block_like(dictionary, bytes.len())?;
    if let Some(values) = file.get(dictionary.offset..batch.offset) {
        bytes.extend_from_slice(values)?;
    }
    put_footer(alloc, &mut bytes, &metadata, dictionary_block, batch_block)?;
    Ok(bytes)
}

/// The file of one batch of letters.
fn letters_file(alloc: Global) -> Result<Vec<u8>, Error> {
    let chunks = chunks_of(alloc, letters(alloc, &["a", "b"])?)?;
    file_of(alloc, letters_schema(alloc)?, &chunks)
}

#[test]
fn batches_stand_behind_the_last_dictionary(rt: HostRuntime) -> Result<(), Fail> {
    let alloc = rt.alloc();
    let wanted = [letters(alloc, &["a", "b"])?];
    let plain = letters_file(alloc)?;
    let file = dictionary_last(alloc, &plain)?;
    let was = three_of(alloc, InMemory { bytes: &file }, &wanted)?;
    let bytes = with_one(alloc, file, letters(alloc, &["a", "b"])?)?;
    let found = three_of(alloc, InMemory { bytes: &bytes }, &wanted)?;
    drop(wanted);
    drop(plain);
    drop(bytes);
    assert_eq!(rt; was, [Short::Expected, Short::Nothing, Short::Nothing]);
    assert_eq!(rt; found, [Short::Expected, Short::Expected, Short::Nothing]);
    Ok(())
}

/// What an append to a file of letters answers.
fn refused_letters(alloc: Global, array: AnyArray) -> Result<Short, Error> {
    let file = letters_file(alloc)?;
    Ok(told(with_one(alloc, file, array)))
}

#[test]
fn what_is_not_appended(rt: HostRuntime) -> Result<(), Fail> {
    let alloc = rt.alloc();
    let same = refused_letters(alloc, letters(alloc, &["a", "b"])?)?;
    let other_dictionary = refused_letters(alloc, letters(alloc, &["c", "d"])?)?;
    let other_schema = refused_letters(alloc, column(alloc, &[1])?)?;
    let nothing = chunks_of(alloc, numbers(alloc)?)?;
    let empty = file_of(alloc, numbers_schema(alloc)?, &nothing[..0])?;
    let no_batch = told(append_file(alloc, empty, &nothing));
    let no_file = told(append_file(alloc, Vec::from_slice(alloc, b"ARROW1")?, &nothing));
    let feather = told(append_file(alloc, Vec::from_slice(alloc, b"FEA1 and more")?, &nothing));
    drop(nothing);
    assert_eq!(rt;
        (same, other_dictionary, other_schema),
        (Short::Done, Short::InvalidArgument, Short::InvalidArgument)
    );
    assert_eq!(rt;
        (no_batch, no_file, feather),
        (Short::OutOfSpec, Short::OutOfSpec, Short::NotYetImplemented)
    );
    Ok(())
}
