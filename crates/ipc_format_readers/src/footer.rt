//! What a file's footer says: the schema, and where the messages stand (Arrow IPC, "IPC File Format"; File.fbs).
ghost use Rattle.std.specs.Prelude.{◌≡◌, ◌+◌, ◌*◌, ◌≤◌, IfOk, length};
ghost use Rattle.std.specs.Option.{option_map};
ghost use Rattle.ipc_format_chunk_writing.specs.flatbuffers.Views.{table_of, vector_of};
ghost use Rattle.ipc_format_chunk_writing.specs.grammar.Files as format;
ghost use Rattle.ipc_format_chunk_writing.specs.metadata.Reading.{Reads};
ghost use Rattle.ipc_format_readers.specs.FileReads.{ReadsMetadata};
ghost use Rattle.ipc_format_readers.specs.FileStarts.{block_view, blocks_in, blocks_view, start_view};
ghost use Rattle.ipc_format_readers.specs.Footers.{HasFloatIn, SizesFooter, TakesFooter, TestsMark, schema_place, start_of_footer};

use crate::blocks::MessageBlock;
use crate::file_metadata::FileMetadata;
use ipc_format_chunk_writing::streams::columnar_memory::{Error, Result};
use ipc_format_chunk_writing::streams::flatbuffers::{
    Table, Vector, i32_at, i64_at, root_of, table_field, vector_field, window,
};
use ipc_format_chunk_writing::streams::metadata::schema_in;
use ipc_format_chunk_writing::streams::metadata::sizes::BLOCK_SIZE;
use ipc_format_chunk_writing::streams::metadata::slots::{
    FOOTER_DICTIONARIES, FOOTER_RECORD_BATCHES, FOOTER_SCHEMA,
};
use ipc_format_chunk_writing::streams::owned::writing::normalised;
use ipc_format_chunk_writing::{Room, schemas_have_arrays};
use std::alloc::Global;

/// What stands at both ends of a file.
const FILE_MARK: [u8; 6] = *b"ARROW1";

/// Behind the footer stand its length and the mark.
const TAIL_SIZE: usize = 10;

/// What stands at the beginning of Feather's files of its first version.
const FEATHER_MARK: [u8; 4] = *b"FEA1";

/// Whether a mark stands at a place.
fn stands_at(mark: &[u8], bytes: &[u8], place: usize) -> bool
    ensures { result ≡ format.stands_at mark.now bytes.now place }
{
    match window(bytes, place, mark.len()) {
        Some(found) => found == mark,
        None => false,
    }
}

/// Tests what a file begins with.
///
/// # Errors
/// - `NotYetImplemented`: it is the mark of Feather.
/// - `OutOfSpec`: it is another one than that of Arrow's files.
fn test_mark(mark: &[u8]) -> Result<()>
    ensures { TestsMark mark.now result }
{
    if stands_at(FILE_MARK.as_slice(), mark, 0) {
        return Ok(());
    }
    if stands_at(FEATHER_MARK.as_slice(), mark, 0) {
        return Err(Error::NotYetImplemented("files of Feather's first version"));
    }
    Err(Error::OutOfSpec("InvalidHeader"))
}

/// How many bytes the footer has, by the ten bytes at the end of a file of so many: its length, and the mark behind it.
///
/// # Errors
/// `OutOfSpec`: the mark is not there, or the length is negative or past the file.
fn footer_size(tail: &[u8], size: u64) -> Result<usize>
    ensures { SizesFooter tail.now size result }
{
    if tail.len() != TAIL_SIZE || !stands_at(FILE_MARK.as_slice(), tail, 4) {
        return Err(Error::OutOfSpec("InvalidFooter"));
    }
    let Some(stated) = i32_at(tail, 0) else {
        return Err(Error::OutOfSpec("InvalidFooter"));
    };
    let Ok(length) = usize::try_from(stated) else {
        return Err(Error::OutOfSpec("NegativeFooterLength"));
    };
    if length as u64 + TAIL_SIZE as u64 > size {
        return Err(Error::OutOfSpec("InvalidFooter"));
    }
    Ok(length)
}

/// Takes the bytes of a file's footer: they stand before their length and the mark at the end, behind the mark at the beginning. Answers how many
/// bytes the file has.
///
/// # Errors
/// - `OutOfSpec`: the file lacks a mark or a footer.
/// - `NotYetImplemented`: it begins with the mark of Feather.
/// - `Io`: the device failed.
/// - `OutOfMemory`: there was no memory for the footer.
fn take_footer<R: Room>(reader: &mut R, footer: &mut Vec<u8>) -> Result<u64>
    ensures { TakesFooter (R.told reader.old) (R.told reader.new) footer.new.items result }
{
    let (start, end) = reader.extent()?;
    reader.fill_from(start, 0, FILE_MARK.len(), footer)?;
    test_mark(footer)?;
    let Some(size) = end.checked_sub(start) else {
        return Err(Error::OutOfSpec("InvalidFooter"));
    };
    if size < TAIL_SIZE as u64 {
        return Err(Error::OutOfSpec("InvalidFooter"));
    }
    reader.fill_from(end - TAIL_SIZE as u64, 0, TAIL_SIZE, footer)?;
    let length = footer_size(footer, size)?;
    reader.fill_from(end - TAIL_SIZE as u64 - length as u64, 0, length, footer)?;
    Ok(size)
}

/// The place of the schema's table in a footer.
fn schema_place(footer: &[u8]) -> Option<Table>
    ensures { option_map table_of result ≡ schema_place footer.now }
{
    let root = root_of(footer)?;
    table_field(footer, &root, FOOTER_SCHEMA)?
}

/// The block at a place of a footer. Neither its offset nor the length of its metadata is negative.
#[tactic(auto, unfolding(crate::proofs::Passed::block_at))]
fn block_at(footer: &[u8], place: usize) -> Option<MessageBlock>
    requires { place + 24 ≤ length footer.now }
    ensures { option_map block_view result ≡ format.block_at footer.now place }
{
    let offset = usize::try_from(i64_at(footer, place)?).ok()?;
    let metadata_length = usize::try_from(i32_at(footer, place + 8)?).ok()?;
    let body_length = i64_at(footer, place + 16)?;
    Some(MessageBlock {
        offset,
        metadata_length,
        body_length,
    })
}

/// The blocks of a footer's vector.
///
/// # Errors
/// - `OutOfSpec`: a block states a negative offset or a negative length of metadata.
/// - `OutOfMemory`: there was no memory for the list.
fn blocks_of(alloc: Global, footer: &[u8], vector: &Vector) -> Result<Vec<MessageBlock>>
    requires { vector.now.place + vector.now.count * 24 ≤ length footer.now }
    ensures { Reads blocks_view ⊥ result (format.blocks_of footer.now (vector_of vector.now)) }
{
    let mut blocks = Vec::new(alloc);
    for k in 0..vector.count {
        let Some(block) = block_at(footer, vector.place + 24 * k) else {
            return Err(Error::OutOfSpec("UnexpectedNegativeInteger"));
        };
        blocks.push(block)?;
    }
    Ok(blocks)
}

/// The blocks of a footer's messages of dictionaries, which may not be stated, and those of its record batches, which have to be.
///
/// # Errors
/// - `OutOfSpec`: the footer breaks a rule of FlatBuffers, the blocks of record batches aren't there, or a block states a negative offset or a
///   negative length of metadata.
/// - `OutOfMemory`: there was no memory for the lists.
fn blocks_in(alloc: Global, footer: &[u8]) -> Result<(Vec<MessageBlock>, Vec<MessageBlock>)>
    ensures { Reads (λ found. (blocks_view found.0, blocks_view found.1)) ⊥ result (blocks_in footer.now) }
{
    let Some(root) = root_of(footer) else {
        return Err(Error::OutOfSpec("InvalidFlatbufferFooter"));
    };
    let dictionaries = match vector_field(footer, &root, FOOTER_DICTIONARIES, BLOCK_SIZE) {
        Some(Some(vector)) => blocks_of(alloc, footer, &vector)?,
        Some(None) => Vec::new(alloc),
        None => return Err(Error::OutOfSpec("InvalidFlatbufferFooter")),
    };
    let Some(Some(vector)) = vector_field(footer, &root, FOOTER_RECORD_BATCHES, BLOCK_SIZE) else {
        return Err(Error::OutOfSpec("MissingRecordBatches"));
    };
    let record_batches = blocks_of(alloc, footer, &vector)?;
    Ok((dictionaries, record_batches))
}

/// What the bytes of a footer say, of a file of so many bytes.
///
/// # Errors
/// - `OutOfSpec`: the footer breaks a rule of the format.
/// - `NotYetImplemented`: a float field stands in the schema.
/// - `OutOfMemory`: there was no memory for what it says.
fn metadata_in(alloc: Global, footer: &[u8], size: u64) -> Result<FileMetadata>
    ensures read { Reads start_view (HasFloatIn footer.now) result (start_of_footer footer.now) }
    ensures size { IfOk result (λ metadata. metadata.size ≡ size) }
{
    let Some(table) = schema_place(footer) else {
        return Err(Error::OutOfSpec("InvalidFlatbufferFooter"));
    };
    let (dictionaries, blocks) = blocks_in(alloc, footer)?;
    let (schema, ipc_schema) = schema_in(alloc, footer, &table)?;
    let one_form = normalised(alloc, &schema)?;
    schemas_have_arrays();
    Ok(FileMetadata {
        schema,
        ipc_schema,
        blocks,
        dictionaries,
        size,
        one_form,
    })
}

/// Reads what the footer of a file says that stands in a room: bytes in memory, or a device, which stands at the file's first byte. Where blocks
/// stand is counted from the first place of the room.
///
/// # Errors
/// - `OutOfSpec`: the file lacks a mark or a footer, or the footer breaks a rule of the format.
/// - `NotYetImplemented`: the file begins with the mark of Feather, or a float field stands in the schema.
/// - `Io`: the device failed.
/// - `OutOfMemory`: there was no memory for the footer or for what it says.
pub fn read_file_metadata<R: Room>(alloc: Global, reader: &mut R) -> Result<FileMetadata>
    ensures { ReadsMetadata (R.told reader.old) (R.told reader.new) result }
{
    let mut footer = Vec::new(alloc);
    let size = take_footer(reader, &mut footer)?;
    metadata_in(alloc, &footer, size)
}
