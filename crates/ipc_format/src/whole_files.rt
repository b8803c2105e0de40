//! Files in memory, read whole (Arrow IPC, "IPC File Format").
ghost use Rattle.std.specs.Prelude.{◌≡◌, ◌<◌, IfOk, length, map};
ghost use Rattle.ipc_format_readers.specs.BlockMessages.{AreOfFields};
ghost use Rattle.ipc_format_readers.specs.FileReads.{IsCompressedBatch, IsUnreadFile};
ghost use Rattle.ipc_format_readers.specs.FileStarts.{layout_in, start_in, start_view};
ghost use Rattle.ipc_format_readers.specs.chunk_writing.ReadArrays.{standing_in};
ghost use Rattle.ipc_format_readers.specs.chunk_writing.columns.StoredColumns.{slots};
ghost use Rattle.ipc_format_readers.specs.chunk_writing.metadata.Reading.{Reads};
ghost use Rattle.ipc_format.specs.ReadFiles.{HasDictionaries, ReadsFile, ReadsMessages, batch_of};

use ipc_format_readers::chunk_writing::nested_arrays_core::AnyArray;
use ipc_format_readers::chunk_writing::{Chunk, Dictionaries, InMemory, look_ups_are_enough};
use ipc_format_readers::streams::columnar_memory::{Result, Schema};
use ipc_format_readers::streams::owned::writing::normalised;
use ipc_format_readers::{
    FileMetadata, files_are_read_by_blocks, read_batch, read_file_dictionaries, read_file_metadata,
};
use std::alloc::Global;

/// What a file holds.
#[derive(Drop)]
pub struct FileBatches {
    /// The schema of the footer, in its one form.
    pub schema: Schema,
    /// The batches in the order of the footer's blocks, empty ones too: in each a column a field, all of one length.
    pub chunks: Vec<Chunk<AnyArray>>,
}

/// What the footer of a file says.
///
/// # Errors
/// - `OutOfSpec`: the file lacks a mark or a footer, or the footer breaks a rule of the format.
/// - `NotYetImplemented`: the file begins with the mark of Feather, or a float field stands in the schema.
/// - `OutOfMemory`: there was no memory for what it says.
pub fn metadata_of_file(alloc: Global, bytes: &[u8]) -> Result<FileMetadata>
    ensures read { Reads start_view (IsUnreadFile bytes.now) result (start_in bytes.now) }
    ensures size { IfOk result (λ metadata. metadata.size ≡ length bytes.now) }
{
    let mut room = InMemory { bytes };
    read_file_metadata(alloc, &mut room)
}

/// The dictionaries of a file.
///
/// # Errors
/// As of `read_file_dictionaries`, without those of a device.
fn dictionaries_of_file(
    alloc: Global,
    bytes: &[u8],
    metadata: &FileMetadata,
    scratch: &mut Vec<u8>,
) -> Result<Dictionaries>
    requires { metadata.now.size ≡ length bytes.now }
    ensures { HasDictionaries metadata.now bytes.now result }
{
    let mut room = InMemory { bytes };
    read_file_dictionaries(alloc, &mut room, metadata, scratch)
}

/// The record batch of a file at a place among its blocks.
///
/// # Errors
/// As of `read_batch`, without those of a device.
fn batch_of_file(
    alloc: Global,
    bytes: &[u8],
    metadata: &FileMetadata,
    dictionaries: &Dictionaries,
    index: usize,
    message: &mut Vec<u8>,
    scratch: &mut Vec<u8>,
) -> Result<Chunk<AnyArray>>
    requires within { index < length metadata.now.blocks.items }
    requires size { metadata.now.size ≡ length bytes.now }
    ensures read { Reads (map slots) (IsCompressedBatch metadata.now index bytes.now) result
        (batch_of metadata.now (standing_in dictionaries.now) index bytes.now) }
    ensures fields { IfOk result (AreOfFields (layout_in metadata.now).fields) }
{
    let mut room = InMemory { bytes };
    let chunk = read_batch(
        alloc,
        &mut room,
        dictionaries,
        metadata,
        None,
        None,
        index,
        message,
        scratch,
    )?;
    chunk.whole();
    Ok(chunk)
}

/// The record batches of a file, one after another, under its dictionaries.
///
/// # Errors
/// - `OutOfSpec`: there are more dictionaries than a file may have, a block leads to no message of its kind, or the format gives no dictionary or
///   no columns of one.
/// - `NotYetImplemented`: a message is compressed, or adds to an earlier dictionary.
/// - `OutOfMemory`: there was no memory for what is read.
fn batches_of_file(
    alloc: Global,
    bytes: &[u8],
    metadata: &FileMetadata,
) -> Result<Vec<Chunk<AnyArray>>>
    requires { metadata.now.size ≡ length bytes.now }
    ensures { ReadsMessages metadata.now bytes.now result }
{
    look_ups_are_enough();
    let mut message = Vec::new(alloc);
    let mut scratch = Vec::new(alloc);
    let dictionaries = dictionaries_of_file(alloc, bytes, metadata, &mut scratch)?;
    let mut chunks = Vec::new(alloc);
    for index in 0..metadata.blocks.len() {
        let chunk = batch_of_file(
            alloc,
            bytes,
            metadata,
            &dictionaries,
            index,
            &mut message,
            &mut scratch,
        )?;
        chunks.push(chunk)?;
    }
    Ok(chunks)
}

/// The schema and the batches of an Arrow file (Arrow IPC, "IPC File Format"), of columns of every type. The dictionaries are read in the order of
/// their blocks, and a key means a value of the last one of its id. Without a record batch no message is read. Whatever stands in the file where
/// neither the footer nor a block points is unread.
///
/// # Errors
/// - `OutOfSpec`: the bytes break a rule of the format.
/// - `NotYetImplemented`: the file begins with the mark of Feather, or a float field, a compressed batch, or a dictionary that adds to an earlier one
///   stands in it.
/// - `OutOfMemory`: there was no memory.
pub fn read_file(alloc: Global, bytes: &[u8]) -> Result<FileBatches>
    ensures { ReadsFile result bytes.now }
{
    let metadata = metadata_of_file(alloc, bytes)?;
    metadata.schema.whole();
    let schema = normalised(alloc, &metadata.schema)?;
    files_are_read_by_blocks();
    let chunks = batches_of_file(alloc, bytes, &metadata)?;
    Ok(FileBatches { schema, chunks })
}
