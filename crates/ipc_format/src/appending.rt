//! Batches that are appended to a file in memory (Arrow IPC, "IPC File Format"; docs/FORMAT.md, "Appending").
ghost use Rattle.std.specs.Prelude.{◌≡◌, true};
ghost use Rattle.ipc_format_readers.specs.chunk_writing.grammar.AppendedFiles.{has_few_dictionaries};
ghost use Rattle.ipc_format_readers.specs.chunk_writing.metadata.Views.{ids_views};
ghost use Rattle.ipc_format.specs.Appending.{AppendsBatch, AppendsBatches, AppendsEnd, AppendsFile, KeepsFile};
ghost use Rattle.ipc_format.specs.FilePhases.{progress_of};

use crate::batches::add_batch;
use crate::ends::{footer_of, zeros_before};
use crate::growing::{end_of_messages, progress_of_file};
use crate::sending::{put_end, put_zeros};
use crate::state::Progress;
use ipc_format_readers::chunk_writing::nested_arrays_core::AnyArray;
use ipc_format_readers::chunk_writing::{Chunk, InMemory, look_ups_are_enough, send};
use ipc_format_readers::streams::EncodedData;
use ipc_format_readers::streams::columnar_memory::{Error, Result};
use ipc_format_readers::{FileMetadata, read_file_dictionaries, read_file_metadata};
use std::alloc::Global;

/// What a file's footer says, where its last message ends, and what stands of it.
///
/// # Errors
/// Those of `append_file` that come of the file alone.
fn file_in(alloc: Global, bytes: &[u8]) -> Result<(FileMetadata, u64, Progress)>
    ensures { KeepsFile bytes.now result }
{
    let mut room = InMemory { bytes };
    let metadata = read_file_metadata(alloc, &mut room)?;
    let end = end_of_messages(&metadata)?;
    let mut scratch = Vec::new(alloc);
    let dictionaries = read_file_dictionaries(alloc, &mut room, &metadata, &mut scratch)?;
    let file = progress_of_file(alloc, &metadata, dictionaries, end)?;
    Ok((metadata, end, file))
}

/// Puts the messages of a batch behind some bytes, behind what is written of a file.
///
/// # Errors
/// As of `add_batch`.
fn append_batch(
    alloc: Global,
    metadata: &FileMetadata,
    file: &mut Progress,
    columns: &Chunk<AnyArray>,
    encoded: &mut EncodedData,
    bytes: &mut Vec<u8>,
) -> Result<()>
    ensures { AppendsBatch metadata.now.schema (ids_views metadata.now.ipc_schema.fields) (progress_of file.old) (progress_of file.new) columns.now
        bytes.old.items bytes.new.items result }
{
    let ids = metadata.ipc_schema.fields.as_slice();
    let dictionaries = add_batch(alloc, &metadata.schema, ids, file, columns, encoded)?;
    match send(bytes, &dictionaries, encoded) {
        Ok(()) => Ok(()),
        // A vector refuses bytes for want of memory alone.
        Err(_) => Err(Error::OutOfMemory),
    }
}

/// Puts the messages of batches behind some bytes, one batch after another.
///
/// # Errors
/// As of `add_batch`.
fn append_batches(
    alloc: Global,
    metadata: &FileMetadata,
    file: &mut Progress,
    chunks: &[Chunk<AnyArray>],
    bytes: &mut Vec<u8>,
) -> Result<()>
    requires { has_few_dictionaries (progress_of file.old).blocks ≡ true }
    ensures { AppendsBatches metadata.now.schema (ids_views metadata.now.ipc_schema.fields) (progress_of file.old) (progress_of file.new) chunks.now
        bytes.old.items bytes.new.items result }
{
    let mut encoded = EncodedData::new(alloc);
    for columns in chunks {
        append_batch(alloc, metadata, file, columns, &mut encoded, bytes)?;
    }
    Ok(())
}

/// Puts the end of a file behind its messages.
///
/// # Errors
/// - `Overflow`: the footer would have 2^31 bytes or more, or the file 2^63 or more.
/// - `OutOfMemory`: there was no memory for the footer or for the file's bytes.
fn append_end(
    alloc: Global,
    metadata: &FileMetadata,
    file: &Progress,
    bytes: &mut Vec<u8>,
) -> Result<()>
    ensures { AppendsEnd metadata.now.schema (ids_views metadata.now.ipc_schema.fields) (progress_of file.now) bytes.old.items bytes.new.items
        result }
{
    let ids = metadata.ipc_schema.fields.as_slice();
    let footer = footer_of(alloc, &metadata.schema, ids, file)?;
    match put_end(bytes, zeros_before(file, &footer), &footer) {
        Ok(()) => Ok(()),
        Err(_) => Err(Error::OutOfMemory),
    }
}

/// Appends batches to an Arrow file in memory (Arrow IPC, "IPC File Format"): under the file's own schema and ids their messages stand behind the
/// last of its messages, at a multiple of eight bytes and over its end mark and footer; a new footer places its messages and the new ones. The file
/// is not shorter than before: as many zeros as that takes stand between the end mark and the new footer. A dictionary is written where its id is
/// new; one that is in the file already is not written again.
///
/// # Errors
/// - `OutOfSpec`: the bytes are no file, or it has no record batch, or a block states a negative length or ends past the file, or one of its
///   dictionaries is out of specification.
/// - `NotYetImplemented`: the file begins with the mark of Feather, or a float field stands in its schema, or its numbers have their highest byte
///   first, or one of its dictionaries is compressed or adds to another.
/// - `InvalidArgumentError`: a batch doesn't belong to the file's schema, or one of its dictionaries differs from one under the same id in the file
///   or in an earlier batch; or an array, at some depth, is longer than arrays may be.
/// - `Overflow`: a message is past its limit, or the footer would have 2^31 bytes or more, the file 2^63 or more, or more than 65,536 messages of
///   dictionaries.
/// - `OutOfMemory`: there was no memory for the file's dictionaries, for the messages or for the file's bytes.
pub fn append_file(alloc: Global, mut bytes: Vec<u8>, chunks: &[Chunk<AnyArray>]) -> Result<Vec<u8>>
    ensures { AppendsFile result bytes.items chunks.now }
{
    look_ups_are_enough();
    let (metadata, end, mut file) = file_in(alloc, &bytes)?;
    bytes.truncate(end as usize);
    if put_zeros(&mut bytes, file.place - end).is_err() {
        return Err(Error::OutOfMemory);
    }
    append_batches(alloc, &metadata, &mut file, chunks, &mut bytes)?;
    append_end(alloc, &metadata, &file, &mut bytes)?;
    Ok(bytes)
}
