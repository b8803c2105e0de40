//! The messages at a file's blocks, whatever they hold (Arrow IPC, "IPC File Format").
ghost use Rattle.std.specs.Prelude.{◌++◌, map};
ghost use Rattle.std.specs.Option.{option_map};
ghost use Rattle.ipc_format_chunk_writing.specs.grammar.Files as format;
ghost use Rattle.ipc_format_chunk_writing.specs.metadata.Reading.{Reads};
ghost use Rattle.ipc_format_readers.specs.FileEntries.{entries_view};
ghost use Rattle.ipc_format_readers.specs.FileStarts.{block_view};

use crate::block_messages::{dictionary_at, record_batch_at};
use crate::blocks::MessageBlock;
use ipc_format_chunk_writing::streams::columnar_memory::{Error, Result};
use ipc_format_chunk_writing::streams::messages::{MessageHeaderRef, MetadataVersion};
use std::alloc::Global;

/// So many messages of dictionaries may stand in a file.
const MOST_DICTIONARIES: usize = 65536;

/// A message that carries a dictionary or a record batch, and where its buffers stand.
#[derive(Clone, Copy, Debug)]
pub struct Entry<'a> {
    pub header: MessageHeaderRef<'a>,
    /// The version by which the unions of its columns lie.
    pub version: MetadataVersion,
    /// What its buffers stand in: the body of the message in a stream, the whole file in a file.
    pub room: &'a [u8],
    /// The place of the room from which the buffers' offsets count.
    pub origin: usize,
}

/// Puts the dictionaries at some blocks behind other messages.
///
/// # Errors
/// - `OutOfSpec`: a block leads to no message of a dictionary.
/// - `OutOfMemory`: there was no memory for the list.
fn push_dictionaries<'a>(
    bytes: &'a [u8],
    blocks: &[MessageBlock],
    entries: &mut Vec<Entry<'a>>,
) -> Result<()>
    ensures { Reads (λ _. entries_view entries.new) ⊥ result
        (option_map (λ more. entries_view entries.old ++ more)
        (format.entries_at format.is_dictionary bytes.now (map block_view blocks.now))) }
{
    for block in blocks {
        let Some((header, version)) = dictionary_at(bytes, block) else {
            return Err(Error::OutOfSpec("UnexpectedMessageType"));
        };
        entries.push(Entry {
            header: MessageHeaderRef::DictionaryBatch(header),
            version,
            room: bytes,
            origin: block.offset + block.metadata_length,
        })?;
    }
    Ok(())
}

/// Puts the record batches at some blocks behind other messages.
///
/// # Errors
/// - `OutOfSpec`: a block leads to no message of a record batch.
/// - `OutOfMemory`: there was no memory for the list.
fn push_record_batches<'a>(
    bytes: &'a [u8],
    blocks: &[MessageBlock],
    entries: &mut Vec<Entry<'a>>,
) -> Result<()>
    ensures { Reads (λ _. entries_view entries.new) ⊥ result
        (option_map (λ more. entries_view entries.old ++ more)
        (format.entries_at format.is_record_batch bytes.now (map block_view blocks.now))) }
{
    for block in blocks {
        let Some((header, version)) = record_batch_at(bytes, block) else {
            return Err(Error::OutOfSpec("UnexpectedMessageType"));
        };
        entries.push(Entry {
            header: MessageHeaderRef::RecordBatch(header),
            version,
            room: bytes,
            origin: block.offset + block.metadata_length,
        })?;
    }
    Ok(())
}

/// The messages of a file, by its blocks: its dictionaries, and then its record batches. Without a record batch no message is read.
///
/// # Errors
/// - `OutOfSpec`: there are more dictionaries than a file may have, or a block leads to no message of its kind.
/// - `OutOfMemory`: there was no memory for the list.
pub fn file_entries<'a>(
    alloc: Global,
    bytes: &'a [u8],
    dictionaries: &[MessageBlock],
    record_batches: &[MessageBlock],
) -> Result<Vec<Entry<'a>>>
    ensures { Reads entries_view ⊥ result (format.file_entries bytes.now (map block_view dictionaries.now) (map block_view record_batches.now)) }
{
    let mut entries = Vec::new(alloc);
    if record_batches.is_empty() {
        return Ok(entries);
    }
    if dictionaries.len() > MOST_DICTIONARIES {
        return Err(Error::OutOfSpec("too many dictionaries"));
    }
    push_dictionaries(bytes, dictionaries, &mut entries)?;
    push_record_batches(bytes, record_batches, &mut entries)?;
    Ok(entries)
}
