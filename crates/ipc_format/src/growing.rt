//! What is kept of a file to which batches are added (Arrow IPC, "IPC File Format"; docs/FORMAT.md, "Appending").
ghost use Rattle.std.specs.Prelude.{◌≡◌, ◌≤◌, false, map, None};
ghost use Rattle.ipc_format_readers.specs.FileStarts.{block_view};
ghost use Rattle.ipc_format_readers.specs.chunk_writing.grammar.AppendedFiles.{is_negative, kept_block};
ghost use Rattle.ipc_format.specs.Growing.{EndWithin, EndsAt, EndsMessages, Grows, KeepsBlocks, bar_of, end_of_blocks, has_negative};
ghost use Rattle.ipc_format.specs.Growing.{kept_blocks};

use crate::state::Progress;
use ipc_format_readers::chunk_writing::{Dictionaries, DictionaryTracker};
use ipc_format_readers::streams::columnar_memory::{Error, Result};
use ipc_format_readers::streams::messages::Block;
use ipc_format_readers::{FileMetadata, MessageBlock};
use std::alloc::Global;

/// The last place that a footer can state.
const LAST_PLACE: u64 = 9_223_372_036_854_775_807;

/// Where messages stand: at multiples of so many bytes.
const ALIGNMENT: u64 = 8;

/// Where a block's body ends; nothing where that is past 64 bits.
fn block_end(block: &MessageBlock) -> Option<u64>
    requires { is_negative block.now.body_length ≡ false }
    ensures { EndsAt result (kept_block (block_view block.now)) }
{
    let body = (block.offset + block.metadata_length) as u64;
    body.checked_add(block.body_length.cast_unsigned())
}

/// The greatest end of some blocks; nothing where one states a negative length, or ends past a size.
fn end_within(size: u64, blocks: &[MessageBlock]) -> Option<u64>
    ensures { EndWithin result size (map block_view blocks.now) }
{
    let mut end = 0;
    for block in blocks {
        if block.body_length < 0 {
            return None;
        }
        let here = block_end(block)?;
        if here > size {
            return None;
        }
        end = here.max(end);
    }
    Some(end)
}

/// Where the last message of a file ends, behind which others may stand.
///
/// # Errors
/// - `NotYetImplemented`: its numbers have their highest byte first.
/// - `OutOfSpec`: it has no record batch, or a block states a negative length or ends past the file.
pub(crate) fn end_of_messages(metadata: &FileMetadata) -> Result<u64>
    ensures { EndsMessages metadata.now result }
{
    if !metadata.ipc_schema.is_little_endian {
        return Err(Error::NotYetImplemented("files with the highest byte first"));
    }
    if metadata.blocks.is_empty() {
        return Err(Error::OutOfSpec("MissingRecordBatches"));
    }
    let Some(dictionaries) = end_within(metadata.size, &metadata.dictionaries) else {
        return Err(Error::OutOfSpec("UnexpectedNegativeInteger"));
    };
    let Some(batches) = end_within(metadata.size, &metadata.blocks) else {
        return Err(Error::OutOfSpec("UnexpectedNegativeInteger"));
    };
    Ok(dictionaries.max(batches))
}

/// Blocks as a footer states them.
///
/// # Errors
/// `OutOfMemory`: there was no memory for the list.
fn kept_blocks(alloc: Global, blocks: &[MessageBlock]) -> Result<Vec<Block>>
    requires { has_negative (map block_view blocks.now) ≡ false }
    ensures { KeepsBlocks result blocks.now }
{
    let mut kept = Vec::new(alloc);
    for block in blocks {
        kept.push(Block {
            offset: (block.offset as u64).cast_signed(),
            meta_data_length: (block.metadata_length as u32).cast_signed(),
            body_length: block.body_length,
        })?;
    }
    Ok(kept)
}

/// What stands of a file whose last message ends at a place, where its dictionaries are told: the next message begins at a multiple of eight.
///
/// # Errors
/// - `Overflow`: the file has 2^63 bytes or more.
/// - `OutOfMemory`: there was no memory for the blocks.
pub(crate) fn progress_of_file(
    alloc: Global,
    metadata: &FileMetadata,
    dictionaries: Dictionaries,
    end: u64,
) -> Result<Progress>
    requires may { bar_of metadata.now ≡ None }
    requires end { end ≡ end_of_blocks (kept_blocks metadata.now) }
    requires within { end ≤ metadata.now.size }
    ensures { Grows metadata.now dictionaries.entries result }
{
    if metadata.size > LAST_PLACE {
        return Err(Error::Overflow);
    }
    Ok(Progress {
        tracker: DictionaryTracker {
            dictionaries,
            cannot_replace: true,
        },
        place: end.next_multiple_of(ALIGNMENT),
        size: metadata.size,
        dictionaries: kept_blocks(alloc, &metadata.dictionaries)?,
        record_batches: kept_blocks(alloc, &metadata.blocks)?,
    })
}
