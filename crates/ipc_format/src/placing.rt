//! Where the messages of a file stand (File.fbs, `Block`).
ghost use Rattle.std.specs.Prelude.{◌≡◌, ◌+◌, ◌≤◌, ◌++◌, ◌∷◌, [], length, map, nat_le, true};
ghost use Rattle.std.specs.List.{list_all};
ghost use Rattle.ipc_format_readers.specs.chunk_writing.EncodedChunks.{message_in, messages_in};
ghost use Rattle.ipc_format_readers.specs.chunk_writing.grammar.Limits.{most_dictionaries};
ghost use Rattle.ipc_format_readers.specs.chunk_writing.grammar.WrittenMessages.{fits_limit, most_metadata, prefix_size};
ghost use Rattle.ipc_format_readers.specs.streams.owned.writing.FooterWriting.{block_view};
ghost use Rattle.ipc_format.specs.FilePhases.{progress_of};
ghost use Rattle.ipc_format.specs.BlockPlacing.{JoinsBlocks, PlacesBatch, StandAt, StandsAt};

use crate::state::Progress;
use ipc_format_readers::streams::EncodedData;
use ipc_format_readers::streams::columnar_memory::{Error, Result};
use ipc_format_readers::streams::messages::Block;
use std::alloc::Global;

/// How many bytes stand before a message's metadata: the marker, and the length of the metadata.
const PREFIX: u64 = 8;

/// The last place that a footer can state.
const LAST_PLACE: u64 = 9_223_372_036_854_775_807;

/// So many messages of dictionaries may stand in a file.
const MOST_DICTIONARIES: usize = 65536;

/// The block of a message that stands at a place, and the place behind it; nothing where that is past 2^63 - 1.
fn block_at(place: u64, message: &EncodedData) -> Option<(Block, u64)>
    requires { prefix_size + length message.now.ipc_message.items ≤ most_metadata }
    ensures { StandsAt result place (message_in message.now) }
{
    let metadata = PREFIX + message.ipc_message.len() as u64;
    let body = message.arrow_data.len() as u64;
    let behind = place.checked_add(metadata)?.checked_add(body)?;
    if behind > LAST_PLACE {
        return None;
    }
    let block = Block {
        offset: place.cast_signed(),
        meta_data_length: (metadata as u32).cast_signed(),
        body_length: body.cast_signed(),
    };
    Some((block, behind))
}

/// The blocks of messages that stand one behind the other from a place on, and the place behind them.
///
/// # Errors
/// - `Overflow`: that is past 2^63 - 1.
/// - `OutOfMemory`: there was no memory for the blocks.
fn blocks_at(alloc: Global, place: u64, messages: &[EncodedData]) -> Result<(Vec<Block>, u64)>
    requires { list_all fits_limit (messages_in messages.now) ≡ true }
    ensures { StandAt result place (messages_in messages.now) }
{
    let mut blocks = Vec::new(alloc);
    let mut here = place;
    for message in messages {
        let Some((block, behind)) = block_at(here, message) else {
            return Err(Error::Overflow);
        };
        blocks.push(block)?;
        here = behind;
    }
    Ok((blocks, here))
}

/// Whether so many dictionaries and so many more are no more than are read of a file.
fn are_few(known: usize, more: usize) -> bool
    ensures { result ≡ nat_le (known + more) most_dictionaries }
{
    match known.checked_add(more) {
        Some(count) => count <= MOST_DICTIONARIES,
        None => false,
    }
}

impl Progress {
    /// Adds the blocks of dictionaries and of a batch.
    fn join(&mut self, dictionaries: &[Block], batch: Block) -> Result<()>
        ensures { JoinsBlocks (progress_of self.old) (progress_of self.new) (map block_view dictionaries.now) (block_view batch) result }
    {
        let known = self.dictionaries.len();
        self.dictionaries.extend_from_slice(dictionaries)?;
        if self.record_batches.push(batch).is_err() {
            self.dictionaries.truncate(known);
            return Err(Error::OutOfMemory);
        }
        Ok(())
    }

    /// Places the messages of a batch behind what is written.
    ///
    /// # Errors
    /// Refused, nothing changes.
    /// - `Overflow`: the place behind them is past 2^63 - 1, or more than 65,536 messages of dictionaries would stand in the file.
    /// - `OutOfMemory`: there was no memory for the blocks.
    pub(crate) fn place_batch(
        &mut self,
        alloc: Global,
        dictionaries: &[EncodedData],
        batch: &EncodedData,
    ) -> Result<()>
        requires { list_all fits_limit (messages_in dictionaries.now ++ message_in batch.now ∷ []) ≡ true }
        ensures { PlacesBatch (progress_of self.old) (progress_of self.new) (messages_in dictionaries.now) (message_in batch.now) result }
    {
        let (blocks, here) = blocks_at(alloc, self.place, dictionaries)?;
        let Some((block, behind)) = block_at(here, batch) else {
            return Err(Error::Overflow);
        };
        if !are_few(self.dictionaries.len(), blocks.len()) {
            return Err(Error::Overflow);
        }
        self.join(&blocks, block)?;
        self.place = behind;
        Ok(())
    }
}
