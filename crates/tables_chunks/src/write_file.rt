//! Tables written as files: the start and the schema's message, the messages of the batches, which a footer places, and the footer.
ghost use Rattle.std.specs.Prelude.{◌≡◌, ◌+◌, ◌≤◌, ◌<◌, ◌^◌, ◌++◌, ◌∷◌, [], IfOk, drop, length, true};
ghost use Rattle.std.specs.List.{list_all};
ghost use Rattle.ipc_format.specs.reading_laws.laws.Schemas.{HasTexts};
ghost use Rattle.ipc_format.specs.BlockPlacing.{StandAt, StandsAt};
ghost use Rattle.ipc_format.specs.EncodedChunks.{message_in, messages_in};
ghost use Rattle.ipc_format.specs.Ends.{end_with, file_tail, has_room};
ghost use Rattle.ipc_format.specs.Tracking.{tracked};
ghost use Rattle.ipc_format.specs.Writable.{is_writable};
ghost use Rattle.ipc_format.specs.WrittenMessages.{fits_limit, most_metadata, prefix_size};
ghost use Rattle.ipc_format.specs.WrittenStreams.{batch_of_stored};
ghost use Rattle.ipc_format.specs.metadata.Views.{ids_views};
ghost use Rattle.ipc_format.specs.streams.Devices.{Puts};
ghost use Rattle.tables_chunks.specs.Batches.{stored_rows};
ghost use Rattle.tables_chunks.specs.StoredTables.{IsTable};
ghost use Rattle.tables_chunks.specs.WrittenTables.{ReadAsTable, table_ids};
ghost use Rattle.tables_chunks.specs.WrittenFiles.{GivesTableFooter, PlacesMessages, PutsFile, PutsFileBatch, PutsFileBatches, PutsFileStart};
ghost use Rattle.tables_chunks.specs.WrittenFiles.{ReadAsTableFile, WritesFile, WritesWhole, places_of, table_file};

use crate::fault::Fault;
use crate::table::Table;
use columnar_memory_types::{Error, Result as Answer, Schema};
use ipc_format::format::Block;
use ipc_format::nested_arrays_core::AnyArray;
use ipc_format::{
    Chunk, DictionaryTracker, EncodedData, Faults, IpcField, default_ipc_fields, encode_batch,
    footer_to_bytes, outcome, put, put_message, put_messages, schema_to_bytes,
};
use std::alloc::Global;
use std::io::Write;

/// The mark of a file, and two zeros.
const START: [u8; 8] = [65, 82, 82, 79, 87, 49, 0, 0];

/// The mark of a file.
const MARK: [u8; 6] = [65, 82, 82, 79, 87, 49];

/// What ends the messages.
const END: [u8; 8] = [255, 255, 255, 255, 0, 0, 0, 0];

/// How many bytes stand before a message's metadata: the marker, and the length of the metadata.
const PREFIX: u64 = 8;

/// How many bytes stand before the first message's metadata: the mark with two zeros, and the message's prefix.
const BEFORE_METADATA: u64 = 16;

/// How many bytes stand behind the last message beside the footer: the end mark, the footer's length, and the mark.
const AROUND_FOOTER: u64 = 18;

/// The last place that a footer can state.
const LAST_PLACE: u64 = 9_223_372_036_854_775_807;

/// Where the messages of a file stand behind the schema's, and where the next one does, counted from the file's first byte.
#[derive(Drop)]
struct Places {
    next: u64,
    dictionaries: Vec<Block>,
    record_batches: Vec<Block>,
}

/// The block of a message that stands at a place, and the place behind it; nothing where that is past 2^63 - 1.
fn block_at(place: u64, message: &EncodedData) -> Option<(Block, u64)>
    requires { prefix_size + length message.now.ipc_message.items ≤ most_metadata }
    ensures { StandsAt result place (message_in message.now) }
{
    let metadata = PREFIX + message.ipc_message.len() as u64;
    let body = message.arrow_data.len() as u64;
    let behind = place.checked_add(metadata)?.checked_add(body)?;
    if behind > LAST_PLACE {
        return None;
    }
    let block = Block {
        offset: place.cast_signed(),
        meta_data_length: (metadata as u32).cast_signed(),
        body_length: body.cast_signed(),
    };
    Some((block, behind))
}

/// The blocks of messages that stand one behind the other from a place on, and the place behind them; `Overflow` where that is past 2^63 - 1.
fn blocks_at(alloc: Global, place: u64, messages: &[EncodedData]) -> Answer<(Vec<Block>, u64)>
    requires { list_all fits_limit (messages_in messages.now) ≡ true }
    ensures { StandAt result place (messages_in messages.now) }
{
    let mut blocks = Vec::new(alloc);
    let mut here = place;
    for message in messages {
        let Some((block, behind)) = block_at(here, message) else {
            return Err(Error::Overflow);
        };
        blocks.push(block)?;
        here = behind;
    }
    Ok((blocks, here))
}

/// Places the messages of dictionaries, and of a batch behind them; `Overflow` where the place behind them is past 2^63 - 1.
fn place_messages(
    alloc: Global,
    places: &mut Places,
    dictionaries: &[EncodedData],
    batch: &EncodedData,
) -> Answer<()>
    requires { list_all fits_limit (messages_in dictionaries.now ++ message_in batch.now ∷ []) ≡ true }
    ensures { PlacesMessages (places_of places.old) (places_of places.new) (messages_in dictionaries.now) (message_in batch.now) result }
{
    let (blocks, here) = blocks_at(alloc, places.next, dictionaries)?;
    let Some((block, behind)) = block_at(here, batch) else {
        return Err(Error::Overflow);
    };
    places.dictionaries.extend_from_slice(&blocks)?;
    places.record_batches.push(block)?;
    places.next = behind;
    Ok(())
}

/// Writes the start of a file and the message of a schema, with the default ids of its dictionaries, and answers the place behind it.
fn put_file_start<W: Write>(
    alloc: Global,
    writer: &mut W,
    schema: &Schema,
    ids: &[IpcField],
) -> Answer<u64>
    requires writable { is_writable schema.now ≡ true }
    requires ids { ids_views ids.now ≡ table_ids schema.now }
    ensures { PutsFileStart result (W.contents writer.old) (W.contents writer.new) schema.now }
{
    let metadata = schema_to_bytes(alloc, schema, ids)?;
    put(writer, &START)?;
    put_message(writer, &metadata, &[])?;
    Ok(BEFORE_METADATA + metadata.len() as u64)
}

/// Writes the messages of a batch, and places them: those of the dictionaries that go before it, and its own. All of them are encoded before the
/// first is written, and what `encoded` held is written over.
fn put_file_batch<W: Write>(
    alloc: Global,
    writer: &mut W,
    batch: &Chunk<AnyArray>,
    ids: &[IpcField],
    tracker: &mut DictionaryTracker,
    places: &mut Places,
    encoded: &mut EncodedData,
) -> Answer<()>
    ensures { PutsFileBatch result (W.contents writer.old) (W.contents writer.new) (tracked tracker.old) (tracked tracker.new)
        (places_of places.old) (places_of places.new) (batch_of_stored (ids_views ids.now) batch.now) }
{
    let dictionaries = encode_batch(alloc, batch, ids, tracker, encoded)?;
    place_messages(alloc, places, &dictionaries, encoded)?;
    put_messages(writer, &dictionaries)?;
    put_message(
        writer,
        encoded.ipc_message.as_slice(),
        encoded.arrow_data.as_slice(),
    )
}

/// Writes the messages of batches under a schema, one batch after another, and answers where they stand, the first one at `place`.
fn put_file_batches<W: Write>(
    alloc: Global,
    writer: &mut W,
    schema: &Schema,
    batches: &[Chunk<AnyArray>],
    ids: &[IpcField],
    place: u64,
) -> Answer<Places>
    requires { ids_views ids.now ≡ table_ids schema.now }
    ensures { PutsFileBatches result place (W.contents writer.old) (W.contents writer.new) schema.now batches.now }
{
    let mut tracker = DictionaryTracker::new(alloc, true);
    let mut encoded = EncodedData::new(alloc);
    let mut places = Places {
        next: place,
        dictionaries: Vec::new(alloc),
        record_batches: Vec::new(alloc),
    };
    for batch in batches {
        put_file_batch(
            alloc,
            writer,
            batch,
            ids,
            &mut tracker,
            &mut places,
            &mut encoded,
        )?;
    }
    Ok(places)
}

/// Whether a file whose messages end at a place has fewer than 2^63 bytes with a footer.
fn has_room(place: u64, footer: &[u8]) -> bool
    ensures { result ≡ has_room place footer.now }
{
    let Some(room) = place.checked_add(AROUND_FOOTER) else {
        return false;
    };
    match room.checked_add(footer.len() as u64) {
        Some(length) => length <= LAST_PLACE,
        None => false,
    }
}

/// The footer of a schema and of placed messages; `Overflow` where it has 2^31 bytes or more, or the file 2^63 or more.
fn table_footer(
    alloc: Global,
    schema: &Schema,
    ids: &[IpcField],
    places: &Places,
) -> Answer<Vec<u8>>
    requires writable { is_writable schema.now ≡ true }
    requires ids { ids_views ids.now ≡ table_ids schema.now }
    ensures { GivesTableFooter result schema.now (places_of places.now) }
{
    let footer = footer_to_bytes(
        alloc,
        schema,
        ids,
        &places.dictionaries,
        &places.record_batches,
    )?;
    if !has_room(places.next, &footer) {
        return Err(Error::Overflow);
    }
    Ok(footer)
}

/// Writes the length of a footer, and the mark.
fn put_tail<W: Write>(writer: &mut W, length: u32) -> Answer<()>
    ensures { Puts result (W.contents writer.old) (W.contents writer.new) (file_tail length) }
{
    put(writer, &length.to_le_bytes())?;
    put(writer, &MARK)
}

/// Writes the end mark of the messages, a footer, its length, and the mark.
fn put_file_end<W: Write>(writer: &mut W, footer: &[u8]) -> Answer<()>
    requires { length footer.now < 2 ^ 31 }
    ensures { Puts result (W.contents writer.old) (W.contents writer.new) (end_with footer.now) }
{
    put(writer, &END)?;
    put(writer, footer)?;
    put_tail(writer, footer.len() as u32)
}

/// Writes a schema and batches as a file; `Io` is each refusal of the device.
fn put_file<W: Write>(
    alloc: Global,
    writer: &mut W,
    schema: &Schema,
    batches: &[Chunk<AnyArray>],
) -> Answer<()>
    requires { IsTable schema.now batches.now }
    ensures { PutsFile result (W.contents writer.old) (W.contents writer.new) schema.now batches.now }
{
    let ids = default_ipc_fields(alloc, schema.fields.as_slice())?;
    let place = put_file_start(alloc, writer, schema, &ids)?;
    let places = put_file_batches(alloc, writer, schema, batches, &ids, place)?;
    let footer = table_footer(alloc, schema, &ids, &places)?;
    put_file_end(writer, &footer)
}

/// Writes a schema and batches as a file. The device's refusals are told apart by its count of failures: `Io` where that rose, `OutOfMemory` for
/// want of memory, as always of memory, and else `OutOfSpec`. A count that changed is a refusal too.
#[tactic(auto, using(crate::proofs::FileRefused::file_told))]
fn write_whole<W: Write + Faults>(
    alloc: Global,
    writer: &mut W,
    schema: &Schema,
    batches: &[Chunk<AnyArray>],
) -> Answer<()>
    requires { IsTable schema.now batches.now }
    ensures { WritesWhole result schema.now batches.now W.in_memory (W.failures writer.old) (W.failures writer.new)
        (W.contents writer.old) (W.contents writer.new) }
{
    let is_memory = writer.is_memory();
    let before = writer.faults();
    let written = put_file(alloc, writer, schema, batches);
    outcome(written, is_memory, before, writer.faults())
}

/// Writes a schema and batches as a file, with the faults of tables. It reads as these batches, also as a stream without its first eight bytes.
fn write_batches<W: Write + Faults>(
    alloc: Global,
    writer: &mut W,
    schema: &Schema,
    batches: &[Chunk<AnyArray>],
) -> Result<(), Fault>
    requires { IsTable schema.now batches.now }
    ensures written { WritesFile result schema.now batches.now W.in_memory (W.failures writer.old) (W.failures writer.new)
        (W.contents writer.old) (W.contents writer.new) }
    ensures reads_back { IfOk result (λ _. HasTexts schema.now → length (stored_rows batches.now) < 2 ^ 64
        → ReadAsTableFile (table_file schema.now batches.now) schema.now batches.now) }
    ensures reads_as_stream { IfOk result (λ _. HasTexts schema.now → length (stored_rows batches.now) < 2 ^ 64
        → ReadAsTable (drop 8 (table_file schema.now batches.now)) schema.now batches.now) }
{
    Ok(write_whole(alloc, writer, schema, batches)?)
}

impl Table {
    /// Writes the table as an Arrow file (Arrow IPC, "IPC File Format"; File.fbs): its mark; the message of its schema, with the ids of dictionaries
    /// from 0 on in pre-order; for each batch the dictionaries that no batch before it brought, and a record batch message; the end mark; and the
    /// footer, which places the messages. What is written reads, in the form of a file, as this very table, batch by batch, and without its first
    /// eight bytes as a stream of it.
    ///
    /// # Errors
    /// - `Ipc(Overflow)`: a message, or a node in it, is past its limit, or the file would have 2^63 bytes or more, or the footer 2^31 or more.
    /// - `Ipc(InvalidArgumentError)`: a dictionary differs from the one that was written under its id, which a file can't replace.
    /// - `Ipc(Io)`: the writer failed; its count of failures rose, perhaps though each write was answered by `Ok`.
    /// - `Ipc(OutOfSpec)`: it took nothing of what was to be written, or refused it without a failure, or its count of failures fell. Memory never
    ///   answers this.
    /// - `Memory`: there was no memory, also in the writer.
    ///
    /// What was written before an error stays written: a beginning of the file, perhaps all of it. At the first two that is exactly the mark, the
    /// schema's message and the messages of the batches before; nothing, where the schema's message is past its limit; and all messages, where the
    /// footer is, or the file with it.
    pub fn write_file<W: Write + Faults>(&self, alloc: Global, writer: &mut W) -> Result<(), Fault>
        ensures written { WritesFile result self.now.schema self.now.batches W.in_memory (W.failures writer.old) (W.failures writer.new)
            (W.contents writer.old) (W.contents writer.new) }
        ensures reads_back { IfOk result (λ done.
            ReadAsTableFile (table_file self.now.schema self.now.batches) self.now.schema self.now.batches) }
        ensures reads_as_stream { IfOk result (λ done.
            ReadAsTable (drop 8 (table_file self.now.schema self.now.batches)) self.now.schema self.now.batches) }
    {
        self.whole();
        self.schema().whole();
        write_batches(alloc, writer, self.schema(), self.batches())
    }
}
