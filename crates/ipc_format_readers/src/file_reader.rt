//! Readers of files, which give one record batch after another (Arrow IPC, "IPC File Format").
ghost use Rattle.std.specs.Prelude.{◌≡◌, ◌<◌, length};
ghost use Rattle.std.specs.Option.{option_map};
ghost use Rattle.ipc_format_chunk_writing.specs.BatchReads.{sized};
ghost use Rattle.ipc_format_chunk_writing.specs.ReadArrays.{standing_in};
ghost use Rattle.ipc_format_chunk_writing.specs.grammar.Tables.{left_of};
ghost use Rattle.ipc_format_readers.specs.Asking.{IsAsked, asked_schema, given_columns};
ghost use Rattle.ipc_format_readers.specs.FileReadings.{NextGivesBatch, OpensReader};
ghost use Rattle.ipc_format_readers.specs.ReaderSteps.{GivesAt, TakesDictionaries};

use crate::asking::{Asked, ask, put_asked, rising};
use crate::file_batches::{read_batch, read_file_dictionaries};
use crate::file_metadata::FileMetadata;
use ipc_format_chunk_writing::nested_arrays_core::AnyArray;
use ipc_format_chunk_writing::streams::columnar_memory::{Result, Schema};
use ipc_format_chunk_writing::{
    Chunk, Dictionaries, Room, choices_are_put_back, look_ups_are_enough,
};
use std::alloc::Global;
use std::marker::Model;
use std::mem::replace;

/// Gives the record batches of a file, one after another. A contract sees the room, what the file's footer says, which columns are asked for, how
/// many rows may still be given, the file's dictionaries once they are read, and which block is the next one.
#[derive(Drop)]
pub struct FileReader<R: Room> {
    alloc: Global,
    reader: R,
    metadata: FileMetadata,
    /// The columns that are asked for, or none where all are.
    asked: Option<Asked>,
    /// The schema of these columns, in the asked order.
    chosen_schema: Schema,
    limit: Option<usize>,
    dictionaries: Option<Dictionaries>,
    next: usize,
    data_scratch: Vec<u8>,
    message_scratch: Vec<u8>,
}

impl<R: Room> Model for FileReader<R> {
    ghost use Rattle.std.specs.Prelude.{◌≡◌, length};
    ghost use Rattle.std.specs.Option.{option_map};
    ghost use Rattle.ipc_format_readers.specs.Asking.{AreReady, asked_of, asked_schema};
    ghost use Rattle.ipc_format_chunk_writing.specs.ReadArrays.{standing_in};
    ghost use Rattle.ipc_format_readers.specs.FileReadings.{FileReading};
    ghost use Rattle.ipc_format_readers.specs.ReaderCodes.{file_reading_code};

    ghost Value = { FileReading R };

    ghost coded = { file_reading_code R.code };

    ghost view = { λ it. record {
      room = it.reader;
      metadata = it.metadata;
      columns = asked_of it.asked;
      limit = it.limit;
      standing = option_map standing_in it.dictionaries;
      next = it.next;
    } };

    ghost invariant = { λ it. AreReady (length it.metadata.schema.fields) it.asked
        × (it.chosen_schema ≡ asked_schema (asked_of it.asked) it.metadata.schema) };
}

impl<R: Room + Drop> FileReader<R> {
    /// Reads the batches of a file whose metadata were read of this room. Columns are read by the schema in its one form: all, or those of a
    /// projection, in its order, each of them at most once and by its place among the fields (`is_choice` tests it). A column that is not chosen is
    /// passed over and is not decoded. Of all blocks together at most `limit` rows are given: the batches behind these are empty.
    ///
    /// # Errors
    /// `OutOfMemory`: there was no memory for the schema of the columns that are asked for.
    pub fn new(
        alloc: Global,
        reader: R,
        metadata: FileMetadata,
        projection: Option<Vec<usize>>,
        limit: Option<usize>,
    ) -> Result<FileReader<R>>
        requires { IsAsked (length metadata.schema.fields) (given_columns projection) }
        ensures { OpensReader reader metadata (given_columns projection) limit result }
    {
        let (asked, chosen_schema) = ask(alloc, &metadata.one_form, projection)?;
        Ok(FileReader {
            alloc,
            reader,
            metadata,
            asked,
            chosen_schema,
            limit,
            dictionaries: None,
            next: 0,
            data_scratch: Vec::new(alloc),
            message_scratch: Vec::new(alloc),
        })
    }

    /// What the file's footer says.
    pub fn metadata(&self) -> &FileMetadata
        ensures { result.now ≡ self.now.metadata }
    {
        &self.metadata
    }

    /// The schema of the arrays that are given: the file's in its one form, of the columns that are asked for, in the asked order.
    pub fn schema(&self) -> &Schema
        ensures { result.now ≡ asked_schema self.now.columns self.now.metadata.schema }
    {
        &self.chosen_schema
    }

    /// The room, with no copy.
    pub fn into_inner(self) -> R
        ensures { result ≡ self.room }
    {
        self.reader
    }

    /// Takes the memory for what is read on the way, for data and for messages, and leaves none. Another reader may take it.
    pub fn get_scratches(&mut self) -> (Vec<u8>, Vec<u8>)
        ensures { self.new ≡ self.old }
    {
        let data = replace(&mut self.data_scratch, Vec::new(self.alloc));
        let message = replace(&mut self.message_scratch, Vec::new(self.alloc));
        (data, message)
    }

    /// Gives memory for what is read on the way, for data and for messages.
    pub fn set_scratches(&mut self, scratches: (Vec<u8>, Vec<u8>))
        ensures { self.new ≡ self.old }
    {
        let (data, message) = scratches;
        self.data_scratch = data;
        self.message_scratch = message;
    }
}

/// Reads a file's dictionaries, unless they were read.
///
/// # Errors
/// As of `read_file_dictionaries`.
fn take_dictionaries<R: Room>(
    alloc: Global,
    reader: &mut R,
    metadata: &FileMetadata,
    dictionaries: &mut Option<Dictionaries>,
    scratch: &mut Vec<u8>,
) -> Result<()>
    ensures { TakesDictionaries metadata.now (sized metadata.now.size (R.told reader.old)) (sized metadata.now.size (R.told reader.new))
        (option_map standing_in dictionaries.old) (option_map standing_in dictionaries.new) result }
{
    if dictionaries.is_some() {
        return Ok(());
    }
    *dictionaries = Some(read_file_dictionaries(alloc, reader, metadata, scratch)?);
    Ok(())
}

/// How many rows may still be given behind some rows.
fn left_behind(limit: Option<usize>, rows: usize) -> Option<usize>
    ensures { result ≡ left_of limit rows }
{
    match limit {
        Some(limit) => Some(limit.saturating_sub(rows)),
        None => None,
    }
}

impl<R: Room + Drop> FileReader<R> {
    /// The columns that are asked for of a batch, of as many rows as may still be given.
    ///
    /// # Errors
    /// As of `next`.
    fn batch(&mut self, index: usize) -> Result<Chunk<AnyArray>>
        requires { index < length self.old.metadata.blocks.items }
        ensures { GivesAt R.told self.old self.new index result }
    {
        look_ups_are_enough();
        choices_are_put_back();
        take_dictionaries(
            self.alloc,
            &mut self.reader,
            &self.metadata,
            &mut self.dictionaries,
            &mut self.data_scratch,
        )?;
        let Some(dictionaries) = &self.dictionaries else {
            unreachable!()
        };
        let chunk = read_batch(
            self.alloc,
            &mut self.reader,
            dictionaries,
            &self.metadata,
            rising(&self.asked),
            self.limit,
            index,
            &mut self.message_scratch,
            &mut self.data_scratch,
        )?;
        let ordered = put_asked(self.alloc, chunk, &self.asked)?;
        self.limit = left_behind(self.limit, ordered.len());
        Ok(ordered)
    }
}

impl<R: Room + Drop> Iterator for FileReader<R> {
    type Item = Result<Chunk<AnyArray>>;

    ghost next_gives = { NextGivesBatch R.told };

    /// The columns that are asked for of the batch at the next block, under the file's dictionaries, which are read with the first batch. After a
    /// refusal a later call goes on at the block behind, and reads the dictionaries anew until they were read whole. Behind the last block nothing
    /// comes.
    ///
    /// # Errors
    /// - `OutOfSpec`: a block leads to no message of its kind, there are too many dictionaries, or the format gives no dictionaries or no columns.
    /// - `NotYetImplemented`: buffers are compressed, or a dictionary adds to an earlier one.
    /// - `Io`: the device failed.
    /// - `OutOfMemory`: there was no memory for what is read.
    fn next(&mut self) -> Option<Result<Chunk<AnyArray>>> {
        let index = self.next;
        if index >= self.metadata.blocks.len() {
            return None;
        }
        self.next = index + 1;
        Some(self.batch(index))
    }
}
