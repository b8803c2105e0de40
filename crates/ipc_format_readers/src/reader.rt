//! Readers of streams, which give one record batch after another (Arrow IPC, "IPC Streaming Format").
ghost use Rattle.std.specs.Prelude.{◌≡◌, length};
ghost use Rattle.ipc_format_chunk_writing.specs.grammar.Writable.{normalised};
ghost use Rattle.ipc_format_readers.specs.Asking.{IsAsked, asked_schema, given_columns};
ghost use Rattle.ipc_format_readers.specs.Readings.{NextGives, Opens};

use crate::asking::{Asked, ask};
use crate::state::StreamState;
use crate::turns::{Standing, take_asked};
use ipc_format_chunk_writing::columnar_memory::{Result, Schema};
use ipc_format_chunk_writing::streams::owned::writing::normalised;
use ipc_format_chunk_writing::streams::{Faults, StreamMetadata, read_outcome};
use std::alloc::Global;
use std::io::Read;
use std::marker::Model;

/// Gives the record batches of a stream, one after another. A contract sees where the reader stands, how often its device has failed, what the
/// stream's first message says, and whether the reader has ended.
#[derive(Drop)]
pub struct StreamReader<R: Read + Faults> {
    alloc: Global,
    device: R,
    metadata: StreamMetadata,
    /// The schema in its one form, by which columns are read.
    schema: Schema,
    /// The columns that are asked for, or none where all are.
    asked: Option<Asked>,
    /// The schema of these columns, in the asked order.
    chosen_schema: Schema,
    standing: Standing,
    is_finished: bool,
}

impl<R: Read + Faults> Model for StreamReader<R> {
    ghost use Rattle.std.specs.Prelude.{◌≡◌, ◌<◌, length};
    ghost use Rattle.std.specs.Io.KnownBytes.{prepend_known};
    ghost use Rattle.ipc_format_chunk_writing.specs.ReadArrays.{standing_in};
    ghost use Rattle.ipc_format_chunk_writing.specs.grammar.Writable.{normalised};
    ghost use Rattle.ipc_format_readers.specs.ReadingCodes.{reading_code};
    ghost use Rattle.ipc_format_readers.specs.Asking.{AreReady, asked_of, asked_schema};
    ghost use Rattle.ipc_format_readers.specs.Readings.{Reading};

    ghost Value = { Reading };

    ghost coded = { reading_code };

    ghost view = { λ r. record {
      spot = record {
        left = prepend_known r.standing.held.items (R.remaining r.device);
        standing = standing_in r.standing.dictionaries;
        in_a_row = r.standing.in_a_row;
      };
      failures = R.failures r.device;
      metadata = r.metadata;
      columns = asked_of r.asked;
      is_finished = r.is_finished;
    } };

    ghost invariant = { λ r. (r.schema ≡ normalised r.metadata.schema) × (length r.standing.held.items < 4)
        × AreReady (length r.schema.fields) r.asked × (r.chosen_schema ≡ asked_schema (asked_of r.asked) r.metadata.schema) };
}

impl<R: Read + Faults + Drop> StreamReader<R> {
    /// Reads the batches behind the first message of a stream, which said what is told of it. Columns are read by the schema in its one form: all, or
    /// those of a projection, in its order, each of them at most once and by its place among the fields (`is_choice` tests it). A column that is not
    /// chosen is passed over and is not decoded.
    ///
    /// # Errors
    /// `OutOfMemory`: there was no memory for the schema, or for the columns that are asked for.
    pub fn new(
        alloc: Global,
        reader: R,
        metadata: StreamMetadata,
        projection: Option<Vec<usize>>,
    ) -> Result<StreamReader<R>>
        requires { IsAsked (length metadata.schema.fields) (given_columns projection) }
        ensures { Opens (R.remaining reader) (R.failures reader) metadata (given_columns projection) result }
    {
        let schema = normalised(alloc, &metadata.schema)?;
        let (asked, chosen_schema) = ask(alloc, &schema, projection)?;
        let standing = Standing::new(alloc);
        Ok(StreamReader {
            alloc,
            device: reader,
            metadata,
            schema,
            asked,
            chosen_schema,
            standing,
            is_finished: false,
        })
    }

    /// What the first message of the stream says.
    pub fn metadata(&self) -> &StreamMetadata
        ensures { result.now ≡ self.now.metadata }
    {
        &self.metadata
    }

    /// The schema of the arrays that are given: the stream's in its one form, of the columns that are asked for, in the asked order.
    pub fn schema(&self) -> &Schema
        ensures { result.now ≡ asked_schema self.now.columns self.now.metadata.schema }
    {
        &self.chosen_schema
    }

    /// Whether the reader has ended: behind the end mark, or after a refusal.
    pub fn is_finished(&self) -> bool
        ensures { result ≡ self.now.is_finished }
    {
        self.is_finished
    }
}

impl<R: Read + Faults + Drop> Iterator for StreamReader<R> {
    type Item = Result<StreamState>;

    ghost next_gives = { NextGives R.in_memory };

    /// The columns that are asked for of the next record batch, under the dictionaries that came before it. Where the bytes end before it, it is
    /// `Waiting`, and a later call goes on with those that it holds. Behind the end mark and after a refusal nothing comes.
    ///
    /// # Errors
    /// - `OutOfSpec`: the bytes break a rule of the format, end within a message, or more than 65,536 dictionaries come in a row; or the device
    ///   refuses without a failure, or its count of failures falls, which memory never does.
    /// - `NotYetImplemented`: buffers are compressed, or a dictionary adds to an earlier one.
    /// - `Io`: the device failed, also where each of its reads was answered by `Ok`.
    /// - `OutOfMemory`: there was no memory for what came.
    fn next(&mut self) -> Option<Result<StreamState>> {
        if self.is_finished {
            return None;
        }
        let is_memory = self.device.is_memory();
        let before = self.device.faults();
        let found = take_asked(
            self.alloc,
            &mut self.device,
            self.schema.fields.as_slice(),
            &self.metadata.ipc_schema,
            self.metadata.version,
            &self.asked,
            &mut self.standing,
        );
        match read_outcome(found, is_memory, before, self.device.faults()) {
            Ok(Some(state)) => Some(Ok(state)),
            Ok(None) => {
                self.is_finished = true;
                None
            }
            Err(error) => {
                self.is_finished = true;
                Some(Err(error))
            }
        }
    }
}
