//! The writer of a stream.
ghost use Rattle.std.specs.Prelude.{◌≡◌};
ghost use Rattle.std.specs.Option.{option_copied};
ghost use Rattle.ipc_format_batch_reading.specs.columnar_memory.Error.{IsOutOfSpec};
ghost use Rattle.ipc_format_chunk_writing.specs.Opening.{fields_or, ids_given};
ghost use Rattle.ipc_format_chunk_writing.specs.Phases.{fresh};
ghost use Rattle.ipc_format_chunk_writing.specs.Writing.{Finishes, Starts, WritesChunk};

use crate::opening::{encode, open};
use crate::options::WriteOptions;
use crate::phases::{is_fresh, is_started};
use crate::sending::send;
use crate::state::State;
use ipc_format_batch_reading::Chunk;
use ipc_format_batch_reading::columnar_memory::{Error, Result, Schema};
use ipc_format_batch_reading::nested_arrays_core::AnyArray;
use ipc_format_batch_reading::streams::metadata::IpcField;
use ipc_format_batch_reading::streams::{EncodedData, Faults, write_continuation};
use std::alloc::Global;
use std::io::Write;
use std::marker::Model;

/// A call that comes out of order.
fn out_of_order() -> Error
    ensures { IsOutOfSpec result }
{
    Error::OutOfSpec("a writer's call out of order")
}

/// The ids that are given for a batch, or else those of the start.
pub fn fields_or<'a>(own: &'a [IpcField], given: Option<&'a [IpcField]>) -> &'a [IpcField]
    ensures { result.now ≡ fields_or own.now (option_copied given.entry) }
{
    match given {
        Some(fields) => fields,
        None => own,
    }
}

/// A writer of a stream of batches to a device (Arrow IPC, "IPC Streaming Format"): `start` writes the schema, each `write` a batch behind the
/// dictionaries that it brings, and `finish` the end mark.
#[derive(Drop)]
pub struct StreamWriter<W: Write + Faults> {
    writer: W,
    options: WriteOptions,
    state: State,
    /// The message of the last batch, whose memory the next one takes.
    encoded: EncodedData,
}

impl<W: Write + Faults> Model for StreamWriter<W> {
    ghost use Rattle.ipc_format_chunk_writing.specs.Phases.{Writer, phase_of};
    ghost use Rattle.ipc_format_chunk_writing.specs.WriterCodes.{writer_code};

    ghost Value = { Writer W };

    ghost coded = { writer_code W.code };

    ghost view = { λ it. record { device = it.writer; compression = it.options.compression; phase = phase_of it.state } };
}

impl<W: Write + Faults> StreamWriter<W> {
    /// A writer to a device, which has written nothing.
    pub fn new(alloc: Global, writer: W, write_options: WriteOptions) -> Self
        ensures { result ≡ record { device = writer; compression = write_options.compression; phase = fresh } }
    {
        StreamWriter {
            writer,
            options: write_options,
            state: State::Fresh,
            encoded: EncodedData::new(alloc),
        }
    }

    /// Writes the schema's message, with the ids of its dictionaries: those that are given, or else numbers from 0 on in pre-order.
    ///
    /// # Errors
    /// - `OutOfSpec`: the writer was started before, or its device has failed. Nothing changes. Or the device, if it is not memory,
    ///   took nothing of a piece now, refused it without a failure, or has a count of failures that fell.
    /// - `NotYetImplemented`: a field of floating-point numbers stands in the schema. Nothing changes, as with the next three.
    /// - `InvalidArgumentError`: the schema is none that is written, or the ids are not those of its dictionaries.
    /// - `Overflow`: with its prefix of 8 bytes the metadata would have more than 2,147,483,640 bytes.
    /// - `OutOfMemory`: there was no memory for the metadata or for what the writer keeps. Or the device had none.
    /// - `Io`: the device failed, also where each of its writes was answered by `Ok`.
    ///
    /// Where the device refused, a beginning of the message is written, perhaps all of it, and the writer refuses all later calls.
    pub fn start(
        &mut self,
        alloc: Global,
        schema: &Schema,
        ipc_fields: Option<Vec<IpcField>>,
    ) -> Result<()>
        ensures { Starts W.contents W.failures W.in_memory self.old self.new schema.now (ids_given schema.now ipc_fields)
            result }
    {
        if !is_fresh(&self.state) {
            return Err(out_of_order());
        }
        let (stream, message) = open(alloc, schema, ipc_fields)?;
        match send(&mut self.writer, &[], &message) {
            Ok(()) => {
                self.state = State::Started(stream);
                Ok(())
            }
            Err(error) => {
                self.state = State::Broken;
                Err(error)
            }
        }
    }

    /// Writes a batch: the dictionaries that go before it, and its own message, which are all encoded before the first of them is written.
    /// The ids of its dictionaries are those that are given, or else those of `start`.
    ///
    /// # Errors
    /// - `OutOfSpec`: the writer was not started, is finished, or its device has failed. Nothing changes. Or the device, if it is not memory,
    ///   took nothing of a piece now, refused it without a failure, or has a count of failures that fell.
    /// - `NotYetImplemented`: the writer was told to compress. Nothing changes, as with the next three.
    /// - `InvalidArgumentError`: the batch doesn't belong to the schema, the ids are not those of its dictionaries, or two dictionaries of one id
    ///   differ.
    /// - `Overflow`: a message is past its limit.
    /// - `OutOfMemory`: there was no memory for the messages or for what the writer keeps. Or the device had none.
    /// - `Io`: the device failed, also where each of its writes was answered by `Ok`.
    ///
    /// Where the device refused, a beginning of the messages is written, perhaps all of them, and the writer refuses all later calls.
    pub fn write(
        &mut self,
        alloc: Global,
        columns: &Chunk<AnyArray>,
        ipc_fields: Option<&[IpcField]>,
    ) -> Result<()>
        ensures { WritesChunk W.contents W.failures W.in_memory self.old self.new (option_copied ipc_fields.entry) columns.now result }
    {
        let State::Started(stream) = &mut self.state else {
            return Err(out_of_order());
        };
        if self.options.compression.is_some() {
            return Err(Error::NotYetImplemented("compression of buffers"));
        }
        let ids = fields_or(stream.ids.as_slice(), ipc_fields);
        let dictionaries = encode(
            alloc,
            &stream.schema,
            ids,
            &mut stream.tracker,
            columns,
            &mut self.encoded,
        )?;
        match send(&mut self.writer, &dictionaries, &self.encoded) {
            Ok(()) => Ok(()),
            Err(error) => {
                self.state = State::Broken;
                Err(error)
            }
        }
    }

    /// Writes the end mark.
    ///
    /// # Errors
    /// - `OutOfSpec`: the writer was not started, is finished, or its device has failed. Nothing changes. Or the device, if it is not memory,
    ///   took nothing of a piece now, refused it without a failure, or has a count of failures that fell.
    /// - `Io`: the device failed, also where each of its writes was answered by `Ok`.
    /// - `OutOfMemory`: it had no memory.
    ///
    /// Where the device refused, a beginning of the mark is written, perhaps all of it, and the writer refuses all later calls.
    pub fn finish(&mut self) -> Result<()>
        ensures { Finishes W.contents W.failures W.in_memory self.old self.new result }
    {
        if !is_started(&self.state) {
            return Err(out_of_order());
        }
        match write_continuation(&mut self.writer, 0) {
            Ok(_) => {
                self.state = State::Finished;
                Ok(())
            }
            Err(error) => {
                self.state = State::Broken;
                Err(error)
            }
        }
    }

    /// The device, with no copy.
    pub fn into_inner(self) -> W
        ensures { result ≡ self.device }
    {
        self.writer
    }
}
