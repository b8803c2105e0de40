//! The writer of a file.
ghost use Rattle.std.specs.Prelude.{◌≡◌, true};
ghost use Rattle.std.specs.Option.{option_copied};
ghost use Rattle.ipc_format_readers.specs.chunk_writing.Opening.{ids_given};
ghost use Rattle.ipc_format_readers.specs.chunk_writing.columnar_memory.Error.{IsOutOfSpec};
ghost use Rattle.ipc_format_readers.specs.chunk_writing.metadata.Views.{ids_views};
ghost use Rattle.ipc_format.specs.Ends.{GivesEnd, may_be_written};
ghost use Rattle.ipc_format.specs.FilePhases.{phase_of};
ghost use Rattle.ipc_format.specs.Resuming.{Resumes};
ghost use Rattle.ipc_format.specs.FileWriting.{Finishes, IsMade, IsMadeStarted, Starts, WritesChunk};

use crate::batches::add_batch;
use crate::ends::{footer_of, zeros_before};
use crate::growing::{end_of_messages, progress_of_file};
use crate::opening::open;
use crate::phases::is_fresh;
use crate::sending::{send_end, send_start, stand_behind};
use crate::state::State;
use ipc_format_readers::chunk_writing::nested_arrays_core::AnyArray;
use ipc_format_readers::chunk_writing::{Chunk, WriteOptions, fields_or, ids_or_default, send};
use ipc_format_readers::streams::columnar_memory::{Error, Items, Result, Schema};
use ipc_format_readers::streams::metadata::IpcField;
use ipc_format_readers::streams::{EncodedData, Faults};
use ipc_format_readers::{FileMetadata, read_file_dictionaries};
use std::alloc::Global;
use std::io::{Read, Seek, Write};
use std::marker::Model;
use std::mem::replace;

/// A call that comes out of order.
fn out_of_order() -> Error
    ensures { IsOutOfSpec result }
{
    Error::OutOfSpec("a writer's call out of order")
}

/// A writer of a file of batches to a device (Arrow IPC, "IPC File Format"): `start` writes the mark and the schema, each `write` a batch behind
/// the dictionaries that it brings, and `finish` the end mark, the footer and the mark.
#[derive(Drop)]
pub struct FileWriter<W: Write + Faults> {
    writer: W,
    schema: Schema,
    /// The ids of its dictionaries.
    ids: Items<IpcField>,
    options: WriteOptions,
    state: State,
    /// The message of the last batch, whose memory the next one takes.
    encoded: EncodedData,
    ghost may: { may_be_written (phase_of state) schema (ids_views ids) ≡ true },
}

impl<W: Write + Faults> Model for FileWriter<W> {
    ghost use Rattle.ipc_format.specs.FilePhases.{Writer, phase_of};
    ghost use Rattle.ipc_format.specs.WriterCodes.{writer_code};

    ghost Value = { Writer W };

    ghost coded = { writer_code W.code };

    ghost view = { λ it. record {
      device = it.writer;
      schema = it.schema;
      ids = it.ids;
      compression = it.options.compression;
      phase = phase_of it.state;
    } };
}

impl<W: Write + Faults + Drop> FileWriter<W> {
    /// A writer of files of a schema to a device, which has written nothing. The ids of its dictionaries are those that are given, or else numbers
    /// from 0 on in pre-order.
    ///
    /// # Errors
    /// `OutOfMemory`: there was no memory for the ids.
    pub fn new(
        alloc: Global,
        writer: W,
        schema: Schema,
        ipc_fields: Option<Vec<IpcField>>,
        options: WriteOptions,
    ) -> Result<Self>
        ensures { IsMade result writer schema (ids_given schema ipc_fields) options.compression }
    {
        let ids = ids_or_default(alloc, &schema, ipc_fields)?;
        Ok(FileWriter {
            writer,
            schema,
            ids: Items::from_vec(ids),
            options,
            state: State::Fresh,
            encoded: EncodedData::new(alloc),
        })
    }

    /// A writer that is started.
    ///
    /// # Errors
    /// Those of `start`.
    pub fn try_new(
        alloc: Global,
        writer: W,
        schema: Schema,
        ipc_fields: Option<Vec<IpcField>>,
        options: WriteOptions,
    ) -> Result<Self>
        ensures { IsMadeStarted W.contents W.failures W.in_memory result writer schema (ids_given schema ipc_fields) options.compression }
    {
        let mut made = FileWriter::new(alloc, writer, schema, ipc_fields, options)?;
        made.start(alloc)?;
        Ok(made)
    }
}

impl<W: Write + Faults> FileWriter<W> {
    /// Writes the file's mark, and the schema's message with the ids of its dictionaries.
    ///
    /// # Errors
    /// - `OutOfSpec`: the writer was started before, or its device has failed. Nothing changes. Or the device, if it is not memory,
    ///   took nothing of a piece now, refused it without a failure, or has a count of failures that fell.
    /// - `NotYetImplemented`: a field of floating-point numbers stands in the schema. Nothing changes, as with the next three.
    /// - `InvalidArgumentError`: the schema is none that is written, or the ids are not those of its dictionaries.
    /// - `Overflow`: with its prefix of 8 bytes the metadata would have more than 2,147,483,640 bytes.
    /// - `OutOfMemory`: there was no memory for the metadata. Or the device had none.
    /// - `Io`: the device failed, also where each of its writes was answered by `Ok`.
    ///
    /// Where the device refused, a beginning of the bytes is written, perhaps all of them, and the writer refuses all later calls.
    pub fn start(&mut self, alloc: Global) -> Result<()>
        ensures { Starts W.contents W.failures W.in_memory self.old self.new result }
    {
        if !is_fresh(&self.state) {
            return Err(out_of_order());
        }
        let (progress, message) = open(alloc, &self.schema, self.ids.as_slice())?;
        match send_start(&mut self.writer, &message) {
            Ok(()) => {
                self.state = State::Started(progress);
                Ok(())
            }
            Err(error) => {
                self.state = State::Broken;
                Err(error)
            }
        }
    }

    /// Writes a batch: the dictionaries that go before it, and its own message, which are all encoded before the first of them is written.
    /// The ids of its dictionaries are those that are given, or else the writer's.
    ///
    /// # Errors
    /// - `OutOfSpec`: the writer was not started, is finished, or its device has failed. Nothing changes. Or the device, if it is not memory,
    ///   took nothing of a piece now, refused it without a failure, or has a count of failures that fell.
    /// - `NotYetImplemented`: the writer was told to compress. Nothing changes, as with the next three.
    /// - `InvalidArgumentError`: the batch doesn't belong to the schema, the ids are not those of its dictionaries, or a dictionary differs from
    ///   another one under its id.
    /// - `Overflow`: a message is past its limit, or the file would have 2^63 bytes or more, or more than 65,536 messages of dictionaries.
    /// - `OutOfMemory`: there was no memory for the messages or for what the writer keeps. Or the device had none.
    /// - `Io`: the device failed, also where each of its writes was answered by `Ok`.
    ///
    /// Where the device refused, a beginning of the messages is written, perhaps all of them, and the writer refuses all later calls.
    pub fn write(
        &mut self,
        alloc: Global,
        columns: &Chunk<AnyArray>,
        ipc_fields: Option<&[IpcField]>,
    ) -> Result<()>
        ensures { WritesChunk W.contents W.failures W.in_memory self.old self.new (option_copied ipc_fields.entry) columns.now result }
    {
        let State::Started(file) = &mut self.state else {
            return Err(out_of_order());
        };
        if self.options.compression.is_some() {
            return Err(Error::NotYetImplemented("compression of buffers"));
        }
        let ids = fields_or(self.ids.as_slice(), ipc_fields);
        let dictionaries = add_batch(alloc, &self.schema, ids, file, columns, &mut self.encoded)?;
        match send(&mut self.writer, &dictionaries, &self.encoded) {
            Ok(()) => Ok(()),
            Err(error) => {
                self.state = State::Broken;
                Err(error)
            }
        }
    }

    /// The footer of what is written (File.fbs), and how many zeros stand before it.
    ///
    /// # Errors
    /// - `OutOfSpec`: the writer was not started, is finished, or its device has failed.
    /// - `Overflow`: the footer would have 2^31 bytes or more, or the file 2^63 or more.
    /// - `OutOfMemory`: there was no memory for the footer.
    fn end(&self, alloc: Global) -> Result<(u64, Vec<u8>)>
        ensures { GivesEnd result self.now }
    {
        let State::Started(file) = &self.state else {
            return Err(out_of_order());
        };
        let footer = footer_of(alloc, &self.schema, self.ids.as_slice(), file)?;
        Ok((zeros_before(file, &footer), footer))
    }

    /// Writes the end mark, the footer, its length, and the file's mark, and has the device let go what it holds back. Between the end mark and the
    /// footer of a file that was added to stand as many zeros as it takes for the file to have no fewer bytes than before.
    ///
    /// # Errors
    /// - `OutOfSpec`: the writer was not started, is finished, or its device has failed. Nothing changes. Or the device, if it is not memory,
    ///   took nothing of a piece now, refused it without a failure, or has a count of failures that fell.
    /// - `Overflow`: the footer would have 2^31 bytes or more, or the file 2^63 or more. Nothing changes.
    /// - `OutOfMemory`: there was no memory for the footer, and nothing changes. Or the device had none.
    /// - `Io`: the device failed, also where each of its writes was answered by `Ok`.
    ///
    /// Where the device refused, a beginning of the bytes is written, perhaps all of them, and the writer refuses all later calls.
    pub fn finish(&mut self, alloc: Global) -> Result<()>
        ensures { Finishes W.contents W.failures W.in_memory self.old self.new result }
    {
        let (zeros, footer) = self.end(alloc)?;
        match send_end(&mut self.writer, zeros, &footer) {
            Ok(()) => {
                self.state = State::Finished;
                Ok(())
            }
            Err(error) => {
                self.state = State::Broken;
                Err(error)
            }
        }
    }

    /// Takes the memory in which the messages of batches are encoded, and leaves none. Another writer may take it.
    pub fn get_scratches(&mut self, alloc: Global) -> EncodedData
        ensures { self.new ≡ self.old }
    {
        replace(&mut self.encoded, EncodedData::new(alloc))
    }

    /// Gives memory in which the messages of batches are encoded; what it holds is written over.
    pub fn set_scratches(&mut self, scratches: EncodedData)
        ensures { self.new ≡ self.old }
    {
        self.encoded = scratches;
    }

    /// The device, with no copy.
    pub fn into_inner(self) -> W
        ensures { result ≡ self.device }
    {
        self.writer
    }
}

impl<W: Read + Write + Seek + Faults + Drop> FileWriter<W> {
    /// A writer that adds batches to a file on a device, by what its footer says (`read_file_metadata`): under the file's own schema and ids, behind
    /// the last of its messages, over the end mark and the old footer. Its dictionaries are read, and none of them may be replaced. Until `finish`
    /// has written a new footer the device holds no file.
    ///
    /// # Errors
    /// - `NotYetImplemented`: the file's numbers have their highest byte first, or one of its dictionaries is compressed or adds to another.
    /// - `OutOfSpec`: the file has no record batch, or a block states a negative length or ends past the file; or one of its dictionaries is out of
    ///   specification; or the device refuses without a failure.
    /// - `Overflow`: the file has 2^63 bytes or more.
    /// - `OutOfMemory`: there was no memory for the dictionaries or for what the writer keeps. Or the device had none.
    /// - `Io`: the device failed, also where each of its writes was answered by `Ok`.
    #[tactic(auto, using(crate::proofs::Stood::lost_behind))]
    pub fn try_from_file(
        alloc: Global,
        mut writer: W,
        metadata: FileMetadata,
        options: WriteOptions,
    ) -> Result<Self>
        ensures { Resumes W.failures writer metadata options.compression result }
    {
        let end = end_of_messages(&metadata)?;
        let mut scratch = Vec::new(alloc);
        let dictionaries = read_file_dictionaries(alloc, &mut writer, &metadata, &mut scratch)?;
        let file = progress_of_file(alloc, &metadata, dictionaries, end)?;
        stand_behind(&mut writer, end, file.place - end)?;
        Ok(FileWriter {
            writer,
            schema: metadata.schema,
            ids: metadata.ipc_schema.fields,
            options,
            state: State::Started(file),
            encoded: EncodedData::new(alloc),
        })
    }
}
