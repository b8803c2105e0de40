//! Work on streams in memory.
use crate::columns::column::Batches;
use crate::columns::data::Table;
use benches_timing::Work;
use columnar_memory_types::Result;
use ipc_format::nested_arrays_core::AnyArray;
use ipc_format::{
    Chunk, Faults, StreamReader, StreamState, StreamWriter, WriteOptions, read_stream_metadata,
};
use std::alloc::Global;
use std::io::Read;

/// The bytes of a stream.
#[derive(Drop)]
pub(crate) struct Stream {
    alloc: Global,
    bytes: Vec<u8>,
}

/// A reader of what stands behind the schema.
fn reader_of<R: Read + Faults + Drop>(alloc: Global, mut device: R) -> Result<StreamReader<R>> {
    let metadata = read_stream_metadata(alloc, &mut device)?;
    StreamReader::new(alloc, device, metadata, None)
}

/// Reads a batch behind others, or answers that there is none.
fn push_next<R: Read + Faults + Drop>(
    reader: &mut StreamReader<R>,
    chunks: &mut Vec<Chunk<AnyArray>>,
) -> Result<bool> {
    match reader.next() {
        Some(Ok(StreamState::Some(chunk))) => {
            chunks.push(chunk)?;
            Ok(true)
        }
        Some(Err(error)) => Err(error),
        Some(Ok(StreamState::Waiting)) | None => Ok(false),
    }
}

impl Stream {
    /// All batches.
    fn batches(&self) -> Result<Batches> {
        let alloc = self.alloc;
        let mut reader = reader_of(alloc, self.bytes.as_slice())?;
        let mut chunks = Vec::new(alloc);
        // Each batch has more than one byte.
        for _ in 0..self.bytes.len() {
            if !push_next(&mut reader, &mut chunks)? {
                break;
            }
        }
        Ok(Batches { alloc, chunks })
    }
}

/// `StreamWriter` of a table.
#[derive(Drop)]
pub(crate) struct WriteStream {
    alloc: Global,
    table: Table,
}

impl WriteStream {
    pub(crate) fn of(alloc: Global, numbers: usize) -> Result<WriteStream> {
        let table = Table::of(alloc, numbers)?;
        Ok(WriteStream { alloc, table })
    }
}

impl Work for WriteStream {
    type Made = Stream;

    fn make(&self) -> Result<Stream> {
        let alloc = self.alloc;
        let mut writer = StreamWriter::new(alloc, Vec::new(alloc), WriteOptions::new());
        writer.start(alloc, &self.table.schema, None)?;
        for chunk in &self.table.chunks {
            writer.write(alloc, chunk, None)?;
        }
        writer.finish()?;
        let bytes = writer.into_inner();
        Ok(Stream { alloc, bytes })
    }

    /// Of the columns, or 0 where they cannot be read.
    fn checksum(made: &Stream) -> u64 {
        match made.batches() {
            Ok(batches) => batches.checksum(),
            Err(_) => 0,
        }
    }
}

/// `StreamReader` of a stream, whose batches are kept.
#[derive(Drop)]
pub(crate) struct ReadStream {
    stream: Stream,
}

impl ReadStream {
    pub(crate) fn of(alloc: Global, numbers: usize) -> Result<ReadStream> {
        let stream = WriteStream::of(alloc, numbers)?.make()?;
        Ok(ReadStream { stream })
    }
}

impl Work for ReadStream {
    type Made = Batches;

    fn make(&self) -> Result<Batches> {
        self.stream.batches()
    }

    fn checksum(made: &Batches) -> u64 {
        made.checksum()
    }
}
