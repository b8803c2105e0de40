//! Work on files in memory.
use crate::columns::column::Batches;
use crate::columns::data::Table;
use benches_timing::Work;
use columnar_memory_types::{Error, Result};
use ipc_format::nested_arrays_core::AnyArray;
use ipc_format::{
    Chunk, FileReader, FileWriter, InMemory, Room, WriteOptions, append_file, is_choice, read_file,
    read_file_metadata,
};
use std::alloc::Global;

/// The column that is chosen of a hundred.
const CHOSEN: usize = 50;

/// More batches than any file here has.
const MOST_BATCHES: usize = 1_000_000;

/// The bytes of a file.
#[derive(Drop)]
pub(crate) struct File {
    alloc: Global,
    bytes: Vec<u8>,
}

impl File {
    /// A checksum of its columns, or 0 where they cannot be read.
    fn checksum(&self) -> u64 {
        match read_file(self.alloc, &self.bytes) {
            Ok(found) => {
                let (alloc, chunks) = (self.alloc, found.chunks);
                Batches { alloc, chunks }.checksum()
            }
            Err(_) => 0,
        }
    }
}

/// `FileWriter` of a table.
#[derive(Drop)]
pub(crate) struct WriteFile {
    alloc: Global,
    table: Table,
}

impl WriteFile {
    pub(crate) fn of(alloc: Global, numbers: usize) -> Result<WriteFile> {
        let table = Table::of(alloc, numbers)?;
        Ok(WriteFile { alloc, table })
    }
}

impl Work for WriteFile {
    type Made = File;

    fn make(&self) -> Result<File> {
        let alloc = self.alloc;
        let options = WriteOptions::new();
        let schema = self.table.schema.clone()?;
        let mut writer = FileWriter::try_new(alloc, Vec::new(alloc), schema, None, options)?;
        for chunk in &self.table.chunks {
            writer.write(alloc, chunk, None)?;
        }
        writer.finish(alloc)?;
        let bytes = writer.into_inner();
        Ok(File { alloc, bytes })
    }

    fn checksum(made: &File) -> u64 {
        made.checksum()
    }
}

/// `append_file` of a batch of one row to a copy of a file.
#[derive(Drop)]
pub(crate) struct AppendFile {
    file: File,
    more: Vec<Chunk<AnyArray>>,
}

impl AppendFile {
    pub(crate) fn of(alloc: Global, numbers: usize) -> Result<AppendFile> {
        let file = WriteFile::of(alloc, numbers)?.make()?;
        let more = Table::small_batch(alloc)?;
        Ok(AppendFile { file, more })
    }
}

impl Work for AppendFile {
    type Made = File;

    fn make(&self) -> Result<File> {
        let alloc = self.file.alloc;
        let copied = Vec::from_slice(alloc, &self.file.bytes)?;
        let bytes = append_file(alloc, copied, &self.more)?;
        Ok(File { alloc, bytes })
    }

    fn checksum(made: &File) -> u64 {
        made.checksum()
    }
}

/// A reader of some columns of a file, from its footer on.
fn reader_of_columns<R: Room + Drop>(
    alloc: Global,
    mut room: R,
    columns: &[usize],
) -> Result<FileReader<R>> {
    let metadata = read_file_metadata(alloc, &mut room)?;
    let asked = Vec::from_slice(alloc, columns)?;
    if !is_choice(asked.as_slice(), metadata.schema.fields.len()) {
        return Err(Error::InvalidArgumentError("no such column"));
    }
    FileReader::new(alloc, room, metadata, Some(asked), None)
}

/// Reads a batch behind others, or answers that there is none.
fn push_next<R: Room + Drop>(
    reader: &mut FileReader<R>,
    chunks: &mut Vec<Chunk<AnyArray>>,
) -> Result<bool> {
    match reader.next() {
        Some(Ok(chunk)) => {
            chunks.push(chunk)?;
            Ok(true)
        }
        Some(Err(error)) => Err(error),
        None => Ok(false),
    }
}

/// The batches of some columns of a file.
fn batches_of<R: Room + Drop>(alloc: Global, room: R, columns: &[usize]) -> Result<Batches> {
    let mut reader = reader_of_columns(alloc, room, columns)?;
    let mut chunks = Vec::new(alloc);
    for _ in 0..MOST_BATCHES {
        if !push_next(&mut reader, &mut chunks)? {
            break;
        }
    }
    Ok(Batches { alloc, chunks })
}

/// `FileReader` of one column of a hundred, from the footer on.
#[derive(Drop)]
pub(crate) struct ReadChoice {
    file: File,
}

impl ReadChoice {
    pub(crate) fn of(alloc: Global, numbers: usize) -> Result<ReadChoice> {
        let file = WriteFile::of(alloc, numbers)?.make()?;
        Ok(ReadChoice { file })
    }
}

impl Work for ReadChoice {
    type Made = Batches;

    fn make(&self) -> Result<Batches> {
        let room = InMemory {
            bytes: &self.file.bytes,
        };
        batches_of(self.file.alloc, room, &[CHOSEN])
    }

    fn checksum(made: &Batches) -> u64 {
        made.checksum()
    }
}
