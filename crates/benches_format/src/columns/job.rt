use crate::columns::column::{ReadColumn, WriteColumn};
use crate::columns::data::{key_texts, keys, lists, slots, structs, texts};
use crate::columns::files::{AppendFile, ReadChoice, WriteFile};
use crate::columns::streams::{ReadStream, WriteStream};
use benches_timing::{Job, Named, Timed, time_rounds};
use columnar_memory_types::Result;
use ipc_format::nested_arrays_core::AnyArray;
use std::alloc::Global;
use std::rt::Clock;

/// What a column holds.
#[derive(Clone, Copy)]
pub(crate) enum Kind {
    /// Numbers, about one in eight of them null.
    Numbers,

    /// Short texts.
    Texts,

    /// Lists of up to three numbers, about one in eight of them null.
    Lists,

    /// Keys of a thousand texts.
    Keys,

    /// Structs of ten numbers.
    Structs,
}

/// A job that is timed.
#[derive(Clone, Copy)]
pub(crate) enum ColumnsJob {
    /// `read` of a column.
    Read(Kind),

    /// `write` of a column.
    Write(Kind),

    /// `FileReader` of one column of a table.
    ReadChoice,

    /// `FileWriter` of a table.
    WriteFile,

    /// `append_file` of a small batch to a copy of a file.
    AppendFile,

    /// `StreamWriter` of a table.
    WriteStream,

    /// `StreamReader` of a table.
    ReadStream,
}

pub(crate) const JOBS: [ColumnsJob; 15] = [
    ColumnsJob::Read(Kind::Numbers),
    ColumnsJob::Read(Kind::Texts),
    ColumnsJob::Read(Kind::Lists),
    ColumnsJob::Read(Kind::Keys),
    ColumnsJob::Read(Kind::Structs),
    ColumnsJob::Write(Kind::Numbers),
    ColumnsJob::Write(Kind::Texts),
    ColumnsJob::Write(Kind::Lists),
    ColumnsJob::Write(Kind::Keys),
    ColumnsJob::Write(Kind::Structs),
    ColumnsJob::ReadChoice,
    ColumnsJob::WriteFile,
    ColumnsJob::AppendFile,
    ColumnsJob::WriteStream,
    ColumnsJob::ReadStream,
];

impl Named for ColumnsJob {
    fn name(&self) -> &'static str {
        match self {
            ColumnsJob::Read(Kind::Numbers) => "read_numbers",
            ColumnsJob::Read(Kind::Texts) => "read_texts",
            ColumnsJob::Read(Kind::Lists) => "read_lists",
            ColumnsJob::Read(Kind::Keys) => "read_keys",
            ColumnsJob::Read(Kind::Structs) => "read_structs",
            ColumnsJob::Write(Kind::Numbers) => "write_numbers",
            ColumnsJob::Write(Kind::Texts) => "write_texts",
            ColumnsJob::Write(Kind::Lists) => "write_lists",
            ColumnsJob::Write(Kind::Keys) => "write_keys",
            ColumnsJob::Write(Kind::Structs) => "write_structs",
            ColumnsJob::ReadChoice => "read_choice",
            ColumnsJob::WriteFile => "write_file",
            ColumnsJob::AppendFile => "append_file",
            ColumnsJob::WriteStream => "write_stream",
            ColumnsJob::ReadStream => "read_stream",
        }
    }
}

/// A column of so many slots.
fn column(alloc: Global, kind: Kind, size: usize) -> Result<AnyArray> {
    match kind {
        Kind::Numbers => slots(alloc, size),
        Kind::Texts => texts(alloc, size),
        Kind::Lists => lists(alloc, size),
        Kind::Keys => keys(alloc, size),
        Kind::Structs => structs(alloc, size),
    }
}

/// The texts that a column's keys mean, where it has keys.
fn texts_beside(alloc: Global, kind: Kind) -> Result<Option<AnyArray>> {
    match kind {
        Kind::Keys => Ok(Some(key_texts(alloc)?)),
        _ => Ok(None),
    }
}

impl Job for ColumnsJob {
    const ROUNDS: u32 = 7;

    const SMALL: usize = 10_000;

    fn time<R: Clock + AllocGlobal>(self, rt: &R, size: usize, rounds: u32) -> Result<Timed> {
        let alloc = rt.alloc();
        match self {
            ColumnsJob::Read(kind) => {
                let beside = texts_beside(alloc, kind)?;
                let array = column(alloc, kind, size)?;
                time_rounds(rt, rounds, &ReadColumn::of(alloc, array, beside)?)
            }
            ColumnsJob::Write(kind) => {
                let array = column(alloc, kind, size)?;
                time_rounds(rt, rounds, &WriteColumn::of(alloc, array))
            }
            ColumnsJob::ReadChoice => time_rounds(rt, rounds, &ReadChoice::of(alloc, size)?),
            ColumnsJob::WriteFile => time_rounds(rt, rounds, &WriteFile::of(alloc, size)?),
            ColumnsJob::AppendFile => time_rounds(rt, rounds, &AppendFile::of(alloc, size)?),
            ColumnsJob::WriteStream => time_rounds(rt, rounds, &WriteStream::of(alloc, size)?),
            ColumnsJob::ReadStream => time_rounds(rt, rounds, &ReadStream::of(alloc, size)?),
        }
    }
}
