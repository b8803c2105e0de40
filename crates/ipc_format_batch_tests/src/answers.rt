//! What calls answer, in short.
use ipc_format::columnar_memory::Error;
use ipc_format::nested_arrays_core::AnyArray;
use ipc_format::{Faults, StreamReader, StreamState, read_stream_metadata};
use std::alloc::Global;
use std::io::Read;

#[derive(Clone, Copy, Debug, PartialEq, Eq)]
pub(crate) enum Short {
    Done,
    Waiting,
    /// A batch of one column, which is the expected one.
    Expected,
    Nothing,
    OutOfSpec,
    InvalidArgument,
    NotYetImplemented,
    Io,
    Other,
}

fn short_of_error(error: &Error) -> Short {
    match error {
        Error::OutOfSpec(_) => Short::OutOfSpec,
        Error::InvalidArgumentError(_) => Short::InvalidArgument,
        Error::NotYetImplemented(_) => Short::NotYetImplemented,
        Error::Io(_) => Short::Io,
        _ => Short::Other,
    }
}

/// What a call answers.
pub(crate) fn told<T: Drop>(answer: Result<T, Error>) -> Short {
    match answer {
        Ok(_) => Short::Done,
        Err(error) => short_of_error(&error),
    }
}

fn short_of_state(state: StreamState, wanted: &AnyArray) -> Short {
    match state {
        StreamState::Waiting => Short::Waiting,
        StreamState::Some(chunk) => match chunk.arrays() {
            [array] if array == wanted => Short::Expected,
            _ => Short::Other,
        },
    }
}

/// A reader of what stands behind the schema.
pub(crate) fn reader_of<R: Read + Faults + Drop>(
    alloc: Global,
    mut device: R,
) -> Result<StreamReader<R>, Error> {
    let metadata = read_stream_metadata(alloc, &mut device)?;
    StreamReader::new(alloc, device, metadata, None)
}

/// What a reader answers next, beside a column.
pub(crate) fn next_of<R: Read + Faults + Drop>(
    reader: &mut StreamReader<R>,
    wanted: &AnyArray,
) -> Short {
    match reader.next() {
        None => Short::Nothing,
        Some(Ok(state)) => short_of_state(state, wanted),
        Some(Err(error)) => short_of_error(&error),
    }
}

/// What a reader of a whole stream answers to three calls, beside a first and a second column.
pub(crate) fn read_back(
    alloc: Global,
    bytes: &[u8],
    first: &AnyArray,
    second: &AnyArray,
) -> Result<[Short; 3], Error> {
    let mut reader = reader_of(alloc, bytes)?;
    Ok([
        next_of(&mut reader, first),
        next_of(&mut reader, second),
        next_of(&mut reader, second),
    ])
}
