//! What calls answer, in short.
use ipc_format::Chunk;
use ipc_format::columnar_memory::Error;
use ipc_format::nested_arrays_core::AnyArray;

#[derive(Clone, Copy, Debug, PartialEq, Eq)]
pub(crate) enum Short {
    Done,
    /// A batch of the expected columns.
    Expected,
    Nothing,
    OutOfSpec,
    InvalidArgument,
    NotYetImplemented,
    Io,
    Other,
}

fn short_of_error(error: &Error) -> Short {
    match error {
        Error::OutOfSpec(_) => Short::OutOfSpec,
        Error::InvalidArgumentError(_) => Short::InvalidArgument,
        Error::NotYetImplemented(_) => Short::NotYetImplemented,
        Error::Io(_) => Short::Io,
        _ => Short::Other,
    }
}

/// What a call answers.
pub(crate) fn told<T: Drop>(answer: Result<T, Error>) -> Short {
    match answer {
        Ok(_) => Short::Done,
        Err(error) => short_of_error(&error),
    }
}

/// Whether a batch is of some columns.
fn beside(chunk: &Chunk<AnyArray>, wanted: &[AnyArray]) -> Short {
    if chunk.arrays() == wanted {
        Short::Expected
    } else {
        Short::Done
    }
}

/// What a reader answered, beside the columns of a batch that it may have given.
pub(crate) fn told_beside(
    answer: Option<Result<Chunk<AnyArray>, Error>>,
    wanted: &[AnyArray],
) -> Short {
    match answer {
        None => Short::Nothing,
        Some(Ok(chunk)) => beside(&chunk, wanted),
        Some(Err(error)) => short_of_error(&error),
    }
}
