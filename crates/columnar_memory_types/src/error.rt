ghost use Rattle.std.specs.Prelude.{◌≡◌, []};
ghost use Rattle.std.specs.String.{string_bytes};
ghost use Rattle.columnar_memory_types.specs.Error.{IsExternalOf, IsIo, IsOutOfMemory, IsOutOfSpec};

use std::alloc::{AllocError, AllocFailed, Global};
use std::io;
use std::str::Utf8Error;
use std::string::FromUtf8Error;

/// What went wrong in a call of these crates.
#[derive(Debug, Drop, thiserror::Error)]
pub enum Error {
    /// The format allows it, and these crates do not do it.
    #[error("Not implemented: {0}")]
    NotYetImplemented(&'static str),

    /// An argument that breaks a rule of the call.
    #[error("Invalid argument error: {0}")]
    InvalidArgumentError(&'static str),

    /// Bytes of another format than Arrow that are not what that format allows.
    #[error("External format error: {0}")]
    ExternalFormat(&'static str),

    /// Bytes or parts that the Arrow format does not allow.
    #[error("Out of specification: {0}")]
    OutOfSpec(&'static str),

    /// An error of other code: where it came from, and what it says.
    #[error("External error{0}: {1}")]
    External(&'static str, String),

    /// An error of reading or writing. One that says that memory ran out is of this kind too.
    #[error("Io error: {0}")]
    Io(io::Error),

    /// A number passes the type that has to hold it.
    #[error("Operation overflew the backing container.")]
    Overflow,

    /// The allocator had no memory.
    #[error("Out of memory")]
    OutOfMemory,
}

/// The result of a call that can fail with an [`Error`].
pub type Result<T> = std::result::Result<T, Error>;

impl Error {
    /// An error of other code, by its text.
    pub fn from_external_error(text: String) -> Self
        ensures { IsExternalOf [] (string_bytes text) result }
    {
        Error::External("", text)
    }
}

impl From<AllocError> for Error {
    ghost from_gives = { λ _ e. IsOutOfMemory e };

    fn from(_error: AllocError) -> Self {
        Error::OutOfMemory
    }
}

impl<T: Drop> From<AllocFailed<T>> for Error {
    ghost from_gives = { λ _ e. IsOutOfMemory e };

    fn from(_error: AllocFailed<T>) -> Self {
        Error::OutOfMemory
    }
}

impl From<io::Error> for Error {
    ghost from_gives = { λ _ e. IsIo e };

    fn from(error: io::Error) -> Self
        ensures kind { IsIo result }
        ensures same { result ≡ Error.Io error }
    {
        Error::Io(error)
    }
}

impl From<Utf8Error> for Error {
    ghost from_gives = { λ _ e. IsOutOfSpec e };

    fn from(_error: Utf8Error) -> Self {
        Error::OutOfSpec("text that is not UTF-8")
    }
}

impl From<FromUtf8Error<Global>> for Error {
    ghost from_gives = { λ _ e. IsOutOfSpec e };

    fn from(_error: FromUtf8Error<Global>) -> Self {
        Error::OutOfSpec("text that is not UTF-8")
    }
}
