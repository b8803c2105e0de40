//! What can go wrong with a table, and the text that says so.
ghost use Rattle.std.specs.Prelude.{◌≡◌};
ghost use Rattle.tables_chunks.specs.Texts.{text_of, ipc_text_of, lower_text_of, bar_text_of};
ghost use Rattle.tables_chunks.specs.Faults.{fault_of};
ghost use Rattle.tables_chunks.specs.declared.fault.Fault.TheVariants.{Memory};

use columnar_memory_types::Error;
use std::alloc::{AllocError, AllocFailed};
use std::fmt;

/// Why a schema may not be sealed: the first of these that holds anywhere in it.
#[derive(Clone, Copy, Debug, PartialEq, Eq)]
pub enum SealBar {
    Map,
    Union,
    OrderedDictionary,
    EmptyStruct,
    NotWritable,
}

/// Why a call on tables was refused.
#[derive(Debug, Drop)]
pub enum Fault {
    /// There was no memory.
    Memory,
    /// The bytes of a stream or a file were refused, or could not be written.
    Ipc(Error),
    /// A cell, or a batch of rows, doesn't fit its column.
    Lower(Error),
    /// A stream ends where its next message or its end mark would begin.
    Unfinished,
    /// The schema may not be sealed.
    NotSealable(SealBar),
    /// A row has another number of cells than the table has columns.
    RowWidth,
    /// A table without columns takes no row.
    NoColumns,
    /// The number of rows doesn't fit 64 bits.
    TooManyRows,
    /// A chosen column isn't below the number of columns.
    NoSuchColumn,
}

impl Fault {
    /// One line for people, with no end of line.
    pub fn text(&self) -> &'static str
        ensures { result.now ≡ text_of self.now }
    {
        match self {
            Fault::Memory => "out of memory",
            Fault::Ipc(error) => ipc_text(error),
            Fault::Lower(error) => lower_text(error),
            Fault::Unfinished => "unfinished stream",
            Fault::NotSealable(bar) => bar_text(bar),
            Fault::RowWidth => "row of another width",
            Fault::NoColumns => "no columns",
            Fault::TooManyRows => "too many rows",
            Fault::NoSuchColumn => "no such column",
        }
    }
}

/// Prints a fault's text.
impl fmt::Display for Fault {
    ghost use Rattle.std.specs.Prelude.{Some};
    ghost use Rattle.tables_chunks.specs.Texts.{text_of};

    ghost output = { λ fault. Some (text_of fault) };

    fn fmt<W: fmt::Write>(&self, f: &mut fmt::Formatter<W>) -> fmt::Result {
        f.write_str(self.text())
    }
}

impl std::error::Error for Fault {}

fn ipc_text(error: &Error) -> &'static str
    ensures { result.now ≡ ipc_text_of error.now }
{
    match error {
        Error::NotYetImplemented(_) => "ipc: not implemented",
        Error::External(_, _) => "ipc: external",
        Error::Io(_) => "ipc: input or output failed",
        Error::InvalidArgumentError(_) => "ipc: invalid argument",
        Error::ExternalFormat(_) => "ipc: external format",
        Error::Overflow => "ipc: overflow",
        Error::OutOfSpec(_) => "ipc: out of specification",
        Error::OutOfMemory => "out of memory",
    }
}

fn lower_text(error: &Error) -> &'static str
    ensures { result.now ≡ lower_text_of error.now }
{
    match error {
        Error::NotYetImplemented(_) => "lower: not implemented",
        Error::External(_, _) => "lower: external",
        Error::Io(_) => "lower: input or output failed",
        Error::InvalidArgumentError(_) => "lower: invalid argument",
        Error::ExternalFormat(_) => "lower: external format",
        Error::Overflow => "lower: overflow",
        Error::OutOfSpec(_) => "lower: out of specification",
        Error::OutOfMemory => "out of memory",
    }
}

fn bar_text(bar: &SealBar) -> &'static str
    ensures { result.now ≡ bar_text_of bar.now }
{
    match bar {
        SealBar::Map => "not sealable: map",
        SealBar::Union => "not sealable: union",
        SealBar::OrderedDictionary => "not sealable: ordered dictionary",
        SealBar::EmptyStruct => "not sealable: struct without fields",
        SealBar::NotWritable => "not sealable: not writable",
    }
}

impl From<AllocError> for Fault {
    ghost from_gives = { λ _ fault. fault ≡ Memory };

    fn from(_error: AllocError) -> Self {
        Fault::Memory
    }
}

impl<T: Drop> From<AllocFailed<T>> for Fault {
    ghost from_gives = { λ _ fault. fault ≡ Memory };

    fn from(_error: AllocFailed<T>) -> Self {
        Fault::Memory
    }
}

/// What a lower crate refused in a stream; its want of memory is ours.
impl From<Error> for Fault {
    ghost from_gives = { λ error fault. fault ≡ fault_of error };

    fn from(error: Error) -> Self {
        match error {
            Error::OutOfMemory => Fault::Memory,
            other => Fault::Ipc(other),
        }
    }
}
