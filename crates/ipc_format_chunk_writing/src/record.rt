//! Batches that are to be written, with the ids of dictionaries beside their columns (Arrow IPC, "RecordBatch message", "Dictionary Messages").
ghost use Rattle.std.specs.Prelude.{◌≡◌, None, option_copied, option_map};
ghost use Rattle.ipc_format_chunk_writing.specs.Helds.{columns_held, fields_held};
ghost use Rattle.ipc_format_chunk_writing.specs.Records.{given_batch, same_given_batch, same_given_batch-per, same_given_batch-equivalence};

use crate::held::Held;
use ipc_format_batch_reading::nested_arrays_core::AnyArray;
use ipc_format_batch_reading::{Chunk, IpcField};
use std::alloc::AllocError;
use std::fmt::{self, Debug, Formatter};
use std::marker::Model;

/// The columns of a batch, and the ids beside them, if these are not the writer's own, each owned or borrowed. A contract sees the columns and
/// the ids.
#[derive(Drop)]
pub struct Record<'a> {
    columns: Held<Chunk<AnyArray>, &'a Chunk<AnyArray>>,
    fields: Option<Held<Vec<IpcField>, &'a [IpcField]>>,
}

impl<'a> Model for Record<'a> {
    ghost use Rattle.std.specs.Prelude.{option_map};
    ghost use Rattle.ipc_format_chunk_writing.specs.Helds.{columns_held, fields_held};
    ghost use Rattle.ipc_format_chunk_writing.specs.Records.{GivenBatch, given_batch, given_batch_code};

    ghost Value = { GivenBatch };

    ghost coded = { given_batch_code };

    ghost view = { λ it. given_batch (columns_held it.columns) (option_map fields_held it.fields) };
}

impl Record<'_> {
    /// The ids beside the columns, if they are given.
    pub fn fields(&self) -> Option<&[IpcField]>
        ensures { option_copied result ≡ self.now.fields }
    {
        match &self.fields {
            Some(Held::Owned(fields)) => Some(fields.as_slice()),
            Some(Held::Borrowed(fields)) => Some(fields),
            None => None,
        }
    }

    /// The columns.
    pub fn columns(&self) -> &Chunk<AnyArray>
        ensures { result.now ≡ self.now.columns }
    {
        match &self.columns {
            Held::Owned(columns) => columns,
            Held::Borrowed(columns) => columns,
        }
    }
}

impl From<Chunk<AnyArray>> for Record<'static> {
    ghost from_gives = { λ columns it. it ≡ given_batch columns None };

    fn from(columns: Chunk<AnyArray>) -> Self {
        Record {
            columns: Held::Owned(columns),
            fields: None,
        }
    }
}

impl<'a> From<(Chunk<AnyArray>, Option<Vec<IpcField>>)> for Record<'a> {
    ghost from_gives = { λ parts it. it ≡ given_batch parts.0 (option_map (λ fields. fields.items) parts.1) };

    fn from(parts: (Chunk<AnyArray>, Option<Vec<IpcField>>)) -> Self {
        let (columns, fields) = parts;
        let fields = match fields {
            Some(fields) => Some(Held::Owned(fields)),
            None => None,
        };
        Record {
            columns: Held::Owned(columns),
            fields,
        }
    }
}

impl<'a> From<(&'a Chunk<AnyArray>, Option<&'a [IpcField]>)> for Record<'a> {
    ghost from_gives = { λ parts it. it ≡ given_batch parts.0.now (option_copied parts.1) };

    fn from(parts: (&'a Chunk<AnyArray>, Option<&'a [IpcField]>)) -> Self {
        let (columns, fields) = parts;
        let fields = match fields {
            Some(fields) => Some(Held::Borrowed(fields)),
            None => None,
        };
        Record {
            columns: Held::Borrowed(columns),
            fields,
        }
    }
}

impl Clone for Record<'_> {
    ghost is_clone = { λ a b. b ≡ a };

    /// What is borrowed stays borrowed. An error is for want of memory.
    fn clone(&self) -> Result<Self, AllocError> {
        let columns = match &self.columns {
            Held::Owned(columns) => Held::Owned(columns.clone()?),
            Held::Borrowed(columns) => Held::Borrowed(*columns),
        };
        let fields = match &self.fields {
            Some(Held::Owned(fields)) => Some(Held::Owned(fields.clone()?)),
            Some(Held::Borrowed(fields)) => Some(Held::Borrowed(*fields)),
            None => None,
        };
        Ok(Record { columns, fields })
    }
}

impl PartialEq for Record<'_> {
    ghost eq = { same_given_batch };

    ghost laws = { same_given_batch-per };

    /// Whether the columns are equal, and the ids: what is owned may equal what is borrowed.
    fn eq(&self, other: &Self) -> bool {
        self.columns() == other.columns() && self.fields() == other.fields()
    }
}

impl Eq for Record<'_> {
    ghost laws = { same_given_batch-equivalence };
}

/// How many columns and rows there are, and the ids beside the columns.
impl Debug for Record<'_> {
    fn fmt<W: fmt::Write>(&self, f: &mut Formatter<W>) -> fmt::Result {
        let (columns, rows) = (self.columns().arrays().len(), self.columns().len());
        write!(
            f,
            "Record {{ columns: {columns} of {rows} rows, fields: {:?} }}",
            self.fields()
        )
    }
}
