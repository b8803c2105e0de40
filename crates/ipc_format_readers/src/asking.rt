//! Columns that a reader is asked for, in any order (Arrow IPC, "RecordBatch message").
ghost use Rattle.std.specs.Prelude.{◌≡◌, IfOk, length};
ghost use Rattle.std.specs.Option.{option_copied};
ghost use Rattle.ipc_format_readers.specs.Asking.{HasKept, IsAsked, IsAskedOf, as_asked, given_columns, rising_of};

use ipc_format_chunk_writing::columnar_memory::{Items, Schema};
use ipc_format_chunk_writing::nested_arrays_core::AnyArray;
use ipc_format_chunk_writing::{Chunk, apply_projection, prepare_projection};
use std::alloc::{AllocError, Global};
use std::collections::BTreeMap;

/// Some columns that are asked for, as a reader keeps them.
#[derive(Drop)]
pub struct Asked {
    /// The columns in the order in which they stand.
    pub rising: Vec<usize>,
    /// For each place among these the place at which its column was asked for.
    pub places: BTreeMap<usize, usize>,
}

/// Keeps what is asked for of a schema in its one form, all columns or some, each at most once; and the schema of these columns in the asked order.
///
/// # Errors
/// There was no memory.
pub fn ask(
    alloc: Global,
    schema: &Schema,
    projection: Option<Vec<usize>>,
) -> Result<(Option<Asked>, Schema), AllocError>
    requires { IsAsked (length schema.now.fields) (given_columns projection) }
    ensures { IfOk result (IsAskedOf schema.now (given_columns projection)) }
{
    let Some(columns) = projection else {
        return Ok((None, schema.clone()?));
    };
    let (rising, places, fields) = prepare_projection(alloc, schema.fields.as_slice(), columns)?;
    let asked = Schema {
        fields: Items::from_vec(fields),
        metadata: schema.metadata.clone()?,
    };
    Ok((Some(Asked { rising, places }), asked))
}

/// The columns in the order in which they stand, or none where all are asked for.
pub fn rising(asked: &Option<Asked>) -> Option<&[usize]>
    ensures { option_copied result ≡ rising_of asked.now }
{
    match asked {
        Some(asked) => Some(asked.rising.as_slice()),
        None => None,
    }
}

/// Puts the columns of a chunk where they were asked for. No cell is copied.
///
/// # Errors
/// There was no memory.
pub fn put_asked(
    alloc: Global,
    chunk: Chunk<AnyArray>,
    asked: &Option<Asked>,
) -> Result<Chunk<AnyArray>, AllocError>
    requires { HasKept asked.now chunk }
    ensures { IfOk result (λ ordered. ordered ≡ as_asked asked.now chunk) }
{
    match asked {
        Some(asked) => apply_projection(alloc, chunk, &asked.places),
        None => Ok(chunk),
    }
}
