//! Batches of a table: whether one fits a schema, and how many rows some have.
ghost use Rattle.std.specs.Prelude.{◌≡◌, ◌^◌, ◌<◌, ◌≤◌, ◌&&◌, ◌==◌, ◌↔◌, ◌++◌, IsTrue, IfOk, MatchResult, OnOk, SomeIff, length, true};
ghost use Rattle.std.specs.List.{list_all};
ghost use Rattle.columnar_memory_types.specs.Error.{IsOutOfMemory};
ghost use Rattle.tables_chunks.specs.Batches.{batch_len, is_batch, stored_rows};
ghost use Rattle.tables_chunks.specs.StoredTables.{IsTable, is_of_fields};
ghost use Rattle.tables_chunks.specs.TableSchemas.{IsTableSchema};

use columnar_memory_types::{Field, Result as Answer, Schema};
use ipc_format::nested_arrays_core::AnyArray;
use ipc_format::{Chunk, can_write, normalised};
use std::alloc::{AllocError, Global};

/// Whether a schema may be that of a table: whether it may be written, and is in its one form, where the keys of each field's extension are those of
/// its type (Arrow columnar format, "Extension Types").
///
/// # Errors
/// - `OutOfMemory`: there was no memory for the one form.
pub fn is_table_schema(alloc: Global, schema: &Schema) -> Answer<bool>
    ensures { MatchResult result (λ answer. IsTrue answer ↔ IsTableSchema schema.now) IsOutOfMemory }
{
    if !can_write(schema) {
        return Ok(false);
    }
    let normal = normalised(alloc, schema)?;
    Ok(normal == *schema)
}

/// Whether a batch has a column a field of a schema, each of its field's type. No memory is taken.
pub fn fits_schema(schema: &Schema, batch: &Chunk<AnyArray>) -> bool
    ensures { IsTrue result ↔ (is_of_fields schema.now.fields batch.now ≡ true) }
{
    let fields = schema.fields.as_slice();
    let arrays = batch.arrays();
    if fields.len() != arrays.len() {
        return false;
    }
    have_their_types(fields, arrays)
}

/// Whether each array has the type of the field at its place.
fn have_their_types(fields: &[Field], arrays: &[AnyArray]) -> bool
    requires { length fields.now ≡ length arrays.now }
    ensures { IsTrue result ↔ (is_of_fields fields.now arrays.now ≡ true) }
{
    for (k, field) in fields.iter().enumerate() {
        if field.data_type() != arrays[k].data_type() {
            return false;
        }
    }
    true
}

/// How many rows a batch has.
#[tactic(auto, using(crate::proofs::BatchLists::rows_are_len))]
pub(crate) fn len_of(batch: &Chunk<AnyArray>) -> usize
    ensures { result ≡ batch_len batch.now }
{
    batch.len()
}

/// The chunk of arrays that are sound and of one length.
#[tactic(auto, using(crate::proofs::BatchLists::as_long))]
pub(crate) fn chunk_of(arrays: Vec<AnyArray>) -> Chunk<AnyArray>
    requires { is_batch arrays.items ≡ true }
    ensures { result ≡ arrays.items }
{
    Chunk::new(arrays)
}

/// Hands to a proof that the arrays of a chunk are sound and of one length.
pub(crate) fn is_whole(batch: &Chunk<AnyArray>)
    ensures { is_batch batch.now ≡ true }
{
    batch.whole();
    for array in batch.arrays() {
        array.whole();
    }
}

/// Hands to a proof that batches of a schema's fields are those of a table.
pub(crate) fn are_batches(schema: &Schema, batches: &[Chunk<AnyArray>])
    requires form { IsTableSchema schema.now }
    requires fields { list_all (is_of_fields schema.now.fields) batches.now ≡ true }
    ensures { IsTable schema.now batches.now }
{
    for batch in batches {
        is_whole(batch);
    }
}

/// How many rows batches have together, where they fit 64 bits.
pub(crate) fn rows_of(batches: &[Chunk<AnyArray>]) -> Option<usize>
    ensures { SomeIff result (length (stored_rows batches.now) < 2 ^ 64) (length (stored_rows batches.now)) }
{
    let mut rows: usize = 0;
    for batch in batches {
        let Some(sum) = rows.checked_add(len_of(batch)) else {
            return None;
        };
        rows = sum;
    }
    Some(rows)
}

/// Puts clones of batches behind others. An error is for want of memory.
pub(crate) fn add_clones(
    batches: &mut Vec<Chunk<AnyArray>>,
    others: &[Chunk<AnyArray>],
) -> Result<(), AllocError>
    ensures { OnOk result (batches.new.items ≡ batches.old.items ++ others.now) }
{
    for batch in others {
        batches.push(batch.clone()?)?;
    }
    Ok(())
}
