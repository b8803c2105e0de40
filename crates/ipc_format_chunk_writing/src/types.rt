//! The types of columns beside those of fields: whether two have one form.
ghost use Rattle.std.specs.Prelude.{◌≡◌, ◌∷◌, [], MatchResult};
ghost use Rattle.columnar_memory_types.specs.Error.{IsOutOfMemory};
ghost use Rattle.ipc_format_batch_reading.specs.grammar.Writable.{normalised_field};
ghost use Rattle.ipc_format_chunk_writing.specs.Types.{field_of, have_one_form};

use columnar_memory_types::{DataType, Field, Items, Result, Schema, Text};
use ipc_format_batch_reading::normalised;
use std::alloc::Global;

/// A field of a type, of which no more is said.
fn field_of(alloc: Global, data_type: &DataType) -> Result<Field>
    ensures { MatchResult result (λ field. field ≡ field_of data_type.now) IsOutOfMemory }
{
    let name = Text::from_str(alloc, "")?;
    let copy = data_type.clone()?;
    Ok(Field::new(alloc, name, copy, true))
}

/// The one form of a field of a type, as a schema's only field.
#[tactic(auto, unfolding(crate::proofs::Passed::normalised))]
fn normal_form(alloc: Global, data_type: &DataType) -> Result<Schema>
    ensures { MatchResult result (λ schema. schema.fields ≡ normalised_field (field_of data_type.now) ∷ []) IsOutOfMemory }
{
    let mut fields = Items::new(alloc);
    fields.push(field_of(alloc, data_type)?)?;
    let schema = Schema::from_fields(fields);
    normalised(alloc, &schema)
}

/// Whether two types have one form (Arrow columnar format, "Extension Types"): whether they are the same once the keys of each field's extension
/// are those of its type. Memory is taken only where the types differ.
///
/// # Errors
/// - `OutOfMemory`: there was no memory for the types in their one form.
pub fn have_one_form(alloc: Global, a: &DataType, b: &DataType) -> Result<bool>
    ensures { MatchResult result (λ answer. answer ≡ have_one_form a.now b.now) IsOutOfMemory }
{
    if *a == *b {
        return Ok(true);
    }
    let first = normal_form(alloc, a)?;
    let second = normal_form(alloc, b)?;
    match (first.fields.get(0), second.fields.get(0)) {
        (Some(a), Some(b)) => Ok(a.data_type == b.data_type),
        _ => unreachable!(),
    }
}
