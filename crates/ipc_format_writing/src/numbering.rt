//! The ids of a schema's dictionaries, counted in pre-order (Schema.fbs, `DictionaryEncoding`).
ghost use Rattle.std.specs.Prelude.{◌≡◌, ◌∷◌, [], IfOk, MatchResult, map};
ghost use Rattle.ipc_format_messages.specs.columnar_memory.Error.{IsOutOfMemory};
ghost use Rattle.ipc_format_messages.specs.grammar.Ids as ids;
ghost use Rattle.ipc_format_messages.specs.metadata.Views.{ids_views};
ghost use Rattle.ipc_format_writing.specs.Numbers.{field_numbering, numbered_view, fields_view};

use ipc_format_messages::columnar_memory::{DataType, Field, Items, Result as Answer};
use ipc_format_messages::metadata::IpcField;
use std::alloc::{AllocError, Global};

/// A field's ids, and the id that comes next.
#[derive(Debug, Drop)]
struct Numbered {
    field: IpcField,
    next: u64,
}

/// The ids of some fields, and the id that comes next.
#[derive(Debug, Drop)]
struct NumberedFields {
    fields: Items<IpcField>,
    next: u64,
}

/// The ids of the dictionaries of some fields, from 0 on in pre-order: an outer dictionary before those in its values.
///
/// # Errors
/// - `OutOfMemory`: there was no memory for the ids.
#[tactic(auto, unfolding(crate::proofs::Passed::default_ids))]
pub fn default_ipc_fields(alloc: Global, fields: &[Field]) -> Answer<Vec<IpcField>>
    ensures { MatchResult result (λ found. ids_views found.items ≡ ids.default_ids fields.now) IsOutOfMemory }
{
    let numbered = number_fields(alloc, fields, 0)?;
    Ok(numbered.fields.into_inner())
}

/// The ids of a type without dictionary, by those of the fields below it.
fn without_own(numbered: NumberedFields) -> Numbered
    ensures { numbered_view result ≡ ids.without_own (fields_view numbered) }
{
    Numbered {
        field: IpcField {
            fields: numbered.fields,
            dictionary_id: None,
        },
        next: numbered.next,
    }
}

/// The ids of a dictionary, by those of its values. An id past 63 bits found no memory for the ids before it.
fn with_own(own: u64, numbered: Numbered) -> Result<Numbered, AllocError>
    ensures { IfOk result (λ found. numbered_view found ≡ ids.with_own own (numbered_view numbered)) }
{
    let Ok(id) = i64::try_from(own) else {
        return Err(AllocError);
    };
    Ok(Numbered {
        field: IpcField {
            fields: numbered.field.fields,
            dictionary_id: Some(id),
        },
        next: numbered.next,
    })
}

/// The ids of a single field, as those of a list of fields.
fn single(alloc: Global, numbered: Numbered) -> Result<NumberedFields, AllocError>
    ensures { IfOk result (λ found. fields_view found ≡ ids.number_each ((λ _. numbered_view numbered) ∷ []) 0) }
{
    let mut fields = Items::new(alloc);
    fields.push(numbered.field)?;
    Ok(NumberedFields {
        fields,
        next: numbered.next,
    })
}

/// The ids of a type's dictionaries from `next` on.
#[cycle(numbers)]
fn number_type(alloc: Global, data_type: &DataType, next: u64) -> Result<Numbered, AllocError>
    ensures { IfOk result (λ found. numbered_view found ≡ ids.numbered data_type.now next) }
{
    match data_type {
        DataType::List(item)
        | DataType::LargeList(item)
        | DataType::FixedSizeList(item, _)
        | DataType::Map(item, _) => {
            let numbered = number_field(alloc, item.get(), next)?;
            Ok(without_own(single(alloc, numbered)?))
        }
        DataType::Struct(fields) | DataType::Union(fields, _, _) => {
            Ok(without_own(number_fields(alloc, fields.as_slice(), next)?))
        }
        DataType::Dictionary(_, value, _) => {
            let Some(after) = next.checked_add(1) else {
                return Err(AllocError);
            };
            with_own(next, number_type(alloc, value.get(), after)?)
        }
        DataType::Extension(_, inner, _) => number_type(alloc, inner.get(), next),
        _ => {
            let fields = Items::new(alloc);
            Ok(without_own(NumberedFields { fields, next }))
        }
    }
}

#[cycle(numbers)]
fn number_field(alloc: Global, field: &Field, next: u64) -> Result<Numbered, AllocError>
    ensures { IfOk result (λ found. numbered_view found ≡ field_numbering field.now next) }
{
    number_type(alloc, &field.data_type, next)
}

#[cycle(numbers)]
fn number_fields(alloc: Global, fields: &[Field], next: u64) -> Result<NumberedFields, AllocError>
    ensures { IfOk result (λ found. fields_view found ≡ ids.number_each (map field_numbering fields.now) next) }
{
    let mut found = NumberedFields {
        fields: Items::new(alloc),
        next,
    };
    for field in fields {
        let numbered = number_field(alloc, field, found.next)?;
        found.fields.push(numbered.field)?;
        found.next = numbered.next;
    }
    Ok(found)
}
