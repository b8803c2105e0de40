//! Whether dictionary ids fit the fields of a schema, and whether a float stands in it.
ghost use Rattle.std.specs.Prelude.{◌≡◌, ◌∷◌, [], map};
ghost use Rattle.std.specs.List.{list_any};
ghost use Rattle.ipc_format_messages.specs.grammar.Ids as format;
ghost use Rattle.ipc_format_messages.specs.grammar.Schemas.{ids};
ghost use Rattle.ipc_format_messages.specs.metadata.Views.{ids_views};
ghost use Rattle.ipc_format_writing.specs.Fitting.{field_fitting};
ghost use Rattle.ipc_format_writing.specs.Floats as floats;

use crate::beside::first_beside;
use ipc_format_messages::columnar_memory::{DataType, Field};
use ipc_format_messages::metadata::IpcField;

/// Whether ids are as many as the fields, at each depth, with an id of its own exactly where a field has a dictionary.
#[tactic(auto, using(crate::proofs::FittingLists::lists_fit))]
pub fn ids_fit(fields: &[Field], ids: &[IpcField]) -> bool
    ensures { result ≡ format.ids_fit_fields fields.now (ids_views ids.now) }
{
    fields_fit(fields, ids)
}

/// Whether ids fit no field at all.
#[tactic(auto, using(crate::proofs::BesideLists::none_left))]
pub fn none_fit(beside: &[IpcField]) -> bool
    ensures { result ≡ format.fit_each [] (ids_views beside.now) }
{
    beside.is_empty()
}

/// Whether an id, or none, and ids below it fit a data type: there is one exactly where it is a dictionary, and those below fit its fields.
#[cycle(fits)]
pub fn type_fits(data_type: &DataType, own: Option<i64>, below: &[IpcField]) -> bool
    ensures { result ≡ format.ids_fit data_type.now (ids own (ids_views below.now)) }
{
    match data_type {
        DataType::List(item)
        | DataType::LargeList(item)
        | DataType::FixedSizeList(item, _)
        | DataType::Map(item, _) => own.is_none() && single_fits(item.get(), below),
        DataType::Struct(fields) | DataType::Union(fields, _, _) => {
            own.is_none() && fields_fit(fields.as_slice(), below)
        }
        DataType::Dictionary(_, value, _) => own.is_some() && type_fits(value.get(), None, below),
        DataType::Extension(_, inner, _) => type_fits(inner.get(), own, below),
        _ => own.is_none() && none_fit(below),
    }
}

#[cycle(fits)]
fn field_fits(field: &Field, own: Option<i64>, below: &[IpcField]) -> bool
    ensures { result ≡ field_fitting field.now (ids own (ids_views below.now)) }
{
    type_fits(&field.data_type, own, below)
}

/// Whether ids fit a single field.
#[cycle(fits)]
fn single_fits(field: &Field, beside: &[IpcField]) -> bool
    ensures { result ≡ format.fit_each (field_fitting field.now ∷ []) (ids_views beside.now) }
{
    if beside.is_empty() {
        return false;
    }
    let here = first_beside(beside);
    field_fits(field, here.own, here.below) && none_fit(here.others)
}

#[cycle(fits)]
fn fields_fit(fields: &[Field], beside: &[IpcField]) -> bool
    ensures { result ≡ format.fit_each (map field_fitting fields.now) (ids_views beside.now) }
{
    let mut rest = beside;
    for field in fields {
        if rest.is_empty() {
            return false;
        }
        let here = first_beside(rest);
        if !field_fits(field, here.own, here.below) {
            return false;
        }
        rest = here.others;
    }
    none_fit(rest)
}

/// Whether a float stands in a schema of some fields.
pub fn has_float(fields: &[Field]) -> bool
    ensures { result ≡ list_any (λ here. here) (map floats.in_field fields.now) }
{
    floats_in_fields(fields)
}

#[cycle(floats)]
fn floats_in_type(data_type: &DataType) -> bool
    ensures { result ≡ floats.in_type data_type.now }
{
    match data_type {
        DataType::Float16 | DataType::Float32 | DataType::Float64 => true,
        DataType::List(item)
        | DataType::LargeList(item)
        | DataType::FixedSizeList(item, _)
        | DataType::Map(item, _) => floats_in_field(item.get()),
        DataType::Struct(fields) | DataType::Union(fields, _, _) => {
            floats_in_fields(fields.as_slice())
        }
        DataType::Dictionary(_, value, _) => floats_in_type(value.get()),
        DataType::Extension(_, inner, _) => floats_in_type(inner.get()),
        _ => false,
    }
}

#[cycle(floats)]
fn floats_in_field(field: &Field) -> bool
    ensures { result ≡ floats.in_field field.now }
{
    floats_in_type(&field.data_type)
}

#[cycle(floats)]
fn floats_in_fields(fields: &[Field]) -> bool
    ensures { result ≡ list_any (λ here. here) (map floats.in_field fields.now) }
{
    for field in fields {
        if floats_in_field(field) {
            return true;
        }
    }
    false
}
