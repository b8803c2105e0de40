//! The value of the schema that is written.
ghost use Rattle.std.specs.Prelude.{◌≡◌, ◌∷◌, [], ◌<◌, true, length, get_or, map, IfOk};
ghost use Rattle.std.specs.List.{list_all};
ghost use Rattle.ipc_format_writing.specs.columnar_memory.declared.Field.{out-Field};
ghost use Rattle.ipc_format_writing.specs.grammar.Schemas.{ids};
ghost use Rattle.ipc_format_writing.specs.grammar.SchemaObjects as objects;
ghost use Rattle.ipc_format_writing.specs.grammar.Writable.{Report, report_of, is_writable};
ghost use Rattle.ipc_format_writing.specs.metadata.Reports.{field_report};
ghost use Rattle.ipc_format_writing.specs.metadata.Views.{ids_views};
ghost use Rattle.ipc_format_writing.specs.Pieces.{field_told};
ghost use Rattle.ipc_format_values.specs.Serializing.{SerializesSchema};
ghost use Rattle.ipc_format_values.specs.ToldTypes.{told_view};
ghost use Rattle.ipc_format_values.specs.ValueObjects as values;

use crate::fields::{DictionaryEncoding, Field, Schema};
use crate::pairs::{field_pairs, pairs_of};
use crate::told::{Told, int_of, leaf, over};
use ipc_format_writing::columnar_memory::{
    DataType, Field as Column, IntegerType, Items, Result as Answer, Schema as Columns,
};
use ipc_format_writing::messages::{DictionaryKind, Endianness};
use ipc_format_writing::metadata::IpcField;
use ipc_format_writing::{Named, first_beside, refuse_unwritten};
use std::alloc::{AllocError, Global};

/// The encoding of a dictionary, if the type has one. Without an id beside it the id is 0.
fn encoding_of(
    dictionary: Option<(IntegerType, bool)>,
    own: Option<i64>,
) -> Option<DictionaryEncoding>
    ensures { values.encoding_value result ≡ objects.encoding_object dictionary own }
{
    let (keys, is_ordered) = dictionary?;
    Some(DictionaryEncoding {
        id: own.unwrap_or(0),
        index_type: int_of(keys),
        is_ordered,
        dictionary_kind: DictionaryKind::DenseArray,
    })
}

/// A field over its type.
fn field_over(
    alloc: Global,
    field: &Column,
    told: Told<'_>,
    own: Option<i64>,
) -> Result<Field, AllocError>
    ensures { IfOk result (λ made. values.field_value made ≡ objects.field_table (out-Field field.now).name (out-Field field.now).is_nullable
        (out-Field field.now).metadata (told_view told.entry) own) }
{
    let name = field.name.clone()?;
    let custom_metadata = field_pairs(alloc, told.extension, &field.metadata)?;
    Ok(Field {
        name,
        nullable: field.is_nullable,
        type_: told.type_,
        dictionary: encoding_of(told.dictionary, own),
        children: told.children,
        custom_metadata,
    })
}

/// Each of some fields is allowed where all are. A caller has this law by calling it.
#[tactic(auto, using(ipc_format_writing::proofs::Allowed::field_passes))]
fn each_is_allowed(fields: &[Column], k: usize, field: &Column)
    requires within { k < length fields.now }
    requires here { field.now ≡ get_or fields.now k field.now }
    requires all { list_all (λ (report : Report). report.is_allowed) (map field_report fields.now) ≡ true }
    ensures { (field_report field.now).is_allowed ≡ true }
{}

/// A type with the fields below it, each with the ids beside it.
#[cycle(fields)]
fn told_of<'a>(
    alloc: Global,
    data_type: &'a DataType,
    below: &[IpcField],
) -> Result<Told<'a>, AllocError>
    requires { (report_of data_type.now).is_allowed ≡ true }
    ensures { IfOk result (λ told. told_view told ≡ objects.told_of data_type.now (ids_views below.now)) }
{
    match data_type {
        DataType::Dictionary(key, value, is_ordered) => {
            let mut told = told_of(alloc, value.get(), below)?;
            told.dictionary = Some((*key, *is_ordered));
            Ok(told)
        }
        DataType::Extension(name, inner, metadata) => {
            let mut told = told_of(alloc, inner.get(), below)?;
            told.extension = Some(Named { name, metadata });
            Ok(told)
        }
        DataType::List(item)
        | DataType::LargeList(item)
        | DataType::FixedSizeList(item, _)
        | DataType::Map(item, _) => over(data_type, single(alloc, item.get(), below)?),
        DataType::Struct(fields) | DataType::Union(fields, _, _) => {
            over(data_type, each_of(alloc, fields.as_slice(), below)?)
        }
        _ => leaf(alloc, data_type),
    }
}

#[cycle(fields)]
fn field_of(
    alloc: Global,
    field: &Column,
    own: Option<i64>,
    below: &[IpcField],
) -> Result<Field, AllocError>
    requires { (field_report field.now).is_allowed ≡ true }
    ensures { IfOk result (λ made. values.field_value made ≡ field_told field.now (ids own (ids_views below.now))) }
{
    let told = told_of(alloc, &field.data_type, below)?;
    field_over(alloc, field, told, own)
}

/// The list of a single field.
#[cycle(fields)]
fn single(alloc: Global, field: &Column, beside: &[IpcField]) -> Result<Items<Field>, AllocError>
    requires { (field_report field.now).is_allowed ≡ true }
    ensures { IfOk result (λ made. values.objects_list (map values.field_value made)
        ≡ objects.objects_of (field_told field.now ∷ []) (ids_views beside.now)) }
{
    let here = first_beside(beside);
    let mut made = Items::new(alloc);
    made.push(field_of(alloc, field, here.own, here.below)?)?;
    Ok(made)
}

/// Some fields, each with the ids beside it.
#[cycle(fields)]
fn each_of(
    alloc: Global,
    fields: &[Column],
    beside: &[IpcField],
) -> Result<Items<Field>, AllocError>
    requires { list_all (λ (report : Report). report.is_allowed) (map field_report fields.now) ≡ true }
    ensures { IfOk result (λ made. values.objects_list (map values.field_value made)
        ≡ objects.objects_of (map field_told fields.now) (ids_views beside.now)) }
{
    let mut made = Items::new(alloc);
    let mut rest = beside;
    for k in 0..fields.len() {
        let field = &fields[k];
        each_is_allowed(fields, k, field);
        let here = first_beside(rest);
        made.push(field_of(alloc, field, here.own, here.below)?)?;
        rest = here.others;
    }
    Ok(made)
}

/// The value of a schema that is written.
fn value_of(alloc: Global, schema: &Columns, ipc_fields: &[IpcField]) -> Result<Schema, AllocError>
    requires { is_writable schema.now ≡ true }
    ensures { IfOk result (λ value. values.schema_value value ≡ objects.schema_object schema.now (ids_views ipc_fields.now)) }
{
    let fields = each_of(alloc, schema.fields.as_slice(), ipc_fields)?;
    let custom_metadata = pairs_of(alloc, &schema.metadata)?;
    Ok(Schema {
        endianness: Endianness::Little,
        fields,
        custom_metadata,
    })
}

/// The value of the schema that `schema_to_bytes` lays, with the ids of its dictionaries beside its fields (Schema.fbs). It is refused as
/// the bytes are, but not for their length: a value may be of a schema whose metadata would be too long.
///
/// # Errors
/// - `NotYetImplemented`: a field of floating-point numbers stands in the schema.
/// - `InvalidArgumentError`: the schema is none that is written, or the ids are not those of its dictionaries.
/// - `OutOfMemory`: there was no memory for the value.
pub fn serialize_schema(alloc: Global, schema: &Columns, ipc_fields: &[IpcField]) -> Answer<Schema>
    ensures { SerializesSchema result schema.now (ids_views ipc_fields.now) }
{
    refuse_unwritten(schema, ipc_fields)?;
    Ok(value_of(alloc, schema, ipc_fields)?)
}
