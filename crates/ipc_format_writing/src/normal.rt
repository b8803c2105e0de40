//! The one form of a schema: at each field at any depth the keys of an extension are those of its type.
ghost use Rattle.std.specs.Prelude.{◌≡◌, IfOk, OnOk, MatchResult, map};
ghost use Rattle.ipc_format_messages.specs.columnar_memory.Error.{IsOutOfMemory};
ghost use Rattle.ipc_format_messages.specs.columnar_memory.Pairs.{with_pair};
ghost use Rattle.ipc_format_messages.specs.columnar_memory.declared.DataType.{out-DataType};
ghost use Rattle.ipc_format_messages.specs.grammar.Writable as format;
ghost use Rattle.ipc_format_writing.specs.Normal.{field_normal};

use ipc_format_messages::columnar_memory::{
    Boxed, DataType, EXTENSION_METADATA, EXTENSION_NAME, Field, Items, Metadata, Result as Answer,
    Schema, Text,
};
use std::alloc::{AllocError, Global};

/// A schema in its one form (Arrow columnar format, "Extension Types").
///
/// # Errors
/// - `OutOfMemory`: there was no memory for the schema.
#[tactic(auto, using(crate::proofs::NormalLists::fields_are), unfolding(crate::proofs::Passed::normalised))]
pub fn normalised(alloc: Global, schema: &Schema) -> Answer<Schema>
    ensures { MatchResult result (λ normal. normal ≡ format.normalised schema.now) IsOutOfMemory }
{
    Ok(Schema {
        fields: normal_fields(alloc, schema.fields.as_slice())?,
        metadata: schema.metadata.clone()?,
    })
}

/// The pairs without one of a key.
#[tactic(auto, using(crate::proofs::NormalLists::removed_by_order))]
fn without(pairs: Metadata, key: &Text) -> Metadata
    ensures { result ≡ format.without_key key.now pairs }
{
    let mut map = pairs.into_inner();
    let _value = map.remove(key);
    Metadata::from_map(map)
}

/// A copy of a pair put among others.
fn put_pair(alloc: Global, pairs: &mut Metadata, key: &str, value: &Text) -> Result<(), AllocError>
    ensures { OnOk result (pairs.new ≡ with_pair pairs.old key.now value.now) }
{
    let key = Text::from_str(alloc, key)?;
    let value = value.clone()?;
    pairs.insert(key, value)
}

/// An extension's pairs put among others.
fn with_extension(
    alloc: Global,
    pairs: Metadata,
    name: &Text,
    metadata: &Option<Text>,
) -> Result<Metadata, AllocError>
    ensures { IfOk result (λ found. found ≡ format.with_extension pairs name.now metadata.now) }
{
    let mut found = pairs;
    put_pair(alloc, &mut found, EXTENSION_NAME, name)?;
    match metadata {
        Some(metadata) => {
            put_pair(alloc, &mut found, EXTENSION_METADATA, metadata)?;
            Ok(found)
        }
        None => Ok(found),
    }
}

fn with_extension_of(
    alloc: Global,
    pairs: Metadata,
    data_type: &DataType,
) -> Result<Metadata, AllocError>
    ensures { IfOk result (λ found. found ≡ format.with_extension_of pairs (out-DataType data_type.now)) }
{
    match data_type {
        DataType::Extension(name, _, metadata) => with_extension(alloc, pairs, name, metadata),
        _ => Ok(pairs),
    }
}

/// The pairs of a type's extension, or of the one directly under its dictionary, put among others.
fn with_extension_under(
    alloc: Global,
    pairs: Metadata,
    data_type: &DataType,
) -> Result<Metadata, AllocError>
    ensures { IfOk result (λ found. found ≡ format.with_extension_under pairs (out-DataType data_type.now)) }
{
    match data_type {
        DataType::Dictionary(_, value, _) => with_extension_of(alloc, pairs, value.get()),
        _ => with_extension_of(alloc, pairs, data_type),
    }
}

/// A field's pairs with the keys of an extension as its type has it.
fn normal_pairs(
    alloc: Global,
    data_type: &DataType,
    pairs: &Metadata,
) -> Result<Metadata, AllocError>
    ensures { IfOk result (λ found. found ≡ format.normalised_pairs data_type.now pairs.now) }
{
    let name = Text::from_str(alloc, EXTENSION_NAME)?;
    let metadata = Text::from_str(alloc, EXTENSION_METADATA)?;
    let others = without(without(pairs.clone()?, &name), &metadata);
    with_extension_under(alloc, others, data_type)
}

/// Copies of what an extension type is called by.
fn copied_names(name: &Text, metadata: &Option<Text>) -> Result<(Text, Option<Text>), AllocError>
    ensures { IfOk result (λ names. (names.0 ≡ name.now) × (names.1 ≡ metadata.now)) }
{
    let name = name.clone()?;
    Ok((name, metadata.clone()?))
}

#[cycle(normal)]
fn normal_type(alloc: Global, data_type: &DataType) -> Result<DataType, AllocError>
    ensures { IfOk result (λ normal. normal ≡ format.normalised_type data_type.now) }
{
    match data_type {
        DataType::List(item) => Ok(DataType::List(boxed_field(alloc, item.get())?)),
        DataType::LargeList(item) => Ok(DataType::LargeList(boxed_field(alloc, item.get())?)),
        DataType::FixedSizeList(item, size) => {
            Ok(DataType::FixedSizeList(boxed_field(alloc, item.get())?, *size))
        }
        DataType::Map(entry, is_sorted) => {
            Ok(DataType::Map(boxed_field(alloc, entry.get())?, *is_sorted))
        }
        DataType::Struct(fields) => Ok(DataType::Struct(normal_fields(alloc, fields.as_slice())?)),
        DataType::Union(fields, ids, mode) => {
            let ids = ids.clone()?;
            Ok(DataType::Union(normal_fields(alloc, fields.as_slice())?, ids, *mode))
        }
        DataType::Dictionary(key, value, is_ordered) => {
            Ok(DataType::Dictionary(*key, boxed_type(alloc, value.get())?, *is_ordered))
        }
        DataType::Extension(name, inner, metadata) => {
            let names = copied_names(name, metadata)?;
            Ok(DataType::Extension(names.0, boxed_type(alloc, inner.get())?, names.1))
        }
        _ => data_type.clone(),
    }
}

#[cycle(normal)]
fn boxed_type(alloc: Global, data_type: &DataType) -> Result<Boxed<DataType>, AllocError>
    ensures { IfOk result (λ normal. normal ≡ format.normalised_type data_type.now) }
{
    let normal = normal_type(alloc, data_type)?;
    Boxed::new(alloc, normal)
}

#[cycle(normal)]
fn normal_field(alloc: Global, field: &Field) -> Result<Field, AllocError>
    ensures { IfOk result (λ normal. normal ≡ field_normal field.now) }
{
    let name = field.name.clone()?;
    let data_type = normal_type(alloc, &field.data_type)?;
    let metadata = normal_pairs(alloc, &data_type, &field.metadata)?;
    Ok(Field {
        name,
        data_type,
        is_nullable: field.is_nullable,
        metadata,
    })
}

#[cycle(normal)]
fn boxed_field(alloc: Global, field: &Field) -> Result<Boxed<Field>, AllocError>
    ensures { IfOk result (λ normal. normal ≡ field_normal field.now) }
{
    let normal = normal_field(alloc, field)?;
    Boxed::new(alloc, normal)
}

#[cycle(normal)]
fn normal_fields(alloc: Global, fields: &[Field]) -> Result<Items<Field>, AllocError>
    ensures { IfOk result (λ normal. normal ≡ map field_normal fields.now) }
{
    let mut normal = Items::new(alloc);
    for field in fields {
        normal.push(normal_field(alloc, field)?)?;
    }
    Ok(normal)
}
