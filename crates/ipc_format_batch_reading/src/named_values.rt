//! Which values each id of a dictionary names, found once for all ids (Arrow IPC, "Dictionary Messages").
ghost use Rattle.std.specs.Prelude.{◌≡◌, IfOk, Some, drop, option_copied};
ghost use Rattle.std.specs.Option.{ForSome, option_map};
ghost use Rattle.ipc_format_reading.specs.grammar.Columns.{first_ids};
ghost use Rattle.ipc_format_reading.specs.grammar.Dictionaries as format;
ghost use Rattle.ipc_format_reading.specs.grammar.Dictionaries.{values_if};
ghost use Rattle.ipc_format_reading.specs.metadata.Views.{ids_views};
ghost use Rattle.ipc_format_reading.specs.array_reading.column_writing.column_reading.column_bytes.streams.Values.{ids_beside, values_or_within, values_view};
ghost use Rattle.ipc_format_batch_reading.specs.NamedValues.{AreValuesOf, GainsValues, known_view};

use ipc_format_reading::columnar_memory::{DataType, Field, Items};
use ipc_format_reading::streams::DictionaryValues;
use ipc_format_reading::{IpcField, IpcSchema, dictionary_values};
use std::alloc::{AllocError, Global};
use std::collections::BTreeMap;

/// The values of a dictionary, as `DictionaryValues` has them, apart from the fields that they were found in.
#[derive(Debug, Drop)]
pub struct KnownValues {
    pub data_type: DataType,
    pub ipc_fields: Items<IpcField>,
}

/// Under each id of a dictionary the values that it names.
pub type ValuesById = BTreeMap<i64, KnownValues>;

/// The values that each id names, as `dictionary_values` finds them one by one. Takes time with the number of fields at any depth.
///
/// # Errors
/// There was no memory.
pub fn values_by_id(
    alloc: Global,
    fields: &[Field],
    ipc_fields: &[IpcField],
) -> Result<ValuesById, AllocError>
    ensures { IfOk result (λ found. AreValuesOf fields.now (ids_views ipc_fields.now) found) }
{
    let mut found = BTreeMap::new(alloc);
    put_fields(alloc, fields, ipc_fields, &mut found)?;
    Ok(found)
}

/// Puts the values that ids name in a type, each under its id where none stand there.
///
/// # Errors
/// There was no memory.
// match table: which fields each kind of the 35 types has.
#[cycle(putting)]
#[tactic(auto, using(crate::proofs::NamedValues::none_put))]
fn put_type(
    alloc: Global,
    data_type: &DataType,
    own: Option<i64>,
    below: &[IpcField],
    found: &mut ValuesById,
) -> Result<(), AllocError>
    ensures { IfOk result (λ _. GainsValues found.old found.new (λ id. format.values_in data_type.now id (ids_beside own below.now))) }
{
    match data_type {
        DataType::Dictionary(_, value, _) => put_values(alloc, value.get(), own, below, found),
        DataType::List(item) => put_field(alloc, item.get(), below, found),
        DataType::LargeList(item) => put_field(alloc, item.get(), below, found),
        DataType::FixedSizeList(item, _) => put_field(alloc, item.get(), below, found),
        DataType::Map(entry, _) => put_field(alloc, entry.get(), below, found),
        DataType::Struct(fields) => put_fields(alloc, fields.as_slice(), below, found),
        DataType::Union(fields, _, _) => put_fields(alloc, fields.as_slice(), below, found),
        DataType::Extension(_, inner, _) => put_type(alloc, inner.get(), own, below, found),
        DataType::Null
        | DataType::Boolean
        | DataType::Int8
        | DataType::Int16
        | DataType::Int32
        | DataType::Int64
        | DataType::UInt8
        | DataType::UInt16
        | DataType::UInt32
        | DataType::UInt64
        | DataType::Float16
        | DataType::Float32
        | DataType::Float64
        | DataType::Timestamp(_, _)
        | DataType::Date32
        | DataType::Date64
        | DataType::Time32(_)
        | DataType::Time64(_)
        | DataType::Duration(_)
        | DataType::Interval(_)
        | DataType::Decimal(_, _)
        | DataType::Decimal256(_, _)
        | DataType::Binary
        | DataType::LargeBinary
        | DataType::Utf8
        | DataType::LargeUtf8
        | DataType::FixedSizeBinary(_) => Ok(()),
    }
}

/// A copy of some ids beside fields.
pub(crate) fn copied_ids(
    alloc: Global,
    ipc_fields: &[IpcField],
) -> Result<Items<IpcField>, AllocError>
    ensures { IfOk result (λ copied. copied ≡ ipc_fields.now) }
{
    let mut copied = Items::new(alloc);
    for field in ipc_fields {
        copied.push(field.clone()?)?;
    }
    Ok(copied)
}

/// Puts values under an id, where none stand there.
///
/// # Errors
/// There was no memory.
fn put_under(
    alloc: Global,
    id: i64,
    value: &DataType,
    below: &[IpcField],
    found: &mut ValuesById,
) -> Result<(), AllocError>
    ensures { IfOk result (λ _. GainsValues found.old found.new
        (λ other. values_if (Some id) other (record { data_type = value.now; below = ids_views below.now }))) }
{
    if !found.contains_key(&id) {
        let values = KnownValues {
            data_type: value.clone()?,
            ipc_fields: copied_ids(alloc, below)?,
        };
        found.insert(id, values)?;
    }
    Ok(())
}

/// Puts the values that ids name in a dictionary with these values: these under its own id, and those within them.
///
/// # Errors
/// There was no memory.
#[cycle(putting)]
fn put_values(
    alloc: Global,
    value: &DataType,
    own: Option<i64>,
    below: &[IpcField],
    found: &mut ValuesById,
) -> Result<(), AllocError>
    ensures { IfOk result (λ _. GainsValues found.old found.new (λ id. values_or_within value.now own id (ids_views below.now))) }
{
    if let Some(id) = own {
        put_under(alloc, id, value, below, found)?;
    }
    put_type(alloc, value, None, below, found)
}

/// Puts the values that ids name in a field, beside which the first of some ids stand.
///
/// # Errors
/// There was no memory.
#[cycle(putting)]
fn put_field(
    alloc: Global,
    field: &Field,
    ipc_fields: &[IpcField],
    found: &mut ValuesById,
) -> Result<(), AllocError>
    ensures { IfOk result (λ _. GainsValues found.old found.new
        (λ id. format.values_in field.now.data_type id (first_ids (ids_views ipc_fields.now)))) }
{
    match ipc_fields.first() {
        Some(ids) => put_type(
            alloc,
            &field.data_type,
            ids.dictionary_id,
            ids.fields.as_slice(),
            found,
        ),
        None => put_type(alloc, &field.data_type, None, ipc_fields, found),
    }
}

/// Puts the values that ids name in some fields, beside which some ids stand.
///
/// # Errors
/// There was no memory.
#[cycle(putting)]
fn put_fields(
    alloc: Global,
    fields: &[Field],
    ipc_fields: &[IpcField],
    found: &mut ValuesById,
) -> Result<(), AllocError>
    ensures { IfOk result (λ _. GainsValues found.old found.new (λ id. format.values_of fields.now id (ids_views ipc_fields.now))) }
{
    for k in 0..fields.len() {
        put_field(alloc, &fields[k], ids_from(ipc_fields, k), found)?;
    }
    Ok(())
}

/// The ids beside field `k` and those after it.
fn ids_from(ipc_fields: &[IpcField], k: usize) -> &[IpcField]
    ensures { result.now ≡ drop k ipc_fields.now }
{
    if k < ipc_fields.len() {
        &ipc_fields[k..]
    } else {
        &ipc_fields[ipc_fields.len()..]
    }
}

/// The values of a dictionary that are known.
fn values_of(values: &KnownValues) -> DictionaryValues<'_>
    ensures { values_view result ≡ known_view values.now }
{
    DictionaryValues {
        data_type: &values.data_type,
        ipc_fields: values.ipc_fields.as_slice(),
    }
}

/// The values that an id names in some fields: those that stand under it where the values of each id are known, and else the first ones with the id.
pub(crate) fn known_values<'a>(
    fields: &'a [Field],
    ipc_schema: &'a IpcSchema,
    known: Option<&'a ValuesById>,
    id: i64,
) -> Option<DictionaryValues<'a>>
    requires { ForSome (option_copied known) (AreValuesOf fields.now (ids_views ipc_schema.now.fields)) }
    ensures { option_map values_view result ≡ format.values_of fields.now id (ids_views ipc_schema.now.fields) }
{
    match known {
        Some(known) => match known.get(&id) {
            Some(values) => Some(values_of(values)),
            None => None,
        },
        None => dictionary_values(fields, ipc_schema.fields.as_slice(), id),
    }
}
