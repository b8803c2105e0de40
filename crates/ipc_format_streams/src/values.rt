//! Which values the id of a dictionary names (Arrow IPC, "Dictionary Messages").
ghost use Rattle.std.specs.Prelude.{◌≡◌, drop};
ghost use Rattle.std.specs.Option.{option_map};
ghost use Rattle.ipc_format_values.specs.grammar.Columns.{first_ids};
ghost use Rattle.ipc_format_values.specs.grammar.Dictionaries as format;
ghost use Rattle.ipc_format_values.specs.metadata.Views.{ids_views};
ghost use Rattle.ipc_format_streams.specs.Values.{ids_beside, is_id, values_or_within, values_view};

use ipc_format_values::columnar_memory::{DataType, Field};
use ipc_format_values::metadata::IpcField;

/// The values of a dictionary: their type, and the dictionary ids beside the fields below it.
#[derive(Clone, Copy, Debug)]
pub struct DictionaryValues<'a> {
    pub data_type: &'a DataType,
    pub ipc_fields: &'a [IpcField],
}

/// The values that an id names: those of the first field with this id, at any depth, in pre-order.
pub fn dictionary_values<'a>(
    fields: &'a [Field],
    ipc_fields: &'a [IpcField],
    id: i64,
) -> Option<DictionaryValues<'a>>
    ensures { option_map values_view result ≡ format.values_of fields.now id (ids_views ipc_fields.now) }
{
    values_in_fields(fields, ipc_fields, id)
}

/// The values that an id names in a type: `own` is the id of its field, and `below` are those beside the fields below it.
// match table: which fields each kind of the 35 types has.
#[cycle(finding)]
fn values_in_type<'a>(
    data_type: &'a DataType,
    own: Option<i64>,
    below: &'a [IpcField],
    id: i64,
) -> Option<DictionaryValues<'a>>
    ensures { option_map values_view result ≡ format.values_in data_type.now id (ids_beside own below.now) }
{
    match data_type {
        DataType::Dictionary(_, value, _) => values_in_values(value.get(), own, below, id),
        DataType::List(item) => values_in_field(item.get(), below, id),
        DataType::LargeList(item) => values_in_field(item.get(), below, id),
        DataType::FixedSizeList(item, _) => values_in_field(item.get(), below, id),
        DataType::Map(entry, _) => values_in_field(entry.get(), below, id),
        DataType::Struct(fields) => values_in_fields(fields.as_slice(), below, id),
        DataType::Union(fields, _, _) => values_in_fields(fields.as_slice(), below, id),
        DataType::Extension(_, inner, _) => values_in_type(inner.get(), own, below, id),
        DataType::Null
        | DataType::Boolean
        | DataType::Int8
        | DataType::Int16
        | DataType::Int32
        | DataType::Int64
        | DataType::UInt8
        | DataType::UInt16
        | DataType::UInt32
        | DataType::UInt64
        | DataType::Float16
        | DataType::Float32
        | DataType::Float64
        | DataType::Timestamp(_, _)
        | DataType::Date32
        | DataType::Date64
        | DataType::Time32(_)
        | DataType::Time64(_)
        | DataType::Duration(_)
        | DataType::Interval(_)
        | DataType::Decimal(_, _)
        | DataType::Decimal256(_, _)
        | DataType::Binary
        | DataType::LargeBinary
        | DataType::Utf8
        | DataType::LargeUtf8
        | DataType::FixedSizeBinary(_) => None,
    }
}

/// The values that an id names in a dictionary with these values: these, or some within them.
#[cycle(finding)]
#[tactic(auto, using(crate::proofs::Finding::own_or_inner))]
fn values_in_values<'a>(
    value: &'a DataType,
    own: Option<i64>,
    below: &'a [IpcField],
    id: i64,
) -> Option<DictionaryValues<'a>>
    ensures { option_map values_view result ≡ values_or_within value.now own id (ids_views below.now) }
{
    if is_same_id(own, id) {
        return Some(DictionaryValues {
            data_type: value,
            ipc_fields: below,
        });
    }
    values_in_type(value, None, below, id)
}

/// The values that an id names in a field, beside which the first of some ids stand.
#[cycle(finding)]
fn values_in_field<'a>(
    field: &'a Field,
    ipc_fields: &'a [IpcField],
    id: i64,
) -> Option<DictionaryValues<'a>>
    ensures { option_map values_view result ≡ format.values_in field.now.data_type id (first_ids (ids_views ipc_fields.now)) }
{
    match ipc_fields.first() {
        Some(ids) => values_in_type(
            &field.data_type,
            ids.dictionary_id,
            ids.fields.as_slice(),
            id,
        ),
        None => values_in_type(&field.data_type, None, ipc_fields, id),
    }
}

/// The values that an id names in some fields, beside which some ids stand.
#[cycle(finding)]
#[tactic(auto, using(crate::proofs::Finding::fields_one_by_one))]
fn values_in_fields<'a>(
    fields: &'a [Field],
    ipc_fields: &'a [IpcField],
    id: i64,
) -> Option<DictionaryValues<'a>>
    ensures { option_map values_view result ≡ format.values_of fields.now id (ids_views ipc_fields.now) }
{
    for k in 0..fields.len() {
        let found = values_in_field(&fields[k], ids_from(ipc_fields, k), id);
        if found.is_some() {
            return found;
        }
    }
    None
}

/// Whether there is an id, and it is this one.
fn is_same_id(own: Option<i64>, id: i64) -> bool
    ensures { result ≡ is_id own id }
{
    match own {
        Some(own) => own == id,
        None => false,
    }
}

/// The ids beside field `k` and those after it.
fn ids_from(ipc_fields: &[IpcField], k: usize) -> &[IpcField]
    ensures { result.now ≡ drop k ipc_fields.now }
{
    if k < ipc_fields.len() {
        &ipc_fields[k..]
    } else {
        &ipc_fields[ipc_fields.len()..]
    }
}
