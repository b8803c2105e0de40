//! What stands above the fields below a type (Schema.fbs, union `Type`).
ghost use Rattle.std.specs.Prelude.{◌≡◌, IfOk, true, ◌+◌, ◌*◌, ◌≤◌, length};
ghost use Rattle.std.specs.Option.{option_map};
ghost use Rattle.ipc_format_grammar.specs.Types as kinds;
ghost use Rattle.ipc_format_grammar.specs.Types.{numbers_from};
ghost use Rattle.ipc_format_grammar.specs.flatbuffers.Views.{table_of, vector_of};
ghost use Rattle.ipc_format_metadata.specs.Views.{tag_view};
ghost use Rattle.ipc_format_metadata.specs.LayerViews.{layer_view, union_view};
ghost use Rattle.ipc_format_metadata.specs.Parts as parts;

use crate::sizes::I32_SIZE;
use crate::slots::{MAP_KEYS_SORTED, TIMESTAMP_TIMEZONE, UNION_MODE, UNION_TYPE_IDS};
use crate::tags::Tag;
use crate::types::{
    date_in, decimal_in, integer_in, interval_in, mode_of, size_in, time_in, unit_in,
};
use ipc_format_grammar::columnar_memory::{DataType, IntegerType, Items, Text, UnionMode};
use ipc_format_grammar::flatbuffers::{
    Table, Vector, i16_field, i32_at, string_field, truth_field, vector_field,
};
use std::alloc::{AllocError, Global};

/// A type but for the fields below it.
#[derive(Debug, Drop)]
pub enum Layer {
    Flat(DataType),
    Over(OverField),
    OverAll(OverFields),
}

/// A type over one field.
#[derive(Clone, Copy, Debug)]
pub enum OverField {
    List,
    LargeList,
    FixedSizeList(usize),
    Map(bool),
}

/// A type over some fields.
#[derive(Debug, Drop)]
pub enum OverFields {
    Struct,
    Union(UnionTable),
}

/// A union's mode, and the ids of its children where they are given.
#[derive(Debug, Drop)]
pub struct UnionTable {
    pub mode: UnionMode,
    pub ids: Option<Items<i32>>,
}

/// The moments of a Timestamp table.
#[tactic(auto, unfolding(ipc_format_grammar::specs::Types::timestamp_in))]
fn timestamp_in(alloc: Global, bytes: &[u8], table: &Table) -> Result<Option<DataType>, AllocError>
    ensures { IfOk result (λ found. found ≡ kinds.timestamp_in bytes.now (table_of table.now)) }
{
    let Some(unit) = unit_in(bytes, table, 0) else {
        return Ok(None);
    };
    match string_field(bytes, table, TIMESTAMP_TIMEZONE) {
        Some(Some(timezone)) => {
            let timezone = Text::from_str(alloc, timezone)?;
            Ok(Some(DataType::Timestamp(unit, Some(timezone))))
        }
        Some(None) => Ok(Some(DataType::Timestamp(unit, None))),
        None => Ok(None),
    }
}

/// The signed numbers of a vector.
fn numbers_in(
    alloc: Global,
    bytes: &[u8],
    vector: &Vector,
) -> Result<Option<Items<i32>>, AllocError>
    requires { vector.now.place + vector.now.count * 4 ≤ length bytes.now }
    ensures { IfOk result (λ found. found ≡ numbers_from bytes.now vector.now.place vector.now.count) }
{
    let mut numbers = Items::new(alloc);
    for k in 0..vector.count {
        let Some(number) = i32_at(bytes, vector.place + 4 * k) else {
            return Ok(None);
        };
        numbers.push(number)?;
    }
    Ok(Some(numbers))
}

/// A Union table.
#[tactic(auto, unfolding(ipc_format_grammar::specs::Types::union_in))]
fn union_in(alloc: Global, bytes: &[u8], table: &Table) -> Result<Option<UnionTable>, AllocError>
    ensures { IfOk result (λ found. option_map union_view found ≡ kinds.union_in bytes.now (table_of table.now)) }
{
    let Some(number) = i16_field(bytes, table, UNION_MODE, 0) else {
        return Ok(None);
    };
    let Some(mode) = mode_of(number) else {
        return Ok(None);
    };
    match vector_field(bytes, table, UNION_TYPE_IDS, I32_SIZE) {
        Some(Some(vector)) => match numbers_in(alloc, bytes, &vector)? {
            Some(numbers) => Ok(Some(UnionTable {
                mode,
                ids: Some(numbers),
            })),
            None => Ok(None),
        },
        Some(None) => Ok(Some(UnionTable { mode, ids: None })),
        None => Ok(None),
    }
}

/// The layer of a type that takes no memory.
fn plain_layer(bytes: &[u8], tag: Tag, table: &Table) -> Option<Layer>
    requires plain { parts.is_plain (tag_view tag) ≡ true }
    ensures { option_map layer_view result ≡ parts.layer_of bytes.now (tag_view tag) (table_of table.now) }
{
    match tag {
        Tag::Null => Some(Layer::Flat(DataType::Null)),
        Tag::Bool => Some(Layer::Flat(DataType::Boolean)),
        Tag::Binary => Some(Layer::Flat(DataType::Binary)),
        Tag::LargeBinary => Some(Layer::Flat(DataType::LargeBinary)),
        Tag::Utf8 => Some(Layer::Flat(DataType::Utf8)),
        Tag::LargeUtf8 => Some(Layer::Flat(DataType::LargeUtf8)),
        Tag::Int => Some(Layer::Flat(DataType::from(integer_in(bytes, table)?))),
        Tag::Decimal => Some(Layer::Flat(decimal_in(bytes, table)?)),
        Tag::Date => Some(Layer::Flat(date_in(bytes, table)?)),
        Tag::Time => Some(Layer::Flat(time_in(bytes, table)?)),
        Tag::Interval => Some(Layer::Flat(interval_in(bytes, table)?)),
        Tag::Duration => Some(Layer::Flat(DataType::Duration(unit_in(bytes, table, 1)?))),
        Tag::FixedSizeBinary => Some(Layer::Flat(DataType::FixedSizeBinary(size_in(
            bytes, table,
        )?))),
        Tag::List => Some(Layer::Over(OverField::List)),
        Tag::LargeList => Some(Layer::Over(OverField::LargeList)),
        Tag::FixedSizeList => Some(Layer::Over(OverField::FixedSizeList(size_in(bytes, table)?))),
        Tag::Map => Some(Layer::Over(OverField::Map(truth_field(bytes, table, MAP_KEYS_SORTED)?))),
        Tag::Struct => Some(Layer::OverAll(OverFields::Struct)),
        Tag::FloatingPoint | Tag::Timestamp | Tag::Union => None,
    }
}

/// The layer of a type, by its tag and its own table.
pub fn layer_of(
    alloc: Global,
    bytes: &[u8],
    tag: Tag,
    table: &Table,
) -> Result<Option<Layer>, AllocError>
    ensures { IfOk result (λ found. option_map layer_view found ≡ parts.layer_of bytes.now (tag_view tag) (table_of table.now)) }
{
    match tag {
        Tag::Timestamp => match timestamp_in(alloc, bytes, table)? {
            Some(data_type) => Ok(Some(Layer::Flat(data_type))),
            None => Ok(None),
        },
        Tag::Union => match union_in(alloc, bytes, table)? {
            Some(union_table) => Ok(Some(Layer::OverAll(OverFields::Union(union_table)))),
            None => Ok(None),
        },
        _ => Ok(plain_layer(bytes, tag, table)),
    }
}
