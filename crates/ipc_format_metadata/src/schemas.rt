//! Schemas (Schema.fbs) with fields of every type but the floating-point ones.
ghost use Rattle.std.specs.Prelude.{◌≡◌, ◌↔◌, IsTrue, IfOk, IfSome, MatchResult, ◌<◌, ◌+◌, ◌*◌, ◌≤◌, length, None, Some};
ghost use Rattle.std.specs.Option.{option_map};
ghost use Rattle.ipc_format_grammar.specs.Schemas as format;
ghost use Rattle.ipc_format_grammar.specs.Refusals.{IsFloat};
ghost use Rattle.ipc_format_grammar.specs.flatbuffers.Views.{table_of, vector_of};
ghost use Rattle.ipc_format_metadata.specs.Reading.{Reads};
ghost use Rattle.ipc_format_metadata.specs.LayerViews.{layer_view, over_field, over_fields};
ghost use Rattle.ipc_format_metadata.specs.ReadViews.{head_view, field_view, type_view, fields_view};
ghost use Rattle.ipc_format_metadata.specs.Steps as steps;

use crate::ipc_schema::IpcField;
use crate::layers::{Layer, OverField, OverFields, layer_of};
use crate::out_of_spec::INVALID_SCHEMA;
use crate::pairs::{encoded_by, extended, metadata_in};
use crate::sizes::REFERENCE_SIZE;
use crate::slots::{
    FIELD_CHILDREN, FIELD_CUSTOM_METADATA, FIELD_DICTIONARY, FIELD_NAME, FIELD_NULLABLE,
    FIELD_TYPE, FIELD_TYPE_TYPE,
};
use crate::tag_numbers::TYPE_FLOATING_POINT;
use crate::tags::tag_of;
use ipc_format_grammar::columnar_memory::{
    Boxed, DataType, Error, Field, Items, Result, Steps, Text,
};
use ipc_format_grammar::flatbuffers::{
    Table, Vector, element_at, string_field, table_field, truth_field, u8_field, vector_field,
};
use std::alloc::{AllocError, Global};
use std::result;

/// A field, the dictionary ids beside it, and how many Field tables may still be visited.
#[derive(Debug, Drop)]
pub struct FieldRead {
    pub field: Field,
    pub ids: IpcField,
    pub left: usize,
}

/// A type, the dictionary ids beside the fields below it, and how many Field tables may still be visited.
#[derive(Debug, Drop)]
pub struct TypeRead {
    pub data_type: DataType,
    pub below: Items<IpcField>,
    pub left: usize,
}

/// Fields, the dictionary ids beside each, and how many Field tables may still be visited.
#[derive(Debug, Drop)]
pub struct FieldsRead {
    pub fields: Items<Field>,
    pub below: Items<IpcField>,
    pub left: usize,
}

/// A field's name, and whether its slots may be null.
#[derive(Clone, Copy, Debug)]
struct Head<'a> {
    name: &'a str,
    is_nullable: bool,
}

fn is_float(bytes: &[u8], field: &Table) -> bool
    ensures { IsTrue result ↔ IsFloat bytes.now (table_of field.now) }
{
    u8_field(bytes, field, FIELD_TYPE_TYPE, 0) == Some(TYPE_FLOATING_POINT)
}

/// The layer of a field's type.
fn layer_in(alloc: Global, bytes: &[u8], field: &Table) -> result::Result<Option<Layer>, AllocError>
    ensures { IfOk result (λ found. option_map layer_view found ≡ steps.layer_in bytes.now (table_of field.now)) }
{
    let Some(number) = u8_field(bytes, field, FIELD_TYPE_TYPE, 0) else {
        return Ok(None);
    };
    let Some(tag) = tag_of(number) else {
        return Ok(None);
    };
    match table_field(bytes, field, FIELD_TYPE) {
        Some(Some(table)) => layer_of(alloc, bytes, tag, &table),
        Some(None) | None => Ok(None),
    }
}

/// The children of a field, which must be there.
fn children(bytes: &[u8], field: &Table) -> Option<Vector>
    ensures value { option_map vector_of result ≡ steps.children bytes.now (table_of field.now) }
    ensures inside { IfSome result (λ v. v.place + v.count * 4 ≤ length bytes.now) }
{
    vector_field(bytes, field, FIELD_CHILDREN, REFERENCE_SIZE)?
}

/// The first child of a field, which counts alone for lists and maps.
fn first_child(bytes: &[u8], field: &Table) -> Option<Table>
    ensures { option_map table_of result ≡ steps.first_child bytes.now (table_of field.now) }
{
    let vector = children(bytes, field)?;
    if vector.count == 0 {
        return None;
    }
    element_at(bytes, &vector, 0)
}

fn head_in<'a>(bytes: &'a [u8], field: &Table) -> Option<Head<'a>>
    ensures { option_map head_view result ≡ steps.head_in bytes.now (table_of field.now) }
{
    let name = string_field(bytes, field, FIELD_NAME)??;
    let is_nullable = truth_field(bytes, field, FIELD_NULLABLE)?;
    Some(Head { name, is_nullable })
}

/// The type over one field.
fn with_field(
    alloc: Global,
    over: OverField,
    found: FieldRead,
) -> result::Result<TypeRead, AllocError>
    ensures value { IfOk result (λ made. steps.over_one (over_field over) (field_view found) ≡ Some (type_view made)) }
    ensures left { IfOk result (λ made. made.left ≡ found.left) }
{
    let mut below = Items::new(alloc);
    below.push(found.ids)?;
    let child = Boxed::new(alloc, found.field)?;
    let data_type = match over {
        OverField::List => DataType::List(child),
        OverField::LargeList => DataType::LargeList(child),
        OverField::FixedSizeList(size) => DataType::FixedSizeList(child, size),
        OverField::Map(is_sorted) => DataType::Map(child, is_sorted),
    };
    Ok(TypeRead {
        data_type,
        below,
        left: found.left,
    })
}

/// The type over some fields.
fn with_fields(over: OverFields, found: FieldsRead) -> TypeRead
    ensures value { steps.over_each (over_fields over) (fields_view found) ≡ Some (type_view result) }
    ensures left { result.left ≡ found.left }
{
    let data_type = match over {
        OverFields::Struct => DataType::Struct(found.fields),
        OverFields::Union(table) => DataType::Union(found.fields, table.ids, table.mode),
    };
    TypeRead {
        data_type,
        below: found.below,
        left: found.left,
    }
}

/// The field of a type, with what stands beside it.
fn completed(
    alloc: Global,
    bytes: &[u8],
    table: &Table,
    head: Head<'_>,
    found: TypeRead,
) -> Result<FieldRead>
    ensures value { Reads field_view ⊥ result (steps.completed bytes.now (table_of table.now) (head_view head.entry) (type_view found)) }
    ensures left { IfOk result (λ read. read.left ≡ found.left) }
{
    let Some(dictionary) = table_field(bytes, table, FIELD_DICTIONARY) else {
        return Err(Error::OutOfSpec(INVALID_SCHEMA.name()));
    };
    let metadata = metadata_in(alloc, bytes, table, FIELD_CUSTOM_METADATA)?;
    let data_type = extended(alloc, &metadata, found.data_type)?;
    let encoded = encoded_by(alloc, bytes, &dictionary, data_type)?;
    let name = Text::from_str(alloc, head.name)?;
    Ok(FieldRead {
        field: Field {
            name,
            data_type: encoded.data_type,
            is_nullable: head.is_nullable,
            metadata,
        },
        ids: IpcField {
            fields: found.below,
            dictionary_id: encoded.id,
        },
        left: found.left,
    })
}

/// The field of a Field table, below which fields may nest so many `levels` deep less one, and where so many tables are `left` to visit.
#[cycle(reading)]
fn field_in(
    alloc: Global,
    bytes: &[u8],
    table: &Table,
    levels: u8,
    left: usize,
    visits: &mut Steps,
) -> Result<FieldRead>
    ensures value { Reads field_view (steps.FloatBelow bytes.now (table_of table.now)) result
        (format.field_in None bytes.now levels (table_of table.now) left) }
    ensures visits { MatchResult result (λ read. visits.new.count + read.left ≡ visits.old.count + left)
        (λ _. visits.new.count ≤ visits.old.count + left) }
{
    if levels == 0 {
        return Err(Error::OutOfSpec(INVALID_SCHEMA.name()));
    }
    if left == 0 {
        return Err(Error::OutOfSpec(INVALID_SCHEMA.name()));
    }
    visits.tick();
    let Some(head) = head_in(bytes, table) else {
        return Err(Error::OutOfSpec(INVALID_SCHEMA.name()));
    };
    let found = type_in(alloc, bytes, table, levels - 1, left - 1, visits)?;
    completed(alloc, bytes, table, head, found)
}

/// The type of a Field table, over fields that may nest so many `levels` deep.
#[cycle(reading)]
fn type_in(
    alloc: Global,
    bytes: &[u8],
    field: &Table,
    levels: u8,
    left: usize,
    visits: &mut Steps,
) -> Result<TypeRead>
    ensures value { Reads type_view (steps.FloatBelow bytes.now (table_of field.now)) result
        (steps.type_found (format.field_in None bytes.now levels) bytes.now (table_of field.now) left) }
    ensures visits { MatchResult result (λ read. visits.new.count + read.left ≡ visits.old.count + left)
        (λ _. visits.new.count ≤ visits.old.count + left) }
{
    if is_float(bytes, field) {
        return Err(Error::NotYetImplemented("floating-point numbers"));
    }
    let Some(layer) = layer_in(alloc, bytes, field)? else {
        return Err(Error::OutOfSpec(INVALID_SCHEMA.name()));
    };
    match layer {
        Layer::Flat(data_type) => Ok(TypeRead {
            data_type,
            below: Items::new(alloc),
            left,
        }),
        Layer::Over(over) => {
            let Some(child) = first_child(bytes, field) else {
                return Err(Error::OutOfSpec(INVALID_SCHEMA.name()));
            };
            let found = field_in(alloc, bytes, &child, levels, left, visits)?;
            Ok(with_field(alloc, over, found)?)
        }
        Layer::OverAll(over) => {
            let Some(vector) = children(bytes, field) else {
                return Err(Error::OutOfSpec(INVALID_SCHEMA.name()));
            };
            let found = each_in(alloc, bytes, &vector, levels, left, visits)?;
            Ok(with_fields(over, found))
        }
    }
}

/// The fields of a vector's tables, each of which may nest so many `levels` deep.
#[cycle(reading)]
pub fn each_in(
    alloc: Global,
    bytes: &[u8],
    vector: &Vector,
    levels: u8,
    left: usize,
    visits: &mut Steps,
) -> Result<FieldsRead>
    requires in_message { vector.now.place + vector.now.count * 4 ≤ length bytes.now }
    ensures value { Reads fields_view (steps.FloatAmong bytes.now (vector_of vector.now)) result
        (steps.fields_in (format.field_in None bytes.now levels) bytes.now (vector_of vector.now) left) }
    ensures visits { MatchResult result (λ read. visits.new.count + read.left ≡ visits.old.count + left)
        (λ _. visits.new.count ≤ visits.old.count + left) }
{
    let mut fields = Items::new(alloc);
    let mut below = Items::new(alloc);
    let mut still = left;
    for k in 0..vector.count {
        let Some(table) = element_at(bytes, vector, k) else {
            return Err(Error::OutOfSpec(INVALID_SCHEMA.name()));
        };
        let found = field_in(alloc, bytes, &table, levels, still, visits)?;
        fields.push(found.field)?;
        below.push(found.ids)?;
        still = found.left;
    }
    Ok(FieldsRead {
        fields,
        below,
        left: still,
    })
}
