//! Fields and schemas, taken of their views (Schema.fbs).
ghost use Rattle.std.specs.Prelude.{◌≡◌, IfOk, IfSome, IsSomeAnd, false, ◌+◌, ◌≤◌, length};
ghost use Rattle.std.specs.Option.{option_map};
ghost use Rattle.ipc_format_writing.specs.messages.MessageViews.{schema_view};
ghost use Rattle.ipc_format_writing.specs.messages.SchemaRefs.{field_view, fields_view};
ghost use Rattle.ipc_format_values.specs.Owned.{table_at};
ghost use Rattle.ipc_format_values.specs.OwnedFields as owned;
ghost use Rattle.ipc_format_values.specs.Taken.{Takes};
ghost use Rattle.ipc_format_values.specs.TakenViews.{field_taken, fields_taken};

use crate::taken::taken;
use crate::taken_pairs::{encoding_if, pairs_in};
use crate::taken_types::type_in;
use crate::{DictionaryEncoding, Field, KeyValue, Schema, Type_};
use ipc_format_writing::columnar_memory::{Items, Result as Answer, Steps, Text};
use ipc_format_writing::messages::{FieldRef, FieldsRef, SchemaRef};
use ipc_format_writing::metadata::MOST_LEVELS;
use std::alloc::{AllocError, Global};

/// A field but for the fields below it.
#[derive(Drop)]
pub struct FieldParts {
    pub name: Text,
    pub nullable: bool,
    pub type_: Type_,
    pub dictionary: Option<DictionaryEncoding>,
    pub custom_metadata: Items<KeyValue>,
}

/// A field, and how many Field tables may still be visited.
#[derive(Drop)]
pub struct FieldTaken {
    pub field: Field,
    pub left: usize,
}

/// Fields, and how many Field tables may still be visited.
#[derive(Drop)]
pub struct FieldsTaken {
    pub fields: Items<Field>,
    pub left: usize,
}

/// A field but for the fields below it; nothing where the view refuses, or the name or the type is absent.
fn parts_in(alloc: Global, field: &FieldRef<'_>) -> Result<Option<FieldParts>, AllocError>
    ensures { IfOk result (λ found. found ≡ owned.parts_in (field_view field.now)) }
{
    let Ok(Some(name)) = field.name() else {
        return Ok(None);
    };
    let Ok(nullable) = field.nullable() else {
        return Ok(None);
    };
    let Ok(Some(type_)) = field.type_() else {
        return Ok(None);
    };
    let Some(type_) = type_in(alloc, &type_)? else {
        return Ok(None);
    };
    let Ok(dictionary) = field.dictionary() else {
        return Ok(None);
    };
    let Ok(dictionary) = encoding_if(&dictionary) else {
        return Ok(None);
    };
    let Ok(pairs) = field.custom_metadata() else {
        return Ok(None);
    };
    let Some(custom_metadata) = pairs_in(alloc, &pairs)? else {
        return Ok(None);
    };
    Ok(Some(FieldParts {
        name: Text::from_str(alloc, name)?,
        nullable,
        type_,
        dictionary,
        custom_metadata,
    }))
}

/// The field of its parts.
fn field_over(parts: FieldParts, children: Items<Field>) -> Field
    ensures { result ≡ owned.field_over parts children }
{
    Field {
        name: parts.name,
        nullable: parts.nullable,
        type_: parts.type_,
        dictionary: parts.dictionary,
        children,
        custom_metadata: parts.custom_metadata,
    }
}

/// A field, below which fields may nest so many `levels` deep less one, and where so many tables are `left` to visit.
#[cycle(taking)]
fn field_in(
    alloc: Global,
    field: &FieldRef<'_>,
    levels: u8,
    left: usize,
    visits: &mut Steps,
) -> Result<Option<FieldTaken>, AllocError>
    ensures value { IfOk result (λ found. option_map field_taken found ≡ owned.field_in levels (field_view field.now) left) }
    ensures visits { visits.new.count ≤ visits.old.count + left }
    ensures used { IfOk result (λ found. IfSome found (λ taken. visits.new.count + taken.left ≡ visits.old.count + left)) }
{
    if levels == 0 {
        return Ok(None);
    }
    if left == 0 {
        return Ok(None);
    }
    visits.tick();
    let Some(parts) = parts_in(alloc, field)? else {
        return Ok(None);
    };
    let Ok(children) = field.children() else {
        return Ok(None);
    };
    match fields_if(alloc, &children, levels - 1, left - 1, visits)? {
        Some(below) => Ok(Some(FieldTaken {
            field: field_over(parts, below.fields),
            left: below.left,
        })),
        None => Ok(None),
    }
}

/// Some fields, none where they are absent.
#[cycle(taking)]
fn fields_if(
    alloc: Global,
    fields: &Option<FieldsRef<'_>>,
    levels: u8,
    left: usize,
    visits: &mut Steps,
) -> Result<Option<FieldsTaken>, AllocError>
    ensures value { IfOk result (λ found. option_map fields_taken found
        ≡ owned.fields_if (owned.field_in levels) (option_map fields_view fields.now) left) }
    ensures visits { visits.new.count ≤ visits.old.count + left }
    ensures used { IfOk result (λ found. IfSome found (λ taken. visits.new.count + taken.left ≡ visits.old.count + left)) }
{
    match fields {
        Some(fields) => fields_in(alloc, fields, levels, left, visits),
        None => Ok(Some(FieldsTaken {
            fields: Items::new(alloc),
            left,
        })),
    }
}

fn field_at<'a>(fields: &FieldsRef<'a>, k: usize) -> Option<FieldRef<'a>>
    ensures { option_map field_view result ≡ table_at (fields_view fields.now) k }
{
    fields.get(k).ok()?
}

/// The fields of a vector, each of which may nest so many `levels` deep.
#[cycle(taking)]
fn fields_in(
    alloc: Global,
    fields: &FieldsRef<'_>,
    levels: u8,
    left: usize,
    visits: &mut Steps,
) -> Result<Option<FieldsTaken>, AllocError>
    ensures value { IfOk result (λ found. option_map fields_taken found ≡ owned.fields_in (owned.field_in levels) (fields_view fields.now) left) }
    ensures visits { visits.new.count ≤ visits.old.count + left }
    ensures used { IfOk result (λ found. IfSome found (λ taken. visits.new.count + taken.left ≡ visits.old.count + left)) }
{
    let mut made = Items::new(alloc);
    let mut still = left;
    for k in 0..fields.tables.vector.count {
        let Some(field) = field_at(fields, k) else {
            return Ok(None);
        };
        let Some(found) = field_in(alloc, &field, levels, still, visits)? else {
            return Ok(None);
        };
        made.push(found.field)?;
        still = found.left;
    }
    Ok(Some(FieldsTaken {
        fields: made,
        left: still,
    }))
}

/// The fields of a schema, and how many Field tables may still be visited.
fn schema_fields_in(
    alloc: Global,
    schema: &SchemaRef<'_>,
    visits: &mut Steps,
) -> Result<Option<FieldsTaken>, AllocError>
    ensures value { IfOk result (λ found. option_map fields_taken found ≡ owned.schema_fields_in (schema_view schema.now)) }
    ensures visits { visits.new.count ≤ visits.old.count + length schema.now.table.bytes.now }
    ensures used { IfOk result (λ found. IfSome found
        (λ taken. visits.new.count + taken.left ≡ visits.old.count + length schema.now.table.bytes.now)) }
{
    match schema.fields() {
        Ok(Some(fields)) => fields_in(
            alloc,
            &fields,
            MOST_LEVELS,
            schema.table.bytes.len(),
            visits,
        ),
        Ok(None) | Err(_) => Ok(None),
    }
}

/// A schema; nothing where the view refuses, or there is no vector of fields.
#[tactic(auto, using(crate::proofs::Taking::order_is))]
pub fn schema_in(
    alloc: Global,
    schema: &SchemaRef<'_>,
    visits: &mut Steps,
) -> Result<Option<Schema>, AllocError>
    ensures value { IfOk result (λ found. found ≡ owned.schema_in (schema_view schema.now)) }
    ensures visits { visits.new.count ≤ visits.old.count + length schema.now.table.bytes.now }
    ensures used { IfOk result (λ found. IfSome found (λ _. IsSomeAnd (owned.visits_left (schema_view schema.now))
        (λ left. visits.new.count + left ≡ visits.old.count + length schema.now.table.bytes.now))) }
{
    let Ok(endianness) = schema.endianness() else {
        return Ok(None);
    };
    let Some(found) = schema_fields_in(alloc, schema, visits)? else {
        return Ok(None);
    };
    let Ok(pairs) = schema.custom_metadata() else {
        return Ok(None);
    };
    match pairs_in(alloc, &pairs)? {
        Some(custom_metadata) => Ok(Some(Schema {
            endianness,
            fields: found.fields,
            custom_metadata,
        })),
        None => Ok(None),
    }
}

/// The field of a view with the fields below it, which nest at most 64 deep with itself.
///
/// # Errors
/// - `OutOfSpec`: a view refuses a slot, a name, a type or the type of a dictionary's keys is absent, fields nest deeper, or more of their
///   tables are visited than the message has bytes.
/// - `OutOfMemory`: there was no memory for names and fields.
pub fn field_of(alloc: Global, field: FieldRef<'_>) -> Answer<Field>
    ensures { Takes false result (owned.top_field_in (field_view field.entry)) }
{
    let left = field.table.bytes.len();
    match field_in(alloc, &field, MOST_LEVELS, left, &mut Steps::new())? {
        Some(found) => taken(Some(found.field), false),
        None => taken(None, false),
    }
}

/// The schema of a view, whose fields nest at most 64 deep.
///
/// # Errors
/// - `OutOfSpec`: a view refuses a slot, the vector of fields, a name, a type or the type of a dictionary's keys is absent, fields nest
///   deeper, or more of their tables are visited than the message has bytes.
/// - `OutOfMemory`: there was no memory for names and fields.
pub fn schema_of(alloc: Global, schema: SchemaRef<'_>) -> Answer<Schema>
    ensures { Takes false result (owned.schema_in (schema_view schema.entry)) }
{
    schema_of_counted(alloc, schema, &mut Steps::new())
}

/// As [`schema_of`]: each Field table that is visited is a step, counted exactly where there is a schema.
///
/// # Errors
/// As [`schema_of`].
pub fn schema_of_counted(alloc: Global, schema: SchemaRef<'_>, visits: &mut Steps) -> Answer<Schema>
    ensures value { Takes false result (owned.schema_in (schema_view schema.entry)) }
    ensures visits { visits.new.count ≤ visits.old.count + length schema.entry.table.bytes.now }
    ensures used { IfOk result (λ _. IsSomeAnd (owned.visits_left (schema_view schema.entry))
        (λ left. visits.new.count + left ≡ visits.old.count + length schema.entry.table.bytes.now)) }
{
    taken(schema_in(alloc, &schema, visits)?, false)
}
