//! The schema that the metadata of a message gives (Schema.fbs, Message.fbs).
ghost use Rattle.std.specs.Prelude.{◌≡◌, IfOk, IfSome, IsSomeAnd, ◌+◌, ◌*◌, ◌≤◌, length, None};
ghost use Rattle.std.specs.Option.{option_map};
ghost use Rattle.ipc_format_grammar.specs.Schemas as format;
ghost use Rattle.ipc_format_grammar.specs.SchemaGrammar as grammar;
ghost use Rattle.ipc_format_grammar.specs.flatbuffers.Views.{table_of, vector_of};
ghost use Rattle.ipc_format_metadata.specs.Reading.{Reads};
ghost use Rattle.ipc_format_metadata.specs.SchemaViews.{schema_view};
ghost use Rattle.ipc_format_metadata.specs.Steps as steps;

use crate::ipc_schema::IpcSchema;
use crate::out_of_spec::{INVALID_SCHEMA, OutOfSpecKind};
use crate::pairs::metadata_in;
use crate::schemas::each_in;
use crate::sizes::REFERENCE_SIZE;
use crate::slots::{
    MESSAGE_HEADER, MESSAGE_HEADER_TYPE, SCHEMA_CUSTOM_METADATA, SCHEMA_ENDIANNESS, SCHEMA_FIELDS,
};
use crate::tag_numbers::SCHEMA_HEADER;
use crate::writable::can_write;
use ipc_format_grammar::columnar_memory::{Error, Result, Schema, Steps};
use ipc_format_grammar::flatbuffers::{
    Table, Vector, i16_field, root_of, table_field, u8_field, vector_field,
};
use std::alloc::Global;

/// So many levels deep may fields nest.
pub const MOST_LEVELS: u8 = 64;

/// Whether the numbers of a schema's batches stand with their lowest byte first.
fn order_in(bytes: &[u8], table: &Table) -> Option<bool>
    ensures { result ≡ steps.order_in bytes.now (table_of table.now) }
{
    match i16_field(bytes, table, SCHEMA_ENDIANNESS, 0)? {
        0 => Some(true),
        1 => Some(false),
        _ => None,
    }
}

/// The Field tables of a schema, which must be there.
fn tables_in(bytes: &[u8], table: &Table) -> Option<Vector>
    ensures value { option_map vector_of result ≡ steps.tables_in bytes.now (table_of table.now) }
    ensures inside { IfSome result (λ v. v.place + v.count * 4 ≤ length bytes.now) }
{
    vector_field(bytes, table, SCHEMA_FIELDS, REFERENCE_SIZE)?
}

/// The schema of a Schema table, written or not, and what the table says beside it. Each Field table that is visited is a step.
///
/// # Errors
/// - `OutOfSpec`: the bytes are no schema.
/// - `NotYetImplemented`: a field of floating-point numbers stands in it.
/// - `OutOfMemory`: there was no memory for names and fields.
pub fn any_schema_in(
    alloc: Global,
    bytes: &[u8],
    table: &Table,
    visits: &mut Steps,
) -> Result<(Schema, IpcSchema)>
    ensures value { Reads schema_view (steps.FloatInSchema bytes.now (table_of table.now)) result
        (format.any_schema_in None bytes.now (table_of table.now)) }
    ensures visits { visits.new.count ≤ visits.old.count + length bytes.now }
    ensures used { IfOk result (λ _. IsSomeAnd (steps.visits_left bytes.now (table_of table.now))
        (λ left. visits.new.count + left ≡ visits.old.count + length bytes.now)) }
{
    let Some(is_little_endian) = order_in(bytes, table) else {
        return Err(Error::OutOfSpec(INVALID_SCHEMA.name()));
    };
    let Some(vector) = tables_in(bytes, table) else {
        return Err(Error::OutOfSpec(OutOfSpecKind::MissingFields.name()));
    };
    let found = each_in(alloc, bytes, &vector, MOST_LEVELS, bytes.len(), visits)?;
    let metadata = metadata_in(alloc, bytes, table, SCHEMA_CUSTOM_METADATA)?;
    let schema = Schema {
        fields: found.fields,
        metadata,
    };
    let ipc_schema = IpcSchema {
        fields: found.below,
        is_little_endian,
    };
    Ok((schema, ipc_schema))
}

/// The Schema table of a message whose header is a schema.
#[tactic(auto, unfolding(ipc_format_grammar::specs::Messages::message_in))]
fn schema_table(bytes: &[u8]) -> Option<Table>
    ensures { option_map table_of result ≡ steps.schema_table_in bytes.now }
{
    let root = root_of(bytes)?;
    let tag = u8_field(bytes, &root, MESSAGE_HEADER_TYPE, 0)?;
    let table = table_field(bytes, &root, MESSAGE_HEADER)??;
    if tag == SCHEMA_HEADER {
        Some(table)
    } else {
        None
    }
}

/// The schema of a Schema table, and what the table says beside it.
///
/// # Errors
/// - `OutOfSpec`: the bytes are no schema, or one that is not written.
/// - `NotYetImplemented`: a field of floating-point numbers stands in it.
/// - `OutOfMemory`: there was no memory for names and fields.
pub fn schema_in(alloc: Global, bytes: &[u8], table: &Table) -> Result<(Schema, IpcSchema)>
    ensures { Reads schema_view (steps.FloatInSchema bytes.now (table_of table.now)) result (grammar.schema_in bytes.now (table_of table.now)) }
{
    schema_in_counted(alloc, bytes, table, &mut Steps::new())
}

/// As [`schema_in`]: each Field table that is visited is a step, counted exactly where there is a schema.
///
/// # Errors
/// As [`schema_in`].
pub fn schema_in_counted(
    alloc: Global,
    bytes: &[u8],
    table: &Table,
    visits: &mut Steps,
) -> Result<(Schema, IpcSchema)>
    ensures value { Reads schema_view (steps.FloatInSchema bytes.now (table_of table.now)) result
        (grammar.schema_in bytes.now (table_of table.now)) }
    ensures visits { visits.new.count ≤ visits.old.count + length bytes.now }
    ensures used { IfOk result (λ _. IsSomeAnd (steps.visits_left bytes.now (table_of table.now))
        (λ left. visits.new.count + left ≡ visits.old.count + length bytes.now)) }
{
    let (schema, ipc_schema) = any_schema_in(alloc, bytes, table, visits)?;
    if !can_write(&schema) {
        return Err(Error::OutOfSpec(OutOfSpecKind::InvalidDataType.name()));
    }
    Ok((schema, ipc_schema))
}

/// The schema of a message's metadata, and what the message says beside it (Arrow IPC, "Schema message").
///
/// # Errors
/// - `OutOfSpec`: the bytes are no message with a schema, or with one that is not written.
/// - `NotYetImplemented`: a field of floating-point numbers stands in it.
/// - `OutOfMemory`: there was no memory for names and fields.
pub fn deserialize_schema(alloc: Global, metadata: &[u8]) -> Result<(Schema, IpcSchema)>
    ensures { Reads schema_view (steps.FloatInMessage metadata.now) result (steps.schema_message_in metadata.now) }
{
    deserialize_schema_counted(alloc, metadata, &mut Steps::new())
}

/// As [`deserialize_schema`]: each Field table that is visited is a step, counted exactly where there is a schema.
///
/// # Errors
/// As [`deserialize_schema`].
pub fn deserialize_schema_counted(
    alloc: Global,
    metadata: &[u8],
    visits: &mut Steps,
) -> Result<(Schema, IpcSchema)>
    ensures value { Reads schema_view (steps.FloatInMessage metadata.now) result (steps.schema_message_in metadata.now) }
    ensures visits { visits.new.count ≤ visits.old.count + length metadata.now }
    ensures used { IfOk result (λ _. IsSomeAnd (steps.visits_left_in_message metadata.now)
        (λ left. visits.new.count + left ≡ visits.old.count + length metadata.now)) }
{
    let Some(table) = schema_table(metadata) else {
        return Err(Error::OutOfSpec(OutOfSpecKind::MissingSchema.name()));
    };
    schema_in_counted(alloc, metadata, &table, visits)
}
