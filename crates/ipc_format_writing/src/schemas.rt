//! Schemas as the metadata of a message (Message.fbs, Schema.fbs), in version V5.
ghost use Rattle.std.specs.Prelude.{◌≡◌, ◌+◌, ◌∷◌, [], ◌≤◌, true, length, map, IfOk, MatchResult};
ghost use Rattle.std.specs.List.{list_all};
ghost use Rattle.std.specs.Int.{w8, w16, w64};
ghost use Rattle.ipc_format_messages.specs.flatbuffers.Laying as layout;
ghost use Rattle.ipc_format_messages.specs.flatbuffers.Objects.{piece_of};
ghost use Rattle.ipc_format_messages.specs.flatbuffers.Views.{Lays, piece_view};
ghost use Rattle.ipc_format_messages.specs.grammar.SchemaObjects as objects;
ghost use Rattle.ipc_format_messages.specs.grammar.Writable.{is_writable};
ghost use Rattle.ipc_format_messages.specs.metadata.Views.{ids_views};
ghost use Rattle.ipc_format_writing.specs.Writing.{WritesSchema, RefusesSchema, IsEndRefusal, IsRefusalOf, may_write};

use crate::fields::lay_fields;
use crate::fitting::{has_float, ids_fit};
use crate::written_pairs::{lay_pairs, optional};
use ipc_format_messages::columnar_memory::{Error, Result as Answer, Schema};
use ipc_format_messages::flatbuffers::{Laid, LayError, Slot, lay_table, message_bytes};
use ipc_format_messages::metadata::sizes::V5;
use ipc_format_messages::metadata::tag_numbers::SCHEMA_HEADER;
use ipc_format_messages::metadata::{IpcField, can_write};
use std::alloc::Global;

/// The most bytes of the object of a message: with the 8 bytes before it, and the 8 of the message's prefix, it has at most
/// 2,147,483,640.
const MOST_BYTES: usize = 2_147_483_624;

/// A Schema table of a schema that is written.
pub fn lay_schema(alloc: Global, schema: &Schema, beside: &[IpcField]) -> Result<Laid, LayError>
    requires { is_writable schema.now ≡ true }
    ensures { Lays result (piece_of (objects.schema_object schema.now (ids_views beside.now))) }
{
    let fields = lay_fields(alloc, schema.fields.as_slice(), beside)?;
    let metadata = lay_pairs(alloc, &schema.metadata)?;
    let slots = [
        Slot::Short(0),
        Slot::Refers(&fields),
        optional(&metadata),
        Slot::Absent,
    ];
    lay_table(alloc, &slots)
}

/// A message of a schema.
fn lay_message(alloc: Global, schema: &Schema, beside: &[IpcField]) -> Result<Laid, LayError>
    requires { is_writable schema.now ≡ true }
    ensures { Lays result (piece_of (objects.schema_message schema.now (ids_views beside.now))) }
{
    let header = lay_schema(alloc, schema, beside)?;
    let slots = [
        Slot::Short(V5),
        Slot::Byte(SCHEMA_HEADER),
        Slot::Refers(&header),
        Slot::Long(0),
        Slot::Absent,
    ];
    lay_table(alloc, &slots)
}

/// The bytes of a message.
fn bytes_within(alloc: Global, root: &Laid) -> Answer<Vec<u8>>
    ensures { MatchResult result
        (λ v. (v.items ≡ layout.message_bytes (piece_view root.now)) × (length (piece_view root.now).bytes ≤ 2147483624))
        (λ e. IsEndRefusal e (length (piece_view root.now).bytes)) }
{
    if root.bytes.len() > MOST_BYTES {
        return Err(Error::Overflow);
    }
    Ok(message_bytes(alloc, root)?)
}

/// What could not be laid is too long, or found no memory.
fn refusal(error: LayError) -> Error
    ensures { IsRefusalOf error result }
{
    match error {
        LayError::Memory => Error::OutOfMemory,
        LayError::TooLong => Error::Overflow,
    }
}

/// Refuses a schema that is not written, and ids that do not fit it.
///
/// # Errors
/// - `NotYetImplemented`: a field of floating-point numbers stands in the schema.
/// - `InvalidArgumentError`: the schema is none that is written, or the ids are not those of its dictionaries.
pub fn refuse_unwritten(schema: &Schema, ipc_fields: &[IpcField]) -> Answer<()>
    ensures answer { MatchResult result (λ _. may_write schema.now (ids_views ipc_fields.now) ≡ true)
        (λ error. RefusesSchema error schema.now (ids_views ipc_fields.now)) }
    ensures writable { IfOk result (λ _. is_writable schema.now ≡ true) }
{
    if has_float(schema.fields.as_slice()) {
        return Err(Error::NotYetImplemented("fields of floating-point numbers"));
    }
    if !can_write(schema) {
        return Err(Error::InvalidArgumentError("a schema that is not written"));
    }
    if !ids_fit(schema.fields.as_slice(), ipc_fields) {
        return Err(Error::InvalidArgumentError("dictionary ids that do not fit the schema"));
    }
    Ok(())
}

/// The metadata of a schema's message, with the ids of its dictionaries beside its fields (Arrow IPC, "Schema message").
///
/// # Errors
/// - `NotYetImplemented`: a field of floating-point numbers stands in the schema.
/// - `InvalidArgumentError`: the schema is none that is written, or the ids are not those of its dictionaries.
/// - `Overflow`: with its prefix of 8 bytes the metadata would have more than 2,147,483,640 bytes.
/// - `OutOfMemory`: there was no memory for the metadata.
pub fn schema_to_bytes(alloc: Global, schema: &Schema, ipc_fields: &[IpcField]) -> Answer<Vec<u8>>
    ensures { WritesSchema result schema.now (ids_views ipc_fields.now) }
{
    refuse_unwritten(schema, ipc_fields)?;
    match lay_message(alloc, schema, ipc_fields) {
        Ok(root) => bytes_within(alloc, &root),
        Err(error) => Err(refusal(error)),
    }
}
