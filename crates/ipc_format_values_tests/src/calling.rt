//! A caller of `ipc_format_values`, as the page CALLING.md of that crate has it.
ghost use Rattle.std.specs.Prelude.{◌≡◌, IfOk};
ghost use Rattle.ipc_format.specs.grammar.SchemaObjects.{schema_message};
ghost use Rattle.ipc_format.specs.metadata.Views.{ids_views};
ghost use Rattle.ipc_format.specs.values.ValueObjects.{message_value};

use columnar_memory_types::{Result, Schema};
use ipc_format::format::{Message, MessageHeader};
use ipc_format::metadata::IpcField;
use ipc_format::serialize_schema;
use std::alloc::Global;

/// The message of a schema.
pub fn message_of(alloc: Global, schema: &Schema, ids: &[IpcField]) -> Result<Message>
    ensures { IfOk result (λ message. message_value message ≡ schema_message schema.now (ids_views ids.now)) }
{
    let value = serialize_schema(alloc, schema, ids)?;
    Ok(Message::new(alloc, MessageHeader::Schema(value), 0))
}
