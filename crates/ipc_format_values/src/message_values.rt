//! Messages and footers (Message.fbs, File.fbs).
ghost use Rattle.std.specs.Prelude.{◌≡◌, None};
ghost use Rattle.std.specs.Int.{w64, cast_unsigned};
ghost use Rattle.ipc_format_writing.specs.grammar.SchemaObjects as objects;
ghost use Rattle.ipc_format_values.specs.ValueObjects as values;

use crate::fields::{KeyValue, Schema};
use ipc_format_writing::columnar_memory::Items;
use ipc_format_writing::messages::{Block, Buffer, FieldNode, MetadataVersion};
use std::alloc::Global;

/// A record batch (Message.fbs, `RecordBatch`), which is not compressed.
#[derive(Debug, Drop)]
pub struct RecordBatch {
    /// How many rows it has.
    pub length: i64,
    /// A node of each column in pre-order.
    pub nodes: Items<FieldNode>,
    /// Where the buffers of the columns stand in the body.
    pub buffers: Items<Buffer>,
}

/// The values of a dictionary (Message.fbs, `DictionaryBatch`).
#[derive(Debug, Drop)]
pub struct DictionaryBatch {
    pub id: i64,
    pub data: RecordBatch,
    /// Whether the values are added to earlier ones of the id.
    pub is_delta: bool,
}

/// What a message carries (Message.fbs, union `MessageHeader`).
#[derive(Debug, Drop)]
pub enum MessageHeader {
    Schema(Schema),
    DictionaryBatch(DictionaryBatch),
    RecordBatch(RecordBatch),
}

/// A message's metadata (Message.fbs, `Message`). Without pairs its custom metadata is absent.
#[derive(Debug, Drop)]
pub struct Message {
    pub version: MetadataVersion,
    pub header: MessageHeader,
    /// How many bytes its body has.
    pub body_length: i64,
    pub custom_metadata: Items<KeyValue>,
}

/// A file's footer (File.fbs, `Footer`). Without pairs its custom metadata is absent.
#[derive(Debug, Drop)]
pub struct Footer {
    pub version: MetadataVersion,
    pub schema: Schema,
    pub dictionaries: Items<Block>,
    pub record_batches: Items<Block>,
    pub custom_metadata: Items<KeyValue>,
}

impl Message {
    /// The message of a header, with a body of so many bytes, in version V5 and without pairs. It takes no memory.
    pub fn new(alloc: Global, header: MessageHeader, body_length: i64) -> Self
        ensures { values.message_value result
            ≡ objects.message_object (values.header_tag header) (values.header_value header) (cast_unsigned w64 body_length) }
    {
        Message {
            version: MetadataVersion::V5,
            header,
            body_length,
            custom_metadata: Items::new(alloc),
        }
    }
}

impl Footer {
    /// The footer of a schema and of the places of messages, in version V5 and without pairs. It takes no memory.
    pub fn new(
        alloc: Global,
        schema: Schema,
        dictionaries: Items<Block>,
        record_batches: Items<Block>,
    ) -> Self
        ensures { values.footer_value result ≡ values.footer_with 4 (values.schema_value schema) dictionaries record_batches None }
    {
        Footer {
            version: MetadataVersion::V5,
            schema,
            dictionaries,
            record_batches,
            custom_metadata: Items::new(alloc),
        }
    }
}
