//! Messages and record batches read whole: what has to be there is (Arrow IPC, "Encapsulated message format" and "RecordBatch message").
//!
//! Each function gives `None` exactly where the bytes break a rule of the format there.
ghost use Rattle.std.specs.Prelude.{◌≡◌, IfSome};
ghost use Rattle.std.specs.Option.{option_map};
ghost use Rattle.ipc_format_metadata.specs.flatbuffers.Views.{table_of};
ghost use Rattle.ipc_format_metadata.specs.grammar.Messages as format;
ghost use Rattle.ipc_format_messages.specs.WholeMessages.{message_parts_view, batch_parts_view, dictionary_parts_view, StandsIn};
ghost use Rattle.ipc_format_messages.specs.MessageViews.{version_view};

use crate::batches::{DictionaryBatchRef, RecordBatchRef};
use crate::messages::{MessageHeaderRef, header_of};
use crate::tables::TableRef;
use crate::values::{MetadataVersion, version_of};
use crate::vectors::{BuffersRef, FieldNodesRef};
use ipc_format_metadata::flatbuffers::{
    i16_field, i64_field, root_of, table_field, truth_field, u8_field, vector_field,
};
use ipc_format_metadata::sizes::PAIR_SIZE;
use ipc_format_metadata::slots::{
    DICTIONARY_BATCH_DATA, DICTIONARY_BATCH_ID, DICTIONARY_BATCH_IS_DELTA, MESSAGE_BODY_LENGTH,
    MESSAGE_HEADER, MESSAGE_HEADER_TYPE, MESSAGE_VERSION, RECORD_BATCH_BUFFERS,
    RECORD_BATCH_COMPRESSION, RECORD_BATCH_NODES,
};

/// What a message carries, and how many bytes its body has.
#[derive(Clone, Copy, Debug)]
pub struct MessageParts<'a> {
    pub header: MessageHeaderRef<'a>,
    /// Of a schema 0, whatever its message states.
    pub body_length: i64,
}

/// The nodes and buffers of a record batch, and whether its buffers are compressed.
#[derive(Clone, Copy, Debug)]
pub struct RecordBatchParts<'a> {
    pub nodes: FieldNodesRef<'a>,
    pub buffers: BuffersRef<'a>,
    pub is_compressed: bool,
}

/// A dictionary's id, its values as a record batch, and whether they are added to those before.
#[derive(Clone, Copy, Debug)]
pub struct DictionaryBatchParts<'a> {
    pub id: i64,
    pub values: RecordBatchRef<'a>,
    pub is_delta: bool,
}

/// The message of some metadata. A header of another kind than a schema or a batch is refused. A schema has no body, and what its message
/// states of one is not looked at.
#[tactic(auto, unfolding(crate::proofs::Passed::message_in))]
pub fn message_in(bytes: &[u8]) -> Option<MessageParts<'_>>
    ensures value { option_map message_parts_view result ≡ format.message_in bytes.now }
    ensures stands { IfSome result (StandsIn bytes.now) }
{
    let root = root_of(bytes)?;
    let kind = u8_field(bytes, &root, MESSAGE_HEADER_TYPE, 0)?;
    let place = table_field(bytes, &root, MESSAGE_HEADER)??;
    let header = header_of(kind, TableRef { bytes, place })?;
    let body_length = match header {
        MessageHeaderRef::Schema(_) => 0,
        MessageHeaderRef::DictionaryBatch(_) | MessageHeaderRef::RecordBatch(_) => {
            i64_field(bytes, &root, MESSAGE_BODY_LENGTH, 0)?
        }
    };
    Some(MessageParts {
        header,
        body_length,
    })
}

/// The version that a message's metadata states.
#[tactic(auto, unfolding(crate::proofs::Passed::version_in))]
pub fn version_in(bytes: &[u8]) -> Option<MetadataVersion>
    ensures { option_map version_view result ≡ format.version_in bytes.now }
{
    let root = root_of(bytes)?;
    let number = i16_field(bytes, &root, MESSAGE_VERSION, 0)?;
    version_of(number)
}

/// The parts of a record batch. Its vectors of nodes and buffers must both be there.
#[tactic(auto, unfolding(crate::proofs::Passed::record_batch_in))]
pub fn record_batch_in<'a>(batch: &RecordBatchRef<'a>) -> Option<RecordBatchParts<'a>>
    ensures value { option_map batch_parts_view result ≡ format.record_batch_in batch.now.table.bytes.now (table_of batch.now.table.place) }
    ensures nodes { IfSome result (λ parts. parts.nodes.bytes.now ≡ batch.now.table.bytes.now) }
    ensures buffers { IfSome result (λ parts. parts.buffers.bytes.now ≡ batch.now.table.bytes.now) }
{
    let bytes = batch.table.bytes;
    let nodes = vector_field(bytes, &batch.table.place, RECORD_BATCH_NODES, PAIR_SIZE)??;
    let buffers = vector_field(bytes, &batch.table.place, RECORD_BATCH_BUFFERS, PAIR_SIZE)??;
    let is_compressed = table_field(bytes, &batch.table.place, RECORD_BATCH_COMPRESSION)?.is_some();
    Some(RecordBatchParts {
        nodes: FieldNodesRef {
            bytes,
            vector: nodes,
        },
        buffers: BuffersRef {
            bytes,
            vector: buffers,
        },
        is_compressed,
    })
}

/// The parts of a dictionary batch. Its values must be there.
#[tactic(auto, unfolding(crate::proofs::Passed::dictionary_batch_in))]
pub fn dictionary_batch_in<'a>(batch: &DictionaryBatchRef<'a>) -> Option<DictionaryBatchParts<'a>>
    ensures value { option_map dictionary_parts_view result
        ≡ format.dictionary_batch_in batch.now.table.bytes.now (table_of batch.now.table.place) }
    ensures values { IfSome result (λ parts. parts.values.table.bytes.now ≡ batch.now.table.bytes.now) }
{
    let bytes = batch.table.bytes;
    let id = i64_field(bytes, &batch.table.place, DICTIONARY_BATCH_ID, 0)?;
    let place = table_field(bytes, &batch.table.place, DICTIONARY_BATCH_DATA)??;
    let is_delta = truth_field(bytes, &batch.table.place, DICTIONARY_BATCH_IS_DELTA)?;
    let values = RecordBatchRef {
        table: TableRef { bytes, place },
    };
    Some(DictionaryBatchParts {
        id,
        values,
        is_delta,
    })
}
