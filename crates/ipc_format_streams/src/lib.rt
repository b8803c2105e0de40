//! Arrow's streams: messages one after another (Arrow IPC, "Encapsulated message format" and "IPC Streaming Format"), read at their places or
//! as their bytes arrive, and written; what a stream says before its batches; and what the metadata of a batch says before a column is read
//! (Arrow IPC, "RecordBatch message" and "Dictionary Messages"): its nodes and buffers as queues, and which values the id of a dictionary names.
#![tactic(auto)]

mod arriving;
mod encoded;
mod faults;
mod frames;
mod framing;
mod incoming;
mod output;
mod queues;
mod stream_metadata;
mod values;

pub use arriving::fill;
pub use encoded::{EncodedData, write_continuation, write_message};
pub use faults::{Counting, Faults};
pub use frames::{Frame, Framed, NextMessage};
pub use framing::next_at;
pub use incoming::{Incoming, next_message};
pub use ipc_format_values::{columnar_memory, flatbuffers};
pub use output::{outcome, put};
pub use queues::{BatchQueues, batch_queues};
pub use stream_metadata::{
    StreamMetadata, deserialize_stream_metadata, read_outcome, read_stream_metadata,
};
pub use values::{DictionaryValues, dictionary_values};

/// What `ipc_format_values::messages` has, as far as packages above use it.
pub mod messages {
    pub use ipc_format_values::messages::{
        Block, BlocksRef, BodyCompressionRef, Buffer, BuffersRef, DateRef, DateUnit, DecimalRef,
        DictionaryBatchParts, DictionaryBatchRef, DictionaryEncodingRef, DictionaryKind,
        DurationRef, Endianness, Error, FieldNode, FieldNodesRef, FieldRef, FieldsRef,
        FixedSizeBinaryRef, FixedSizeListRef, FooterRef, IntRef, IntervalRef, KeyValueRef,
        KeyValuesRef, MapRef, MessageHeaderRef, MessageParts, MessageRef, MetadataVersion,
        NumbersRef, RecordBatchParts, RecordBatchRef, SchemaRef, TableRef, TablesRef, TimeRef,
        TimestampRef, TypeRef, UnionRef, as_memory_error, dictionary_batch_in, message_in,
        record_batch_in, version_in,
    };
}

/// What `ipc_format_values::metadata` has, as far as packages above use it.
pub mod metadata {
    pub use ipc_format_values::metadata::{
        IpcField, IpcSchema, MOST_LEVELS, OutOfSpecKind, Tag, any_schema_in, can_write,
        deserialize_schema, deserialize_schema_counted, mode_of, schema_in, schema_in_counted,
        sizes, slots, tag_numbers, tag_of, unit_in,
    };
}

/// What `ipc_format_values` has, as far as packages above use it.
pub mod owned {
    pub use ipc_format_values::{
        DictionaryBatch, DictionaryEncoding, Field, Footer, Int, KeyValue, Message, MessageHeader,
        RecordBatch, Schema, Type_, dictionary_batch_of, field_of, footer_of, key_value_of,
        message_header_of, message_of, record_batch_of, schema_of, serialize_schema, type_of,
    };

    /// Of `writing`.
    pub mod writing {
        pub use ipc_format_values::writing::{
            default_ipc_fields, dictionary_batch_to_bytes, first_beside, footer_to_bytes, ids_fit,
            none_fit, normalised, record_batch_to_bytes, schema_to_bytes, type_fits,
        };
    }
}
