//! Columns of any type without columns below them, columns of dictionaries' keys, and what stands of a column with children before these, read
//! from the nodes and buffers of a record batch (Arrow IPC, "RecordBatch message", "Dictionary Messages"; Arrow columnar format, "Physical Memory
//! Layout"): nodes and buffers are queues, from whose fronts each column takes its own. Arrays are made of such parts and of their children.
#![tactic(auto)]

mod begun;
mod childless;
mod dictionaries;
mod fixed_size_binary;
mod flats;
mod keyed;
mod made;
mod null;
mod numbers;

pub use begun::{Beginning, Begun, begin, has_children, limit_below};
pub use childless::read_childless;
pub use dictionaries::Dictionaries;
pub use fixed_size_binary::read_fixed_size_binary;
pub use ipc_format_column_writing::column_reading::column_bytes::streams::owned::writing::{
    first_beside, normalised,
};
pub use ipc_format_column_writing::column_reading::column_bytes::streams::{
    EncodedData, batch_queues, dictionary_values,
};
pub use ipc_format_column_writing::column_reading::column_bytes::{
    Placed, dictionary_metadata, record_metadata,
};
pub use ipc_format_column_writing::column_reading::{InMemory, Room};
pub use ipc_format_column_writing::messages::{
    BodyCompressionRef, Buffer, DictionaryBatchRef, FieldNode, MessageHeaderRef, MetadataVersion,
    RecordBatchRef, dictionary_batch_in, message_in,
};
pub use ipc_format_column_writing::metadata::{IpcField, IpcSchema};
pub use ipc_format_column_writing::{
    Chunk, Compression, columnar_memory, nested_arrays_core, write,
};
pub use keyed::read_dictionary;
pub use made::array_of;
pub use null::read_null;

/// What `ipc_format_column_writing` has, as far as packages above use it.
pub mod column_writing {
    pub use ipc_format_column_writing::{column_reading, write_struct, write_union};
}

/// What `ipc_format_column_writing::column_reading::column_bytes::streams` has, as far as packages above use it.
pub mod streams {
    pub use ipc_format_column_writing::column_reading::column_bytes::streams::{
        BatchQueues, Counting, DictionaryValues, EncodedData, Faults, Frame, Framed, Incoming,
        NextMessage, StreamMetadata, batch_queues, columnar_memory, deserialize_stream_metadata,
        dictionary_values, fill, flatbuffers, next_at, next_message, outcome, put, read_outcome,
        read_stream_metadata, write_continuation, write_message,
    };

    /// Of `messages`.
    pub mod messages {
        pub use ipc_format_column_writing::column_reading::column_bytes::streams::messages::{
            Block, BlocksRef, BodyCompressionRef, Buffer, BuffersRef, DateRef, DateUnit,
            DecimalRef, DictionaryBatchParts, DictionaryBatchRef, DictionaryEncodingRef,
            DictionaryKind, DurationRef, Endianness, Error, FieldNode, FieldNodesRef, FieldRef,
            FieldsRef, FixedSizeBinaryRef, FixedSizeListRef, FooterRef, IntRef, IntervalRef,
            KeyValueRef, KeyValuesRef, MapRef, MessageHeaderRef, MessageParts, MessageRef,
            MetadataVersion, NumbersRef, RecordBatchParts, RecordBatchRef, SchemaRef, TableRef,
            TablesRef, TimeRef, TimestampRef, TypeRef, UnionRef, as_memory_error,
            dictionary_batch_in, message_in, record_batch_in, version_in,
        };
    }

    /// Of `metadata`.
    pub mod metadata {
        pub use ipc_format_column_writing::column_reading::column_bytes::streams::metadata::{
            IpcField, IpcSchema, MOST_LEVELS, OutOfSpecKind, Tag, any_schema_in, can_write,
            deserialize_schema, deserialize_schema_counted, mode_of, schema_in, schema_in_counted,
            sizes, slots, tag_numbers, tag_of, unit_in,
        };
    }

    /// Of `owned`.
    pub mod owned {
        pub use ipc_format_column_writing::column_reading::column_bytes::streams::owned::{
            DictionaryBatch, DictionaryEncoding, Field, Footer, Int, KeyValue, Message,
            MessageHeader, RecordBatch, Schema, Type_, dictionary_batch_of, field_of, footer_of,
            key_value_of, message_header_of, message_of, record_batch_of, schema_of,
            serialize_schema, type_of,
        };

        /// Of `writing`.
        pub mod writing {
            pub use ipc_format_column_writing::column_reading::column_bytes::streams::owned::writing::{
                default_ipc_fields, dictionary_batch_to_bytes, footer_to_bytes, ids_fit, none_fit,
                normalised, record_batch_to_bytes, schema_to_bytes, type_fits,
            };
        }
    }
}
