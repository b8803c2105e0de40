//! The buffers of columns as they are written (Arrow columnar format, "Physical Memory Layout"; Arrow IPC, "RecordBatch message"): their bytes,
//! where each stands in its body, and the columns of flat arrays. The metadata of the messages of batches and of dictionaries whose columns
//! stand in a body (Arrow IPC, "RecordBatch message", "Dictionary Messages").
#![tactic(auto)]

mod bitmaps;
mod body;
mod flats;
mod numbers;
mod offsets;
mod placed;
mod reserved;

pub use bitmaps::append_bitmap;
pub use body::{Body, Lengths};
pub use flat_arrays_core as flat_arrays;
pub use flats::{write_binary, write_boolean, write_primitive, write_utf8};
pub use ipc_format_streams::columnar_memory;
pub use numbers::append_numbers;
pub use offsets::{append_offsets, offset_at};
pub use placed::{Placed, dictionary_metadata, record_metadata};

/// What `ipc_format_streams::messages` has, as far as packages above use it.
pub mod messages {
    pub use ipc_format_streams::messages::{
        BodyCompressionRef, Buffer, DictionaryBatchRef, FieldNode, MessageHeaderRef,
        MetadataVersion, RecordBatchRef, dictionary_batch_in, message_in,
    };
}

/// What `ipc_format_streams::metadata` has, as far as packages above use it.
pub mod metadata {
    pub use ipc_format_streams::metadata::{IpcField, IpcSchema};
}

/// What `ipc_format_streams` has, as far as packages above use it.
pub mod streams {
    pub use ipc_format_streams::{
        BatchQueues, Counting, DictionaryValues, EncodedData, Faults, Frame, Framed, Incoming,
        NextMessage, StreamMetadata, batch_queues, columnar_memory, deserialize_stream_metadata,
        dictionary_values, fill, flatbuffers, next_at, next_message, outcome, put, read_outcome,
        read_stream_metadata, write_continuation, write_message,
    };

    /// Of `messages`.
    pub mod messages {
        pub use ipc_format_streams::messages::{
            Block, BlocksRef, BodyCompressionRef, Buffer, BuffersRef, DateRef, DateUnit,
            DecimalRef, DictionaryBatchParts, DictionaryBatchRef, DictionaryEncodingRef,
            DictionaryKind, DurationRef, Endianness, Error, FieldNode, FieldNodesRef, FieldRef,
            FieldsRef, FixedSizeBinaryRef, FixedSizeListRef, FooterRef, IntRef, IntervalRef,
            KeyValueRef, KeyValuesRef, MapRef, MessageHeaderRef, MessageParts, MessageRef,
            MetadataVersion, NumbersRef, RecordBatchParts, RecordBatchRef, SchemaRef, TableRef,
            TablesRef, TimeRef, TimestampRef, TypeRef, UnionRef, as_memory_error,
            dictionary_batch_in, message_in, record_batch_in, version_in,
        };
    }

    /// Of `metadata`.
    pub mod metadata {
        pub use ipc_format_streams::metadata::{
            IpcField, IpcSchema, MOST_LEVELS, OutOfSpecKind, Tag, any_schema_in, can_write,
            deserialize_schema, deserialize_schema_counted, mode_of, schema_in, schema_in_counted,
            sizes, slots, tag_numbers, tag_of, unit_in,
        };
    }

    /// Of `owned`.
    pub mod owned {
        pub use ipc_format_streams::owned::{
            DictionaryBatch, DictionaryEncoding, Field, Footer, Int, KeyValue, Message,
            MessageHeader, RecordBatch, Schema, Type_, dictionary_batch_of, field_of, footer_of,
            key_value_of, message_header_of, message_of, record_batch_of, schema_of,
            serialize_schema, type_of,
        };

        /// Of `writing`.
        pub mod writing {
            pub use ipc_format_streams::owned::writing::{
                default_ipc_fields, dictionary_batch_to_bytes, first_beside, footer_to_bytes,
                ids_fit, none_fit, normalised, record_batch_to_bytes, schema_to_bytes, type_fits,
            };
        }
    }
}
