//! Columns read from record batches (Arrow IPC, "RecordBatch message"; Arrow columnar format, "Buffer Listing for Each Layout"): nodes and
//! buffers are queues, from whose fronts each column takes its own, and arrays are made of the buffers' bytes.
#![tactic(auto)]

mod binary;
mod boolean;
mod deserialize;
mod dictionary;
mod fixed_size_binary;
mod fixed_size_list;
mod list;
mod map;
mod marked;
mod null;
mod offsets;
mod primitive;
mod queues;
mod read_basic;
mod room;
mod strings;
mod struct_;
mod union;
mod utf8;

pub use binary::{read_binary, skip_binary};
pub use boolean::{read_boolean, skip_boolean};
pub use deserialize::skip;
pub use dictionary::skip_dictionary;
pub use fixed_size_binary::skip_fixed_size_binary;
pub use fixed_size_list::skip_fixed_size_list;
pub use ipc_format_column_bytes::{columnar_memory, messages, metadata};
pub use list::skip_list;
pub use map::skip_map;
pub use marked::{Marked, read_marked};
pub use null::skip_null;
pub use offsets::read_offsets;
pub use primitive::{read_primitive, skip_primitive};
pub use read_basic::{read_bitmap, read_buffer, read_bytes, read_validity, slots_taken};
pub use room::{InMemory, Room};
pub use struct_::skip_struct;
pub use union::skip_union;
pub use utf8::{read_utf8, skip_utf8};

/// What `ipc_format_column_bytes` has, as far as packages above use it.
pub mod column_bytes {
    pub use ipc_format_column_bytes::{
        Body, Lengths, Placed, columnar_memory, dictionary_metadata, offset_at, record_metadata,
        write_binary, write_boolean, write_primitive, write_utf8,
    };

    /// Of `messages`.
    pub mod messages {
        pub use ipc_format_column_bytes::messages::{Buffer, FieldNode};
    }

    /// Of `streams`.
    pub mod streams {
        pub use ipc_format_column_bytes::streams::{
            BatchQueues, Counting, DictionaryValues, EncodedData, Faults, Frame, Framed, Incoming,
            NextMessage, StreamMetadata, batch_queues, columnar_memory,
            deserialize_stream_metadata, dictionary_values, fill, flatbuffers, next_at,
            next_message, outcome, put, read_outcome, read_stream_metadata, write_continuation,
            write_message,
        };

        /// Of `messages`.
        pub mod messages {
            pub use ipc_format_column_bytes::streams::messages::{
                Block, BlocksRef, BodyCompressionRef, Buffer, BuffersRef, DateRef, DateUnit,
                DecimalRef, DictionaryBatchParts, DictionaryBatchRef, DictionaryEncodingRef,
                DictionaryKind, DurationRef, Endianness, Error, FieldNode, FieldNodesRef, FieldRef,
                FieldsRef, FixedSizeBinaryRef, FixedSizeListRef, FooterRef, IntRef, IntervalRef,
                KeyValueRef, KeyValuesRef, MapRef, MessageHeaderRef, MessageParts, MessageRef,
                MetadataVersion, NumbersRef, RecordBatchParts, RecordBatchRef, SchemaRef, TableRef,
                TablesRef, TimeRef, TimestampRef, TypeRef, UnionRef, as_memory_error,
                dictionary_batch_in, message_in, record_batch_in, version_in,
            };
        }

        /// Of `metadata`.
        pub mod metadata {
            pub use ipc_format_column_bytes::streams::metadata::{
                IpcField, IpcSchema, MOST_LEVELS, OutOfSpecKind, Tag, any_schema_in, can_write,
                deserialize_schema, deserialize_schema_counted, mode_of, schema_in,
                schema_in_counted, sizes, slots, tag_numbers, tag_of, unit_in,
            };
        }

        /// Of `owned`.
        pub mod owned {
            pub use ipc_format_column_bytes::streams::owned::{
                DictionaryBatch, DictionaryEncoding, Field, Footer, Int, KeyValue, Message,
                MessageHeader, RecordBatch, Schema, Type_, dictionary_batch_of, field_of,
                footer_of, key_value_of, message_header_of, message_of, record_batch_of, schema_of,
                serialize_schema, type_of,
            };

            /// Of `writing`.
            pub mod writing {
                pub use ipc_format_column_bytes::streams::owned::writing::{
                    default_ipc_fields, dictionary_batch_to_bytes, first_beside, footer_to_bytes,
                    ids_fit, none_fit, normalised, record_batch_to_bytes, schema_to_bytes,
                    type_fits,
                };
            }
        }
    }
}
