//! The values that Arrow's metadata stands for (Schema.fbs, Message.fbs, File.fbs), owned and under the names of its tables, and the value
//! of the schema that is written.
//!
//! What a value is, is the object of FlatBuffers that is laid for it (`specs/ValueObjects.antt`).
//!
//! The values that Arrow's metadata stands for, taken of its views (Schema.fbs, Message.fbs, File.fbs): owned, with all that stands below them.
//!
//! What a value is, is what the slots of its tables give (`specs/Owned.antt`, `specs/OwnedFields.antt`, `specs/OwnedMessages.antt`).
#![tactic(auto)]

mod fields;
mod message_values;
mod pairs;
mod serializing;
mod taken;
mod taken_batches;
mod taken_fields;
mod taken_messages;
mod taken_pairs;
mod taken_types;
mod told;
mod types;

pub use fields::{DictionaryEncoding, Field, Int, KeyValue, Schema};
pub use ipc_format_writing::{columnar_memory, flatbuffers};
pub use message_values::{DictionaryBatch, Footer, Message, MessageHeader, RecordBatch};
pub use serializing::serialize_schema;
pub use taken_batches::{dictionary_batch_of, record_batch_of};
pub use taken_fields::{field_of, schema_of, schema_of_counted};
pub use taken_messages::{footer_of, message_header_of, message_of};
pub use taken_pairs::{dictionary_encoding_of, int_of, key_value_of};
pub use taken_types::type_of;
pub use types::{Precision, Type_};

/// What `ipc_format_writing::messages` has, as far as packages above use it.
pub mod messages {
    pub use ipc_format_writing::messages::{
        Block, BlocksRef, BodyCompressionRef, Buffer, BuffersRef, DateRef, DateUnit, DecimalRef,
        DictionaryBatchParts, DictionaryBatchRef, DictionaryEncodingRef, DictionaryKind,
        DurationRef, Endianness, Error, FieldNode, FieldNodesRef, FieldRef, FieldsRef,
        FixedSizeBinaryRef, FixedSizeListRef, FooterRef, IntRef, IntervalRef, KeyValueRef,
        KeyValuesRef, MapRef, MessageHeaderRef, MessageParts, MessageRef, MetadataVersion,
        NumbersRef, RecordBatchParts, RecordBatchRef, SchemaRef, TableRef, TablesRef, TimeRef,
        TimestampRef, TypeRef, UnionRef, as_memory_error, dictionary_batch_in, message_in,
        record_batch_in, version_in,
    };
}

/// What `ipc_format_writing::metadata` has, as far as packages above use it.
pub mod metadata {
    pub use ipc_format_writing::metadata::{
        IpcField, IpcSchema, MOST_LEVELS, OutOfSpecKind, Tag, any_schema_in, can_write,
        deserialize_schema, deserialize_schema_counted, mode_of, schema_in, schema_in_counted,
        sizes, slots, tag_numbers, tag_of, unit_in,
    };
}

/// What `ipc_format_writing` has, as far as packages above use it.
pub mod writing {
    pub use ipc_format_writing::{
        default_ipc_fields, dictionary_batch_to_bytes, first_beside, footer_to_bytes, ids_fit,
        none_fit, normalised, record_batch_to_bytes, schema_to_bytes, type_fits,
    };
}
