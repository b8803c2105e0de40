//! Messages, batches and footers in their metadata (Message.fbs, File.fbs, Schema.fbs), by address, in views that take no memory.
//!
//! A view has one call a slot, which looks at that slot alone. Where the bytes break a rule of the format there, the call answers
//! `Error`.
#![tactic(auto)]

mod batches;
mod error;
mod fields;
mod footer;
mod messages;
mod numbers;
mod reading;
mod schemas;
mod structs;
mod tables;
mod types;
mod values;
mod vectors;

pub use batches::{BodyCompressionRef, DictionaryBatchRef, RecordBatchRef};
pub use error::as_memory_error;
pub use fields::{DictionaryEncodingRef, DictionaryKind, FieldRef, IntRef, KeyValueRef};
pub use footer::FooterRef;
pub use ipc_format_metadata::{Error, columnar_memory, flatbuffers};
pub use messages::{MessageHeaderRef, MessageRef};
pub use reading::{
    DictionaryBatchParts, MessageParts, RecordBatchParts, dictionary_batch_in, message_in,
    record_batch_in, version_in,
};
pub use schemas::{Endianness, FieldsRef, KeyValuesRef, SchemaRef};
pub use tables::TableRef;
pub use types::{
    DateRef, DateUnit, DecimalRef, DurationRef, FixedSizeBinaryRef, FixedSizeListRef, IntervalRef,
    MapRef, TimeRef, TimestampRef, TypeRef, UnionRef,
};
pub use values::{Block, Buffer, FieldNode, MetadataVersion};
pub use vectors::{BlocksRef, BuffersRef, FieldNodesRef, NumbersRef, TablesRef};

/// What `ipc_format_metadata` has, as far as packages above use it.
pub mod metadata {
    pub use ipc_format_metadata::{
        IpcField, IpcSchema, MOST_LEVELS, OutOfSpecKind, Tag, any_schema_in, can_write,
        deserialize_schema, deserialize_schema_counted, mode_of, schema_in, schema_in_counted,
        sizes, slots, tag_numbers, tag_of, unit_in,
    };
}
