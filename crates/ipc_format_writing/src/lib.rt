//! Schemas written as metadata, and the ids of their dictionaries.
//!
//! What each function gives is a definition of the format (`ipc_format_grammar/specs`).
//!
//! Record batches, dictionary batches and footers as metadata (Message.fbs, File.fbs), in version V5.
//!
//! Their bytes are those of the format's objects, laid in one way (`ipc_format_flatbuffers/specs/Laying.antt`).
#![tactic(auto)]

mod batches;
mod beside;
mod fields;
mod fitting;
mod footers;
mod kinds;
mod normal;
mod numbering;
mod schemas;
mod structs;
mod tables;
mod written_pairs;

pub use batches::{dictionary_batch_to_bytes, record_batch_to_bytes};
pub use beside::{Beside, first_beside};
pub use fitting::{ids_fit, none_fit, type_fits};
pub use footers::footer_to_bytes;
pub use ipc_format_messages::{columnar_memory, flatbuffers};
pub use normal::normalised;
pub use numbering::default_ipc_fields;
pub use schemas::{lay_schema, refuse_unwritten, schema_to_bytes};
pub use written_pairs::Named;

/// What `ipc_format_messages` has, as far as packages above use it.
pub mod messages {
    pub use ipc_format_messages::{
        Block, BlocksRef, BodyCompressionRef, Buffer, BuffersRef, DateRef, DateUnit, DecimalRef,
        DictionaryBatchParts, DictionaryBatchRef, DictionaryEncodingRef, DictionaryKind,
        DurationRef, Endianness, Error, FieldNode, FieldNodesRef, FieldRef, FieldsRef,
        FixedSizeBinaryRef, FixedSizeListRef, FooterRef, IntRef, IntervalRef, KeyValueRef,
        KeyValuesRef, MapRef, MessageHeaderRef, MessageParts, MessageRef, MetadataVersion,
        NumbersRef, RecordBatchParts, RecordBatchRef, SchemaRef, TableRef, TablesRef, TimeRef,
        TimestampRef, TypeRef, UnionRef, as_memory_error, dictionary_batch_in, message_in,
        record_batch_in, version_in,
    };
}

/// What `ipc_format_messages::metadata` has, as far as packages above use it.
pub mod metadata {
    pub use ipc_format_messages::metadata::{
        IpcField, IpcSchema, MOST_LEVELS, OutOfSpecKind, Tag, any_schema_in, can_write,
        deserialize_schema, deserialize_schema_counted, mode_of, schema_in, schema_in_counted,
        sizes, slots, tag_numbers, tag_of, unit_in,
    };
}
