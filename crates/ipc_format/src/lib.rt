//! Arrow's IPC format: FlatBuffers as Arrow's metadata uses them, messages and schemas in metadata and as values, columns, batches and
//! dictionaries read and written, streams of messages, and the definitions of the format with their laws.
//!
//! Here stand files of batches that are written to a device or added to, and files in memory that are read whole (Arrow IPC, "IPC File Format").
#![tactic(auto)]

mod appending;
mod batches;
mod ends;
mod growing;
mod laws;
mod opening;
mod phases;
mod placing;
mod sending;
mod state;
mod whole_files;
mod writer;

pub use appending::append_file;
pub use ipc_format_readers::chunk_writing::{
    Chunk, Compression, Dictionaries, DictionaryTracker, Held, InMemory, ProjectionIter,
    ProjectionResult, Record, Room, StreamWriter, ValuesById, WriteOptions, apply_projection,
    choices_are_put_back, encode_batch, encode_chunk, encode_chunk_amortized, have_one_form,
    is_choice, is_projection, look_ups_are_enough, nested_arrays_core, prepare_projection,
    put_message, put_messages, read, read_children, read_dictionary, read_dictionary_with,
    read_fixed_size_list, read_large_list, read_list, read_map, read_record_batch,
    read_record_batch_counted, read_struct, read_union, rises, schemas_have_arrays, values_by_id,
    write,
};
pub use ipc_format_readers::streams::metadata::{
    IpcField, IpcSchema, OutOfSpecKind, can_write, deserialize_schema, deserialize_schema_counted,
    schema_in,
};
pub use ipc_format_readers::streams::owned::serialize_schema;
pub use ipc_format_readers::streams::owned::writing::{
    default_ipc_fields, dictionary_batch_to_bytes, footer_to_bytes, normalised,
    record_batch_to_bytes, schema_to_bytes,
};
pub use ipc_format_readers::streams::{
    Counting, EncodedData, Faults, Frame, Framed, NextMessage, StreamMetadata, columnar_memory,
    flatbuffers, next_at, outcome, put, read_stream_metadata, write_continuation, write_message,
};
pub use ipc_format_readers::{
    Entry, FileMetadata, FileReader, MessageBlock, StreamReader, StreamState, file_entries,
    files_are_read_by_blocks, read_batch, read_file_dictionaries, read_file_metadata, stream_start,
    streams_are_read_by_turns, tables_are_read_by_turns,
};
pub use whole_files::{FileBatches, metadata_of_file, read_file};
pub use writer::FileWriter;

/// Columns one by one: read at the fronts of queues of nodes and buffers (those of `format`), passed over there, and written behind what stands
/// in a body; and single buffers that are read. `read_dictionary` reads a column of keys here, and a dictionary batch outside.
pub mod columns {
    pub use ipc_format_readers::columns::{
        Body, Lengths, read_binary, read_bitmap, read_boolean, read_buffer, read_dictionary,
        read_fixed_size_binary, read_null, read_primitive, read_utf8, read_validity, skip,
        skip_binary, skip_boolean, skip_dictionary, skip_fixed_size_binary, skip_fixed_size_list,
        skip_list, skip_map, skip_null, skip_primitive, skip_struct, skip_union, skip_utf8,
        write_binary, write_boolean, write_primitive, write_struct, write_union, write_utf8,
    };
}

/// Arrow's metadata under the names of its FlatBuffers tables: views that borrow a message or a footer (`..Ref`), one call a slot, the values that
/// stand there, owned, and what makes these of views.
pub mod format {
    pub use ipc_format_readers::streams::messages::{
        Block, BlocksRef, BodyCompressionRef, Buffer, BuffersRef, DateRef, DateUnit, DecimalRef,
        DictionaryBatchParts, DictionaryBatchRef, DictionaryEncodingRef, DictionaryKind,
        DurationRef, Endianness, Error, FieldNode, FieldNodesRef, FieldRef, FieldsRef,
        FixedSizeBinaryRef, FixedSizeListRef, FooterRef, IntRef, IntervalRef, KeyValueRef,
        KeyValuesRef, MapRef, MessageHeaderRef, MessageParts, MessageRef, MetadataVersion,
        NumbersRef, RecordBatchParts, RecordBatchRef, SchemaRef, TableRef, TablesRef, TimeRef,
        TimestampRef, TypeRef, UnionRef, as_memory_error, dictionary_batch_in, message_in,
        record_batch_in, version_in,
    };
    pub use ipc_format_readers::streams::owned::{
        DictionaryBatch, DictionaryEncoding, Field, Footer, Int, KeyValue, Message, MessageHeader,
        RecordBatch, Schema, Type_, dictionary_batch_of, field_of, footer_of, key_value_of,
        message_header_of, message_of, record_batch_of, schema_of, type_of,
    };
}

/// Schemas in metadata: the ids of dictionaries beside fields, whole schemas and single types that are read, which schemas are written, and the
/// numbers of slots and of unions' members.
pub mod metadata {
    pub use ipc_format_readers::streams::metadata::{
        IpcField, IpcSchema, MOST_LEVELS, OutOfSpecKind, Tag, any_schema_in, can_write,
        deserialize_schema, deserialize_schema_counted, mode_of, schema_in, schema_in_counted,
        sizes, slots, tag_numbers, tag_of, unit_in,
    };
}

/// Theorems of the definitions, as functions that do nothing: what is written reads back, choices are those of the whole, seals tell tables apart.
pub mod reading_laws {
    pub use ipc_format_readers::reading_laws::{
        appended_files_read_back, choices_are_isolated, choices_are_of_the_whole,
        columns_have_parts, columns_read_at_fronts, grown_files_read_back,
        normal_columns_stay_whole, normalised_types_read_the_same_slots, seals_read_back,
        seals_tell_tables_apart, stated_ends_are_enough, stored_columns_read_back,
        stored_files_read_back, stored_streams_read_back,
    };
}

/// Messages one by one: those of a stream in memory or from a device, and those that are sent; queues of a batch's nodes and buffers; which values
/// the id of a dictionary names.
pub mod streams {
    pub use ipc_format_readers::streams::{
        BatchQueues, Counting, DictionaryValues, EncodedData, Faults, Frame, Framed, Incoming,
        NextMessage, StreamMetadata, batch_queues, deserialize_stream_metadata, dictionary_values,
        fill, next_at, next_message, outcome, put, read_outcome, read_stream_metadata,
        write_continuation, write_message,
    };
}
