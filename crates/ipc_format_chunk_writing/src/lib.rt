//! Batches of arrays as the messages of a stream or a file: the dictionaries that go before a batch, and the batch (Arrow IPC, "RecordBatch
//! message", "Dictionary Messages"); and streams of them, written to a device (Arrow IPC, "IPC Streaming Format").
#![tactic(auto)]

mod chunk;
mod fitting;
mod found;
mod held;
mod laws;
mod messages;
mod opening;
mod options;
mod phases;
mod record;
mod sending;
mod short;
mod signed;
mod state;
mod telling;
mod tracker;
mod types;
mod writer;

pub use chunk::{encode_batch, encode_chunk, encode_chunk_amortized};
pub use held::Held;
pub use ipc_format_batch_reading::streams::owned::writing::ids_fit;
pub use ipc_format_batch_reading::{
    BodyCompressionRef, Buffer, Chunk, Compression, Dictionaries, DictionaryBatchRef, EncodedData,
    FieldNode, InMemory, IpcField, IpcSchema, MessageHeaderRef, MetadataVersion, Placed,
    ProjectionIter, ProjectionResult, RecordBatchRef, Room, ValuesById, apply_projection,
    array_reading, batch_queues, choices_are_put_back, columnar_memory, dictionary_batch_in,
    dictionary_metadata, dictionary_values, first_beside, is_choice, is_projection,
    look_ups_are_enough, message_in, nested_arrays_core, normalised, prepare_projection, read,
    read_children, read_dictionary, read_dictionary_with, read_fixed_size_list, read_large_list,
    read_list, read_map, read_record_batch, read_record_batch_counted, read_struct, read_union,
    record_metadata, rises, schemas_have_arrays, streams, values_by_id, write,
};
pub use opening::{all_are_ids, encode, ids_or_default};
pub use options::WriteOptions;
pub use record::Record;
pub use sending::{put_message, put_messages, send};
pub use tracker::DictionaryTracker;
pub use types::have_one_form;
pub use writer::{StreamWriter, fields_or};

/// What `ipc_format_reading_laws` has, as far as packages above use it.
pub mod reading_laws {
    pub use ipc_format_reading_laws::{
        appended_files_read_back, choices_are_isolated, choices_are_of_the_whole,
        columns_have_parts, columns_read_at_fronts, grown_files_read_back,
        normal_columns_stay_whole, normalised_types_read_the_same_slots, seals_read_back,
        seals_tell_tables_apart, stated_ends_are_enough, stored_columns_read_back,
        stored_files_read_back, stored_streams_read_back,
    };
}
