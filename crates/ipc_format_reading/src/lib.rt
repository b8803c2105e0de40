//! Columns of any type read from the nodes and buffers of a record batch, with the columns below them (Arrow IPC, "RecordBatch message",
//! "Dictionary Messages").
#![tactic(auto)]

mod columns;
mod deserialize;
mod typed;

pub use columns::read_children;
pub use deserialize::read;
pub use ipc_format_array_reading::{
    BodyCompressionRef, Buffer, Chunk, Compression, Dictionaries, DictionaryBatchRef, EncodedData,
    FieldNode, InMemory, IpcField, IpcSchema, MessageHeaderRef, MetadataVersion, Placed,
    RecordBatchRef, Room, batch_queues, columnar_memory, dictionary_batch_in, dictionary_metadata,
    dictionary_values, first_beside, message_in, nested_arrays_core, normalised, record_metadata,
    streams, write,
};
pub use typed::{
    read_fixed_size_list, read_large_list, read_list, read_map, read_struct, read_union,
};

/// What `ipc_format_array_reading` has, as far as packages above use it.
pub mod array_reading {
    pub use ipc_format_array_reading::{
        column_writing, read_dictionary, read_fixed_size_binary, read_null,
    };
}
