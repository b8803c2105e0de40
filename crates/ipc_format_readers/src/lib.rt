//! The record batches of a stream, one after another (Arrow IPC, "IPC Streaming Format"): `StreamReader` reads messages of any device as their bytes
//! come, keeps the dictionaries that stand, and gives each batch as a chunk of arrays. And those of a file, in memory or on a device (Arrow IPC, "IPC
//! File Format"): `FileReader` gives them one after another, `read_batch` the one at a place.
#![tactic(auto)]

mod asking;
mod block_messages;
mod blocks;
mod clones;
mod entries;
mod file_batches;
mod file_metadata;
mod file_reader;
mod footer;
mod laws;
mod message;
mod reader;
mod start;
mod state;
mod turns;

pub use blocks::MessageBlock;
pub use entries::{Entry, file_entries};
pub use file_batches::{read_batch, read_file_dictionaries};
pub use file_metadata::FileMetadata;
pub use file_reader::FileReader;
pub use footer::read_file_metadata;
pub use ipc_format_chunk_writing::{reading_laws, streams};
pub use laws::{files_are_read_by_blocks, streams_are_read_by_turns, tables_are_read_by_turns};
pub use reader::StreamReader;
pub use start::stream_start;
pub use state::StreamState;

/// Columns of batches, each read, passed over or written by itself.
pub mod columns {
    pub use ipc_format_chunk_writing::array_reading::column_writing::column_reading::column_bytes::{
        Body, Lengths, write_binary, write_boolean, write_primitive, write_utf8,
    };
    pub use ipc_format_chunk_writing::array_reading::column_writing::column_reading::{
        read_binary, read_bitmap, read_boolean, read_buffer, read_primitive, read_utf8,
        read_validity, skip, skip_binary, skip_boolean, skip_dictionary, skip_fixed_size_binary,
        skip_fixed_size_list, skip_list, skip_map, skip_null, skip_primitive, skip_struct,
        skip_union, skip_utf8,
    };
    pub use ipc_format_chunk_writing::array_reading::column_writing::{write_struct, write_union};
    pub use ipc_format_chunk_writing::array_reading::{
        read_dictionary, read_fixed_size_binary, read_null,
    };
}

/// What `ipc_format_chunk_writing` has, as far as packages above use it.
pub mod chunk_writing {
    pub use ipc_format_chunk_writing::{
        Chunk, Compression, Dictionaries, DictionaryTracker, Held, InMemory, ProjectionIter,
        ProjectionResult, Record, Room, StreamWriter, ValuesById, WriteOptions, all_are_ids,
        apply_projection, choices_are_put_back, encode, encode_batch, encode_chunk,
        encode_chunk_amortized, fields_or, have_one_form, ids_or_default, is_choice, is_projection,
        look_ups_are_enough, nested_arrays_core, prepare_projection, put_message, put_messages,
        read, read_children, read_dictionary, read_dictionary_with, read_fixed_size_list,
        read_large_list, read_list, read_map, read_record_batch, read_record_batch_counted,
        read_struct, read_union, rises, schemas_have_arrays, send, values_by_id, write,
    };
}
