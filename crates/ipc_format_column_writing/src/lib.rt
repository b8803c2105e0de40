//! Chunks, which are arrays of one length, and columns as they are written into record batches (Arrow IPC, "RecordBatch message"), from arrays of
//! any type.
#![tactic(auto)]

mod chunk;
mod clones;
mod columns;
mod equality;
mod flats;
mod own;
mod parts;
mod serialize;
mod walks;

pub use chunk::Chunk;
pub use clones::CloneArray;
pub use ipc_format_column_reading::{columnar_memory, messages, metadata};
pub use nested_arrays_core;
pub use serialize::{Compression, write, write_struct, write_union};

/// What `ipc_format_column_reading` has, as far as packages above use it.
pub mod column_reading {
    pub use ipc_format_column_reading::{
        InMemory, Marked, Room, column_bytes, columnar_memory, messages, read_binary, read_bitmap,
        read_boolean, read_buffer, read_bytes, read_marked, read_offsets, read_primitive,
        read_utf8, read_validity, skip, skip_binary, skip_boolean, skip_dictionary,
        skip_fixed_size_binary, skip_fixed_size_list, skip_list, skip_map, skip_null,
        skip_primitive, skip_struct, skip_union, skip_utf8, slots_taken,
    };
}
