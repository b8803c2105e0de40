//! Arrow's IPC format for every type: which bytes say which schema, message, column, dictionary and table, and which bytes are written
//! of them.
//!
//! It has definitions for contracts, and no code.
#![tactic(auto)]

pub use ipc_format_flatbuffers as flatbuffers;
pub use nested_arrays_columns::columnar_memory;
