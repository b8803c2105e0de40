//! Schemas of every type from the metadata of Arrow's messages, by FlatBuffers address: what the definitions of `ipc_format_grammar` give.
#![tactic(auto)]

mod error;
mod ipc_schema;
mod layers;
mod messages;
mod out_of_spec;
mod pairs;
mod schemas;
pub mod sizes;
pub mod slots;
pub mod tag_numbers;
mod tags;
mod types;
mod writable;

pub use error::Error;
pub use ipc_format_grammar::{columnar_memory, flatbuffers};
pub use ipc_schema::{IpcField, IpcSchema};
pub use messages::{
    MOST_LEVELS, any_schema_in, deserialize_schema, deserialize_schema_counted, schema_in,
    schema_in_counted,
};
pub use out_of_spec::OutOfSpecKind;
pub use tags::{Tag, tag_of};
pub use types::{mode_of, unit_in};
pub use writable::can_write;
