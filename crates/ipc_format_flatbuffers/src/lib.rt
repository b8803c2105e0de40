//! FlatBuffers as Arrow's metadata uses them: read by address, and laid object by object.
//!
//! The definitions are `specs/FlatBuffers.antt` and `specs/Laying.antt`; each function here gives what its definition gives.
#![tactic(auto)]

mod laying;
mod pieces;
mod places;
mod reading;

pub use laying::{
    LayError, MOST_BYTES, Slot, lay_elements, lay_references, lay_table, lay_text, message_bytes,
};
pub use pieces::Laid;
pub use places::{Table, Vector};
pub use reading::{
    element_at, field_at, i16_at, i16_field, i32_at, i32_field, i64_at, i64_field, reference_at,
    reference_field, root_of, string_at, string_field, table_at, table_field, truth_field, u8_at,
    u8_field, u16_at, u32_at, vector_at, vector_field, window,
};
