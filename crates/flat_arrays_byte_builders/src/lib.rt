//! Builders of arrays of byte strings and of texts any of which may be null: values of any length, pushed one behind another, with validity
//! marks (Arrow columnar format, "Variable-size Binary Layout").
#![tactic(auto)]

mod access;
mod binary;
mod binary_extend;
mod equality;
mod from_values;
mod into_mut;
mod iterate;
mod utf8;
mod utf8_extend;

pub use binary::MutableBinaryArray;
pub use flat_arrays_byte_values_builders as byte_values_builders;
pub use flat_arrays_byte_values_builders::{bytes, columnar_memory, values};
pub use utf8::MutableUtf8Array;
