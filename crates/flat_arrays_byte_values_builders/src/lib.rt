//! Builders of arrays of byte strings and of texts none of which is null, and what every builder of values of any length holds: values
//! pushed one behind another, with validity marks where one is null (Arrow columnar format, "Variable-size Binary Layout").
#![tactic(auto)]

mod access;
mod binary_values;
mod binary_values_extend;
mod builder;
mod builder_join;
mod builder_slots;
mod iterate;
mod laws;
mod utf8_values;
mod utf8_values_extend;

pub use binary_values::{MutableBinaryValuesArray, MutableBinaryValuesIter};
pub use builder::{ByteBuilder, Parts, binary_layout_of, text_layout_of};
pub use flat_arrays_bytes as bytes;
pub use flat_arrays_bytes::{columnar_memory, values};
pub use laws::{a_push_adds_one_slot, joined_slots_stand_behind_the_others};
pub use utf8_values::{MutableUtf8ValuesArray, MutableUtf8ValuesIter};
