//! Builders of nulls alone, and of lists and of byte strings of one size.
#![tactic(auto)]

mod filled_marks;
mod fixed_lists;
mod nulls_alone;
mod sized_slots;
mod sized_strings;

pub use fixed_lists::MutableFixedSizeListArray;
pub use nested_arrays_generic_builders::{
    MutValues, MutableFields, MutableListArray, MutableStructArray, cells, flat_arrays, nulls,
};
pub use nulls_alone::MutableNullArray;
pub use sized_strings::{MutableFixedSizeBinaryArray, read_bytes};
