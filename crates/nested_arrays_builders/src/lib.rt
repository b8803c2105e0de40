//! Builders of arrays of any type.
#![tactic(auto)]

mod any;
mod children;
mod fitting;
mod inside;
mod keyed;
mod lists;
mod new;
mod offsets;
mod records;
mod room;

pub use any::{AnyMutableArray, Head, MutableChildren, MutableNode};
pub use fitting::is_cell_of;
pub use nested_arrays_builder_values::{arrays, columnar_memory, flat_arrays, parts};
pub use offsets::MutableListOffsets;

/// What `nested_arrays_builder_values` has, as far as packages above use it.
pub mod values {
    pub use nested_arrays_builder_values::{
        MutableKeys, Places, SlotUses, add_use, frozen_mask, hash_of_bytes, most_values_of,
        push_null_to_strings, push_null_to_texts, rebase_strings, rebase_texts, take_binary_array,
        take_text_array,
    };
}
