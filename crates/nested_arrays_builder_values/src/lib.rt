//! What a dictionary that grows is made of: its values as cells, which are copied, told apart and found by their hashes, and what its slots
//! need of them; and what builders of byte strings and of texts are to builders of any type.
#![tactic(auto)]

mod byte_builders;
mod cells;
mod chains;
mod hashes;
mod keys;
mod places;
mod uses;
mod values;

pub use byte_builders::{
    frozen_mask, push_null_to_strings, push_null_to_texts, rebase_strings, rebase_texts,
    take_binary_array, take_text_array,
};
pub use cells::{copy_of_cell, same_cell};
pub use flat_arrays;
pub use hashes::{hash_of, hash_of_bytes};
pub use keys::{MutableKeys, add_use, learn, most_values_of, needed};
pub use nested_arrays_builder_parts::{arrays, columnar_memory};
pub use places::Places;
pub use uses::SlotUses;
pub use values::CellMap;

/// What `nested_arrays_builder_parts` has, as far as packages above use it.
pub mod parts {
    pub use nested_arrays_builder_parts::{
        AnyNumber, AnyScalar, CellPart, FlatBuilder, Marks, Strings, arrays, columnar_memory,
        is_null, part_of,
    };
}
