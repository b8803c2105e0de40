//! Arrays of what builders of any type hold.
#![tactic(auto)]

mod byte_builders;
mod flat_builders;
mod frozen;
mod keys;
mod mutable_array;
mod taken;

pub use frozen::into_array;
pub use mutable_array::MutableArray;
pub use nested_arrays_builders::{arrays, flat_arrays, parts};

/// What `nested_arrays_builders` has, as far as packages above use it.
pub mod builders {
    pub use nested_arrays_builders::{AnyMutableArray, is_cell_of, values};
}
