//! Builders of nested arrays over builders of any kind.
#![tactic(auto)]

mod fields;
mod lending;
mod lengths;
mod lists;
mod structs;

pub use fields::MutableFields;
pub use lending::MutValues;
pub use lists::{MutableListArray, join_marks, marks_of};
pub use nested_arrays_cells::flat_arrays;
pub use structs::MutableStructArray;

/// What `nested_arrays_cells` has, as far as packages above use it.
pub mod cells {
    pub use nested_arrays_cells::{TryPushFrom, builders, cell_at, parts, taken};
}

/// What `nested_arrays_nulls` has, as far as packages above use it.
pub mod nulls {
    pub use nested_arrays_nulls::{
        Downcast, NullArrays, access, arrays, columnar_memory, columns, flat, flat_arrays, generic,
        iterators, new_empty_array, new_null_array, parts,
    };
}
