//! Cells and the builder of any type, under one name, for layers that make columns of rows: the builder takes cells, and the slots
//! of arrays as cells. `nested_arrays_core` has the arrays, `nested_arrays` the builders of a type each too.
//!
//! Here stand cells of the slots of arrays of any type, and what lets builders take them.
#![tactic(auto)]

mod cells;
mod flats;
mod inside;
mod numbers;
mod pushes;

pub use cells::cell_at;
pub use nested_arrays_builder_arrays::builders::{AnyMutableArray, is_cell_of};
pub use nested_arrays_builder_arrays::parts::{AnyScalar, Marks};
pub use nested_arrays_builder_arrays::{MutableArray, builders, flat_arrays, parts};
pub use pushes::TryPushFrom;

/// What `nested_arrays_builder_arrays` has, as far as packages above use it.
pub mod taken {
    pub use nested_arrays_builder_arrays::MutableArray;
}
