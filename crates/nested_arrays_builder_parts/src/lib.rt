//! What builders of nested arrays are made of: validity marks that grow, cells, and builders of arrays without children.
#![tactic(auto)]

mod cells;
mod flat;
mod frozen;
mod marks;
mod new_values;
mod numbers;
mod parts;
mod strings;
mod values;

pub use cells::is_null;
pub use flat::FlatBuilder;
pub use marks::Marks;
pub use nested_arrays_core::arrays;
pub use nested_arrays_core::arrays::columnar_memory;
pub use nested_arrays_scalars::AnyScalar;
pub use numbers::{AnyNumber, NumberKind};
pub use parts::{CellPart, part_of};
pub use strings::Strings;
pub use values::{Values, ValuesNode};
