//! Cells of any type by themselves.
#![tactic(auto)]

mod scalars;

pub use scalars::AnyScalar;
