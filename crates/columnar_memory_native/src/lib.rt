//! The values of one width that columnar memory stores, and their bytes; the integers that number items and say where they begin, and counts
//! of steps.
#![tactic(auto)]

mod arrays;
mod index;
mod integers;
mod intervals;
mod laws;
mod native_integers;
mod native_type;
mod offset;
mod range;
mod steps;
mod wide;

pub use columnar_memory_types as types;
pub use index::Index;
pub use intervals::{days_ms, months_days_ns};
pub use laws::{be_bytes_of_their_value, le_bytes_of_their_value};
pub use native_type::NativeType;
pub use offset::Offset;
pub use range::IndexRange;
pub use steps::Steps;
pub use wide::i256;
