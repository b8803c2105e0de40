//! Builders of flat arrays whose values have one width: a data type, values, and a mask that is made with the first null.
//!
//! To a contract a builder is what its array is, a data type, the list of its stored values and its mask (`Flat`).
#![tactic(auto)]

mod boolean;
mod boolean_extend;
mod boolean_from;
mod boolean_set;
mod equality;
mod iterate;
mod names;
mod primitive;
mod primitive_extend;
mod primitive_from;
mod primitive_set;

pub use boolean::MutableBooleanArray;
pub use flat_arrays_values as values;
pub use flat_arrays_values::columnar_memory;
pub use names::{
    DaysMsVec, Int8Vec, Int16Vec, Int32Vec, Int64Vec, Int128Vec, Int256Vec, MonthsDaysNsVec,
    UInt8Vec, UInt16Vec, UInt32Vec, UInt64Vec,
};
pub use primitive::MutablePrimitiveArray;
