//! Builders of dictionaries, and items that are pushed to builders.
#![tactic(auto)]

mod dictionaries;
mod extends;
mod items;
mod keys;
mod numbers;
mod places;
mod strings;
mod texts;

pub use dictionaries::MutableDictionaryArray;
pub use extends::TryExtendFromSelf;
pub use items::{SlotIs, TryExtend, TryPush};
pub use nested_arrays_sized_builders::{
    MutValues, MutableFields, MutableFixedSizeBinaryArray, MutableFixedSizeListArray,
    MutableListArray, MutableNullArray, MutableStructArray, cells, flat_arrays, nulls,
};
