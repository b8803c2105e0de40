//! Arrays of numbers and booleans, and what every flat array and builder stands on: values read by their places, walks over them from both
//! ends, and the masks of arrays and of builders.
//!
//! To a contract an array is its data type, the list of its stored values and its mask (`Flat`), and its slots are the values whose marks are
//! true. A builder's mask is none before the first null, then a mark for each value; `specs/Growth.antt` says how a list and its mask grow.
#![tactic(auto)]

mod accessor;
mod boolean;
mod boolean_from;
mod builders;
mod clones;
mod equality;
mod growth_laws;
mod indexes;
mod iterate;
mod laws;
pub mod marks;
mod masks;
mod names;
mod primitive;
mod primitive_from;
mod walk_laws;

pub use accessor::{ArrayAccessor, ArrayValuesIter};
pub use boolean::BooleanArray;
pub use builders::IntoMut;
pub use columnar_memory_core as columnar_memory;
pub use growth_laws::{a_grown_list_has_the_slots_of_both, added_slots_come_behind_the_others};
pub use indexes::check_indexes;
pub use laws::{
    a_cut_has_a_range_of_the_slots, a_cut_of_a_cut_is_one_cut, a_walk_begins_with_all_slots,
    a_walk_over_values_gives_each_slot_once, there_is_a_slot_for_each_value,
};
pub use masks::{apply_to_mask, is_mask_of, mark_at, mask_from, slice_mask, unset_marks};
pub use names::{
    DaysMsArray, Int8Array, Int16Array, Int32Array, Int64Array, Int128Array, Int256Array,
    MonthsDaysNsArray, UInt8Array, UInt16Array, UInt32Array, UInt64Array,
};
pub use primitive::PrimitiveArray;
pub use walk_laws::a_walk_gives_each_slot_once;
