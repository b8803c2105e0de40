//! What the layers above nested arrays stand on, under one name: arrays of any type and of each layout, their cuts and their equality by slots, and
//! the definitions of slots, columns and tables, with their laws. `nested_arrays_cells` has cells and the builder of any type, `nested_arrays` has
//! iterators, arrays of nulls and the builders of a type each too.
//!
//! Here stand the arrays that are generic over the width of their offsets or over the type of their keys, lists and dictionaries; and arrays as
//! arrays of any type, themselves or copied, on the heap or shared.
#![tactic(auto)]

mod boxes;
mod copied_flat_members;
mod copied_generic_members;
mod copied_members;
mod copies;
mod dictionaries;
mod equality;
mod from;
mod keys;
mod lists;
mod members;
mod try_from;
mod walks;

pub use boxes::ToBoxed;
pub use dictionaries::DictionaryArray;
pub use keys::DictionaryKey;
pub use lists::ListArray;
pub use nested_arrays_access::arrays::{
    AnyArray, DictionaryNode, FixedSizeListArray, ListNode, MapArray, Node, StructArray,
    UnionArray, equal, equal_counted,
};
pub use nested_arrays_access::columns::{
    a_beginning_of_what_fits_fits, a_choice_of_a_part_is_the_part_of_the_choice,
    a_column_has_a_size, a_column_has_its_length, a_cut_has_a_range_of_the_slots,
    a_cut_has_its_length, a_cut_is_sound, a_cut_keeps_its_size, a_cut_of_a_cut_is_one_cut,
    a_limit_is_a_part, a_part_of_a_part_is_one_part, a_slot_has_its_place_among_distinct_ones,
    distinct_slots_are_distinct, joins_are_associative, null_fits_every_type,
    sameness_decides_equality, two_parts_make_the_whole,
};
pub use nested_arrays_access::flat::{
    AnyPrimitive, FixedSizeBinaryArray, NullArray, PrimitiveKind, PrimitiveNode,
};
pub use nested_arrays_access::parts::{FlatArray, FlatNode, ListOffsets};
pub use nested_arrays_access::{
    Array, a_null_slot_has_no_value, a_slot_without_a_value_is_null, arrays, columnar_memory,
    columns, flat, flat_arrays, nulls_are_counted, parts, same_slot_ranges, same_slots,
};
pub use walks::{DictionaryKeys, DictionaryKeysIter};

/// What `nested_arrays_access` has, as far as packages above use it.
pub mod access {
    pub use nested_arrays_access::{
        Array, a_null_slot_has_no_value, a_slot_without_a_value_is_null, nulls_are_counted,
        same_slot_ranges, same_slots,
    };
}
