//! What arrays of any type are made of: arrays without children as one type, offsets of either width, tests of masks, and the comparison of
//! slots without children.
#![tactic(auto)]

mod copies;
mod flats;
mod from;
mod masks;
mod numbers;
mod offsets;
mod ranges;
mod sound;
mod stored;
mod strings;
mod try_from;
mod validity;
mod values;

pub use flats::{FlatArray, FlatNode};
pub use masks::{fits, last_of};
pub use nested_arrays_flat::{columnar_memory, flat_arrays};
pub use offsets::{ListOffsets, slice_offsets};
pub use ranges::{count_each, has_no_nulls, is_null, is_valid, same_slots_counted};
pub use sound::{binary_is_sound, boolean_is_sound, text_is_sound};
pub use stored::holds_values;
pub use validity::{mask_booleans, mask_strings, mask_texts};

/// What `nested_arrays_flat::columns` has, as far as packages above use it.
pub mod columns {
    pub use nested_arrays_flat::columns::{
        a_beginning_of_what_fits_fits, a_choice_of_a_part_is_the_part_of_the_choice,
        a_column_has_a_size, a_column_has_its_length, a_cut_has_a_range_of_the_slots,
        a_cut_has_its_length, a_cut_is_sound, a_cut_keeps_its_size, a_cut_of_a_cut_is_one_cut,
        a_limit_is_a_part, a_part_of_a_part_is_one_part, a_slot_has_its_place_among_distinct_ones,
        distinct_slots_are_distinct, joins_are_associative, null_fits_every_type,
        sameness_decides_equality, two_parts_make_the_whole,
    };
}

/// What `nested_arrays_flat` has, as far as packages above use it.
pub mod flat {
    pub use nested_arrays_flat::{
        AnyPrimitive, FixedSizeBinaryArray, NullArray, PrimitiveKind, PrimitiveNode, mark_at,
        primitive_is_sound, read_bytes, slice_mask, unset_marks,
    };
}
