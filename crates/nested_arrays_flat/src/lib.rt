//! Arrays without children as stored columns.
#![tactic(auto)]

mod fixed_size_binary;
mod fixed_size_binary_from;
mod kinds;
mod masks;
mod null;
mod primitive;
mod ranges;
mod sound;

pub use fixed_size_binary::FixedSizeBinaryArray;
pub use flat_arrays_core as flat_arrays;
pub use flat_arrays_core::columnar_memory;
pub use masks::{is_mask_of, mark_at, slice_mask, unset_marks};
pub use null::NullArray;
pub use primitive::{AnyPrimitive, Parts, PrimitiveKind, PrimitiveNode};
pub use ranges::read_bytes;
pub use sound::primitive_is_sound;

/// What `nested_arrays_columns` has, as far as packages above use it.
pub mod columns {
    pub use nested_arrays_columns::{
        a_beginning_of_what_fits_fits, a_choice_of_a_part_is_the_part_of_the_choice,
        a_column_has_a_size, a_column_has_its_length, a_cut_has_a_range_of_the_slots,
        a_cut_has_its_length, a_cut_is_sound, a_cut_keeps_its_size, a_cut_of_a_cut_is_one_cut,
        a_limit_is_a_part, a_part_of_a_part_is_one_part, a_slot_has_its_place_among_distinct_ones,
        distinct_slots_are_distinct, joins_are_associative, null_fits_every_type,
        sameness_decides_equality, two_parts_make_the_whole,
    };
}
