//! Arrays of any type.
#![tactic(auto)]

mod any;
mod children;
mod comparisons;
mod copies;
mod equality;
mod fixed_lists;
mod from;
mod item_fields;
mod key_masks;
mod keys;
mod layouts;
mod list_runs;
mod maps;
mod named_runs;
mod picks;
mod places;
mod records;
mod try_from;
mod try_from_flat;
mod unions;
mod validity;

pub use any::{AnyArray, DictionaryNode, ListNode, Node};
pub use comparisons::{is_null_slot, same_items, same_slot};
pub use equality::{equal, equal_counted};
pub use fixed_lists::FixedSizeListArray;
pub use item_fields::item_field;
pub use layouts::{CompareSlots, same_arrays};
pub use maps::MapArray;
pub use nested_arrays_parts::{columnar_memory, flat_arrays};
pub use records::StructArray;
pub use unions::UnionArray;

/// What `nested_arrays_parts::columns` has, as far as packages above use it.
pub mod columns {
    pub use nested_arrays_parts::columns::{
        a_beginning_of_what_fits_fits, a_choice_of_a_part_is_the_part_of_the_choice,
        a_column_has_a_size, a_column_has_its_length, a_cut_has_a_range_of_the_slots,
        a_cut_has_its_length, a_cut_is_sound, a_cut_keeps_its_size, a_cut_of_a_cut_is_one_cut,
        a_limit_is_a_part, a_part_of_a_part_is_one_part, a_slot_has_its_place_among_distinct_ones,
        distinct_slots_are_distinct, joins_are_associative, null_fits_every_type,
        sameness_decides_equality, two_parts_make_the_whole,
    };
}

/// What `nested_arrays_parts::flat` has, as far as packages above use it.
pub mod flat {
    pub use nested_arrays_parts::flat::{
        AnyPrimitive, FixedSizeBinaryArray, NullArray, PrimitiveKind, PrimitiveNode, mark_at,
        primitive_is_sound, read_bytes, slice_mask, unset_marks,
    };
}

/// What `nested_arrays_parts` has, as far as packages above use it.
pub mod parts {
    pub use nested_arrays_parts::{
        FlatArray, FlatNode, ListOffsets, binary_is_sound, boolean_is_sound, fits, holds_values,
        is_valid, last_of, mask_booleans, mask_strings, mask_texts, slice_offsets, text_is_sound,
    };
}
