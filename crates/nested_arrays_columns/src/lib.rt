//! The values of columns of any type, and what arrays store of them, whatever their place in memory: definitions that the contracts of
//! the crates above cite, and the laws of these definitions.
//!
//! Each function here does nothing: its contract is the law, which a caller has by calling it.
#![tactic(auto)]

mod cut_laws;
mod first_laws;
mod fresh_laws;
mod growth_laws;
mod layer_laws;
mod slot_laws;
mod table_laws;
mod value_laws;

pub use columnar_memory_core as columnar_memory;
pub use cut_laws::{
    a_column_has_a_size, a_column_has_its_length, a_cut_has_a_range_of_the_slots,
    a_cut_has_its_length, a_cut_is_sound, a_cut_keeps_its_size, a_cut_of_a_cut_is_one_cut,
};
pub use first_laws::{
    the_first_fixed_size_lists_store_the_first_items, the_first_keys_store_the_first_values,
    the_first_lists_store_the_first_items, the_first_records_store_the_first_of_each_field,
};
pub use fresh_laws::{
    a_batch_of_rows_has_their_slots, a_column_of_slots_has_its_length,
    a_column_of_slots_has_its_type, a_column_of_slots_has_the_slots, a_column_of_slots_is_sound,
};
pub use growth_laws::{
    one_more_fixed_size_list_stores_its_items, one_more_key_stores_its_value,
    one_more_list_stores_its_items, one_more_record_stores_its_fields,
    when_one_more_fixed_size_list_fits, when_one_more_key_fits, when_one_more_large_list_fits,
    when_one_more_list_fits, when_one_more_number_fits, when_one_more_record_fits,
};
pub use layer_laws::{
    a_layout_tells_the_layer, dictionaries_fit_where_their_values_do,
    dictionaries_store_their_values, fixed_size_lists_fit_where_their_items_do,
    fixed_size_lists_store_their_items, large_lists_fit_where_their_items_do,
    lists_fit_where_their_items_do, lists_store_their_items, no_map_but_null_fits,
    no_slots_fit_every_type, numbers_fit_by_their_kind, primitive_columns_store_their_numbers,
    structs_fit_where_their_fields_do, structs_store_their_fields, the_first_of_what_fits_fit,
};
pub use slot_laws::{
    a_beginning_of_what_fits_fits, a_slot_has_its_place_among_distinct_ones,
    distinct_slots_are_distinct, null_fits_every_type, sameness_decides_equality,
};
pub use table_laws::{
    a_choice_of_a_part_is_the_part_of_the_choice, a_limit_is_a_part, a_part_of_a_part_is_one_part,
    joins_are_associative, two_parts_make_the_whole,
};
pub use value_laws::{
    a_key_is_the_place_of_its_value, a_new_slot_is_one_more_value, no_value_stands_twice,
    one_more_value_has_the_last_key, slots_keep_their_keys, what_no_place_has_is_not_among_them,
};
