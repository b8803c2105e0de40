//! Nested arrays under one name: arrays of any type, which a contract sees as the column that they store, their cuts, and their equality by
//! slots; and the definitions of slots, columns and tables, with their laws.
#![tactic(auto)]

pub use nested_arrays_dictionary_builders::cells::builders::{AnyMutableArray, is_cell_of};
pub use nested_arrays_dictionary_builders::cells::parts::{AnyScalar, Marks};
pub use nested_arrays_dictionary_builders::cells::taken::MutableArray;
pub use nested_arrays_dictionary_builders::cells::{TryPushFrom, cell_at};
pub use nested_arrays_dictionary_builders::nulls::access::{
    Array, a_null_slot_has_no_value, a_slot_without_a_value_is_null, nulls_are_counted,
    same_slot_ranges, same_slots,
};
pub use nested_arrays_dictionary_builders::nulls::arrays::{
    AnyArray, DictionaryNode, FixedSizeListArray, ListNode, MapArray, Node, StructArray,
    UnionArray, equal, equal_counted,
};
pub use nested_arrays_dictionary_builders::nulls::columns::{
    a_beginning_of_what_fits_fits, a_choice_of_a_part_is_the_part_of_the_choice,
    a_column_has_a_size, a_column_has_its_length, a_cut_has_a_range_of_the_slots,
    a_cut_has_its_length, a_cut_is_sound, a_cut_keeps_its_size, a_cut_of_a_cut_is_one_cut,
    a_limit_is_a_part, a_part_of_a_part_is_one_part, a_slot_has_its_place_among_distinct_ones,
    distinct_slots_are_distinct, joins_are_associative, null_fits_every_type,
    sameness_decides_equality, two_parts_make_the_whole,
};
pub use nested_arrays_dictionary_builders::nulls::flat::{
    AnyPrimitive, FixedSizeBinaryArray, NullArray, PrimitiveKind, PrimitiveNode,
};
pub use nested_arrays_dictionary_builders::nulls::generic::{
    DictionaryArray, DictionaryKey, DictionaryKeys, DictionaryKeysIter, ListArray, ToBoxed,
};
pub use nested_arrays_dictionary_builders::nulls::iterators::{
    ArrayPart, ArraySlot, ArrayValues, DictValue, DictionaryValues, DictionaryValuesIter,
    DictionaryValuesIterTyped, FixedSizeBinaryValues, FixedSizeListValuesIter, GenericBinaryArray,
    KeyPlaces, KeyedSlots, KeyedValues, ListValuesIter, MapValuesIter, Slots, StructSlot,
    StructValueIter, TypedDictionaryValues, TypedSlots, TypedValues, UnionIter, Values,
    a_walk_over_places_gives_each_value_once, keys_name_values,
};
pub use nested_arrays_dictionary_builders::nulls::parts::{FlatArray, FlatNode, ListOffsets};
pub use nested_arrays_dictionary_builders::nulls::{
    Downcast, NullArrays, columnar_memory, new_empty_array, new_null_array,
};
pub use nested_arrays_dictionary_builders::{
    MutValues, MutableDictionaryArray, MutableFields, MutableFixedSizeBinaryArray,
    MutableFixedSizeListArray, MutableListArray, MutableNullArray, MutableStructArray, SlotIs,
    TryExtend, TryExtendFromSelf, TryPush, flat_arrays,
};
