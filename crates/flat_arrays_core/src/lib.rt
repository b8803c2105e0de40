//! Flat arrays without their builders under one name, for layers that make arrays of buffers: arrays of numbers, booleans, byte strings and texts,
//! which a contract sees as a data type, stored values and a mask. `flat_arrays` has the builders too.
#![tactic(auto)]

pub use flat_arrays_bytes::values::{
    ArrayAccessor, ArrayValuesIter, BooleanArray, DaysMsArray, Int8Array, Int16Array, Int32Array,
    Int64Array, Int128Array, Int256Array, IntoMut, MonthsDaysNsArray, PrimitiveArray, UInt8Array,
    UInt16Array, UInt32Array, UInt64Array, a_cut_has_a_range_of_the_slots,
    a_cut_of_a_cut_is_one_cut, a_grown_list_has_the_slots_of_both, a_walk_begins_with_all_slots,
    a_walk_gives_each_slot_once, a_walk_over_values_gives_each_slot_once,
    added_slots_come_behind_the_others, check_indexes, there_is_a_slot_for_each_value,
};
pub use flat_arrays_bytes::{
    BinaryArray, BinaryValueIter, ByteValuesIter, HoldsByteStrings, HoldsTexts, TextValuesIter,
    Utf8Array, Utf8ValuesIter, a_cut_of_a_cut_of_byte_strings_is_one_cut,
    a_cut_of_byte_strings_has_a_range_of_the_slots, a_walk_over_byte_strings_begins_with_all_slots,
    columnar_memory,
};
