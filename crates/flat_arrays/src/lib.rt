//! Flat arrays under one name: arrays of numbers, booleans, byte strings and texts, and their builders, which a contract sees as a data
//! type, stored values and a mask.
#![tactic(auto)]

pub use flat_arrays_builders::values::{
    ArrayAccessor, ArrayValuesIter, BooleanArray, DaysMsArray, Int8Array, Int16Array, Int32Array,
    Int64Array, Int128Array, Int256Array, IntoMut, MonthsDaysNsArray, PrimitiveArray, UInt8Array,
    UInt16Array, UInt32Array, UInt64Array, a_cut_has_a_range_of_the_slots,
    a_cut_of_a_cut_is_one_cut, a_grown_list_has_the_slots_of_both, a_walk_begins_with_all_slots,
    a_walk_gives_each_slot_once, a_walk_over_values_gives_each_slot_once,
    added_slots_come_behind_the_others, check_indexes, there_is_a_slot_for_each_value,
};
pub use flat_arrays_builders::{
    DaysMsVec, Int8Vec, Int16Vec, Int32Vec, Int64Vec, Int128Vec, Int256Vec, MonthsDaysNsVec,
    MutableBooleanArray, MutablePrimitiveArray, UInt8Vec, UInt16Vec, UInt32Vec, UInt64Vec,
};
pub use flat_arrays_byte_builders::byte_values_builders::{
    ByteBuilder, MutableBinaryValuesArray, MutableBinaryValuesIter, MutableUtf8ValuesArray,
    MutableUtf8ValuesIter, a_push_adds_one_slot, joined_slots_stand_behind_the_others,
};
pub use flat_arrays_byte_builders::bytes::{
    BinaryArray, BinaryValueIter, ByteValuesIter, HoldsByteStrings, HoldsTexts, TextValuesIter,
    Utf8Array, Utf8ValuesIter, a_cut_of_a_cut_of_byte_strings_is_one_cut,
    a_cut_of_byte_strings_has_a_range_of_the_slots, a_walk_over_byte_strings_begins_with_all_slots,
};
pub use flat_arrays_byte_builders::{MutableBinaryArray, MutableUtf8Array};
