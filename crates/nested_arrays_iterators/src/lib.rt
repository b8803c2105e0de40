//! Values of nested arrays by their places, and walks over them from both ends.
#![tactic(auto)]

mod array_parts;
mod binary;
mod dictionaries;
mod laws;
mod lists;
mod rows;
mod slots;
mod struct_walks;
mod typed;
mod values;

pub use array_parts::ArrayPart;
pub use binary::{FixedSizeBinaryValues, GenericBinaryArray};
pub use dictionaries::{
    DictionaryValues, DictionaryValuesIter, KeyPlaces, KeyedSlots, KeyedValues, keys_name_values,
};
pub use laws::a_walk_over_places_gives_each_value_once;
pub use lists::{FixedSizeListValuesIter, ListValuesIter, MapValuesIter};
pub use nested_arrays_core::{access, arrays, columnar_memory, columns, flat, flat_arrays, parts};
pub use rows::StructSlot;
pub use slots::ArraySlot;
pub use struct_walks::{StructValueIter, UnionIter};
pub use typed::{
    DictValue, DictionaryValuesIterTyped, TypedDictionaryValues, TypedSlots, TypedValues,
};
pub use values::{ArrayValues, Slots, Values};

/// What `nested_arrays_core` has, as far as packages above use it.
pub mod generic {
    pub use nested_arrays_core::{
        DictionaryArray, DictionaryKey, DictionaryKeys, DictionaryKeysIter, ListArray, ToBoxed,
    };
}
