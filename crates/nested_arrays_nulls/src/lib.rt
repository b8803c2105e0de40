//! Arrays of nulls, and arrays without slots, of each type; and arrays of any type looked at as one of their kind.
#![tactic(auto)]

mod downcasts;
mod flats;
mod generic_layouts;
mod kinds;
mod layouts;
mod nulls;
mod wholes;

pub use downcasts::Downcast;
pub use kinds::NullArrays;
pub use nested_arrays_iterators::{
    access, arrays, columnar_memory, columns, flat, flat_arrays, generic, parts,
};
pub use nulls::{new_empty_array, new_null_array};

/// What `nested_arrays_iterators` has, as far as packages above use it.
pub mod iterators {
    pub use nested_arrays_iterators::{
        ArrayPart, ArraySlot, ArrayValues, DictValue, DictionaryValues, DictionaryValuesIter,
        DictionaryValuesIterTyped, FixedSizeBinaryValues, FixedSizeListValuesIter,
        GenericBinaryArray, KeyPlaces, KeyedSlots, KeyedValues, ListValuesIter, MapValuesIter,
        Slots, StructSlot, StructValueIter, TypedDictionaryValues, TypedSlots, TypedValues,
        UnionIter, Values, a_walk_over_places_gives_each_value_once, keys_name_values,
    };
}
