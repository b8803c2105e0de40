//! What every array answers, of whatever type.
#![tactic(auto)]

mod array;
mod flat_members;
mod members;
mod null_laws;
mod slot_ranges;

pub use array::Array;
pub use nested_arrays_arrays::{columnar_memory, columns, flat, flat_arrays, parts};
pub use null_laws::{a_null_slot_has_no_value, a_slot_without_a_value_is_null, nulls_are_counted};
pub use slot_ranges::{same_slot_ranges, same_slots};

/// What `nested_arrays_arrays` has, as far as packages above use it.
pub mod arrays {
    pub use nested_arrays_arrays::{
        AnyArray, CompareSlots, DictionaryNode, FixedSizeListArray, ListNode, MapArray, Node,
        StructArray, UnionArray, columnar_memory, equal, equal_counted, flat_arrays, is_null_slot,
        item_field, same_arrays, same_items, same_slot,
    };

    /// Of `flat`.
    pub mod flat {
        pub use nested_arrays_arrays::flat::{
            AnyPrimitive, FixedSizeBinaryArray, NullArray, PrimitiveKind, PrimitiveNode, mark_at,
            read_bytes,
        };
    }

    /// Of `parts`.
    pub mod parts {
        pub use nested_arrays_arrays::parts::{
            FlatArray, FlatNode, ListOffsets, holds_values, is_valid,
        };
    }
}
