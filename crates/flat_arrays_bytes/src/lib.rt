//! Arrays of byte strings and of texts: values of any length between offsets, with validity marks (Arrow columnar format,
//! "Variable-size Binary Layout"), and the one column of byte strings that stands under both.
#![tactic(auto)]

mod access;
mod binary;
mod binary_from;
mod clones;
mod column;
mod cut_laws;
mod gather;
mod iterate;
mod laws;
mod texts;
mod utf8;
mod utf8_from;
mod walks;

pub use binary::{BinaryArray, BinaryValueIter};
pub use column::ByteColumn;
pub use cut_laws::{
    a_cut_of_a_cut_of_byte_strings_is_one_cut, a_cut_of_byte_strings_has_a_range_of_the_slots,
};
pub use flat_arrays_values as values;
pub use flat_arrays_values::columnar_memory;
pub use laws::a_walk_over_byte_strings_begins_with_all_slots;
pub use texts::are_texts;
pub use utf8::{Utf8Array, Utf8ValuesIter};
pub use walks::{ByteValuesIter, HoldsByteStrings, HoldsTexts, TextValuesIter};
