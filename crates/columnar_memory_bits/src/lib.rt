//! Booleans packed in bytes: single bits, counts, copies and walks over them, whatever bit they start at.
//!
//! A bit is named by its place: bit `i` of some bytes is bit `i % 8` of byte `i / 8`, the least significant bit of a byte first
//! (Arrow columnar format, "Validity bitmaps"). Where a vector of bytes is written, its spare bits are zeros.
#![tactic(auto)]

mod append;
mod count;
mod iterator;
mod load;
mod text;
mod utils;
mod zip_validity;
mod zip_validity_iter;

pub use append::{append_bits, append_constant, append_word, keep_bits};
pub use count::count_zeros;
pub use iterator::BitmapIter;
pub use load::{load_word, low_bits};
pub use text::fmt;
pub use utils::{bytes_for, get_bit, is_set, set, set_bit};
pub use zip_validity::{Validity, ZipValidity};
pub use zip_validity_iter::ZipValidityIter;
