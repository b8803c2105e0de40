//! Bitmaps: lists of booleans packed in bytes, with the least significant bit of a byte first (Arrow columnar format, "Validity bitmaps").
//!
//! [`Bitmap`] is a shared window on bytes: a clone and a slice share them. [`MutableBitmap`] owns its bytes and grows, and `freeze` and
//! `into_mut` lead from one to the other with no copy. To a contract each is the list of its bits, whatever bit of a byte it starts at and
//! whatever stands around it: `sliced` is `slice_range`, `push` is `++ x ∷ []`, `unset_bits` is how many are false, and equal lists are
//! equal bitmaps. Counts, appends, comparisons and walks over runs go by words or whole bytes.
#![tactic(auto)]

mod bitmap;
mod equal;
mod gatherer;
mod into_iter;
mod laws;
mod mutable;
mod operators;
mod slices;
mod text;
mod validity;

pub use bitmap::Bitmap;
pub use columnar_memory_bits as bits;
pub use columnar_memory_types as types;
pub use gatherer::BitGatherer;
pub use into_iter::IntoIter;
pub use laws::a_slice_of_a_sliced_bitmap_is_one_slice;
pub use mutable::MutableBitmap;
pub use slices::SlicesIterator;
