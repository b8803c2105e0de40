//! Bytes, buffers and offsets: windows on shared memory that a contract sees as lists, and offsets that it sees as
//! spans.
#![tactic(auto)]

mod buffer;
mod bytes;
mod into_iter;
mod laws;
mod offsets;
mod offsets_buffer;
mod offsets_lengths;
mod places;

pub use buffer::Buffer;
pub use bytes::Bytes;
pub use columnar_memory_native as native;
pub use into_iter::IntoIter;
pub use laws::{a_slice_of_a_sliced_buffer_is_one_slice, a_slice_of_sliced_offsets_is_one_slice};
pub use offsets::Offsets;
pub use offsets_buffer::OffsetsBuffer;
pub use offsets_lengths::OffsetsLengths;
