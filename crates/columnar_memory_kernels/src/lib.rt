//! Bits in chunks of a type's width, and functions of words on the words of bitmaps.
//!
//! A kernel gives its word function the words of its bitmaps' lists of booleans, 64 bits each, the first in the least significant bit, and
//! the last word filled with false. Its answer is the booleans of the answered words, cut to the length. A kernel that writes its answer in
//! place takes no memory, and its words have as many bits as the type that its word function takes.
#![tactic(auto)]

mod assign;
mod bit_chunk;
mod bit_chunk_iter;
mod chunk_iterator;
mod chunks_exact;
mod chunks_exact_mut;
mod kernels;
mod of_bitmaps;
mod words;
mod write;

pub use assign::{binary_assign, unary_assign};
pub use bit_chunk::{BitChunk, ChunkWidth};
pub use bit_chunk_iter::{BitChunkIter, BitChunkOnes};
pub use chunk_iterator::BitChunks;
pub use chunks_exact::{BitChunkIterExact, BitChunksExact};
pub use chunks_exact_mut::BitChunksExactMut;
pub use columnar_memory_bitmap as bitmap;
pub use kernels::{and, binary, or, quaternary, ternary, unary, xor};
pub use of_bitmaps::HasChunks;
