//! The base of the columnar crates, under one name: what `columnar_memory_core` has, on which the layers above stand, with bits in chunks and the
//! kernels of bitmaps.
#![tactic(auto)]

pub use columnar_memory_core::{
    BitGatherer, Bitmap, BitmapIntoIter, BitmapIter, Boxed, Buffer, BufferIntoIter, Bytes,
    DataType, EXTENSION_METADATA, EXTENSION_NAME, Error, Field, Index, IndexRange, IntegerType,
    IntervalUnit, Items, Metadata, MutableBitmap, NativeType, Offset, Offsets, OffsetsBuffer,
    OffsetsLengths, PhysicalType, PrimitiveType, Result, Schema, SchemaRef, SlicesIterator, Steps,
    Text, TimeUnit, UnionMode, Validity, ZipValidity, ZipValidityIter,
    a_slice_of_a_sliced_bitmap_is_one_slice, a_slice_of_a_sliced_buffer_is_one_slice,
    a_slice_of_sliced_offsets_is_one_slice, be_bytes_of_their_value, bytes_for, count_zeros,
    days_ms, fmt, get_bit, get_extension, i256, is_set, le_bytes_of_their_value, months_days_ns,
    set, set_bit,
};
pub use columnar_memory_kernels::{
    BitChunk, BitChunkIter, BitChunkIterExact, BitChunkOnes, BitChunks, BitChunksExact,
    BitChunksExactMut, ChunkWidth, HasChunks, and, binary, binary_assign, or, quaternary, ternary,
    unary, unary_assign, xor,
};
