//! The base of the columnar crates, under one name: errors, owners that a contract sees as what they hold, data types, bitmaps, buffers, offsets and
//! the values that they store. `columnar_memory` has bits in chunks and the kernels of bitmaps too.
#![tactic(auto)]

pub use columnar_memory_bitmap::bits::{
    BitmapIter, Validity, ZipValidity, ZipValidityIter, bytes_for, count_zeros, fmt, get_bit,
    is_set, set, set_bit,
};
pub use columnar_memory_bitmap::{
    BitGatherer, Bitmap, IntoIter as BitmapIntoIter, MutableBitmap, SlicesIterator,
    a_slice_of_a_sliced_bitmap_is_one_slice,
};
pub use columnar_memory_buffer::native::types::{
    Boxed, DataType, EXTENSION_METADATA, EXTENSION_NAME, Error, Field, IntegerType, IntervalUnit,
    Items, Metadata, PhysicalType, PrimitiveType, Result, Schema, SchemaRef, Text, TimeUnit,
    UnionMode, get_extension,
};
pub use columnar_memory_buffer::native::{
    Index, IndexRange, NativeType, Offset, Steps, be_bytes_of_their_value, days_ms, i256,
    le_bytes_of_their_value, months_days_ns,
};
pub use columnar_memory_buffer::{
    Buffer, Bytes, IntoIter as BufferIntoIter, Offsets, OffsetsBuffer, OffsetsLengths,
    a_slice_of_a_sliced_buffer_is_one_slice, a_slice_of_sliced_offsets_is_one_slice,
};
