//! Offsets and bytes to make arrays of.
use columnar_memory_core::{Buffer, Error, OffsetsBuffer};
use std::alloc::Global;

pub(crate) fn offsets_of(alloc: Global, offsets: &[i32]) -> Result<OffsetsBuffer<i32>, Error> {
    OffsetsBuffer::try_from(Vec::from_slice(alloc, offsets)?)
}

pub(crate) fn bytes_of(alloc: Global, bytes: &[u8]) -> Result<Buffer<u8>, Error> {
    Buffer::from_vec(Vec::from_slice(alloc, bytes)?)
}
