//! Work on columns of texts.
use crate::flat::data::numbers_checksum;
use benches_timing::{Work, bytes_checksum, short_texts};
use columnar_memory_types::{DataType, Result};
use nested_arrays::columnar_memory::{Buffer, OffsetsBuffer};
use nested_arrays::flat_arrays::{MutableUtf8Array, Utf8Array};
use std::alloc::Global;

/// `push` of texts.
#[derive(Drop)]
pub(crate) struct Push {
    alloc: Global,
    texts: Vec<&'static str>,
}

impl Push {
    pub(crate) fn of(alloc: Global, count: usize) -> Result<Push> {
        let texts = short_texts(alloc, count)?;
        Ok(Push { alloc, texts })
    }
}

impl Work for Push {
    type Made = MutableUtf8Array<i32>;

    fn make(&self) -> Result<MutableUtf8Array<i32>> {
        let mut builder = MutableUtf8Array::new(self.alloc)?;
        for text in &self.texts {
            builder.push(Some(*text))?;
        }
        Ok(builder)
    }

    fn checksum(made: &MutableUtf8Array<i32>) -> u64 {
        bytes_checksum(made.values()).wrapping_add(numbers_checksum(made.offsets().as_slice()))
    }
}

/// `from_slice` of texts.
#[derive(Drop)]
pub(crate) struct FromSlice {
    alloc: Global,
    texts: Vec<&'static str>,
}

impl FromSlice {
    pub(crate) fn of(alloc: Global, count: usize) -> Result<FromSlice> {
        let texts = short_texts(alloc, count)?;
        Ok(FromSlice { alloc, texts })
    }
}

impl Work for FromSlice {
    type Made = Utf8Array<i32>;

    fn make(&self) -> Result<Utf8Array<i32>> {
        Utf8Array::from_slice(self.alloc, &self.texts)
    }

    fn checksum(made: &Utf8Array<i32>) -> u64 {
        bytes_checksum(made.values().as_slice()).wrapping_add(numbers_checksum(
            made.offsets().as_slice(),
        ))
    }
}

/// `try_new` of a column of texts.
#[derive(Drop)]
pub(crate) struct TryNew {
    offsets: OffsetsBuffer<i32>,
    values: Buffer<u8>,
}

impl TryNew {
    pub(crate) fn of(alloc: Global, count: usize) -> Result<TryNew> {
        let array: Utf8Array<i32> = Utf8Array::from_slice(alloc, &short_texts(alloc, count)?)?;
        let (_, offsets, values, _) = array.into_inner();
        Ok(TryNew { offsets, values })
    }
}

impl Work for TryNew {
    type Made = Utf8Array<i32>;

    fn make(&self) -> Result<Utf8Array<i32>> {
        let offsets = self.offsets.clone()?;
        let values = self.values.clone()?;
        Utf8Array::try_new(DataType::Utf8, offsets, values, None)
    }

    fn checksum(made: &Utf8Array<i32>) -> u64 {
        made.len() as u64
    }
}
