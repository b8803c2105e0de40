//! The columns and the table of the jobs, which follow from their sizes.
use benches_timing::{Lists, mixed, number_at, short_lists, short_texts, slot_at};
use columnar_memory_types::{Boxed, DataType, Field, Items, Result, Schema, Text};
use ipc_format::Chunk;
use ipc_format::columnar_memory::{Bitmap, Buffer, Offsets};
use ipc_format::nested_arrays_core::flat_arrays::{Int32Array, Utf8Array};
use ipc_format::nested_arrays_core::{
    AnyArray, AnyPrimitive, DictionaryArray, FlatArray, ListArray, StructArray, ToBoxed,
};
use std::alloc::Global;

/// How many numbers a struct has.
const MEMBERS: usize = 10;

/// How many texts the keys mean.
const TEXTS: usize = 1000;

/// How many columns the table has.
const COLUMNS: usize = 100;

/// How many rows its batches have, but the last one.
const ROWS: usize = 65_536;

/// An array of numbers as one of any type.
fn any_numbers(array: Int32Array) -> AnyArray {
    AnyArray::from(FlatArray::from(AnyPrimitive::from_array(array)))
}

/// So many numbers, about one in eight of them null.
pub(crate) fn slots(alloc: Global, count: usize) -> Result<AnyArray> {
    let array = Int32Array::from_iter(alloc, (0..count).map(|k| slot_at(k as u64)))?;
    Ok(any_numbers(array))
}

/// So many short texts.
pub(crate) fn texts(alloc: Global, count: usize) -> Result<AnyArray> {
    let array: Utf8Array<i32> = Utf8Array::from_slice(alloc, &short_texts(alloc, count)?)?;
    Ok(AnyArray::from(FlatArray::from(array)))
}

/// So many lists of up to three numbers, about one in eight of them null.
pub(crate) fn lists(alloc: Global, count: usize) -> Result<AnyArray> {
    let Lists {
        items,
        lengths,
        marks,
    } = short_lists(alloc, count, 0)?;
    let items = Int32Array::try_new(DataType::Int32, Buffer::from_vec(items)?, None)?;
    let items = Box::new(alloc, any_numbers(items))?;
    let item = Field::new(alloc, Text::from_str(alloc, "item")?, DataType::Int32, true);
    let data_type = DataType::List(Boxed::new(alloc, item)?);
    let offsets = Offsets::<i32>::try_from_iter(alloc, lengths.iter().copied())?;
    let mask = Bitmap::from_iter(alloc, marks.iter().copied())?;
    let array = ListArray::try_new(data_type, offsets.freeze()?, items, Some(mask))?;
    Ok(array.into_any())
}

/// A field of a type.
pub(crate) fn field(alloc: Global, data_type: DataType) -> Result<Field> {
    Ok(Field::new(alloc, Text::from_str(alloc, "column")?, data_type, true))
}

/// So many fields of numbers.
fn fields(alloc: Global, count: usize) -> Result<Items<Field>> {
    let mut fields = Items::new(alloc);
    for _ in 0..count {
        fields.push(field(alloc, DataType::Int32)?)?;
    }
    Ok(fields)
}

/// So many columns of so many numbers, those from a place on.
fn numbers_from(alloc: Global, place: u64, columns: usize, count: usize) -> Result<Vec<AnyArray>> {
    let mut arrays = Vec::new(alloc);
    for column in 0..columns {
        let start = place.wrapping_add((column as u64).wrapping_mul(count as u64));
        let values = (0..count)
            .map(|k| number_at(start.wrapping_add(k as u64)))
            .collect(alloc)?;
        let array = Int32Array::try_new(DataType::Int32, Buffer::from_vec(values)?, None)?;
        arrays.push(any_numbers(array))?;
    }
    Ok(arrays)
}

/// So many structs of ten numbers.
pub(crate) fn structs(alloc: Global, count: usize) -> Result<AnyArray> {
    let members = numbers_from(alloc, 0, MEMBERS, count)?;
    let data_type = DataType::Struct(fields(alloc, MEMBERS)?);
    Ok(AnyArray::from(StructArray::try_new(data_type, members, None)?))
}

/// The texts that the keys mean.
pub(crate) fn key_texts(alloc: Global) -> Result<AnyArray> {
    texts(alloc, TEXTS)
}

/// So many keys of a thousand texts.
pub(crate) fn keys(alloc: Global, count: usize) -> Result<AnyArray> {
    let keys = (0..count)
        .map(|k| (mixed(k as u64) % 1000) as i32)
        .collect(alloc)?;
    let keys = Int32Array::try_new(DataType::Int32, Buffer::from_vec(keys)?, None)?;
    let texts = Box::new(alloc, key_texts(alloc)?)?;
    Ok(DictionaryArray::try_from_keys(alloc, keys, texts)?.into_any())
}

/// A table of numbers in batches.
#[derive(Drop)]
pub(crate) struct Table {
    pub schema: Schema,
    pub chunks: Vec<Chunk<AnyArray>>,
}

impl Table {
    /// A table of so many numbers in all.
    pub(crate) fn of(alloc: Global, numbers: usize) -> Result<Table> {
        let rows = numbers / COLUMNS;
        let mut chunks = Vec::new(alloc);
        for batch in 0..rows.div_ceil(ROWS) {
            let start = batch.saturating_mul(ROWS);
            let place = (start as u64).wrapping_mul(COLUMNS as u64);
            let count = rows.saturating_sub(start).min(ROWS);
            chunks.push(Chunk::try_new(numbers_from(alloc, place, COLUMNS, count)?)?)?;
        }
        let schema = Schema::from_fields(fields(alloc, COLUMNS)?);
        Ok(Table { schema, chunks })
    }

    /// A batch of one row.
    pub(crate) fn small_batch(alloc: Global) -> Result<Vec<Chunk<AnyArray>>> {
        Ok(Table::of(alloc, COLUMNS)?.chunks)
    }
}
