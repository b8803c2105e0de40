//! The data of the jobs, which follow from their sizes.
use benches_timing::{Lists, WORDS, mixed, number_at, short_lists, short_texts, slot_at};
use columnar_memory_types::{Boxed, DataType, Field, Result, Text};
use nested_arrays::columnar_memory::{Bitmap, Buffer, Offsets};
use nested_arrays::flat_arrays::{Int32Array, Utf8Array};
use nested_arrays::{AnyArray, AnyPrimitive, DictionaryArray, FlatArray, ListArray, ToBoxed};
use std::alloc::Global;

/// The short texts in another order.
const WORDS_BACKWARDS: [&str; 8] = [
    "columns", "length", "quick", "日本", "Zürich", "north", "a", "",
];

/// An array of numbers as one of any type.
pub(crate) fn any_numbers(array: Int32Array) -> AnyArray {
    AnyArray::from(FlatArray::from(AnyPrimitive::from_array(array)))
}

/// So many numbers, about one in eight of them null.
pub(crate) fn number_column(alloc: Global, count: usize) -> Result<Int32Array> {
    Int32Array::from_iter(alloc, (0..count).map(|k| slot_at(k as u64)))
}

/// So many short texts.
pub(crate) fn text_column(alloc: Global, count: usize) -> Result<Utf8Array<i32>> {
    Utf8Array::from_slice(alloc, &short_texts(alloc, count)?)
}

/// So many numbers.
pub(crate) fn numbers(alloc: Global, count: usize) -> Result<AnyArray> {
    let values = (0..count).map(|k| number_at(k as u64)).collect(alloc)?;
    let array = Int32Array::try_new(DataType::Int32, Buffer::from_vec(values)?, None)?;
    Ok(any_numbers(array))
}

/// So many numbers, about one in eight of them null.
pub(crate) fn slots(alloc: Global, count: usize) -> Result<AnyArray> {
    Ok(any_numbers(number_column(alloc, count)?))
}

/// So many short texts.
pub(crate) fn texts(alloc: Global, count: usize) -> Result<AnyArray> {
    Ok(AnyArray::from(FlatArray::from(text_column(alloc, count)?)))
}

fn list_type(alloc: Global) -> Result<DataType> {
    let item = Field::new(alloc, Text::from_str(alloc, "item")?, DataType::Int32, true);
    Ok(DataType::List(Boxed::new(alloc, item)?))
}

/// So many lists of up to three numbers, about one in eight of them null; under each null stand so many numbers, which are not seen.
pub(crate) fn lists(alloc: Global, count: usize, unseen: usize) -> Result<AnyArray> {
    let Lists {
        items,
        lengths,
        marks,
    } = short_lists(alloc, count, unseen)?;
    let items = Int32Array::try_new(DataType::Int32, Buffer::from_vec(items)?, None)?;
    let items = Box::new(alloc, any_numbers(items))?;
    let offsets = Offsets::<i32>::try_from_iter(alloc, lengths.iter().copied())?;
    let mask = Bitmap::from_iter(alloc, marks.iter().copied())?;
    let array = ListArray::try_new(list_type(alloc)?, offsets.freeze()?, items, Some(mask))?;
    Ok(array.into_any())
}

/// The place of a text among the eight, or among those in the other order.
fn key_at(place: u64, is_backwards: bool) -> i32 {
    let word = mixed(place) % 8;
    if is_backwards {
        return (7 - word) as i32;
    }
    word as i32
}

/// So many keys of eight short texts, which may stand in another order.
pub(crate) fn dictionaries(alloc: Global, count: usize, is_backwards: bool) -> Result<AnyArray> {
    let words = if is_backwards { WORDS_BACKWARDS } else { WORDS };
    let words: Utf8Array<i32> = Utf8Array::from_slice(alloc, &words)?;
    let words = Box::new(alloc, AnyArray::from(FlatArray::from(words)))?;
    let keys = (0..count)
        .map(|k| key_at(k as u64, is_backwards))
        .collect(alloc)?;
    let keys = Int32Array::try_new(DataType::Int32, Buffer::from_vec(keys)?, None)?;
    Ok(DictionaryArray::try_from_keys(alloc, keys, words)?.into_any())
}
