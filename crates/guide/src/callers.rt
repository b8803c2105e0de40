//! The callers that the pages of the layers show (`CALLING.md` of `flat_arrays`, `flat_arrays_values`, `flat_arrays_builders`,
//! `flat_arrays_byte_builders`, `nested_arrays`, `nested_arrays_arrays` and `nested_arrays_dictionary_builders`).
ghost use Rattle.std.specs.Prelude.{◌≡◌, ◌+◌, ◌≤◌, ◌↔◌, IsTrue, MatchResult, None, length, slice_get, unwrap_or};
ghost use Rattle.std.specs.Option.{option_copied};
ghost use Rattle.std.specs.String.{string_bytes};
ghost use Rattle.nested_arrays.specs.columnar_memory.Conversions.{type_of_primitive};
ghost use Rattle.nested_arrays.specs.columnar_memory.Error.{IsOutOfMemory};
ghost use Rattle.nested_arrays.specs.columnar_memory.declared.PrimitiveType.TheVariants as kinds;
ghost use Rattle.nested_arrays.specs.flat_arrays.ByteStrings as byte_strings;
ghost use Rattle.nested_arrays.specs.flat_arrays.ByteStrings.{len_of, slots_of};
ghost use Rattle.nested_arrays.specs.flat_arrays.Flat as numbers;
ghost use Rattle.nested_arrays.specs.flat_arrays.Flat.{flat};
ghost use Rattle.nested_arrays.specs.flat_arrays.Growing.{Grows, joined, with_slot};
ghost use Rattle.nested_arrays.specs.ByteBuilders.{open_text};
ghost use Rattle.nested_arrays.specs.DictionaryBuilders.{dictionary_column};
ghost use Rattle.nested_arrays.specs.EqualArrays.{AreEqual};
ghost use Rattle.nested_arrays.specs.MarkedSlots.{AddsSlot};
ghost use Rattle.nested_arrays.specs.Slots.{text};
ghost use Rattle.nested_arrays.specs.StoredColumns.{column_len, cut};
ghost use Rattle.nested_arrays.specs.builders.parts.Open.{IsPushed};
ghost use Rattle.nested_arrays.specs.builders.parts.Scalars.{scalar_slot};

use nested_arrays::columnar_memory::{Offset, Result};
use nested_arrays::flat_arrays::{
    BinaryArray, Int32Array, Int32Vec, MutableBinaryArray, MutableUtf8Array, Utf8Array,
};
use nested_arrays::{
    AnyArray, AnyMutableArray, AnyScalar, Array, MutableDictionaryArray, StructArray, TryPush,
    equal,
};
use std::alloc::Global;

/// The words as a column, null where a word is empty.
pub fn words_column(alloc: Global, words: &[&str]) -> Result<Utf8Array<i32>> {
    let mut builder = MutableUtf8Array::<i32>::with_capacity(alloc, words.len())?;
    for word in words {
        if word.is_empty() {
            builder.push_null()?;
        } else {
            builder.push(Some(*word))?;
        }
    }
    builder.freeze()
}

/// The rows of a page of texts, in the same memory.
pub fn page_of_texts(column: Utf8Array<i32>, first: usize, count: usize) -> Utf8Array<i32>
    requires { first + count ≤ len_of column }
    ensures { result ≡ byte_strings.cut column first count }
{
    column.sliced(first, count)
}

/// The text in a row, or another where the row is null or there is no such row.
pub fn text_or<'a>(column: &'a Utf8Array<i32>, row: usize, other: &'a str) -> &'a str
    ensures { result.now ≡ unwrap_or (unwrap_or (slice_get (slots_of column.now) row) None) other.now }
{
    column.get(row).unwrap_or(other)
}

/// Some of the values, as a column.
pub fn part(alloc: Global, values: &[i32], offset: usize, count: usize) -> Result<Int32Array>
    requires { offset + count ≤ length values.now }
    ensures { MatchResult result (λ array. array ≡ numbers.cut (flat (type_of_primitive kinds.Int32) values.now None) offset count) IsOutOfMemory }
{
    let column = Int32Array::from_slice(alloc, values)?;
    Ok(column.sliced(offset, count))
}

/// The number in a row, or `missing` where the row is null or there is no such row.
pub fn number_or(column: &Int32Array, row: usize, missing: i32) -> i32
    ensures { result ≡ unwrap_or (unwrap_or (slice_get (numbers.slots_of column.now) row) None) missing }
{
    column.get(row).unwrap_or(missing)
}

/// The numbers of some words, null where a word is no number, without the first one.
pub fn numbers_column(alloc: Global, words: &[&str]) -> Result<Int32Array> {
    let mut builder = Int32Vec::with_capacity(alloc, words.len())?;
    for word in words {
        builder.push(word.parse::<i32>().ok())?;
    }
    let column = builder.freeze()?;
    let len = column.len();
    if len == 0 {
        return Ok(column);
    }
    Ok(column.sliced(1, len - 1))
}

/// Adds a key, or a null; a refused one changes nothing.
pub fn add_key<O: Offset>(keys: &mut MutableBinaryArray<O>, key: Option<&[u8]>) -> Result<()>
    ensures { Grows O.greatest keys.old (with_slot keys.old (option_copied key.entry)) keys.new result }
{
    keys.push(key)
}

/// Adds the keys of another builder behind the others, or changes nothing.
pub fn add_keys<O: Offset>(
    keys: &mut MutableBinaryArray<O>,
    more: &MutableBinaryArray<O>,
) -> Result<()>
    ensures { Grows O.greatest keys.old (joined keys.old more.now) keys.new result }
{
    keys.try_extend_from_self(more)
}

/// The keys as a column, without the first.
pub fn keys_column(alloc: Global, keys: &[&[u8]]) -> Result<BinaryArray<i64>> {
    let array = MutableBinaryArray::<i64>::from_slice(alloc, keys)?.freeze()?;
    let count = array.len();
    if count == 0 {
        return Ok(array);
    }
    Ok(array.sliced(1, count - 1))
}

/// The rows of a page of a column of any type, in the same memory.
pub fn page(column: AnyArray, first: usize, count: usize) -> AnyArray
    requires { first + count ≤ column_len column }
    ensures { result ≡ cut column first count }
{
    column.sliced(first, count)
}

/// The rows of a table as an array, and how many they are.
pub fn rows(table: StructArray) -> (AnyArray, usize)
    ensures same { result.0 ≡ table }
    ensures rows { result.1 ≡ column_len table }
{
    let count = table.len();
    (AnyArray::from(table), count)
}

/// Whether two columns have one type and the same slots.
pub fn agree(left: &AnyArray, right: &AnyArray) -> bool
    ensures { IsTrue result ↔ AreEqual left.now right.now }
{
    equal(left, right)
}

/// Texts, each of which is held once.
pub type Words = MutableDictionaryArray<i32, MutableUtf8Array<i32>>;

/// Adds a cell to a column of any type, or changes nothing.
pub fn add_cell(column: &mut AnyMutableArray, cell: &AnyScalar) -> Result<()>
    ensures { IsPushed column.old (scalar_slot cell.now) column.new result }
{
    column.try_push_scalar(cell)
}

/// Adds a word, or changes nothing.
pub fn add_word(words: &mut Words, word: &String) -> Result<()>
    ensures { AddsSlot (dictionary_column open_text words.old) (text (string_bytes word.now)) (dictionary_column open_text words.new) result }
{
    words.try_push(word)
}
