//! The rows of the jobs.
use benches_timing::{WORDS, mixed, number_at};
use columnar_memory_types::{Boxed, DataType, Field, IntegerType, Items, Result, Text};
use nested_arrays::AnyScalar;
use std::alloc::Global;

/// How many rows there are; they are pushed over and over.
pub(crate) const ROWS: usize = 4096;

/// How many texts the keys mean.
const TEXTS: u64 = 1000;

/// The type of lists of numbers.
fn list_type(alloc: Global) -> Result<DataType> {
    let item = Field::new(alloc, Text::from_str(alloc, "item")?, DataType::Int32, true);
    Ok(DataType::List(Boxed::new(alloc, item)?))
}

/// The types of the four columns.
pub(crate) fn column_types(alloc: Global) -> Result<Vec<DataType>> {
    let values = Boxed::new(alloc, DataType::Utf8)?;
    let lists = list_type(alloc)?;
    let mut types = Vec::new(alloc);
    types.push(DataType::Int64)?;
    types.push(DataType::Utf8)?;
    types.push(DataType::Dictionary(IntegerType::Int32, values, false))?;
    types.push(lists)?;
    Ok(types)
}

/// A number, about one in eight null.
pub(crate) fn number_of(number: u64) -> Option<i64> {
    if number % 8 == 0 {
        return None;
    }
    Some(i64::from(number_at(number)))
}

/// A short text.
pub(crate) fn word_at(number: u64) -> &'static str {
    WORDS[(number % 8) as usize]
}

/// The text that a key means.
pub(crate) fn key_text(alloc: Global, number: u64) -> Result<String> {
    Ok(format!(in alloc; "{}", number / 8 % TEXTS)?)
}

/// A list of up to three numbers.
pub(crate) fn list_at(alloc: Global, number: u64) -> Result<Vec<i32>> {
    let mut items = Vec::new(alloc);
    for k in 0..number / 64 % 4 {
        items.push(number_at(number.wrapping_add(k)))?;
    }
    Ok(items)
}

/// A number as a cell.
fn number_cell(number: u64) -> AnyScalar {
    match number_of(number) {
        Some(value) => AnyScalar::Int64(value),
        None => AnyScalar::Null,
    }
}

/// A list of numbers as a cell.
fn list_cell(alloc: Global, number: u64) -> Result<AnyScalar> {
    let numbers = list_at(alloc, number)?;
    let mut items = Items::new(alloc);
    for item in &numbers {
        items.push(AnyScalar::Int32(*item))?;
    }
    Ok(AnyScalar::List(items))
}

/// The four cells of the row at a place.
fn cells_at(alloc: Global, place: u64) -> Result<Vec<AnyScalar>> {
    let number = mixed(place);
    let mut cells = Vec::new(alloc);
    cells.push(number_cell(number))?;
    cells.push(AnyScalar::Text(Text::from_str(alloc, word_at(number))?))?;
    cells.push(AnyScalar::Text(Text::new(key_text(alloc, number)?)))?;
    cells.push(list_cell(alloc, number)?)?;
    Ok(cells)
}

/// The rows that are pushed.
pub(crate) fn rows_of_cells(alloc: Global) -> Result<Vec<Vec<AnyScalar>>> {
    let mut rows = Vec::with_capacity(alloc, ROWS)?;
    for place in 0..ROWS {
        rows.push(cells_at(alloc, place as u64)?)?;
    }
    Ok(rows)
}
