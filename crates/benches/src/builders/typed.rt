//! Work on columns each of which has a builder of its own type.
use crate::builders::columns::Columns;
use crate::builders::data::{ROWS, key_text, list_at, number_of, word_at};
use benches_timing::{Work, mixed};
use columnar_memory_types::{Boxed, DataType, IntegerType, Result};
use nested_arrays::flat_arrays::{MutablePrimitiveArray, MutableUtf8Array};
use nested_arrays::{MutValues, MutableArray, MutableDictionaryArray, MutableListArray, TryPush};
use std::alloc::Global;

/// A row: a number or a null, a short text, one of a thousand texts and a list of up to three numbers.
#[derive(Drop)]
struct Row {
    number: Option<i64>,
    word: &'static str,
    key: String,
    items: Vec<i32>,
}

/// The row at a place.
fn row_at(alloc: Global, place: u64) -> Result<Row> {
    let number = mixed(place);
    Ok(Row {
        number: number_of(number),
        word: word_at(number),
        key: key_text(alloc, number)?,
        items: list_at(alloc, number)?,
    })
}

type Keys = MutableDictionaryArray<i32, MutableUtf8Array<i32>>;

type Lists = MutableListArray<i32, MutablePrimitiveArray<i32>>;

/// The builders of the four columns.
#[derive(Drop)]
struct Builders {
    numbers: MutablePrimitiveArray<i64>,
    words: MutableUtf8Array<i32>,
    keys: Keys,
    lists: Lists,
}

fn no_keys(alloc: Global) -> Result<Keys> {
    let values = Boxed::new(alloc, DataType::Utf8)?;
    let data_type = DataType::Dictionary(IntegerType::Int32, values, false);
    Keys::try_new(alloc, data_type, MutableUtf8Array::new(alloc)?)
}

fn no_lists(alloc: Global) -> Result<Lists> {
    MutableListArray::new_with_capacity(alloc, MutablePrimitiveArray::<i32>::new(alloc), 0)
}

fn no_rows(alloc: Global) -> Result<Builders> {
    let words = MutableUtf8Array::<i32>::new(alloc)?;
    let keys = no_keys(alloc)?;
    let lists = no_lists(alloc)?;
    Ok(Builders {
        numbers: MutablePrimitiveArray::<i64>::new(alloc),
        words,
        keys,
        lists,
    })
}

/// Pushes a list of numbers.
fn push_list(lists: &mut Lists, items: &[i32]) -> Result<()> {
    for item in items {
        lists.mut_values().push(Some(*item))?;
    }
    lists.try_push_valid()
}

/// Pushes a row.
fn push_row(builders: &mut Builders, row: &Row) -> Result<()> {
    builders.numbers.push(row.number)?;
    builders.words.push(Some(row.word))?;
    builders.keys.try_push(&row.key)?;
    push_list(&mut builders.lists, row.items.as_slice())
}

/// What the builders built.
fn built(alloc: Global, builders: &mut Builders) -> Result<Columns> {
    let mut arrays = Vec::new(alloc);
    arrays.push(builders.numbers.as_box(alloc)?)?;
    arrays.push(builders.words.as_box(alloc)?)?;
    arrays.push(builders.keys.as_box(alloc)?)?;
    arrays.push(builders.lists.as_box(alloc)?)?;
    Ok(Columns { alloc, arrays })
}

/// So many rows by the calls of each builder.
#[derive(Drop)]
pub(crate) struct Typed {
    alloc: Global,
    rows: Vec<Row>,
    count: usize,
}

impl Typed {
    pub(crate) fn of(alloc: Global, count: usize) -> Result<Typed> {
        let mut rows = Vec::with_capacity(alloc, ROWS)?;
        for place in 0..ROWS {
            rows.push(row_at(alloc, place as u64)?)?;
        }
        Ok(Typed { alloc, rows, count })
    }
}

/// Pushes rows, over and over.
fn push_rows(builders: &mut Builders, rows: &[Row], count: usize) -> Result<()> {
    for k in 0..count {
        if let Some(row) = rows.get(k % ROWS) {
            push_row(builders, row)?;
        }
    }
    Ok(())
}

impl Work for Typed {
    type Made = Columns;

    fn make(&self) -> Result<Columns> {
        let mut builders = no_rows(self.alloc)?;
        push_rows(&mut builders, self.rows.as_slice(), self.count)?;
        built(self.alloc, &mut builders)
    }

    fn checksum(made: &Columns) -> u64 {
        made.checksum()
    }
}
