//! How arrays are made, read, cut, walked over, compared and looked at inside, how columns are built slot by slot, and how bitmaps are combined: what
//! the guide of arrow2 shows, as a user of the facades writes it.
#![tactic(auto)]

#[cfg(test)]
mod any_type;
#[cfg(test)]
mod bitmaps;
mod callers;
#[cfg(test)]
mod columns;
#[cfg(test)]
mod dictionaries;
#[cfg(test)]
mod extends;
#[cfg(test)]
mod flat;
#[cfg(test)]
mod records;

pub use callers::{
    Words, add_cell, add_key, add_keys, add_word, agree, keys_column, number_or, numbers_column,
    page, page_of_texts, part, rows, text_or, words_column,
};
