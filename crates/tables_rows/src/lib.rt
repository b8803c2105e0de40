//! Tables from rows of cells, and seals of tables: the one byte text of a schema, its rows and a batch size, whose groups of rows are pushed into
//! columns likewise. Beside them tables of chosen columns, in any order, of the first rows of bytes: what isn't chosen is passed over and never
//! decoded.
//!
//! This is a part of `tables`, which passes it on.
#![tactic(auto)]

mod bars;
mod builder;
mod chosen;
mod columns;
mod forms;
mod groups;
mod laws;
mod order;
mod pushing;
mod read_choice;
mod seal;
mod stream_entries;
mod taking;

pub use bars::{can_seal, seal_bar};
pub use builder::TableBuilder;
pub use groups::begin_columns;
pub use laws::{
    sealable_tables_are_sealed, seals_are_canonical, seals_are_sealed_again,
    seals_of_choices_are_of_the_whole,
};
pub use nested_arrays_cells;
pub use read_choice::ReadChoice;
pub use seal::{MOST_BATCH_ROWS, Seal, is_batch_size};
pub use tables_chunks;
pub use tables_chunks::{choices_are_isolated, choices_are_of_the_whole};
