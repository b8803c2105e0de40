//! Tables of rows in Arrow streams, and the commands of the program `tables` over them.
#![tactic(auto)]

mod carried;
mod commands;
mod inputs;
mod memory_places;
mod places;
mod program;

pub use commands::{Command, number};
pub use memory_places::MemoryPlaces;
pub use places::{FilePlaces, Places};
pub use program::{Failure, Outcome, run};
pub use tables_rows::tables_chunks::{
    Chunk, Counting, Fault, Faults, Form, GrowingTable, SealBar, Table, choices_have_columns,
    columnar_memory, cuts_and_choices_commute, cuts_have_parts, distinct, fits_schema,
    is_table_schema, joins_have_both, nested_arrays_core, rows_are_columns,
};
pub use tables_rows::{
    ReadChoice, Seal, TableBuilder, can_seal, choices_are_isolated, choices_are_of_the_whole,
    is_batch_size, nested_arrays_cells, seal_bar, sealable_tables_are_sealed, seals_are_canonical,
    seals_are_sealed_again, seals_of_choices_are_of_the_whole,
};
