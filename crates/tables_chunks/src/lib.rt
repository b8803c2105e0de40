//! Tables over chunks of arrays: a schema and its rows, batch by batch, read from bytes and written as a stream or a file, with their parts,
//! choices and joins, none of which copies a cell, and whether two of them are the same. The laws of these batches, and what can go wrong with a
//! table.
//!
//! This is a part of `tables`, which passes it on.
#![tactic(auto)]

mod batches;
mod choices;
mod cuts;
mod fault;
mod growing;
mod joins;
mod laws;
mod messages;
mod putting;
mod read;
mod reading;
mod same;
mod table;
mod write;
mod write_file;
mod writing;

pub use batches::{fits_schema, is_table_schema};
pub use choices::{are_all_below, choose_fields, choose_of, distinct};
pub use fault::{Fault, SealBar};
pub use growing::GrowingTable;
pub use ipc_format::format::{
    DictionaryBatchRef, MessageHeaderRef, MetadataVersion, RecordBatchRef,
};
pub use ipc_format::metadata::IpcSchema;
pub use ipc_format::reading_laws::{
    choices_are_isolated, choices_are_of_the_whole, seals_read_back, seals_tell_tables_apart,
};
pub use ipc_format::streams::{NextMessage, next_at};
pub use ipc_format::{
    Chunk, Counting, Dictionaries, Entry, Faults, InMemory, ValuesById, can_write, columnar_memory,
    file_entries, look_ups_are_enough, metadata_of_file, nested_arrays_core, normalised, put,
    read_dictionary_with, read_record_batch, schemas_have_arrays, stream_start, values_by_id,
};
pub use laws::{
    choices_have_columns, cuts_and_choices_commute, cuts_have_parts, joins_have_both,
    rows_are_columns,
};
pub use read::Form;
pub use table::Table;
