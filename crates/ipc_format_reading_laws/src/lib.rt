//! Laws of reading: what is written of stored columns, as columns, as streams and files, as appended batches and as seals, reads back; a
//! choice of columns is isolated from the others; a normalised type reads the same slots; and a column is read from the fronts of what is
//! left of its batch.
//!
//! Each function here does nothing: its contract is the law, which a caller has by calling it. The statements are in `specs/`.
#![tactic(auto)]

mod append_laws;
mod column_laws;
mod front_laws;
mod isolation_laws;
mod normal_laws;
mod seal_laws;
mod table_laws;

pub use append_laws::{appended_files_read_back, grown_files_read_back, stated_ends_are_enough};
pub use column_laws::stored_columns_read_back;
pub use front_laws::{columns_have_parts, columns_read_at_fronts};
pub use ipc_format_laws::choices_are_of_the_whole;
pub use isolation_laws::choices_are_isolated;
pub use normal_laws::normalised_types_read_the_same_slots;
pub use seal_laws::{seals_read_back, seals_tell_tables_apart};
pub use table_laws::{normal_columns_stay_whole, stored_files_read_back, stored_streams_read_back};
