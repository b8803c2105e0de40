//! Laws of the format over its definitions, each the contract of a function without a body: what is laid as FlatBuffers reads back, and so do
//! the metadata of batches, schemas and footers, and the messages of streams; what is written of slots is what is written of the column that
//! stores them; a choice is read as the choice of the whole; numbers of nodes and buffers, default ids, normal forms.
#![tactic(auto)]

mod choice_laws;
mod column_laws;
mod count_laws;
mod fresh_laws;
mod id_laws;
mod normal_form_laws;
mod round_trip;
mod spelling;
mod stream_laws;

pub use choice_laws::choices_are_of_the_whole;
pub use column_laws::schemas_that_are_read_have_texts;
pub use count_laws::{
    a_written_batch_has_the_counts_of_its_fields, a_written_column_has_the_counts_of_its_type,
    one_more_field_adds_its_counts,
};
pub use fresh_laws::{
    a_writable_type_is_buildable, rows_are_written_as_they_are_stored,
    slots_are_written_as_they_are_stored, slots_bring_the_dictionaries_that_are_stored,
};
pub use id_laws::{default_ids_count_in_pre_order, default_ids_fit};
pub use normal_form_laws::{
    a_normal_form_is_its_own, a_normal_form_is_valid, a_normal_form_is_written_where_the_schema_is,
};
pub use round_trip::{
    dictionary_batches_read_back, footers_read_back, record_batches_read_back, schemas_read_back,
};
pub use spelling::{laid_reads_back, spelled_reads};
pub use stream_laws::{
    messages_read_back, no_dictionaries_given, runs_stand_for_their_messages, streams_read_back,
};
