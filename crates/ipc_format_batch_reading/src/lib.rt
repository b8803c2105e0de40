//! Record batches and dictionary batches read whole from the nodes and buffers of their messages (Arrow IPC, "RecordBatch message", "Dictionary
//! Messages"), and the laws that what is read of a schema's batches is what the format gives.
#![tactic(auto)]

mod counted;
mod dictionary_batch;
mod laws;
mod named_values;
mod passing;
mod projection;
mod record_batch;

pub use dictionary_batch::{read_dictionary, read_dictionary_with};
pub use ipc_format_reading::{
    BodyCompressionRef, Buffer, Chunk, Compression, Dictionaries, DictionaryBatchRef, EncodedData,
    FieldNode, InMemory, IpcField, IpcSchema, MessageHeaderRef, MetadataVersion, Placed,
    RecordBatchRef, Room, array_reading, batch_queues, columnar_memory, dictionary_batch_in,
    dictionary_metadata, dictionary_values, first_beside, message_in, nested_arrays_core,
    normalised, read, read_children, read_fixed_size_list, read_large_list, read_list, read_map,
    read_struct, read_union, record_metadata, streams, write,
};
pub use laws::{look_ups_are_enough, schemas_have_arrays};
pub use named_values::{KnownValues, ValuesById, values_by_id};
pub use projection::{
    ProjectionIter, ProjectionResult, apply_projection, choices_are_put_back, is_choice,
    prepare_projection, rises,
};
pub use record_batch::{is_projection, read_record_batch, read_record_batch_counted};
