//! Laws of batches that are read.
//!
//! Each function here does nothing: its contract is the law, which a caller has by calling it. The statements are in `specs/`.

ghost use Rattle.ipc_format_batch_reading.specs.Readable.{SchemasHaveArrays};
ghost use Rattle.ipc_format_batch_reading.specs.Standing.{ByLookUps};

/// What is read under dictionaries depends on what stands under each id, and on nothing else of them (Arrow IPC, "Dictionary Messages").
pub fn look_ups_are_enough()
    ensures { ByLookUps }
{}

/// There are arrays of every type of a schema that metadata gives, with ids beside each field at every depth: so what is read of its record
/// batches and dictionary batches is what the format gives, column by column (Arrow IPC, "Schema message", "RecordBatch message").
pub fn schemas_have_arrays()
    ensures { SchemasHaveArrays }
{}
