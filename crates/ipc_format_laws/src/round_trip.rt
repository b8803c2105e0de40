//! What is written as a message, or as a file's footer, reads back: theorems over all messages of a kind.
//!
//! The statements are in `specs/`. They rest on `ipc_format_laws`: what is laid as FlatBuffers reads back.

ghost use Rattle.ipc_format_laws.specs.BatchMessages.{RecordBatchesReadBack, DictionaryBatchesReadBack};
ghost use Rattle.ipc_format_laws.specs.Footers.{FootersReadBack};
ghost use Rattle.ipc_format_laws.specs.Schemas.{SchemasReadBack, TablesSchemasReadBack};

/// The metadata that is written for a record batch gives back its version, its body's length, and each of its nodes and buffers, where
/// their numbers are below 2^63 and the message has less than 2^32 bytes (Arrow IPC, "RecordBatch message").
pub fn record_batches_read_back()
    ensures { RecordBatchesReadBack }
{}

/// The metadata that is written for a dictionary batch gives back its id besides, and its values' record batch
/// (Arrow IPC, "Dictionary Messages").
pub fn dictionary_batches_read_back()
    ensures { DictionaryBatchesReadBack }
{}

/// The metadata that is written for a schema gives it back in its one form, with the ids of its dictionaries; a schema that has the
/// one form comes back as it is (Schema.fbs, Arrow columnar format, "Extension Types"). It holds of each schema that is written at all,
/// where its names, keys and values are UTF-8, the keys of metadata ascend, ids are signed numbers of eight bytes, and the message has
/// less than 2^32 bytes.
pub fn schemas_read_back()
    ensures all { SchemasReadBack }
    ensures normal { TablesSchemasReadBack }
{}

/// The footer that is written for a schema and blocks is the footer of a file that ends with it, whatever messages stand before it: the
/// schema comes back in its one form, with the ids of its dictionaries, and each block with its numbers (Arrow IPC, "IPC File Format").
/// It holds where the schema's message would read back, the numbers of blocks are signed ones of eight bytes and of four, and the footer
/// has less than 2^31 bytes.
pub fn footers_read_back()
    ensures { FootersReadBack }
{}
