//! The messages of a stream, put to a device one after another.
ghost use Rattle.std.specs.Prelude.{◌≡◌, true};
ghost use Rattle.ipc_format.specs.Tracking.{tracked};
ghost use Rattle.ipc_format.specs.metadata.Views.{ids_views};
ghost use Rattle.ipc_format.specs.GivenDictionaries.{agree};
ghost use Rattle.ipc_format.specs.Writable.{is_writable};
ghost use Rattle.ipc_format.specs.WrittenStreams.{batch_of_stored};
ghost use Rattle.tables_chunks.specs.PutMessages.{PutsBatch, PutsBatches, PutsSchema};
ghost use Rattle.tables_chunks.specs.WrittenTables.{table_ids};
ghost use Rattle.tables_chunks.specs.StoredTables.{IsTable};

use columnar_memory_types::{Result, Schema};
use ipc_format::nested_arrays_core::AnyArray;
use ipc_format::{
    Chunk, DictionaryTracker, EncodedData, IpcField, encode_batch, put_message, put_messages,
    schema_to_bytes,
};
use std::alloc::Global;
use std::io::Write;

/// Writes the message of a schema, with the default ids of its dictionaries.
pub(crate) fn put_schema<W: Write>(
    alloc: Global,
    writer: &mut W,
    schema: &Schema,
    ids: &[IpcField],
) -> Result<()>
    requires writable { is_writable schema.now ≡ true }
    requires ids { ids_views ids.now ≡ table_ids schema.now }
    ensures { PutsSchema result (W.contents writer.old) (W.contents writer.new) schema.now }
{
    let metadata = schema_to_bytes(alloc, schema, ids)?;
    put_message(writer, &metadata, &[])
}

/// Writes the messages of a batch: those of the dictionaries that go before it, and its own. All of them are encoded before the first is written,
/// and what `encoded` held is written over.
fn put_batch<W: Write>(
    alloc: Global,
    writer: &mut W,
    batch: &Chunk<AnyArray>,
    ids: &[IpcField],
    tracker: &mut DictionaryTracker,
    encoded: &mut EncodedData,
) -> Result<()>
    requires { agree (batch_of_stored (ids_views ids.now) batch.now).given ≡ true }
    ensures { PutsBatch result (W.contents writer.old) (W.contents writer.new) (tracked tracker.old) (tracked tracker.new)
        (batch_of_stored (ids_views ids.now) batch.now) }
{
    let dictionaries = encode_batch(alloc, batch, ids, tracker, encoded)?;
    put_messages(writer, &dictionaries)?;
    put_message(
        writer,
        encoded.ipc_message.as_slice(),
        encoded.arrow_data.as_slice(),
    )
}

/// Writes the messages of batches under a schema, one batch after another.
pub(crate) fn put_batches<W: Write>(
    alloc: Global,
    writer: &mut W,
    schema: &Schema,
    batches: &[Chunk<AnyArray>],
    ids: &[IpcField],
) -> Result<()>
    requires table { IsTable schema.now batches.now }
    requires ids { ids_views ids.now ≡ table_ids schema.now }
    ensures { PutsBatches result (W.contents writer.old) (W.contents writer.new) schema.now batches.now }
{
    let mut tracker = DictionaryTracker::new(alloc, false);
    let mut encoded = EncodedData::new(alloc);
    for batch in batches {
        put_batch(alloc, writer, batch, ids, &mut tracker, &mut encoded)?;
    }
    Ok(())
}
