//! The chosen columns of messages, one after another (Arrow IPC, "RecordBatch message", "Dictionary Messages").
ghost use Rattle.std.specs.Prelude.{◌≡◌, IfOk, length, map};
ghost use Rattle.tables_chunks.specs.ipc_format.Readable.{HasArrays};
ghost use Rattle.tables_chunks.specs.ipc_format.ReadArrays.{standing_in};
ghost use Rattle.tables_chunks.specs.ipc_format.columns.StoredColumns.{slots};
ghost use Rattle.tables_chunks.specs.ipc_format.columns.Tables.{chosen};
ghost use Rattle.tables_chunks.specs.ipc_format.grammar.Tables.{left_of};
ghost use Rattle.tables_chunks.specs.ipc_format.messages.declared.messages.MessageHeaderRef.TheVariants as headers;
ghost use Rattle.tables_chunks.specs.ipc_format.metadata.Reading.{Reads};
ghost use Rattle.tables_chunks.specs.ipc_format.metadata.Views.{ids_views};
ghost use Rattle.tables_chunks.specs.ipc_format.NamedValues.{AreValuesOf};
ghost use Rattle.tables_chunks.specs.Messages.{AreOfFields, TakesDictionary, layout_by};
ghost use Rattle.tables_chunks.specs.ipc_format.FileEntries.{entries_of, entry_view};
ghost use Rattle.tables_chunks.specs.ipc_format.BlockMessages.{dictionary_by};
ghost use Rattle.tables_rows.specs.EntryChoices.{GathersEntry, IsUnread, chosen_by};
ghost use Rattle.tables_rows.specs.Gathered.{GathersBatches};
ghost use Rattle.tables_rows.specs.Orders.{IsOrder, asked};

use crate::order::Order;
use std::alloc::Global;
use std::collections::BTreeMap;
use tables_chunks::columnar_memory::{Error, Field, Result};
use tables_chunks::nested_arrays_core::AnyArray;
use tables_chunks::{
    Chunk, Dictionaries, DictionaryBatchRef, Entry, InMemory, IpcSchema, MessageHeaderRef,
    RecordBatchRef, ValuesById, choose_of, look_ups_are_enough, read_dictionary_with,
    read_record_batch, values_by_id,
};

/// Reads the dictionary of a message: it then stands under its id.
///
/// # Errors
/// - `OutOfSpec`: the format gives no dictionary.
/// - `NotYetImplemented`: the dictionary adds to an earlier one, or is compressed.
/// - `OutOfMemory`: there was no memory for its values.
fn take_dictionary(
    alloc: Global,
    entry: &Entry<'_>,
    header: &DictionaryBatchRef<'_>,
    fields: &[Field],
    ipc_schema: &IpcSchema,
    known: &ValuesById,
    dictionaries: &mut Dictionaries,
    scratch: &mut Vec<u8>,
) -> Result<()>
    requires arrays { HasArrays (layout_by fields.now ipc_schema.now) }
    requires known { AreValuesOf fields.now (ids_views ipc_schema.now.fields) known.now }
    requires header { entry.now.header ≡ headers.DictionaryBatch header.now }
    ensures { TakesDictionary (standing_in dictionaries.old) (standing_in dictionaries.new) (IsUnread (entry_view entry.now))
        (dictionary_by (layout_by fields.now ipc_schema.now) (standing_in dictionaries.old) (entry_view entry.now)
        (entry_view entry.now).header) result }
{
    let mut room = InMemory { bytes: entry.room };
    read_dictionary_with(
        alloc,
        header,
        fields,
        ipc_schema,
        Some(known),
        dictionaries,
        entry.version,
        &mut room,
        entry.origin as u64,
        entry.room.len() as u64,
        scratch,
    )
}

/// The chosen columns of the record batch of a message, in the asked order, at most so many rows as a limit.
///
/// # Errors
/// - `OutOfSpec`: the format gives no such columns.
/// - `NotYetImplemented`: the batch is compressed.
/// - `OutOfMemory`: there was no memory for them.
fn chosen_of(
    alloc: Global,
    entry: &Entry<'_>,
    header: &RecordBatchRef<'_>,
    fields: &[Field],
    ipc_schema: &IpcSchema,
    order: &Order,
    limit: Option<usize>,
    dictionaries: &Dictionaries,
    scratch: &mut Vec<u8>,
) -> Result<Chunk<AnyArray>>
    requires arrays { HasArrays (layout_by fields.now ipc_schema.now) }
    requires order { IsOrder (length fields.now) order.now }
    requires header { entry.now.header ≡ headers.RecordBatch header.now }
    ensures value { Reads (map slots) (IsUnread (entry_view entry.now)) result
        (chosen_by (layout_by fields.now ipc_schema.now) (standing_in dictionaries.now) (entry_view entry.now) limit (asked order.now)
        (entry_view entry.now).header) }
    ensures fields { IfOk result (AreOfFields (chosen (asked order.now) fields.now)) }
{
    let mut room = InMemory { bytes: entry.room };
    let found = read_record_batch(
        alloc,
        header,
        fields,
        ipc_schema,
        Some(order.rising.as_slice()),
        limit,
        dictionaries,
        entry.version,
        &mut room,
        entry.origin as u64,
        entry.room.len() as u64,
        scratch,
    )?;
    let chunk = choose_of(alloc, &found, order.places.as_slice())?;
    chunk.whole();
    Ok(chunk)
}

/// Reads a message: the dictionary that it brings then stands under its id, or these are its chosen columns.
///
/// # Errors
/// As of `gather_batches`.
fn gather_entry(
    alloc: Global,
    entry: &Entry<'_>,
    fields: &[Field],
    ipc_schema: &IpcSchema,
    known: &ValuesById,
    order: &Order,
    limit: Option<usize>,
    dictionaries: &mut Dictionaries,
    scratch: &mut Vec<u8>,
) -> Result<Option<Chunk<AnyArray>>>
    requires arrays { HasArrays (layout_by fields.now ipc_schema.now) }
    requires known { AreValuesOf fields.now (ids_views ipc_schema.now.fields) known.now }
    requires order { IsOrder (length fields.now) order.now }
    ensures { GathersEntry (layout_by fields.now ipc_schema.now) (asked order.now) (standing_in dictionaries.old) (standing_in dictionaries.new)
        limit (entry_view entry.now) result }
{
    match entry.header {
        MessageHeaderRef::Schema(_) => Err(Error::OutOfSpec("UnexpectedMessageType")),
        MessageHeaderRef::DictionaryBatch(header) => {
            take_dictionary(
                alloc,
                entry,
                &header,
                fields,
                ipc_schema,
                known,
                dictionaries,
                scratch,
            )?;
            Ok(None)
        }
        MessageHeaderRef::RecordBatch(header) => {
            let chunk = chosen_of(
                alloc,
                entry,
                &header,
                fields,
                ipc_schema,
                order,
                limit,
                dictionaries,
                scratch,
            )?;
            Ok(Some(chunk))
        }
    }
}

/// How many rows a limit leaves behind so many.
fn left_behind(limit: Option<usize>, rows: usize) -> Option<usize>
    ensures { result ≡ left_of limit rows }
{
    match limit {
        None => None,
        Some(most) => Some(most.saturating_sub(rows)),
    }
}

/// The chosen columns of the record batches of some messages, in the asked order, of each as many rows as a limit leaves: those batches that have
/// a row. Each key means a value of the last dictionary of its id before the batch.
///
/// # Errors
/// - `OutOfSpec`: the format gives no dictionary or no columns of a message, or a schema stands among them.
/// - `NotYetImplemented`: a message is compressed, or adds to an earlier dictionary.
/// - `OutOfMemory`: there was no memory for what is read.
pub(crate) fn gather_batches(
    alloc: Global,
    entries: &[Entry<'_>],
    fields: &[Field],
    ipc_schema: &IpcSchema,
    order: &Order,
    limit: Option<usize>,
) -> Result<Vec<Chunk<AnyArray>>>
    requires arrays { HasArrays (layout_by fields.now ipc_schema.now) }
    requires order { IsOrder (length fields.now) order.now }
    ensures { GathersBatches (layout_by fields.now ipc_schema.now) (asked order.now) limit (entries_of entries.now) result }
{
    look_ups_are_enough();
    let known = values_by_id(alloc, fields, ipc_schema.fields.as_slice())?;
    let mut scratch = Vec::new(alloc);
    let mut dictionaries = BTreeMap::new(alloc);
    let mut chunks = Vec::new(alloc);
    let mut left = limit;
    for entry in entries {
        let found = gather_entry(
            alloc,
            entry,
            fields,
            ipc_schema,
            &known,
            order,
            left,
            &mut dictionaries,
            &mut scratch,
        )?;
        let Some(chunk) = found else {
            continue;
        };
        left = left_behind(left, chunk.len());
        if chunk.is_empty() {
            continue;
        }
        chunks.push(chunk)?;
    }
    Ok(chunks)
}
