//! The dictionaries and the record batches of a file in a room (Arrow IPC, "IPC File Format", "Dictionary Messages", "RecordBatch message").
ghost use Rattle.std.specs.Prelude.{◌≡◌, ◌<◌, IfOk, length, map};
ghost use Rattle.std.specs.Option.{option_copied};
ghost use Rattle.ipc_format_chunk_writing.specs.BatchReads.{IsProjection, asked_fields, sized};
ghost use Rattle.ipc_format_chunk_writing.specs.ReadArrays.{standing_in};
ghost use Rattle.ipc_format_chunk_writing.specs.columns.StoredColumns.{column_type};
ghost use Rattle.ipc_format_chunk_writing.specs.metadata.Views.{ids_views};
ghost use Rattle.ipc_format_chunk_writing.specs.NamedValues.{AreValuesOf};
ghost use Rattle.ipc_format_readers.specs.BlockMessages.{type_of};
ghost use Rattle.ipc_format_readers.specs.FileReads.{ReadsBatchOf, ReadsDictionaries};
ghost use Rattle.ipc_format_readers.specs.FileStarts.{block_view, layout_in};
ghost use Rattle.ipc_format_readers.specs.MessagesTaken.{TakesDictionaryAt};

use crate::block_messages::{dictionary_in, read_message_metadata, record_batch_in};
use crate::blocks::MessageBlock;
use crate::file_metadata::FileMetadata;
use ipc_format_chunk_writing::nested_arrays_core::AnyArray;
use ipc_format_chunk_writing::streams::columnar_memory::{Error, Result};
use ipc_format_chunk_writing::{
    Chunk, Dictionaries, Room, ValuesById, look_ups_are_enough, read_dictionary_with,
    read_record_batch, values_by_id,
};
use std::alloc::Global;

/// So many messages of dictionaries may stand in a file.
const MOST_DICTIONARIES: usize = 65536;

/// Reads the dictionary at a block: it then stands under its id.
///
/// # Errors
/// - `OutOfSpec`: no message of a dictionary stands there, or the format gives no dictionary.
/// - `NotYetImplemented`: the dictionary adds to an earlier one, or is compressed.
/// - `Io`: the device failed.
/// - `OutOfMemory`: there was no memory for its values.
fn take_dictionary<R: Room>(
    alloc: Global,
    reader: &mut R,
    metadata: &FileMetadata,
    block: &MessageBlock,
    known: &ValuesById,
    dictionaries: &mut Dictionaries,
    message: &mut Vec<u8>,
    scratch: &mut Vec<u8>,
) -> Result<()>
    requires { AreValuesOf metadata.now.one_form.fields (ids_views metadata.now.ipc_schema.fields) known.now }
    ensures { TakesDictionaryAt (layout_in metadata.now) (block_view block.now) (standing_in dictionaries.old) (standing_in dictionaries.new)
        (sized metadata.now.size (R.told reader.old)) (sized metadata.now.size (R.told reader.new)) result }
{
    read_message_metadata(reader, block.offset as u64, message)?;
    let Some((header, version)) = dictionary_in(message) else {
        return Err(Error::OutOfSpec("UnexpectedMessageType"));
    };
    read_dictionary_with(
        alloc,
        &header,
        metadata.one_form.fields.as_slice(),
        &metadata.ipc_schema,
        Some(known),
        dictionaries,
        version,
        reader,
        (block.offset + block.metadata_length) as u64,
        metadata.size,
        scratch,
    )
}

/// Reads the dictionaries of a file, in the order of their blocks: a key means a value of the last one of its id. Where the file has no record batch
/// none is read. `scratch` gives room for what is read on the way.
///
/// # Errors
/// - `OutOfSpec`: there are more than 65,536, a block leads to no message of a dictionary, or the format gives no dictionary.
/// - `NotYetImplemented`: a dictionary adds to an earlier one, or is compressed.
/// - `Io`: the device failed.
/// - `OutOfMemory`: there was no memory for what is read.
pub fn read_file_dictionaries<R: Room>(
    alloc: Global,
    reader: &mut R,
    metadata: &FileMetadata,
    scratch: &mut Vec<u8>,
) -> Result<Dictionaries>
    ensures { ReadsDictionaries metadata.now (sized metadata.now.size (R.told reader.old)) (sized metadata.now.size (R.told reader.new)) result }
{
    let mut dictionaries = Dictionaries::new(alloc);
    if metadata.blocks.is_empty() {
        return Ok(dictionaries);
    }
    if metadata.dictionaries.len() > MOST_DICTIONARIES {
        return Err(Error::OutOfSpec("too many dictionaries"));
    }
    look_ups_are_enough();
    let known = values_by_id(
        alloc,
        metadata.one_form.fields.as_slice(),
        metadata.ipc_schema.fields.as_slice(),
    )?;
    let mut message = Vec::new(alloc);
    for block in &metadata.dictionaries {
        take_dictionary(
            alloc,
            reader,
            metadata,
            block,
            &known,
            &mut dictionaries,
            &mut message,
            scratch,
        )?;
    }
    Ok(dictionaries)
}

/// Reads the record batch of a file at place `index` among its blocks, at most `limit` rows of it, under the dictionaries that stand: all columns, or
/// those that `projection` names by the places of their fields, which rise (`is_projection` tests it). A column that is not chosen is passed over
/// and is not decoded. `message_scratch` and `data_scratch` give room for what is read on the way.
///
/// # Errors
/// - `OutOfSpec`: the block leads to no message of a record batch, or the format gives no columns.
/// - `NotYetImplemented`: the batch is compressed.
/// - `Io`: the device failed.
/// - `OutOfMemory`: there was no memory for them.
pub fn read_batch<R: Room>(
    alloc: Global,
    reader: &mut R,
    dictionaries: &Dictionaries,
    metadata: &FileMetadata,
    projection: Option<&[usize]>,
    limit: Option<usize>,
    index: usize,
    message_scratch: &mut Vec<u8>,
    data_scratch: &mut Vec<u8>,
) -> Result<Chunk<AnyArray>>
    requires within { index < length metadata.now.blocks.items }
    requires asked { IsProjection (length metadata.now.schema.fields) (option_copied projection) }
    ensures read { ReadsBatchOf metadata.now (option_copied projection.entry) (standing_in dictionaries.now) limit index
        (sized metadata.now.size (R.told reader.old)) (sized metadata.now.size (R.told reader.new)) result }
    ensures types { IfOk result (λ chunk. map column_type chunk
        ≡ map type_of (asked_fields (option_copied projection.entry) (layout_in metadata.now).fields)) }
{
    let block = &metadata.blocks[index];
    read_message_metadata(reader, block.offset as u64, message_scratch)?;
    let Some((header, version)) = record_batch_in(message_scratch) else {
        return Err(Error::OutOfSpec("UnexpectedMessageType"));
    };
    read_record_batch(
        alloc,
        &header,
        metadata.one_form.fields.as_slice(),
        &metadata.ipc_schema,
        projection,
        limit,
        dictionaries,
        version,
        reader,
        (block.offset + block.metadata_length) as u64,
        metadata.size,
        data_scratch,
    )
}
