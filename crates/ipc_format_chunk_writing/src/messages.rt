//! The messages of batches and of dictionaries, encoded (Arrow IPC, "RecordBatch message", "Dictionary Messages").
ghost use Rattle.std.specs.Prelude.{◌≡◌, [], map, true};
ghost use Rattle.ipc_format_batch_reading.specs.Bodies.{Settles};
ghost use Rattle.ipc_format_batch_reading.specs.Placing.{Places};
ghost use Rattle.ipc_format_batch_reading.specs.grammar.Encoding.{joined_columns};
ghost use Rattle.ipc_format_batch_reading.specs.grammar.StoredEncoding.{encode_stored};
ghost use Rattle.ipc_format_batch_reading.specs.grammar.WrittenMessages.{record_message};
ghost use Rattle.ipc_format_chunk_writing.specs.EncodedChunks.{EncodesDictionaries, EncodesDictionary, EncodesMessage, dictionaries_in, message_in};
ghost use Rattle.ipc_format_chunk_writing.specs.Bodies.{placed_in};
ghost use Rattle.ipc_format_chunk_writing.specs.Found.{given_in};
ghost use Rattle.ipc_format_chunk_writing.specs.Tracking.{given_of};

use crate::found::Found;
use crate::signed::are_nodes;
use columnar_memory_types::Result;
use ipc_format_batch_reading::nested_arrays_core::AnyArray;
use ipc_format_batch_reading::{EncodedData, Placed, dictionary_metadata, record_metadata, write};
use std::alloc::Global;

/// No nodes and no buffers.
fn none_placed(alloc: Global) -> Placed
    ensures nodes { result.nodes.items ≡ [] }
    ensures buffers { result.buffers.items ≡ [] }
{
    Placed {
        nodes: Vec::new(alloc),
        buffers: Vec::new(alloc),
    }
}

/// Writes a column behind those that stand in a body.
fn place_next(array: &AnyArray, placed: &mut Placed, body: &mut Vec<u8>) -> Result<()>
    ensures { Settles result (placed_in placed.old body.old.items) (placed_in placed.new body.new.items) (encode_stored true array.now) }
{
    let mut offset = body.len() as i64;
    write(
        array,
        &mut placed.buffers,
        body,
        &mut placed.nodes,
        &mut offset,
        true,
        None,
    )
}

/// Writes columns into a body of their own, one behind the other.
fn place(alloc: Global, arrays: &[AnyArray], body: &mut Vec<u8>) -> Result<Placed>
    requires { body.old.items ≡ [] }
    ensures { Places result body.new.items (joined_columns (map (encode_stored true) arrays.now)) }
{
    let mut placed = none_placed(alloc);
    for array in arrays {
        place_next(array, &mut placed, body)?;
    }
    Ok(placed)
}

/// Writes a column into a body of its own.
fn place_one(alloc: Global, array: &AnyArray, body: &mut Vec<u8>) -> Result<Placed>
    requires { body.old.items ≡ [] }
    ensures { Places result body.new.items (encode_stored true array.now) }
{
    let mut placed = none_placed(alloc);
    let mut offset: i64 = 0;
    write(
        array,
        &mut placed.buffers,
        body,
        &mut placed.nodes,
        &mut offset,
        true,
        None,
    )?;
    Ok(placed)
}

/// The message of a batch of so many rows, in place of another one.
///
/// # Errors
/// - `Overflow`: a node or the message is past its limit.
/// - `OutOfMemory`: there was no memory for the message.
pub(crate) fn encode_record(
    alloc: Global,
    rows: u64,
    arrays: &[AnyArray],
    encoded: &mut EncodedData,
) -> Result<()>
    ensures { EncodesMessage result (message_in encoded.new) (joined_columns (map (encode_stored true) arrays.now))
        (record_message rows (map (encode_stored true) arrays.now)) }
{
    encoded.arrow_data.clear();
    let placed = place(alloc, arrays, &mut encoded.arrow_data)?;
    are_nodes(placed.nodes.as_slice());
    encoded.ipc_message = record_metadata(alloc, rows, &placed, encoded.arrow_data.as_slice())?;
    Ok(())
}

/// The message of the dictionary that values under an id are.
///
/// # Errors
/// - `Overflow`: a node or the message is past its limit.
/// - `OutOfMemory`: there was no memory for the message.
pub(crate) fn encode_dictionary(alloc: Global, id: i64, values: &AnyArray) -> Result<EncodedData>
    ensures { EncodesDictionary result (given_of id values.now) }
{
    let mut body = Vec::new(alloc);
    let placed = place_one(alloc, values, &mut body)?;
    are_nodes(placed.nodes.as_slice());
    let rows = values.len() as u64;
    let metadata = dictionary_metadata(alloc, id, rows, &placed, body.as_slice())?;
    Ok(EncodedData {
        ipc_message: metadata,
        arrow_data: body,
    })
}

/// The messages of dictionaries, in order.
///
/// # Errors
/// - `Overflow`: a node or a message is past its limit.
/// - `OutOfMemory`: there was no memory for the messages.
pub(crate) fn encode_dictionaries(alloc: Global, found: &[Found]) -> Result<Vec<EncodedData>>
    ensures { EncodesDictionaries (dictionaries_in result) (map given_in found.now) }
{
    let mut messages = Vec::new(alloc);
    for dictionary in found {
        messages.push(encode_dictionary(alloc, dictionary.id, dictionary.values)?)?;
    }
    Ok(messages)
}
