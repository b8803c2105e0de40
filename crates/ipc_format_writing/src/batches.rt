//! Record batches and dictionary batches as the metadata of a message, in version V5 (Message.fbs).
ghost use Rattle.std.specs.Prelude.{◌≡◌, ◌++◌, ◌∷◌, [], OnOk, IfOk, length, map};
ghost use Rattle.std.specs.List.{flat_map};
ghost use Rattle.std.specs.Int.{w8, w16, w64, cast_unsigned};
ghost use Rattle.ipc_format_messages.specs.flatbuffers.Laying as layout;
ghost use Rattle.ipc_format_messages.specs.flatbuffers.Objects.{piece_of};
ghost use Rattle.ipc_format_messages.specs.flatbuffers.Views.{Lays, piece_view};
ghost use Rattle.ipc_format_messages.specs.grammar.SchemaObjects as objects;
ghost use Rattle.ipc_format_writing.specs.MessageWriting as written;
ghost use Rattle.ipc_format_writing.specs.MessageWriting.{WritesMessage, Finishes, node_pair, buffer_pair, pair_bytes};

use crate::structs::lay_structs;
use ipc_format_messages::columnar_memory::{Error, Result as Answer};
use ipc_format_messages::flatbuffers::{Laid, LayError, Slot, lay_table, message_bytes};
use ipc_format_messages::metadata::sizes::V5;
use ipc_format_messages::metadata::tag_numbers::{DICTIONARY_BATCH_HEADER, RECORD_BATCH_HEADER};
use ipc_format_messages::{Buffer, FieldNode};
use std::alloc::{AllocError, Global};

/// The most bytes of a message's object: with the 8 bytes before it, and the 8 of the message's prefix, 2,147,483,640.
const MOST_BYTES: usize = 2_147_483_624;

/// The most bytes of a message's body.
const MOST_BODY: u64 = 0x7fff_ffff_ffff_ffff;

/// Writes two numbers of eight bytes.
#[tactic(auto, unfolding(crate::specs::MessageWriting::pair_bytes))]
fn put_pair(out: &mut Vec<u8>, first: u64, second: u64) -> Result<(), AllocError>
    ensures { OnOk result (out.new.items ≡ out.old.items ++ pair_bytes (first, second)) }
{
    out.extend_from_slice(&first.to_le_bytes())?;
    out.extend_from_slice(&second.to_le_bytes())?;
    Ok(())
}

/// The bytes of some nodes.
fn bytes_of_nodes(alloc: Global, nodes: &[FieldNode]) -> Result<Vec<u8>, AllocError>
    ensures { IfOk result (λ bytes. bytes.items ≡ flat_map written.node_bytes nodes.now) }
{
    let mut bytes = Vec::new(alloc);
    for node in nodes {
        put_pair(
            &mut bytes,
            node.length.cast_unsigned(),
            node.null_count.cast_unsigned(),
        )?;
    }
    Ok(bytes)
}

/// The bytes of some buffers' places and lengths.
fn bytes_of_buffers(alloc: Global, buffers: &[Buffer]) -> Result<Vec<u8>, AllocError>
    ensures { IfOk result (λ bytes. bytes.items ≡ flat_map written.buffer_bytes buffers.now) }
{
    let mut bytes = Vec::new(alloc);
    for buffer in buffers {
        put_pair(
            &mut bytes,
            buffer.offset.cast_unsigned(),
            buffer.length.cast_unsigned(),
        )?;
    }
    Ok(bytes)
}

/// A vector of nodes.
fn lay_nodes(alloc: Global, nodes: &[FieldNode]) -> Result<Laid, LayError>
    ensures { Lays result (piece_of (objects.structs_object (map node_pair nodes.now))) }
{
    let bytes = bytes_of_nodes(alloc, nodes)?;
    lay_structs(alloc, nodes.len(), &bytes)
}

/// A vector of buffers.
fn lay_buffers(alloc: Global, buffers: &[Buffer]) -> Result<Laid, LayError>
    ensures { Lays result (piece_of (objects.structs_object (map buffer_pair buffers.now))) }
{
    let bytes = bytes_of_buffers(alloc, buffers)?;
    lay_structs(alloc, buffers.len(), &bytes)
}

/// A RecordBatch table.
fn lay_batch(
    alloc: Global,
    rows: u64,
    nodes: &[FieldNode],
    buffers: &[Buffer],
) -> Result<Laid, LayError>
    ensures { Lays result (piece_of (written.batch_object rows nodes.now buffers.now)) }
{
    let nodes = lay_nodes(alloc, nodes)?;
    let buffers = lay_buffers(alloc, buffers)?;
    let slots = [
        Slot::Long(rows),
        Slot::Refers(&nodes),
        Slot::Refers(&buffers),
        Slot::Absent,
    ];
    lay_table(alloc, &slots)
}

/// A DictionaryBatch table of values that are not added to earlier ones.
fn lay_dictionary(alloc: Global, id: i64, values: &Laid) -> Result<Laid, LayError>
    ensures { Lays result (layout.table_piece
        (layout.number w64 (cast_unsigned w64 id) ∷ layout.refers (piece_view values.now) ∷ layout.number w8 0 ∷ [])) }
{
    let slots = [
        Slot::Long(id.cast_unsigned()),
        Slot::Refers(values),
        Slot::Byte(0),
    ];
    lay_table(alloc, &slots)
}

/// A message of a header of some kind, with a body of so many bytes.
fn lay_message(alloc: Global, kind: u8, header: &Laid, body_length: u64) -> Result<Laid, LayError>
    ensures { Lays result (layout.table_piece (written.message_slots kind (piece_view header.now) body_length)) }
{
    let slots = [
        Slot::Short(V5),
        Slot::Byte(kind),
        Slot::Refers(header),
        Slot::Long(body_length),
        Slot::Absent,
    ];
    lay_table(alloc, &slots)
}

/// The message of a record batch.
fn lay_record_message(
    alloc: Global,
    rows: u64,
    nodes: &[FieldNode],
    buffers: &[Buffer],
    body_length: u64,
) -> Result<Laid, LayError>
    ensures { Lays result (piece_of (written.record_message rows nodes.now buffers.now body_length)) }
{
    let batch = lay_batch(alloc, rows, nodes, buffers)?;
    lay_message(alloc, RECORD_BATCH_HEADER, &batch, body_length)
}

/// The message of a dictionary batch.
fn lay_dictionary_message(
    alloc: Global,
    id: i64,
    rows: u64,
    nodes: &[FieldNode],
    buffers: &[Buffer],
    body_length: u64,
) -> Result<Laid, LayError>
    ensures { Lays result (piece_of (written.dictionary_message id rows nodes.now buffers.now body_length)) }
{
    let values = lay_batch(alloc, rows, nodes, buffers)?;
    let dictionary = lay_dictionary(alloc, id, &values)?;
    lay_message(alloc, DICTIONARY_BATCH_HEADER, &dictionary, body_length)
}

/// The bytes of a message, where its object was laid and is not too long.
fn finish(alloc: Global, laid: Result<Laid, LayError>) -> Answer<Vec<u8>>
    ensures { Finishes result laid }
{
    match laid {
        Err(LayError::Memory) => Err(Error::OutOfMemory),
        Err(LayError::TooLong) => Err(Error::Overflow),
        Ok(root) => {
            if root.bytes.len() > MOST_BYTES {
                return Err(Error::Overflow);
            }
            Ok(message_bytes(alloc, &root)?)
        }
    }
}

/// The metadata of a record batch's message: its rows, its nodes and the places of its buffers, and how many bytes its body has (Arrow
/// IPC, "RecordBatch message").
///
/// # Errors
/// - `Overflow`: with its prefix of 8 bytes the metadata would have more than 2,147,483,640 bytes, or the body 2^63 bytes or more.
/// - `OutOfMemory`: there was no memory for the metadata.
pub fn record_batch_to_bytes(
    alloc: Global,
    rows: u64,
    nodes: &[FieldNode],
    buffers: &[Buffer],
    body_length: u64,
) -> Answer<Vec<u8>>
    ensures { WritesMessage result (written.record_message rows nodes.now buffers.now body_length) body_length }
{
    if body_length > MOST_BODY {
        return Err(Error::Overflow);
    }
    let laid = lay_record_message(alloc, rows, nodes, buffers, body_length);
    finish(alloc, laid)
}

/// The metadata of a dictionary batch's message: the dictionary's id, how many values it has, their nodes and the places of their
/// buffers, and how many bytes the body has (Arrow IPC, "Dictionary Messages"). It replaces the values that the id had before.
///
/// # Errors
/// - `Overflow`: with its prefix of 8 bytes the metadata would have more than 2,147,483,640 bytes, or the body 2^63 bytes or more.
/// - `OutOfMemory`: there was no memory for the metadata.
pub fn dictionary_batch_to_bytes(
    alloc: Global,
    id: i64,
    rows: u64,
    nodes: &[FieldNode],
    buffers: &[Buffer],
    body_length: u64,
) -> Answer<Vec<u8>>
    ensures { WritesMessage result (written.dictionary_message id rows nodes.now buffers.now body_length) body_length }
{
    if body_length > MOST_BODY {
        return Err(Error::Overflow);
    }
    let laid = lay_dictionary_message(alloc, id, rows, nodes, buffers, body_length);
    finish(alloc, laid)
}
