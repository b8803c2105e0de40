//! The metadata of batches and of dictionaries whose columns are placed in a body.
ghost use Rattle.std.specs.Prelude.{FitsSigned};
ghost use Rattle.std.specs.Int.{w64};
ghost use Rattle.ipc_format_streams.specs.grammar.Encoding.{Encoded};
ghost use Rattle.ipc_format_column_bytes.specs.Placing.{IsPlaced, IsSignedNode, IsSignedBuffer, AreSignedNodes, AreSignedBuffers, WritesMetadata};
ghost use Rattle.ipc_format_column_bytes.specs.Placing.{batch_of_column, dictionary_of_column};

use ipc_format_streams::columnar_memory::Result;
use ipc_format_streams::messages::{Buffer, FieldNode};
use ipc_format_streams::owned::writing::{dictionary_batch_to_bytes, record_batch_to_bytes};
use std::alloc::Global;

/// The nodes of columns in pre-order, and where their buffers stand in the body of their message.
#[derive(Debug, Drop)]
pub struct Placed {
    pub nodes: Vec<FieldNode>,
    pub buffers: Vec<Buffer>,
}

/// Hands to a proof that a number is a signed one of eight bytes.
fn signed(number: i64)
    ensures { FitsSigned w64 number }
{}

/// Hands to a proof that what a node states are signed numbers of eight bytes.
fn is_node(node: &FieldNode)
    ensures { IsSignedNode node.now }
{
    signed(node.length);
    signed(node.null_count);
}

/// Hands to a proof that what a buffer states are signed numbers of eight bytes.
fn is_buffer(buffer: &Buffer)
    ensures { IsSignedBuffer buffer.now }
{
    signed(buffer.offset);
    signed(buffer.length);
}

/// Hands to a proof that the numbers of nodes are signed ones of eight bytes.
fn are_nodes(nodes: &[FieldNode])
    ensures { AreSignedNodes nodes.now }
{
    for k in 0..nodes.len() {
        let node = &nodes[k];
        is_node(node);
    }
}

/// Hands to a proof that the numbers of buffers are signed ones of eight bytes.
fn are_buffers(buffers: &[Buffer])
    ensures { AreSignedBuffers buffers.now }
{
    for k in 0..buffers.len() {
        let buffer = &buffers[k];
        is_buffer(buffer);
    }
}

/// The metadata of a record batch of so many rows, whose columns stand in a body (Arrow IPC, "RecordBatch message").
///
/// # Errors
/// - `Overflow`: with its prefix of 8 bytes the metadata would have more than 2,147,483,640 bytes, or the body has 2^63 bytes or more.
/// - `OutOfMemory`: there was no memory for the metadata.
pub fn record_metadata(alloc: Global, rows: u64, placed: &Placed, body: &[u8]) -> Result<Vec<u8>>
    ensures { (column : Encoded) → IsPlaced placed.now body.now column → WritesMetadata result body.now (batch_of_column rows column) }
{
    let nodes = placed.nodes.as_slice();
    let buffers = placed.buffers.as_slice();
    are_nodes(nodes);
    are_buffers(buffers);
    record_batch_to_bytes(alloc, rows, nodes, buffers, body.len() as u64)
}

/// The metadata of a dictionary batch: the dictionary's id, how many values it has, and their column, which stands in a body (Arrow IPC,
/// "Dictionary Messages").
///
/// # Errors
/// - `Overflow`: with its prefix of 8 bytes the metadata would have more than 2,147,483,640 bytes, or the body has 2^63 bytes or more.
/// - `OutOfMemory`: there was no memory for the metadata.
pub fn dictionary_metadata(
    alloc: Global,
    id: i64,
    rows: u64,
    placed: &Placed,
    body: &[u8],
) -> Result<Vec<u8>>
    ensures { (column : Encoded) → IsPlaced placed.now body.now column → WritesMetadata result body.now (dictionary_of_column id rows column) }
{
    let nodes = placed.nodes.as_slice();
    let buffers = placed.buffers.as_slice();
    are_nodes(nodes);
    are_buffers(buffers);
    dictionary_batch_to_bytes(alloc, id, rows, nodes, buffers, body.len() as u64)
}
