//! The nodes and buffers of a batch as queues (Arrow IPC, "RecordBatch message").
ghost use Rattle.std.specs.Prelude.{◌≡◌, map};
ghost use Rattle.ipc_format_values.specs.metadata.flatbuffers.Views.{table_of, vector_of};
ghost use Rattle.ipc_format_values.specs.grammar.Messages.{structs_in, as_node, as_buffer, lengths_sum};
ghost use Rattle.ipc_format_streams.specs.Queues.{AreAll, MakesQueues, fits_by, node_of, buffer_of};

use ipc_format_values::columnar_memory::{Error, Result};
use ipc_format_values::messages::{
    Buffer, BuffersRef, FieldNode, FieldNodesRef, RecordBatchRef, record_batch_in,
};
use std::alloc::Global;
use std::collections::VecDeque;

/// The nodes and buffers of a batch, from whose fronts each column takes its own.
#[derive(Debug, Drop)]
pub struct BatchQueues {
    pub field_nodes: VecDeque<FieldNode>,
    pub buffers: VecDeque<Buffer>,
}

/// All nodes of a vector.
///
/// # Errors
/// - `OutOfSpec`: the vector does not stand in the message.
/// - `OutOfMemory`: there was no memory for them.
#[tactic(auto, using(crate::proofs::Structs::taken))]
fn nodes_of(alloc: Global, nodes: &FieldNodesRef<'_>) -> Result<VecDeque<FieldNode>>
    ensures { AreAll (λ queue. map node_of queue.items) (structs_in as_node nodes.now.bytes.now (vector_of nodes.now.vector)) result }
{
    let mut queue = VecDeque::new(alloc);
    for k in 0..nodes.vector.count {
        let Some(node) = nodes.get(k) else {
            return Err(Error::OutOfSpec("MissingMessageNodes"));
        };
        queue.push_back(node)?;
    }
    Ok(queue)
}

/// All buffers of a vector.
///
/// # Errors
/// - `OutOfSpec`: the vector does not stand in the message.
/// - `OutOfMemory`: there was no memory for them.
#[tactic(auto, using(crate::proofs::Structs::taken))]
fn buffers_of(alloc: Global, buffers: &BuffersRef<'_>) -> Result<VecDeque<Buffer>>
    ensures { AreAll (λ queue. map buffer_of queue.items) (structs_in as_buffer buffers.now.bytes.now (vector_of buffers.now.vector)) result }
{
    let mut queue = VecDeque::new(alloc);
    for k in 0..buffers.vector.count {
        let Some(buffer) = buffers.get(k) else {
            return Err(Error::OutOfSpec("MissingMessageBuffers"));
        };
        queue.push_back(buffer)?;
    }
    Ok(queue)
}

/// Whether no buffer states a negative length, and together they state no more bytes than a room has.
#[tactic(auto, using(crate::proofs::Sources::long_sum))]
fn fit(buffers: &BuffersRef<'_>, file_size: u64) -> bool
    ensures { result ≡ fits_by file_size (lengths_sum buffers.now.bytes.now (vector_of buffers.now.vector)) }
{
    match buffers.lengths_sum() {
        Some(sum) => sum <= file_size,
        None => false,
    }
}

/// The nodes and buffers of a batch whose buffers stand in a room of `file_size` bytes: the body of its message in a stream, the whole file
/// in a file.
///
/// # Errors
/// - `NotYetImplemented`: the buffers are compressed.
/// - `OutOfSpec`: one of both vectors is missing or does not stand in the message, a buffer states a negative length, or together they state
///   more bytes than the room has.
/// - `OutOfMemory`: there was no memory for the queues.
#[tactic(auto, using(crate::proofs::Sources::sources))]
pub fn batch_queues(
    alloc: Global,
    batch: &RecordBatchRef<'_>,
    file_size: u64,
) -> Result<BatchQueues>
    ensures { MakesQueues batch.now.table.bytes.now (table_of batch.now.table.place) file_size result }
{
    let Some(parts) = record_batch_in(batch) else {
        return Err(Error::OutOfSpec("MissingMessageBuffers"));
    };
    if parts.is_compressed {
        return Err(Error::NotYetImplemented("compressed buffers"));
    }
    if !fit(&parts.buffers, file_size) {
        return Err(Error::OutOfSpec("InvalidBuffersLength"));
    }
    let field_nodes = nodes_of(alloc, &parts.nodes)?;
    let buffers = buffers_of(alloc, &parts.buffers)?;
    Ok(BatchQueues {
        field_nodes,
        buffers,
    })
}
