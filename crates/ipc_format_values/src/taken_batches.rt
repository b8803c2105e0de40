//! Batches, taken of their views (Message.fbs, File.fbs).
ghost use Rattle.std.specs.Prelude.{◌≡◌, IfOk};
ghost use Rattle.std.specs.Option.{option_map};
ghost use Rattle.ipc_format_writing.specs.messages.MessageViews.{batch_view, table_view, nodes_view, buffers_view, blocks_view};
ghost use Rattle.ipc_format_values.specs.OwnedMessages as owned;
ghost use Rattle.ipc_format_values.specs.Taken.{Takes};

use crate::taken::taken;
use crate::{DictionaryBatch, RecordBatch};
use ipc_format_writing::columnar_memory::{Items, Result as Answer};
use ipc_format_writing::messages::{
    Block, BlocksRef, Buffer, BuffersRef, DictionaryBatchRef, FieldNode, FieldNodesRef,
    RecordBatchRef,
};
use std::alloc::{AllocError, Global};

/// The nodes of a vector.
fn nodes_in(
    alloc: Global,
    nodes: &FieldNodesRef<'_>,
) -> Result<Option<Items<FieldNode>>, AllocError>
    ensures { IfOk result (λ found. found ≡ owned.nodes_in (nodes_view nodes.now)) }
{
    let mut made = Items::new(alloc);
    for k in 0..nodes.vector.count {
        let Some(node) = nodes.get(k) else {
            return Ok(None);
        };
        made.push(node)?;
    }
    Ok(Some(made))
}

/// The buffers of a vector.
fn buffers_in(alloc: Global, buffers: &BuffersRef<'_>) -> Result<Option<Items<Buffer>>, AllocError>
    ensures { IfOk result (λ found. found ≡ owned.buffers_in (buffers_view buffers.now)) }
{
    let mut made = Items::new(alloc);
    for k in 0..buffers.vector.count {
        let Some(buffer) = buffers.get(k) else {
            return Ok(None);
        };
        made.push(buffer)?;
    }
    Ok(Some(made))
}

/// The blocks of a vector.
pub fn blocks_in(alloc: Global, blocks: &BlocksRef<'_>) -> Result<Option<Items<Block>>, AllocError>
    ensures { IfOk result (λ found. found ≡ owned.blocks_in (blocks_view blocks.now)) }
{
    let mut made = Items::new(alloc);
    for k in 0..blocks.vector.count {
        let Some(block) = blocks.get(k) else {
            return Ok(None);
        };
        made.push(block)?;
    }
    Ok(Some(made))
}

/// Blocks, none where they are absent.
pub fn blocks_if(
    alloc: Global,
    blocks: &Option<BlocksRef<'_>>,
) -> Result<Option<Items<Block>>, AllocError>
    ensures { IfOk result (λ found. found ≡ owned.blocks_if (option_map blocks_view blocks.now)) }
{
    match blocks {
        Some(blocks) => blocks_in(alloc, blocks),
        None => Ok(Some(Items::new(alloc))),
    }
}

/// Whether the buffers of a batch are compressed.
pub fn is_compressed(batch: &RecordBatchRef<'_>) -> bool
    ensures { result ≡ owned.is_compressed (batch_view batch.now) }
{
    match batch.compression() {
        Ok(Some(_)) => true,
        Ok(None) | Err(_) => false,
    }
}

/// The same of the values of a dictionary.
pub fn dictionary_is_compressed(batch: &DictionaryBatchRef<'_>) -> bool
    ensures { result ≡ owned.dictionary_is_compressed (table_view batch.now.table) }
{
    match batch.data_() {
        Ok(Some(values)) => is_compressed(&values),
        Ok(None) | Err(_) => false,
    }
}

/// A batch; nothing where the view refuses, a vector is absent, or the buffers are compressed.
pub fn batch_in(
    alloc: Global,
    batch: &RecordBatchRef<'_>,
) -> Result<Option<RecordBatch>, AllocError>
    ensures { IfOk result (λ found. found ≡ owned.batch_in (batch_view batch.now)) }
{
    let Ok(length) = batch.length() else {
        return Ok(None);
    };
    let Ok(Some(nodes)) = batch.nodes() else {
        return Ok(None);
    };
    let Some(nodes) = nodes_in(alloc, &nodes)? else {
        return Ok(None);
    };
    let Ok(Some(buffers)) = batch.buffers() else {
        return Ok(None);
    };
    let Some(buffers) = buffers_in(alloc, &buffers)? else {
        return Ok(None);
    };
    let Ok(None) = batch.compression() else {
        return Ok(None);
    };
    Ok(Some(RecordBatch {
        length,
        nodes,
        buffers,
    }))
}

/// A dictionary batch; nothing where the view refuses, or its values are absent or compressed.
pub fn dictionary_in(
    alloc: Global,
    batch: &DictionaryBatchRef<'_>,
) -> Result<Option<DictionaryBatch>, AllocError>
    ensures { IfOk result (λ found. found ≡ owned.dictionary_in (table_view batch.now.table)) }
{
    let Ok(id) = batch.id() else {
        return Ok(None);
    };
    let Ok(Some(values)) = batch.data_() else {
        return Ok(None);
    };
    let Some(data) = batch_in(alloc, &values)? else {
        return Ok(None);
    };
    let Ok(is_delta) = batch.is_delta() else {
        return Ok(None);
    };
    Ok(Some(DictionaryBatch { id, data, is_delta }))
}

/// The batch of a view.
///
/// # Errors
/// - `NotYetImplemented`: the buffers are compressed.
/// - `OutOfSpec`: the view refuses a slot, or the nodes or the buffers are absent.
/// - `OutOfMemory`: there was no memory for the nodes and the buffers.
pub fn record_batch_of(alloc: Global, batch: RecordBatchRef<'_>) -> Answer<RecordBatch>
    ensures { Takes (owned.is_compressed (batch_view batch.entry)) result (owned.batch_in (batch_view batch.entry)) }
{
    let found = batch_in(alloc, &batch)?;
    taken(found, is_compressed(&batch))
}

/// The dictionary batch of a view.
///
/// # Errors
/// - `NotYetImplemented`: the buffers are compressed.
/// - `OutOfSpec`: a view refuses a slot, or the values, their nodes or their buffers are absent.
/// - `OutOfMemory`: there was no memory for the nodes and the buffers.
pub fn dictionary_batch_of(alloc: Global, batch: DictionaryBatchRef<'_>) -> Answer<DictionaryBatch>
    ensures { Takes (owned.dictionary_is_compressed (table_view batch.entry.table)) result (owned.dictionary_in (table_view batch.entry.table)) }
{
    let found = dictionary_in(alloc, &batch)?;
    taken(found, dictionary_is_compressed(&batch))
}
