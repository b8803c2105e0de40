//! The queues of a batch's nodes and buffers, from whose fronts each column takes its own.
ghost use Rattle.ipc_format_column_reading.specs.Queues.{Skips};

use ipc_format_column_bytes::streams::columnar_memory::{Error, Result};
use ipc_format_column_bytes::streams::messages::{Buffer, FieldNode};
use std::collections::VecDeque;

/// Takes a node and `count` buffers off the fronts.
///
/// # Errors
/// `OutOfSpec`: there are fewer.
pub fn skip_own(
    field_nodes: &mut VecDeque<FieldNode>,
    buffers: &mut VecDeque<Buffer>,
    count: usize,
) -> Result<()>
    ensures { Skips 1 count field_nodes.old.items field_nodes.new.items buffers.old.items buffers.new.items result }
{
    if field_nodes.pop_front().is_none() {
        return Err(Error::OutOfSpec("MissingMessageNodes"));
    }
    for _k in 0..count {
        if buffers.pop_front().is_none() {
            return Err(Error::OutOfSpec("ExpectedBuffer"));
        }
    }
    Ok(())
}
