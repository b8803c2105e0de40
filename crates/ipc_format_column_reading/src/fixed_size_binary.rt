//! Columns of byte strings of one length.
ghost use Rattle.ipc_format_column_reading.specs.Queues.{Skips};

use crate::queues::skip_own;
use ipc_format_column_bytes::streams::columnar_memory::Result;
use ipc_format_column_bytes::streams::messages::{Buffer, FieldNode};
use std::collections::VecDeque;

/// Passes over a column of byte strings of one length: a node and two buffers.
///
/// # Errors
/// `OutOfSpec`: there are fewer. Each queue then holds an end of what it held.
pub fn skip_fixed_size_binary(
    field_nodes: &mut VecDeque<FieldNode>,
    buffers: &mut VecDeque<Buffer>,
) -> Result<()>
    ensures { Skips 1 2 field_nodes.old.items field_nodes.new.items buffers.old.items buffers.new.items result }
{
    skip_own(field_nodes, buffers, 2)
}
