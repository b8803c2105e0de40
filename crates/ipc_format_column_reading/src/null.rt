//! Columns of nulls.
ghost use Rattle.std.specs.Prelude.{[]};
ghost use Rattle.ipc_format_column_reading.specs.Queues.{SkipsNodes};

use ipc_format_column_bytes::streams::columnar_memory::{Error, Result};
use ipc_format_column_bytes::streams::messages::FieldNode;
use std::collections::VecDeque;

/// Passes over a column of nulls: a node.
///
/// # Errors
/// `OutOfSpec`: there is none.
pub fn skip_null(field_nodes: &mut VecDeque<FieldNode>) -> Result<()>
    ensures { SkipsNodes 1 field_nodes.old.items field_nodes.new.items result }
{
    if field_nodes.pop_front().is_none() {
        return Err(Error::OutOfSpec("MissingMessageNodes"));
    }
    Ok(())
}
