//! Columns of unions.
ghost use Rattle.ipc_format_column_bytes.specs.streams.columnar_memory.Layouts.{physical_type};
ghost use Rattle.ipc_format_column_bytes.specs.streams.messages.MessageViews.{version_view};
ghost use Rattle.ipc_format_column_reading.specs.Queues.{SkipsKind, is_union};

use crate::deserialize::skip;
use ipc_format_column_bytes::streams::columnar_memory::{DataType, Error, PhysicalType, Result};
use ipc_format_column_bytes::streams::messages::{Buffer, FieldNode, MetadataVersion};
use std::collections::VecDeque;

/// Passes over a column of unions, and the columns below it.
///
/// # Errors
/// `OutOfSpec`: the type is another one, and the queues stay; or there are fewer nodes or buffers, and each queue holds an end of what it held.
pub fn skip_union(
    field_nodes: &mut VecDeque<FieldNode>,
    data_type: &DataType,
    buffers: &mut VecDeque<Buffer>,
    version: MetadataVersion,
) -> Result<()>
    ensures { SkipsKind (is_union (physical_type data_type.now)) data_type.now (version_view version)
        field_nodes.old.items field_nodes.new.items buffers.old.items buffers.new.items result }
{
    match data_type.to_physical_type() {
        PhysicalType::Union => skip(field_nodes, data_type, buffers, version),
        _ => Err(Error::OutOfSpec("InvalidDataType")),
    }
}
