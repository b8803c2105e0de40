//! Columns of texts.
ghost use Rattle.std.specs.Prelude.{◌≡◌, is_some};
ghost use Rattle.ipc_format_column_bytes.specs.flat_arrays.Fits.{text_layout};
ghost use Rattle.ipc_format_column_bytes.specs.streams.columnar_memory.Layouts.{physical_type};
ghost use Rattle.ipc_format_column_reading.specs.FlatColumns.{text_column};
ghost use Rattle.ipc_format_column_reading.specs.Queues.{Skips};
ghost use Rattle.ipc_format_column_reading.specs.Reads.{ReadsColumn, front_slots};

use crate::queues::skip_own;
use crate::room::Room;
use crate::strings::read_strings_of;
use ipc_format_column_bytes::flat_arrays::Utf8Array;
use ipc_format_column_bytes::streams::columnar_memory::{DataType, Offset, PhysicalType, Result};
use ipc_format_column_bytes::streams::messages as ipc;
use ipc_format_column_bytes::streams::messages::{BodyCompressionRef, Buffer, FieldNode};
use std::alloc::Global;
use std::collections::VecDeque;

/// How texts lie in memory, by the width of their offsets.
fn layout<O: Offset>() -> PhysicalType
    ensures { result ≡ text_layout O.IS_LARGE }
{
    if O::IS_LARGE {
        PhysicalType::LargeUtf8
    } else {
        PhysicalType::Utf8
    }
}

/// Reads a column of texts: a node and three buffers. The bytes are copied once, up to the last offset.
///
/// # Errors
/// - `OutOfSpec`: the type is of another kind, and the queues stay; or there is no node or too few buffers, a length or an offset is
///   negative, or a buffer states or has fewer bytes than are taken, an offset is below the one before it, or a text is not UTF-8 by itself.
/// - `NotYetImplemented`: the buffers are compressed.
/// - `Io`: the device failed.
/// - `OutOfMemory`: there was no memory for the values, or for what the device reads.
pub fn read_utf8<O: Offset, R: Room>(
    alloc: Global,
    field_nodes: &mut VecDeque<FieldNode>,
    data_type: DataType,
    buffers: &mut VecDeque<ipc::Buffer>,
    reader: &mut R,
    block_offset: u64,
    is_little_endian: bool,
    compression: Option<BodyCompressionRef<'_>>,
    limit: Option<usize>,
    scratch: &mut Vec<u8>,
) -> Result<Utf8Array<O>>
    ensures { ReadsColumn (physical_type data_type ≡ text_layout O.IS_LARGE) (is_some compression.entry)
        (R.told reader.old) (R.told reader.new) (text_column) data_type
        (front_slots data_type field_nodes.old.items buffers.old.items is_little_endian limit block_offset)
        1 3 field_nodes.old.items field_nodes.new.items buffers.old.items buffers.new.items result }
{
    let parts = read_strings_of::<O, R>(
        alloc,
        field_nodes,
        &data_type,
        layout::<O>(),
        buffers,
        reader,
        block_offset,
        is_little_endian,
        compression,
        limit,
        scratch,
    )?;
    Utf8Array::try_new(data_type, parts.offsets, parts.values, parts.validity)
}

/// Passes over a column of texts: a node and three buffers.
///
/// # Errors
/// `OutOfSpec`: there are fewer. Each queue then holds an end of what it held.
pub fn skip_utf8(
    field_nodes: &mut VecDeque<FieldNode>,
    buffers: &mut VecDeque<Buffer>,
) -> Result<()>
    ensures { Skips 1 3 field_nodes.old.items field_nodes.new.items buffers.old.items buffers.new.items result }
{
    skip_own(field_nodes, buffers, 3)
}
