//! A column of any type.
ghost use Rattle.std.specs.Prelude.{is_some};
ghost use Rattle.ipc_format_array_reading.specs.ReadArrays.{ReadsArray, at_front, standing_in};
ghost use Rattle.ipc_format_array_reading.specs.messages.MessageViews.{version_view};
ghost use Rattle.ipc_format_array_reading.specs.metadata.Views.{ids_view};

use crate::columns::read_column;
use ipc_format_array_reading::columnar_memory::{DataType, Error, Field, Result};
use ipc_format_array_reading::nested_arrays_core::AnyArray;
use ipc_format_array_reading::{
    BodyCompressionRef, Buffer, Dictionaries, FieldNode, IpcField, MetadataVersion, Room,
};
use std::alloc::Global;
use std::collections::VecDeque;

/// Reads a column of a type, where its buffers are not compressed.
pub(crate) fn read_type<R: Room>(
    alloc: Global,
    field_nodes: &mut VecDeque<FieldNode>,
    data_type: &DataType,
    ipc_field: &IpcField,
    buffers: &mut VecDeque<Buffer>,
    reader: &mut R,
    dictionaries: &Dictionaries,
    block_offset: u64,
    is_little_endian: bool,
    compression: Option<BodyCompressionRef<'_>>,
    limit: Option<usize>,
    version: MetadataVersion,
    scratch: &mut Vec<u8>,
) -> Result<AnyArray>
    ensures { ReadsArray (is_some compression.entry) (R.told reader.old) (R.told reader.new) data_type.now
        (at_front field_nodes.old.items buffers.old.items (version_view version) is_little_endian (standing_in dictionaries.now) limit
        block_offset (ids_view ipc_field.now)) (version_view version) field_nodes.old.items field_nodes.new.items buffers.old.items
        buffers.new.items result }
{
    if compression.is_some() {
        return Err(Error::NotYetImplemented("compressed buffers"));
    }
    read_column(
        alloc,
        field_nodes,
        data_type,
        ipc_field,
        buffers,
        reader,
        dictionaries,
        block_offset,
        is_little_endian,
        limit,
        version,
        scratch,
    )
}

/// Reads the column of a field (Arrow IPC, "RecordBatch message", "Dictionary Messages"): its nodes and buffers come off the fronts of the
/// queues, with those of the columns below it. `ipc_field` has the dictionary ids beside the field and those below it, and `dictionaries` the
/// values that stand under them. At most `limit` slots are taken. Offsets of buffers count from `block_offset`, in bytes. `version` tells how
/// unions lie: before V5 they have a buffer more.
///
/// # Errors
/// - `OutOfSpec`: a node, a buffer, an id or a dictionary is missing; a length or an offset is negative or not within the device's bytes; parts
///   do not fit one another; a text is not UTF-8, or a key names no value; or there are no arrays of the type (floats, sizes of 0, a struct
///   without a field).
/// - `NotYetImplemented`: the buffers are compressed.
/// - `Io`: the device failed.
/// - `OutOfMemory`: there was no memory for what is read.
pub fn read<R: Room>(
    alloc: Global,
    field_nodes: &mut VecDeque<FieldNode>,
    field: &Field,
    ipc_field: &IpcField,
    buffers: &mut VecDeque<Buffer>,
    reader: &mut R,
    dictionaries: &Dictionaries,
    block_offset: u64,
    is_little_endian: bool,
    compression: Option<BodyCompressionRef<'_>>,
    limit: Option<usize>,
    version: MetadataVersion,
    scratch: &mut Vec<u8>,
) -> Result<AnyArray>
    ensures { ReadsArray (is_some compression.entry) (R.told reader.old) (R.told reader.new) field.now.data_type
        (at_front field_nodes.old.items buffers.old.items (version_view version) is_little_endian (standing_in dictionaries.now) limit
        block_offset (ids_view ipc_field.now)) (version_view version) field_nodes.old.items field_nodes.new.items buffers.old.items
        buffers.new.items result }
{
    read_type(
        alloc,
        field_nodes,
        &field.data_type,
        ipc_field,
        buffers,
        reader,
        dictionaries,
        block_offset,
        is_little_endian,
        compression,
        limit,
        version,
        scratch,
    )
}
