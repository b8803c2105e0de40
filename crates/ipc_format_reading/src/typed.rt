//! Columns of one kind that have columns below them.
ghost use Rattle.std.specs.Prelude.{◌≡◌, ◌↔◌, is_some, IsTrue};
ghost use Rattle.ipc_format_array_reading.specs.ReadArrays.{at_front, standing_in};
ghost use Rattle.ipc_format_array_reading.specs.ArrayReads.{array_slots};
ghost use Rattle.ipc_format_array_reading.specs.Reads.{ReadsColumn};
ghost use Rattle.ipc_format_array_reading.specs.columnar_memory.Layouts.{physical_type};
ghost use Rattle.ipc_format_array_reading.specs.columnar_memory.declared.PhysicalType.TheVariants as layouts;
ghost use Rattle.ipc_format_array_reading.specs.grammar.Layouts.{buffer_count, node_count};
ghost use Rattle.ipc_format_array_reading.specs.messages.MessageViews.{version_view};
ghost use Rattle.ipc_format_array_reading.specs.metadata.Views.{ids_view};

use crate::deserialize::read_type;
use ipc_format_array_reading::columnar_memory::{DataType, Error, PhysicalType, Result};
use ipc_format_array_reading::nested_arrays_core::{
    AnyArray, FixedSizeListArray, ListArray, MapArray, StructArray, UnionArray,
};
use ipc_format_array_reading::{
    BodyCompressionRef, Buffer, Dictionaries, FieldNode, IpcField, MetadataVersion, Room,
};
use std::alloc::Global;
use std::collections::VecDeque;

/// Whether arrays of a data type lie in memory in a given way.
fn is_laid(data_type: &DataType, layout: PhysicalType) -> bool
    ensures { IsTrue result ↔ (physical_type data_type.now ≡ layout) }
{
    data_type.to_physical_type() == layout
}

/// Reads a column whose arrays lie in memory in a given way.
fn read_as<R: Room>(
    alloc: Global,
    field_nodes: &mut VecDeque<FieldNode>,
    data_type: &DataType,
    layout: PhysicalType,
    ipc_field: &IpcField,
    buffers: &mut VecDeque<Buffer>,
    reader: &mut R,
    dictionaries: &Dictionaries,
    block_offset: u64,
    is_little_endian: bool,
    compression: Option<BodyCompressionRef<'_>>,
    limit: Option<usize>,
    version: MetadataVersion,
    scratch: &mut Vec<u8>,
) -> Result<AnyArray>
    ensures { ReadsColumn (physical_type data_type.now ≡ layout) (is_some compression.entry) (R.told reader.old) (R.told reader.new)
        (λ array. array) data_type.now
        (λ room. array_slots data_type.now (at_front field_nodes.old.items buffers.old.items (version_view version) is_little_endian
        (standing_in dictionaries.now) limit block_offset (ids_view ipc_field.now) room))
        (node_count data_type.now) (buffer_count (version_view version) data_type.now)
        field_nodes.old.items field_nodes.new.items buffers.old.items buffers.new.items result }
{
    if is_laid(data_type, layout) {
        return read_type(
            alloc,
            field_nodes,
            data_type,
            ipc_field,
            buffers,
            reader,
            dictionaries,
            block_offset,
            is_little_endian,
            compression,
            limit,
            version,
            scratch,
        );
    }
    Err(Error::OutOfSpec("InvalidDataType"))
}

/// Reads a column of lists with offsets of 32 bits, with the columns below it, as `read` does.
///
/// # Errors
/// As `read`; `OutOfSpec` also where the type is of another kind, and then the queues stay.
pub fn read_list<R: Room>(
    alloc: Global,
    field_nodes: &mut VecDeque<FieldNode>,
    data_type: DataType,
    ipc_field: &IpcField,
    buffers: &mut VecDeque<Buffer>,
    reader: &mut R,
    dictionaries: &Dictionaries,
    block_offset: u64,
    is_little_endian: bool,
    compression: Option<BodyCompressionRef<'_>>,
    limit: Option<usize>,
    version: MetadataVersion,
    scratch: &mut Vec<u8>,
) -> Result<ListArray<i32>>
    ensures { ReadsColumn (physical_type data_type ≡ layouts.List) (is_some compression.entry) (R.told reader.old) (R.told reader.new)
        (λ array. array) data_type
        (λ room. array_slots data_type (at_front field_nodes.old.items buffers.old.items (version_view version) is_little_endian
        (standing_in dictionaries.now) limit block_offset (ids_view ipc_field.now) room))
        (node_count data_type) (buffer_count (version_view version) data_type)
        field_nodes.old.items field_nodes.new.items buffers.old.items buffers.new.items result }
{
    let array = read_as(
        alloc,
        field_nodes,
        &data_type,
        PhysicalType::List,
        ipc_field,
        buffers,
        reader,
        dictionaries,
        block_offset,
        is_little_endian,
        compression,
        limit,
        version,
        scratch,
    )?;
    match ListArray::<i32>::try_from(array) {
        Ok(array) => Ok(array),
        Err(_) => Err(Error::OutOfSpec("InvalidDataType")),
    }
}

/// Reads a column of lists with offsets of 64 bits, with the columns below it, as `read` does.
///
/// # Errors
/// As `read`; `OutOfSpec` also where the type is of another kind, and then the queues stay.
pub fn read_large_list<R: Room>(
    alloc: Global,
    field_nodes: &mut VecDeque<FieldNode>,
    data_type: DataType,
    ipc_field: &IpcField,
    buffers: &mut VecDeque<Buffer>,
    reader: &mut R,
    dictionaries: &Dictionaries,
    block_offset: u64,
    is_little_endian: bool,
    compression: Option<BodyCompressionRef<'_>>,
    limit: Option<usize>,
    version: MetadataVersion,
    scratch: &mut Vec<u8>,
) -> Result<ListArray<i64>>
    ensures { ReadsColumn (physical_type data_type ≡ layouts.LargeList) (is_some compression.entry) (R.told reader.old) (R.told reader.new)
        (λ array. array) data_type
        (λ room. array_slots data_type (at_front field_nodes.old.items buffers.old.items (version_view version) is_little_endian
        (standing_in dictionaries.now) limit block_offset (ids_view ipc_field.now) room))
        (node_count data_type) (buffer_count (version_view version) data_type)
        field_nodes.old.items field_nodes.new.items buffers.old.items buffers.new.items result }
{
    let array = read_as(
        alloc,
        field_nodes,
        &data_type,
        PhysicalType::LargeList,
        ipc_field,
        buffers,
        reader,
        dictionaries,
        block_offset,
        is_little_endian,
        compression,
        limit,
        version,
        scratch,
    )?;
    match ListArray::<i64>::try_from(array) {
        Ok(array) => Ok(array),
        Err(_) => Err(Error::OutOfSpec("InvalidDataType")),
    }
}

/// Reads a column of lists of one size, with the columns below it, as `read` does.
///
/// # Errors
/// As `read`; `OutOfSpec` also where the type is of another kind, and then the queues stay.
pub fn read_fixed_size_list<R: Room>(
    alloc: Global,
    field_nodes: &mut VecDeque<FieldNode>,
    data_type: DataType,
    ipc_field: &IpcField,
    buffers: &mut VecDeque<Buffer>,
    reader: &mut R,
    dictionaries: &Dictionaries,
    block_offset: u64,
    is_little_endian: bool,
    compression: Option<BodyCompressionRef<'_>>,
    limit: Option<usize>,
    version: MetadataVersion,
    scratch: &mut Vec<u8>,
) -> Result<FixedSizeListArray>
    ensures { ReadsColumn (physical_type data_type ≡ layouts.FixedSizeList) (is_some compression.entry) (R.told reader.old) (R.told reader.new)
        (λ array. array) data_type
        (λ room. array_slots data_type (at_front field_nodes.old.items buffers.old.items (version_view version) is_little_endian
        (standing_in dictionaries.now) limit block_offset (ids_view ipc_field.now) room))
        (node_count data_type) (buffer_count (version_view version) data_type)
        field_nodes.old.items field_nodes.new.items buffers.old.items buffers.new.items result }
{
    let array = read_as(
        alloc,
        field_nodes,
        &data_type,
        PhysicalType::FixedSizeList,
        ipc_field,
        buffers,
        reader,
        dictionaries,
        block_offset,
        is_little_endian,
        compression,
        limit,
        version,
        scratch,
    )?;
    match FixedSizeListArray::try_from(array) {
        Ok(array) => Ok(array),
        Err(_) => Err(Error::OutOfSpec("InvalidDataType")),
    }
}

/// Reads a column of maps, with the columns below it, as `read` does.
///
/// # Errors
/// As `read`; `OutOfSpec` also where the type is of another kind, and then the queues stay.
pub fn read_map<R: Room>(
    alloc: Global,
    field_nodes: &mut VecDeque<FieldNode>,
    data_type: DataType,
    ipc_field: &IpcField,
    buffers: &mut VecDeque<Buffer>,
    reader: &mut R,
    dictionaries: &Dictionaries,
    block_offset: u64,
    is_little_endian: bool,
    compression: Option<BodyCompressionRef<'_>>,
    limit: Option<usize>,
    version: MetadataVersion,
    scratch: &mut Vec<u8>,
) -> Result<MapArray>
    ensures { ReadsColumn (physical_type data_type ≡ layouts.Map) (is_some compression.entry) (R.told reader.old) (R.told reader.new)
        (λ array. array) data_type
        (λ room. array_slots data_type (at_front field_nodes.old.items buffers.old.items (version_view version) is_little_endian
        (standing_in dictionaries.now) limit block_offset (ids_view ipc_field.now) room))
        (node_count data_type) (buffer_count (version_view version) data_type)
        field_nodes.old.items field_nodes.new.items buffers.old.items buffers.new.items result }
{
    let array = read_as(
        alloc,
        field_nodes,
        &data_type,
        PhysicalType::Map,
        ipc_field,
        buffers,
        reader,
        dictionaries,
        block_offset,
        is_little_endian,
        compression,
        limit,
        version,
        scratch,
    )?;
    match MapArray::try_from(array) {
        Ok(array) => Ok(array),
        Err(_) => Err(Error::OutOfSpec("InvalidDataType")),
    }
}

/// Reads a column of structs, with the columns below it, as `read` does.
///
/// # Errors
/// As `read`; `OutOfSpec` also where the type is of another kind, and then the queues stay.
pub fn read_struct<R: Room>(
    alloc: Global,
    field_nodes: &mut VecDeque<FieldNode>,
    data_type: DataType,
    ipc_field: &IpcField,
    buffers: &mut VecDeque<Buffer>,
    reader: &mut R,
    dictionaries: &Dictionaries,
    block_offset: u64,
    is_little_endian: bool,
    compression: Option<BodyCompressionRef<'_>>,
    limit: Option<usize>,
    version: MetadataVersion,
    scratch: &mut Vec<u8>,
) -> Result<StructArray>
    ensures { ReadsColumn (physical_type data_type ≡ layouts.Struct) (is_some compression.entry) (R.told reader.old) (R.told reader.new)
        (λ array. array) data_type
        (λ room. array_slots data_type (at_front field_nodes.old.items buffers.old.items (version_view version) is_little_endian
        (standing_in dictionaries.now) limit block_offset (ids_view ipc_field.now) room))
        (node_count data_type) (buffer_count (version_view version) data_type)
        field_nodes.old.items field_nodes.new.items buffers.old.items buffers.new.items result }
{
    let array = read_as(
        alloc,
        field_nodes,
        &data_type,
        PhysicalType::Struct,
        ipc_field,
        buffers,
        reader,
        dictionaries,
        block_offset,
        is_little_endian,
        compression,
        limit,
        version,
        scratch,
    )?;
    match StructArray::try_from(array) {
        Ok(array) => Ok(array),
        Err(_) => Err(Error::OutOfSpec("InvalidDataType")),
    }
}

/// Reads a column of a union, with the columns below it, as `read` does.
///
/// # Errors
/// As `read`; `OutOfSpec` also where the type is of another kind, and then the queues stay.
pub fn read_union<R: Room>(
    alloc: Global,
    field_nodes: &mut VecDeque<FieldNode>,
    data_type: DataType,
    ipc_field: &IpcField,
    buffers: &mut VecDeque<Buffer>,
    reader: &mut R,
    dictionaries: &Dictionaries,
    block_offset: u64,
    is_little_endian: bool,
    compression: Option<BodyCompressionRef<'_>>,
    limit: Option<usize>,
    version: MetadataVersion,
    scratch: &mut Vec<u8>,
) -> Result<UnionArray>
    ensures { ReadsColumn (physical_type data_type ≡ layouts.Union) (is_some compression.entry) (R.told reader.old) (R.told reader.new)
        (λ array. array) data_type
        (λ room. array_slots data_type (at_front field_nodes.old.items buffers.old.items (version_view version) is_little_endian
        (standing_in dictionaries.now) limit block_offset (ids_view ipc_field.now) room))
        (node_count data_type) (buffer_count (version_view version) data_type)
        field_nodes.old.items field_nodes.new.items buffers.old.items buffers.new.items result }
{
    let array = read_as(
        alloc,
        field_nodes,
        &data_type,
        PhysicalType::Union,
        ipc_field,
        buffers,
        reader,
        dictionaries,
        block_offset,
        is_little_endian,
        compression,
        limit,
        version,
        scratch,
    )?;
    match UnionArray::try_from(array) {
        Ok(array) => Ok(array),
        Err(_) => Err(Error::OutOfSpec("InvalidDataType")),
    }
}
