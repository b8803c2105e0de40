//! Columns of any type without columns below them.
ghost use Rattle.std.specs.Prelude.{◌≡◌, false};
ghost use Rattle.ipc_format_column_writing.specs.columnar_memory.Layouts.{physical_type};
ghost use Rattle.ipc_format_column_writing.specs.columnar_memory.declared.PhysicalType.TheVariants as layouts;
ghost use Rattle.ipc_format_column_writing.specs.nested_arrays.StoredColumns.{type_layer};
ghost use Rattle.ipc_format_column_writing.specs.grammar.Messages.{V5};
ghost use Rattle.ipc_format_column_writing.specs.grammar.Schemas.{ids, no_ids};
ghost use Rattle.ipc_format_column_writing.specs.messages.MessageViews.{version_view};
ghost use Rattle.ipc_format_column_writing.specs.metadata.Views.{ids_view};
ghost use Rattle.ipc_format_array_reading.specs.Parts.{has_children};
ghost use Rattle.ipc_format_array_reading.specs.ReadArrays.{ReadsArray, at_front, standing_in};

use crate::dictionaries::Dictionaries;
use crate::flats::{any_of, read_flat};
use crate::keyed::read_dictionary;
use ipc_format_column_writing::column_reading::Room;
use ipc_format_column_writing::columnar_memory::{DataType, IntegerType, PhysicalType, Result};
use ipc_format_column_writing::messages as ipc;
use ipc_format_column_writing::messages::{FieldNode, MetadataVersion};
use ipc_format_column_writing::metadata::IpcField;
use ipc_format_column_writing::nested_arrays_core::{AnyArray, DictionaryKey};
use std::alloc::Global;
use std::collections::VecDeque;

/// Reads a column of keys of a type.
fn read_keys_as<K: DictionaryKey, R: Room>(
    alloc: Global,
    field_nodes: &mut VecDeque<FieldNode>,
    data_type: DataType,
    id: Option<i64>,
    buffers: &mut VecDeque<ipc::Buffer>,
    reader: &mut R,
    dictionaries: &Dictionaries,
    block_offset: u64,
    is_little_endian: bool,
    limit: Option<usize>,
    scratch: &mut Vec<u8>,
) -> Result<AnyArray>
    requires { physical_type data_type ≡ layouts.Dictionary K.KEY_TYPE }
    ensures { ReadsArray false (R.told reader.old) (R.told reader.new) data_type
        (at_front field_nodes.old.items buffers.old.items V5 is_little_endian (standing_in dictionaries.now) limit block_offset
        (ids id no_ids)) V5
        field_nodes.old.items field_nodes.new.items buffers.old.items buffers.new.items result }
{
    any_of(read_dictionary::<K, R>(
        alloc,
        field_nodes,
        data_type,
        id,
        buffers,
        reader,
        dictionaries,
        block_offset,
        is_little_endian,
        None,
        limit,
        scratch,
    ))
}

/// The same answer of keys of each integer type.
macro_rules! of_keys {
    ($key:expr, $arguments:tt) => {
        match $key {
            IntegerType::Int8 => read_keys_as::<i8, R> $arguments,
            IntegerType::Int16 => read_keys_as::<i16, R> $arguments,
            IntegerType::Int32 => read_keys_as::<i32, R> $arguments,
            IntegerType::Int64 => read_keys_as::<i64, R> $arguments,
            IntegerType::UInt8 => read_keys_as::<u8, R> $arguments,
            IntegerType::UInt16 => read_keys_as::<u16, R> $arguments,
            IntegerType::UInt32 => read_keys_as::<u32, R> $arguments,
            IntegerType::UInt64 => read_keys_as::<u64, R> $arguments,
        }
    };
}

/// Reads a column of keys of an integer type.
fn read_keyed<R: Room>(
    alloc: Global,
    field_nodes: &mut VecDeque<FieldNode>,
    data_type: DataType,
    key: IntegerType,
    id: Option<i64>,
    buffers: &mut VecDeque<ipc::Buffer>,
    reader: &mut R,
    dictionaries: &Dictionaries,
    block_offset: u64,
    is_little_endian: bool,
    limit: Option<usize>,
    scratch: &mut Vec<u8>,
) -> Result<AnyArray>
    requires { physical_type data_type ≡ layouts.Dictionary key }
    ensures { ReadsArray false (R.told reader.old) (R.told reader.new) data_type
        (at_front field_nodes.old.items buffers.old.items V5 is_little_endian (standing_in dictionaries.now) limit block_offset
        (ids id no_ids)) V5
        field_nodes.old.items field_nodes.new.items buffers.old.items buffers.new.items result }
{
    of_keys!(
        key,
        (
            alloc,
            field_nodes,
            data_type,
            id,
            buffers,
            reader,
            dictionaries,
            block_offset,
            is_little_endian,
            limit,
            scratch
        )
    )
}

/// Reads a column of a type without columns below it, at the fronts of the queues. Of a dictionary these are the keys; its values are those that
/// stand under the field's own id, and the array shares their memory.
///
/// # Errors
/// - `OutOfSpec`: there is no node or too few buffers, a length or an offset is negative, or a buffer states or has fewer bytes than are taken;
///   there are no arrays of the type, which is of floats or of byte strings without bytes; an offset is below the one before it, a text is not
///   UTF-8 by itself; or no values of the type stand under the field's id, or a key that is not null is no place of one.
/// - `Io`: the device failed.
/// - `OutOfMemory`: there was no memory for the values, for the copy of a dictionary, or for what the device reads.
pub fn read_childless<R: Room>(
    alloc: Global,
    field_nodes: &mut VecDeque<FieldNode>,
    data_type: &DataType,
    ipc_field: &IpcField,
    buffers: &mut VecDeque<ipc::Buffer>,
    reader: &mut R,
    dictionaries: &Dictionaries,
    block_offset: u64,
    is_little_endian: bool,
    limit: Option<usize>,
    _version: MetadataVersion,
    scratch: &mut Vec<u8>,
) -> Result<AnyArray>
    requires { has_children (type_layer data_type.now) ≡ false }
    ensures read { ReadsArray false (R.told reader.old) (R.told reader.new) data_type.now
        (at_front field_nodes.old.items buffers.old.items (version_view _version) is_little_endian (standing_in dictionaries.now) limit block_offset
        (ids_view ipc_field.now)) (version_view _version)
        field_nodes.old.items field_nodes.new.items buffers.old.items buffers.new.items result }
{
    let copy = data_type.clone()?;
    match copy.to_physical_type() {
        PhysicalType::Dictionary(key) => read_keyed(
            alloc,
            field_nodes,
            copy,
            key,
            ipc_field.dictionary_id,
            buffers,
            reader,
            dictionaries,
            block_offset,
            is_little_endian,
            limit,
            scratch,
        ),
        _ => read_flat(
            alloc,
            field_nodes,
            copy,
            buffers,
            reader,
            block_offset,
            is_little_endian,
            limit,
            scratch,
        ),
    }
}
