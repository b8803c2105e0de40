//! Columns of keys into dictionaries that stand.
ghost use Rattle.std.specs.Prelude.{◌≡◌, ◌↔◌, IsTrue, map, is_some, option_copied, false, true};
ghost use Rattle.std.specs.Map.{lookup};
ghost use Rattle.std.specs.Ordering.{int_eq};
ghost use Rattle.ipc_format_column_writing.specs.columnar_memory.Layouts.{physical_type};
ghost use Rattle.ipc_format_column_writing.specs.columnar_memory.declared.PhysicalType.TheVariants as layouts;
ghost use Rattle.ipc_format_column_writing.specs.nested_arrays.StoredColumns.{column_type, type_layer};
ghost use Rattle.ipc_format_column_writing.specs.grammar.Messages.{V5};
ghost use Rattle.ipc_format_column_writing.specs.grammar.Schemas.{ids, no_ids};
ghost use Rattle.ipc_format_column_writing.specs.column_reading.Queues.{TakesOff};
ghost use Rattle.ipc_format_column_writing.specs.column_reading.Reads.{ReadsColumn};
ghost use Rattle.ipc_format_column_writing.specs.column_reading.Rooms.{ReadsAs};
ghost use Rattle.ipc_format_array_reading.specs.ArrayReads.{array_slots};
ghost use Rattle.ipc_format_array_reading.specs.ReadArrays.{at_front, standing_in};
ghost use Rattle.ipc_format_array_reading.specs.Keyed.{MakesKeyed, has_values, next_keys, values_for};

use crate::dictionaries::Dictionaries;
use ipc_format_column_writing::column_reading::{Room, read_buffer, read_marked};
use ipc_format_column_writing::columnar_memory::{DataType, Error, PhysicalType, Result};
use ipc_format_column_writing::messages as ipc;
use ipc_format_column_writing::messages::{BodyCompressionRef, FieldNode};
use ipc_format_column_writing::nested_arrays_core::flat_arrays::PrimitiveArray;
use ipc_format_column_writing::nested_arrays_core::{
    AnyArray, Array, DictionaryArray, DictionaryKey,
};
use std::alloc::Global;
use std::collections::VecDeque;

/// Whether a data type is of dictionaries with such keys.
fn has_keys<K: DictionaryKey>(data_type: &DataType) -> bool
    ensures { IsTrue result ↔ (physical_type data_type.now ≡ layouts.Dictionary K.KEY_TYPE) }
{
    data_type.to_physical_type() == PhysicalType::Dictionary(K::KEY_TYPE)
}

/// Whether a data type is of dictionaries whose values have another.
fn has_values(data_type: &DataType, value_type: &DataType) -> bool
    ensures { result ≡ has_values (type_layer data_type.now) value_type.now }
{
    match data_type.to_logical_type() {
        DataType::Dictionary(_, value, _) => *value_type == *value.get(),
        _ => false,
    }
}

/// The values that stand under an id.
fn values_under(id: i64, dictionaries: &Dictionaries) -> Option<&AnyArray>
    ensures { option_copied result ≡ lookup (int_eq id) dictionaries.now.entries }
{
    dictionaries.get(&id)
}

/// The values that stand under an id, where they have the type that a type of dictionaries says.
fn values_for<'a>(
    data_type: &DataType,
    id: Option<i64>,
    dictionaries: &'a Dictionaries,
) -> Option<&'a AnyArray>
    ensures { option_copied result ≡ values_for (type_layer data_type.now) id dictionaries.now }
{
    let id = id?;
    let values = values_under(id, dictionaries)?;
    if has_values(data_type, values.data_type()) {
        Some(values)
    } else {
        None
    }
}

/// Reads keys, those under nulls too: a node and two buffers.
///
/// # Errors
/// As of `read_dictionary`.
fn read_keys<K: DictionaryKey, R: Room>(
    alloc: Global,
    field_nodes: &mut VecDeque<FieldNode>,
    buffers: &mut VecDeque<ipc::Buffer>,
    reader: &mut R,
    block_offset: u64,
    is_little_endian: bool,
    limit: Option<usize>,
    scratch: &mut Vec<u8>,
) -> Result<PrimitiveArray<K>>
    ensures read { ReadsAs false (R.told reader.old) (R.told reader.new) (λ keys. (keys.validity, map K.numbers keys.values))
        (next_keys K.PRIMITIVE is_little_endian field_nodes.old.items limit buffers.old.items block_offset) result }
    ensures nodes { TakesOff 1 field_nodes.old.items field_nodes.new.items result }
    ensures buffers { TakesOff 2 buffers.old.items buffers.new.items result }
{
    let marked = read_marked(
        alloc,
        field_nodes,
        buffers,
        reader,
        block_offset,
        is_little_endian,
        None,
        limit,
        scratch,
    )?;
    let values = read_buffer::<K, R>(
        alloc,
        buffers,
        marked.taken,
        reader,
        block_offset,
        is_little_endian,
        None,
        scratch,
    )?;
    Ok(PrimitiveArray::new(DataType::from(K::PRIMITIVE), values, marked.validity))
}

/// The array of keys and values.
///
/// # Errors
/// - `OutOfSpec`: the key of a slot that is not null is no place of a value.
/// - `OutOfMemory`: there was no memory for the copy of the values.
fn dictionary_of<K: DictionaryKey>(
    alloc: Global,
    data_type: DataType,
    keys: PrimitiveArray<K>,
    values: &AnyArray,
) -> Result<DictionaryArray<K>>
    requires kind { physical_type data_type ≡ layouts.Dictionary K.KEY_TYPE }
    requires typed { has_values (type_layer data_type) (column_type values.now) ≡ true }
    ensures { MakesKeyed data_type values.now keys.validity (map K.numbers keys.values) result }
{
    let _type = keys.data_type();
    keys.whole();
    values.whole();
    let copy = values.clone()?;
    let boxed = Box::new(alloc, copy)?;
    DictionaryArray::try_new(data_type, keys, boxed)
}

/// Reads a column of keys into an array whose values are those that stand under an id.
///
/// # Errors
/// As of `read_dictionary`.
fn read_standing<K: DictionaryKey, R: Room>(
    alloc: Global,
    field_nodes: &mut VecDeque<FieldNode>,
    data_type: DataType,
    id: Option<i64>,
    buffers: &mut VecDeque<ipc::Buffer>,
    reader: &mut R,
    dictionaries: &Dictionaries,
    block_offset: u64,
    is_little_endian: bool,
    limit: Option<usize>,
    scratch: &mut Vec<u8>,
) -> Result<DictionaryArray<K>>
    requires { physical_type data_type ≡ layouts.Dictionary K.KEY_TYPE }
    ensures { ReadsColumn (physical_type data_type ≡ layouts.Dictionary K.KEY_TYPE) false (R.told reader.old) (R.told reader.new)
        (λ array. array) data_type
        (λ room. array_slots data_type (at_front field_nodes.old.items buffers.old.items V5 is_little_endian (standing_in dictionaries.now) limit
        block_offset (ids id no_ids) room))
        1 2 field_nodes.old.items field_nodes.new.items buffers.old.items buffers.new.items result }
{
    let Some(values) = values_for(&data_type, id, dictionaries) else {
        return Err(Error::OutOfSpec("a dictionary that does not stand"));
    };
    let keys = read_keys::<K, R>(
        alloc,
        field_nodes,
        buffers,
        reader,
        block_offset,
        is_little_endian,
        limit,
        scratch,
    )?;
    dictionary_of(alloc, data_type, keys, values)
}

/// Reads a column of keys, a node and two buffers, into an array whose values are those that stand under the id of the column's field. The array
/// shares their memory.
///
/// # Errors
/// - `OutOfSpec`: the type is of another kind, and the queues stay; or there is no id, no values stand under it, or their type is another than
///   the column's type says; or there is no node or too few buffers, a length or an offset is negative, or a buffer states or has fewer bytes
///   than are taken, or a key that is not null is no place of a value.
/// - `NotYetImplemented`: the buffers are compressed.
/// - `Io`: the device failed.
/// - `OutOfMemory`: there was no memory for the keys, for the copy of the values, or for what the device reads.
pub fn read_dictionary<K: DictionaryKey, R: Room>(
    alloc: Global,
    field_nodes: &mut VecDeque<FieldNode>,
    data_type: DataType,
    id: Option<i64>,
    buffers: &mut VecDeque<ipc::Buffer>,
    reader: &mut R,
    dictionaries: &Dictionaries,
    block_offset: u64,
    is_little_endian: bool,
    compression: Option<BodyCompressionRef<'_>>,
    limit: Option<usize>,
    scratch: &mut Vec<u8>,
) -> Result<DictionaryArray<K>>
    ensures { ReadsColumn (physical_type data_type ≡ layouts.Dictionary K.KEY_TYPE) (is_some compression.entry)
        (R.told reader.old) (R.told reader.new) (λ array. array) data_type
        (λ room. array_slots data_type (at_front field_nodes.old.items buffers.old.items V5 is_little_endian (standing_in dictionaries.now) limit
        block_offset (ids id no_ids) room))
        1 2 field_nodes.old.items field_nodes.new.items buffers.old.items buffers.new.items result }
{
    if !has_keys::<K>(&data_type) {
        return Err(Error::OutOfSpec("InvalidDataType"));
    }
    if compression.is_some() {
        return Err(Error::NotYetImplemented("compressed buffers"));
    }
    read_standing(
        alloc,
        field_nodes,
        data_type,
        id,
        buffers,
        reader,
        dictionaries,
        block_offset,
        is_little_endian,
        limit,
        scratch,
    )
}
