//! The keys of dictionaries.
ghost use Rattle.std.specs.Prelude.{◌≡◌, ◌+◌, ◌≤◌, length, map, true};
ghost use Rattle.nested_arrays_builders.specs.arrays.columns.SoundColumns.{is_sound, mask_fits};
ghost use Rattle.nested_arrays_builders.specs.arrays.columnar_memory.Conversions.{type_of_primitive};
ghost use Rattle.nested_arrays_builders.specs.arrays.columnar_memory.Layouts.{physical_type};
ghost use Rattle.nested_arrays_builders.specs.arrays.columnar_memory.Numbers.{one};
ghost use Rattle.nested_arrays_builders.specs.arrays.columnar_memory.Results.{OrOutOfMemory};
ghost use Rattle.nested_arrays_builders.specs.arrays.columns.Kinds.{most_values};
ghost use Rattle.nested_arrays_builders.specs.arrays.columns.StoredColumns.{flat};
ghost use Rattle.nested_arrays_builders.specs.arrays.flat.FlatColumns.{stored_numbers};
ghost use Rattle.nested_arrays_builders.specs.arrays.parts.Keys.{keyed, AreKeysOf};
ghost use Rattle.nested_arrays_builders.specs.values.Uses.{greatest, key_of, keys_from};
ghost use Rattle.nested_arrays_builder_arrays.specs.FrozenKeys.{AreFrozenKeys};

use nested_arrays_builders::arrays::flat::{AnyPrimitive, PrimitiveKind};
use nested_arrays_builders::arrays::{AnyArray, DictionaryNode, Node};
use nested_arrays_builders::columnar_memory::{
    Bitmap, Buffer, DataType, Index, IntegerType, Result,
};
use nested_arrays_builders::flat_arrays::PrimitiveArray;
use nested_arrays_builders::values::SlotUses;
use std::alloc::Global;

/// The key of a slot that needs so many of the values; 0 where it needs none.
fn key_of(need: usize) -> usize
    ensures { result ≡ key_of need }
{
    if need == 0 { 0 } else { need - 1 }
}

/// The keys of slots that need so many of the values each.
fn keys_of<K: Index>(alloc: Global, uses: &[usize]) -> Result<Vec<K>>
    requires { greatest uses.now ≤ K.greatest + 1 }
    ensures { OrOutOfMemory result (λ keys. map K.value keys.items ≡ keys_from uses.now) }
{
    let mut keys = Vec::new(alloc);
    for need in uses {
        keys.push(K::from_as_usize(key_of(*need)))?;
    }
    Ok(keys)
}

/// The array of keys of one type.
fn keys_array<K: Index + PrimitiveKind>(
    alloc: Global,
    uses: SlotUses,
    validity: Option<Bitmap>,
) -> Result<AnyPrimitive>
    requires few { greatest uses ≤ K.greatest + 1 }
    requires masked { mask_fits validity (length uses) ≡ true }
    ensures { OrOutOfMemory result (λ array. array
        ≡ flat (type_of_primitive K.PRIMITIVE) validity (stored_numbers K.PRIMITIVE (map one (keys_from uses)))) }
{
    let keys = keys_of::<K>(alloc, uses.as_slice())?;
    let values = Buffer::from_vec(keys)?;
    let array = PrimitiveArray::new(DataType::from(K::PRIMITIVE), values, validity);
    Ok(AnyPrimitive::from_array(array))
}

/// The array of the keys of slots that need so many of the values each, by the type of the keys.
pub(crate) fn freeze_keys(
    alloc: Global,
    key: IntegerType,
    uses: SlotUses,
    validity: Option<Bitmap>,
) -> Result<AnyPrimitive>
    requires few { greatest uses ≤ most_values key }
    requires masked { mask_fits validity (length uses) ≡ true }
    ensures { OrOutOfMemory result (AreFrozenKeys key validity uses) }
{
    match key {
        IntegerType::Int8 => keys_array::<i8>(alloc, uses, validity),
        IntegerType::Int16 => keys_array::<i16>(alloc, uses, validity),
        IntegerType::Int32 => keys_array::<i32>(alloc, uses, validity),
        IntegerType::Int64 => keys_array::<i64>(alloc, uses, validity),
        IntegerType::UInt8 => keys_array::<u8>(alloc, uses, validity),
        IntegerType::UInt16 => keys_array::<u16>(alloc, uses, validity),
        IntegerType::UInt32 => keys_array::<u32>(alloc, uses, validity),
        IntegerType::UInt64 => keys_array::<u64>(alloc, uses, validity),
    }
}

/// The dictionary with these keys and values, which fit.
pub(crate) fn dictionary_array(
    data_type: DataType,
    keys: AnyPrimitive,
    values: Box<AnyArray>,
) -> AnyArray
    requires sound { is_sound (keyed data_type keys values.value) ≡ true }
    requires lies { AreKeysOf (physical_type data_type) keys }
    ensures { result ≡ keyed data_type keys values.value }
{
    AnyArray {
        node: Node::Dictionary(DictionaryNode {
            data_type,
            keys,
            values,
        }),
    }
}
