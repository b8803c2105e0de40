//! The arrays of keys and values that a builder of dictionaries held.
ghost use Rattle.std.specs.Prelude.{◌≡◌, ◌+◌, ◌≤◌, length, map, option_copied, true};
ghost use Rattle.nested_arrays_sized_builders.specs.values.Uses.{greatest, key_of, keys_from};
ghost use Rattle.nested_arrays_sized_builders.specs.nulls.columnar_memory.Layouts.{physical_type};
ghost use Rattle.nested_arrays_sized_builders.specs.nulls.columnar_memory.Results.{OrOutOfMemory};
ghost use Rattle.nested_arrays_sized_builders.specs.nulls.columnar_memory.declared.PhysicalType.TheVariants as physical;
ghost use Rattle.nested_arrays_sized_builders.specs.nulls.columns.SoundColumns.{mask_fits};
ghost use Rattle.nested_arrays_sized_builders.specs.nulls.columns.StoredColumns.{dictionary};
ghost use Rattle.nested_arrays_sized_builders.specs.cells.parts.Marks.{mask_of_marks};
ghost use Rattle.nested_arrays_dictionary_builders.specs.DictionaryBuilders.{FreezesKeys};
ghost use Rattle.nested_arrays_sized_builders.specs.cells.taken.OpenColumns.{IsFrozen};

use nested_arrays_sized_builders::cells::builders::values::SlotUses;
use nested_arrays_sized_builders::cells::parts::Marks;
use nested_arrays_sized_builders::flat_arrays::PrimitiveArray;
use nested_arrays_sized_builders::nulls::arrays::AnyArray;
use nested_arrays_sized_builders::nulls::columnar_memory::{
    Bitmap, Buffer, DataType, Index, MutableBitmap, Result,
};
use nested_arrays_sized_builders::nulls::generic::{DictionaryArray, DictionaryKey};
use std::alloc::Global;

/// The key of a slot that needs so many of the values; 0 where it needs none.
fn key_of(need: usize) -> usize
    ensures { result ≡ key_of need }
{
    if need == 0 { 0 } else { need - 1 }
}

/// The keys of slots that need so many of the values each.
fn keys_of<K: Index>(alloc: Global, uses: &[usize]) -> Result<Vec<K>>
    requires { greatest uses.now ≤ K.greatest + 1 }
    ensures { OrOutOfMemory result (λ keys. map K.value keys.items ≡ keys_from uses.now) }
{
    let mut keys = Vec::with_capacity(alloc, uses.len())?;
    for need in uses {
        keys.push(K::from_as_usize(key_of(*need)))?;
    }
    Ok(keys)
}

/// The array of the keys of slots that need so many of the values each.
fn keys_array<K: DictionaryKey>(
    alloc: Global,
    uses: &[usize],
    validity: Option<Bitmap>,
) -> Result<PrimitiveArray<K>>
    requires few { greatest uses.now ≤ K.greatest + 1 }
    requires masked { mask_fits validity (length uses.now) ≡ true }
    ensures { OrOutOfMemory result (λ keys. (keys.validity ≡ validity) × (map K.value keys.values ≡ keys_from uses.now)) }
{
    let keys = keys_of::<K>(alloc, uses)?;
    let values = Buffer::from_vec(keys)?;
    Ok(PrimitiveArray::new(DataType::from(K::PRIMITIVE), values, validity))
}

/// A copy of a mask, where there is one.
fn copy_of_mask(mask: Option<&MutableBitmap>) -> Result<Option<Bitmap>>
    ensures { OrOutOfMemory result (λ copy. copy ≡ option_copied mask.entry) }
{
    match mask {
        Some(bits) => Ok(Some(bits.clone()?.freeze()?)),
        None => Ok(None),
    }
}

/// The array of the keys of marked slots that need so many of the values each.
pub(crate) fn copy_of_keys<K: DictionaryKey>(
    alloc: Global,
    marks: &Marks,
    uses: &SlotUses,
) -> Result<PrimitiveArray<K>>
    requires few { greatest uses.now ≤ K.greatest + 1 }
    requires marked { length marks.now ≡ length uses.now }
    ensures { OrOutOfMemory result (λ keys. (keys.validity ≡ mask_of_marks marks.now) × (map K.value keys.values ≡ keys_from uses.now)) }
{
    let validity = copy_of_mask(marks.validity())?;
    keys_array(alloc, uses.as_slice(), validity)
}

/// The array of slots that need so many of some values each.
fn freeze_keys<K: DictionaryKey>(
    alloc: Global,
    data_type: &DataType,
    marks: Marks,
    uses: SlotUses,
    values: AnyArray,
) -> Result<DictionaryArray<K>>
    requires lies { physical_type data_type.now ≡ physical.Dictionary K.KEY_TYPE }
    requires few { greatest uses ≤ K.greatest + 1 }
    requires marked { length marks ≡ length uses }
    ensures { IsFrozen (λ array. array) (dictionary data_type.now (mask_of_marks marks) (keys_from uses) values) result }
{
    let data_type = data_type.clone()?;
    let validity = marks.freeze()?;
    let keys = keys_array::<K>(alloc, uses.as_slice(), validity)?;
    let values = Box::new(alloc, values)?;
    DictionaryArray::try_new(data_type, keys, values)
}

/// The array of slots that need so many of some values each, or why these could not be had.
pub(crate) fn freeze_parts<K: DictionaryKey>(
    alloc: Global,
    data_type: &DataType,
    marks: Marks,
    uses: SlotUses,
    values: Result<AnyArray>,
) -> Result<DictionaryArray<K>>
    requires lies { physical_type data_type.now ≡ physical.Dictionary K.KEY_TYPE }
    requires few { greatest uses ≤ K.greatest + 1 }
    requires marked { length marks ≡ length uses }
    ensures { FreezesKeys data_type.now marks uses values result }
{
    match values {
        Ok(values) => freeze_keys(alloc, data_type, marks, uses, values),
        Err(error) => Err(error),
    }
}
