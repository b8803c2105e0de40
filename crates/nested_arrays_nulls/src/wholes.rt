//! Nulls of each layout as arrays of any type, of a data type that is given.
ghost use Rattle.std.specs.Prelude.{◌≡◌, All, pos, replicate};
ghost use Rattle.nested_arrays_iterators.specs.columnar_memory.Layouts.{physical_type};
ghost use Rattle.nested_arrays_iterators.specs.columnar_memory.declared.PhysicalType.TheVariants as physical;
ghost use Rattle.nested_arrays_iterators.specs.columns.StoredColumns.{column_len, dictionary, fixed_lists, in_columns, lists, records, unions};
ghost use Rattle.nested_arrays_iterators.specs.arrays.Lengths.{size_of};
ghost use Rattle.nested_arrays_nulls.specs.NullAnswers.{IsMade};
ghost use Rattle.nested_arrays_nulls.specs.NullColumns.{first_id, flat_nulls, no_items, no_marks, null_places};

use crate::{flats, generic_layouts, layouts};
use nested_arrays_iterators::arrays::AnyArray;
use nested_arrays_iterators::columnar_memory::{DataType, IntegerType, Items, Result, UnionMode};
use nested_arrays_iterators::generic::{DictionaryKey, ToBoxed};
use std::alloc::Global;

/// Nulls of a type whose arrays have no children.
pub(crate) fn flats(alloc: Global, whole: &DataType, length: usize) -> Result<AnyArray>
    ensures { IsMade (flat_nulls (physical_type whole.now) whole.now length) result }
{
    let array = flats::flats(alloc, whole.clone()?, length)?;
    Ok(AnyArray::from(array))
}

/// Nulls of a type of lists.
pub(crate) fn lists(
    alloc: Global,
    whole: &DataType,
    items: AnyArray,
    length: usize,
) -> Result<AnyArray>
    requires { physical_type whole.now ≡ physical.List }
    ensures { IsMade (lists whole.now (no_marks length) (no_items length) items) result }
{
    let array = generic_layouts::lists::<i32>(alloc, whole.clone()?, items, length)?;
    Ok(array.into_any())
}

/// Nulls of a type of lists with large offsets.
pub(crate) fn large_lists(
    alloc: Global,
    whole: &DataType,
    items: AnyArray,
    length: usize,
) -> Result<AnyArray>
    requires { physical_type whole.now ≡ physical.LargeList }
    ensures { IsMade (lists whole.now (no_marks length) (no_items length) items) result }
{
    let array = generic_layouts::lists::<i64>(alloc, whole.clone()?, items, length)?;
    Ok(array.into_any())
}

/// Nulls of a type of maps.
pub(crate) fn maps(
    alloc: Global,
    whole: &DataType,
    entries: AnyArray,
    length: usize,
) -> Result<AnyArray>
    requires { physical_type whole.now ≡ physical.Map }
    ensures { IsMade (lists whole.now (no_marks length) (no_items length) entries) result }
{
    let array = layouts::maps(alloc, whole.clone()?, entries, length)?;
    Ok(AnyArray::from(array))
}

/// Nulls of a type of lists of one size.
pub(crate) fn fixed_lists(
    alloc: Global,
    whole: &DataType,
    items: AnyArray,
    length: usize,
) -> Result<AnyArray>
    ensures { IsMade (fixed_lists whole.now (no_marks length) (size_of whole.now) items) result }
{
    let array = layouts::fixed_lists(alloc, whole.clone()?, items, length)?;
    Ok(AnyArray::from(array))
}

/// Nulls of a type of structs.
pub(crate) fn structs(
    alloc: Global,
    whole: &DataType,
    values: Vec<AnyArray>,
    length: usize,
) -> Result<AnyArray>
    requires { All (λ c. column_len c ≡ length) values.items }
    ensures { IsMade (records whole.now (no_marks length) length (in_columns values.items)) result }
{
    let array = layouts::structs(alloc, whole.clone()?, values, length)?;
    Ok(AnyArray::from(array))
}

/// The id of the first child of unions: 0 where their type lists no ids.
fn first_id(ids: &Option<Items<i32>>) -> i32
    ensures { result ≡ first_id ids.now }
{
    match ids {
        Some(ids) => match ids.as_slice().split_first() {
            Some((id, _)) => *id,
            None => 0,
        },
        None => 0,
    }
}

/// Slots of a type of unions, each the null of the first child.
pub(crate) fn unions(
    alloc: Global,
    whole: &DataType,
    ids: &Option<Items<i32>>,
    mode: UnionMode,
    children: Vec<AnyArray>,
    length: usize,
) -> Result<AnyArray>
    ensures { IsMade (unions whole.now (replicate length (first_id ids.now)) (null_places mode length) (in_columns children.items)) result }
{
    let array = layouts::unions(alloc, whole.clone()?, first_id(ids), mode, children, length)?;
    Ok(AnyArray::from(array))
}

/// Nulls of a type of dictionaries, by the type of their keys.
fn keyed<K: DictionaryKey>(
    alloc: Global,
    whole: &DataType,
    values: AnyArray,
    length: usize,
) -> Result<AnyArray>
    requires { physical_type whole.now ≡ physical.Dictionary K.KEY_TYPE }
    ensures { IsMade (dictionary whole.now (no_marks length) (replicate length (pos 0)) values) result }
{
    let array = generic_layouts::dictionary::<K>(alloc, whole.clone()?, values, length)?;
    Ok(array.into_any())
}

/// The same, where the type of the keys is known when it runs.
pub(crate) fn dictionaries(
    alloc: Global,
    whole: &DataType,
    key: IntegerType,
    values: AnyArray,
    length: usize,
) -> Result<AnyArray>
    requires { physical_type whole.now ≡ physical.Dictionary key }
    ensures { IsMade (dictionary whole.now (no_marks length) (replicate length (pos 0)) values) result }
{
    match key {
        IntegerType::Int8 => keyed::<i8>(alloc, whole, values, length),
        IntegerType::Int16 => keyed::<i16>(alloc, whole, values, length),
        IntegerType::Int32 => keyed::<i32>(alloc, whole, values, length),
        IntegerType::Int64 => keyed::<i64>(alloc, whole, values, length),
        IntegerType::UInt8 => keyed::<u8>(alloc, whole, values, length),
        IntegerType::UInt16 => keyed::<u16>(alloc, whole, values, length),
        IntegerType::UInt32 => keyed::<u32>(alloc, whole, values, length),
        IntegerType::UInt64 => keyed::<u64>(alloc, whole, values, length),
    }
}
