//! Nulls with children, which are given.
ghost use Rattle.std.specs.Prelude.{◌≡◌, ◌≤◌, ◌^◌, All, false, pos, replicate};
ghost use Rattle.nested_arrays_iterators.specs.columnar_memory.Layouts.{physical_type};
ghost use Rattle.nested_arrays_iterators.specs.columnar_memory.Results.{OrOutOfMemory};
ghost use Rattle.nested_arrays_iterators.specs.columnar_memory.declared.PhysicalType.TheVariants as physical;
ghost use Rattle.nested_arrays_iterators.specs.columns.Slots.{window};
ghost use Rattle.nested_arrays_iterators.specs.columns.StoredColumns.{column_len, fixed_lists, in_columns, lists, records, unions};
ghost use Rattle.nested_arrays_iterators.specs.arrays.Lengths.{size_of};
ghost use Rattle.nested_arrays_nulls.specs.NullAnswers.{IsMade};
ghost use Rattle.nested_arrays_nulls.specs.NullColumns.{no_items, no_marks, null_places};

use nested_arrays_iterators::arrays::{
    AnyArray, FixedSizeListArray, MapArray, StructArray, UnionArray,
};
use nested_arrays_iterators::columnar_memory::{
    Bitmap, Buffer, DataType, Error, Offset, Offsets, OffsetsBuffer, Result, UnionMode,
};
use std::alloc::Global;

/// How many slots a dense union may have, whose offsets have 31 bits.
const DENSE_SLOTS: usize = 0x8000_0000;

/// The offsets of so many lists without items, and a mask without a value.
pub(crate) fn no_lists<O: Offset>(
    alloc: Global,
    length: usize,
) -> Result<(OffsetsBuffer<O>, Bitmap)>
    ensures { OrOutOfMemory result (λ parts. (parts.0 ≡ record { start = 0; lengths = replicate length 0 }) × (parts.1 ≡ replicate length false)) }
{
    let offsets = Offsets::<O>::new_zeroed(alloc, length)?.freeze()?;
    let mask = Bitmap::new_zeroed(alloc, length)?;
    Ok((offsets, mask))
}

/// So many nulls in place of maps of these entries.
pub(crate) fn maps(
    alloc: Global,
    data_type: DataType,
    entries: AnyArray,
    length: usize,
) -> Result<MapArray>
    requires { physical_type data_type ≡ physical.Map }
    ensures { IsMade (lists data_type (no_marks length) (no_items length) entries) result }
{
    let parts = no_lists(alloc, length)?;
    let entries = Box::new(alloc, entries)?;
    let (offsets, mask) = parts;
    MapArray::try_new(data_type, offsets, entries, Some(mask))
}

/// So many nulls in place of lists of one size, of these items.
pub(crate) fn fixed_lists(
    alloc: Global,
    data_type: DataType,
    items: AnyArray,
    length: usize,
) -> Result<FixedSizeListArray>
    ensures { IsMade (fixed_lists data_type (no_marks length) (size_of data_type) items) result }
{
    let mask = Bitmap::new_zeroed(alloc, length)?;
    FixedSizeListArray::try_new(data_type, Box::new(alloc, items)?, Some(mask))
}

/// So many nulls in place of structs of these values, as many of each.
pub(crate) fn structs(
    alloc: Global,
    data_type: DataType,
    values: Vec<AnyArray>,
    length: usize,
) -> Result<StructArray>
    requires { All (λ c. column_len c ≡ length) values.items }
    ensures { IsMade (records data_type (no_marks length) length (in_columns values.items)) result }
{
    let mask = Bitmap::new_zeroed(alloc, length)?;
    StructArray::try_new(data_type, values, Some(mask))
}

/// The id of each of so many slots of a union.
fn ids(alloc: Global, id: i8, length: usize) -> Result<Buffer<i8>>
    ensures { OrOutOfMemory result (λ ids. ids ≡ replicate length id) }
{
    let mut ids: Vec<i8> = Vec::new(alloc);
    ids.resize(length, id)?;
    Buffer::from_vec(ids)
}

/// For each of so many slots of a dense union its own place.
#[tactic(auto, using(crate::proofs::Passed::window_next))]
fn places(alloc: Global, length: usize) -> Result<Buffer<i32>>
    requires { length ≤ 2 ^ 31 }
    ensures { OrOutOfMemory result (λ places. places ≡ window pos 0 length) }
{
    let mut places: Vec<i32> = Vec::with_capacity(alloc, length)?;
    for place in 0..length {
        places.push(place as i32)?;
    }
    Buffer::from_vec(places)
}

/// So many slots of a union, each of this id and at its own place of each of these children.
pub(crate) fn unions(
    alloc: Global,
    data_type: DataType,
    id: i32,
    mode: UnionMode,
    children: Vec<AnyArray>,
    length: usize,
) -> Result<UnionArray>
    ensures { IsMade (unions data_type (replicate length id) (null_places mode length) (in_columns children.items)) result }
{
    let ids = match i8::try_from(id) {
        Ok(id) => ids(alloc, id, length)?,
        Err(_) if length == 0 => ids(alloc, 0, 0)?,
        Err(_) => return Err(Error::OutOfSpec("an id of a union that has not 8 bits")),
    };
    let places = match mode {
        UnionMode::Sparse => None,
        UnionMode::Dense => {
            if length > DENSE_SLOTS {
                return Err(Error::OutOfSpec("more slots of a dense union than offsets count"));
            }
            Some(places(alloc, length)?)
        }
    };
    UnionArray::try_new(data_type, ids, children, places)
}
