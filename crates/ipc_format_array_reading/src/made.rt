//! Arrays made of what stands before their children, and of these.
ghost use Rattle.std.specs.Prelude.{◌≡◌, ◌*◌, ◌==◌, ◌↔◌, IsTrue, None, true};
ghost use Rattle.std.specs.List.{list_all};
ghost use Rattle.ipc_format_column_writing.specs.nested_arrays.Lengths.{size_of};
ghost use Rattle.ipc_format_column_writing.specs.nested_arrays.ListTypes.{list_layout};
ghost use Rattle.ipc_format_column_writing.specs.column_reading.columnar_memory.Layouts.{physical_type};
ghost use Rattle.ipc_format_column_writing.specs.column_reading.columnar_memory.Spans as memory;
ghost use Rattle.ipc_format_column_writing.specs.column_reading.columnar_memory.Spans.{offsets_of};
ghost use Rattle.ipc_format_column_writing.specs.column_reading.columnar_memory.declared.PhysicalType.TheVariants as layouts;
ghost use Rattle.ipc_format_column_writing.specs.column_reading.columns.Kinds.{is_signed};
ghost use Rattle.ipc_format_column_writing.specs.column_reading.columns.SoundColumns.{are_sound};
ghost use Rattle.ipc_format_column_writing.specs.column_reading.columns.StoredColumns.{column_len, fixed_lists, in_columns, lists, records, type_layer, unions};
ghost use Rattle.ipc_format_column_writing.specs.column_reading.grammar.Columns.{last_of, taken_of};
ghost use Rattle.ipc_format_array_reading.specs.Parts.{AreInRange, AreParts, Makes, beginning_of, checked, choices, has_children};
ghost use Rattle.ipc_format_array_reading.specs.Parts.{made_column, marks, parts_in, single, sound_column, spans};
ghost use Rattle.ipc_format_array_reading.specs.declared.begun.Beginning.TheVariants as beginnings;

use crate::begun::Begun;
use ipc_format_column_writing::column_reading::Marked;
use ipc_format_column_writing::column_reading::columnar_memory::{
    Bitmap, Buffer, DataType, Error, Index, Offset, OffsetsBuffer, PhysicalType, Result,
};
use ipc_format_column_writing::nested_arrays_core::{
    AnyArray, FixedSizeListArray, ListArray, MapArray, StructArray, ToBoxed, UnionArray,
};
use std::alloc::Global;

/// Hands to a proof that each array is sound at every depth.
fn are_whole(arrays: &[AnyArray])
    ensures { are_sound (in_columns arrays.now) ≡ true }
{
    if let Some((array, arrays)) = arrays.split_first() {
        array.whole();
        are_whole(arrays);
    }
}

/// Reads each id, by which a proof knows its range.
fn read_ids(ids: &[i8])
    ensures { list_all (is_signed 8) ids.now ≡ true }
{
    for id in ids {
        let _id = *id;
    }
}

/// The same of places.
fn read_places(places: &[i32])
    ensures { list_all (is_signed 32) places.now ≡ true }
{
    for place in places {
        let _place = *place;
    }
}

/// The same of what stands of a union before its children.
fn read_ranges(begun: &Begun)
    ensures { AreInRange begun.now }
{
    match begun {
        Begun::Choices(types, places) => {
            read_ids(types.as_slice());
            if let Some(places) = places {
                read_places(places.as_slice());
            }
        }
        _ => {}
    }
}

/// The only one of some arrays.
fn only(arrays: Vec<AnyArray>) -> Option<AnyArray>
    ensures { result ≡ single arrays.items }
{
    let mut arrays = arrays;
    if arrays.len() != 1 {
        return None;
    }
    arrays.pop()
}

/// Where the last span ends: how many items lists have.
fn items_in<O: Offset>(offsets: &OffsetsBuffer<O>) -> usize
    ensures { result ≡ memory.last_of offsets.now }
{
    offsets.last().to_usize()
}

/// The array of lists, where the items are as many as the last offset says.
#[tactic(auto, using(crate::proofs::MadeChecks::lists_make, crate::proofs::MadeChecks::full_makes))]
fn list_of<O: Offset>(
    alloc: Global,
    data_type: DataType,
    offsets: OffsetsBuffer<O>,
    items: AnyArray,
    validity: Option<Bitmap>,
) -> Result<ListArray<O>>
    requires { physical_type data_type ≡ list_layout O.IS_LARGE }
    ensures { Makes (checked (column_len items == last_of (offsets_of offsets)) (lists data_type validity (offsets_of offsets) items)) result }
{
    if items.len() != items_in(&offsets) {
        return Err(Error::OutOfSpec("items that are not as many as the last offset says"));
    }
    ListArray::try_new(data_type, offsets, Box::new(alloc, items)?, validity)
}

/// The same of maps.
#[tactic(auto, using(crate::proofs::MadeChecks::maps_make, crate::proofs::MadeChecks::full_makes))]
fn map_of(
    alloc: Global,
    data_type: DataType,
    offsets: OffsetsBuffer<i32>,
    entries: AnyArray,
    validity: Option<Bitmap>,
) -> Result<MapArray>
    requires { physical_type data_type ≡ layouts.Map }
    ensures { Makes (checked (column_len entries == last_of (offsets_of offsets)) (lists data_type validity (offsets_of offsets) entries)) result }
{
    if entries.len() != items_in(&offsets) {
        return Err(Error::OutOfSpec("entries that are not as many as the last offset says"));
    }
    MapArray::try_new(data_type, offsets, Box::new(alloc, entries)?, validity)
}

/// How many items each list has by a data type, none where it is no type of lists of one size.
fn size_of(data_type: &DataType) -> usize
    ensures { result ≡ size_of data_type.now }
{
    match data_type.to_logical_type() {
        DataType::FixedSizeList(_, size) => *size,
        _ => 0,
    }
}

/// Whether there are so many items for each of some lists.
fn are_filled(taken: usize, size: usize, items: usize) -> bool
    ensures { result ≡ (items == taken * size) }
{
    match taken.checked_mul(size) {
        Some(needed) => items == needed,
        None => false,
    }
}

/// The array of lists of one size, where there are so many items for each.
fn fixed_list_of(
    alloc: Global,
    data_type: DataType,
    taken: usize,
    items: AnyArray,
    validity: Option<Bitmap>,
) -> Result<FixedSizeListArray>
    ensures { Makes (checked (column_len items == taken * size_of data_type) (fixed_lists data_type validity (size_of data_type) items)) result }
{
    if !are_filled(taken, size_of(&data_type), items.len()) {
        return Err(Error::OutOfSpec("items that are not as many as the lists have"));
    }
    FixedSizeListArray::try_new(data_type, Box::new(alloc, items)?, validity)
}

/// Whether arrays are each as long as a number.
fn are_as_long(arrays: &[AnyArray], count: usize) -> bool
    ensures { result ≡ list_all (λ column. column_len column == count) arrays.now }
{
    for array in arrays {
        if array.len() != count {
            return false;
        }
    }
    true
}

/// The array of structs, where each child is as long as slots are taken.
#[tactic(auto, using(crate::proofs::MadeChecks::structs_make))]
fn struct_of(
    data_type: DataType,
    taken: usize,
    children: Vec<AnyArray>,
    validity: Option<Bitmap>,
) -> Result<StructArray>
    ensures { Makes (checked (list_all (λ column. column_len column == taken) children.items)
        (records data_type validity taken (in_columns children.items))) result }
{
    if !are_as_long(&children, taken) {
        return Err(Error::OutOfSpec("children of another length than the structs"));
    }
    StructArray::try_new(data_type, children, validity)
}

/// How many of so many slots a limit takes.
fn taken_of(limit: Option<usize>, count: usize) -> usize
    ensures { result ≡ taken_of limit count }
{
    match limit {
        Some(limit) => limit.min(count),
        None => count,
    }
}

/// The array of a union, cut to a limit.
fn union_of(
    data_type: DataType,
    types: Buffer<i8>,
    places: Option<Buffer<i32>>,
    children: Vec<AnyArray>,
    limit: Option<usize>,
) -> Result<UnionArray>
    ensures { Makes (sound_column limit (choices types places) (unions data_type types places (in_columns children.items))) result }
{
    let mut array = UnionArray::try_new(data_type, types, children, places)?;
    let taken = taken_of(limit, array.len());
    array.slice(0, taken);
    Ok(array)
}

/// A map array as one of any type.
fn any_map(array: Result<MapArray>) -> Result<AnyArray>
    ensures { result ≡ array }
{
    match array {
        Ok(array) => Ok(AnyArray::from(array)),
        Err(error) => Err(error),
    }
}

/// The same of lists with offsets of 32 bits.
fn any_list(array: Result<ListArray<i32>>) -> Result<AnyArray>
    ensures { result ≡ array }
{
    match array {
        Ok(array) => Ok(array.into_any()),
        Err(error) => Err(error),
    }
}

/// The same of lists with offsets of 64 bits.
fn any_large_list(array: Result<ListArray<i64>>) -> Result<AnyArray>
    ensures { result ≡ array }
{
    match array {
        Ok(array) => Ok(array.into_any()),
        Err(error) => Err(error),
    }
}

/// The same of lists of one size.
fn any_fixed_list(array: Result<FixedSizeListArray>) -> Result<AnyArray>
    ensures { result ≡ array }
{
    match array {
        Ok(array) => Ok(AnyArray::from(array)),
        Err(error) => Err(error),
    }
}

/// The same of structs.
fn any_struct(array: Result<StructArray>) -> Result<AnyArray>
    ensures { result ≡ array }
{
    match array {
        Ok(array) => Ok(AnyArray::from(array)),
        Err(error) => Err(error),
    }
}

/// Whether arrays of a data type are of maps.
fn is_map(data_type: &DataType) -> bool
    ensures { IsTrue result ↔ (physical_type data_type.now ≡ layouts.Map) }
{
    data_type.to_physical_type() == PhysicalType::Map
}

/// Whether arrays of a data type are of lists of one size.
fn is_fixed_list(data_type: &DataType) -> bool
    ensures { IsTrue result ↔ (physical_type data_type.now ≡ layouts.FixedSizeList) }
{
    data_type.to_physical_type() == PhysicalType::FixedSizeList
}

/// The array of lists with offsets of 32 bits, or of maps.
fn small_of(
    alloc: Global,
    data_type: DataType,
    marked: Marked,
    offsets: OffsetsBuffer<i32>,
    children: Vec<AnyArray>,
) -> Result<AnyArray>
    requires { beginning_of (type_layer data_type) ≡ beginnings.Small }
    ensures { Makes (made_column data_type None (spans marked.taken marked.validity (offsets_of offsets)) children.items) result }
{
    let Some(items) = only(children) else {
        return Err(Error::OutOfSpec("lists without one child"));
    };
    if is_map(&data_type) {
        return any_map(map_of(alloc, data_type, offsets, items, marked.validity));
    }
    any_list(list_of(alloc, data_type, offsets, items, marked.validity))
}

/// The array of lists with offsets of 64 bits.
fn large_of(
    alloc: Global,
    data_type: DataType,
    marked: Marked,
    offsets: OffsetsBuffer<i64>,
    children: Vec<AnyArray>,
) -> Result<AnyArray>
    requires { beginning_of (type_layer data_type) ≡ beginnings.Large }
    ensures { Makes (made_column data_type None (spans marked.taken marked.validity (offsets_of offsets)) children.items) result }
{
    let Some(items) = only(children) else {
        return Err(Error::OutOfSpec("lists without one child"));
    };
    any_large_list(list_of(alloc, data_type, offsets, items, marked.validity))
}

/// The array of a union.
fn choices_of(
    data_type: DataType,
    types: Buffer<i8>,
    places: Option<Buffer<i32>>,
    children: Vec<AnyArray>,
    limit: Option<usize>,
) -> Result<AnyArray>
    ensures { Makes (made_column data_type limit (choices types places) children.items) result }
{
    let array = union_of(data_type, types, places, children, limit)?;
    Ok(AnyArray::from(array))
}

/// The array of lists of one size.
fn fixed_of(
    alloc: Global,
    data_type: DataType,
    marked: Marked,
    children: Vec<AnyArray>,
) -> Result<AnyArray>
    requires nested { has_children (type_layer data_type) ≡ true }
    requires kind { physical_type data_type ≡ layouts.FixedSizeList }
    ensures { Makes (made_column data_type None (marks marked.taken marked.validity) children.items) result }
{
    let Some(items) = only(children) else {
        return Err(Error::OutOfSpec("lists without one child"));
    };
    any_fixed_list(fixed_list_of(alloc, data_type, marked.taken, items, marked.validity))
}

/// The array of lists of one size, or of structs.
fn marked_of(
    alloc: Global,
    data_type: DataType,
    marked: Marked,
    children: Vec<AnyArray>,
) -> Result<AnyArray>
    requires nested { has_children (type_layer data_type) ≡ true }
    requires marks { beginning_of (type_layer data_type) ≡ beginnings.Marks }
    ensures { Makes (made_column data_type None (marks marked.taken marked.validity) children.items) result }
{
    if is_fixed_list(&data_type) {
        return fixed_of(alloc, data_type, marked, children);
    }
    any_struct(struct_of(data_type, marked.taken, children, marked.validity))
}

/// The array of a data type that `has_children`, of what stands before these and of the children (Arrow columnar format, "Physical Memory Layout"). A
/// union is cut to its first `limit` slots.
///
/// # Errors
/// - `OutOfSpec`: there is another number of children than the type has, they have other types or lengths, or the parts make no sound array.
/// - `OutOfMemory`: there was no memory for the type or for the place of the child.
pub fn array_of(
    alloc: Global,
    data_type: &DataType,
    limit: Option<usize>,
    begun: Begun,
    children: Vec<AnyArray>,
) -> Result<AnyArray>
    requires nested { has_children (type_layer data_type.now) ≡ true }
    requires fit { AreParts (type_layer data_type.now) begun }
    ensures made { Makes (made_column data_type.now limit (parts_in begun) children.items) result }
    ensures sound { are_sound (in_columns children.items) ≡ true }
    ensures ranges { AreInRange begun }
{
    are_whole(&children);
    read_ranges(&begun);
    let data_type = data_type.clone()?;
    match begun {
        Begun::Small(marked, offsets) => small_of(alloc, data_type, marked, offsets, children),
        Begun::Large(marked, offsets) => large_of(alloc, data_type, marked, offsets, children),
        Begun::Choices(types, places) => choices_of(data_type, types, places, children, limit),
        Begun::Marks(marked) => marked_of(alloc, data_type, marked, children),
    }
}
