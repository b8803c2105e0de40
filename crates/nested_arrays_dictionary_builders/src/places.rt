//! Values that are found by their hashes and told by what they are, and values that are added.
ghost use Rattle.std.specs.Prelude.{◌≡◌, ◌+◌, ◌<◌, ◌≤◌, map, true};
ghost use Rattle.std.specs.List.{count_by};
ghost use Rattle.nested_arrays_sized_builders.specs.nulls.columns.SoundColumns.{is_sound};
ghost use Rattle.nested_arrays_sized_builders.specs.nulls.columns.StoredColumns.{column_len, slots};
ghost use Rattle.nested_arrays_dictionary_builders.specs.DictionaryBuilders.{AddsItem, AddsPlace, AddsValue, IsPlaceOf};
ghost use Rattle.nested_arrays_dictionary_builders.specs.SlotHashes.{hashes_as, slot_hash};

use crate::items::SlotIs;
use nested_arrays_sized_builders::cells::builders::values::{Places, SlotUses, add_use};
use nested_arrays_sized_builders::cells::parts::Marks;
use nested_arrays_sized_builders::nulls::columnar_memory::{Error, Result, Steps};
use std::alloc::Global;

/// The place of the value that an item is, among values whose hashes have these places, with a step for each value that it is compared with.
pub(crate) fn place_of<T, M: SlotIs<T>>(
    values: &M,
    places: &Places,
    item: &T,
    steps: &mut Steps,
) -> Option<usize>
    requires { places.now ≡ map slot_hash (slots (M.column values.now)) }
    ensures place { IsPlaceOf (M.column values.now) (M.slot item.now) result }
    ensures counted { steps.new.count ≤ steps.old.count + count_by (hashes_as (M.slot item.now)) (slots (M.column values.now)) }
{
    let hash = M::hash_of(item);
    let mut place = places.newest(hash);
    'walk: while place != 0 {
        steps.tick();
        if values.slot_is(place - 1, item) {
            return Some(place - 1);
        }
        place = places.older(place - 1);
    }
    None
}

/// Hands to a proof that values are sound, which they are where there are some.
pub(crate) fn whole_values<T, M: SlotIs<T>>(values: &M)
    requires { 0 < column_len (M.column values.now) → is_sound (M.column values.now) ≡ true }
    ensures { is_sound (M.column values.now) ≡ true }
{
    if values.is_empty() {
        values.whole();
    }
}

/// Adds the hash of one more value and a slot that needs it, where there are fewer than `most` values, or changes nothing.
fn add_place(
    alloc: Global,
    most: usize,
    hash: usize,
    marks: &mut Marks,
    uses: &mut SlotUses,
    places: &mut Places,
) -> Result<()>
    ensures { AddsPlace most hash marks.old uses.old places.old marks.new uses.new places.new result }
{
    let held = places.len();
    if held >= most {
        return Err(Error::Overflow);
    }
    places.push(alloc, hash)?;
    match add_use(marks, uses, true, held + 1) {
        Ok(()) => Ok(()),
        Err(error) => {
            places.truncate(held);
            Err(error)
        }
    }
}

/// Adds the value that an item becomes and a slot that needs it, where there are fewer than `most` values, or changes nothing.
fn add_value<T, M: SlotIs<T>>(
    alloc: Global,
    most: usize,
    marks: &mut Marks,
    uses: &mut SlotUses,
    places: &mut Places,
    values: &mut M,
    item: &T,
) -> Result<()>
    ensures { AddsValue most (M.slot item.now) marks.old uses.old places.old (M.column values.old) marks.new uses.new places.new
        (M.column values.new) result }
{
    let slots = uses.len();
    let known = places.len();
    let marked = marks.len();
    match add_place(alloc, most, M::hash_of(item), marks, uses, places) {
        Ok(()) => {}
        Err(error) => return Err(error),
    }
    match values.try_push(item) {
        Ok(()) => Ok(()),
        Err(error) => {
            marks.truncate(marked);
            uses.truncate(slots);
            places.truncate(known);
            Err(error)
        }
    }
}

/// Adds a slot that needs the value that an item is, which is added where it is none yet and there are fewer than `most`, or changes nothing.
pub(crate) fn add_item<T, M: SlotIs<T>>(
    alloc: Global,
    most: usize,
    marks: &mut Marks,
    uses: &mut SlotUses,
    places: &mut Places,
    values: &mut M,
    item: &T,
) -> Result<()>
    requires { places.old ≡ map slot_hash (slots (M.column values.old)) }
    ensures { AddsItem most (M.slot item.now) marks.old uses.old places.old (M.column values.old) marks.new uses.new places.new
        (M.column values.new) result }
{
    let _count = values.len();
    match place_of(values, places, item, &mut Steps::new()) {
        Some(place) => add_use(marks, uses, true, place + 1),
        None => add_value(alloc, most, marks, uses, places, values, item),
    }
}
