//! Which slots of its children a union picks.
ghost use Rattle.std.specs.Prelude.{◌≡◌, ◌<◌, ◌&&◌, ℤ, length, slice_index, true, FitsSigned, IfSome, Some, None};
ghost use Rattle.std.specs.Int.{cast_unsigned, w8};
ghost use Rattle.std.specs.List.{list_all};
ghost use Rattle.nested_arrays_parts.specs.columns.Kinds.{is_signed};
ghost use Rattle.nested_arrays_parts.specs.columns.SoundColumns.{column_lens, has_an_id_each, has_child_at, has_child_types};
ghost use Rattle.nested_arrays_parts.specs.columns.SoundColumns.{has_places, holds_below, is_offset};
ghost use Rattle.nested_arrays_parts.specs.columns.StoredColumns.{child_number, in_columns, place_below, place_of_id, type_layer};
ghost use Rattle.nested_arrays_arrays.specs.Rooms.{AreRooms};

use crate::any::AnyArray;
use crate::children::{have_len, have_types};
use nested_arrays_parts::columnar_memory::{Buffer, DataType, Index, Items};

/// How many ids of 8 bits there are.
const IDS: usize = 256;

/// Whether there are as many ids as fields, where a type has ids.
fn has_an_id_each(ids: &Option<Items<i32>>, count: usize) -> bool
    ensures { result ≡ has_an_id_each ids.now count }
{
    match ids {
        Some(ids) => ids.len() == count,
        None => true,
    }
}

/// Whether arrays are the children of a union of a data type, a dense one if it has offsets.
pub(crate) fn are_children_of(
    data_type: &DataType,
    offsets: &Option<Buffer<i32>>,
    arrays: &[AnyArray],
) -> bool
    ensures { result ≡ has_child_types (type_layer data_type.now) offsets.now (in_columns arrays.now) }
{
    match data_type.to_logical_type() {
        DataType::Union(fields, ids, mode) => {
            if mode.is_sparse() != offsets.is_none() {
                return false;
            }
            if !has_an_id_each(ids, fields.len()) {
                return false;
            }
            have_types(fields.as_slice(), arrays)
        }
        _ => false,
    }
}

/// Where an id stands first among the ids of a type, or how many there are.
fn place_of_id(ids: &[i32], id: i32) -> usize
    ensures { result ≡ place_of_id ids.now id }
{
    for place in 0..ids.len() {
        if ids[place] == id {
            return place;
        }
    }
    ids.len()
}

/// Which child of a union of a data type an id means; past the last child where it means none.
pub(crate) fn child_number(data_type: &DataType, id: i8) -> usize
    ensures { result ≡ child_number (type_layer data_type.now) id }
{
    match data_type.to_logical_type() {
        DataType::Union(_, Some(ids), _) => place_of_id(ids.as_slice(), id as i32),
        DataType::Union(fields, None, _) => place_below(fields.len(), id),
        _ => 0,
    }
}

/// The place that an id is, or a count where it is negative.
fn place_below(count: usize, id: i8) -> usize
    ensures { result ≡ place_below count id }
{
    if id < 0 { count } else { id as usize }
}

/// How many slots the array at a place has, none where there is no array.
fn len_at(arrays: &[AnyArray], place: usize) -> usize
    ensures { result ≡ slice_index (column_lens (in_columns arrays.now)) place }
{
    match arrays.get(place) {
        Some(array) => array.len(),
        None => 0,
    }
}

/// How many slots the child that an id means has, none where it means no child.
fn room_of(data_type: &DataType, id: i8, arrays: &[AnyArray]) -> usize
    ensures { result ≡ slice_index (column_lens (in_columns arrays.now)) (child_number (type_layer data_type.now) id) }
{
    len_at(arrays, child_number(data_type, id))
}

/// The ids of a union's data type, if it has some, and so many slots are looked at that a table of rooms is worth being made.
fn ids_of_many(data_type: &DataType, slots: usize) -> Option<&[i32]>
    ensures { IfSome result (λ own. (id : ℤ) → child_number (type_layer data_type.now) id ≡ place_of_id own.now id) }
{
    if slots < IDS {
        return None;
    }
    match data_type.to_logical_type() {
        DataType::Union(_, Some(ids), _) => Some(ids.as_slice()),
        _ => None,
    }
}

/// How many slots the child has that each id of 8 bits means, by the id's byte. The last of the type's ids come first, since of equal ones the
/// first counts.
fn rooms_by_id(ids: &[i32], arrays: &[AnyArray]) -> [usize; 256]
    ensures { (id : ℤ) → FitsSigned w8 id → slice_index result (cast_unsigned w8 id)
        ≡ slice_index (column_lens (in_columns arrays.now)) (place_of_id ids.now id) }
{
    let mut rooms = [len_at(arrays, ids.len()); IDS];
    for place in (0..ids.len()).rev() {
        if let Ok(id) = i8::try_from(ids[place]) {
            let byte = id.cast_unsigned() as usize;
            rooms[byte] = len_at(arrays, place);
        }
    }
    rooms
}

/// How many slots the child that an id means has, by a table of rooms, and by the type's ids where the table does not reach as far.
fn room_in(rooms: &[usize], data_type: &DataType, id: i8, arrays: &[AnyArray]) -> usize
    requires { AreRooms rooms.now data_type.now (in_columns arrays.now) }
    ensures { result ≡ slice_index (column_lens (in_columns arrays.now)) (child_number (type_layer data_type.now) id) }
{
    let byte = id.cast_unsigned() as usize;
    if byte < rooms.len() {
        return rooms[byte];
    }
    room_of(data_type, id, arrays)
}

/// Reads each id, by which a proof knows its range.
pub(crate) fn read_ids(ids: &[i8])
    ensures { list_all (is_signed 8) ids.now ≡ true }
{
    for id in ids {
        let _id = *id;
    }
}

/// Whether each slot of a sparse union has a child that has its place, by a table of rooms.
fn rooms_hold_places(rooms: &[usize], data_type: &DataType, ids: &[i8], arrays: &[AnyArray]) -> bool
    requires { AreRooms rooms.now data_type.now (in_columns arrays.now) }
    ensures { result ≡ holds_below (length ids.now) (has_child_at (type_layer data_type.now) ids.now None (in_columns arrays.now)) }
{
    for i in 0..ids.len() {
        if i >= room_in(rooms, data_type, ids[i], arrays) {
            return false;
        }
    }
    true
}

/// Whether each slot of a sparse union has a child that has its place.
fn lie_in_place(data_type: &DataType, ids: &[i8], arrays: &[AnyArray]) -> bool
    ensures { result ≡ holds_below (length ids.now) (has_child_at (type_layer data_type.now) ids.now None (in_columns arrays.now)) }
{
    match ids_of_many(data_type, ids.len()) {
        Some(own) => rooms_hold_places(&rooms_by_id(own, arrays), data_type, ids, arrays),
        None => rooms_hold_places(&[], data_type, ids, arrays),
    }
}

/// Whether each slot of a dense union has a child that has its offset, by a table of rooms.
fn rooms_hold_offsets(
    rooms: &[usize],
    data_type: &DataType,
    ids: &[i8],
    offsets: &[i32],
    arrays: &[AnyArray],
) -> bool
    requires rooms { AreRooms rooms.now data_type.now (in_columns arrays.now) }
    requires as_many { length offsets.now ≡ length ids.now }
    ensures { result ≡ (list_all is_offset offsets.now
        && holds_below (length ids.now) (has_child_at (type_layer data_type.now) ids.now (Some offsets.now) (in_columns arrays.now))) }
{
    for i in 0..ids.len() {
        match offsets[i].try_to_usize() {
            Some(place) => {
                if place >= room_in(rooms, data_type, ids[i], arrays) {
                    return false;
                }
            }
            None => return false,
        }
    }
    true
}

/// Whether each slot of a dense union has a child that has its offset.
fn lie_at_offsets(data_type: &DataType, ids: &[i8], offsets: &[i32], arrays: &[AnyArray]) -> bool
    requires { length offsets.now ≡ length ids.now }
    ensures { result ≡ (list_all is_offset offsets.now
        && holds_below (length ids.now) (has_child_at (type_layer data_type.now) ids.now (Some offsets.now) (in_columns arrays.now))) }
{
    match ids_of_many(data_type, ids.len()) {
        Some(own) => rooms_hold_offsets(&rooms_by_id(own, arrays), data_type, ids, offsets, arrays),
        None => rooms_hold_offsets(&[], data_type, ids, offsets, arrays),
    }
}

/// Whether the slots of a union lie within its children. Takes time for the slots and the children, not for each child at each slot.
pub(crate) fn have_slots(
    data_type: &DataType,
    ids: &[i8],
    offsets: &Option<Buffer<i32>>,
    arrays: &[AnyArray],
) -> bool
    ensures { result ≡ (has_places ids.now offsets.now (in_columns arrays.now)
        && holds_below (length ids.now) (has_child_at (type_layer data_type.now) ids.now offsets.now (in_columns arrays.now))) }
{
    match offsets {
        Some(offsets) => {
            if offsets.len() != ids.len() {
                return false;
            }
            lie_at_offsets(data_type, ids, offsets.as_slice(), arrays)
        }
        None => {
            if !have_len(arrays, ids.len()) {
                return false;
            }
            lie_in_place(data_type, ids, arrays)
        }
    }
}
