//! FlatBuffers by address (FlatBuffers, "Internals").
//!
//! Each function reads at a place of a message's bytes, counted from its first byte, and answers `None` exactly where a rule of the
//! format is broken there.
ghost use Rattle.std.specs.Prelude.{◌≡◌, ◌+◌, ◌*◌, ◌≤◌, ◌<◌, ◌^◌, length, IfSome, Option, Some, None, map};
ghost use Rattle.std.specs.Option.{option_map, option_copied};
ghost use Rattle.std.specs.Int.{w8, w16, w32, w64};
ghost use Rattle.ipc_format_flatbuffers.specs.Reading.{window_at};
ghost use Rattle.ipc_format_flatbuffers.specs.FlatBuffers as format;
ghost use Rattle.ipc_format_flatbuffers.specs.Views.{table_of, vector_of};

use crate::places::{Table, Vector};

/// The `count` bytes from a place on.
pub fn window(bytes: &[u8], place: usize, count: usize) -> Option<&[u8]>
    ensures { option_copied result ≡ window_at bytes.now place count }
{
    bytes.get(place..)?.get(..count)
}

/// An unsigned byte.
#[tactic(auto, unfolding(crate::specs::FlatBuffers::number_at))]
pub fn u8_at(bytes: &[u8], place: usize) -> Option<u8>
    ensures value { result ≡ format.number_at w8 bytes.now place }
    ensures inside { IfSome result (λ _. place + 1 ≤ length bytes.now) }
{
    let part = window(bytes, place, 1)?;
    Some(part[0])
}

/// An unsigned number of two bytes.
#[tactic(auto, unfolding(crate::specs::FlatBuffers::number_at))]
pub fn u16_at(bytes: &[u8], place: usize) -> Option<u16>
    ensures value { result ≡ format.number_at w16 bytes.now place }
    ensures inside { IfSome result (λ _. place + 2 ≤ length bytes.now) }
{
    let part = window(bytes, place, 2)?;
    Some(u16::from_le_bytes([part[0], part[1]]))
}

/// An unsigned number of four bytes.
#[tactic(auto, unfolding(crate::specs::FlatBuffers::number_at))]
pub fn u32_at(bytes: &[u8], place: usize) -> Option<u32>
    ensures value { result ≡ format.number_at w32 bytes.now place }
    ensures inside { IfSome result (λ _. place + 4 ≤ length bytes.now) }
{
    let part = window(bytes, place, 4)?;
    Some(u32::from_le_bytes([part[0], part[1], part[2], part[3]]))
}

/// An unsigned number of eight bytes.
#[tactic(auto, unfolding(crate::specs::FlatBuffers::number_at))]
fn u64_at(bytes: &[u8], place: usize) -> Option<u64>
    ensures value { result ≡ format.number_at w64 bytes.now place }
    ensures inside { IfSome result (λ _. place + 8 ≤ length bytes.now) }
{
    let part = window(bytes, place, 8)?;
    Some(u64::from_le_bytes([
        part[0], part[1], part[2], part[3], part[4], part[5], part[6], part[7],
    ]))
}

/// A signed number of two bytes.
#[tactic(auto, unfolding(crate::specs::FlatBuffers::signed_at))]
pub fn i16_at(bytes: &[u8], place: usize) -> Option<i16>
    ensures value { result ≡ format.signed_at w16 bytes.now place }
    ensures inside { IfSome result (λ _. place + 2 ≤ length bytes.now) }
{
    Some(u16_at(bytes, place)?.cast_signed())
}

/// A signed number of four bytes.
#[tactic(auto, unfolding(crate::specs::FlatBuffers::signed_at))]
pub fn i32_at(bytes: &[u8], place: usize) -> Option<i32>
    ensures value { result ≡ format.signed_at w32 bytes.now place }
    ensures inside { IfSome result (λ _. place + 4 ≤ length bytes.now) }
{
    Some(u32_at(bytes, place)?.cast_signed())
}

/// A signed number of eight bytes.
#[tactic(auto, unfolding(crate::specs::FlatBuffers::signed_at))]
pub fn i64_at(bytes: &[u8], place: usize) -> Option<i64>
    ensures value { result ≡ format.signed_at w64 bytes.now place }
    ensures inside { IfSome result (λ _. place + 8 ≤ length bytes.now) }
{
    Some(u64_at(bytes, place)?.cast_signed())
}

/// The place that a signed number counts back to from `place`, within a message of `size` bytes.
fn before(size: usize, place: usize, back: i32) -> Option<usize>
    requires { place ≤ size }
    ensures value { result ≡ format.before size place back }
{
    let distance = back.unsigned_abs() as usize;
    if back >= 0 {
        place.checked_sub(distance)
    } else if distance <= size - place {
        Some(place + distance)
    } else {
        None
    }
}

/// The table at a place.
#[tactic(auto, unfolding(crate::specs::FlatBuffers::table_at))]
pub fn table_at(bytes: &[u8], place: usize) -> Option<Table>
    ensures { option_map table_of result ≡ format.table_at bytes.now place }
{
    let back = i32_at(bytes, place)?;
    let vtable = before(bytes.len(), place, back)?;
    let vtable_size = u16_at(bytes, vtable)? as usize;
    let table_size = u16_at(bytes, vtable + 2)? as usize;
    if vtable_size < 4 || vtable_size % 2 != 0 || bytes.len() - vtable < vtable_size {
        return None;
    }
    if table_size < 4 || bytes.len() - place < table_size {
        return None;
    }
    Some(Table {
        place,
        vtable,
        vtable_size,
        table_size,
    })
}

/// Where a table's field of `width` bytes stands: `Some(None)` where it is absent.
#[tactic(auto, unfolding(crate::specs::FlatBuffers::field_at))]
pub fn field_at(bytes: &[u8], table: &Table, slot: u8, width: u8) -> Option<Option<usize>>
    ensures { result ≡ format.field_at bytes.now (table_of table.now) slot width }
{
    let entry_place = 4 + 2 * slot as usize;
    if entry_place + 2 > table.vtable_size {
        return Some(None);
    }
    let entry = u16_at(bytes, table.vtable + entry_place)? as usize;
    if entry == 0 {
        return Some(None);
    }
    if entry < 4 || entry + width as usize > table.table_size {
        return None;
    }
    Some(Some(table.place + entry))
}

/// The byte of a field, or `absent`.
#[tactic(auto, unfolding(crate::specs::FlatBuffers::number_field))]
pub fn u8_field(bytes: &[u8], table: &Table, slot: u8, absent: u8) -> Option<u8>
    ensures { result ≡ format.number_field w8 bytes.now (table_of table.now) slot absent }
{
    match field_at(bytes, table, slot, 1)? {
        None => Some(absent),
        Some(place) => u8_at(bytes, place),
    }
}

/// The signed number of two bytes of a field, or `absent`.
#[tactic(auto, unfolding(crate::specs::FlatBuffers::signed_field))]
pub fn i16_field(bytes: &[u8], table: &Table, slot: u8, absent: i16) -> Option<i16>
    ensures { result ≡ format.signed_field w16 bytes.now (table_of table.now) slot absent }
{
    match field_at(bytes, table, slot, 2)? {
        None => Some(absent),
        Some(place) => i16_at(bytes, place),
    }
}

/// The signed number of four bytes of a field, or `absent`.
#[tactic(auto, unfolding(crate::specs::FlatBuffers::signed_field))]
pub fn i32_field(bytes: &[u8], table: &Table, slot: u8, absent: i32) -> Option<i32>
    ensures { result ≡ format.signed_field w32 bytes.now (table_of table.now) slot absent }
{
    match field_at(bytes, table, slot, 4)? {
        None => Some(absent),
        Some(place) => i32_at(bytes, place),
    }
}

/// The signed number of eight bytes of a field, or `absent`.
#[tactic(auto, unfolding(crate::specs::FlatBuffers::signed_field))]
pub fn i64_field(bytes: &[u8], table: &Table, slot: u8, absent: i64) -> Option<i64>
    ensures { result ≡ format.signed_field w64 bytes.now (table_of table.now) slot absent }
{
    match field_at(bytes, table, slot, 8)? {
        None => Some(absent),
        Some(place) => i64_at(bytes, place),
    }
}

/// The truth value of a field; an absent one is false.
#[tactic(auto, unfolding(crate::specs::FlatBuffers::truth_field))]
pub fn truth_field(bytes: &[u8], table: &Table, slot: u8) -> Option<bool>
    ensures { result ≡ format.truth_field bytes.now (table_of table.now) slot }
{
    Some(u8_field(bytes, table, slot, 0)? != 0)
}

/// Where the reference at a place points.
#[tactic(auto, unfolding(crate::specs::FlatBuffers::reference_at))]
pub fn reference_at(bytes: &[u8], place: usize) -> Option<usize>
    ensures value { result ≡ format.reference_at bytes.now place }
    ensures inside { IfSome result (λ target. target ≤ length bytes.now) }
{
    let distance = u32_at(bytes, place)? as usize;
    if distance <= bytes.len() - place {
        Some(place + distance)
    } else {
        None
    }
}

/// Where the reference of a field points: `Some(None)` where it is absent.
#[tactic(auto, unfolding(crate::specs::FlatBuffers::reference_field))]
pub fn reference_field(bytes: &[u8], table: &Table, slot: u8) -> Option<Option<usize>>
    ensures { result ≡ format.reference_field bytes.now (table_of table.now) slot }
{
    match field_at(bytes, table, slot, 4)? {
        None => Some(None),
        Some(place) => Some(Some(reference_at(bytes, place)?)),
    }
}

/// The table that a field refers to: `Some(None)` where the field is absent.
#[tactic(auto, unfolding(crate::specs::FlatBuffers::table_field))]
pub fn table_field(bytes: &[u8], table: &Table, slot: u8) -> Option<Option<Table>>
    ensures { option_map (option_map table_of) result ≡ format.table_field bytes.now (table_of table.now) slot }
{
    match reference_field(bytes, table, slot)? {
        None => Some(None),
        Some(place) => Some(Some(table_at(bytes, place)?)),
    }
}

/// The vector at a place, with elements of `width` bytes.
#[tactic(auto, unfolding(crate::specs::FlatBuffers::vector_at))]
pub fn vector_at(bytes: &[u8], width: u8, place: usize) -> Option<Vector>
    ensures value { option_map vector_of result ≡ format.vector_at bytes.now width place }
    ensures inside { IfSome result (λ v. v.place + v.count * width ≤ length bytes.now) }
{
    let count = u32_at(bytes, place)? as usize;
    if count * width as usize > bytes.len() - (place + 4) {
        return None;
    }
    Some(Vector {
        place: place + 4,
        count,
    })
}

/// The vector that a field refers to: `Some(None)` where the field is absent.
#[tactic(auto, unfolding(crate::specs::FlatBuffers::vector_field))]
pub fn vector_field(bytes: &[u8], table: &Table, slot: u8, width: u8) -> Option<Option<Vector>>
    ensures value { option_map (option_map vector_of) result ≡ format.vector_field bytes.now (table_of table.now) slot width }
    ensures inside { IfSome result (λ found. IfSome found (λ v. v.place + v.count * width ≤ length bytes.now)) }
{
    match reference_field(bytes, table, slot)? {
        None => Some(None),
        Some(place) => Some(Some(vector_at(bytes, width, place)?)),
    }
}

/// The string at a place.
#[tactic(auto, using(crate::proofs::Text::is_text, crate::proofs::Text::is_no_text), unfolding(crate::specs::FlatBuffers::text_at))]
pub fn string_at(bytes: &[u8], place: usize) -> Option<&str>
    ensures { option_copied result ≡ format.text_at bytes.now place }
{
    let count = u32_at(bytes, place)? as usize;
    let text = window(bytes, place + 4, count)?;
    match str::from_utf8(text) {
        Ok(text) => Some(text),
        Err(_) => None,
    }
}

/// The string that a field refers to: `Some(None)` where the field is absent.
#[tactic(auto, unfolding(crate::specs::FlatBuffers::string_field))]
pub fn string_field<'a>(bytes: &'a [u8], table: &Table, slot: u8) -> Option<Option<&'a str>>
    ensures { option_map option_copied result ≡ format.string_field bytes.now (table_of table.now) slot }
{
    match reference_field(bytes, table, slot)? {
        None => Some(None),
        Some(place) => Some(Some(string_at(bytes, place)?)),
    }
}

/// The table to which element `k` of a vector of references refers.
#[tactic(auto, unfolding(crate::specs::FlatBuffers::element_at))]
pub fn element_at(bytes: &[u8], vector: &Vector, k: usize) -> Option<Table>
    requires k_in { k < vector.now.count }
    requires in_message { vector.now.place + vector.now.count * 4 ≤ length bytes.now }
    ensures { option_map table_of result ≡ format.element_at bytes.now (vector_of vector.now) k }
{
    let target = reference_at(bytes, vector.place + 4 * k)?;
    table_at(bytes, target)
}

/// The root of a message.
#[tactic(auto, unfolding(crate::specs::FlatBuffers::root_of))]
pub fn root_of(bytes: &[u8]) -> Option<Table>
    ensures { option_map table_of result ≡ format.root_of bytes.now }
{
    let target = reference_at(bytes, 0)?;
    table_at(bytes, target)
}
