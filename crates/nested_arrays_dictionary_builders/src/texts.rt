//! Texts and byte strings as items of their builders.
ghost use Rattle.std.specs.Prelude.{◌≡◌, ◌↔◌, ◌<◌, IsTrue, refl, true};
ghost use Rattle.std.specs.List.{list_all};
ghost use Rattle.std.specs.Str.{IsUtf8};
ghost use Rattle.std.specs.String.{string_bytes};
ghost use Rattle.nested_arrays_sized_builders.specs.MarkedSlots.{AddsSlot};
ghost use Rattle.nested_arrays_sized_builders.specs.nulls.columns.Slots.{bytes, text};
ghost use Rattle.nested_arrays_sized_builders.specs.nulls.columns.SoundColumns.{is_byte, is_sound};
ghost use Rattle.nested_arrays_sized_builders.specs.nulls.columns.StoredColumns.{column_len, slot_at};
ghost use Rattle.nested_arrays_sized_builders.specs.flat_arrays.ByteStrings.{len_of};
ghost use Rattle.nested_arrays_sized_builders.specs.cells.taken.builders.values.ByteBuilders.{from_zero, open_binary, open_text};
ghost use Rattle.nested_arrays_dictionary_builders.specs.ByteItems.{AddsBytes, HoldsAt};

use crate::items::{MOST_SLOTS, SlotIs, TryExtend, TryPush};
use nested_arrays_sized_builders::cells::builders::values::{
    hash_of_bytes, rebase_strings, rebase_texts,
};
use nested_arrays_sized_builders::flat_arrays::{
    ByteBuilder, MutableBinaryArray, MutableUtf8Array,
};
use nested_arrays_sized_builders::nulls::columnar_memory::{Error, Offset, Result};
use nested_arrays_sized_builders::read_bytes;

/// Texts of any length are pushed as they are.
impl TryPush<String> for MutableUtf8Array<i32> {
    ghost slot = { λ item. text (string_bytes item) };

    fn try_push(&mut self, item: &String) -> Result<()> {
        add_text(self, item)
    }
}

impl TryExtend<String> for MutableUtf8Array<i32> {}

impl SlotIs<String> for MutableUtf8Array<i32> {
    fn slot_is(&self, place: usize, item: &String) -> bool {
        is_text_at(self, place, item)
    }

    fn hash_of(item: &String) -> usize {
        hash_of_bytes(item.as_str().as_bytes())
    }

    fn whole(&self) {
        sound_text(self);
    }

    ghost value_law = { λ item. refl };
}

/// Texts of any length are pushed as they are.
impl TryPush<String> for MutableUtf8Array<i64> {
    ghost slot = { λ item. text (string_bytes item) };

    fn try_push(&mut self, item: &String) -> Result<()> {
        add_text(self, item)
    }
}

impl TryExtend<String> for MutableUtf8Array<i64> {}

impl SlotIs<String> for MutableUtf8Array<i64> {
    fn slot_is(&self, place: usize, item: &String) -> bool {
        is_text_at(self, place, item)
    }

    fn hash_of(item: &String) -> usize {
        hash_of_bytes(item.as_str().as_bytes())
    }

    fn whole(&self) {
        sound_text(self);
    }

    ghost value_law = { λ item. refl };
}

/// Byte strings of any length are pushed as they are.
impl TryPush<Vec<u8>> for MutableBinaryArray<i32> {
    ghost slot = { λ item. bytes item.items };

    fn try_push(&mut self, item: &Vec<u8>) -> Result<()> {
        add_bytes(self, item)
    }
}

impl TryExtend<Vec<u8>> for MutableBinaryArray<i32> {}

impl SlotIs<Vec<u8>> for MutableBinaryArray<i32> {
    fn slot_is(&self, place: usize, item: &Vec<u8>) -> bool {
        is_bytes_at(self, place, item)
    }

    fn hash_of(item: &Vec<u8>) -> usize {
        hash_of_bytes(item.as_slice())
    }

    fn whole(&self) {
        sound_bytes(self);
    }

    ghost value_law = { λ item. refl };
}

/// Byte strings of any length are pushed as they are.
impl TryPush<Vec<u8>> for MutableBinaryArray<i64> {
    ghost slot = { λ item. bytes item.items };

    fn try_push(&mut self, item: &Vec<u8>) -> Result<()> {
        add_bytes(self, item)
    }
}

impl TryExtend<Vec<u8>> for MutableBinaryArray<i64> {}

impl SlotIs<Vec<u8>> for MutableBinaryArray<i64> {
    fn slot_is(&self, place: usize, item: &Vec<u8>) -> bool {
        is_bytes_at(self, place, item)
    }

    fn hash_of(item: &Vec<u8>) -> usize {
        hash_of_bytes(item.as_slice())
    }

    fn whole(&self) {
        sound_bytes(self);
    }

    ghost value_law = { λ item. refl };
}

/// How many slots there are.
pub(crate) fn count_of<O: Offset>(builder: &ByteBuilder<O>) -> usize
    ensures { result ≡ len_of builder.now }
{
    builder.len()
}

/// Whether the slot at a place has a value, which is these bytes.
fn has_bytes<O: Offset>(builder: &ByteBuilder<O>, place: usize, item: &[u8]) -> bool
    requires { place < len_of builder.now }
    ensures { IsTrue result ↔ HoldsAt builder.now place item.now }
{
    if !builder.is_valid(place) {
        return false;
    }
    builder.value(place) == item
}

/// Adds a text behind the others, or changes nothing but where offsets begin.
fn push_text<O: Offset>(texts: &mut MutableUtf8Array<O>, item: &str) -> Result<()>
    ensures text { IsUtf8 item.now }
    ensures slot { AddsBytes O.greatest item.now (from_zero texts.old) (from_zero texts.new) result }
{
    let _bytes = item.as_bytes();
    if count_of(texts) >= MOST_SLOTS {
        return Err(Error::Overflow);
    }
    match rebase_texts(texts) {
        Ok(()) => texts.try_push(Some(item)),
        Err(error) => Err(error),
    }
}

/// Adds a byte string behind the others, or changes nothing but where offsets begin.
fn push_bytes<O: Offset>(strings: &mut MutableBinaryArray<O>, item: &[u8]) -> Result<()>
    ensures bytes { list_all is_byte item.now ≡ true }
    ensures slot { AddsBytes O.greatest item.now (from_zero strings.old) (from_zero strings.new) result }
{
    read_bytes(item);
    if count_of(strings) >= MOST_SLOTS {
        return Err(Error::Overflow);
    }
    match rebase_strings(strings) {
        Ok(()) => strings.try_push(Some(item)),
        Err(error) => Err(error),
    }
}

/// Adds a text behind the others.
fn add_text<O: Offset>(texts: &mut MutableUtf8Array<O>, item: &String) -> Result<()>
    ensures { AddsSlot (open_text texts.old) (text (string_bytes item.now)) (open_text texts.new) result }
{
    MutableUtf8Array::whole(texts);
    push_text(texts, item.as_str())
}

/// Whether the slot at a place is a text.
fn is_text_at<O: Offset>(texts: &MutableUtf8Array<O>, place: usize, item: &String) -> bool
    requires { place < column_len (open_text texts.now) }
    ensures { IsTrue result ↔ (slot_at (open_text texts.now) place ≡ text (string_bytes item.now)) }
{
    MutableUtf8Array::whole(texts);
    has_bytes(texts, place, item.as_str().as_bytes())
}

/// Hands to a proof that a column without slots is sound.
fn sound_text<O: Offset>(texts: &MutableUtf8Array<O>)
    requires { column_len (open_text texts.now) ≡ 0 }
    ensures { is_sound (open_text texts.now) ≡ true }
{
    MutableUtf8Array::whole(texts);
}

/// Adds a byte string behind the others.
fn add_bytes<O: Offset>(strings: &mut MutableBinaryArray<O>, item: &Vec<u8>) -> Result<()>
    ensures { AddsSlot (open_binary strings.old) (bytes item.now.items) (open_binary strings.new) result }
{
    MutableBinaryArray::whole(strings);
    push_bytes(strings, item.as_slice())
}

/// Whether the slot at a place is a byte string.
fn is_bytes_at<O: Offset>(strings: &MutableBinaryArray<O>, place: usize, item: &Vec<u8>) -> bool
    requires { place < column_len (open_binary strings.now) }
    ensures { IsTrue result ↔ (slot_at (open_binary strings.now) place ≡ bytes item.now.items) }
{
    MutableBinaryArray::whole(strings);
    has_bytes(strings, place, item.as_slice())
}

/// Hands to a proof that a column without slots is sound.
fn sound_bytes<O: Offset>(strings: &MutableBinaryArray<O>)
    requires { column_len (open_binary strings.now) ≡ 0 }
    ensures { is_sound (open_binary strings.now) ≡ true }
{
    MutableBinaryArray::whole(strings);
}
