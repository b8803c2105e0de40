//! Byte strings of one size as items of their builders.
ghost use Rattle.std.specs.Prelude.{◌≡◌, ◌↔◌, ◌<◌, IsTrue, length, refl};
ghost use Rattle.nested_arrays_sized_builders.specs.nulls.columns.Slots.{bytes};
ghost use Rattle.nested_arrays_sized_builders.specs.nulls.columns.StoredColumns.{slot_at};
ghost use Rattle.nested_arrays_sized_builders.specs.SizedStrings.{sized_column};

use crate::items::{SlotIs, TryExtend, TryPush};
use nested_arrays_sized_builders::MutableFixedSizeBinaryArray;
use nested_arrays_sized_builders::cells::builders::values::hash_of_bytes;
use nested_arrays_sized_builders::nulls::columnar_memory::Result;

/// Byte strings are pushed where they have the size.
impl TryPush<Vec<u8>> for MutableFixedSizeBinaryArray {
    ghost slot = { λ item. bytes item.items };

    fn try_push(&mut self, item: &Vec<u8>) -> Result<()> {
        MutableFixedSizeBinaryArray::try_push(self, Some(item.as_slice()))
    }
}

impl TryExtend<Vec<u8>> for MutableFixedSizeBinaryArray {}

impl SlotIs<Vec<u8>> for MutableFixedSizeBinaryArray {
    fn slot_is(&self, place: usize, item: &Vec<u8>) -> bool {
        let _held = MutableFixedSizeBinaryArray::len(self);
        is_string(self, place, item.as_slice())
    }

    fn hash_of(item: &Vec<u8>) -> usize {
        hash_of_bytes(item.as_slice())
    }

    fn whole(&self) {
        MutableFixedSizeBinaryArray::whole(self);
    }

    ghost value_law = { λ item. refl };
}

/// Whether the slot at a place is a byte string.
fn is_string(strings: &MutableFixedSizeBinaryArray, place: usize, item: &[u8]) -> bool
    requires { place < length strings.now.marks }
    ensures { IsTrue result ↔ (slot_at (sized_column strings.now) place ≡ bytes item.now) }
{
    match strings.get(place) {
        Some(found) => found == item,
        None => false,
    }
}
