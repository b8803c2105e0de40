//! Builders that items are pushed into, and the slots of which are told from items.
ghost use Rattle.std.specs.Prelude.{◌≡◌, ◌↔◌, ◌<◌, IsTrue, false, map, true};
ghost use Rattle.nested_arrays_sized_builders.specs.MarkedSlots.{AddsSlot};
ghost use Rattle.nested_arrays_sized_builders.specs.nulls.columns.Cells.{is_null};
ghost use Rattle.nested_arrays_sized_builders.specs.nulls.columns.Slots.{Slot};
ghost use Rattle.nested_arrays_sized_builders.specs.nulls.columns.SoundColumns.{is_sound};
ghost use Rattle.nested_arrays_sized_builders.specs.nulls.columns.StoredColumns.{column_len, slot_at};
ghost use Rattle.nested_arrays_dictionary_builders.specs.SeveralSlots.{AddsSlots};
ghost use Rattle.nested_arrays_dictionary_builders.specs.SlotHashes.{slot_hash};

use nested_arrays_sized_builders::cells::taken::MutableArray;
use nested_arrays_sized_builders::nulls::columnar_memory::Result;

/// As many slots as an array may have.
pub(crate) const MOST_SLOTS: usize = 9_223_372_036_854_775_807;

/// A builder to which items of a type are pushed, each as a slot.
pub trait TryPush<T>: MutableArray {
    ghost slot: { T → Slot };

    /// Pushes the slot of an item, or changes nothing.
    ///
    /// # Errors
    /// `InvalidArgumentError`: the slot does not fit the type.
    /// `Overflow`: the slots with this one are more than a column may have, or a key or an offset is past its bound.
    /// `OutOfMemory`: the slot found no memory.
    fn try_push(&mut self, item: &T) -> Result<()>
        ensures { AddsSlot (Self.column self.old) (slot item.now) (Self.column self.new) result };
}

/// A builder whose slots are told from items without memory, so that a dictionary can find its values in it.
pub trait SlotIs<T>: TryPush<T> {
    /// Whether the slot at a place is that of an item.
    fn slot_is(&self, place: usize, item: &T) -> bool
        requires { place < column_len (Self.column self.now) }
        ensures { IsTrue result ↔ (slot_at (Self.column self.now) place ≡ Self.slot item.now) };

    /// The hash of the slot of an item.
    fn hash_of(item: &T) -> usize
        ensures { result ≡ slot_hash (Self.slot item.now) };

    /// Hands to a proof that a column without slots is sound.
    fn whole(&self)
        requires { column_len (Self.column self.now) ≡ 0 }
        ensures { is_sound (Self.column self.now) ≡ true };

    // No item is null.
    ghost value_law: { (item : T) → is_null (Self.slot item) ≡ false };
}

/// A builder to which several items are pushed, one after another.
pub trait TryExtend<T>: TryPush<T> {
    /// Pushes the slots of items, or only those before one that is refused.
    ///
    /// # Errors
    /// `InvalidArgumentError`: the slot of an item does not fit the type.
    /// `Overflow`: the slots with that of an item are more than a column may have, or a key or an offset is past its bound.
    /// `OutOfMemory`: the slot of an item found no memory.
    final fn try_extend(&mut self, items: &[T]) -> Result<()>
        ensures { AddsSlots (Self.column self.old) (map Self.slot items.now) (Self.column self.new) result }
    {
        for item in items {
            match self.try_push(item) {
                Ok(()) => {}
                Err(error) => return Err(error),
            }
        }
        Ok(())
    }
}
