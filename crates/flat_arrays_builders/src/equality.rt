//! `==` of builders: of their slots alone.
ghost use Rattle.std.specs.Prelude.{◌≡◌, ◌<◌, length, slice_get, ◌↔◌, IsTrue};
ghost use Rattle.std.proofs.Math.Bool.{beq};
ghost use Rattle.std.specs.Cmp.{booleans_Decides};
ghost use Rattle.flat_arrays_values.specs.Flat.{slots_of};
ghost use Rattle.flat_arrays_builders.specs.SlotsEqual.{same_slots, same_slots-equivalence, same_slots-per};

use crate::boolean::MutableBooleanArray;
use crate::primitive::MutablePrimitiveArray;
use flat_arrays_values::columnar_memory::NativeType;

impl<T: NativeType> MutablePrimitiveArray<T> {
    /// Whether a slot is the same as another's at its place.
    fn has_slot_of(&self, other: &Self, i: usize) -> bool
        requires inside { i < length self.now.values }
        requires inside_other { i < length other.now.values }
        ensures { IsTrue result ↔ (slice_get (slots_of self.now) i ≡ slice_get (slots_of other.now) i) }
    {
        self.get(i) == other.get(i)
    }

    /// Whether the slots are the same as another's.
    #[tactic(auto, using(flat_arrays_values::proofs::SameSlots::same_slots))]
    fn has_slots_of(&self, other: &Self) -> bool
        ensures { IsTrue result ↔ (slots_of self.now ≡ slots_of other.now) }
    {
        if self.len() != other.len() {
            return false;
        }
        for i in 0..self.len() {
            if !self.has_slot_of(other, i) {
                return false;
            }
        }
        true
    }
}

impl<T: NativeType> PartialEq for MutablePrimitiveArray<T> {
    ghost eq = { same_slots T.eq };

    ghost laws = { same_slots-per T.eq_law };

    fn eq(&self, other: &Self) -> bool
        ensures value { result ≡ same_slots T.eq self.now other.now }
        ensures exact { IsTrue result ↔ (slots_of self.now ≡ slots_of other.now) }
    {
        self.has_slots_of(other)
    }
}

impl<T: NativeType> Eq for MutablePrimitiveArray<T> {
    ghost laws = { same_slots-equivalence T.eq_law };
}

impl MutableBooleanArray {
    /// Whether a slot is the same as another's at its place.
    fn has_slot_of(&self, other: &Self, i: usize) -> bool
        requires inside { i < length self.now.values }
        requires inside_other { i < length other.now.values }
        ensures { IsTrue result ↔ (slice_get (slots_of self.now) i ≡ slice_get (slots_of other.now) i) }
    {
        self.get(i) == other.get(i)
    }

    /// Whether the slots are the same as another's.
    #[tactic(auto, using(flat_arrays_values::proofs::SameSlots::same_slots))]
    fn has_slots_of(&self, other: &Self) -> bool
        ensures { IsTrue result ↔ (slots_of self.now ≡ slots_of other.now) }
    {
        if self.len() != other.len() {
            return false;
        }
        for i in 0..self.len() {
            if !self.has_slot_of(other, i) {
                return false;
            }
        }
        true
    }
}

impl PartialEq for MutableBooleanArray {
    ghost eq = { same_slots beq };

    ghost laws = { same_slots-per booleans_Decides };

    fn eq(&self, other: &Self) -> bool
        ensures value { result ≡ same_slots beq self.now other.now }
        ensures exact { IsTrue result ↔ (slots_of self.now ≡ slots_of other.now) }
    {
        self.has_slots_of(other)
    }
}

impl Eq for MutableBooleanArray {
    ghost laws = { same_slots-equivalence booleans_Decides };
}
