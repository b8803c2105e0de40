//! `==` of arrays: of their data types and their slots, whatever is stored under a null.
ghost use Rattle.std.specs.Prelude.{◌≡◌, ◌<◌, length, slice_get, ◌↔◌, IsTrue};
ghost use Rattle.std.proofs.Math.Bool.{beq};
ghost use Rattle.std.specs.Cmp.{booleans_Decides};
ghost use Rattle.flat_arrays_values.specs.Flat.{slots_of};
ghost use Rattle.flat_arrays_values.specs.FlatEqual.{same_flat, same_flat-per, same_flat-equivalence, AreEqual};

use crate::boolean::BooleanArray;
use crate::primitive::PrimitiveArray;
use columnar_memory_core::NativeType;

impl<T: NativeType> PrimitiveArray<T> {
    /// Whether a slot is the same as another's at its place.
    fn has_slot_of(&self, other: &PrimitiveArray<T>, i: usize) -> bool
        requires inside { i < length self.now.values }
        requires inside_other { i < length other.now.values }
        ensures { IsTrue result ↔ (slice_get (slots_of self.now) i ≡ slice_get (slots_of other.now) i) }
    {
        self.slot(i) == other.slot(i)
    }

    /// Whether the slots are the same as another's.
    #[tactic(auto, using(crate::proofs::SameSlots::same_slots))]
    fn has_slots_of(&self, other: &PrimitiveArray<T>) -> bool
        ensures { IsTrue result ↔ (slots_of self.now ≡ slots_of other.now) }
    {
        if self.len() != other.len() {
            return false;
        }
        for i in 0..self.len() {
            if !self.has_slot_of(other, i) {
                return false;
            }
        }
        true
    }
}

impl<T: NativeType> PartialEq for PrimitiveArray<T> {
    ghost eq = { same_flat T.eq };

    ghost laws = { same_flat-per T.eq_law };

    fn eq(&self, other: &Self) -> bool
        ensures value { result ≡ same_flat T.eq self.now other.now }
        ensures exact { IsTrue result ↔ AreEqual self.now other.now }
    {
        self.data_type() == other.data_type() && self.has_slots_of(other)
    }
}

impl<T: NativeType> Eq for PrimitiveArray<T> {
    ghost laws = { same_flat-equivalence T.eq_law };
}

impl BooleanArray {
    /// Whether the slots are the same as another's.
    #[tactic(auto, using(crate::proofs::SameSlots::same_slots))]
    fn has_slots_of(&self, other: &BooleanArray) -> bool
        ensures { IsTrue result ↔ (slots_of self.now ≡ slots_of other.now) }
    {
        if self.len() != other.len() {
            return false;
        }
        for i in 0..self.len() {
            if self.slot(i) != other.slot(i) {
                return false;
            }
        }
        true
    }
}

impl PartialEq for BooleanArray {
    ghost eq = { same_flat beq };

    ghost laws = { same_flat-per booleans_Decides };

    fn eq(&self, other: &Self) -> bool
        ensures value { result ≡ same_flat beq self.now other.now }
        ensures exact { IsTrue result ↔ AreEqual self.now other.now }
    {
        self.data_type() == other.data_type() && self.has_slots_of(other)
    }
}

impl Eq for BooleanArray {
    ghost laws = { same_flat-equivalence booleans_Decides };
}
