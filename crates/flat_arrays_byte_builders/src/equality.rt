//! `==` of builders: of their slots alone.
ghost use Rattle.std.specs.Prelude.{◌≡◌, ◌↔◌, IsTrue};
ghost use Rattle.flat_arrays_byte_values_builders.specs.bytes.ByteStrings.{slots_of};
ghost use Rattle.flat_arrays_byte_builders.specs.ByteSlotsEqual.{same_slots, same_slots-equivalence, same_slots-per};

use crate::{MutableBinaryArray, MutableUtf8Array};
use flat_arrays_byte_values_builders::columnar_memory::Offset;

impl<O: Offset> PartialEq for MutableBinaryArray<O> {
    ghost eq = { same_slots };

    ghost laws = { same_slots-per };

    fn eq(&self, other: &Self) -> bool
        ensures value { result ≡ same_slots self.now other.now }
        ensures exact { IsTrue result ↔ (slots_of self.now ≡ slots_of other.now) }
    {
        self.builder.has_slots_of(&other.builder)
    }
}

impl<O: Offset> Eq for MutableBinaryArray<O> {
    ghost laws = { same_slots-equivalence };
}

impl<O: Offset> PartialEq for MutableUtf8Array<O> {
    ghost eq = { same_slots };

    ghost laws = { same_slots-per };

    fn eq(&self, other: &Self) -> bool
        ensures value { result ≡ same_slots self.now other.now }
        ensures exact { IsTrue result ↔ (slots_of self.now ≡ slots_of other.now) }
    {
        self.builder.has_slots_of(&other.builder)
    }
}

impl<O: Offset> Eq for MutableUtf8Array<O> {
    ghost laws = { same_slots-equivalence };
}
