//! The slots of builders of byte strings.
ghost use Rattle.std.specs.Prelude.{◌≡◌, ◌<◌, ◌↔◌, IsTrue, Some, slice_get};
ghost use Rattle.std.specs.Option.{option_copied};
ghost use Rattle.flat_arrays_bytes.specs.ByteStrings.{len_of, slots_of};

use crate::builder::ByteBuilder;
use flat_arrays_bytes::columnar_memory::Offset;

/// Whether two slots are both null or hold the same bytes.
fn is_same_slot(a: Option<&[u8]>, b: Option<&[u8]>) -> bool
    ensures { IsTrue result ↔ (option_copied a.entry ≡ option_copied b.entry) }
{
    match (a, b) {
        (Some(a), Some(b)) => a == b,
        (None, None) => true,
        _ => false,
    }
}

impl<O: Offset> ByteBuilder<O> {
    /// The slot at a place: its byte string, or none where it is null.
    pub fn get(&self, index: usize) -> Option<&[u8]>
        requires { index < len_of self.now }
        ensures { slice_get (slots_of self.now) index ≡ Some (option_copied result) }
    {
        if self.is_valid(index) {
            Some(self.value(index))
        } else {
            None
        }
    }

    /// Whether the slots are the same as another's, whatever the data types and whatever is stored under a null.
    pub fn has_slots_of(&self, other: &Self) -> bool
        ensures { IsTrue result ↔ (slots_of self.now ≡ slots_of other.now) }
    {
        let count = self.len();
        if count != other.len() {
            return false;
        }
        for index in 0..count {
            if !is_same_slot(self.get(index), other.get(index)) {
                return false;
            }
        }
        true
    }
}
