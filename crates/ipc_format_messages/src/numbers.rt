//! Vectors of signed numbers of four bytes, such as the ids of a union's children (Schema.fbs, `Union`).
ghost use Rattle.std.specs.Prelude.{◌≡◌, ◌↔◌, IsTrue};
ghost use Rattle.ipc_format_messages.specs.TypeRefs.{numbers_view};
ghost use Rattle.ipc_format_messages.specs.TypeSlots as slots;

use crate::vectors::NumbersRef;
use ipc_format_metadata::flatbuffers::i32_at;

impl<'a> NumbersRef<'a> {
    /// How many numbers there are.
    pub fn len(&self) -> usize
        ensures { result ≡ self.now.vector.count }
    {
        self.vector.count
    }

    /// Whether there are no numbers.
    pub fn is_empty(&self) -> bool
        ensures { IsTrue result ↔ (self.now.vector.count ≡ 0) }
    {
        self.vector.count == 0
    }

    /// Number `k`, where there are so many.
    #[tactic(auto, unfolding(crate::specs::TypeSlots::number_at))]
    pub fn get(&self, k: usize) -> Option<i32>
        ensures { result ≡ slots.number_at (numbers_view self.now) k }
    {
        if k >= self.vector.count {
            return None;
        }
        i32_at(self.bytes, self.vector.place + 4 * k)
    }
}
