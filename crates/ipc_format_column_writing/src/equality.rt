//! `==` of chunks: of their arrays, one for one.
ghost use Rattle.std.specs.Prelude.{◌≡◌, ◌↔◌, IsTrue};
ghost use Rattle.std.specs.Cmp.Lexicographic.{pointwise, lists_per, lists_equiv};
ghost use Rattle.ipc_format_column_writing.specs.Chunks.{AreSameEach, TellsSame};

use crate::chunk::Chunk;
use nested_arrays_core::Array;

impl<A: Array + PartialEq> PartialEq for Chunk<A> {
    ghost eq = { pointwise A.eq };

    ghost laws = { lists_per A.laws };

    /// Whether there are as many arrays, each equal to the other chunk's at its place: so by their data types and their slots, as `==` of each
    /// array is.
    fn eq(&self, other: &Self) -> bool
        ensures value { result ≡ pointwise A.eq self.now other.now }
        ensures exact { TellsSame A.column A.eq → (IsTrue result ↔ AreSameEach A.column self.now other.now) }
    {
        self.arrays() == other.arrays()
    }
}

impl<A: Array + Eq> Eq for Chunk<A> {
    ghost laws = { lists_equiv A.Eq.laws };
}
