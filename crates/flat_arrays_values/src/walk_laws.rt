//! Laws of walks over arrays.
ghost use Rattle.flat_arrays_values.specs.Walks.{WalksGiveSlots};

/// A walk over values and their marks gives each slot that is left once, in its place, from both ends, and then nothing.
#[tactic(auto, using(crate::proofs::WalkSlots::walks_give_slots))]
pub fn a_walk_gives_each_slot_once<T, V, I, B>()
    ensures { WalksGiveSlots T V I B }
{}
