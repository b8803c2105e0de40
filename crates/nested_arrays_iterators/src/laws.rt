//! Laws of walks over arrays.
ghost use Rattle.nested_arrays_iterators.specs.WalkLaws.{WalksGiveEach};

/// A walk over the places of an array gives what stands at each place that is left once, in order, from both ends, and then nothing.
#[tactic(auto, using(crate::proofs::Walks::walks_give_each))]
pub fn a_walk_over_places_gives_each_value_once<A, X, V>()
    ensures { WalksGiveEach A X V }
{}
