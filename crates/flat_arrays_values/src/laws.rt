//! Laws of flat arrays and of what is cut out of them.
ghost use Rattle.flat_arrays_values.specs.FlatLaws.{CutsSlots, CutsJoin, SlotsCount};
ghost use Rattle.flat_arrays_values.specs.SlotWalks.{SlicesGiveSlots, StandsBeforeSlots};

/// The slots of a cut are a range of the array's slots.
#[tactic(auto, using(crate::proofs::Cuts::cuts_slots))]
pub fn a_cut_has_a_range_of_the_slots<V>()
    ensures { CutsSlots V }
{}

/// A walk that stands before an array has all of its slots left.
#[tactic(auto, using(crate::proofs::Walks::stands_before_slots))]
pub fn a_walk_begins_with_all_slots<T, V, I, B>()
    ensures { StandsBeforeSlots T V I B }
{}

/// A walk over an array of values of one width gives each slot that is left once, in its place, from both ends, and then nothing.
#[tactic(auto, using(crate::proofs::Walks::slices_give_slots))]
pub fn a_walk_over_values_gives_each_slot_once<V>()
    ensures { SlicesGiveSlots V }
{}

/// A cut of a cut is one cut, at the sum of the places.
#[tactic(auto, using(crate::proofs::Cuts::cuts_join))]
pub fn a_cut_of_a_cut_is_one_cut<V>()
    ensures { CutsJoin V }
{}

/// There is a slot for each value, and as many of them are null as marks are false.
pub fn there_is_a_slot_for_each_value<V>()
    ensures { SlotsCount V }
{}
