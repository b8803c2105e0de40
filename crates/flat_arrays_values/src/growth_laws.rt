//! Laws of lists that grow.
ghost use Rattle.flat_arrays_values.specs.GrowthLaws.{AddedSlots, GrownSlots};

/// The slots of a list that has grown are its slots and then those of the values and marks that came.
#[tactic(auto, using(crate::proofs::Added::grown_slots))]
pub fn a_grown_list_has_the_slots_of_both<V>()
    ensures { GrownSlots V }
{}

/// Slots that were added come behind those that stood before.
#[tactic(auto, using(crate::proofs::Added::added_slots))]
pub fn added_slots_come_behind_the_others<V>()
    ensures { AddedSlots V }
{}
