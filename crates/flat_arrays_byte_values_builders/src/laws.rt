//! Laws of builders of byte strings and texts.
ghost use Rattle.flat_arrays_byte_values_builders.specs.PushLaws.{PushesAdd, SlotsJoin};

/// A push adds its slot behind the others, and taking the last slot off undoes it.
#[tactic(auto, using(crate::proofs::Undone::pushes_add))]
pub fn a_push_adds_one_slot()
    ensures { PushesAdd }
{}

/// Slots that come together stand behind the others, those of an iterator and those of another builder, and bytes that are cut behind the
/// last value take none off.
#[tactic(auto, using(crate::proofs::Undone::slots_join))]
pub fn joined_slots_stand_behind_the_others()
    ensures { SlotsJoin }
{}
