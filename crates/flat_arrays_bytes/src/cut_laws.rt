//! Laws of cuts of byte strings.
ghost use Rattle.flat_arrays_bytes.specs.Laws.{CutsJoin, CutsSlots};

/// The slots of a cut, and its stored values with their marks, are a range of the array's.
#[tactic(auto, using(crate::proofs::Cuts::cuts_slots))]
pub fn a_cut_of_byte_strings_has_a_range_of_the_slots()
    ensures { CutsSlots }
{}

/// A cut of a cut is one cut, at the sum of the places.
#[tactic(auto, using(crate::proofs::Cuts::cuts_join))]
pub fn a_cut_of_a_cut_of_byte_strings_is_one_cut()
    ensures { CutsJoin }
{}
