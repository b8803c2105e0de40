//! Laws of arrays of byte strings and texts.
ghost use Rattle.flat_arrays_bytes.specs.ByteWalks.{StandsBeforeSlots};

/// A walk that stands before an array of byte strings or texts has all of its slots left.
#[tactic(auto, using(crate::proofs::StringWalks::stands_before_slots))]
pub fn a_walk_over_byte_strings_begins_with_all_slots<T>()
    ensures { StandsBeforeSlots T }
{}
