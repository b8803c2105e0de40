//! Laws of the column that stores some slots and nothing else.
ghost use Rattle.nested_arrays_columns.specs.FreshLaws.{BatchesOfRows, FreshTypes, FreshLengths, FreshSlots, FreshIsSound};

/// The column that stores some slots has the type that it was made for.
#[tactic(auto, using(crate::proofs::FreshTypes::fresh_types))]
pub fn a_column_of_slots_has_its_type()
    ensures { FreshTypes }
{}

/// It has a slot for each.
#[tactic(auto, using(crate::proofs::FreshSlots::fresh_lengths))]
pub fn a_column_of_slots_has_its_length()
    ensures { FreshLengths }
{}

/// It has these slots.
#[tactic(auto, using(crate::proofs::FreshSlots::fresh_slots))]
pub fn a_column_of_slots_has_the_slots()
    ensures { FreshSlots }
{}

/// It is sound.
#[tactic(auto, using(crate::proofs::FreshSound::fresh_is_sound))]
pub fn a_column_of_slots_is_sound()
    ensures { FreshIsSound }
{}

/// The columns that a batch of rows becomes have the rows' slots, and are sound.
pub fn a_batch_of_rows_has_their_slots()
    ensures { BatchesOfRows }
{}
