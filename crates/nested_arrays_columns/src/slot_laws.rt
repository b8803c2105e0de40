//! Laws of slots and of what fits a type.
ghost use Rattle.nested_arrays_columns.specs.SlotLaws.{SamenessDecides, DistinctOnes, PlacesAmongDistinct, NullFits, BeginningsFit};

/// Two slots are the same exactly where they are equal.
#[tactic(auto, using(crate::proofs::SameSlotsDecide::sameness_decides))]
pub fn sameness_decides_equality()
    ensures { SamenessDecides }
{}

/// Among the distinct ones of some slots no slot stands twice.
#[tactic(auto, using(crate::proofs::Distinct::distinct_distinct))]
pub fn distinct_slots_are_distinct()
    ensures { DistinctOnes }
{}

/// Each slot has its place among the distinct ones.
#[tactic(auto, using(crate::proofs::Distinct::distinct_places))]
pub fn a_slot_has_its_place_among_distinct_ones()
    ensures { PlacesAmongDistinct }
{}

/// Null fits every type.
#[tactic(auto, using(crate::proofs::Fitting::null_fits))]
pub fn null_fits_every_type()
    ensures { NullFits }
{}

/// The first of some slots fit a column where all of them do.
#[tactic(auto, using(crate::proofs::Fitting::beginnings_fit))]
pub fn a_beginning_of_what_fits_fits()
    ensures { BeginningsFit }
{}
