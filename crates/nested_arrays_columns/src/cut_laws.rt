//! Laws of columns and of what is cut out of them.
ghost use Rattle.nested_arrays_columns.specs.ColumnLaws.{CutsSlots, CutsLengths, CutsStaySound, CutsJoin, SlotsLengths, CutsSizes, SizesCount};

/// The slots of a cut of a sound column are a range of its slots, at every depth.
#[tactic(auto, using(crate::proofs::Columns::cuts_slots))]
pub fn a_cut_has_a_range_of_the_slots()
    ensures { CutsSlots }
{}

/// A cut has as many slots as were asked for.
#[tactic(auto, using(crate::proofs::Columns::cuts_lengths))]
pub fn a_cut_has_its_length()
    ensures { CutsLengths }
{}

/// A cut of a sound column is sound.
#[tactic(auto, using(crate::proofs::Columns::cuts_stay_sound))]
pub fn a_cut_is_sound()
    ensures { CutsStaySound }
{}

/// A cut of a cut is one cut, at the sum of the places.
#[tactic(auto, using(crate::proofs::Columns::cuts_join))]
pub fn a_cut_of_a_cut_is_one_cut()
    ensures { CutsJoin }
{}

/// A column has as many slots as its length says.
#[tactic(auto, using(crate::proofs::ColumnSizes::slots_lengths))]
pub fn a_column_has_its_length()
    ensures { SlotsLengths }
{}

/// A cut is made of as many columns as the whole.
#[tactic(auto, using(crate::proofs::ColumnSizes::cuts_sizes))]
pub fn a_cut_keeps_its_size()
    ensures { CutsSizes }
{}

/// A column is made of one column at least.
#[tactic(auto, using(crate::proofs::ColumnSizes::sizes_count))]
pub fn a_column_has_a_size()
    ensures { SizesCount }
{}
