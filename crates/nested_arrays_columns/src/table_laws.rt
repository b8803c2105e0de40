//! Laws of parts, choices and joins of tables.
ghost use Rattle.nested_arrays_columns.specs.TableLaws.{PartsJoin, ChoiceOfPart, JoinsAssociate, LimitIsPart, PartsMakeWhole};

/// A part of a part is one part, at the sum of the places.
#[tactic(auto, using(crate::proofs::Parts::parts_join))]
pub fn a_part_of_a_part_is_one_part()
    ensures { PartsJoin }
{}

/// Where a column is chosen, the choice of a part is the part of the choice.
#[tactic(auto, using(crate::proofs::Parts::choice_of_part))]
pub fn a_choice_of_a_part_is_the_part_of_the_choice()
    ensures { ChoiceOfPart }
{}

/// It is the same in which order three tables are joined.
#[tactic(auto, using(crate::proofs::Parts::joins_associate))]
pub fn joins_are_associative()
    ensures { JoinsAssociate }
{}

/// The first rows are a part.
#[tactic(auto, using(crate::proofs::Parts::limit_is_part))]
pub fn a_limit_is_a_part()
    ensures { LimitIsPart }
{}

/// A table is its first rows joined with its other rows.
#[tactic(auto, using(crate::proofs::Parts::parts_make_whole))]
pub fn two_parts_make_the_whole()
    ensures { PartsMakeWhole }
{}
