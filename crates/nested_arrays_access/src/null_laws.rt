//! Laws of the nulls of columns. Each function here does nothing: its contract is the law, which a caller has by calling it.
ghost use Rattle.nested_arrays_access.specs.NullLaws.{NullsAreNull, NullsCounted, NullsShow};

/// There are as many nulls as places of null slots.
#[tactic(auto, using(crate::proofs::CountedNulls::nulls_counted))]
pub fn nulls_are_counted()
    ensures { NullsCounted }
{}

/// A slot that is null by the column itself has no value.
#[tactic(auto, using(crate::proofs::CountedNulls::nulls_are_null))]
pub fn a_null_slot_has_no_value()
    ensures { NullsAreNull }
{}

/// But for dictionaries, each slot without a value is null by the column itself.
#[tactic(auto, using(crate::proofs::CountedNulls::nulls_show))]
pub fn a_slot_without_a_value_is_null()
    ensures { NullsShow }
{}
