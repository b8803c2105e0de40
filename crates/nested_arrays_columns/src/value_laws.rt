//! Laws of the values and keys of dictionaries.
ghost use Rattle.nested_arrays_columns.specs.ValueLaws.{ValuesDistinct, ValuesGrow, KeysStay, KeysByPlace, KeysOfNew, NotAmong};

/// No value stands twice.
#[tactic(auto, using(crate::proofs::Laws::values_apart))]
pub fn no_value_stands_twice()
    ensures { ValuesDistinct }
{}

/// A slot is one more value where it is neither null nor among them.
#[tactic(auto, using(crate::proofs::Laws::values_grow_by_one))]
pub fn a_new_slot_is_one_more_value()
    ensures { ValuesGrow }
{}

/// Slots keep their keys where there are more behind.
pub fn slots_keep_their_keys()
    ensures { KeysStay }
{}

/// The key of a slot is the place of the value that is the same.
#[tactic(auto, using(crate::proofs::Laws::keys_by_place))]
pub fn a_key_is_the_place_of_its_value()
    ensures { KeysByPlace }
{}

/// The key of one more value is how many there were.
#[tactic(auto, using(crate::proofs::Laws::keys_of_new))]
pub fn one_more_value_has_the_last_key()
    ensures { KeysOfNew }
{}

/// A slot that no place has is not among them.
pub fn what_no_place_has_is_not_among_them()
    ensures { NotAmong }
{}
