//! Laws of the first ones of slots: what their column stores, in terms of what that of all stores.
ghost use Rattle.nested_arrays_columns.specs.CutLaws.{ListsCut, FixedListsCut, StructsCut, DictionariesCut};

/// The first lists have the first offsets, and the items up to the last of them.
#[tactic(auto, using(crate::proofs::Laws::lists_cut))]
pub fn the_first_lists_store_the_first_items()
    ensures { ListsCut }
{}

/// The first lists of a size have so many times as many items.
#[tactic(auto, using(crate::proofs::Laws::fixed_lists_cut))]
pub fn the_first_fixed_size_lists_store_the_first_items()
    ensures { FixedListsCut }
{}

/// The first records have the first slots of each field.
#[tactic(auto, using(crate::proofs::Laws::structs_cut))]
pub fn the_first_records_store_the_first_of_each_field()
    ensures { StructsCut }
{}

/// The first keys are kept, and of the values those that the valid ones among them need.
#[tactic(auto, using(crate::proofs::Laws::dictionaries_cut))]
pub fn the_first_keys_store_the_first_values()
    ensures { DictionariesCut }
{}
