//! Laws of slots with one more: what their column stores, and when they fit where the others do.
ghost use Rattle.nested_arrays_columns.specs.GrowthLaws.{ListsGrow, FixedListsGrow, StructsGrow, DictionariesGrow, OneMoreListFits};
ghost use Rattle.nested_arrays_columns.specs.GrowthLaws.{OneMoreLargeListFits};
ghost use Rattle.nested_arrays_columns.specs.GrowthLaws.{OneMoreFixedListFits, OneMoreStructFits, OneMoreKeyFits, OneMoreNumberFits};

/// One more list has an offset behind the last, and its items stand behind the others.
#[tactic(auto, using(crate::proofs::Laws::lists_grow))]
pub fn one_more_list_stores_its_items()
    ensures { ListsGrow }
{}

/// The items of one more list of the size stand behind the others.
#[tactic(auto, using(crate::proofs::Laws::fixed_lists_grow))]
pub fn one_more_fixed_size_list_stores_its_items()
    ensures { FixedListsGrow }
{}

/// Each field of one more record stands behind those of the others.
#[tactic(auto, using(crate::proofs::Laws::structs_grow))]
pub fn one_more_record_stores_its_fields()
    ensures { StructsGrow }
{}

/// One more key stands behind the others, and a value that is new behind the values.
#[tactic(auto, using(crate::proofs::Laws::dictionaries_grow))]
pub fn one_more_key_stores_its_value()
    ensures { DictionariesGrow }
{}

/// One more list with offsets of 32 bits fits where it is a list or null, there is room for it and its items, and these fit.
#[tactic(auto, using(crate::proofs::Laws::one_more_list))]
pub fn when_one_more_list_fits()
    ensures { OneMoreListFits }
{}

/// The same of lists with offsets of 64 bits.
#[tactic(auto, using(crate::proofs::Laws::one_more_large_list))]
pub fn when_one_more_large_list_fits()
    ensures { OneMoreLargeListFits }
{}

/// One more list of a size fits where it has the size or is null, there is room for it, and its items fit.
#[tactic(auto, using(crate::proofs::Laws::one_more_fixed_list))]
pub fn when_one_more_fixed_size_list_fits()
    ensures { OneMoreFixedListFits }
{}

/// One more record fits where it has a value for each field or is null, there is room for it, and each field fits.
#[tactic(auto, using(crate::proofs::Laws::one_more_struct))]
pub fn when_one_more_record_fits()
    ensures { OneMoreStructFits }
{}

/// A dictionary takes a null, one of its values, or one more that fits behind them.
#[tactic(auto, using(crate::proofs::Laws::one_more_key))]
pub fn when_one_more_key_fits()
    ensures { OneMoreKeyFits }
{}

/// One more number fits where it is of the kind or null and there is room for it.
#[tactic(auto, using(crate::proofs::Laws::one_more_number))]
pub fn when_one_more_number_fits()
    ensures { OneMoreNumberFits }
{}
