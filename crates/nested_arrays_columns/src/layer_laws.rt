//! Laws of what the column of some slots stores, and of which slots fit, by one layer of their type.
ghost use Rattle.nested_arrays_columns.specs.LayerLaws.{ListsStored, FixedListsStored, StructsStored, DictionariesStored, NumbersStored, ListsFit};
ghost use Rattle.nested_arrays_columns.specs.LayerLaws.{LargeListsFit, MapsFit, FixedListsFit, StructsFit, DictionariesFit, NumbersFit};
ghost use Rattle.nested_arrays_columns.specs.LayerLaws.{NothingFits, FirstOnesFit};
ghost use Rattle.nested_arrays_columns.specs.TypeLayouts.{LayoutsTell};

/// Lists of either width and maps store the items of their slots, joined.
#[tactic(auto, using(crate::proofs::Laws::lists_stored))]
pub fn lists_store_their_items()
    ensures { ListsStored }
{}

/// Lists of one size store the items of their slots, joined; a null brings so many nulls.
#[tactic(auto, using(crate::proofs::Laws::fixed_lists_stored))]
pub fn fixed_size_lists_store_their_items()
    ensures { FixedListsStored }
{}

/// Structs store a column for each field.
#[tactic(auto, using(crate::proofs::Laws::structs_stored))]
pub fn structs_store_their_fields()
    ensures { StructsStored }
{}

/// Dictionaries store the distinct slots but null, and the place of each slot among them.
#[tactic(auto, using(crate::proofs::Laws::dictionaries_stored))]
pub fn dictionaries_store_their_values()
    ensures { DictionariesStored }
{}

/// Types that lie in memory as numbers of a kind store these.
#[tactic(auto, using(crate::proofs::Laws::numbers_stored))]
pub fn primitive_columns_store_their_numbers()
    ensures { NumbersStored }
{}

/// Lists with offsets of 32 bits fit where their items do, and are not too many.
#[tactic(auto, using(crate::proofs::Laws::lists_fit_by_items))]
pub fn lists_fit_where_their_items_do()
    ensures { ListsFit }
{}

/// Lists with offsets of 64 bits fit where their items do, and are not too many.
#[tactic(auto, using(crate::proofs::Laws::large_lists_fit_by_items))]
pub fn large_lists_fit_where_their_items_do()
    ensures { LargeListsFit }
{}

/// Of maps only nulls fit.
#[tactic(auto, using(crate::proofs::Laws::maps_fit))]
pub fn no_map_but_null_fits()
    ensures { MapsFit }
{}

/// Lists of one size fit where they have it and their items fit.
#[tactic(auto, using(crate::proofs::Laws::fixed_lists_fit))]
pub fn fixed_size_lists_fit_where_their_items_do()
    ensures { FixedListsFit }
{}

/// Structs fit where each field does.
#[tactic(auto, using(crate::proofs::Laws::structs_fit))]
pub fn structs_fit_where_their_fields_do()
    ensures { StructsFit }
{}

/// Dictionaries fit where their values do, and the keys tell these apart.
#[tactic(auto, using(crate::proofs::Laws::dictionaries_fit))]
pub fn dictionaries_fit_where_their_values_do()
    ensures { DictionariesFit }
{}

/// Types that lie in memory as numbers of a kind take these and null.
#[tactic(auto, using(crate::proofs::Laws::numbers_fit_by_kind))]
pub fn numbers_fit_by_their_kind()
    ensures { NumbersFit }
{}

/// No slots fit every type.
#[tactic(auto, using(crate::proofs::Laws::nothing_fits_all))]
pub fn no_slots_fit_every_type()
    ensures { NothingFits }
{}

/// The first ones of slots that fit do.
#[tactic(auto, using(crate::proofs::Laws::first_fit))]
pub fn the_first_of_what_fits_fit()
    ensures { FirstOnesFit }
{}

/// The layout of a type tells its layer.
#[tactic(auto, using(crate::proofs::LayersLaid::layouts_tell))]
pub fn a_layout_tells_the_layer()
    ensures { LayoutsTell }
{}
