//! Laws of the ids that dictionaries have where none are given.
ghost use Rattle.ipc_format_laws.specs.DefaultIds.{DefaultsFit, DefaultsCount};

/// The default ids of a schema that is written fit it: one at each field, and an own id exactly where the field has a dictionary.
#[tactic(auto, using(crate::proofs::DefaultIds::defaults_fit))]
pub fn default_ids_fit()
    ensures { DefaultsFit }
{}

/// The default ids of a schema that is written are 0, 1, 2 and on in pre-order, one for each dictionary.
#[tactic(auto, using(crate::proofs::DefaultIds::defaults_count))]
pub fn default_ids_count_in_pre_order()
    ensures { DefaultsCount }
{}
