//! Laws of columns that are written from their slots and as they are stored.
ghost use Rattle.ipc_format_laws.specs.FreshEncodings.{FreshEncodes, FreshGives, RowsEncode, WritableIsBuildable};

/// The column that stores some slots is written, little-endian, as these slots are.
#[tactic(auto, using(crate::proofs::FreshEncodings::fresh_encodes))]
pub fn slots_are_written_as_they_are_stored()
    ensures { FreshEncodes }
{}

/// It brings the dictionaries that these slots bring.
#[tactic(auto, using(crate::proofs::FreshDictionaries::fresh_gives))]
pub fn slots_bring_the_dictionaries_that_are_stored()
    ensures { FreshGives }
{}

/// What is written of rows whose columns fit is what is written of the columns that a batch of them becomes.
#[tactic(auto, using(crate::proofs::FreshBatches::rows_encode))]
pub fn rows_are_written_as_they_are_stored()
    ensures { RowsEncode }
{}

/// Slots of each type that is written and in which no union stands are stored as they come.
#[tactic(auto, using(crate::proofs::BuildableTypes::writable_is_buildable))]
pub fn a_writable_type_is_buildable()
    ensures { WritableIsBuildable }
{}
