//! What is read by a type, its normal form reads with the type of each union's pick in normal form.
//!
//! The function here does nothing: its contract is the law, which a caller has by calling it. The statement is in `specs/`.

ghost use Rattle.ipc_format_reading_laws.specs.NormalSlots.{NormalTypesRead};

/// Schemas are read in normal form, while arrays may have types that are not. Where a type reads some slots at a place, its normal form reads
/// the same slots with the type of each union's pick in normal form, where each standing dictionary was read by the normal form of its type.
pub fn normalised_types_read_the_same_slots()
    ensures { NormalTypesRead }
{}
