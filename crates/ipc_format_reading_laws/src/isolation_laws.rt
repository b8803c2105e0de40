//! What stands outside of the windows of some columns says nothing of a choice of these columns.
//!
//! The function here does nothing: its contract is the law, which a caller has by calling it. The statement is in `specs/`.

ghost use Rattle.ipc_format_reading_laws.specs.Isolation.{ChoicesAreIsolated};

/// Where an input reads as a whole, each input that agrees with it on some columns has the same choice of these columns under each limit:
/// whatever stands in the other columns, in padding and in bytes that no column takes, and whether or not the other input reads as a whole.
pub fn choices_are_isolated()
    ensures { ChoicesAreIsolated }
{}
