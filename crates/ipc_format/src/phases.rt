//! Tests of how far a file is.
ghost use Rattle.std.specs.Prelude.{◌≡◌};
ghost use Rattle.ipc_format.specs.FilePhases.{is_fresh, phase_of};

use crate::state::State;

/// Whether nothing is written.
pub(crate) fn is_fresh(state: &State) -> bool
    ensures { result ≡ is_fresh (phase_of state.now) }
{
    match state {
        State::Fresh => true,
        State::Started(_) => false,
        State::Finished => false,
        State::Broken => false,
    }
}
