//! Tests of how far a stream is.
ghost use Rattle.std.specs.Prelude.{◌≡◌};
ghost use Rattle.ipc_format_chunk_writing.specs.Phases.{is_fresh, is_started, phase_of};

use crate::state::State;

/// Whether nothing is written.
pub(crate) fn is_fresh(state: &State) -> bool
    ensures { result ≡ is_fresh (phase_of state.now) }
{
    match state {
        State::Fresh => true,
        State::Started(_) => false,
        State::Finished => false,
        State::Broken => false,
    }
}

/// Whether the schema is written, and the end is not.
pub(crate) fn is_started(state: &State) -> bool
    ensures { result ≡ is_started (phase_of state.now) }
{
    match state {
        State::Fresh => false,
        State::Started(_) => true,
        State::Finished => false,
        State::Broken => false,
    }
}
