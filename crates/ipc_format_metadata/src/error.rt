ghost use Rattle.std.specs.Prelude.{codes};
ghost use Rattle.ipc_format_metadata.specs.Names.{IsNamed};

use ipc_format_grammar::columnar_memory::Error as MemoryError;

/// Why a view does not answer.
#[derive(Clone, Copy, Debug, PartialEq, Eq)]
pub enum Error {
    /// The bytes break a rule of FlatBuffers at the slot, or have a number there that names nothing.
    InvalidFlatbuffer,
}

impl From<Error> for MemoryError {
    ghost from_gives = { λ _ error. IsNamed (codes "InvalidFlatbuffer") error };

    fn from(_error: Error) -> Self {
        MemoryError::OutOfSpec("InvalidFlatbuffer")
    }
}
