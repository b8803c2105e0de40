ghost use Rattle.std.specs.Prelude.{codes};
ghost use Rattle.ipc_format_metadata.specs.Names.{IsNamed};

use ipc_format_metadata::Error;
use ipc_format_metadata::columnar_memory::Error as MemoryError;

/// The refusal as an error of the memory layer, for packages that this one is passed on to: a conversion by `?` is not in scope there.
pub fn as_memory_error(error: Error) -> MemoryError
    ensures { IsNamed (codes "InvalidFlatbuffer") result }
{
    MemoryError::from(error)
}
