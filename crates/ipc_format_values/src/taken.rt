//! What is taken of a view, or why nothing is.
ghost use Rattle.ipc_format_values.specs.Taken.{Takes};

use ipc_format_writing::columnar_memory::{Error, Result};
use ipc_format_writing::messages::{Error as Refusal, as_memory_error};

/// What was found. Where nothing was, compressed buffers are named first.
pub fn taken<T: Drop>(found: Option<T>, is_compressed: bool) -> Result<T>
    ensures { Takes is_compressed result found }
{
    match found {
        Some(value) => Ok(value),
        None if is_compressed => Err(Error::NotYetImplemented("compressed buffers")),
        None => Err(as_memory_error(Refusal::InvalidFlatbuffer)),
    }
}
