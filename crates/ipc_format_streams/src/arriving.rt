//! Bytes that arrive piece by piece.
ghost use Rattle.std.specs.Prelude.{◌<◌, ◌≤◌, length};
ghost use Rattle.ipc_format_streams.specs.Arriving.{Fills, MakesRoom, ReadsBehind};

use ipc_format_values::columnar_memory::{Error, Result};
use std::io;
use std::io::Read;

/// How many bytes memory is asked for at most beyond those that came.
const PIECE: usize = 65536;

/// Reads into what stands behind the first bytes of a vector, once.
fn read_behind<R: Read>(reader: &mut R, into: &mut Vec<u8>, filled: usize) -> io::Result<usize>
    requires { filled ≤ length into.old.items }
    ensures { ReadsBehind (R.remaining reader.old) (R.remaining reader.new) filled into.old.items into.new.items result }
{
    reader.read(&mut into[filled..])
}

/// Makes room for the next piece of `count` bytes, of which some are there.
fn make_room(into: &mut Vec<u8>, count: usize) -> Result<()>
    requires { length into.old.items < count }
    ensures { MakesRoom count into.old.items into.new.items result }
{
    let held = into.len();
    into.resize(held + PIECE.min(count - held), 0)?;
    Ok(())
}

/// Adds the next bytes of a device behind those of a vector until there are `count`, and answers whether there are: if not, the device
/// ended before. Memory is asked for by what comes, in pieces.
///
/// # Errors
/// - `Io`: the device refused. The bytes that came before stand in the vector.
/// - `OutOfMemory`: there was no memory for the next piece.
pub fn fill<R: Read>(reader: &mut R, count: usize, into: &mut Vec<u8>) -> Result<bool>
    requires { length into.old.items ≤ count }
    ensures { Fills (R.remaining reader.old) (R.remaining reader.new) into.old.items into.new.items count result }
{
    let mut filled = into.len();
    while filled < count {
        if into.len() == filled {
            make_room(into, count)?;
        }
        match read_behind(reader, into, filled) {
            Ok(0) => {
                into.truncate(filled);
                return Ok(false);
            }
            Ok(more) => filled += more,
            Err(error) => {
                into.truncate(filled);
                return Err(Error::Io(error));
            }
        }
    }
    Ok(true)
}
