//! Writing whole pieces to a device, and what its refusal is called.
ghost use Rattle.std.specs.Prelude.{◌≡◌};
ghost use Rattle.ipc_format_streams.specs.Devices.{IsNamed, IsOutcome, Puts};

use ipc_format_values::columnar_memory::{Error, Result};
use std::io;
use std::io::{ErrorKind, Write};

/// What a refusal is called of a device that is memory alone or is not, had failed `before` times before the call, and has failed `after` times now.
/// Memory refuses for want of memory, by `OutOfMemory`. Another device's refusal is `Io` where its count rose in the call, and else `OutOfMemory`
/// for want of memory and `OutOfSpec`. An error that is none of the device keeps its name.
fn refusal(error: Error, is_memory: bool, before: u64, after: u64) -> Error
    ensures { IsNamed error is_memory before after result }
{
    match error {
        Error::Io(error) => {
            if is_memory {
                Error::OutOfMemory
            } else if before < after {
                Error::Io(error)
            } else if error.kind() == ErrorKind::OutOfMemory {
                Error::OutOfMemory
            } else {
                Error::OutOfSpec("a write was refused")
            }
        }
        other => other,
    }
}

/// What a call answers whose writes gave a result, where the device had failed `before` times before it, and has failed `after` times now. What was
/// written is taken for a success only where the count is what it was. A refusal is called as `refusal` says, and so is a count that changed though
/// each write was answered by `Ok`: `Io` of kind `Other` where it rose, and `OutOfSpec` where it fell.
///
/// # Errors
/// Those of the result, by the names of `refusal`, and a count that changed.
pub fn outcome<T: Drop>(written: Result<T>, is_memory: bool, before: u64, after: u64) -> Result<T>
    ensures { IsOutcome written is_memory before after result }
{
    match written {
        Ok(value) if before == after => Ok(value),
        Ok(_) => Err(refusal(
            Error::Io(io::Error::from(ErrorKind::Other)),
            is_memory,
            before,
            after,
        )),
        Err(error) => Err(refusal(error, is_memory, before, after)),
    }
}

/// Writes all bytes, in as many writes as the device takes.
///
/// # Errors
/// `Io`: the device refused a piece, or took nothing of it. `refusal` says what that is called. A beginning of the bytes is written.
pub fn put<W: Write>(writer: &mut W, bytes: &[u8]) -> Result<()>
    ensures { Puts result (W.contents writer.old) (W.contents writer.new) bytes.now }
{
    let mut rest = bytes;
    while !rest.is_empty() {
        match writer.write(rest) {
            Ok(0) => return Err(Error::Io(io::Error::from(ErrorKind::WriteZero))),
            Ok(count) => rest = &rest[count..],
            Err(error) => return Err(Error::Io(error)),
        }
    }
    Ok(())
}
