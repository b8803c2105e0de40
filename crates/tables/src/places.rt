ghost use Rattle.std.specs.Prelude.{Option, None, IfOk, IfErr};
ghost use Rattle.std.specs.Option.{option_map};
ghost use Rattle.tables_rows.specs.chunks.ipc_format.columnar_memory.Error.{IsOutOfMemory};
ghost use Rattle.tables.specs.Contents.{Contents, Keeps, Holds, Puts};

use std::io::ErrorKind;
use std::rt::Files;
use std::{fs, io};
use tables_rows::tables_chunks::columnar_memory::{Error, Result};

/// Where the program's inputs and outputs stand, by name.
pub trait Places {
    // What stands under each name, where it is known.
    ghost contents: { Self → Option Contents } = { λ _. None };

    /// The bytes under `name`, or `None` where they cannot be read.
    ///
    /// # Errors
    /// [`Error::OutOfMemory`] where there is no room for them.
    fn get(&mut self, name: &str) -> Result<Option<Vec<u8>>>
        ensures kept { Keeps (contents self.old) (contents self.new) }
        ensures found { IfOk result (λ bytes.
            Holds (contents self.old) name.now (option_map (λ v. v.items) bytes)) }
        ensures memory { IfErr result IsOutOfMemory };

    /// Puts `bytes` under `name` in place of what stood there, and answers false where it cannot.
    ///
    /// # Errors
    /// [`Error::OutOfMemory`] where there is no room for them.
    fn put(&mut self, name: &str, bytes: Vec<u8>) -> Result<bool>
        ensures put { Puts (contents self.old) (contents self.new) name.now bytes.items result }
        ensures memory { IfErr result IsOutOfMemory };
}

/// The files of a runtime, each named by its path.
///
/// Nothing is claimed of what a file holds. A write that fails midway may leave a part of its bytes.
#[derive(Drop)]
pub struct FilePlaces<'a, R> {
    rt: &'a R,
}

impl<'a, R> FilePlaces<'a, R> {
    /// The files that the runtime reaches; nothing is opened.
    pub fn new(rt: &'a R) -> Self {
        FilePlaces { rt }
    }
}

impl<'a, R: Files + AllocGlobal> Places for FilePlaces<'a, R> {
    fn get(&mut self, name: &str) -> Result<Option<Vec<u8>>> {
        match fs::read(self.rt, name) {
            Ok(bytes) => Ok(Some(bytes)),
            Err(error) => {
                memory_refused(&error)?;
                Ok(None)
            }
        }
    }

    fn put(&mut self, name: &str, bytes: Vec<u8>) -> Result<bool> {
        match fs::write(self.rt, name, bytes.as_slice()) {
            Ok(()) => Ok(true),
            Err(error) => {
                memory_refused(&error)?;
                Ok(false)
            }
        }
    }
}

// An error where memory was refused, and nothing where a file failed in another way.
fn memory_refused(error: &io::Error) -> Result<()>
    ensures { IfErr result IsOutOfMemory }
{
    if error.kind() == ErrorKind::OutOfMemory {
        return Err(Error::OutOfMemory);
    }
    Ok(())
}
