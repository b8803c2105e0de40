//! The messages of a stream, one after another.
ghost use Rattle.std.specs.Prelude.{◌≡◌, ◌<◌, length};
ghost use Rattle.std.specs.Io.KnownBytes.{prepend_known};
ghost use Rattle.ipc_format_streams.specs.Incoming.{body_size_in, Holds, IsSize, TakesBody, TakesMetadata, TakesNext, TellsSize};

use crate::arriving::fill;
use ipc_format_values::columnar_memory::{Error, Result};
use ipc_format_values::flatbuffers::i32_at;
use ipc_format_values::messages::{MessageHeaderRef, message_in};
use std::io::Read;
use std::mem::replace;

/// What comes next of a stream.
#[derive(Clone, Copy, Debug, PartialEq, Eq)]
pub enum Incoming {
    /// Fewer than four bytes came; more may.
    Waiting,
    /// The end mark.
    End,
    /// A message.
    Message,
}

/// Takes the next message of a stream from a device: its metadata and its body stand in the vectors then, in place of what they held.
///
/// Where fewer than four bytes are left it waits: they are held, none of them is lost, and a later call goes on with them. After the end mark
/// and after a refusal nothing more is to be read.
///
/// # Errors
/// - `OutOfSpec`: the bytes break a rule of the format.
/// - `Io`: the device refused.
/// - `OutOfMemory`: there was no memory for what came.
#[tactic(auto, using(crate::proofs::Told::answers))]
pub fn next_message<R: Read>(
    reader: &mut R,
    held: &mut Vec<u8>,
    metadata: &mut Vec<u8>,
    body: &mut Vec<u8>,
) -> Result<Incoming>
    requires { length held.old.items < 4 }
    ensures taken { TakesNext (prepend_known held.old.items (R.remaining reader.old)) (prepend_known held.new.items (R.remaining reader.new))
        metadata.new.items body.new.items result }
    ensures held { Holds held.new.items result }
{
    let alloc = *metadata.allocator();
    let mut head = replace(held, Vec::new(alloc));
    if !fill(reader, 4, &mut head)? {
        *held = head;
        return Ok(Incoming::Waiting);
    }
    let size = match size_behind(reader, &mut head)? {
        0 => return Ok(Incoming::End),
        size => size,
    };
    take_metadata(reader, size, metadata)?;
    take_body(reader, metadata, body)?;
    Ok(Incoming::Message)
}

/// A length that is stated.
///
/// # Errors
/// `OutOfSpec`: it is negative.
fn size_of(stated: i32) -> Result<usize>
    ensures { IsSize stated result }
{
    match usize::try_from(stated) {
        Ok(size) => Ok(size),
        Err(_) => Err(Error::OutOfSpec("UnexpectedNegativeInteger")),
    }
}

/// How many bytes of metadata stand behind the first four bytes of a message. Where these are the continuation marker, the next four say it.
///
/// # Errors
/// `OutOfSpec`: there are fewer bytes, or the number is negative.
#[tactic(auto, using(crate::proofs::Told::sizes))]
fn size_behind<R: Read>(reader: &mut R, head: &mut Vec<u8>) -> Result<usize>
    requires { length head.old.items ≡ 4 }
    ensures { TellsSize (R.remaining reader.old) (R.remaining reader.new) head.old.items head.new.items result }
{
    let Some(first) = i32_at(head, 0) else {
        return Err(Error::OutOfSpec("InvalidHeader"));
    };
    if first != -1 {
        return size_of(first);
    }
    if !fill(reader, 8, head)? {
        return Err(Error::OutOfSpec("InvalidHeader"));
    }
    let Some(stated) = i32_at(head, 4) else {
        return Err(Error::OutOfSpec("InvalidHeader"));
    };
    size_of(stated)
}

/// Takes so many bytes of metadata.
///
/// # Errors
/// `OutOfSpec`: there are fewer.
fn take_metadata<R: Read>(reader: &mut R, size: usize, metadata: &mut Vec<u8>) -> Result<()>
    ensures { TakesMetadata (R.remaining reader.old) (R.remaining reader.new) size metadata.new.items result }
{
    metadata.clear();
    if fill(reader, size, metadata)? {
        Ok(())
    } else {
        Err(Error::OutOfSpec("InvalidHeader"))
    }
}

/// Takes the body of a message. A schema has none.
///
/// # Errors
/// `OutOfSpec`: the metadata is none of a message, or there are fewer bytes.
fn take_body<R: Read>(reader: &mut R, metadata: &[u8], body: &mut Vec<u8>) -> Result<()>
    ensures { TakesBody (R.remaining reader.old) (R.remaining reader.new) metadata.now body.new.items result }
{
    body.clear();
    let Some(size) = body_size(metadata) else {
        return Err(Error::OutOfSpec("InvalidFlatbufferMessage"));
    };
    if fill(reader, size, body)? {
        Ok(())
    } else {
        Err(Error::OutOfSpec("InvalidFlatbufferBodyLength"))
    }
}

/// How many bytes the body of a message has. A schema has none.
fn body_size(metadata: &[u8]) -> Option<usize>
    ensures { result ≡ body_size_in metadata.now }
{
    let message = message_in(metadata)?;
    match message.header {
        MessageHeaderRef::Schema(_) => Some(0),
        MessageHeaderRef::DictionaryBatch(_) | MessageHeaderRef::RecordBatch(_) => {
            usize::try_from(message.body_length).ok()
        }
    }
}
