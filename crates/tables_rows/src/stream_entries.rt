//! The messages of a stream behind its schema, whatever they hold (Arrow IPC, "IPC Streaming Format").
ghost use Rattle.std.specs.Prelude.{◌<◌, ◌≤◌, length};
ghost use Rattle.tables_chunks.specs.ipc_format.MessageViews.{kind_view, version_view};
ghost use Rattle.tables_chunks.specs.ipc_format.FileEntries.{entries_view};
ghost use Rattle.tables_rows.specs.StreamEntries.{CountsInARow, FindsEntries, PushesNext};

use std::alloc::Global;
use tables_chunks::columnar_memory::Error;
use tables_chunks::{Entry, Fault, MessageHeaderRef, MetadataVersion, NextMessage, next_at};

/// So many messages of dictionaries may stand in a row.
const MOST_DICTIONARIES: usize = 65536;

/// How many messages of dictionaries stand in a row behind one more message.
///
/// # Errors
/// - `Ipc(OutOfSpec)`: it is a schema, or one dictionary more than may stand in a row.
fn count_in_a_row(before: usize, header: &MessageHeaderRef<'_>) -> Result<usize, Fault>
    ensures { CountsInARow before (kind_view header.now) result }
{
    match header {
        MessageHeaderRef::Schema(_) => {
            Err(Fault::Ipc(Error::OutOfSpec("UnexpectedMessageType")))
        }
        MessageHeaderRef::DictionaryBatch(_) => {
            if before >= MOST_DICTIONARIES {
                return Err(Fault::Ipc(Error::OutOfSpec("too many dictionaries in a row")));
            }
            Ok(before + 1)
        }
        MessageHeaderRef::RecordBatch(_) => Ok(0),
    }
}

/// Puts the message at a place behind others, and says where the next one stands; none stands at the end mark. `in_a_row` counts the messages of
/// dictionaries that follow one another before the place, and then those before the next.
///
/// # Errors
/// - `Unfinished`: fewer than four bytes are left.
/// - `Ipc(OutOfSpec)`: the bytes break a rule of framing, or the message may not stand there, as of `count_in_a_row`.
/// - `Memory`: there was no memory for the list.
fn push_next<'a>(
    bytes: &'a [u8],
    place: usize,
    version: MetadataVersion,
    in_a_row: &mut usize,
    entries: &mut Vec<Entry<'a>>,
) -> Result<Option<usize>, Fault>
    ensures { PushesNext (version_view version) bytes.now place in_a_row.old in_a_row.new (entries_view entries.old) (entries_view entries.new)
        result }
{
    let (framed, after) = match next_at(bytes, place) {
        None => return Err(Fault::Ipc(Error::OutOfSpec("InvalidFlatbufferMessage"))),
        Some(NextMessage::Truncated) => return Err(Fault::Unfinished),
        Some(NextMessage::End) => return Ok(None),
        Some(NextMessage::Message(framed, after)) => (framed, after),
    };
    let now = count_in_a_row(*in_a_row, &framed.header)?;
    entries.push(Entry {
        header: framed.header,
        version,
        room: framed.body,
        origin: 0,
    })?;
    *in_a_row = now;
    Ok(Some(after))
}

/// The messages from a place on, up to the end mark; what stands behind it is unread. `version` is that of the schema's message, by which the
/// unions of all batches lie.
///
/// # Errors
/// - `Unfinished`: the stream ends within the first four bytes of a message, where its end mark may be missing.
/// - `Ipc(OutOfSpec)`: the bytes break a rule of framing, a schema stands among the messages, or more than 65,536 dictionaries in a row.
/// - `Memory`: there was no memory for the list.
pub(crate) fn stream_entries<'a>(
    alloc: Global,
    bytes: &'a [u8],
    first: usize,
    version: MetadataVersion,
) -> Result<Vec<Entry<'a>>, Fault>
    requires begun { 0 < first }
    requires inside { first ≤ length bytes.now }
    ensures { FindsEntries (version_view version) bytes.now first result }
{
    let mut entries = Vec::new(alloc);
    let mut in_a_row = 0;
    let mut place = first;
    'messages: loop {
        match push_next(bytes, place, version, &mut in_a_row, &mut entries)? {
            None => break,
            Some(after) => place = after,
        }
    }
    Ok(entries)
}
