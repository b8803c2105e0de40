//! Messages of a stream, one after another (Arrow IPC, "Encapsulated message format" and "IPC Streaming Format").
//!
//! The input stands in memory, so metadata and bodies are windows of it: no memory is asked for by a stated length.
ghost use Rattle.std.specs.Prelude.{◌≡◌, ◌≢◌, ◌+◌, ◌≤◌, ◌<◌, length, IfSome, negsuc};
ghost use Rattle.std.specs.Option.{option_map};
ghost use Rattle.ipc_format_values.specs.grammar.Framing as format;
ghost use Rattle.ipc_format_streams.specs.Frames.{ReachesFrom, ReachesBehind, frame_view, framed_view, next_view};

use crate::frames::{Frame, Framed, NextMessage};
use ipc_format_values::flatbuffers::{i32_at, window};
use ipc_format_values::messages::{MessageHeaderRef, message_in};

/// The metadata of a stated length from a place on. A length of 0 ends the stream, and a negative one is refused.
fn frame_of(bytes: &[u8], stated: i32, place: usize) -> Option<Frame<'_>>
    requires { place ≤ length bytes.now }
    ensures value { option_map frame_view result ≡ format.frame_of bytes.now stated place }
    ensures reach { IfSome result (ReachesFrom place (length bytes.now)) }
{
    if stated == 0 {
        return Some(Frame::End);
    }
    let size = usize::try_from(stated).ok()?;
    let metadata = window(bytes, place, size)?;
    Some(Frame::Metadata(metadata, place + size))
}

/// What stands at a place: the marker, which may be missing, a length, and as many bytes of metadata. `None` where the length is
/// negative or passes the end.
#[tactic(auto, unfolding(crate::proofs::Passed::frame_at))]
fn frame_at(bytes: &[u8], place: usize) -> Option<Frame<'_>>
    ensures value { option_map frame_view result ≡ format.frame_at bytes.now place }
    ensures reach { IfSome result (ReachesFrom place (length bytes.now)) }
{
    if place > bytes.len() || bytes.len() - place < 4 {
        return Some(Frame::Truncated);
    }
    let first = i32_at(bytes, place)?;
    if first == -1 {
        let length = i32_at(bytes, place + 4)?;
        frame_of(bytes, length, place + 8)
    } else {
        frame_of(bytes, first, place + 4)
    }
}

/// The message of some metadata, whose body begins at a place, and where the next message stands. A schema has no body.
fn framed_at<'a>(bytes: &'a [u8], metadata: &'a [u8], place: usize) -> Option<(Framed<'a>, usize)>
    requires { place ≤ length bytes.now }
    ensures value { option_map framed_view result ≡ format.framed_at bytes.now metadata.now place }
    ensures reach { IfSome result (λ found. (place ≤ found.1) × (found.1 ≤ length bytes.now)) }
{
    let message = message_in(metadata)?;
    let header = message.header;
    let size = match header {
        MessageHeaderRef::Schema(_) => 0,
        MessageHeaderRef::DictionaryBatch(_) | MessageHeaderRef::RecordBatch(_) => usize::try_from(
            message.body_length,
        ).ok()?,
    };
    let body = window(bytes, place, size)?;
    let framed = Framed {
        metadata,
        header,
        body,
    };
    Some((framed, place + size))
}

/// What stands at a place: a message whole, the end mark, or fewer than four bytes. `None` where the bytes break a rule of the format.
pub fn next_at(bytes: &[u8], place: usize) -> Option<NextMessage<'_>>
    ensures value { option_map next_view result ≡ format.next_at bytes.now place }
    ensures reach { IfSome result (ReachesBehind place (length bytes.now)) }
{
    match frame_at(bytes, place)? {
        Frame::Truncated => Some(NextMessage::Truncated),
        Frame::End => Some(NextMessage::End),
        Frame::Metadata(metadata, body_place) => {
            let (framed, after) = framed_at(bytes, metadata, body_place)?;
            Some(NextMessage::Message(framed, after))
        }
    }
}
