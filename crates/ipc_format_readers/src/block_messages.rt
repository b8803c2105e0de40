//! The messages at a file's blocks (Arrow IPC, "IPC File Format", "Encapsulated message format").
ghost use Rattle.std.specs.Prelude.{◌≡◌, ◌+◌, length, IfSome};
ghost use Rattle.std.specs.Option.{option_copied, option_map};
ghost use Rattle.ipc_format_chunk_writing.specs.grammar.Files as format;
ghost use Rattle.ipc_format_chunk_writing.specs.messages.MessageViews.{header_view, kind_view};
ghost use Rattle.ipc_format_readers.specs.BlockMessages.{batch_entry, dictionary_entry, metadata_at, stated_metadata};
ghost use Rattle.ipc_format_readers.specs.MessagesTaken.{stated_size};
ghost use Rattle.ipc_format_readers.specs.MessagesTaken.{TakesMetadataAt, TakesStated, found_batch, found_dictionary, message_in};
ghost use Rattle.ipc_format_readers.specs.FileStarts.{block_view};

use crate::blocks::MessageBlock;
use ipc_format_chunk_writing::Room;
use ipc_format_chunk_writing::streams::columnar_memory::{Error, Result};
use ipc_format_chunk_writing::streams::flatbuffers::{i32_at, window};
use ipc_format_chunk_writing::streams::messages::{
    DictionaryBatchRef, MessageHeaderRef, MessageRef, MetadataVersion, RecordBatchRef, version_in,
};

/// The metadata of a stated length from a place on. A length of 0 is no metadata, and a negative one is refused.
fn stated_metadata(bytes: &[u8], stated: i32, place: usize) -> Option<&[u8]>
    ensures { option_copied result ≡ stated_metadata bytes.now stated place }
{
    if stated == 0 {
        return None;
    }
    let size = usize::try_from(stated).ok()?;
    window(bytes, place, size)
}

/// The metadata of the message at a place: behind the marker, which may be missing, stands its length, and then it. `None` where there is none.
#[tactic(auto, unfolding(crate::proofs::Passed::frame_at))]
fn metadata_at(bytes: &[u8], place: usize) -> Option<&[u8]>
    ensures { option_copied result ≡ metadata_at bytes.now place }
{
    let first = i32_at(bytes, place)?;
    if first == -1 {
        let stated = i32_at(bytes, place + 4)?;
        stated_metadata(bytes, stated, place + 8)
    } else {
        stated_metadata(bytes, first, place + 4)
    }
}

/// What the message of some metadata carries. The length of its body is not looked at.
#[tactic(auto, unfolding(crate::proofs::Passed::header_in))]
fn header_in(metadata: &[u8]) -> Option<MessageHeaderRef<'_>>
    ensures value { option_map kind_view result ≡ format.header_in metadata.now }
    ensures stands { IfSome result (λ header. (header_view header).bytes ≡ metadata.now) }
{
    MessageRef::read_as_root(metadata).ok()?.header().ok()?
}

/// The dictionary whose message stands at a block, and the version of the message, by which unions lie. `None` where another message stands
/// there, or none.
pub(crate) fn dictionary_at<'a>(
    bytes: &'a [u8],
    block: &MessageBlock,
) -> Option<(DictionaryBatchRef<'a>, MetadataVersion)>
    ensures { option_map (dictionary_entry bytes.now (block_view block.now)) result
        ≡ format.entry_at format.is_dictionary bytes.now (block_view block.now) }
{
    let metadata = metadata_at(bytes, block.offset)?;
    dictionary_in(metadata)
}

/// The record batch whose message stands at a block, and the version of the message, by which unions lie. `None` where another message stands
/// there, or none.
pub(crate) fn record_batch_at<'a>(
    bytes: &'a [u8],
    block: &MessageBlock,
) -> Option<(RecordBatchRef<'a>, MetadataVersion)>
    ensures { option_map (batch_entry bytes.now (block_view block.now)) result
        ≡ format.entry_at format.is_record_batch bytes.now (block_view block.now) }
{
    let metadata = metadata_at(bytes, block.offset)?;
    record_batch_in(metadata)
}

/// How many bytes the metadata have behind a stated length: it is above 0.
fn stated_size(stated: i32) -> Option<usize>
    ensures { result ≡ stated_size stated }
{
    if stated == 0 {
        return None;
    }
    usize::try_from(stated).ok()
}

/// Puts the metadata of a stated length in place of what a vector holds. They stand `behind` bytes behind a place.
///
/// # Errors
/// As `read_message_metadata`.
fn take_stated<R: Room>(
    reader: &mut R,
    place: u64,
    behind: u64,
    stated: i32,
    metadata: &mut Vec<u8>,
) -> Result<()>
    ensures { TakesStated (R.told reader.old) (R.told reader.new) stated (place + behind) metadata.new.items result }
{
    let Some(size) = stated_size(stated) else {
        return Err(Error::OutOfSpec("InvalidHeader"));
    };
    reader.fill_from(place, behind, size, metadata)
}

/// Puts the metadata of the message at a place in place of what a vector holds: behind the marker, which may be missing, stands its length, and then
/// it.
///
/// # Errors
/// - `OutOfSpec`: no message stands there.
/// - `Io`: the device failed.
/// - `OutOfMemory`: there was no memory for the metadata.
pub(crate) fn read_message_metadata<R: Room>(
    reader: &mut R,
    place: u64,
    metadata: &mut Vec<u8>,
) -> Result<()>
    ensures { TakesMetadataAt (R.told reader.old) (R.told reader.new) place metadata.new.items result }
{
    reader.fill_from(place, 0, 4, metadata)?;
    let Some(first) = i32_at(metadata, 0) else {
        return Err(Error::OutOfSpec("InvalidHeader"));
    };
    if first != -1 {
        return take_stated(reader, place, 4, first, metadata);
    }
    reader.fill_from(place, 4, 4, metadata)?;
    let Some(stated) = i32_at(metadata, 0) else {
        return Err(Error::OutOfSpec("InvalidHeader"));
    };
    take_stated(reader, place, 8, stated, metadata)
}

/// The dictionary that a message's metadata carry, and the version of the message, by which unions lie. `None` where they carry another message, or
/// none.
pub(crate) fn dictionary_in(metadata: &[u8]) -> Option<(DictionaryBatchRef<'_>, MetadataVersion)>
    ensures value { option_map found_dictionary result ≡ message_in format.is_dictionary metadata.now }
    ensures stands { IfSome result (λ found. found.0.table.bytes.now ≡ metadata.now) }
{
    let MessageHeaderRef::DictionaryBatch(header) = header_in(metadata)? else {
        return None;
    };
    let version = version_in(metadata)?;
    Some((header, version))
}

/// The record batch that a message's metadata carry, and the version of the message, by which unions lie. `None` where they carry another message, or
/// none.
pub(crate) fn record_batch_in(metadata: &[u8]) -> Option<(RecordBatchRef<'_>, MetadataVersion)>
    ensures value { option_map found_batch result ≡ message_in format.is_record_batch metadata.now }
    ensures stands { IfSome result (λ found. found.0.table.bytes.now ≡ metadata.now) }
{
    let MessageHeaderRef::RecordBatch(header) = header_in(metadata)? else {
        return None;
    };
    let version = version_in(metadata)?;
    Some((header, version))
}
