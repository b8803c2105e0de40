//! The footer of a file (File.fbs, `Footer`).
ghost use Rattle.std.specs.Prelude.{◌≡◌, true};
ghost use Rattle.ipc_format_readers.specs.chunk_writing.metadata.Views.{ids_views};
ghost use Rattle.ipc_format_readers.specs.streams.owned.writing.Writing.{may_write};
ghost use Rattle.ipc_format.specs.Ends.{GivesFooter, has_room, zeros_before};
ghost use Rattle.ipc_format.specs.FilePhases.{progress_of};

use crate::state::Progress;
use ipc_format_readers::streams::columnar_memory::{Error, Result, Schema};
use ipc_format_readers::streams::metadata::IpcField;
use ipc_format_readers::streams::owned::writing::footer_to_bytes;
use std::alloc::Global;

/// How many bytes stand behind the last message beside the footer: the end mark, the footer's length, and the mark.
const AROUND_FOOTER: u64 = 18;

/// The last place that a footer can state.
const LAST_PLACE: u64 = 9_223_372_036_854_775_807;

/// Whether a file whose messages end at a place has fewer than 2^63 bytes with a footer.
fn has_room(place: u64, footer: &[u8]) -> bool
    ensures { result ≡ has_room place footer.now }
{
    let Some(room) = place.checked_add(AROUND_FOOTER) else {
        return false;
    };
    match room.checked_add(footer.len() as u64) {
        Some(length) => length <= LAST_PLACE,
        None => false,
    }
}

/// The footer of a file, by its schema and what is written of it.
///
/// # Errors
/// - `Overflow`: the footer would have 2^31 bytes or more, or the file 2^63 or more.
/// - `OutOfMemory`: there was no memory for the footer.
pub(crate) fn footer_of(
    alloc: Global,
    schema: &Schema,
    ids: &[IpcField],
    file: &Progress,
) -> Result<Vec<u8>>
    requires { may_write schema.now (ids_views ids.now) ≡ true }
    ensures { GivesFooter result schema.now (ids_views ids.now) (progress_of file.now) }
{
    let footer = footer_to_bytes(alloc, schema, ids, &file.dictionaries, &file.record_batches)?;
    if !has_room(file.place, &footer) {
        return Err(Error::Overflow);
    }
    Ok(footer)
}

/// How many zeros stand before a footer, so that the file has no fewer bytes than before.
pub(crate) fn zeros_before(file: &Progress, footer: &[u8]) -> u64
    requires { has_room (progress_of file.now).place footer.now ≡ true }
    ensures { result ≡ zeros_before (progress_of file.now) footer.now }
{
    file.size
        .saturating_sub(file.place + AROUND_FOOTER + footer.len() as u64)
}
