//! The messages of a stream up to a record batch.
ghost use Rattle.std.specs.Prelude.{◌≡◌, ◌<◌, [], length, MatchResult};
ghost use Rattle.std.specs.Option.{ForSome, option_copied};
ghost use Rattle.std.specs.Io.KnownBytes.{prepend_known};
ghost use Rattle.ipc_format_chunk_writing.specs.BatchReads.{IsProjection};
ghost use Rattle.ipc_format_chunk_writing.specs.ReadArrays.{standing_in};
ghost use Rattle.ipc_format_chunk_writing.specs.columnar_memory.Error.{IsOutOfMemory};
ghost use Rattle.ipc_format_chunk_writing.specs.messages.MessageViews.{version_view};
ghost use Rattle.ipc_format_chunk_writing.specs.metadata.Views.{ids_views};
ghost use Rattle.ipc_format_chunk_writing.specs.NamedValues.{AreValuesOf};
ghost use Rattle.ipc_format_readers.specs.AskedStates.{HasKeptFound, found_as_asked};
ghost use Rattle.ipc_format_readers.specs.Asking.{AreReady, asked_of};
ghost use Rattle.ipc_format_readers.specs.Hearing.{TakesTurn};

use crate::asking::{Asked, put_asked, rising};
use crate::message::read_message;
use crate::state::StreamState;
use ipc_format_chunk_writing::columnar_memory::{Field, Result};
use ipc_format_chunk_writing::streams::messages::MetadataVersion;
use ipc_format_chunk_writing::streams::metadata::IpcSchema;
use ipc_format_chunk_writing::streams::{Incoming, next_message};
use ipc_format_chunk_writing::{
    Dictionaries, ValuesById, choices_are_put_back, look_ups_are_enough, values_by_id,
};
use std::alloc::{AllocError, Global};
use std::io::Read;

/// What a reader keeps of a stream between its calls.
#[derive(Drop)]
pub struct Standing {
    /// The first bytes of a message, of which fewer than four came.
    pub held: Vec<u8>,
    /// The metadata and the body of the last message.
    pub metadata: Vec<u8>,
    pub body: Vec<u8>,
    pub scratch: Vec<u8>,
    /// The dictionaries that stand, and how many of their messages came in a row.
    pub dictionaries: Dictionaries,
    pub in_a_row: usize,
}

impl Standing {
    /// Nothing is held, and no dictionary stands.
    pub(crate) fn new(alloc: Global) -> Standing
        ensures held { result.held.items ≡ [] }
        ensures dictionaries { result.dictionaries.entries ≡ [] }
        ensures in_a_row { result.in_a_row ≡ 0 }
    {
        Standing {
            held: Vec::new(alloc),
            metadata: Vec::new(alloc),
            body: Vec::new(alloc),
            scratch: Vec::new(alloc),
            dictionaries: Dictionaries::new(alloc),
            in_a_row: 0,
        }
    }
}

/// Finds the values of each id, unless they were found.
///
/// # Errors
/// There was no memory.
fn find_values(
    alloc: Global,
    fields: &[Field],
    ipc_schema: &IpcSchema,
    known: &mut Option<ValuesById>,
) -> std::result::Result<(), AllocError>
    requires { ForSome known.old (AreValuesOf fields.now (ids_views ipc_schema.now.fields)) }
    ensures { ForSome known.new (AreValuesOf fields.now (ids_views ipc_schema.now.fields)) }
{
    if known.is_none() {
        *known = Some(values_by_id(alloc, fields, ipc_schema.fields.as_slice())?);
    }
    Ok(())
}

/// Reads the dictionaries of a stream that come next, and the record batch behind them: all columns, or those that are asked for, which rise. Where
/// the bytes end within the first four of a message, it waits: none of them is lost, and a later call goes on there. None comes at the end mark.
///
/// # Errors
/// - `OutOfSpec`: the bytes break a rule of the format, or end within a message.
/// - `NotYetImplemented`: buffers are compressed, or a dictionary adds to an earlier one.
/// - `Io`: the device refused.
/// - `OutOfMemory`: there was no memory for what came.
// It stays whole, as it is one loop (`match table`) over what comes.
fn take_turn<R: Read>(
    alloc: Global,
    device: &mut R,
    fields: &[Field],
    ipc_schema: &IpcSchema,
    version: MetadataVersion,
    columns: Option<&[usize]>,
    standing: &mut Standing,
) -> Result<Option<StreamState>>
    requires held { length standing.old.held.items < 4 }
    requires asked { IsProjection (length fields.now) (option_copied columns) }
    ensures taken { TakesTurn (option_copied columns.entry) (record {
      fields = fields.now;
      below = ids_views ipc_schema.now.fields;
      is_little_endian = ipc_schema.now.is_little_endian;
    }) (version_view version)
        (record {
          left = prepend_known standing.old.held.items (R.remaining device.old);
          standing = standing_in standing.old.dictionaries;
          in_a_row = standing.old.in_a_row;
        })
        (record {
          left = prepend_known standing.new.held.items (R.remaining device.new);
          standing = standing_in standing.new.dictionaries;
          in_a_row = standing.new.in_a_row;
        }) result }
    ensures held { length standing.new.held.items < 4 }
{
    look_ups_are_enough();
    let mut known = None;
    'messages: loop {
        match next_message(
            device,
            &mut standing.held,
            &mut standing.metadata,
            &mut standing.body,
        )? {
            Incoming::Waiting => return Ok(Some(StreamState::Waiting)),
            Incoming::End => return Ok(None),
            Incoming::Message => {}
        }
        match read_message(
            alloc,
            &standing.metadata,
            &standing.body,
            fields,
            ipc_schema,
            known.as_ref(),
            version,
            columns,
            &mut standing.dictionaries,
            standing.in_a_row,
            &mut standing.scratch,
        )? {
            Some(chunk) => {
                standing.in_a_row = 0;
                return Ok(Some(StreamState::Some(chunk)));
            }
            None => {
                standing.in_a_row += 1;
                find_values(alloc, fields, ipc_schema, &mut known)?;
            }
        }
    }
}

/// Puts the columns of what comes where they were asked for.
///
/// # Errors
/// `OutOfMemory`: there was no memory.
fn put_found(
    alloc: Global,
    found: Option<StreamState>,
    asked: &Option<Asked>,
) -> Result<Option<StreamState>>
    requires { HasKeptFound asked.now found }
    ensures { MatchResult result (λ put. put ≡ found_as_asked asked.now found) IsOutOfMemory }
{
    match found {
        None => Ok(None),
        Some(StreamState::Waiting) => Ok(Some(StreamState::Waiting)),
        Some(StreamState::Some(chunk)) => {
            let chunk = put_asked(alloc, chunk, asked)?;
            Ok(Some(StreamState::Some(chunk)))
        }
    }
}

/// Reads what comes next of a stream, as `take_turn` does, of the columns that are asked for, in the asked order.
///
/// # Errors
/// As of `take_turn`.
pub(crate) fn take_asked<R: Read>(
    alloc: Global,
    device: &mut R,
    fields: &[Field],
    ipc_schema: &IpcSchema,
    version: MetadataVersion,
    asked: &Option<Asked>,
    standing: &mut Standing,
) -> Result<Option<StreamState>>
    requires held { length standing.old.held.items < 4 }
    requires ready { AreReady (length fields.now) asked.now }
    ensures taken { TakesTurn (asked_of asked.now) (record {
      fields = fields.now;
      below = ids_views ipc_schema.now.fields;
      is_little_endian = ipc_schema.now.is_little_endian;
    }) (version_view version)
        (record {
          left = prepend_known standing.old.held.items (R.remaining device.old);
          standing = standing_in standing.old.dictionaries;
          in_a_row = standing.old.in_a_row;
        })
        (record {
          left = prepend_known standing.new.held.items (R.remaining device.new);
          standing = standing_in standing.new.dictionaries;
          in_a_row = standing.new.in_a_row;
        }) result }
    ensures held { length standing.new.held.items < 4 }
{
    choices_are_put_back();
    let columns = rising(asked);
    match take_turn(
        alloc, device, fields, ipc_schema, version, columns, standing,
    ) {
        Ok(found) => put_found(alloc, found, asked),
        Err(error) => Err(error),
    }
}
