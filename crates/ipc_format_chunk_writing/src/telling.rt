//! The dictionaries of a batch, told to a tracker one after another, and which of them are to be written.
ghost use Rattle.std.specs.Prelude.{◌≡◌, MatchResult, OnOk, map, not};
ghost use Rattle.columnar_memory_types.specs.Error.{IsOutOfMemory};
ghost use Rattle.ipc_format_chunk_writing.specs.Found.{given_in};
ghost use Rattle.ipc_format_chunk_writing.specs.Telling.{Sees, TellsAll, TellsNext, TellsOne, given_found, is_seen};
ghost use Rattle.ipc_format_chunk_writing.specs.Tracking.{tracked};

use crate::found::Found;
use crate::tracker::DictionaryTracker;
use columnar_memory_types::{Error, Result};
use std::alloc::Global;
use std::collections::BTreeSet;

/// Adds an id to those that were seen, and answers whether it is new among them.
fn see(seen: &mut BTreeSet<i64>, id: i64) -> Result<bool>
    ensures first { MatchResult result (λ first. first ≡ not (is_seen seen.old.keys id)) IsOutOfMemory }
    ensures sees { OnOk result (Sees (is_seen seen.old.keys) (is_seen seen.new.keys) id) }
{
    Ok(seen.insert(id)?)
}

/// Tells one more dictionary of a batch, where these ids were seen, and answers whether it is to be written.
fn tell_one(
    alloc: Global,
    dictionary: &Found,
    seen: &mut BTreeSet<i64>,
    told: &mut DictionaryTracker,
) -> Result<bool>
    ensures tells { TellsOne (is_seen seen.old.keys dictionary.now.id) (tracked told.old) (tracked told.new) (given_in dictionary.now) result }
    ensures sees { OnOk result (Sees (is_seen seen.old.keys) (is_seen seen.new.keys) dictionary.now.id) }
{
    let is_first = see(seen, dictionary.id)?;
    if !told.insert(alloc, dictionary.id, dictionary.values)? {
        return Ok(false);
    }
    if !is_first {
        return Err(Error::InvalidArgumentError("two dictionaries of one id"));
    }
    Ok(true)
}

/// Tells one more dictionary of a batch, where these ids were seen, and adds it to those that are to be written if it is.
fn tell_next<'a>(
    alloc: Global,
    dictionary: &Found<'a>,
    seen: &mut BTreeSet<i64>,
    told: &mut DictionaryTracker,
    sent: &mut Vec<Found<'a>>,
) -> Result<()>
    ensures { TellsNext (tracked told.old) (tracked told.new) (is_seen seen.old.keys) (is_seen seen.new.keys) (map given_in sent.old.items)
        (map given_in sent.new.items) (given_in dictionary.now) result }
{
    if !tell_one(alloc, dictionary, seen, told)? {
        return Ok(());
    }
    sent.push(*dictionary)?;
    Ok(())
}

/// Tells the dictionaries of a batch, and answers those that are to be written.
///
/// # Errors
/// - `InvalidArgumentError`: two of one id differ, or one would take the place of another and the tracker replaces none.
/// - `OutOfMemory`: there was no memory for what is told.
pub(crate) fn tell<'a>(
    alloc: Global,
    found: &[Found<'a>],
    told: &mut DictionaryTracker,
) -> Result<Vec<Found<'a>>>
    ensures { TellsAll (tracked told.old) (tracked told.new) (map given_in found.now) (given_found result) }
{
    let mut seen = BTreeSet::new(alloc);
    let mut sent = Vec::new(alloc);
    for dictionary in found {
        tell_next(alloc, dictionary, &mut seen, told, &mut sent)?;
    }
    Ok(sent)
}
