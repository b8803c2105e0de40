//! The dictionaries that were told to a reader (Arrow IPC, "Dictionary Messages").
ghost use Rattle.std.specs.Prelude.{◌≡◌, [], pos, MatchResult, option_copied};
ghost use Rattle.std.specs.Map.{lookup};
ghost use Rattle.std.specs.Ordering.{int_eq};
ghost use Rattle.columnar_memory_types.specs.Error.{IsOutOfMemory};
ghost use Rattle.ipc_format_batch_reading.specs.grammar.GivenDictionaries.{says_same};
ghost use Rattle.ipc_format_chunk_writing.specs.Tracking.{Compares, Inserts, PutsValues, given_of, tracked};

use crate::types::have_one_form;
use columnar_memory_types::{Error, Result};
use ipc_format_batch_reading::nested_arrays_core::{AnyArray, same_slots};
use std::alloc::Global;
use std::collections::BTreeMap;

/// The dictionaries that were told to a reader, which knows the last one under each id, and whether none may take the place of another, as in
/// files (Arrow IPC, "IPC File Format").
#[derive(Drop)]
pub struct DictionaryTracker {
    /// The values of the last dictionary under each id.
    pub dictionaries: BTreeMap<i64, AnyArray>,
    /// Whether another dictionary under an id that is told is refused.
    pub cannot_replace: bool,
}

/// Whether two dictionaries say the same: their types have one form, and their slots are the same.
fn says_same(alloc: Global, a: &AnyArray, b: &AnyArray) -> Result<bool>
    ensures { MatchResult result (λ answer. answer ≡ says_same (given_of (pos 0) a.now) (given_of (pos 0) b.now)) IsOutOfMemory }
{
    if !have_one_form(alloc, a.data_type(), b.data_type())? {
        return Ok(false);
    }
    Ok(same_slots(a, b))
}

impl DictionaryTracker {
    /// A tracker that was told nothing.
    pub fn new(alloc: Global, cannot_replace: bool) -> DictionaryTracker
        ensures { tracked result ≡ ([], cannot_replace) }
    {
        DictionaryTracker {
            dictionaries: BTreeMap::new(alloc),
            cannot_replace,
        }
    }

    /// The values of the last dictionary under an id.
    fn last(&self, id: i64) -> Option<&AnyArray>
        ensures { option_copied result ≡ lookup (int_eq id) (tracked self.now).0 }
    {
        self.dictionaries.get(&id)
    }

    /// Whether the dictionary that values under an id are is to be told.
    fn is_new(&self, alloc: Global, id: i64, values: &AnyArray) -> Result<bool>
        ensures { Compares (tracked self.now) (given_of id values.now) result }
    {
        let Some(last) = self.last(id) else {
            return Ok(true);
        };
        if says_same(alloc, values, last)? {
            return Ok(false);
        }
        if self.cannot_replace {
            return Err(Error::InvalidArgumentError("a dictionary that replaces another"));
        }
        Ok(true)
    }

    /// Puts values under an id.
    fn put(&mut self, id: i64, values: &AnyArray) -> Result<()>
        ensures { PutsValues (tracked self.old) (tracked self.new) id values.now result }
    {
        let copy = values.clone()?;
        let _replaced = self.dictionaries.insert(id, copy)?;
        Ok(())
    }

    /// Tells the dictionary that values under an id are, and answers whether it is to be written: where its type, in its one form, or its slots
    /// differ from those of the last one under the id, or where it is the first. Else the tracker stays as it was.
    ///
    /// # Errors
    /// Refused, the tracker is as it was.
    /// - `InvalidArgumentError`: it would take the place of another, and this tracker replaces none.
    /// - `OutOfMemory`: there was no memory for the comparison or for the entry.
    pub fn insert(&mut self, alloc: Global, id: i64, values: &AnyArray) -> Result<bool>
        ensures { Inserts (tracked self.old) (tracked self.new) (given_of id values.now) result }
    {
        if !self.is_new(alloc, id, values)? {
            return Ok(false);
        }
        self.put(id, values)?;
        Ok(true)
    }

    /// Another tracker that was told the same.
    pub fn copy(&self) -> Result<DictionaryTracker>
        ensures { MatchResult result (λ copy. tracked copy ≡ tracked self.now) IsOutOfMemory }
    {
        Ok(DictionaryTracker {
            dictionaries: self.dictionaries.clone()?,
            cannot_replace: self.cannot_replace,
        })
    }
}
