//! Hashes at their places.
ghost use Rattle.std.specs.Prelude.{◌≡◌, ◌^◌, ◌<◌, ◌≤◌, ◌++◌, ◌∷◌, [], length, slice_index_or, take, OnOk, OnErr};
ghost use Rattle.nested_arrays_builder_values.specs.Newest.{AreKept, IsNewest};

use crate::chains::{bucket_of, first_with, link, linked, unlink};
use std::alloc::{AllocError, Global};
use std::marker::Model;

/// Hashes one after another, and for each hash the places that have it, the newest first. A contract sees the list of the hashes.
#[derive(Drop)]
pub struct Places {
    hashes: Vec<usize>,
    heads: Vec<usize>,
    before: Vec<usize>,
}

impl Model for Places {
    ghost use Rattle.std.specs.Prelude.{ℕ, List};
    ghost use Rattle.nested_arrays_builder_values.specs.Newest.{AreKept};

    ghost Value = { List ℕ };

    ghost view = { λ it. it.hashes.items };

    ghost invariant = { λ it. AreKept it.heads.items it.before.items it.hashes.items };
}

impl Places {
    /// No places, which take no memory.
    pub fn new(alloc: Global) -> Self
        ensures { result ≡ [] }
    {
        Places {
            hashes: Vec::new(alloc),
            heads: Vec::new(alloc),
            before: Vec::new(alloc),
        }
    }

    /// How many hashes there are.
    pub fn len(&self) -> usize
        ensures { result ≡ length self.now }
    {
        self.hashes.len()
    }

    /// The place of the newest with a hash, and one more; 0 where none has it.
    pub fn newest(&self, hash: usize) -> usize
        ensures { IsNewest self.now (length self.now) hash result }
    {
        if self.heads.is_empty() {
            return 0;
        }
        let start = self.heads[bucket_of(self.heads.len(), hash)];
        first_with(
            self.heads.len(),
            self.before.as_slice(),
            self.hashes.as_slice(),
            start,
            hash,
        )
    }

    /// The place of the next newest with the hash of a place, and one more; 0 where none has it.
    pub fn older(&self, place: usize) -> usize
        requires { place < length self.now }
        ensures { IsNewest self.now place (slice_index_or self.now place 0) result }
    {
        first_with(
            self.heads.len(),
            self.before.as_slice(),
            self.hashes.as_slice(),
            self.before[place],
            self.hashes[place],
        )
    }

    /// Adds a hash behind the others. An error is for want of memory, and changes nothing.
    pub fn push(&mut self, alloc: Global, hash: usize) -> Result<(), AllocError>
        ensures ok { OnOk result (self.new ≡ self.old ++ hash ∷ []) }
        ensures err { OnErr result (self.new ≡ self.old) }
    {
        let held = self.hashes.len();
        if held + held >= self.heads.len() {
            let count = more_buckets(self.heads.len());
            let (heads, before) = linked(alloc, self.hashes.as_slice(), count)?;
            self.heads = heads;
            self.before = before;
        }
        push_linked(&mut self.hashes, &mut self.heads, &mut self.before, hash)
    }

    /// Keeps the first `len` hashes alone.
    pub fn truncate(&mut self, len: usize)
        requires { len ≤ length self.old }
        ensures { self.new ≡ take len self.old }
    {
        keep_first(&mut self.hashes, &mut self.heads, &mut self.before, len);
    }
}

/// How many buckets there are next, where there are so many: a power of two again.
fn more_buckets(count: usize) -> usize
    requires { count < 2 ^ 62 }
    ensures { count < result }
{
    if count == 0 { 16 } else { count + count }
}

/// Adds a hash, which is linked, where there is a bucket for it.
fn push_linked(
    hashes: &mut Vec<usize>,
    heads: &mut Vec<usize>,
    before: &mut Vec<usize>,
    hash: usize,
) -> Result<(), AllocError>
    requires room { length hashes.old.items < length heads.old.items }
    requires kept { AreKept heads.old.items before.old.items hashes.old.items }
    ensures kept { AreKept heads.new.items before.new.items hashes.new.items }
    ensures ok { OnOk result (hashes.new.items ≡ hashes.old.items ++ hash ∷ []) }
    ensures err { OnErr result (hashes.new.items ≡ hashes.old.items) }
{
    hashes.push(hash)?;
    match link(heads, before, hash) {
        Ok(()) => Ok(()),
        Err(error) => {
            hashes.pop();
            Err(error)
        }
    }
}

/// Keeps the first hashes alone.
fn keep_first(hashes: &mut Vec<usize>, heads: &mut Vec<usize>, before: &mut Vec<usize>, len: usize)
    requires long { len ≤ length hashes.old.items }
    requires kept { AreKept heads.old.items before.old.items hashes.old.items }
    ensures kept { AreKept heads.new.items before.new.items hashes.new.items }
    ensures first { hashes.new.items ≡ take len hashes.old.items }
{
    'keep: while hashes.len() > len {
        unlink(hashes, heads, before);
    }
}
