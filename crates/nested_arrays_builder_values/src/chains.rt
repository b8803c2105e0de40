//! Chains of places with hashes of one bucket, from the newest to the oldest.
ghost use Rattle.std.specs.Prelude.{◌≡◌, ◌≢◌, ◌+◌, ◌-◌, ◌<◌, ◌≤◌, ℕ, List, length, slice_index_or, take, OnOk, OnErr, IfOk};
ghost use Rattle.nested_arrays_builder_values.specs.Newest.{IsLast, IsLinked, bucket_of};

use std::alloc::{AllocError, Global};

/// What a hash is spread with before its upper bits are taken.
const SPREAD: usize = 11_400_714_819_323_198_485;

/// The bucket of `count` that a hash falls into.
#[inline(always)]
pub(crate) fn bucket_of(count: usize, hash: usize) -> usize
    requires { 0 < count }
    ensures value { result ≡ bucket_of count hash }
    ensures within { result < count }
{
    (hash.wrapping_mul(SPREAD) >> 32) & (count - 1)
}

/// The first along a chain that has this hash, from the one behind the place `start` on, and one more; 0 where none has it.
pub(crate) fn first_with(
    count: usize,
    before: &[usize],
    hashes: &[usize],
    start: usize,
    hash: usize,
) -> usize
    requires long { length before.now ≡ length hashes.now }
    requires within { start ≤ length hashes.now }
    requires begins { 0 < start → bucket_of count (slice_index_or hashes.now (start - 1) 0) ≡ bucket_of count hash }
    requires linked { (i : ℕ) → i < length hashes.now
        → IsLast count hashes.now i (bucket_of count (slice_index_or hashes.now i 0)) (slice_index_or before.now i 0) }
    ensures within { result ≤ start }
    ensures here { 0 < result → slice_index_or hashes.now (result - 1) 0 ≡ hash }
    ensures none { (i : ℕ) → result ≤ i → i < start → slice_index_or hashes.now i 0 ≢ hash }
{
    let mut place = start;
    'walk: while place != 0 && hashes[place - 1] != hash {
        place = before[place - 1];
    }
    place
}

/// Links the hash that stands behind those that are linked.
pub(crate) fn link(
    heads: &mut Vec<usize>,
    before: &mut Vec<usize>,
    hash: usize,
) -> Result<(), AllocError>
    requires { 0 < length heads.old.items }
    ensures count { length heads.new.items ≡ length heads.old.items }
    ensures ok { OnOk result ((hashes : List ℕ) (q : ℕ) → slice_index_or hashes q 0 ≡ hash
        → IsLinked (length heads.old.items) heads.old.items before.old.items hashes q
        → IsLinked (length heads.old.items) heads.new.items before.new.items hashes (q + 1)) }
    ensures heads { OnErr result (heads.new.items ≡ heads.old.items) }
    ensures before { OnErr result (before.new.items ≡ before.old.items) }
{
    let bucket = bucket_of(heads.len(), hash);
    before.push(heads[bucket])?;
    heads[bucket] = before.len();
    Ok(())
}

/// Takes the newest hash off its chain.
pub(crate) fn unlink(hashes: &mut Vec<usize>, heads: &mut Vec<usize>, before: &mut Vec<usize>)
    requires some { 0 < length hashes.old.items }
    requires room { 0 < length heads.old.items }
    requires linked { IsLinked (length heads.old.items) heads.old.items before.old.items hashes.old.items (length hashes.old.items) }
    ensures hashes { hashes.new.items ≡ take (length hashes.old.items - 1) hashes.old.items }
    ensures count { length heads.new.items ≡ length heads.old.items }
    ensures linked { IsLinked (length heads.old.items) heads.new.items before.new.items hashes.new.items (length hashes.new.items) }
{
    if let Some(hash) = hashes.pop() {
        if let Some(older) = before.pop() {
            let bucket = bucket_of(heads.len(), hash);
            heads[bucket] = older;
        }
    }
}

/// Chains of some hashes in so many buckets.
pub(crate) fn linked(
    alloc: Global,
    hashes: &[usize],
    count: usize,
) -> Result<(Vec<usize>, Vec<usize>), AllocError>
    requires { 0 < count }
    ensures { IfOk result (λ made. IsLinked count made.0.items made.1.items hashes.now (length hashes.now)) }
{
    let mut heads = vec![in alloc; 0usize; count]?;
    let mut before = Vec::with_capacity(alloc, hashes.len())?;
    for hash in hashes {
        link(&mut heads, &mut before, *hash)?;
    }
    Ok((heads, before))
}
