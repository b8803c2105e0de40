//! How many of its values each slot of a dictionary needs.
ghost use Rattle.std.specs.Prelude.{◌≡◌, ◌-◌, ◌<◌, ◌≤◌, ◌++◌, ◌∷◌, [], ℕ, length, replicate, slice_index_or, take, OnErr, OnOk};
ghost use Rattle.nested_arrays_builder_values.specs.Uses.{greatest, raises_from};

use std::alloc::{AllocError, Global};
use std::marker::Model;

/// How many of the values each slot needs: one more than its key, and none under a null. A contract sees the list of these.
///
/// Beside them stand the places at which one more of the values is needed, so that a cut takes no time for the slots that stay.
#[derive(Drop)]
pub struct SlotUses {
    uses: Vec<usize>,
    raises: Vec<usize>,
}

impl Model for SlotUses {
    ghost use Rattle.std.specs.Prelude.{◌≡◌, ℕ, List};
    ghost use Rattle.nested_arrays_builder_values.specs.Uses.{raises_from};

    ghost Value = { List ℕ };

    ghost view = { λ it. it.uses.items };

    ghost invariant = { λ it. it.raises.items ≡ raises_from 0 0 it.uses.items };
}

impl SlotUses {
    /// No slots, which take no memory.
    pub fn new(alloc: Global) -> Self
        ensures { result ≡ [] }
    {
        SlotUses {
            uses: Vec::new(alloc),
            raises: Vec::new(alloc),
        }
    }

    /// How many slots there are.
    pub fn len(&self) -> usize
        ensures { result ≡ length self.now }
    {
        self.uses.len()
    }

    /// What each slot needs.
    pub fn as_slice(&self) -> &[usize]
        ensures { result.now ≡ self.now }
    {
        self.uses.as_slice()
    }

    /// Adds what one more slot needs. An error is for want of memory, and changes nothing.
    pub fn push(&mut self, need: usize) -> Result<(), AllocError>
        ensures ok { OnOk result (self.new ≡ self.old ++ need ∷ []) }
        ensures err { OnErr result (self.new ≡ self.old) }
    {
        push_use(&mut self.uses, &mut self.raises, need)
    }

    /// Keeps what the first `len` slots need, and answers how many values this is.
    pub fn truncate(&mut self, len: usize) -> usize
        requires { len ≤ length self.old }
        ensures first { self.new ≡ take len self.old }
        ensures need { result ≡ greatest (take len self.old) }
    {
        keep_first(&mut self.uses, &mut self.raises, len)
    }

    /// Makes room for some more slots. An error is for want of memory.
    pub fn reserve(&mut self, additional: usize) -> Result<(), AllocError>
        ensures { self.new ≡ self.old }
    {
        self.uses.reserve(additional)
    }

    /// Gives back memory that no slot needs, as far as the allocator takes it.
    pub fn shrink_to_fit(&mut self)
        ensures { self.new ≡ self.old }
    {
        self.uses.shrink_to_fit();
        self.raises.shrink_to_fit();
    }
}

/// Adds what one more slot needs, or changes nothing.
#[tactic(auto, using(crate::proofs::Raises::one_more_raise))]
fn push_use(uses: &mut Vec<usize>, raises: &mut Vec<usize>, need: usize) -> Result<(), AllocError>
    requires { raises.old.items ≡ raises_from 0 0 uses.old.items }
    ensures raises { raises.new.items ≡ raises_from 0 0 uses.new.items }
    ensures ok { OnOk result (uses.new.items ≡ uses.old.items ++ need ∷ []) }
    ensures err { OnErr result (uses.new.items ≡ uses.old.items) }
{
    let total = raises.len();
    raise(raises, need, uses.len())?;
    match uses.push(need) {
        Ok(()) => Ok(()),
        Err(error) => {
            raises.truncate(total);
            Err(error.into())
        }
    }
}

/// Adds a place for each value that is needed from there on, or changes nothing.
#[tactic(auto, using(crate::proofs::Raises::no_raise))]
fn raise(raises: &mut Vec<usize>, need: usize, place: usize) -> Result<(), AllocError>
    ensures ok { OnOk result (raises.new.items ≡ raises.old.items ++ replicate (need - length raises.old.items) place) }
    ensures err { OnErr result (raises.new.items ≡ raises.old.items) }
{
    if raises.len() < need {
        raises.resize(need, place)?;
    }
    Ok(())
}

/// Keeps what the first slots need, and answers how many values this is.
#[tactic(auto, using(crate::proofs::Raises::first_raises, crate::proofs::Raises::raises_count))]
fn keep_first(uses: &mut Vec<usize>, raises: &mut Vec<usize>, len: usize) -> usize
    requires within { len ≤ length uses.old.items }
    requires raises { raises.old.items ≡ raises_from 0 0 uses.old.items }
    ensures raises { raises.new.items ≡ raises_from 0 0 uses.new.items }
    ensures first { uses.new.items ≡ take len uses.old.items }
    ensures need { result ≡ greatest (take len uses.old.items) }
{
    let total = raised_before(raises.as_slice(), len);
    raises.truncate(total);
    uses.truncate(len);
    total
}

/// How many of some places, which rise, are before one.
fn raised_before(raises: &[usize], len: usize) -> usize
    ensures within { result ≤ length raises.now }
    ensures before { 0 < result → slice_index_or raises.now (result - 1) 0 < len }
    ensures behind { (i : ℕ) → result ≤ i → i < length raises.now → len ≤ slice_index_or raises.now i 0 }
{
    let mut count = raises.len();
    'back: while count != 0 && raises[count - 1] >= len {
        count -= 1;
    }
    count
}
