ghost use Rattle.std.specs.Prelude.{◌≡◌, true, [], length, ◌↔◌, IsTrue, OnOk, OnErr};
ghost use Rattle.std.specs.Option.{option_copied};
ghost use Rattle.std.specs.Map.{keys_of};
ghost use Rattle.std.specs.List.Sorted.{IsStrictlySortedBy};
ghost use Rattle.std.specs.Ordering.{nat_cmp};
ghost use Rattle.std.specs.Cmp.Lexicographic.{slice_cmp};
ghost use Rattle.std.specs.Cmp.Rules.{comparing};
ghost use Rattle.std.proofs.Common.{rules};
ghost use Rattle.columnar_memory_types.specs.Pairs.{value_at, with_pair, pairs_eq};
ghost use Rattle.columnar_memory_types.specs.TextHashes.{pairs_hash_input, pairs_Alike};
ghost use Rattle.columnar_memory_types.specs.Texts.{are_texts, is_ascending};

use crate::text::Text;
use std::alloc::{AllocError, Global};
use std::collections::BTreeMap;
use std::collections::btree_map::Iter;
use std::hash::{Hash, Hasher};
use std::marker::Model;

/// Texts by the text that names them, which a contract sees as the pairs in the order of their keys.
#[derive(Debug, Drop)]
pub struct Metadata {
    map: BTreeMap<Text, Text>,
}

impl Model for Metadata {
    ghost use Rattle.std.specs.Prelude.{ℕ, List};

    ghost Value = { List (List ℕ × List ℕ) };

    ghost view = { λ m. m.map.entries };
}

impl Metadata {
    /// No pairs, which take no memory.
    pub fn new(alloc: Global) -> Self
        ensures { result ≡ [] }
    {
        Metadata {
            map: BTreeMap::new(alloc),
        }
    }

    /// Takes a map over as it is.
    pub fn from_map(map: BTreeMap<Text, Text>) -> Self
        ensures { result ≡ map.entries }
    {
        Metadata { map }
    }

    /// The map that this was, with no copy.
    pub fn into_inner(self) -> BTreeMap<Text, Text>
        ensures { result.entries ≡ self }
    {
        let Metadata { map } = self;
        map
    }

    /// How many pairs.
    pub fn len(&self) -> usize
        ensures len { result ≡ length self.now }
        ensures ordered { IsStrictlySortedBy (slice_cmp nat_cmp) (keys_of self.now) }
    {
        self.map.len()
    }

    pub fn is_empty(&self) -> bool
        ensures { IsTrue result ↔ (self.now ≡ []) }
    {
        self.map.is_empty()
    }

    /// The value at a key, found down the tree.
    pub fn get(&self, key: &Text) -> Option<&Text>
        ensures { option_copied result ≡ value_at key.now self.now }
    {
        self.map.get(key)
    }

    /// The value at a key that is a plain `str`, found pair by pair.
    pub fn get_str(&self, key: &str) -> Option<&Text>
        ensures { option_copied result ≡ value_at key.now self.now }
    {
        for (name, value) in self.map.iter() {
            if key == name.as_str() {
                return Some(value);
            }
        }
        None
    }

    /// Adds a pair, or puts the value in the place of the key's present one. An error is for want of
    /// memory, and drops both.
    pub fn insert(&mut self, key: Text, value: Text) -> Result<(), AllocError>
        ensures ok { OnOk result (self.new ≡ with_pair self.old key value) }
        ensures err { OnErr result (self.new ≡ self.old) }
    {
        let _replaced = self.map.insert(key, value)?;
        Ok(())
    }

    /// The pairs in the order of their keys, which is the order of their bytes.
    pub fn iter(&self) -> Iter<'_, Text, Text>
        ensures rest { result ≡ self.now }
        ensures ordered { IsStrictlySortedBy (slice_cmp nat_cmp) (keys_of self.now) }
    {
        self.map.iter()
    }

    /// Hands to a proof that each key and each value is UTF-8, and that the keys ascend. It changes nothing.
    pub fn whole(&self)
        ensures texts { are_texts self.now ≡ true }
        ensures ascending { is_ascending self.now ≡ true }
    {
        for (name, value) in self.iter() {
            name.whole();
            value.whole();
        }
    }
}

impl From<BTreeMap<Text, Text>> for Metadata {
    ghost from_gives = { λ m pairs. pairs ≡ m.entries };

    fn from(map: BTreeMap<Text, Text>) -> Self {
        Metadata { map }
    }
}

impl PartialEq for Metadata {
    ghost eq = { pairs_eq };

    ghost laws = { Prim.search (comparing, rules) };

    fn eq(&self, other: &Self) -> bool
        ensures value { result ≡ pairs_eq self.now other.now }
        ensures exact { IsTrue result ↔ (self.now ≡ other.now) }
    {
        self.map == other.map
    }
}

impl Eq for Metadata {
    ghost laws = { Prim.search (comparing, rules) };
}

impl Hash for Metadata {
    ghost hash_input = { pairs_hash_input };

    ghost respects_eq = { pairs_Alike.fed };

    fn hash<H: Hasher>(&self, state: &mut H) {
        self.map.hash(state);
    }
}

impl Clone for Metadata {
    ghost is_clone = { λ a b. b ≡ a };

    fn clone(&self) -> Result<Self, AllocError> {
        Ok(Metadata {
            map: self.map.clone()?,
        })
    }
}
