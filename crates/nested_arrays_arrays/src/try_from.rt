//! Arrays of one kind taken out of arrays of any type, without memory: an array of another kind is given back.
ghost use Rattle.std.specs.Prelude.{◌≡◌, false, MatchResult};
ghost use Rattle.nested_arrays_parts.specs.columnar_memory.declared.IntegerType.{IntegerType};
ghost use Rattle.nested_arrays_parts.specs.columnar_memory.declared.PhysicalType.TheVariants as physical;
ghost use Rattle.nested_arrays_arrays.specs.Answers.{TakesAs, TakesChildless};
ghost use Rattle.nested_arrays_arrays.specs.Variants.{is_flat_node, may_lie};

use crate::any::{AnyArray, DictionaryNode, ListNode, Node};
use crate::fixed_lists::FixedSizeListArray;
use crate::maps::MapArray;
use crate::records::StructArray;
use crate::unions::UnionArray;
use nested_arrays_parts::FlatArray;

impl Node {
    /// What this holds where it is an array without children, else this.
    pub fn into_flat(self) -> Result<FlatArray, Node>
        ensures { MatchResult result (λ inside. self ≡ Node.Flat inside) (λ node. (node ≡ self) × (is_flat_node self ≡ false)) }
    {
        match self {
            Node::Flat(inside) => Ok(inside),
            node => Err(node),
        }
    }

    /// What this holds where it is lists, else this.
    pub fn into_list(self) -> Result<ListNode, Node>
        ensures { MatchResult result (λ inside. self ≡ Node.List inside)
            (λ node. (node ≡ self) × (may_lie self physical.List ≡ false) × (may_lie self physical.LargeList ≡ false)) }
    {
        match self {
            Node::List(inside) => Ok(inside),
            node => Err(node),
        }
    }

    /// What this holds where it is lists of one size, else this.
    pub fn into_fixed_size_list(self) -> Result<FixedSizeListArray, Node>
        ensures { MatchResult result (λ inside. self ≡ Node.FixedSizeList inside)
            (λ node. (node ≡ self) × (may_lie self physical.FixedSizeList ≡ false)) }
    {
        match self {
            Node::FixedSizeList(inside) => Ok(inside),
            node => Err(node),
        }
    }

    /// What this holds where it is structs, else this.
    pub fn into_struct(self) -> Result<StructArray, Node>
        ensures { MatchResult result (λ inside. self ≡ Node.Struct inside) (λ node. (node ≡ self) × (may_lie self physical.Struct ≡ false)) }
    {
        match self {
            Node::Struct(inside) => Ok(inside),
            node => Err(node),
        }
    }

    /// What this holds where it is maps, else this.
    pub fn into_map(self) -> Result<MapArray, Node>
        ensures { MatchResult result (λ inside. self ≡ Node.Map inside) (λ node. (node ≡ self) × (may_lie self physical.Map ≡ false)) }
    {
        match self {
            Node::Map(inside) => Ok(inside),
            node => Err(node),
        }
    }

    /// What this holds where it is a union, else this.
    pub fn into_union(self) -> Result<UnionArray, Node>
        ensures { MatchResult result (λ inside. self ≡ Node.Union inside) (λ node. (node ≡ self) × (may_lie self physical.Union ≡ false)) }
    {
        match self {
            Node::Union(inside) => Ok(inside),
            node => Err(node),
        }
    }

    /// What this holds where it is a dictionary, else this.
    pub fn into_dictionary(self) -> Result<DictionaryNode, Node>
        ensures { MatchResult result (λ inside. self ≡ Node.Dictionary inside)
            (λ node. (node ≡ self) × ((key : IntegerType) → may_lie self (physical.Dictionary key) ≡ false)) }
    {
        match self {
            Node::Dictionary(inside) => Ok(inside),
            node => Err(node),
        }
    }
}

impl TryFrom<AnyArray> for FlatArray {
    type Error = AnyArray;

    ghost try_from_gives = { TakesChildless };

    fn try_from(any: AnyArray) -> Result<Self, AnyArray> {
        let node = any.into_node();
        node.lies();
        match node.into_flat() {
            Ok(array) => {
                array.lies();
                Ok(array)
            }
            Err(node) => Err(AnyArray { node }),
        }
    }
}

impl TryFrom<AnyArray> for FixedSizeListArray {
    type Error = AnyArray;

    ghost try_from_gives = { TakesAs physical.FixedSizeList };

    fn try_from(any: AnyArray) -> Result<Self, AnyArray> {
        let node = any.into_node();
        node.lies();
        match node.into_fixed_size_list() {
            Ok(array) => {
                array.lies();
                Ok(array)
            }
            Err(node) => Err(AnyArray { node }),
        }
    }
}

impl TryFrom<AnyArray> for StructArray {
    type Error = AnyArray;

    ghost try_from_gives = { TakesAs physical.Struct };

    fn try_from(any: AnyArray) -> Result<Self, AnyArray> {
        let node = any.into_node();
        node.lies();
        match node.into_struct() {
            Ok(array) => {
                array.lies();
                Ok(array)
            }
            Err(node) => Err(AnyArray { node }),
        }
    }
}

impl TryFrom<AnyArray> for MapArray {
    type Error = AnyArray;

    ghost try_from_gives = { TakesAs physical.Map };

    fn try_from(any: AnyArray) -> Result<Self, AnyArray> {
        let node = any.into_node();
        node.lies();
        match node.into_map() {
            Ok(array) => {
                array.whole();
                Ok(array)
            }
            Err(node) => Err(AnyArray { node }),
        }
    }
}

impl TryFrom<AnyArray> for UnionArray {
    type Error = AnyArray;

    ghost try_from_gives = { TakesAs physical.Union };

    fn try_from(any: AnyArray) -> Result<Self, AnyArray> {
        let node = any.into_node();
        node.lies();
        match node.into_union() {
            Ok(array) => {
                array.lies();
                Ok(array)
            }
            Err(node) => Err(AnyArray { node }),
        }
    }
}
