//! Arrays of any type.
ghost use Rattle.std.specs.Prelude.{◌≡◌, ◌+◌, ◌≤◌, true};
ghost use Rattle.nested_arrays_parts.specs.columns.SoundColumns.{is_sound};
ghost use Rattle.nested_arrays_parts.specs.columns.StoredColumns.{column_len, column_type, cut};
ghost use Rattle.nested_arrays_arrays.specs.AnyColumns.{column_of, FitsWidth, IsWhole};
ghost use Rattle.nested_arrays_arrays.specs.Variants.{lies_well};

use crate::fixed_lists::FixedSizeListArray;
use crate::maps::MapArray;
use crate::records::StructArray;
use crate::unions::UnionArray;
use nested_arrays_parts::columnar_memory::{Bitmap, DataType};
use nested_arrays_parts::flat::{AnyPrimitive, slice_mask};
use nested_arrays_parts::{FlatArray, ListOffsets};
use std::marker::Model;

/// An array, by how it lies in memory.
#[cycle(arrays)]
#[derive(Debug, Drop)]
pub enum Node {
    Flat(FlatArray),
    List(ListNode),
    FixedSizeList(FixedSizeListArray),
    Struct(StructArray),
    Map(MapArray),
    Union(UnionArray),
    Dictionary(DictionaryNode),
}

/// Lists of any length, one after another in a child.
#[cycle(arrays)]
#[derive(Debug, Drop)]
pub struct ListNode {
    pub data_type: DataType,
    pub offsets: ListOffsets,
    pub values: Box<AnyArray>,
    pub validity: Option<Bitmap>,
}

/// Values by keys: each slot is the value at the place that its key names. The mask is that of the keys.
#[cycle(arrays)]
#[derive(Debug, Drop)]
pub struct DictionaryNode {
    pub data_type: DataType,
    pub keys: AnyPrimitive,
    pub values: Box<AnyArray>,
}

/// An array of any type, which a contract sees as the column that it stores. It is sound at every depth.
#[cycle(arrays)]
#[derive(Debug)]
pub struct AnyArray {
    pub node: Node,
}

impl Drop for AnyArray {
    #[cycle(dropping)]
    fn drop(self) {
        let AnyArray { node: _ } = self;
    }
}

impl Model for AnyArray {
    ghost use Rattle.std.specs.Prelude.{◌+◌, ◌*◌};
    ghost use Rattle.nested_arrays_parts.specs.columns.StoredColumns.{Column, column_size};
    ghost use Rattle.nested_arrays_parts.specs.columns.ColumnCodes.{column_code};

    ghost Value = { Column };

    ghost coded = { column_code };

    ghost use Rattle.nested_arrays_arrays.specs.AnyColumns.{column_of, IsWhole};

    ghost view = { λ it. column_of it.node };

    ghost invariant = { λ it. IsWhole it.node };

    ghost size = { λ c. 2 * column_size c + 1 };

    ghost use Rattle.nested_arrays_arrays.specs.Sizes.{node_is_deep};

    ghost size_decreases = { λ a h. node_is_deep a.node };
}

impl Node {
    /// Hands to a proof how the array of a variant lies in memory.
    pub fn lies(&self)
        requires { FitsWidth self.now }
        ensures { lies_well self.now ≡ true }
    {
        match self {
            Node::Flat(array) => array.lies(),
            Node::List(_) => {}
            Node::FixedSizeList(array) => array.lies(),
            Node::Struct(array) => array.lies(),
            Node::Map(array) => array.whole(),
            Node::Union(array) => array.lies(),
            Node::Dictionary(_) => {}
        }
    }
}

impl AnyArray {
    /// The array by its layout. Takes no memory.
    pub fn into_node(self) -> Node
        ensures value { column_of result ≡ self }
        ensures whole { IsWhole result }
    {
        let AnyArray { node } = self;
        node
    }

    /// How many slots there are.
    #[cycle(counting)]
    #[tactic(auto, using(nested_arrays_parts::proofs::OffsetLists::spans_count))]
    pub fn len(&self) -> usize
        ensures { result ≡ column_len self.now }
    {
        match &self.node {
            Node::Flat(array) => array.len(),
            Node::List(node) => node.offsets.lists(),
            Node::FixedSizeList(array) => array.len(),
            Node::Struct(array) => array.len(),
            Node::Map(array) => array.len(),
            Node::Union(array) => array.len(),
            Node::Dictionary(node) => node.keys.len(),
        }
    }

    pub fn data_type(&self) -> &DataType
        ensures { result.now ≡ column_type self.now }
    {
        match &self.node {
            Node::Flat(array) => array.data_type(),
            Node::List(node) => &node.data_type,
            Node::FixedSizeList(array) => array.data_type(),
            Node::Struct(array) => array.data_type(),
            Node::Map(array) => array.data_type(),
            Node::Union(array) => array.data_type(),
            Node::Dictionary(node) => &node.data_type,
        }
    }

    /// Hands to a proof that an array is sound at every depth.
    pub fn whole(&self)
        ensures { is_sound self.now ≡ true }
    {
        let _node = &self.node;
    }

    /// Narrows this to the `count` slots from `offset` on, with no copy.
    #[cycle(cutting)]
    pub fn slice(&mut self, offset: usize, count: usize)
        requires { offset + count ≤ column_len self.old }
        ensures { self.new ≡ cut self.old offset count }
    {
        match &mut self.node {
            Node::Flat(array) => array.slice(offset, count),
            Node::List(node) => {
                slice_mask(&mut node.validity, offset, count);
                node.offsets.slice(offset, count);
            }
            Node::FixedSizeList(array) => array.slice(offset, count),
            Node::Struct(array) => array.slice(offset, count),
            Node::Map(array) => array.slice(offset, count),
            Node::Union(array) => array.slice(offset, count),
            Node::Dictionary(node) => node.keys.slice(offset, count),
        }
    }
}
