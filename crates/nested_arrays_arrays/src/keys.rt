//! The values that keys name.
ghost use Rattle.std.specs.Prelude.{◌≡◌, ◌<◌, length, map, pos, slice_index_or};
ghost use Rattle.nested_arrays_parts.specs.columnar_memory.Numbers.{first_number};
ghost use Rattle.nested_arrays_parts.specs.columns.StoredColumns.{column_len, place_of};
ghost use Rattle.nested_arrays_parts.specs.Keys.{numbers_in};
ghost use Rattle.nested_arrays_arrays.specs.AnyColumns.{FitsWidth};
ghost use Rattle.nested_arrays_arrays.specs.Places.{IsValue};

use crate::any::{AnyArray, DictionaryNode, Node};
use crate::places::is_set;
use nested_arrays_parts::columnar_memory::Index;
use nested_arrays_parts::flat::PrimitiveNode;
use nested_arrays_parts::flat_arrays::PrimitiveArray;
use nested_arrays_parts::holds_values;

/// The place that a key names, and the first one where it is negative.
pub(crate) fn place<K: Index>(key: K) -> usize
    ensures { result ≡ place_of (K.value key) }
{
    match key.try_to_usize() {
        Some(place) => place,
        None => 0,
    }
}

/// The place that the key at a place of an array names.
fn key_in<K: Index>(keys: &PrimitiveArray<K>, i: usize) -> usize
    requires { i < length keys.now.values }
    ensures { result ≡ place_of (slice_index_or (map first_number (map K.numbers keys.now.values)) i (pos 0)) }
{
    place(keys.value(i))
}

/// The place that the key of a slot names.
#[tactic(auto, using(crate::proofs::KeyPlaces::keys_there))]
pub(crate) fn key_at(node: &DictionaryNode, i: usize) -> usize
    requires fits { FitsWidth (Node.Dictionary node.now) }
    requires within { i < column_len node.now.keys }
    ensures { result ≡ place_of (slice_index_or (numbers_in node.now.keys) i (pos 0)) }
{
    match &node.keys.node {
        PrimitiveNode::Int8(keys) => key_in(keys, i),
        PrimitiveNode::Int16(keys) => key_in(keys, i),
        PrimitiveNode::Int32(keys) => key_in(keys, i),
        PrimitiveNode::Int64(keys) => key_in(keys, i),
        PrimitiveNode::Int128(_) => 0,
        PrimitiveNode::Int256(_) => 0,
        PrimitiveNode::UInt8(keys) => key_in(keys, i),
        PrimitiveNode::UInt16(keys) => key_in(keys, i),
        PrimitiveNode::UInt32(keys) => key_in(keys, i),
        PrimitiveNode::UInt64(keys) => key_in(keys, i),
        PrimitiveNode::DaysMs(_) => 0,
        PrimitiveNode::MonthsDaysNs(_) => 0,
    }
}

/// The array that stores the value of a slot, and its place there: those that keys name, at any depth, else the array itself.
pub(crate) fn value_of(array: &AnyArray, i: usize) -> (&AnyArray, usize)
    requires { i < column_len array.now }
    ensures { IsValue array.now i result.0.now result.1 }
{
    match &array.node {
        Node::Flat(values) => {
            holds_values(values);
            (array, i)
        }
        Node::List(_) => (array, i),
        Node::FixedSizeList(lists) => {
            let _items = lists.values();
            (array, i)
        }
        Node::Struct(records) => {
            let _fields = records.values();
            (array, i)
        }
        Node::Map(maps) => {
            let _entries = maps.field();
            (array, i)
        }
        Node::Union(unions) => {
            let _fields = unions.fields();
            (array, i)
        }
        Node::Dictionary(node) => {
            if !is_set(array, i) {
                return (array, i);
            }
            value_of(&node.values, key_at(node, i))
        }
    }
}
