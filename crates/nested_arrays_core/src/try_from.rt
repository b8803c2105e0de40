//! Lists and dictionaries taken out of arrays of any type, without memory: an array of another kind is given back.
ghost use Rattle.std.specs.Prelude.{◌≡◌, true};
ghost use Rattle.nested_arrays_access.specs.columnar_memory.Layouts.{physical_type};
ghost use Rattle.nested_arrays_access.specs.columnar_memory.declared.PhysicalType.TheVariants as physical;
ghost use Rattle.nested_arrays_access.specs.columns.SoundColumns.{is_sound};
ghost use Rattle.nested_arrays_access.specs.parts.Keys.{AreKeysOf};
ghost use Rattle.nested_arrays_access.specs.parts.Widths.{layout_of};
ghost use Rattle.nested_arrays_access.specs.arrays.AnyColumns.{column_of};
ghost use Rattle.nested_arrays_access.specs.arrays.Answers.{TakesAs};

use crate::dictionaries::DictionaryArray;
use crate::keys::DictionaryKey;
use crate::lists::ListArray;
use nested_arrays_access::arrays::{AnyArray, DictionaryNode, ListNode, Node};
use nested_arrays_access::parts::ListOffsets;

impl TryFrom<AnyArray> for ListArray<i32> {
    type Error = AnyArray;

    ghost try_from_gives = { TakesAs physical.List };

    fn try_from(any: AnyArray) -> Result<Self, AnyArray> {
        let node = any.into_node();
        node.lies();
        match node.into_list() {
            Ok(node) => small_lists(node),
            Err(node) => Err(AnyArray { node }),
        }
    }
}

impl TryFrom<AnyArray> for ListArray<i64> {
    type Error = AnyArray;

    ghost try_from_gives = { TakesAs physical.LargeList };

    fn try_from(any: AnyArray) -> Result<Self, AnyArray> {
        let node = any.into_node();
        node.lies();
        match node.into_list() {
            Ok(node) => large_lists(node),
            Err(node) => Err(AnyArray { node }),
        }
    }
}

impl<K: DictionaryKey> TryFrom<AnyArray> for DictionaryArray<K> {
    type Error = AnyArray;

    ghost try_from_gives = { TakesAs (physical.Dictionary K.KEY_TYPE) };

    fn try_from(any: AnyArray) -> Result<Self, AnyArray> {
        let node = any.into_node();
        node.lies();
        match node.into_dictionary() {
            Ok(node) => with_keys(node),
            Err(node) => Err(AnyArray { node }),
        }
    }
}

/// The lists of a node, where its offsets have 32 bits.
fn small_lists(node: ListNode) -> Result<ListArray<i32>, AnyArray>
    requires sound { is_sound (column_of (Node.List node)) ≡ true }
    requires width { physical_type node.data_type ≡ layout_of node.offsets }
    ensures { TakesAs physical.List (column_of (Node.List node)) result }
{
    let ListNode {
        data_type,
        offsets,
        values,
        validity,
    } = node;
    match offsets {
        ListOffsets::Small(offsets) => Ok(ListArray::new(data_type, offsets, values, validity)),
        ListOffsets::Large(offsets) => Err(AnyArray {
            node: Node::List(ListNode {
                data_type,
                offsets: ListOffsets::Large(offsets),
                values,
                validity,
            }),
        }),
    }
}

/// The lists of a node, where its offsets have 64 bits.
fn large_lists(node: ListNode) -> Result<ListArray<i64>, AnyArray>
    requires sound { is_sound (column_of (Node.List node)) ≡ true }
    requires width { physical_type node.data_type ≡ layout_of node.offsets }
    ensures { TakesAs physical.LargeList (column_of (Node.List node)) result }
{
    let ListNode {
        data_type,
        offsets,
        values,
        validity,
    } = node;
    match offsets {
        ListOffsets::Large(offsets) => Ok(ListArray::new(data_type, offsets, values, validity)),
        ListOffsets::Small(offsets) => Err(AnyArray {
            node: Node::List(ListNode {
                data_type,
                offsets: ListOffsets::Small(offsets),
                values,
                validity,
            }),
        }),
    }
}

/// The dictionary of a node, where its keys are of a type.
fn with_keys<K: DictionaryKey>(node: DictionaryNode) -> Result<DictionaryArray<K>, AnyArray>
    requires sound { is_sound (column_of (Node.Dictionary node)) ≡ true }
    requires keys { AreKeysOf (physical_type node.data_type) node.keys }
    ensures { TakesAs (physical.Dictionary K.KEY_TYPE) (column_of (Node.Dictionary node)) result }
{
    let DictionaryNode {
        data_type,
        keys,
        values,
    } = node;
    keys.whole();
    match keys.into_array::<K>() {
        Ok(keys) => Ok(DictionaryArray {
            data_type,
            keys,
            values,
        }),
        Err(keys) => Err(AnyArray {
            node: Node::Dictionary(DictionaryNode {
                data_type,
                keys,
                values,
            }),
        }),
    }
}
