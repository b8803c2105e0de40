//! Lists and dictionaries as arrays of any type, without memory.
ghost use Rattle.std.specs.Prelude.{◌≡◌};

use crate::dictionaries::DictionaryArray;
use crate::keys::DictionaryKey;
use crate::lists::ListArray;
use nested_arrays_access::arrays::{AnyArray, DictionaryNode, ListNode, Node};
use nested_arrays_access::flat::AnyPrimitive;
use nested_arrays_access::parts::ListOffsets;

impl From<ListArray<i32>> for AnyArray {
    ghost from_gives = { λ array any. any ≡ array };

    fn from(array: ListArray<i32>) -> Self {
        let ListArray {
            data_type,
            offsets,
            values,
            validity,
        } = array;
        AnyArray {
            node: Node::List(ListNode {
                data_type,
                offsets: ListOffsets::Small(offsets),
                values,
                validity,
            }),
        }
    }
}

impl From<ListArray<i64>> for AnyArray {
    ghost from_gives = { λ array any. any ≡ array };

    fn from(array: ListArray<i64>) -> Self {
        let ListArray {
            data_type,
            offsets,
            values,
            validity,
        } = array;
        AnyArray {
            node: Node::List(ListNode {
                data_type,
                offsets: ListOffsets::Large(offsets),
                values,
                validity,
            }),
        }
    }
}

impl<K: DictionaryKey> From<DictionaryArray<K>> for AnyArray {
    ghost from_gives = { λ array any. any ≡ array };

    fn from(array: DictionaryArray<K>) -> Self {
        let DictionaryArray {
            data_type,
            keys,
            values,
        } = array;
        AnyArray {
            node: Node::Dictionary(DictionaryNode {
                data_type,
                keys: AnyPrimitive::from_array(keys),
                values,
            }),
        }
    }
}
