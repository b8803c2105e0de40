//! Masks of dictionaries: each key that a mask says is valid has to be the place of a value.
ghost use Rattle.std.specs.Prelude.{◌≡◌, ◌<◌, length, option_copied, true};
ghost use Rattle.nested_arrays_parts.specs.columns.SoundColumns.{has_value_at, holds_below, is_sound, mask_fits};
ghost use Rattle.nested_arrays_parts.specs.columns.StoredColumns.{column_len};
ghost use Rattle.nested_arrays_parts.specs.flat.ColumnMasks.{ReplacesMask};
ghost use Rattle.nested_arrays_parts.specs.Keys.{numbers_in};
ghost use Rattle.nested_arrays_arrays.specs.AnyColumns.{column_of, FitsWidth};
ghost use Rattle.nested_arrays_arrays.specs.NamedValues.{firsts, names_value};

use crate::any::{DictionaryNode, Node};
use nested_arrays_parts::columnar_memory::{Bitmap, Error, Index, Result};
use nested_arrays_parts::fits;
use nested_arrays_parts::flat::{PrimitiveNode, mark_at};
use nested_arrays_parts::flat_arrays::PrimitiveArray;

/// Whether a key is the place of one of so many values.
#[tactic(auto, using(crate::proofs::KeyMasks::named, crate::proofs::KeyMasks::unnamed))]
fn names<K: Index>(key: K, count: usize) -> bool
    ensures { result ≡ names_value count (K.value key) }
{
    match key.try_to_usize() {
        Some(place) => place < count,
        None => false,
    }
}

/// Whether the key of a slot, if a mask says that it is valid, is the place of one of so many values.
fn is_named<K: Index>(
    keys: &PrimitiveArray<K>,
    validity: &Option<Bitmap>,
    i: usize,
    count: usize,
) -> bool
    requires within { i < length keys.now.values }
    requires masked { mask_fits validity.now (length keys.now.values) ≡ true }
    ensures { result ≡ has_value_at validity.now (firsts K.numbers keys.now.values) count i }
{
    if !mark_at(validity.as_ref(), i) {
        return true;
    }
    names(keys.value(i), count)
}

/// Whether each key that a mask says is valid is the place of one of so many values.
fn are_named<K: Index>(keys: &PrimitiveArray<K>, validity: &Option<Bitmap>, count: usize) -> bool
    requires { mask_fits validity.now (length keys.now.values) ≡ true }
    ensures { result ≡ holds_below (length (firsts K.numbers keys.now.values)) (has_value_at validity.now (firsts K.numbers keys.now.values) count) }
{
    for i in 0..keys.len() {
        if !is_named(keys, validity, i, count) {
            return false;
        }
    }
    true
}

/// Whether a dictionary stays one under a mask of its length.
#[tactic(auto, using(crate::proofs::KeyMasks::keys_masked))]
fn stays_named(node: &DictionaryNode, validity: &Option<Bitmap>) -> bool
    requires fits { FitsWidth (Node.Dictionary node.now) }
    requires masked { mask_fits validity.now (length (numbers_in node.now.keys)) ≡ true }
    ensures { result ≡ holds_below (length (numbers_in node.now.keys)) (has_value_at validity.now (numbers_in node.now.keys)
        (column_len node.now.values.value)) }
{
    let count = node.values.len();
    match &node.keys.node {
        PrimitiveNode::Int8(keys) => are_named(keys, validity, count),
        PrimitiveNode::Int16(keys) => are_named(keys, validity, count),
        PrimitiveNode::Int32(keys) => are_named(keys, validity, count),
        PrimitiveNode::Int64(keys) => are_named(keys, validity, count),
        PrimitiveNode::Int128(_) => false,
        PrimitiveNode::Int256(_) => false,
        PrimitiveNode::UInt8(keys) => are_named(keys, validity, count),
        PrimitiveNode::UInt16(keys) => are_named(keys, validity, count),
        PrimitiveNode::UInt32(keys) => are_named(keys, validity, count),
        PrimitiveNode::UInt64(keys) => are_named(keys, validity, count),
        PrimitiveNode::DaysMs(_) => true,
        PrimitiveNode::MonthsDaysNs(_) => true,
    }
}

/// Replaces the mask of a dictionary, which is that of its keys.
pub(crate) fn mask_keys(node: &mut DictionaryNode, validity: Option<Bitmap>) -> Result<()>
    requires sound { is_sound (column_of (Node.Dictionary node.old)) ≡ true }
    requires fits { FitsWidth (Node.Dictionary node.old) }
    ensures mask { ReplacesMask (column_of (Node.Dictionary node.old)) validity (column_of (Node.Dictionary node.new)) result }
    ensures kept { FitsWidth (Node.Dictionary node.new) }
{
    node.keys.whole();
    if !fits(&validity, node.keys.len()) {
        return Err(Error::InvalidArgumentError("a mask of another length than the array"));
    }
    if !stays_named(node, &validity) {
        return Err(Error::InvalidArgumentError(
            "a mask that makes a key valid that names no value",
        ));
    }
    node.keys.set_validity(validity)
}
