//! Runs of slots of dictionaries whose values are arrays without children: keys are read, and values that they name are compared once for each
//! pair of places that is remembered. A step is counted with each pair of slots, known or compared.
ghost use Rattle.std.specs.Prelude.{◌≡◌, ◌+◌, ◌<◌, ◌≤◌, ◌↔◌, IfNone, IfSome, IsTrue, option_copied};
ghost use Rattle.nested_arrays_parts.specs.columns.StoredColumns.{column_len, slot_at};
ghost use Rattle.nested_arrays_parts.specs.Ranges.{range_nodes, SameRanges};
ghost use Rattle.nested_arrays_arrays.specs.AnyColumns.{column_of, IsWhole};
ghost use Rattle.nested_arrays_arrays.specs.NamedRuns.{named_slot, AreSamePairs, StoresKeys, TellsRun};
ghost use Rattle.nested_arrays_arrays.specs.NamedValues.{firsts};

use crate::any::{AnyArray, DictionaryNode, Node};
use crate::keys::place;
use crate::places::flat;
use nested_arrays_parts::columnar_memory::{Bitmap, Index, Steps};
use nested_arrays_parts::flat::{PrimitiveNode, mark_at};
use nested_arrays_parts::flat_arrays::PrimitiveArray;
use nested_arrays_parts::{FlatArray, holds_values, is_null, same_slots_counted};

/// How many pairs of values are remembered in a short run.
const FEW: usize = 64;

/// How many pairs of values are remembered in a long run.
const MANY: usize = 4096;

/// How many slots a long run has at least: so many that the room for many pairs is made in a small part of the time.
const LONG: usize = 8192;

/// Pairs of values that are the same, by their places on the left and on the right: for each remainder of left places the last pair that was
/// found. Where none was, the left place is past all values.
#[derive(Drop)]
struct KnownPairs<const KNOWN: usize> {
    lefts: [usize; KNOWN],
    rights: [usize; KNOWN],
}

/// The place of the value that the key of a slot names, none where the slot is null by its mask. The mask and the keys are those of the
/// dictionary.
#[inline(always)]
fn named<K: Index>(
    node: &DictionaryNode,
    validity: Option<&Bitmap>,
    keys: &[K],
    i: usize,
) -> Option<usize>
    requires whole { IsWhole (Node.Dictionary node.now) }
    requires stored { StoresKeys (option_copied validity) (firsts K.numbers keys.now) node.now.keys }
    requires within { i < column_len node.now.keys }
    ensures shown { named_slot node.now.values.value result ≡ slot_at (column_of (Node.Dictionary node.now)) i }
    ensures within { IfSome result (λ place. place < column_len node.now.values.value) }
{
    node.keys.whole();
    if !mark_at(validity, i) {
        return None;
    }
    Some(place(keys[i]))
}

/// Whether a value is that of another array. Where this is known it is not compared again. Either is a step.
#[inline(always)]
fn same_value<const KNOWN: usize>(
    known: &mut KnownPairs<KNOWN>,
    values: &FlatArray,
    place: usize,
    others: &FlatArray,
    other: usize,
    steps: &mut Steps,
) -> bool
    requires room { 0 < KNOWN }
    requires known { AreSamePairs known.old.lefts known.old.rights values.now others.now }
    requires within { place < column_len values.now }
    requires other_within { other < column_len others.now }
    ensures known { AreSamePairs known.new.lefts known.new.rights values.now others.now }
    ensures same { IsTrue result ↔ (slot_at values.now place ≡ slot_at others.now other) }
    ensures counted { steps.new.count ≡ steps.old.count + 1 }
{
    let h = place % KNOWN;
    if known.lefts[h] == place && known.rights[h] == other {
        steps.tick();
        return true;
    }
    if !same_slots_counted(values, place, others, other, 1, steps) {
        return false;
    }
    known.lefts[h] = place;
    known.rights[h] = other;
    true
}

/// Whether the slot of a key is that of another, each by the place that it names, if any. It is a step.
#[inline(always)]
fn same_slot<const KNOWN: usize>(
    known: &mut KnownPairs<KNOWN>,
    values: &FlatArray,
    place: Option<usize>,
    others: &FlatArray,
    other: Option<usize>,
    steps: &mut Steps,
) -> bool
    requires room { 0 < KNOWN }
    requires known { AreSamePairs known.old.lefts known.old.rights values.now others.now }
    requires within { IfSome place (λ p. p < column_len values.now) }
    requires other_within { IfSome other (λ p. p < column_len others.now) }
    ensures known { AreSamePairs known.new.lefts known.new.rights values.now others.now }
    ensures same { IsTrue result ↔ (named_slot values.now place ≡ named_slot others.now other) }
    ensures counted { steps.new.count ≡ steps.old.count + 1 }
{
    match (place, other) {
        (Some(place), Some(other)) => same_value(known, values, place, others, other, steps),
        (Some(place), None) => {
            steps.tick();
            is_null(values, place)
        }
        (None, Some(other)) => {
            steps.tick();
            is_null(others, other)
        }
        (None, None) => {
            steps.tick();
            true
        }
    }
}

/// Whether so many slots of a dictionary from a place on are those of another from a place on. The keys are those of the dictionaries.
fn same_named<K: Index, const KNOWN: usize>(
    left: &DictionaryNode,
    keys: &PrimitiveArray<K>,
    values: &FlatArray,
    i: usize,
    right: &DictionaryNode,
    other_keys: &PrimitiveArray<K>,
    others: &FlatArray,
    j: usize,
    count: usize,
    steps: &mut Steps,
) -> bool
    requires room { 0 < KNOWN }
    requires small { KNOWN ≤ 65536 }
    requires left_whole { IsWhole (Node.Dictionary left.now) }
    requires right_whole { IsWhole (Node.Dictionary right.now) }
    requires left_keys { StoresKeys keys.now.validity (firsts K.numbers keys.now.values) left.now.keys }
    requires right_keys { StoresKeys other_keys.now.validity (firsts K.numbers other_keys.now.values) right.now.keys }
    requires left_values { values.now ≡ left.now.values.value }
    requires right_values { others.now ≡ right.now.values.value }
    requires left_within { i + count ≤ column_len (column_of (Node.Dictionary left.now)) }
    requires right_within { j + count ≤ column_len (column_of (Node.Dictionary right.now)) }
    ensures same { IsTrue result ↔ SameRanges (column_of (Node.Dictionary left.now)) i (column_of (Node.Dictionary right.now)) j count }
    ensures counted { steps.new.count ≤ steps.old.count + count }
    ensures used { IsTrue result → steps.new.count ≡ steps.old.count + count }
{
    let _left = left.keys.len();
    let _right = right.keys.len();
    let _values = values.len();
    let mut known: KnownPairs<KNOWN> = KnownPairs {
        lefts: [usize::MAX; KNOWN],
        rights: [usize::MAX; KNOWN],
    };
    let (validity, keys) = (keys.validity(), keys.values().as_slice());
    let (other_validity, other_keys) = (other_keys.validity(), other_keys.values().as_slice());
    for k in 0..count {
        let place = named(left, validity, keys, i + k);
        let other = named(right, other_validity, other_keys, j + k);
        if !same_slot(&mut known, values, place, others, other, steps) {
            return false;
        }
    }
    true
}

/// The same of two dictionaries whose keys are of one kind: none, and no steps, where they are not.
// match table: an arm for each kind of keys.
fn same_keyed<const KNOWN: usize>(
    left: &DictionaryNode,
    values: &FlatArray,
    i: usize,
    right: &DictionaryNode,
    others: &FlatArray,
    j: usize,
    count: usize,
    steps: &mut Steps,
) -> Option<bool>
    requires room { 0 < KNOWN }
    requires small { KNOWN ≤ 65536 }
    requires left_whole { IsWhole (Node.Dictionary left.now) }
    requires right_whole { IsWhole (Node.Dictionary right.now) }
    requires left_values { values.now ≡ left.now.values.value }
    requires right_values { others.now ≡ right.now.values.value }
    requires left_within { i + count ≤ column_len (column_of (Node.Dictionary left.now)) }
    requires right_within { j + count ≤ column_len (column_of (Node.Dictionary right.now)) }
    ensures told { IfSome result (λ same. TellsRun (column_of (Node.Dictionary left.now)) i (column_of (Node.Dictionary right.now)) j count count
        steps.old.count steps.new.count same) }
    ensures untold { IfNone result (steps.new.count ≡ steps.old.count) }
{
    match (&left.keys.node, &right.keys.node) {
        (PrimitiveNode::Int8(keys), PrimitiveNode::Int8(other_keys)) => {
            Some(same_named::<i8, KNOWN>(
                left, keys, values, i, right, other_keys, others, j, count, steps,
            ))
        }
        (PrimitiveNode::Int16(keys), PrimitiveNode::Int16(other_keys)) => {
            Some(same_named::<i16, KNOWN>(
                left, keys, values, i, right, other_keys, others, j, count, steps,
            ))
        }
        (PrimitiveNode::Int32(keys), PrimitiveNode::Int32(other_keys)) => {
            Some(same_named::<i32, KNOWN>(
                left, keys, values, i, right, other_keys, others, j, count, steps,
            ))
        }
        (PrimitiveNode::Int64(keys), PrimitiveNode::Int64(other_keys)) => {
            Some(same_named::<i64, KNOWN>(
                left, keys, values, i, right, other_keys, others, j, count, steps,
            ))
        }
        (PrimitiveNode::UInt8(keys), PrimitiveNode::UInt8(other_keys)) => {
            Some(same_named::<u8, KNOWN>(
                left, keys, values, i, right, other_keys, others, j, count, steps,
            ))
        }
        (PrimitiveNode::UInt16(keys), PrimitiveNode::UInt16(other_keys)) => {
            Some(same_named::<u16, KNOWN>(
                left, keys, values, i, right, other_keys, others, j, count, steps,
            ))
        }
        (PrimitiveNode::UInt32(keys), PrimitiveNode::UInt32(other_keys)) => {
            Some(same_named::<u32, KNOWN>(
                left, keys, values, i, right, other_keys, others, j, count, steps,
            ))
        }
        (PrimitiveNode::UInt64(keys), PrimitiveNode::UInt64(other_keys)) => {
            Some(same_named::<u64, KNOWN>(
                left, keys, values, i, right, other_keys, others, j, count, steps,
            ))
        }
        _ => None,
    }
}

/// The keys of an array and its values, if it is a dictionary.
fn dictionaries(array: &AnyArray) -> Option<&DictionaryNode>
    ensures { IfSome result (λ node. (column_of (Node.Dictionary node.now) ≡ array.now) × IsWhole (Node.Dictionary node.now)) }
{
    array.whole();
    match &array.node {
        Node::Flat(_) => None,
        Node::List(_) => None,
        Node::FixedSizeList(_) => None,
        Node::Struct(_) => None,
        Node::Map(_) => None,
        Node::Union(_) => None,
        Node::Dictionary(node) => Some(node),
    }
}

/// The same of two dictionaries of any values: none, and no steps, where the values of one have children or their keys are of two kinds.
fn same_nodes(
    left: &DictionaryNode,
    i: usize,
    right: &DictionaryNode,
    j: usize,
    count: usize,
    steps: &mut Steps,
) -> Option<bool>
    requires left_whole { IsWhole (Node.Dictionary left.now) }
    requires right_whole { IsWhole (Node.Dictionary right.now) }
    requires left_within { i + count ≤ column_len (column_of (Node.Dictionary left.now)) }
    requires right_within { j + count ≤ column_len (column_of (Node.Dictionary right.now)) }
    ensures told { IfSome result (λ same. TellsRun (column_of (Node.Dictionary left.now)) i (column_of (Node.Dictionary right.now)) j count
        (range_nodes (column_of (Node.Dictionary left.now)) i count) steps.old.count steps.new.count same) }
    ensures untold { IfNone result (steps.new.count ≡ steps.old.count) }
{
    match (flat(&left.values), flat(&right.values)) {
        (Some(values), Some(others)) => {
            holds_values(values);
            if count < LONG {
                same_keyed::<FEW>(left, values, i, right, others, j, count, steps)
            } else {
                same_keyed::<MANY>(left, values, i, right, others, j, count, steps)
            }
        }
        _ => None,
    }
}

/// Whether so many slots of an array from a place on are those of another from a place on, if both are dictionaries whose keys are of one kind
/// and whose values have no children. A step is ticked as each pair of slots is compared; where one is no such dictionary, none.
pub(crate) fn same_named_run(
    left: &AnyArray,
    i: usize,
    right: &AnyArray,
    j: usize,
    count: usize,
    steps: &mut Steps,
) -> Option<bool>
    requires left_within { i + count ≤ column_len left.now }
    requires right_within { j + count ≤ column_len right.now }
    ensures told { IfSome result (λ same.
        TellsRun left.now i right.now j count (range_nodes left.now i count) steps.old.count steps.new.count same) }
    ensures untold { IfNone result (steps.new.count ≡ steps.old.count) }
{
    match (dictionaries(left), dictionaries(right)) {
        (Some(left), Some(right)) => same_nodes(left, i, right, j, count, steps),
        _ => None,
    }
}
