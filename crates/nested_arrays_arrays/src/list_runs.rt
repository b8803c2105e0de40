//! Lists that stand one after another: their items do so too, and are compared at once.
ghost use Rattle.std.specs.Prelude.{◌≡◌, ◌+◌, ◌<◌, ◌≤◌, IfSome, length, true};
ghost use Rattle.nested_arrays_parts.specs.columns.SoundColumns.{is_sound};
ghost use Rattle.nested_arrays_parts.specs.columns.StoredColumns.{column_len, is_valid_at};
ghost use Rattle.nested_arrays_parts.specs.Widths.{spans_in};
ghost use Rattle.nested_arrays_arrays.specs.AnyColumns.{column_of};
ghost use Rattle.nested_arrays_arrays.specs.ListRuns.{AreSameLists, IsListRun};

use crate::any::{AnyArray, ListNode, Node};
use crate::places::bounds;
use nested_arrays_parts::flat::mark_at;

/// So many lists of an array, none of them null, each as long as one of another array: where the items of each side begin, and how many
/// there are of them all.
#[derive(Drop)]
pub(crate) struct ListRun<'a> {
    pub count: usize,
    pub items: &'a AnyArray,
    pub start: usize,
    pub others: &'a AnyArray,
    pub other_start: usize,
    pub len: usize,
}

/// Whether a list is not null.
fn is_list(node: &ListNode, i: usize) -> bool
    requires sound { is_sound (column_of (Node.List node.now)) ≡ true }
    requires within { i < length (spans_in node.now.offsets).lengths }
    ensures { result ≡ is_valid_at node.now.validity i }
{
    mark_at(node.validity.as_ref(), i)
}

/// How many lists from a place on are not null and as long as those of another array, up to the first that is not, and how many items they
/// have.
fn run_len(left: &ListNode, i: usize, right: &ListNode, j: usize, count: usize) -> (usize, usize)
    requires left_sound { is_sound (column_of (Node.List left.now)) ≡ true }
    requires right_sound { is_sound (column_of (Node.List right.now)) ≡ true }
    requires left_within { i + count ≤ length (spans_in left.now.offsets).lengths }
    requires right_within { j + count ≤ length (spans_in right.now.offsets).lengths }
    requires some { 0 < count }
    ensures within { result.0 ≤ count }
    ensures run { AreSameLists left.now i right.now j result.0 result.1 }
{
    let _left = left.offsets.lists();
    let _right = right.offsets.lists();
    let (start, _) = bounds(&left.offsets, i);
    let (_, _) = bounds(&right.offsets, j);
    let mut len = 0;
    for k in 0..count {
        if !is_list(left, i + k) {
            return (k, len);
        }
        if !is_list(right, j + k) {
            return (k, len);
        }
        let (first, stop) = bounds(&left.offsets, i + k);
        let (other_first, other_stop) = bounds(&right.offsets, j + k);
        if stop - first != other_stop - other_first {
            return (k, len);
        }
        len = stop - start;
    }
    (count, len)
}

/// The lists of two arrays from two places on that are not null and as long on each side, if there are any.
fn node_run<'a>(
    left: &'a ListNode,
    i: usize,
    right: &'a ListNode,
    j: usize,
    count: usize,
) -> Option<ListRun<'a>>
    requires left_sound { is_sound (column_of (Node.List left.now)) ≡ true }
    requires right_sound { is_sound (column_of (Node.List right.now)) ≡ true }
    requires left_within { i + count ≤ length (spans_in left.now.offsets).lengths }
    requires right_within { j + count ≤ length (spans_in right.now.offsets).lengths }
    requires some { 0 < count }
    ensures { IfSome result (λ run. (0 < run.count) × (run.count ≤ count) × IsListRun (column_of (Node.List left.now)) i
        (column_of (Node.List right.now)) j run.count run.items.now run.start run.others.now run.other_start run.len) }
{
    let (same, len) = run_len(left, i, right, j, count);
    if same == 0 {
        return None;
    }
    let (start, _) = bounds(&left.offsets, i);
    let (other_start, _) = bounds(&right.offsets, j);
    Some(ListRun {
        count: same,
        items: &left.values,
        start,
        others: &right.values,
        other_start,
        len,
    })
}

/// The lists of an array, if it is one of lists with offsets.
fn lists(array: &AnyArray) -> Option<&ListNode>
    ensures { IfSome result (λ node. (column_of (Node.List node.now) ≡ array.now) × (is_sound (column_of (Node.List node.now)) ≡ true)) }
{
    array.whole();
    match &array.node {
        Node::Flat(_) => None,
        Node::List(node) => Some(node),
        Node::FixedSizeList(_) => None,
        Node::Struct(_) => None,
        Node::Map(_) => None,
        Node::Union(_) => None,
        Node::Dictionary(_) => None,
    }
}

/// The lists of two arrays from two places on, so many at most, that can be compared by their items at once, if there are any.
pub(crate) fn list_run<'a>(
    left: &'a AnyArray,
    i: usize,
    right: &'a AnyArray,
    j: usize,
    count: usize,
) -> Option<ListRun<'a>>
    requires left_within { i + count ≤ column_len left.now }
    requires right_within { j + count ≤ column_len right.now }
    requires some { 0 < count }
    ensures { IfSome result (λ run. (0 < run.count) × (run.count ≤ count)
        × IsListRun left.now i right.now j run.count run.items.now run.start run.others.now run.other_start run.len) }
{
    match (lists(left), lists(right)) {
        (Some(left), Some(right)) => node_run(left, i, right, j, count),
        _ => None,
    }
}
