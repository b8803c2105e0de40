//! Where the slots inside a slot stand.
ghost use Rattle.std.specs.Prelude.{◌≡◌, ◌≢◌, ◌+◌, ◌<◌, ◌≤◌, length, IfSome, MatchOption, true};
ghost use Rattle.nested_arrays_parts.specs.columnar_memory.Spans.{last_of, offset_at};
ghost use Rattle.nested_arrays_parts.specs.columns.Slots.{null};
ghost use Rattle.nested_arrays_parts.specs.columns.SoundColumns.{is_sound};
ghost use Rattle.nested_arrays_parts.specs.columns.StoredColumns.{column_len, in_columns, is_valid_at, slot_at};
ghost use Rattle.nested_arrays_parts.specs.flat.ColumnMasks.{column_mask};
ghost use Rattle.nested_arrays_parts.specs.Widths.{spans_in};
ghost use Rattle.nested_arrays_arrays.specs.AnyColumns.{column_of};
ghost use Rattle.nested_arrays_arrays.specs.Places.{AreFields, AreItems, AreRecords, IsKeyless, IsPick, slot_class};

use crate::any::{AnyArray, ListNode, Node};
use crate::fixed_lists::FixedSizeListArray;
use crate::maps::MapArray;
use crate::records::StructArray;
use crate::unions::UnionArray;
use nested_arrays_parts::flat::mark_at;
use nested_arrays_parts::{FlatArray, ListOffsets, has_no_nulls, holds_values, is_null};

/// Whether the mask, if there is one, says that a slot has a value.
pub(crate) fn is_set(array: &AnyArray, i: usize) -> bool
    requires { i < column_len array.now }
    ensures { result ≡ is_valid_at (column_mask array.now) i }
{
    array.whole();
    mark_at(array.validity(), i)
}

/// The array without children, if it is one.
pub(crate) fn flat(array: &AnyArray) -> Option<&FlatArray>
    ensures { IfSome result (λ values. values.now ≡ array.now) }
{
    match &array.node {
        Node::Flat(values) => Some(values),
        Node::List(_) => None,
        Node::FixedSizeList(_) => None,
        Node::Struct(_) => None,
        Node::Map(_) => None,
        Node::Union(_) => None,
        Node::Dictionary(_) => None,
    }
}

/// The array without children whose slot is a value, if it is one.
#[tactic(auto, using(crate::proofs::SlotPlaces::classes))]
pub(crate) fn values_at(array: &AnyArray, i: usize) -> Option<&FlatArray>
    requires within { i < column_len array.now }
    requires keyless { IsKeyless array.now i }
    ensures { MatchOption result (slot_class (slot_at array.now i) ≢ 1) (λ values.
        (values.now ≡ array.now) × (slot_class (slot_at array.now i) ≡ 1)) }
{
    match &array.node {
        Node::Flat(values) => {
            holds_values(values);
            if is_null(values, i) {
                None
            } else {
                Some(values)
            }
        }
        Node::List(_) => None,
        Node::FixedSizeList(array) => {
            let _items = array.values();
            None
        }
        Node::Struct(array) => {
            let _fields = array.values();
            None
        }
        Node::Map(array) => {
            let _entries = array.field();
            None
        }
        Node::Union(array) => {
            let _fields = array.fields();
            None
        }
        Node::Dictionary(_) => None,
    }
}

/// Where the items of a list begin and end.
pub(crate) fn bounds(offsets: &ListOffsets, i: usize) -> (usize, usize)
    requires { i < length (spans_in offsets.now).lengths }
    ensures start { result.0 ≡ offset_at (spans_in offsets.now) i }
    ensures stop { result.1 ≡ offset_at (spans_in offsets.now) (i + 1) }
    ensures ordered { result.0 ≤ result.1 }
    ensures within { result.1 ≤ last_of (spans_in offsets.now) }
{
    match offsets {
        ListOffsets::Small(offsets) => offsets.start_end(i),
        ListOffsets::Large(offsets) => offsets.start_end(i),
    }
}

/// The items of a list that is not null: the child, the place of the first, and how many there are.
fn list_items(node: &ListNode, i: usize) -> (&AnyArray, usize, usize)
    requires sound { is_sound (column_of (Node.List node.now)) ≡ true }
    requires within { i < column_len (column_of (Node.List node.now)) }
    requires set { is_valid_at (column_mask (column_of (Node.List node.now))) i ≡ true }
    ensures { AreItems (column_of (Node.List node.now)) i result.0.now result.1 result.2 }
{
    let (start, stop) = bounds(&node.offsets, i);
    (&node.values, start, stop - start)
}

/// The same of a list of one size.
fn fixed_items(array: &FixedSizeListArray, i: usize) -> (&AnyArray, usize, usize)
    requires within { i < column_len array.now }
    requires set { is_valid_at (column_mask array.now) i ≡ true }
    ensures { AreItems array.now i result.0.now result.1 result.2 }
{
    array.whole();
    let items = array.values();
    let _count = items.len();
    let size = array.size();
    (items, size * i, size)
}

/// The same of a map.
fn map_items(array: &MapArray, i: usize) -> (&AnyArray, usize, usize)
    requires within { i < column_len array.now }
    requires set { is_valid_at (column_mask array.now) i ≡ true }
    ensures { AreItems array.now i result.0.now result.1 result.2 }
{
    array.whole();
    let entries = array.field();
    let (start, stop) = array.offsets().start_end(i);
    (entries, start, stop - start)
}

/// The items of a list of one size, and none where it is null.
pub(crate) fn fixed_items_at(
    array: &FixedSizeListArray,
    i: usize,
) -> Option<(&AnyArray, usize, usize)>
    requires { i < column_len array.now }
    ensures { MatchOption result (slot_at array.now i ≡ null) (λ found. AreItems array.now i found.0.now found.1 found.2) }
{
    array.whole();
    if !mark_at(array.validity(), i) {
        return None;
    }
    Some(fixed_items(array, i))
}

/// The entries of a map, and none where it is null.
pub(crate) fn entries_at(array: &MapArray, i: usize) -> Option<(&AnyArray, usize, usize)>
    requires { i < column_len array.now }
    ensures { MatchOption result (slot_at array.now i ≡ null) (λ found. AreItems array.now i found.0.now found.1 found.2) }
{
    array.whole();
    if !mark_at(array.validity(), i) {
        return None;
    }
    Some(map_items(array, i))
}

/// The items of a slot, if it is a list.
#[tactic(auto, using(crate::proofs::SlotPlaces::classes))]
pub(crate) fn items_at(array: &AnyArray, i: usize) -> Option<(&AnyArray, usize, usize)>
    requires within { i < column_len array.now }
    requires keyless { IsKeyless array.now i }
    ensures { MatchOption result (slot_class (slot_at array.now i) ≢ 2) (λ found. AreItems array.now i found.0.now found.1 found.2) }
{
    array.whole();
    if !is_set(array, i) {
        return None;
    }
    match &array.node {
        Node::Flat(values) => {
            holds_values(values);
            None
        }
        Node::List(node) => Some(list_items(node, i)),
        Node::FixedSizeList(array) => Some(fixed_items(array, i)),
        Node::Struct(array) => {
            let _fields = array.values();
            None
        }
        Node::Map(array) => Some(map_items(array, i)),
        Node::Union(array) => {
            let _fields = array.fields();
            None
        }
        Node::Dictionary(_) => None,
    }
}

/// The children of a struct, whose slot is not null.
fn struct_fields(array: &StructArray, i: usize) -> &[AnyArray]
    requires within { i < column_len array.now }
    requires set { is_valid_at (column_mask array.now) i ≡ true }
    ensures { AreFields array.now i (in_columns result.now) }
{
    array.whole();
    array.values()
}

/// The children of a struct, and none where the slot is null.
pub(crate) fn record_at(array: &StructArray, i: usize) -> Option<&[AnyArray]>
    requires { i < column_len array.now }
    ensures { MatchOption result (slot_at array.now i ≡ null) (λ children. AreFields array.now i (in_columns children.now)) }
{
    array.whole();
    if !mark_at(array.validity(), i) {
        return None;
    }
    Some(struct_fields(array, i))
}

/// The children of so many structs from a place on, if none of them is null.
fn struct_range(array: &StructArray, i: usize, count: usize) -> Option<&[AnyArray]>
    requires { i + count ≤ column_len array.now }
    ensures { IfSome result (λ children. AreRecords array.now i count (in_columns children.now)) }
{
    array.whole();
    if !has_no_nulls(array.validity(), i, count) {
        return None;
    }
    Some(array.values())
}

/// The arrays whose slots are the fields of so many slots from a place on, if an array is of structs of which none there is null.
pub(crate) fn records_at(array: &AnyArray, i: usize, count: usize) -> Option<&[AnyArray]>
    requires { i + count ≤ column_len array.now }
    ensures { IfSome result (λ children. AreRecords array.now i count (in_columns children.now)) }
{
    match &array.node {
        Node::Flat(_) => None,
        Node::List(_) => None,
        Node::FixedSizeList(_) => None,
        Node::Struct(array) => struct_range(array, i, count),
        Node::Map(_) => None,
        Node::Union(_) => None,
        Node::Dictionary(_) => None,
    }
}

/// The arrays whose slots at a place are the fields of the slot, if it is a record.
#[tactic(auto, using(crate::proofs::SlotPlaces::classes))]
pub(crate) fn fields_at(array: &AnyArray, i: usize) -> Option<&[AnyArray]>
    requires within { i < column_len array.now }
    requires keyless { IsKeyless array.now i }
    ensures { MatchOption result (slot_class (slot_at array.now i) ≢ 3) (λ children. AreFields array.now i (in_columns children.now)) }
{
    if !is_set(array, i) {
        return None;
    }
    match &array.node {
        Node::Flat(values) => {
            holds_values(values);
            None
        }
        Node::List(_) => None,
        Node::FixedSizeList(array) => {
            let _items = array.values();
            None
        }
        Node::Struct(array) => Some(struct_fields(array, i)),
        Node::Map(array) => {
            let _entries = array.field();
            None
        }
        Node::Union(array) => {
            let _fields = array.fields();
            None
        }
        Node::Dictionary(_) => None,
    }
}

/// The child of a union that a slot picks, and its place there.
pub(crate) fn union_pick(array: &UnionArray, i: usize) -> Option<(&AnyArray, usize)>
    requires { i < column_len array.now }
    ensures { MatchOption result (slot_class (slot_at array.now i) ≢ 4) (λ found. IsPick array.now i found.0.now found.1) }
{
    let (number, place) = array.index(i);
    let fields = array.fields();
    match fields.get(number) {
        Some(child) => Some((child, place)),
        None => None,
    }
}

/// The array that a slot picks and its place there, if it is a union's.
#[tactic(auto, using(crate::proofs::SlotPlaces::classes))]
pub(crate) fn pick_at(array: &AnyArray, i: usize) -> Option<(&AnyArray, usize)>
    requires within { i < column_len array.now }
    requires keyless { IsKeyless array.now i }
    ensures { MatchOption result (slot_class (slot_at array.now i) ≢ 4) (λ found. IsPick array.now i found.0.now found.1) }
{
    match &array.node {
        Node::Flat(values) => {
            holds_values(values);
            None
        }
        Node::List(_) => None,
        Node::FixedSizeList(array) => {
            let _items = array.values();
            None
        }
        Node::Struct(array) => {
            let _fields = array.values();
            None
        }
        Node::Map(array) => {
            let _entries = array.field();
            None
        }
        Node::Union(array) => union_pick(array, i),
        Node::Dictionary(_) => None,
    }
}
