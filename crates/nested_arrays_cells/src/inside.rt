//! What stands inside a slot.
ghost use Rattle.std.specs.Prelude.{◌≡◌, ◌+◌, ◌<◌, ◌≤◌, length, true, MatchOption};
ghost use Rattle.nested_arrays_builder_arrays.specs.arrays.columnar_memory.Spans.{last_of, offset_at};
ghost use Rattle.nested_arrays_builder_arrays.specs.arrays.columns.Slots.{null};
ghost use Rattle.nested_arrays_builder_arrays.specs.arrays.columns.StoredColumns.{column_len, is_valid_at, slot_at};
ghost use Rattle.nested_arrays_builder_arrays.specs.arrays.AnyColumns.{column_of, IsWhole};
ghost use Rattle.nested_arrays_builder_arrays.specs.arrays.declared.any.Node.TheVariants as nodes;
ghost use Rattle.nested_arrays_builder_arrays.specs.arrays.flat.ColumnMasks.{column_mask};
ghost use Rattle.nested_arrays_builder_arrays.specs.arrays.parts.Widths.{spans_in};
ghost use Rattle.nested_arrays_cells.specs.ArrayCells.{has_cell_at, IsCell};
ghost use Rattle.nested_arrays_cells.specs.Inside.{AreCellFields, AreCellItems, IsCellValue};

use crate::numbers::{number_at, place_named};
use nested_arrays_builder_arrays::arrays::flat::mark_at;
use nested_arrays_builder_arrays::arrays::parts::ListOffsets;
use nested_arrays_builder_arrays::arrays::{
    AnyArray, DictionaryNode, FixedSizeListArray, ListNode, MapArray, StructArray, UnionArray,
};
use nested_arrays_scalars::AnyScalar;

/// Where the items of a list begin and end.
fn bounds(offsets: &ListOffsets, i: usize) -> (usize, usize)
    requires { i < length (spans_in offsets.now).lengths }
    ensures start { result.0 ≡ offset_at (spans_in offsets.now) i }
    ensures stop { result.1 ≡ offset_at (spans_in offsets.now) (i + 1) }
    ensures ordered { result.0 ≤ result.1 }
    ensures within { result.1 ≤ last_of (spans_in offsets.now) }
{
    match offsets {
        ListOffsets::Small(offsets) => offsets.start_end(i),
        ListOffsets::Large(offsets) => offsets.start_end(i),
    }
}

/// The items of a list that is not null: the child, the place of the first, and how many there are.
fn set_list_items(node: &ListNode, i: usize) -> (&AnyArray, usize, usize)
    requires whole { IsWhole (nodes.List node.now) }
    requires within { i < column_len (column_of (nodes.List node.now)) }
    requires set { is_valid_at node.now.validity i ≡ true }
    ensures { AreCellItems (column_of (nodes.List node.now)) i result.0.now result.1 result.2 }
{
    let (start, stop) = bounds(&node.offsets, i);
    (&node.values, start, stop - start)
}

/// The items of a list, and none where it is null.
pub(crate) fn list_items(node: &ListNode, i: usize) -> Option<(&AnyArray, usize, usize)>
    requires whole { IsWhole (nodes.List node.now) }
    requires within { i < column_len (column_of (nodes.List node.now)) }
    ensures { MatchOption result (slot_at (column_of (nodes.List node.now)) i ≡ null)
        (λ found. AreCellItems (column_of (nodes.List node.now)) i found.0.now found.1 found.2) }
{
    if !mark_at(node.validity.as_ref(), i) {
        return None;
    }
    Some(set_list_items(node, i))
}

/// The items of a list of one size that is not null.
fn set_fixed_items(array: &FixedSizeListArray, i: usize) -> (&AnyArray, usize, usize)
    requires within { i < column_len array.now }
    requires set { is_valid_at (column_mask array.now) i ≡ true }
    ensures { AreCellItems array.now i result.0.now result.1 result.2 }
{
    array.whole();
    let items = array.values();
    let _count = items.len();
    let size = array.size();
    (items, size * i, size)
}

/// The items of a list of one size, and none where it is null.
pub(crate) fn fixed_items(array: &FixedSizeListArray, i: usize) -> Option<(&AnyArray, usize, usize)>
    requires { i < column_len array.now }
    ensures { MatchOption result (slot_at array.now i ≡ null) (λ found. AreCellItems array.now i found.0.now found.1 found.2) }
{
    array.whole();
    if !mark_at(array.validity(), i) {
        return None;
    }
    Some(set_fixed_items(array, i))
}

/// The arrays whose slots at the place are the fields of a struct, and none where it is null.
pub(crate) fn record_fields(array: &StructArray, i: usize) -> Option<&[AnyArray]>
    requires { i < column_len array.now }
    ensures { MatchOption result (slot_at array.now i ≡ null) (λ children. AreCellFields array.now i children.now) }
{
    array.whole();
    if !mark_at(array.validity(), i) {
        return None;
    }
    Some(array.values())
}

/// The value that the key of a slot names, and none where the slot is null.
pub(crate) fn named_value(node: &DictionaryNode, i: usize) -> Option<(&AnyArray, usize)>
    requires whole { IsWhole (nodes.Dictionary node.now) }
    requires within { i < column_len (column_of (nodes.Dictionary node.now)) }
    ensures { MatchOption result (slot_at (column_of (nodes.Dictionary node.now)) i ≡ null)
        (λ found. IsCellValue (column_of (nodes.Dictionary node.now)) i found.0.now found.1) }
{
    if !node.keys.is_valid(i) {
        return None;
    }
    Some((&node.values, place_named(number_at(&node.keys, i))))
}

/// The cell of a map, which is one where it is null.
pub(crate) fn map_cell(array: &MapArray, i: usize) -> Option<AnyScalar>
    requires { i < column_len array.now }
    ensures { IsCell (has_cell_at i array.now) (slot_at array.now i) result }
{
    array.whole();
    let _entries = array.field();
    if mark_at(array.validity(), i) {
        return None;
    }
    Some(AnyScalar::Null)
}

/// The cell of a union's slot, which is none.
pub(crate) fn union_cell(array: &UnionArray, i: usize) -> Option<AnyScalar>
    requires { i < column_len array.now }
    ensures { IsCell (has_cell_at i array.now) (slot_at array.now i) result }
{
    array.whole();
    let _fields = array.fields();
    let _place = i;
    None
}
