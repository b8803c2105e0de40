//! The own part of a column with children: its node and its buffers, which stand before its children.
ghost use Rattle.std.specs.Prelude.{◌+◌, ◌≤◌, IfOk, length};
ghost use Rattle.nested_arrays_core.specs.AnyColumns.{column_of, IsWhole};
ghost use Rattle.nested_arrays_core.specs.Parts.{column_children};
ghost use Rattle.nested_arrays_core.specs.Places.{HaveRange};
ghost use Rattle.nested_arrays_core.specs.StoredColumns.{column_len};
ghost use Rattle.nested_arrays_core.specs.Widths.{spans_in};
ghost use Rattle.nested_arrays_core.specs.declared.Node.TheVariants as nodes;
ghost use Rattle.ipc_format_column_reading.specs.column_bytes.Bodies.{parts_of};
ghost use Rattle.ipc_format_column_reading.specs.column_bytes.Numbers.{width_of};
ghost use Rattle.ipc_format_column_reading.specs.column_bytes.WholeColumns.{behind_node};
ghost use Rattle.ipc_format_column_reading.specs.column_bytes.grammar.Encoding.{joined_columns};
ghost use Rattle.ipc_format_column_reading.specs.column_bytes.grammar.StoredEncoding.{encode_range, encode_ranges};
ghost use Rattle.ipc_format_column_writing.specs.Parts.{HaveParts, encode_parts, items_column};
ghost use Rattle.ipc_format_column_writing.specs.Written.{AddsSpans, Begins, list_width};

use crate::parts::Part;
use ipc_format_column_reading::column_bytes::columnar_memory::{Offset, OffsetsBuffer, Result};
use ipc_format_column_reading::column_bytes::{Body, offset_at};
use nested_arrays_core::{
    FixedSizeListArray, ListNode, ListOffsets, MapArray, StructArray, UnionArray,
};

/// Adds the offsets of the `count` spans from span `first` on, and answers where the first begins and how much they span.
fn add_spans<O: Offset>(
    offsets: &OffsetsBuffer<O>,
    first: usize,
    count: usize,
    body: &mut Body,
    is_little_endian: bool,
) -> Result<(usize, usize)>
    requires { first + count ≤ length offsets.now.lengths }
    ensures { AddsSpans result (parts_of body.old) (parts_of body.new) is_little_endian (width_of O.IS_LARGE) offsets.now first count }
{
    let _all = offsets.len();
    body.add_offsets(offsets, first, count, is_little_endian)?;
    let start = offset_at(offsets, first);
    let end = offset_at(offsets, first + count);
    Ok((start, end - start))
}

/// The same of offsets of either width.
fn add_list_spans(
    offsets: &ListOffsets,
    first: usize,
    count: usize,
    body: &mut Body,
    is_little_endian: bool,
) -> Result<(usize, usize)>
    requires { first + count ≤ length (spans_in offsets.now).lengths }
    ensures { AddsSpans result (parts_of body.old) (parts_of body.new) is_little_endian (list_width offsets.now) (spans_in offsets.now) first
        count }
{
    match offsets {
        ListOffsets::Small(offsets) => add_spans(offsets, first, count, body, is_little_endian),
        ListOffsets::Large(offsets) => add_spans(offsets, first, count, body, is_little_endian),
    }
}

/// Adds the own part of the `count` lists from list `first` on, and answers where their items begin and how many there are.
pub(crate) fn begin_lists(
    node: &ListNode,
    first: usize,
    count: usize,
    body: &mut Body,
    is_little_endian: bool,
) -> Result<(usize, usize)>
    requires whole { IsWhole (nodes.List node.now) }
    requires within { first + count ≤ column_len (column_of (nodes.List node.now)) }
    ensures begun { Begins result (parts_of body.old) (parts_of body.new)
        (λ items. encode_range is_little_endian node.now.values.value items.0 items.1)
        (encode_range is_little_endian (column_of (nodes.List node.now)) first count) }
    ensures items { IfOk result (λ items. items.0 + items.1 ≤ column_len node.now.values.value) }
{
    let _lists = node.offsets.lists();
    body.add_slots(node.validity.as_ref(), first, count)?;
    add_list_spans(&node.offsets, first, count, body, is_little_endian)
}

/// The same of maps.
pub(crate) fn begin_maps(
    array: &MapArray,
    first: usize,
    count: usize,
    body: &mut Body,
    is_little_endian: bool,
) -> Result<(usize, usize)>
    requires { first + count ≤ column_len array.now }
    ensures begun { Begins result (parts_of body.old) (parts_of body.new)
        (λ items. encode_range is_little_endian (items_column array.now) items.0 items.1) (encode_range is_little_endian array.now first count) }
    ensures items { IfOk result (λ items. items.0 + items.1 ≤ column_len (items_column array.now)) }
{
    array.whole();
    let _entries = array.field();
    let _maps = array.len();
    body.add_slots(array.validity(), first, count)?;
    add_spans(array.offsets(), first, count, body, is_little_endian)
}

/// The same of lists of one size.
pub(crate) fn begin_fixed_lists(
    array: &FixedSizeListArray,
    first: usize,
    count: usize,
    body: &mut Body,
    is_little_endian: bool,
) -> Result<(usize, usize)>
    requires { first + count ≤ column_len array.now }
    ensures begun { Begins result (parts_of body.old) (parts_of body.new)
        (λ items. encode_range is_little_endian (items_column array.now) items.0 items.1) (encode_range is_little_endian array.now first count) }
    ensures items { IfOk result (λ items. items.0 + items.1 ≤ column_len (items_column array.now)) }
{
    array.whole();
    let size = array.size();
    let _items = array.values().len();
    body.add_slots(array.validity(), first, count)?;
    Ok((size * first, size * count))
}

/// Adds the own part of the `count` structs from struct `first` on.
pub(crate) fn begin_structs(
    array: &StructArray,
    first: usize,
    count: usize,
    body: &mut Body,
    is_little_endian: bool,
) -> Result<()>
    requires { first + count ≤ column_len array.now }
    ensures begun { Begins result (parts_of body.old) (parts_of body.new)
        (λ answer. joined_columns (encode_ranges is_little_endian (column_children array.now) first count))
        (encode_range is_little_endian array.now first count) }
    ensures fields { HaveRange (column_children array.now) first count }
{
    array.whole();
    let _fields = array.values();
    body.add_slots(array.validity(), first, count)
}

/// Adds the buffers of the `count` slots from slot `first` on of a union: the ids, and of a dense one the places. Answers which slots of its
/// children come behind them: all of a dense union's.
pub(crate) fn add_union_buffers(
    array: &UnionArray,
    first: usize,
    count: usize,
    body: &mut Body,
    is_little_endian: bool,
) -> Result<Part>
    requires { first + count ≤ column_len array.now }
    ensures begun { Begins result (parts_of body.old) (parts_of body.new)
        (λ part. joined_columns (encode_parts is_little_endian (column_children array.now) part))
        (behind_node (encode_range is_little_endian array.now first count)) }
    ensures fields { IfOk result (λ part. HaveParts (column_children array.now) part) }
{
    array.whole();
    let _fields = array.fields();
    let _slots = array.len();
    let ids = &array.types().as_slice()[first..first + count];
    body.add_numbers(ids, is_little_endian)?;
    match array.offsets() {
        Some(offsets) => {
            body.add_numbers(&offsets.as_slice()[first..first + count], is_little_endian)?;
            Ok(Part::All)
        }
        None => Ok(Part::Range(first, count)),
    }
}

/// Adds the own part of the `count` slots from slot `first` on of a union.
pub(crate) fn begin_unions(
    array: &UnionArray,
    first: usize,
    count: usize,
    body: &mut Body,
    is_little_endian: bool,
) -> Result<Part>
    requires { first + count ≤ column_len array.now }
    ensures begun { Begins result (parts_of body.old) (parts_of body.new)
        (λ part. joined_columns (encode_parts is_little_endian (column_children array.now) part))
        (encode_range is_little_endian array.now first count) }
    ensures fields { IfOk result (λ part. HaveParts (column_children array.now) part) }
{
    let _fields = array.fields();
    body.add_node(count, 0)?;
    add_union_buffers(array, first, count, body, is_little_endian)
}
