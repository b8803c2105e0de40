//! Lists that are pushed: their items stand behind those of the others.
ghost use Rattle.std.specs.Prelude.{◌≡◌, ◌*◌, ◌≤◌, length, true};
ghost use Rattle.nested_arrays_builder_values.specs.parts.arrays.columnar_memory.Spans.{last_of};
ghost use Rattle.nested_arrays_builder_values.specs.parts.arrays.columns.Cells.{fits_cell, is_list_of, is_list_of_size};
ghost use Rattle.nested_arrays_builder_values.specs.parts.arrays.columns.Children.{fixed_items_of};
ghost use Rattle.nested_arrays_builder_values.specs.parts.Open.{first_slots};
ghost use Rattle.nested_arrays_builder_values.specs.parts.Scalars.{scalar_slot};
ghost use Rattle.nested_arrays_builders.specs.Parts.{first_parts, listed, sized, AddsSlot, PushesAll, PushesSome};
ghost use Rattle.nested_arrays_builders.specs.Widths.{is_large, spans_in, AddsList};

use crate::any::AnyMutableArray;
use crate::inside::{item_count, item_in};
use crate::offsets::MutableListOffsets;
use nested_arrays_builder_values::parts::columnar_memory::Result;
use nested_arrays_builder_values::parts::{Marks, is_null};
use nested_arrays_scalars::AnyScalar;

/// Keeps the first `len` lists alone, and their items.
#[cycle(truncating)]
pub(crate) fn truncate_list(
    offsets: &mut MutableListOffsets,
    values: &mut AnyMutableArray,
    len: usize,
)
    requires lists { len ≤ length (spans_in offsets.old).lengths }
    requires items { last_of (spans_in offsets.old) ≡ length values.old.slots }
    ensures { listed (is_large offsets.new) (spans_in offsets.new) values.new
        ≡ first_parts (listed (is_large offsets.old) (spans_in offsets.old) values.old) len }
{
    let items = offsets.truncate(len);
    values.truncate(items);
}

/// Keeps the items of the first `len` lists of one size alone.
#[cycle(truncating)]
pub(crate) fn truncate_sized(size: usize, values: &mut AnyMutableArray, len: usize)
    requires { size * len ≤ length values.old.slots }
    ensures { values.new ≡ first_slots values.old (size * len) }
{
    let _held = values.len();
    values.truncate(size * len);
}

/// Pushes so many items of a list, or nulls of a null, up to the first that is refused.
#[cycle(pushing)]
fn push_some(values: &mut AnyMutableArray, count: usize, cell: &AnyScalar) -> Result<()>
    requires { is_list_of_size count (fits_cell values.old.data_type) (scalar_slot cell.now) ≡ true }
    ensures { PushesSome values.old (fixed_items_of count (scalar_slot cell.now)) values.new result }
{
    for place in 0..count {
        values.push(item_in(cell, count, place))?;
    }
    Ok(())
}

/// Pushes so many items of a list, or nulls of a null, or changes nothing.
#[cycle(pushing)]
pub(crate) fn push_all(values: &mut AnyMutableArray, count: usize, cell: &AnyScalar) -> Result<()>
    requires { is_list_of_size count (fits_cell values.old.data_type) (scalar_slot cell.now) ≡ true }
    ensures { PushesAll values.old (fixed_items_of count (scalar_slot cell.now)) values.new result }
{
    let held = values.len();
    match push_some(values, count, cell) {
        Ok(()) => {
            values.whole();
            Ok(())
        }
        Err(error) => {
            values.truncate(held);
            Err(error)
        }
    }
}

/// Adds a list to lists of any length.
#[cycle(pushing)]
pub(crate) fn push_list(
    marks: &mut Marks,
    offsets: &mut MutableListOffsets,
    values: &mut AnyMutableArray,
    cell: &AnyScalar,
) -> Result<()>
    requires lists { length (spans_in offsets.old).lengths ≡ length marks.old }
    requires items { last_of (spans_in offsets.old) ≡ length values.old.slots }
    requires takes { is_list_of (fits_cell values.old.data_type) (scalar_slot cell.now) ≡ true }
    ensures { AddsSlot marks.old (listed (is_large offsets.old) (spans_in offsets.old) values.old) (scalar_slot cell.now) marks.new
        (listed (is_large offsets.new) (spans_in offsets.new) values.new) result }
{
    let held = values.len();
    let count = item_count(cell);
    push_all(values, count, cell)?;
    match add_list(marks, offsets, count, !is_null(cell)) {
        Ok(()) => Ok(()),
        Err(error) => {
            values.truncate(held);
            Err(error)
        }
    }
}

/// Adds the offset and the mark of a list.
fn add_list(
    marks: &mut Marks,
    offsets: &mut MutableListOffsets,
    count: usize,
    mark: bool,
) -> Result<()>
    requires { length (spans_in offsets.old).lengths ≡ length marks.old }
    ensures { AddsList marks.old (is_large offsets.old) (spans_in offsets.old) count mark marks.new (is_large offsets.new)
        (spans_in offsets.new) result }
{
    let held = marks.len();
    offsets.try_push(count)?;
    match marks.push(mark) {
        Ok(()) => Ok(()),
        Err(error) => {
            offsets.truncate(held);
            Err(error)
        }
    }
}

/// Adds a list to lists of one size.
#[cycle(pushing)]
pub(crate) fn push_sized(
    marks: &mut Marks,
    size: usize,
    values: &mut AnyMutableArray,
    cell: &AnyScalar,
) -> Result<()>
    requires { is_list_of_size size (fits_cell values.old.data_type) (scalar_slot cell.now) ≡ true }
    ensures { AddsSlot marks.old (sized size values.old) (scalar_slot cell.now) marks.new (sized size values.new) result }
{
    let held = values.len();
    push_all(values, size, cell)?;
    match marks.push(!is_null(cell)) {
        Ok(()) => Ok(()),
        Err(error) => {
            values.truncate(held);
            Err(error)
        }
    }
}
