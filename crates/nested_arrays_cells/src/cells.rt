//! Cells of the slots of arrays of any type.
ghost use Rattle.std.specs.Prelude.{◌≡◌, ◌+◌, ◌<◌, ◌≤◌};
ghost use Rattle.std.specs.List.{list_all};
ghost use Rattle.nested_arrays_builder_arrays.specs.arrays.columns.Slots.{fields, in_slots, items, window};
ghost use Rattle.nested_arrays_builder_arrays.specs.arrays.columns.StoredColumns.{column_len, column_type, in_columns, slot_at, slots_at};
ghost use Rattle.nested_arrays_builder_arrays.specs.arrays.Places.{HavePlace};
ghost use Rattle.nested_arrays_cells.specs.ArrayCells.{has_cell, has_cell_at, IsCellAt, IsCellOf};

use crate::flats::flat_cell;
use crate::inside::{fixed_items, list_items, map_cell, named_value, record_fields, union_cell};
use columnar_memory_types::Items;
use nested_arrays_builder_arrays::arrays::columnar_memory::Result;
use nested_arrays_builder_arrays::arrays::parts::{FlatArray, holds_values};
use nested_arrays_builder_arrays::arrays::{AnyArray, Node};
use nested_arrays_scalars::AnyScalar;
use std::alloc::Global;

/// The cell of the slot at a place of an array without children.
fn values_cell(alloc: Global, array: &FlatArray, place: usize) -> Result<Option<AnyScalar>>
    requires { place < column_len array.now }
    ensures { IsCellAt array.now place result }
{
    array.whole();
    holds_values(array);
    Ok(Some(flat_cell(alloc, array, place)?))
}

/// The cell of the slot at a place of an array of any type, and none where the slot is no cell: that of a map which is not null, that of a union,
/// and those that have such a slot inside them. The cell of a dictionary's slot is that of the value which its key names.
///
/// # Errors
/// `OutOfMemory`: a text, bytes or cells inside the cell found no memory.
#[cycle(reading)]
pub fn cell_at(alloc: Global, array: &AnyArray, place: usize) -> Result<Option<AnyScalar>>
    requires { place < column_len array.now }
    ensures { IsCellAt array.now place result }
{
    match &array.node {
        Node::Flat(values) => values_cell(alloc, values, place),
        Node::List(node) => match list_items(node, place) {
            Some((values, start, len)) => list_cell(alloc, values, start, len),
            None => Ok(Some(AnyScalar::Null)),
        },
        Node::FixedSizeList(array) => match fixed_items(array, place) {
            Some((values, start, len)) => list_cell(alloc, values, start, len),
            None => Ok(Some(AnyScalar::Null)),
        },
        Node::Struct(array) => match record_fields(array, place) {
            Some(fields) => record_cell(alloc, fields, place),
            None => Ok(Some(AnyScalar::Null)),
        },
        Node::Map(array) => Ok(map_cell(array, place)),
        Node::Union(array) => Ok(union_cell(array, place)),
        Node::Dictionary(node) => match named_value(node, place) {
            Some((values, place)) => cell_at(alloc, values, place),
            None => Ok(Some(AnyScalar::Null)),
        },
    }
}

/// The cell of a list of so many slots of an array from a place on.
#[cycle(reading)]
fn list_cell(alloc: Global, array: &AnyArray, start: usize, len: usize) -> Result<Option<AnyScalar>>
    requires { start + len ≤ column_len array.now }
    ensures { IsCellOf (list_all (has_cell (column_type array.now)) (window (slot_at array.now) start len))
        (items (in_slots (window (slot_at array.now) start len))) result }
{
    let _slots = array.len();
    let mut cells = Items::new(alloc);
    for k in 0..len {
        match cell_at(alloc, array, start + k)? {
            Some(cell) => cells.push(cell)?,
            None => return Ok(None),
        }
    }
    Ok(Some(AnyScalar::List(cells)))
}

/// The cell of a record of the slots at a place of several arrays.
#[cycle(reading)]
fn record_cell(alloc: Global, arrays: &[AnyArray], place: usize) -> Result<Option<AnyScalar>>
    requires { HavePlace (in_columns arrays.now) place }
    ensures { IsCellOf (list_all (has_cell_at place) arrays.now) (fields (slots_at (in_columns arrays.now) place)) result }
{
    let mut cells = Items::new(alloc);
    for k in 0..arrays.len() {
        match cell_at(alloc, &arrays[k], place)? {
            Some(cell) => cells.push(cell)?,
            None => return Ok(None),
        }
    }
    Ok(Some(AnyScalar::Record(cells)))
}
