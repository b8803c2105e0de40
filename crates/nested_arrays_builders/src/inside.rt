//! Cells inside a cell, by their places.
ghost use Rattle.std.specs.Prelude.{◌≡◌, ◌<◌, length, true, slice_index_or};
ghost use Rattle.nested_arrays_builder_values.specs.parts.arrays.columns.Children.{field_of, fixed_items_of, items_of};
ghost use Rattle.nested_arrays_builder_values.specs.parts.arrays.columns.Slots.{null};
ghost use Rattle.nested_arrays_builder_values.specs.parts.Scalars.{scalar_slot};
ghost use Rattle.nested_arrays_builder_values.specs.parts.columns.OpenParts.{is_list, is_list_sized, is_record_sized};

use nested_arrays_scalars::AnyScalar;

/// How many items a list has, and a null none.
pub(crate) fn item_count(cell: &AnyScalar) -> usize
    requires { is_list (scalar_slot cell.now) ≡ true }
    ensures { result ≡ length (items_of (scalar_slot cell.now)) }
{
    match cell {
        AnyScalar::List(cells) => cells.len(),
        _ => 0,
    }
}

/// An item of a list of so many; of a null the null itself.
pub(crate) fn item_in(cell: &AnyScalar, count: usize, place: usize) -> &AnyScalar
    requires sized { is_list_sized count (scalar_slot cell.now) ≡ true }
    requires within { place < count }
    ensures { scalar_slot result.now ≡ slice_index_or (fixed_items_of count (scalar_slot cell.now)) place null }
{
    match cell {
        AnyScalar::List(cells) => &cells.as_slice()[place],
        _ => cell,
    }
}

/// A field of a record of so many; of a null the null itself.
pub(crate) fn field_in(cell: &AnyScalar, count: usize, place: usize) -> &AnyScalar
    requires sized { is_record_sized count (scalar_slot cell.now) ≡ true }
    requires within { place < count }
    ensures { scalar_slot result.now ≡ field_of place (scalar_slot cell.now) }
{
    match cell {
        AnyScalar::Record(cells) => &cells.as_slice()[place],
        _ => cell,
    }
}
