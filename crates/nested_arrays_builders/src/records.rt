//! Records that are pushed: each field stands behind those of the others.
ghost use Rattle.std.specs.Prelude.{◌≡◌, length, map, true, All};
ghost use Rattle.nested_arrays_builder_values.specs.parts.arrays.columns.Cells.{fits_cell, is_record_of};
ghost use Rattle.nested_arrays_builder_values.specs.parts.Scalars.{scalar_slot};
ghost use Rattle.nested_arrays_builder_values.specs.parts.columns.OpenParts.{fields_of_slot};
ghost use Rattle.nested_arrays_builders.specs.Parts.{of_fields, tests_of, AddsSlot, PushesEach, PushesFirst};

use crate::any::AnyMutableArray;
use crate::children::truncate_each;
use crate::inside::field_in;
use nested_arrays_builder_values::parts::columnar_memory::Result;
use nested_arrays_builder_values::parts::{Marks, is_null};
use nested_arrays_scalars::AnyScalar;

/// Pushes each field of a record, or a null of a null, up to the first that is refused.
#[cycle(pushing)]
fn push_first(children: &mut Vec<AnyMutableArray>, cell: &AnyScalar) -> Result<()>
    requires { is_record_of (tests_of children.old.items) (scalar_slot cell.now) ≡ true }
    ensures { PushesFirst children.old.items (fields_of_slot (length children.old.items) (scalar_slot cell.now)) children.new.items result }
{
    let count = children.len();
    for place in 0..count {
        children[place].push(field_in(cell, count, place))?;
    }
    Ok(())
}

/// Pushes each field of a record, or a null of a null, or changes nothing.
#[cycle(pushing)]
fn push_each(children: &mut Vec<AnyMutableArray>, held: usize, cell: &AnyScalar) -> Result<()>
    requires held { All (λ o. length o.slots ≡ held) children.old.items }
    requires takes { is_record_of (tests_of children.old.items) (scalar_slot cell.now) ≡ true }
    ensures { PushesEach children.old.items (fields_of_slot (length children.old.items) (scalar_slot cell.now)) children.new.items result }
{
    match push_first(children, cell) {
        Ok(()) => Ok(()),
        Err(error) => {
            truncate_each(children, held);
            Err(error)
        }
    }
}

/// Adds a record to structs.
#[cycle(pushing)]
pub(crate) fn push_record(
    marks: &mut Marks,
    children: &mut Vec<AnyMutableArray>,
    cell: &AnyScalar,
) -> Result<()>
    requires held { All (λ o. length o.slots ≡ length marks.old) children.old.items }
    requires takes { is_record_of (tests_of children.old.items) (scalar_slot cell.now) ≡ true }
    ensures { AddsSlot marks.old (of_fields children.old.items) (scalar_slot cell.now) marks.new (of_fields children.new.items) result }
{
    let held = marks.len();
    push_each(children, held, cell)?;
    match marks.push(!is_null(cell)) {
        Ok(()) => Ok(()),
        Err(error) => {
            truncate_each(children, held);
            Err(error)
        }
    }
}
