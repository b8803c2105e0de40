//! Dictionaries that are pushed: a value that is new stands behind the others, and each slot names its own.
ghost use Rattle.std.specs.Prelude.{◌≡◌, ◌≤◌, length, false, true};
ghost use Rattle.nested_arrays_builder_values.specs.Uses.{greatest};
ghost use Rattle.nested_arrays_builder_values.specs.parts.arrays.columns.Cells.{fits_cell, is_null};
ghost use Rattle.nested_arrays_builder_values.specs.parts.arrays.columns.SameSlots.{are_distinct, is_among};
ghost use Rattle.nested_arrays_builder_values.specs.parts.Scalars.{scalar_slot};
ghost use Rattle.nested_arrays_builders.specs.Keyed.{LearnsSlot};
ghost use Rattle.nested_arrays_builders.specs.Parts.{first_parts, keyed, AddsSlot};

use crate::any::AnyMutableArray;
use nested_arrays_builder_values::columnar_memory::Result;
use nested_arrays_builder_values::parts::{Marks, is_null};
use nested_arrays_builder_values::{CellMap, MutableKeys, add_use, learn, most_values_of, needed};
use nested_arrays_scalars::AnyScalar;

/// Keeps what the first `len` slots name alone.
#[cycle(truncating)]
pub(crate) fn truncate_keyed(keys: &mut MutableKeys, values: &mut AnyMutableArray, len: usize)
    requires slots { len ≤ length keys.old.uses }
    requires named { greatest keys.old.uses ≡ length values.old.slots }
    requires known { keys.old.known ≡ values.old.slots }
    ensures { keyed keys.new.key keys.new.uses keys.new.known values.new
        ≡ first_parts (keyed keys.old.key keys.old.uses keys.old.known values.old) len }
{
    let named = keys.uses.truncate(len);
    keys.known.truncate(named);
    values.truncate(named);
}

/// Adds a value where the keys tell one more apart, or changes nothing.
#[cycle(pushing)]
fn learn_slot(
    most: usize,
    known: &mut CellMap,
    values: &mut AnyMutableArray,
    cell: &AnyScalar,
) -> Result<()>
    requires { fits_cell values.old.data_type (scalar_slot cell.now) ≡ true }
    ensures { LearnsSlot most known.old values.old (scalar_slot cell.now) known.new values.new result }
{
    let held = known.len();
    learn(most, known, cell)?;
    match values.push(cell) {
        Ok(()) => Ok(()),
        Err(error) => {
            known.truncate(held);
            Err(error)
        }
    }
}

/// Adds a slot whose value is new to a dictionary.
#[cycle(pushing)]
fn push_new(
    marks: &mut Marks,
    keys: &mut MutableKeys,
    values: &mut AnyMutableArray,
    cell: &AnyScalar,
) -> Result<()>
    requires known { keys.old.known ≡ values.old.slots }
    requires takes { fits_cell values.old.data_type (scalar_slot cell.now) ≡ true }
    requires some { is_null (scalar_slot cell.now) ≡ false }
    requires new { is_among (scalar_slot cell.now) keys.old.known ≡ false }
    ensures { AddsSlot marks.old (keyed keys.old.key keys.old.uses keys.old.known values.old) (scalar_slot cell.now) marks.new
        (keyed keys.new.key keys.new.uses keys.new.known values.new) result }
{
    let held = keys.known.len();
    learn_slot(most_values_of(keys.key), &mut keys.known, values, cell)?;
    let need = keys.known.len();
    match add_use(marks, &mut keys.uses, true, need) {
        Ok(()) => Ok(()),
        Err(error) => {
            keys.known.truncate(held);
            values.truncate(held);
            Err(error)
        }
    }
}

/// Adds a slot to a dictionary: a null, one of its values, or one more.
#[cycle(pushing)]
pub(crate) fn push_keyed(
    marks: &mut Marks,
    keys: &mut MutableKeys,
    values: &mut AnyMutableArray,
    cell: &AnyScalar,
) -> Result<()>
    requires known { keys.old.known ≡ values.old.slots }
    requires apart { are_distinct keys.old.known ≡ true }
    requires takes { fits_cell values.old.data_type (scalar_slot cell.now) ≡ true }
    ensures { AddsSlot marks.old (keyed keys.old.key keys.old.uses keys.old.known values.old) (scalar_slot cell.now) marks.new
        (keyed keys.new.key keys.new.uses keys.new.known values.new) result }
{
    match needed(&keys.known, cell) {
        Some(need) => add_use(marks, &mut keys.uses, !is_null(cell), need),
        None => push_new(marks, keys, values, cell),
    }
}
