//! Rows that are pushed: each cell stands behind those of its column.
ghost use Rattle.std.specs.Prelude.{◌≡◌, ◌≤◌, ◌<◌, ℕ, get_or, length, map};
ghost use Rattle.tables_rows.specs.Columns.{AreLong, PushesAt, PushesEach};
ghost use Rattle.nested_arrays_cells.specs.parts.Open.{Open};
ghost use Rattle.nested_arrays_cells.specs.parts.Scalars.{scalar_slot};

use crate::columns::{keep_first, lower_fault};
use nested_arrays_cells::{AnyMutableArray, AnyScalar};
use tables_chunks::Fault;

/// Pushes a cell to the column at a place, or else keeps the first `held` slots of the columns before it alone.
fn push_at(
    columns: &mut Vec<AnyMutableArray>,
    place: usize,
    held: usize,
    cell: &AnyScalar,
) -> Result<(), Fault>
    requires within { place < length columns.old.items }
    requires long { (k : ℕ) (d : Open) → k < place → held ≤ length (get_or columns.old.items k d).slots }
    ensures { PushesAt columns.old.items place held (scalar_slot cell.now) columns.new.items result }
{
    match columns[place].try_push_scalar(cell) {
        Ok(()) => Ok(()),
        Err(error) => {
            keep_first(columns, place, held);
            Err(lower_fault(error))
        }
    }
}

/// Pushes a cell to each column, of which each has `held` slots, or changes nothing.
pub(crate) fn push_each(
    columns: &mut Vec<AnyMutableArray>,
    held: usize,
    row: &[AnyScalar],
) -> Result<(), Fault>
    requires even { AreLong held columns.old.items }
    requires wide { length row.now ≡ length columns.old.items }
    ensures { PushesEach columns.old.items (map scalar_slot row.now) columns.new.items result }
{
    let count = columns.len();
    for place in 0..count {
        push_at(columns, place, held, &row[place])?;
    }
    Ok(())
}
