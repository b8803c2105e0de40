//! Open columns: one for each field of a schema.
ghost use Rattle.std.specs.Prelude.{◌≡◌, ◌≤◌, ◌<◌, ℕ, get_or, length, true};
ghost use Rattle.tables_rows.specs.Columns.{are_fitting, cut_back, lowered, open_count};
ghost use Rattle.nested_arrays_cells.specs.parts.Open.{Open};

use columnar_memory_types::Error;
use nested_arrays_cells::AnyMutableArray;
use tables_chunks::Fault;

/// What a column refused, as a fault.
pub(crate) fn lower_fault(error: Error) -> Fault
    ensures { result ≡ lowered error }
{
    match error {
        Error::OutOfMemory => Fault::Memory,
        other => Fault::Lower(other),
    }
}

/// How many slots the first column has, and none without a column.
pub(crate) fn count_of(columns: &[AnyMutableArray]) -> usize
    ensures { result ≡ open_count columns.now }
{
    match columns.first() {
        Some(column) => column.len(),
        None => 0,
    }
}

/// Keeps the first `held` slots of the first `count` columns alone.
pub(crate) fn keep_first(columns: &mut Vec<AnyMutableArray>, count: usize, held: usize)
    requires within { count ≤ length columns.old.items }
    requires long { (k : ℕ) (d : Open) → k < count → held ≤ length (get_or columns.old.items k d).slots }
    ensures { columns.new.items ≡ cut_back count held columns.old.items }
{
    for place in 0..count {
        columns[place].truncate(held);
    }
}

/// Hands to a proof that the slots of each column fit its type, and that slots of the type are stored as they come.
pub(crate) fn are_whole(columns: &[AnyMutableArray])
    ensures { are_fitting columns.now ≡ true }
{
    for column in columns {
        column.whole();
    }
}
