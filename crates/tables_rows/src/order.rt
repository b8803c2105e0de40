//! Columns in the order in which they stand, and where each goes that was asked for.
ghost use Rattle.std.specs.Prelude.{◌≡◌, Contains, IfOk, Some, slice_get, true};
ghost use Rattle.std.specs.List.Sorted.{IsNonDecreasing};
ghost use Rattle.tables_chunks.specs.Choices.{are_below, are_distinct};
ghost use Rattle.tables_rows.specs.Orders.{IsOrder, asked};
ghost use Rattle.tables_rows.specs.SortedColumns.{AreSorted};

use std::alloc::{AllocError, Global};

/// Columns that are asked for in any order.
#[derive(Drop)]
pub(crate) struct Order {
    /// The columns in the order in which they stand.
    pub rising: Vec<usize>,
    /// For each column that is asked for, in the asked order, its place among those that rise.
    pub places: Vec<usize>,
}

/// Columns in the order in which they stand.
fn rising_of(alloc: Global, columns: &[usize]) -> Result<Vec<usize>, AllocError>
    ensures { IfOk result (λ rising. AreSorted columns.now rising.items) }
{
    let mut rising = Vec::new(alloc);
    rising.extend_from_slice(columns)?;
    rising.sort_unstable();
    Ok(rising)
}

/// The place of a column that stands among others, which don't fall.
fn place_of(rising: &[usize], column: usize) -> usize
    requires rise { IsNonDecreasing rising.now }
    requires there { Contains rising.now column }
    ensures { slice_get rising.now result ≡ Some column }
{
    match rising.binary_search(&column) {
        Ok(place) => place,
        Err(place) => place,
    }
}

/// The order of columns, none of which is named twice.
pub(crate) fn order_of(alloc: Global, width: usize, columns: &[usize]) -> Result<Order, AllocError>
    requires distinct { are_distinct columns.now ≡ true }
    requires below { are_below width columns.now ≡ true }
    ensures order { IfOk result (IsOrder width) }
    ensures asked { IfOk result (λ order. asked order ≡ columns.now) }
{
    let rising = rising_of(alloc, columns)?;
    let mut places = Vec::new(alloc);
    for column in columns {
        places.push(place_of(rising.as_slice(), *column))?;
    }
    Ok(Order { rising, places })
}
