//! Whether two tables are the same.
ghost use Rattle.std.specs.Prelude.{◌≡◌, ◌+◌, ◌<◌, ◌≤◌, ◌↔◌, IsTrue, IfOk, [], length, slice_index_or, true};
ghost use Rattle.tables_chunks.specs.Batches.{batch_len, is_batch, stored_rows};
ghost use Rattle.tables_chunks.specs.SameRows.{AreAlike, IsPlace, TellsSame, have_rows, nodes_in, rows_behind, rows_from, table_nodes};

use crate::batches::len_of;
use crate::fault::Fault;
use crate::table::{Table, has_schema_of};
use ipc_format::Chunk;
use ipc_format::columnar_memory::Steps;
use ipc_format::nested_arrays_core::{AnyArray, same_slot_ranges};

impl Table {
    /// Whether two tables have one schema and the same rows, however these are divided into batches: as `same_slots` compares slots, so a
    /// value under a null is not seen, and a dictionary's slots are the values that its keys name. It takes no memory, and is never refused.
    pub fn same(left: &Table, right: &Table) -> Result<bool, Fault>
        ensures { TellsSame left.now right.now result }
    {
        Table::same_counted(left, right, &mut Steps::new())
    }

    /// As `same`. A step is ticked for each pair of slots that is compared, at every depth: no more than the left table has, and as many where
    /// the tables are the same.
    pub fn same_counted(left: &Table, right: &Table, steps: &mut Steps) -> Result<bool, Fault>
        ensures same { TellsSame left.now right.now result }
        ensures counted { steps.new.count ≤ steps.old.count + table_nodes left.now }
        ensures used { IfOk result (λ answer. IsTrue answer → steps.new.count ≡ steps.old.count + table_nodes left.now) }
    {
        left.whole();
        right.whole();
        if !has_schema_of(left, right) {
            return Ok(false);
        }
        if left.rows() != right.rows() {
            return Ok(false);
        }
        Ok(same_rows(left.batches(), right.batches(), steps))
    }
}

/// A row of some batches: which of the batches, and which of its rows.
#[derive(Clone, Copy, Drop)]
struct Place {
    batch: usize,
    row: usize,
}

/// The place so many rows on in a batch, or where these are its last, the first row of the next.
fn behind(batches: &[Chunk<AnyArray>], place: Place, count: usize) -> Place
    requires inside { place.batch < length batches.now }
    requires whole { is_batch (slice_index_or batches.now place.batch []) ≡ true }
    requires within { place.row + count ≤ batch_len (slice_index_or batches.now place.batch []) }
    ensures rows { rows_behind batches.now result.batch result.row ≡ rows_behind batches.now place.batch (place.row + count) }
    ensures place { IsPlace batches.now result.batch result.row }
    ensures stays { place.batch ≤ result.batch }
    ensures turns { place.row + count ≡ batch_len (slice_index_or batches.now place.batch []) → result.batch ≡ place.batch + 1 }
{
    let rows = len_of(&batches[place.batch]);
    let row = place.row + count;
    if row == rows {
        return Place {
            batch: place.batch + 1,
            row: 0,
        };
    }
    Place {
        batch: place.batch,
        row,
    }
}

/// Whether batches have the rows of others with as many: window by window, each as long as the shorter of what two batches have left.
fn same_rows(left: &[Chunk<AnyArray>], right: &[Chunk<AnyArray>], steps: &mut Steps) -> bool
    requires { AreAlike left.now right.now }
    ensures same { IsTrue result ↔ (stored_rows left.now ≡ stored_rows right.now) }
    ensures counted { steps.new.count ≤ steps.old.count + nodes_in (stored_rows left.now) }
    ensures used { IsTrue result → steps.new.count ≡ steps.old.count + nodes_in (stored_rows left.now) }
{
    let mut here = Place { batch: 0, row: 0 };
    let mut there = Place { batch: 0, row: 0 };
    while here.batch < left.len() && there.batch < right.len() {
        let one = &left[here.batch];
        let other = &right[there.batch];
        let count = (len_of(one) - here.row).min(len_of(other) - there.row);
        if !same_windows(
            one.arrays(),
            here.row,
            other.arrays(),
            there.row,
            count,
            steps,
        ) {
            return false;
        }
        here = behind(left, here, count);
        there = behind(right, there, count);
    }
    true
}

/// Whether `count` rows of some columns from row `i` on are those of others from row `j` on.
fn same_windows(
    left: &[AnyArray],
    i: usize,
    right: &[AnyArray],
    j: usize,
    count: usize,
    steps: &mut Steps,
) -> bool
    requires widths { length left.now ≡ length right.now }
    requires left_within { have_rows (i + count) left.now ≡ true }
    requires right_within { have_rows (j + count) right.now ≡ true }
    ensures same { IsTrue result ↔ (rows_from left.now i count ≡ rows_from right.now j count) }
    ensures counted { steps.new.count ≤ steps.old.count + nodes_in (rows_from left.now i count) }
    ensures used { IsTrue result → steps.new.count ≡ steps.old.count + nodes_in (rows_from left.now i count) }
{
    for (k, array) in left.iter().enumerate() {
        if !same_slot_ranges(array, i, &right[k], j, count, steps) {
            return false;
        }
    }
    true
}
