//! Marks of lists of which some were not closed, joined.
ghost use Rattle.std.specs.Prelude.{◌≡◌, ◌+◌, ◌++◌, ◌<◌, ◌≤◌, false, length, slice_index_or, MatchResult};
ghost use Rattle.nested_arrays_generic_builders.specs.nulls.columnar_memory.Error.{IsOutOfMemory};
ghost use Rattle.nested_arrays_generic_builders.specs.nulls.columns.Kinds.{most_slots};
ghost use Rattle.nested_arrays_sized_builders.specs.FixedListBuilders.{missing_and, JoinsFilled};

use crate::nulls_alone::MOST_SLOTS;
use nested_arrays_generic_builders::cells::parts::Marks;
use nested_arrays_generic_builders::nulls::columnar_memory::{Error, Result};

/// Fills marks of values up to those of so many lists, and adds those of so many lists of another builder behind them; or changes nothing.
pub(crate) fn join_filled(marks: &mut Marks, lists: usize, more: &Marks, count: usize) -> Result<()>
    requires { length marks.old ≤ lists }
    ensures { JoinsFilled marks.old lists more.now count marks.new result }
{
    if lists > MOST_SLOTS {
        return Err(Error::Overflow);
    }
    if count > MOST_SLOTS - lists {
        return Err(Error::Overflow);
    }
    let missing = lists - marks.len();
    push_filled(marks, missing, more, count)
}

/// Adds so many marks of values, and behind them those of so many lists; or changes nothing.
fn push_filled(marks: &mut Marks, missing: usize, more: &Marks, count: usize) -> Result<()>
    requires { missing + count ≤ most_slots }
    ensures { MatchResult result (λ _. marks.new ≡ marks.old ++ missing_and missing more.now count)
        (λ e. (marks.new ≡ marks.old) × IsOutOfMemory e) }
{
    let held = marks.len();
    for i in 0..missing + count {
        match marks.push(filled_mark(missing, more, count, i)) {
            Ok(()) => {}
            Err(_) => {
                marks.truncate(held);
                return Err(Error::OutOfMemory);
            }
        }
    }
    Ok(())
}

/// One of so many marks of values, or of those of so many lists behind them: a list that was not closed has a value.
fn filled_mark(missing: usize, more: &Marks, _count: usize, place: usize) -> bool
    requires { place < missing + _count }
    ensures { slice_index_or (missing_and missing more.now _count) place false ≡ result }
{
    if place < missing {
        return true;
    }
    let own = place - missing;
    if own < more.len() {
        return more.is_valid(own);
    }
    true
}
