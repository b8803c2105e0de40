//! Lists of given lengths, closed one after another.
ghost use Rattle.nested_arrays_nulls.specs.columns.StoredColumns.{column_len};
ghost use Rattle.nested_arrays_generic_builders.specs.ListBuilders.{AddsLength, AddsLengths, ClosesLists};

use crate::lists::{MutableListArray, push_list};
use nested_arrays_cells::parts::Marks;
use nested_arrays_cells::taken::MutableArray;
use nested_arrays_nulls::columnar_memory::{Error, Offset, Offsets, Result};

impl<O: Offset, M: MutableArray> MutableListArray<O, M> {
    /// Closes lists of these lengths, one after another, over the items that stand behind those of the lists before; a null takes none. The lists
    /// before one that is refused stay.
    ///
    /// # Errors
    /// `Overflow`: there are as many lists as a column may have, fewer items than a list ends at, or its end is more than an offset may number.
    /// `OutOfMemory`: an offset or a mark found no memory.
    pub fn try_extend_from_lengths(&mut self, lengths: &[Option<usize>]) -> Result<()>
        ensures { ClosesLists O.greatest (column_len (M.column self.old.values)) self.old lengths.now self.new result }
    {
        let held = self.values.len();
        push_lists(&mut self.marks, &mut self.offsets, held, lengths)
    }
}

/// Adds a mark and a span of each length behind the others, until one is refused: those before it stay.
fn push_lists<O: Offset>(
    marks: &mut Marks,
    offsets: &mut Offsets<O>,
    held: usize,
    lengths: &[Option<usize>],
) -> Result<()>
    ensures { AddsLengths O.greatest held marks.old offsets.old lengths.now marks.new offsets.new result }
{
    for length in lengths {
        match push_length(marks, offsets, held, *length) {
            Ok(()) => {}
            Err(error) => return Err(error),
        }
    }
    Ok(())
}

/// Adds a mark and a span of a length behind the others where so many items are held, or changes nothing.
fn push_length<O: Offset>(
    marks: &mut Marks,
    offsets: &mut Offsets<O>,
    held: usize,
    length: Option<usize>,
) -> Result<()>
    ensures { AddsLength O.greatest held marks.old offsets.old length marks.new offsets.new result }
{
    let count = length.unwrap_or(0);
    match offsets.last().to_usize().checked_add(count) {
        Some(end) if end <= held => push_list(marks, offsets, length.is_some(), count),
        _ => Err(Error::Overflow),
    }
}
