//! A slot of an array pushed into a builder.
ghost use Rattle.std.specs.Prelude.{◌<◌};
ghost use Rattle.nested_arrays_cells.specs.ArrayCells.{has_cell_at};
ghost use Rattle.nested_arrays_builder_arrays.specs.arrays.columns.StoredColumns.{column_len, slot_at};
ghost use Rattle.nested_arrays_builder_arrays.specs.parts.Open.{IsPushed, Open};
ghost use Rattle.nested_arrays_builder_arrays.specs.parts.Scalars.{scalar_slot};
ghost use Rattle.nested_arrays_cells.specs.Pushes.{IsPushedIf};

use crate::cells::cell_at;
use nested_arrays_builder_arrays::MutableArray;
use nested_arrays_builder_arrays::arrays::AnyArray;
use nested_arrays_builder_arrays::arrays::columnar_memory::{Error, Result};
use nested_arrays_builder_arrays::builders::AnyMutableArray;
use nested_arrays_scalars::AnyScalar;
use std::alloc::Global;

/// Builders that take slots of arrays, of which a contract sees the open column: the data type, and the slots that were pushed. A push that is
/// refused changes nothing.
pub trait TryPushFrom: MutableArray {
    ghost open_column: { Self → Open };

    /// Pushes the cell of the slot at a place of an array.
    ///
    /// # Errors
    /// - `InvalidArgumentError`: the slot has no cell, as that of a map which is not null and that of a union, or the cell does not fit the type.
    /// - `Overflow`: the slots with this one are more than a column may have, at some depth, or their items or bytes than offsets may number, or
    ///   the values of a dictionary than its keys tell apart.
    /// - `OutOfMemory`: the cell or the slot found no memory.
    fn try_push_from(&mut self, alloc: Global, array: &AnyArray, place: usize) -> Result<()>
        requires { place < column_len array.now }
        ensures { IsPushedIf (has_cell_at place array.now) (open_column self.old) (slot_at array.now place) (open_column self.new)
            result };
}

impl TryPushFrom for AnyMutableArray {
    ghost open_column = { λ builder. builder };

    fn try_push_from(&mut self, alloc: Global, array: &AnyArray, place: usize) -> Result<()> {
        match cell_at(alloc, array, place)? {
            Some(cell) => push_cell(self, cell),
            None => Err(Error::InvalidArgumentError("a slot without a cell")),
        }
    }
}

/// Pushes a cell, which is let go.
fn push_cell(builder: &mut AnyMutableArray, cell: AnyScalar) -> Result<()>
    ensures { IsPushed builder.old (scalar_slot cell) builder.new result }
{
    let answer = builder.try_push_scalar(&cell);
    drop(cell);
    answer
}
