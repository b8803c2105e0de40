//! Builders of arrays without children.
ghost use Rattle.std.specs.Prelude.{◌≡◌, ◌<◌, ◌≤◌, [], length, MatchResult, IfErr, not, slice_index_or, true, option_copied};
ghost use Rattle.nested_arrays_core.specs.arrays.columnar_memory.Error.{IsOutOfMemory};
ghost use Rattle.nested_arrays_core.specs.arrays.columns.Cells.{is_null};
ghost use Rattle.nested_arrays_core.specs.arrays.columnar_memory.Results.{OrOutOfMemory};
ghost use Rattle.nested_arrays_core.specs.arrays.columns.FreshLaws.{is_buildable};
ghost use Rattle.nested_arrays_core.specs.arrays.columns.Slots.{null};
ghost use Rattle.nested_arrays_core.specs.arrays.columns.StoredColumns.{slots};
ghost use Rattle.nested_arrays_core.specs.arrays.flat.ColumnMasks.{column_mask};
ghost use Rattle.nested_arrays_builder_parts.specs.Growing.{HoldsAll};
ghost use Rattle.nested_arrays_builder_parts.specs.KeptValues.{kept_column, AreKeptAs, TakesSlot};
ghost use Rattle.nested_arrays_builder_parts.specs.NewValues.{IsNoGrowth};
ghost use Rattle.nested_arrays_builder_parts.specs.Open.{column_of, first_slots, opened, IsPushed, IsWithin};
ghost use Rattle.nested_arrays_builder_parts.specs.Scalars.{scalar_slot};

use crate::cells::is_null;
use crate::marks::Marks;
use crate::values::Values;
use nested_arrays_core::arrays::columnar_memory::{DataType, MutableBitmap, Result};
use nested_arrays_core::arrays::parts::FlatArray;
use nested_arrays_scalars::AnyScalar;
use std::alloc::Global;
use std::marker::Model;

/// Slots of a type without children, one behind another. A contract sees the open column: the data type, and the slots that were pushed,
/// which all fit.
///
/// A call that is refused changes nothing. Zeros or no bytes are stored for a null.
pub struct FlatBuilder {
    data_type: DataType,
    marks: Marks,
    values: Values,
}

impl Drop for FlatBuilder {
    fn drop(self) {
        let FlatBuilder {
            data_type: _,
            marks: _,
            values: _,
        } = self;
    }
}

impl Model for FlatBuilder {
    ghost use Rattle.nested_arrays_core.specs.arrays.columns.StoredColumns.{slots};
    ghost use Rattle.nested_arrays_builder_parts.specs.KeptValues.{kept_column, open_of, AreKeptAs};
    ghost use Rattle.nested_arrays_builder_parts.specs.Open.{Open, open_code};

    ghost Value = { Open };

    ghost coded = { open_code };

    ghost view = { λ it. open_of it.data_type it.marks it.values };

    ghost invariant = { λ it. AreKeptAs it.data_type it.marks it.values (slots (kept_column it.data_type it.marks it.values)) };
}

impl FlatBuilder {
    /// No slots of a data type without children.
    ///
    /// # Errors
    /// `NotYetImplemented`: the type is of floats.
    /// `InvalidArgumentError`: the type has children, or byte strings of no bytes.
    /// `OutOfMemory`: the first offset found no memory.
    pub fn new(alloc: Global, data_type: DataType) -> Result<Self>
        ensures { MatchResult result (λ builder. builder ≡ opened data_type []) (IsNoGrowth data_type) }
    {
        let values = Values::new(alloc, &data_type)?;
        Ok(FlatBuilder {
            data_type,
            marks: Marks::new(alloc),
            values,
        })
    }

    /// How many slots there are.
    pub fn len(&self) -> usize
        ensures { result ≡ length self.now.slots }
    {
        self.marks.len()
    }

    pub fn data_type(&self) -> &DataType
        ensures { result.now ≡ self.now.data_type }
    {
        &self.data_type
    }

    /// Hands to a proof that the slots fit the type, and that slots of the type are stored as they come.
    pub fn whole(&self)
        ensures within { IsWithin self.now }
        ensures stored { is_buildable self.now.data_type ≡ true }
    {
        let _data_type = &self.data_type;
    }

    /// Whether the slot at a place has a value.
    pub fn is_valid(&self, i: usize) -> bool
        requires { i < length self.now.slots }
        ensures { result ≡ not (is_null (slice_index_or self.now.slots i null)) }
    {
        self.marks.is_valid(i)
    }

    /// The mask, which is there exactly where a slot is null; of nulls alone there is none.
    pub fn validity(&self) -> Option<&MutableBitmap>
        ensures { option_copied result ≡ column_mask (column_of self.now) }
    {
        if self.values.are_nulls() {
            return None;
        }
        self.marks.validity()
    }

    /// Pushes a cell.
    ///
    /// # Errors
    /// `InvalidArgumentError`: the cell does not fit the type.
    /// `Overflow`: there are as many slots as an array may have, or as many bytes as its offsets may number.
    /// `OutOfMemory`: the slot found no memory.
    pub fn try_push(&mut self, cell: &AnyScalar) -> Result<()>
        ensures { IsPushed self.old (scalar_slot cell.now) self.new result }
    {
        push_parts(&mut self.marks, &mut self.values, cell)
    }

    /// Pushes a null.
    ///
    /// # Errors
    /// `Overflow`: there are as many slots as an array may have.
    /// `OutOfMemory`: the slot found no memory.
    pub fn push_null(&mut self) -> Result<()>
        ensures { IsPushed self.old null self.new result }
    {
        self.try_push(&AnyScalar::Null)
    }

    /// Keeps the first `len` slots alone.
    pub fn truncate(&mut self, len: usize)
        requires { len ≤ length self.old.slots }
        ensures { self.new ≡ first_slots self.old len }
    {
        self.values.truncate(len);
        self.marks.truncate(len);
    }

    /// Makes room for some more slots.
    ///
    /// # Errors
    /// `OutOfMemory`: the room found no memory.
    pub fn reserve(&mut self, additional: usize) -> Result<()>
        ensures same { self.new ≡ self.old }
        ensures error { IfErr result IsOutOfMemory }
    {
        self.marks.reserve(additional)?;
        self.values.reserve(additional)
    }

    /// Gives back memory that no slot needs, as far as the allocator takes it.
    pub fn shrink_to_fit(&mut self)
        ensures { self.new ≡ self.old }
    {
        self.marks.shrink_to_fit();
        self.values.shrink_to_fit();
    }

    /// The array of the slots, with no copy: zeros or no bytes stand under nulls, and there is a mask exactly where a slot is null.
    ///
    /// # Errors
    /// `OutOfMemory`: a count of owners found no memory.
    pub fn freeze(self) -> Result<FlatArray>
        ensures { OrOutOfMemory result (λ array. array ≡ column_of self) }
    {
        let FlatBuilder {
            data_type,
            marks,
            values,
        } = self;
        freeze_parts(data_type, marks, values)
    }
}

/// The array of marks and values that are kept.
#[tactic(auto, using(crate::proofs::FrozenValues::frozen))]
fn freeze_parts(data_type: DataType, marks: Marks, values: Values) -> Result<FlatArray>
    requires { AreKeptAs data_type marks values (slots (kept_column data_type marks values)) }
    ensures { OrOutOfMemory result (λ array. array ≡ kept_column data_type marks values) }
{
    let len = marks.len();
    let validity = marks.freeze()?;
    values.freeze(data_type, len, validity)
}

/// Adds the mark and the value of a cell.
fn push_parts(marks: &mut Marks, values: &mut Values, cell: &AnyScalar) -> Result<()>
    requires { HoldsAll values.old (length marks.old) }
    ensures { TakesSlot marks.old values.old (scalar_slot cell.now) marks.new values.new result }
{
    let held = marks.len();
    values.push(cell)?;
    match marks.push(!is_null(cell)) {
        Ok(()) => Ok(()),
        Err(error) => {
            values.truncate(held);
            Err(error)
        }
    }
}
