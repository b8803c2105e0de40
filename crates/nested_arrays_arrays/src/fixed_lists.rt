//! Lists of one size.
ghost use Rattle.std.specs.Prelude.{◌≡◌, ◌+◌, ◌<◌, ◌≤◌, ◌↔◌, IsTrue, true, option_copied, MatchResult};
ghost use Rattle.nested_arrays_parts.specs.columnar_memory.Error.{IsOutOfMemory};
ghost use Rattle.nested_arrays_parts.specs.columnar_memory.Layouts.{physical_type};
ghost use Rattle.nested_arrays_parts.specs.columnar_memory.declared.PhysicalType.TheVariants as physical;
ghost use Rattle.nested_arrays_parts.specs.columns.SoundColumns.{is_sound, has_fixed_item_type};
ghost use Rattle.nested_arrays_parts.specs.columns.StoredColumns.{column_len, column_type, cut, fixed_lists, type_layer};
ghost use Rattle.nested_arrays_arrays.specs.Answers.{IsChecked};
ghost use Rattle.nested_arrays_arrays.specs.ItemTypes.{fixed_list_type};
ghost use Rattle.nested_arrays_arrays.specs.Lengths.{size_of};
ghost use Rattle.nested_arrays_parts.specs.flat.ColumnMasks.{column_mask, ReplacesMask};

use crate::any::AnyArray;
use crate::item_fields::item_field;
use nested_arrays_parts::columnar_memory::{Bitmap, DataType, Error, Result};
use nested_arrays_parts::fits;
use nested_arrays_parts::flat::slice_mask;
use std::alloc::Global;
use std::marker::Model;

/// Lists of one size, one after another in a child (Arrow columnar format, "Fixed-Size List Layout"). A contract sees the column that it stores.
#[cycle(arrays)]
#[derive(Debug)]
pub struct FixedSizeListArray {
    pub(crate) data_type: DataType,
    pub(crate) size: usize,
    pub(crate) values: Box<AnyArray>,
    pub(crate) validity: Option<Bitmap>,
}

impl Drop for FixedSizeListArray {
    #[cycle(dropping)]
    fn drop(self) {
        let FixedSizeListArray {
            data_type: _,
            size: _,
            values: _,
            validity: _,
        } = self;
    }
}

impl Model for FixedSizeListArray {
    ghost use Rattle.std.specs.Prelude.{◌≡◌, ◌+◌, ◌*◌, true};
    ghost use Rattle.std.proofs.Common.{arith};
    ghost use Rattle.nested_arrays_parts.specs.columns.StoredColumns.{Column, column_size, fixed_lists};
    ghost use Rattle.nested_arrays_parts.specs.columns.ColumnCodes.{column_code};
    ghost use Rattle.nested_arrays_parts.specs.columns.SoundColumns.{is_sound};

    ghost Value = { Column };

    ghost coded = { column_code };

    ghost view = { λ it. fixed_lists it.data_type it.validity it.size it.values.value };

    ghost invariant = { λ it. is_sound (fixed_lists it.data_type it.validity it.size it.values.value) ≡ true };

    ghost size = { λ c. 2 * column_size c };

    ghost size_decreases = { λ a h. omega arith };
}

/// How many items each list has by a data type, none where it is no type of lists of one size.
fn size_of(data_type: &DataType) -> usize
    ensures { result ≡ size_of data_type.now }
{
    match data_type.to_logical_type() {
        DataType::FixedSizeList(_, size) => *size,
        _ => 0,
    }
}

/// Whether lists of a data type have items of another, so many each.
fn has_items(data_type: &DataType, size: usize, item_type: &DataType) -> bool
    ensures { result ≡ has_fixed_item_type (type_layer data_type.now) size item_type.now }
{
    match data_type.to_logical_type() {
        DataType::FixedSizeList(item, stored) => *stored == size
            && item.get().data_type == *item_type,
        _ => false,
    }
}

impl FixedSizeListArray {
    /// The array of a data type, its items one list after another, and a mask. Takes no memory.
    ///
    /// # Errors
    /// `OutOfSpec`: the data type is no list of one size, of one item at least, its items have another type, they are no whole number of lists,
    /// or the mask has another length.
    #[tactic(auto, using(crate::proofs::StructParts::fixed_whole, crate::proofs::StructParts::fixed_parts))]
    pub fn try_new(
        data_type: DataType,
        values: Box<AnyArray>,
        validity: Option<Bitmap>,
    ) -> Result<Self>
        ensures { IsChecked (fixed_lists data_type validity (size_of data_type) values.value) result }
    {
        values.whole();
        let size = size_of(&data_type);
        if !has_items(&data_type, size, values.data_type()) {
            return Err(Error::OutOfSpec("items that are not those of lists of the data type"));
        }
        if size == 0 || values.len() % size != 0 {
            return Err(Error::OutOfSpec("items that are no whole number of lists"));
        }
        if !fits(&validity, values.len() / size) {
            return Err(Error::OutOfSpec("a mask of another length than the lists"));
        }
        Ok(FixedSizeListArray {
            data_type,
            size,
            values,
            validity,
        })
    }

    /// The array of parts that fit, as `try_new` tests.
    #[tactic(auto, using(crate::proofs::ArrayParts::size_is))]
    pub fn new(data_type: DataType, values: Box<AnyArray>, validity: Option<Bitmap>) -> Self
        requires { is_sound (fixed_lists data_type validity (size_of data_type) values.value) ≡ true }
        ensures { result ≡ fixed_lists data_type validity (size_of data_type) values.value }
    {
        let size = size_of(&data_type);
        FixedSizeListArray {
            data_type,
            size,
            values,
            validity,
        }
    }

    /// The type of lists of a size, of items of a type, which are named "item" and may be null.
    ///
    /// # Errors
    /// `OutOfMemory`: the items' name or their field's place found no memory.
    pub fn default_datatype(alloc: Global, data_type: DataType, size: usize) -> Result<DataType>
        ensures { MatchResult result (λ lists. lists ≡ fixed_list_type data_type size) IsOutOfMemory }
    {
        Ok(DataType::FixedSizeList(item_field(alloc, data_type)?, size))
    }

    /// How many items each list has, one at least.
    #[tactic(auto, using(crate::proofs::ArrayParts::size_is, crate::proofs::CutNodes::fixed_size))]
    pub fn size(&self) -> usize
        ensures value { result ≡ size_of (column_type self.now) }
        ensures some { 0 < result }
    {
        self.size
    }

    /// The items, one list after another, those under nulls too.
    #[tactic(auto, using(crate::proofs::ArrayParts::size_is))]
    pub fn values(&self) -> &AnyArray
        ensures { self.now ≡ fixed_lists (column_type self.now) (column_mask self.now) (size_of (column_type self.now)) result.now }
    {
        &self.values
    }

    /// The mask, where there is one: a bit is set where its slot is not null.
    pub fn validity(&self) -> Option<&Bitmap>
        ensures { option_copied result ≡ column_mask self.now }
    {
        self.validity.as_ref()
    }

    /// Replaces the mask.
    ///
    /// # Errors
    /// `InvalidArgumentError`: the mask has another length than the array, which is as it was.
    #[tactic(auto, using(crate::proofs::ArrayParts::fixed_masked))]
    pub fn set_validity(&mut self, validity: Option<Bitmap>) -> Result<()>
        ensures { ReplacesMask self.old validity self.new result }
    {
        if !fits(&validity, self.len()) {
            return Err(Error::InvalidArgumentError("a mask of another length than the array"));
        }
        self.validity = validity;
        Ok(())
    }

    pub fn is_empty(&self) -> bool
        ensures { IsTrue result ↔ (column_len self.now ≡ 0) }
    {
        self.len() == 0
    }

    /// How many slots there are.
    #[cycle(counting)]
    #[tactic(auto, using(crate::proofs::CutNodes::fixed_size))]
    pub fn len(&self) -> usize
        ensures { result ≡ column_len self.now }
    {
        self.values.len() / self.size
    }

    pub fn data_type(&self) -> &DataType
        ensures { result.now ≡ column_type self.now }
    {
        &self.data_type
    }

    /// Hands to a proof what holds of every such array.
    pub fn whole(&self)
        ensures { is_sound self.now ≡ true }
    {
        let _field = &self.size;
    }

    /// Hands to a proof how every such array lies in memory.
    pub fn lies(&self)
        ensures { physical_type (column_type self.now) ≡ physical.FixedSizeList }
    {
        let _field = &self.size;
    }

    /// Narrows this to the `count` slots from `offset` on, with no copy.
    #[cycle(cutting)]
    pub fn slice(&mut self, offset: usize, count: usize)
        requires { offset + count ≤ column_len self.old }
        ensures { self.new ≡ cut self.old offset count }
    {
        let _items = self.values.len();
        slice_mask(&mut self.validity, offset, count);
        self.values.slice(self.size * offset, self.size * count);
    }
}
