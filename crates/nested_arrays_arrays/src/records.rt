//! Structs.
ghost use Rattle.std.specs.Prelude.{◌≡◌, ◌+◌, ◌≤◌, ◌↔◌, IsTrue, true, map, All, option_copied};
ghost use Rattle.nested_arrays_parts.specs.columnar_memory.Layouts.{physical_type};
ghost use Rattle.nested_arrays_parts.specs.columnar_memory.declared.PhysicalType.TheVariants as physical;
ghost use Rattle.nested_arrays_parts.specs.columns.SoundColumns.{is_sound};
ghost use Rattle.nested_arrays_parts.specs.columns.StoredColumns.{column_len, column_type, cut, records, in_columns};
ghost use Rattle.nested_arrays_arrays.specs.Answers.{IsChecked};
ghost use Rattle.nested_arrays_arrays.specs.Lengths.{struct_len};
ghost use Rattle.nested_arrays_arrays.specs.Parts.{fields_of};
ghost use Rattle.nested_arrays_parts.specs.flat.ColumnMasks.{column_mask, ReplacesMask};

use crate::any::AnyArray;
use crate::children::{are_fields_of, are_whole, have_len};
use nested_arrays_parts::columnar_memory::{Bitmap, DataType, Error, Field, Result};
use nested_arrays_parts::fits;
use nested_arrays_parts::flat::slice_mask;
use std::marker::Model;

/// Structs (Arrow columnar format, "Struct Layout").
#[cycle(arrays)]
#[derive(Debug)]
pub struct StructArray {
    pub(crate) data_type: DataType,
    pub(crate) values: Vec<AnyArray>,
    pub(crate) validity: Option<Bitmap>,
    pub(crate) length: usize,
}

impl Drop for StructArray {
    #[cycle(dropping)]
    fn drop(self) {
        let StructArray {
            data_type: _,
            values: _,
            validity: _,
            length: _,
        } = self;
    }
}

impl Model for StructArray {
    ghost use Rattle.std.specs.Prelude.{◌≡◌, ◌+◌, ◌*◌, true};
    ghost use Rattle.nested_arrays_parts.specs.columns.StoredColumns.{Column, column_size, records, in_columns};
    ghost use Rattle.nested_arrays_parts.specs.columns.ColumnCodes.{column_code};
    ghost use Rattle.nested_arrays_parts.specs.columns.SoundColumns.{is_sound};

    ghost Value = { Column };

    ghost coded = { column_code };

    ghost view = { λ it. records it.data_type it.validity it.length (in_columns it.values.items) };

    ghost invariant = { λ it. is_sound (records it.data_type it.validity it.length (in_columns it.values.items)) ≡ true };

    ghost size = { λ c. 2 * column_size c };

    ghost use Rattle.nested_arrays_arrays.specs.Sizes.{children_are_deep};

    ghost size_decreases = { λ a h. children_are_deep a.values.items };
}

/// How many slots the first of the children of a struct has.
fn first_len(values: &[AnyArray]) -> usize
    ensures { result ≡ struct_len values.now }
{
    match values.split_first() {
        Some((value, _)) => value.len(),
        None => 0,
    }
}

impl StructArray {
    /// The array of a data type, a child for each of its fields and a mask, as long as the first child. Takes no memory.
    ///
    /// # Errors
    /// `OutOfSpec`: the data type is no struct with fields, the children have not their types, one each, or are not equally long, or the mask
    /// has another length.
    #[tactic(auto, using(crate::proofs::StructParts::struct_whole, crate::proofs::StructParts::struct_parts))]
    pub fn try_new(
        data_type: DataType,
        values: Vec<AnyArray>,
        validity: Option<Bitmap>,
    ) -> Result<Self>
        ensures { IsChecked (records data_type validity (struct_len values.items) (in_columns values.items)) result }
    {
        are_whole(&values);
        let length = first_len(&values);
        if !are_fields_of(&data_type, &values) {
            return Err(Error::OutOfSpec(
                "children that are not those of a struct of the data type",
            ));
        }
        if !have_len(&values, length) {
            return Err(Error::OutOfSpec("children of different lengths"));
        }
        if !fits(&validity, length) {
            return Err(Error::OutOfSpec("a mask of another length than the children"));
        }
        Ok(StructArray {
            data_type,
            values,
            validity,
            length,
        })
    }

    /// The array of parts that fit, as `try_new` tests.
    pub fn new(data_type: DataType, values: Vec<AnyArray>, validity: Option<Bitmap>) -> Self
        requires { is_sound (records data_type validity (struct_len values.items) (in_columns values.items)) ≡ true }
        ensures { result ≡ records data_type validity (struct_len values.items) (in_columns values.items) }
    {
        let length = first_len(&values);
        StructArray {
            data_type,
            values,
            validity,
            length,
        }
    }

    /// The fields of the type of a struct, none where a type is no struct.
    pub fn get_fields(data_type: &DataType) -> &[Field]
        ensures { result.now ≡ fields_of data_type.now }
    {
        match data_type.to_logical_type() {
            DataType::Struct(fields) => fields.as_slice(),
            _ => &[],
        }
    }

    /// The fields of the type, one for each child.
    pub fn fields(&self) -> &[Field]
        ensures { result.now ≡ fields_of (column_type self.now) }
    {
        StructArray::get_fields(&self.data_type)
    }

    /// The children, one for each field; what stands under a null too.
    pub fn values(&self) -> &[AnyArray]
        ensures { self.now ≡ records (column_type self.now) (column_mask self.now) (column_len self.now) (in_columns result.now) }
    {
        self.values.as_slice()
    }

    /// The data type, the children and the mask.
    pub fn into_data(self) -> (DataType, Vec<AnyArray>, Option<Bitmap>)
        ensures { self ≡ records result.0 result.2 (column_len self) (in_columns result.1.items) }
    {
        let StructArray {
            data_type,
            values,
            validity,
            length: _,
        } = self;
        (data_type, values, validity)
    }

    /// The mask, where there is one: a bit is set where its slot is not null.
    pub fn validity(&self) -> Option<&Bitmap>
        ensures { option_copied result ≡ column_mask self.now }
    {
        self.validity.as_ref()
    }

    /// Replaces the mask.
    ///
    /// # Errors
    /// `InvalidArgumentError`: the mask has another length than the array, which is as it was.
    #[tactic(auto, using(crate::proofs::ArrayParts::records_masked))]
    pub fn set_validity(&mut self, validity: Option<Bitmap>) -> Result<()>
        ensures { ReplacesMask self.old validity self.new result }
    {
        if !fits(&validity, self.length) {
            return Err(Error::InvalidArgumentError("a mask of another length than the array"));
        }
        self.validity = validity;
        Ok(())
    }

    /// How many slots there are.
    pub fn len(&self) -> usize
        ensures { result ≡ column_len self.now }
    {
        self.length
    }

    pub fn is_empty(&self) -> bool
        ensures { IsTrue result ↔ (column_len self.now ≡ 0) }
    {
        self.length == 0
    }

    pub fn data_type(&self) -> &DataType
        ensures { result.now ≡ column_type self.now }
    {
        &self.data_type
    }

    /// Hands to a proof what holds of every such array.
    pub fn whole(&self)
        ensures { is_sound self.now ≡ true }
    {
        let _field = &self.length;
    }

    /// Hands to a proof how every such array lies in memory.
    pub fn lies(&self)
        ensures { physical_type (column_type self.now) ≡ physical.Struct }
    {
        let _field = &self.length;
    }

    /// Narrows this to the `count` slots from `offset` on, with no copy.
    #[cycle(cutting)]
    pub fn slice(&mut self, offset: usize, count: usize)
        requires { offset + count ≤ column_len self.old }
        ensures { self.new ≡ cut self.old offset count }
    {
        slice_mask(&mut self.validity, offset, count);
        slice_each(&mut self.values, offset, count);
        self.length = count;
    }
}

/// Narrows each of several arrays to the `count` slots from `offset` on.
#[cycle(cutting)]
pub(crate) fn slice_each(values: &mut Vec<AnyArray>, offset: usize, count: usize)
    requires { All (λ c. offset + count ≤ column_len c) values.old.items }
    ensures { values.new.items ≡ map (λ c. cut c offset count) values.old.items }
{
    for value in values.iter_mut() {
        value.slice(offset, count);
    }
}
