//! Lists of any length.
ghost use Rattle.std.specs.Prelude.{◌≡◌, ◌+◌, ◌<◌, ◌≤◌, ◌↔◌, IsTrue, not, Some, is_some, option_copied, option_map, MatchResult};
ghost use Rattle.nested_arrays_access.specs.columnar_memory.Error.{IsOutOfMemory};
ghost use Rattle.nested_arrays_access.specs.columnar_memory.Spans.{offsets_of};
ghost use Rattle.nested_arrays_access.specs.columns.StoredColumns.{column_len, column_type, cut, is_valid_at, lists, type_layer};
ghost use Rattle.nested_arrays_access.specs.flat.ColumnMasks.{column_mask, unset_in, ReplacesMask};
ghost use Rattle.nested_arrays_access.specs.arrays.Answers.{IsCheckedAs, LiesAs};
ghost use Rattle.nested_arrays_core.specs.ListTypes.{has_list_item_type, items_field, items_in, list_layout, list_type, IsItemsField};

use nested_arrays_access::arrays::{AnyArray, item_field};
use nested_arrays_access::columnar_memory::{
    Bitmap, DataType, Error, Field, Offset, OffsetsBuffer, Result,
};
use nested_arrays_access::flat::{mark_at, slice_mask, unset_marks};
use nested_arrays_access::parts::{fits, last_of, slice_offsets};
use std::alloc::Global;
use std::marker::Model;

/// Lists of any length, one after another in a child, with offsets of one width (Arrow columnar format, "Variable-size List Layout"). A
/// contract sees the column that it stores.
#[derive(Debug, Drop)]
pub struct ListArray<O: Offset> {
    pub(crate) data_type: DataType,
    pub(crate) offsets: OffsetsBuffer<O>,
    pub(crate) values: Box<AnyArray>,
    pub(crate) validity: Option<Bitmap>,
}

impl<O: Offset> Model for ListArray<O> {
    ghost use Rattle.nested_arrays_access.specs.columnar_memory.Spans.{offsets_of};
    ghost use Rattle.nested_arrays_access.specs.columns.ColumnCodes.{column_code};
    ghost use Rattle.nested_arrays_access.specs.columns.StoredColumns.{Column, lists};
    ghost use Rattle.nested_arrays_access.specs.arrays.Answers.{LiesAs};
    ghost use Rattle.nested_arrays_core.specs.ListTypes.{list_layout};

    ghost Value = { Column };

    ghost coded = { column_code };

    ghost view = { λ it. lists it.data_type it.validity (offsets_of it.offsets) it.values.value };

    ghost invariant = { λ it. LiesAs (list_layout O.IS_LARGE) (lists it.data_type it.validity (offsets_of it.offsets) it.values.value) };
}

/// Whether lists of a data type, with offsets of this width, have items of another.
fn has_items<O: Offset>(data_type: &DataType, item_type: &DataType) -> bool
    ensures { result ≡ has_list_item_type O.IS_LARGE (type_layer data_type.now) item_type.now }
{
    match data_type.to_logical_type() {
        DataType::List(item) => !O::IS_LARGE && item.get().data_type == *item_type,
        DataType::LargeList(item) => O::IS_LARGE && item.get().data_type == *item_type,
        _ => false,
    }
}

/// The field of the items of lists with offsets of this width, none where a type is not of such lists.
fn items_field<O: Offset>(data_type: &DataType) -> Option<&Field>
    ensures { option_copied result ≡ items_field O.IS_LARGE (type_layer data_type.now) }
{
    match data_type.to_logical_type() {
        DataType::List(item) if !O::IS_LARGE => Some(item.get()),
        DataType::LargeList(item) if O::IS_LARGE => Some(item.get()),
        _ => None,
    }
}

/// Whether parts are those of an array of lists.
fn are_lists<O: Offset>(
    data_type: &DataType,
    offsets: &OffsetsBuffer<O>,
    values: &AnyArray,
    validity: &Option<Bitmap>,
) -> bool
    ensures { IsTrue result ↔ LiesAs (list_layout O.IS_LARGE) (lists data_type.now validity.now (offsets_of offsets.now) values.now) }
{
    values.whole();
    if !has_items::<O>(data_type, values.data_type()) {
        return false;
    }
    if last_of(offsets) > values.len() {
        return false;
    }
    fits(validity, offsets.len_proxy())
}

impl<O: Offset> ListArray<O> {
    /// The array of a data type, offsets, items one list after another, and a mask. Takes no memory.
    ///
    /// # Errors
    /// `OutOfSpec`: arrays of the data type are not of lists with such offsets, the items have another type, the last offset is past them, or
    /// the mask has another length.
    pub fn try_new(
        data_type: DataType,
        offsets: OffsetsBuffer<O>,
        values: Box<AnyArray>,
        validity: Option<Bitmap>,
    ) -> Result<Self>
        ensures { IsCheckedAs (list_layout O.IS_LARGE) (lists data_type validity (offsets_of offsets) values.value) result }
    {
        if !are_lists(&data_type, &offsets, &values, &validity) {
            drop(data_type);
            drop(offsets);
            drop(values);
            drop(validity);
            return Err(Error::OutOfSpec(
                "a type, offsets, items and a mask that make no array of lists",
            ));
        }
        Ok(ListArray {
            data_type,
            offsets,
            values,
            validity,
        })
    }

    /// The array of parts that fit, as `try_new` tests.
    pub fn new(
        data_type: DataType,
        offsets: OffsetsBuffer<O>,
        values: Box<AnyArray>,
        validity: Option<Bitmap>,
    ) -> Self
        requires { LiesAs (list_layout O.IS_LARGE) (lists data_type validity (offsets_of offsets) values.value) }
        ensures { result ≡ lists data_type validity (offsets_of offsets) values.value }
    {
        ListArray {
            data_type,
            offsets,
            values,
            validity,
        }
    }

    /// The type of lists with such offsets, of items of a type, which are named "item" and may be null.
    ///
    /// # Errors
    /// `OutOfMemory`: the items' name or their field's place found no memory.
    pub fn default_datatype(alloc: Global, data_type: DataType) -> Result<DataType>
        ensures { MatchResult result (λ lists. lists ≡ list_type O.IS_LARGE data_type) IsOutOfMemory }
    {
        let item = item_field(alloc, data_type)?;
        if O::IS_LARGE {
            Ok(DataType::LargeList(item))
        } else {
            Ok(DataType::List(item))
        }
    }

    /// The field of the items, by the type of lists with such offsets.
    ///
    /// # Errors
    /// `OutOfSpec`: the type is not of such lists.
    pub fn try_get_child(data_type: &DataType) -> Result<&Field>
        ensures { IsItemsField O.IS_LARGE (type_layer data_type.now) result }
    {
        items_field::<O>(data_type).ok_or(Error::OutOfSpec(
            "a type that is not of lists with such offsets",
        ))
    }

    /// The field of the items, by a type of lists with such offsets, as `try_get_child` tests.
    pub fn get_child_field(data_type: &DataType) -> &Field
        requires { IsTrue (is_some (items_field O.IS_LARGE (type_layer data_type.now))) }
        ensures { Some result.now ≡ items_field O.IS_LARGE (type_layer data_type.now) }
    {
        items_field::<O>(data_type).unwrap()
    }

    /// The type of the items, by a type of lists with such offsets, as `try_get_child` tests.
    pub fn get_child_type(data_type: &DataType) -> &DataType
        requires { IsTrue (is_some (items_field O.IS_LARGE (type_layer data_type.now))) }
        ensures { Some result.now ≡ option_map (λ field. field.data_type) (items_field O.IS_LARGE (type_layer data_type.now)) }
    {
        &Self::get_child_field(data_type).data_type
    }

    /// How many slots there are.
    #[tactic(auto, using(crate::proofs::Passed::spans_count))]
    pub fn len(&self) -> usize
        ensures { result ≡ column_len self.now }
    {
        self.offsets.len_proxy()
    }

    pub fn is_empty(&self) -> bool
        ensures { IsTrue result ↔ (column_len self.now ≡ 0) }
    {
        self.len() == 0
    }

    pub fn data_type(&self) -> &DataType
        ensures { result.now ≡ column_type self.now }
    {
        &self.data_type
    }

    /// Where each list begins among the items, and the last one ends.
    pub fn offsets(&self) -> &OffsetsBuffer<O>
        ensures { lists (column_type self.now) (column_mask self.now) (offsets_of result.now) (items_in self.now) ≡ self.now }
    {
        &self.offsets
    }

    /// The items of all lists, those outside the offsets too.
    pub fn values(&self) -> &AnyArray
        ensures { result.now ≡ items_in self.now }
    {
        &self.values
    }

    /// The mask, where there is one: a bit is set where its slot is not null.
    pub fn validity(&self) -> Option<&Bitmap>
        ensures { option_copied result ≡ column_mask self.now }
    {
        self.validity.as_ref()
    }

    /// Replaces the mask.
    ///
    /// # Errors
    /// `InvalidArgumentError`: the mask has another length than the array, which is as it was.
    #[tactic(auto, using(crate::proofs::Passed::lists_masked))]
    pub fn set_validity(&mut self, validity: Option<Bitmap>) -> Result<()>
        ensures { ReplacesMask self.old validity self.new result }
    {
        if !fits(&validity, self.len()) {
            return Err(Error::InvalidArgumentError("a mask of another length than the array"));
        }
        self.validity = validity;
        Ok(())
    }

    /// How many slots are null.
    pub fn null_count(&self) -> usize
        ensures { result ≡ unset_in (column_mask self.now) }
    {
        unset_marks(self.validity())
    }

    /// Whether a slot has a list.
    pub fn is_valid(&self, i: usize) -> bool
        requires { i < column_len self.now }
        ensures { result ≡ is_valid_at (column_mask self.now) i }
    {
        self.whole();
        mark_at(self.validity(), i)
    }

    /// Whether a slot is null.
    pub fn is_null(&self, i: usize) -> bool
        requires { i < column_len self.now }
        ensures { result ≡ not (is_valid_at (column_mask self.now) i) }
    {
        !self.is_valid(i)
    }

    /// Hands to a proof what holds of every such array.
    pub fn whole(&self)
        ensures { LiesAs (list_layout O.IS_LARGE) self.now }
    {
        let _field = &self.offsets;
    }

    /// Narrows this to the `count` slots from `offset` on, with no copy.
    pub fn slice(&mut self, offset: usize, count: usize)
        requires { offset + count ≤ column_len self.old }
        ensures { self.new ≡ cut self.old offset count }
    {
        slice_mask(&mut self.validity, offset, count);
        slice_offsets(&mut self.offsets, offset, count);
    }

    /// The `count` slots from `offset` on, in the same memory.
    pub fn sliced(self, offset: usize, count: usize) -> Self
        requires { offset + count ≤ column_len self }
        ensures { result ≡ cut self offset count }
    {
        let mut array = self;
        array.slice(offset, count);
        array
    }
}
