//! Maps.
ghost use Rattle.std.specs.Prelude.{◌≡◌, ◌+◌, ◌≤◌, ◌↔◌, IsTrue, true, option_copied};
ghost use Rattle.nested_arrays_parts.specs.columnar_memory.Spans.{offsets_of};
ghost use Rattle.nested_arrays_parts.specs.columnar_memory.declared.DataType.TheViews.{out-DataType};
ghost use Rattle.nested_arrays_parts.specs.columnar_memory.declared.PhysicalType.TheVariants as physical;
ghost use Rattle.nested_arrays_parts.specs.columns.SoundColumns.{is_entry};
ghost use Rattle.nested_arrays_parts.specs.columns.StoredColumns.{column_len, column_type, cut, lists, type_layer};
ghost use Rattle.nested_arrays_arrays.specs.Answers.{IsCheckedAs, LiesAs};
ghost use Rattle.nested_arrays_arrays.specs.Entries.{has_entry_type};
ghost use Rattle.nested_arrays_arrays.specs.Parts.{column_offsets};
ghost use Rattle.nested_arrays_parts.specs.flat.ColumnMasks.{column_mask, ReplacesMask};

use crate::any::AnyArray;
use nested_arrays_parts::columnar_memory::{Bitmap, DataType, Error, OffsetsBuffer, Result};
use nested_arrays_parts::flat::slice_mask;
use nested_arrays_parts::{fits, last_of, slice_offsets};
use std::marker::Model;

/// Maps, each a list of entries, structs of a key and a value, one after another in a child (Arrow columnar format, "Map"). A contract sees
/// the column that it stores.
#[cycle(arrays)]
#[derive(Debug)]
pub struct MapArray {
    pub(crate) data_type: DataType,
    pub(crate) offsets: OffsetsBuffer<i32>,
    pub(crate) field: Box<AnyArray>,
    pub(crate) validity: Option<Bitmap>,
}

impl Drop for MapArray {
    #[cycle(dropping)]
    fn drop(self) {
        let MapArray {
            data_type: _,
            offsets: _,
            field: _,
            validity: _,
        } = self;
    }
}

impl Model for MapArray {
    ghost use Rattle.std.specs.Prelude.{◌≡◌, ◌+◌, ◌*◌, true};
    ghost use Rattle.std.proofs.Common.{arith};
    ghost use Rattle.nested_arrays_parts.specs.columnar_memory.Spans.{offsets_of};
    ghost use Rattle.nested_arrays_parts.specs.columnar_memory.Layouts.{physical_type};
    ghost use Rattle.nested_arrays_parts.specs.columnar_memory.declared.PhysicalType.TheVariants as physical;
    ghost use Rattle.nested_arrays_parts.specs.columns.StoredColumns.{Column, column_size, lists};
    ghost use Rattle.nested_arrays_parts.specs.columns.ColumnCodes.{column_code};
    ghost use Rattle.nested_arrays_parts.specs.columns.SoundColumns.{is_sound};

    ghost Value = { Column };

    ghost coded = { column_code };

    ghost view = { λ it. lists it.data_type it.validity (offsets_of it.offsets) it.field.value };

    ghost invariant = { λ it. (is_sound (lists it.data_type it.validity (offsets_of it.offsets) it.field.value) ≡ true)
        × (physical_type it.data_type ≡ physical.Map) };

    ghost size = { λ c. 2 * column_size c };

    ghost size_decreases = { λ a h. omega arith };
}

/// Whether maps of a data type have entries of another, structs of a key and a value.
fn has_entries(data_type: &DataType, entry_type: &DataType) -> bool
    ensures { result ≡ has_entry_type (type_layer data_type.now) entry_type.now }
{
    match data_type.to_logical_type() {
        DataType::Map(entry, _) => entry.get().data_type == *entry_type && is_entry(entry_type),
        _ => false,
    }
}

/// Whether a data type is a struct of two, with no extension around it.
fn is_entry(data_type: &DataType) -> bool
    ensures { result ≡ is_entry (out-DataType data_type.now) }
{
    match data_type {
        DataType::Struct(fields) => fields.len() == 2,
        _ => false,
    }
}

/// Whether parts are those of an array of maps.
#[tactic(auto, using(crate::proofs::ListParts::map_whole, crate::proofs::ListParts::map_parts))]
fn are_maps(
    data_type: &DataType,
    offsets: &OffsetsBuffer<i32>,
    field: &AnyArray,
    validity: &Option<Bitmap>,
) -> bool
    ensures { IsTrue result ↔ LiesAs physical.Map (lists data_type.now validity.now (offsets_of offsets.now) field.now) }
{
    field.whole();
    if !has_entries(data_type, field.data_type()) {
        return false;
    }
    if last_of(offsets) > field.len() {
        return false;
    }
    fits(validity, offsets.len_proxy())
}

impl MapArray {
    /// The array of a data type, offsets, entries one map after another, and a mask. Takes no memory.
    ///
    /// # Errors
    /// `OutOfSpec`: the data type is no map, its entries have another type or are no structs of a key and a value, the last offset is past the
    /// entries, or the mask has another length.
    pub fn try_new(
        data_type: DataType,
        offsets: OffsetsBuffer<i32>,
        field: Box<AnyArray>,
        validity: Option<Bitmap>,
    ) -> Result<Self>
        ensures { IsCheckedAs physical.Map (lists data_type validity (offsets_of offsets) field.value) result }
    {
        if !are_maps(&data_type, &offsets, &field, &validity) {
            return Err(Error::OutOfSpec(
                "a type, offsets, entries and a mask that make no array of maps",
            ));
        }
        Ok(MapArray {
            data_type,
            offsets,
            field,
            validity,
        })
    }

    /// The array of parts that fit, as `try_new` tests.
    pub fn new(
        data_type: DataType,
        offsets: OffsetsBuffer<i32>,
        field: Box<AnyArray>,
        validity: Option<Bitmap>,
    ) -> Self
        requires { LiesAs physical.Map (lists data_type validity (offsets_of offsets) field.value) }
        ensures { result ≡ lists data_type validity (offsets_of offsets) field.value }
    {
        MapArray {
            data_type,
            offsets,
            field,
            validity,
        }
    }

    /// Where each map begins among the entries, and where the last one ends.
    pub fn offsets(&self) -> &OffsetsBuffer<i32>
        ensures { offsets_of result.now ≡ column_offsets self.now }
    {
        &self.offsets
    }

    /// The entries, structs of a key and a value, those outside the maps too.
    pub fn field(&self) -> &AnyArray
        ensures { self.now ≡ lists (column_type self.now) (column_mask self.now) (column_offsets self.now) result.now }
    {
        &self.field
    }

    /// The mask, where there is one: a bit is set where its slot is not null.
    pub fn validity(&self) -> Option<&Bitmap>
        ensures { option_copied result ≡ column_mask self.now }
    {
        self.validity.as_ref()
    }

    /// Replaces the mask.
    ///
    /// # Errors
    /// `InvalidArgumentError`: the mask has another length than the array, which is as it was.
    #[tactic(auto, using(crate::proofs::ArrayParts::lists_masked))]
    pub fn set_validity(&mut self, validity: Option<Bitmap>) -> Result<()>
        ensures { ReplacesMask self.old validity self.new result }
    {
        if !fits(&validity, self.len()) {
            return Err(Error::InvalidArgumentError("a mask of another length than the array"));
        }
        self.validity = validity;
        Ok(())
    }

    pub fn is_empty(&self) -> bool
        ensures { IsTrue result ↔ (column_len self.now ≡ 0) }
    {
        self.len() == 0
    }

    /// How many slots there are.
    #[tactic(auto, using(nested_arrays_parts::proofs::OffsetLists::spans_count))]
    pub fn len(&self) -> usize
        ensures { result ≡ column_len self.now }
    {
        self.offsets.len_proxy()
    }

    pub fn data_type(&self) -> &DataType
        ensures { result.now ≡ column_type self.now }
    {
        &self.data_type
    }

    /// Hands to a proof what holds of every such array.
    pub fn whole(&self)
        ensures { LiesAs physical.Map self.now }
    {
        let _field = &self.offsets;
    }

    /// Narrows this to the `count` slots from `offset` on, with no copy.
    pub fn slice(&mut self, offset: usize, count: usize)
        requires { offset + count ≤ column_len self.old }
        ensures { self.new ≡ cut self.old offset count }
    {
        slice_mask(&mut self.validity, offset, count);
        slice_offsets(&mut self.offsets, offset, count);
    }
}
