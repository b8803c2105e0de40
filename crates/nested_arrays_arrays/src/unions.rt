//! Unions.
ghost use Rattle.std.specs.Prelude.{◌≡◌, true, ◌+◌, ◌<◌, ◌≤◌, ◌↔◌, IsTrue, length, None, option_copied, pos, slice_index_or};
ghost use Rattle.nested_arrays_parts.specs.columns.SoundColumns.{has_child_at, is_sound};
ghost use Rattle.nested_arrays_parts.specs.columns.StoredColumns.{child_number, column_len, column_type, cut, in_columns, slot_at, type_layer};
ghost use Rattle.nested_arrays_parts.specs.columns.StoredColumns.{picked_at, union_place, unions};
ghost use Rattle.nested_arrays_arrays.specs.Answers.{IsChecked};
ghost use Rattle.nested_arrays_arrays.specs.UnionFields.{layer_choices};
ghost use Rattle.nested_arrays_arrays.specs.Parts.{column_children, column_ids, column_places};
ghost use Rattle.nested_arrays_parts.specs.flat.ColumnMasks.{column_mask, ReplacesMask};
ghost use Rattle.nested_arrays_parts.specs.columnar_memory.Layouts.{physical_type};
ghost use Rattle.nested_arrays_parts.specs.columnar_memory.declared.PhysicalType.TheVariants as physical;

use crate::any::AnyArray;
use crate::children::are_whole;
use crate::picks::{are_children_of, child_number, have_slots, read_ids};
use crate::records::slice_each;
use nested_arrays_parts::columnar_memory::{Bitmap, Buffer, DataType, Error, Field, Result};
use std::marker::Model;

/// Slots each of one of several types, by its id: in a sparse union each child is as long as the union, in a dense one each slot has its
/// place in its child (Arrow columnar format, "Union Layout"). A contract sees the column that it stores.
#[cycle(arrays)]
#[derive(Debug)]
pub struct UnionArray {
    pub(crate) data_type: DataType,
    pub(crate) types: Buffer<i8>,
    pub(crate) offsets: Option<Buffer<i32>>,
    pub(crate) fields: Vec<AnyArray>,
}

impl Drop for UnionArray {
    #[cycle(dropping)]
    fn drop(self) {
        let UnionArray {
            data_type: _,
            types: _,
            offsets: _,
            fields: _,
        } = self;
    }
}

impl Model for UnionArray {
    ghost use Rattle.std.specs.Prelude.{◌≡◌, ◌+◌, ◌*◌, true};
    ghost use Rattle.nested_arrays_parts.specs.columns.StoredColumns.{Column, column_size, unions, in_columns};
    ghost use Rattle.nested_arrays_parts.specs.columns.ColumnCodes.{column_code};
    ghost use Rattle.nested_arrays_parts.specs.columns.SoundColumns.{is_sound};

    ghost Value = { Column };

    ghost coded = { column_code };

    ghost view = { λ it. unions it.data_type it.types it.offsets (in_columns it.fields.items) };

    ghost invariant = { λ it. is_sound (unions it.data_type it.types it.offsets (in_columns it.fields.items)) ≡ true };

    ghost size = { λ c. 2 * column_size c };

    ghost use Rattle.nested_arrays_arrays.specs.Sizes.{children_are_deep};

    ghost size_decreases = { λ a h. children_are_deep a.fields.items };
}

impl UnionArray {
    /// The array of a data type, the id of each slot, a child for each of the type's fields, and, of a dense union, the place of each slot in
    /// its child. Takes no memory.
    ///
    /// # Errors
    /// `OutOfSpec`: the data type is no union, or is a dense one without offsets or a sparse one with them; it has another number of ids than of
    /// fields; the children have not the types of the fields, one each; a child of a sparse union has another length than the union; there are
    /// not as many offsets as ids; an id has no child; or an offset is not within its child.
    #[tactic(auto, using(crate::proofs::UnionParts::union_whole, crate::proofs::UnionParts::union_parts))]
    pub fn try_new(
        data_type: DataType,
        types: Buffer<i8>,
        fields: Vec<AnyArray>,
        offsets: Option<Buffer<i32>>,
    ) -> Result<Self>
        ensures { IsChecked (unions data_type types offsets (in_columns fields.items)) result }
    {
        are_whole(&fields);
        read_ids(types.as_slice());
        if !are_children_of(&data_type, &offsets, &fields) {
            return Err(Error::OutOfSpec("children that are not those of a union of the data type"));
        }
        if !have_slots(&data_type, types.as_slice(), &offsets, &fields) {
            return Err(Error::OutOfSpec("slots that are not within the children of a union"));
        }
        Ok(UnionArray {
            data_type,
            types,
            offsets,
            fields,
        })
    }

    /// The array of parts that fit, as `try_new` tests.
    pub fn new(
        data_type: DataType,
        types: Buffer<i8>,
        fields: Vec<AnyArray>,
        offsets: Option<Buffer<i32>>,
    ) -> Self
        requires { is_sound (unions data_type types offsets (in_columns fields.items)) ≡ true }
        ensures { result ≡ unions data_type types offsets (in_columns fields.items) }
    {
        UnionArray {
            data_type,
            types,
            offsets,
            fields,
        }
    }

    /// The fields of the type of a union, none where a type is no union.
    pub fn get_fields(data_type: &DataType) -> &[Field]
        ensures { result.now ≡ layer_choices (type_layer data_type.now) }
    {
        match data_type.to_logical_type() {
            DataType::Union(fields, _, _) => fields.as_slice(),
            _ => &[],
        }
    }

    /// The id of each slot, which says whose child's slot it is.
    pub fn types(&self) -> &Buffer<i8>
        ensures { result.now ≡ column_ids self.now }
    {
        &self.types
    }

    /// The place of each slot in its child, where this is a dense union.
    pub fn offsets(&self) -> Option<&Buffer<i32>>
        ensures { option_copied result ≡ column_places self.now }
    {
        self.offsets.as_ref()
    }

    /// The children, one for each of the type's fields.
    pub fn fields(&self) -> &[AnyArray]
        ensures { self.now ≡ unions (column_type self.now) (column_ids self.now) (column_places self.now) (in_columns result.now) }
    {
        self.fields.as_slice()
    }

    pub fn is_sparse(&self) -> bool
        ensures { IsTrue result ↔ (column_places self.now ≡ None) }
    {
        self.offsets.is_none()
    }

    /// In which child a slot stands, by its number, and at which place there.
    pub fn index(&self, i: usize) -> (usize, usize)
        requires { i < column_len self.now }
        ensures child { result.0 ≡ child_number (type_layer (column_type self.now)) (slice_index_or (column_ids self.now) i (pos 0)) }
        ensures place { result.1 ≡ union_place (column_places self.now) i }
        ensures slot { slot_at self.now i ≡ picked_at (column_children self.now) result.0 result.1 }
        ensures within { has_child_at (type_layer (column_type self.now)) (column_ids self.now) (column_places self.now)
            (column_children self.now) i ≡ true }
    {
        let number = child_number(&self.data_type, self.types.as_slice()[i]);
        match &self.offsets {
            Some(offsets) => (number, offsets.as_slice()[i] as usize),
            None => (number, i),
        }
    }

    /// The mask, of which unions have none.
    pub fn validity(&self) -> Option<&Bitmap>
        ensures { option_copied result ≡ column_mask self.now }
    {
        let _types = &self.types;
        None
    }

    /// Leaves this without a mask, as each union is.
    ///
    /// # Errors
    /// `InvalidArgumentError`: a mask is given.
    pub fn set_validity(&mut self, validity: Option<Bitmap>) -> Result<()>
        ensures { ReplacesMask self.old validity self.new result }
    {
        let _types = &self.types;
        match validity {
            Some(_) => Err(Error::InvalidArgumentError("a mask for a union, which has none")),
            None => Ok(()),
        }
    }

    /// How many slots there are.
    pub fn len(&self) -> usize
        ensures { result ≡ column_len self.now }
    {
        self.types.len()
    }

    pub fn is_empty(&self) -> bool
        ensures { IsTrue result ↔ (column_len self.now ≡ 0) }
    {
        self.types.is_empty()
    }

    pub fn data_type(&self) -> &DataType
        ensures { result.now ≡ column_type self.now }
    {
        &self.data_type
    }

    /// Hands to a proof what holds of every such array.
    pub fn whole(&self)
        ensures { is_sound self.now ≡ true }
    {
        let _field = &self.types;
    }

    /// Hands to a proof how every such array lies in memory.
    pub fn lies(&self)
        ensures { physical_type (column_type self.now) ≡ physical.Union }
    {
        let _field = &self.types;
    }

    /// Narrows this to the `count` slots from `offset` on, with no copy.
    #[cycle(cutting)]
    pub fn slice(&mut self, offset: usize, count: usize)
        requires { offset + count ≤ column_len self.old }
        ensures { self.new ≡ cut self.old offset count }
    {
        match &mut self.offsets {
            Some(offsets) => offsets.slice(offset, count),
            None => slice_each(&mut self.fields, offset, count),
        }
        self.types.slice(offset, count);
    }
}
