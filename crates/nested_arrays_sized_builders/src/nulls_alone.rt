//! Builders of nulls alone.
ghost use Rattle.std.specs.Prelude.{◌≡◌, ◌≤◌, true};
ghost use Rattle.nested_arrays_generic_builders.specs.nulls.columnar_memory.Results.{OrOutOfMemory};
ghost use Rattle.nested_arrays_generic_builders.specs.nulls.columns.Kinds.{most_slots};
ghost use Rattle.nested_arrays_generic_builders.specs.nulls.columns.SoundColumns.{is_null_type, is_sound};
ghost use Rattle.nested_arrays_generic_builders.specs.nulls.columns.StoredColumns.{nulls, type_layer};
ghost use Rattle.nested_arrays_generic_builders.specs.cells.taken.OpenColumns.{AddsNull};
ghost use Rattle.nested_arrays_sized_builders.specs.NullBuilders.{BeginsNulls, CountsNull};

use nested_arrays_generic_builders::cells::taken::MutableArray;
use nested_arrays_generic_builders::nulls::arrays::AnyArray;
use nested_arrays_generic_builders::nulls::columnar_memory::{
    DataType, Error, MutableBitmap, PhysicalType, Result,
};
use nested_arrays_generic_builders::nulls::flat::NullArray;
use nested_arrays_generic_builders::nulls::generic::ToBoxed;
use std::alloc::Global;
use std::marker::Model;
use std::rc::Rc;

/// As many slots as an array may have.
pub(crate) const MOST_SLOTS: usize = 9_223_372_036_854_775_807;

/// A builder of nulls alone, which counts them (Arrow columnar format, "Null Layout"). A contract sees the column that it would be frozen to.
#[derive(Drop)]
pub struct MutableNullArray {
    data_type: DataType,
    length: usize,
}

impl Model for MutableNullArray {
    ghost use Rattle.nested_arrays_generic_builders.specs.nulls.columns.ColumnCodes.{column_code};
    ghost use Rattle.nested_arrays_generic_builders.specs.nulls.columns.StoredColumns.{Column, nulls};
    ghost use Rattle.nested_arrays_sized_builders.specs.NullBuilders.{AreNulls};

    ghost Value = { Column };

    ghost coded = { column_code };

    ghost view = { λ it. nulls it.data_type it.length };

    ghost invariant = { λ it. AreNulls it.data_type it.length };
}

impl MutableNullArray {
    /// So many nulls of a data type.
    ///
    /// # Errors
    /// `OutOfSpec`: arrays of the data type are not of nulls alone.
    /// `Overflow`: the nulls are more than a column may have.
    pub fn try_new(data_type: DataType, length: usize) -> Result<Self>
        ensures { BeginsNulls data_type length result }
    {
        if !is_of_nulls(&data_type) {
            return Err(Error::OutOfSpec("a data type whose arrays are not of nulls alone"));
        }
        if length > MOST_SLOTS {
            return Err(Error::Overflow);
        }
        Ok(MutableNullArray { data_type, length })
    }

    /// So many nulls of a data type whose arrays are of nulls alone, as `try_new` tests.
    pub fn new(data_type: DataType, length: usize) -> Self
        requires typed { is_sound (nulls data_type length) ≡ true }
        requires long { length ≤ most_slots }
        ensures { result ≡ nulls data_type length }
    {
        MutableNullArray { data_type, length }
    }

    /// The array of the nulls. Takes no memory.
    pub fn into_box(self) -> AnyArray
        ensures { result ≡ self }
    {
        let MutableNullArray { data_type, length } = self;
        NullArray::new(data_type, length).into_any()
    }
}

impl MutableArray for MutableNullArray {
    ghost column = { λ column. column };

    fn len(&self) -> usize {
        self.length
    }

    fn data_type(&self) -> &DataType {
        &self.data_type
    }

    fn validity(&self) -> Option<&MutableBitmap> {
        let _length = self.length;
        None
    }

    fn is_valid(&self, _i: usize) -> bool {
        let _length = self.length;
        false
    }

    fn as_box(&mut self, _alloc: Global) -> Result<AnyArray> {
        let length = self.length;
        self.length = 0;
        nulls_of(&self.data_type, length)
    }

    fn as_arc(&mut self, alloc: Global) -> Result<Rc<AnyArray>> {
        let array = self.as_box(alloc)?;
        Ok(Rc::new(alloc, array)?)
    }

    fn push_null(&mut self) -> Result<()>
        ensures counted { CountsNull self.old self.new result }
        ensures column { AddsNull self.old self.new result }
    {
        if self.length == MOST_SLOTS {
            return Err(Error::Overflow);
        }
        self.length += 1;
        Ok(())
    }

    fn reserve(&mut self, _additional: usize) -> Result<()> {
        Ok(())
    }

    fn shrink_to_fit(&mut self) {}

    fn truncate(&mut self, len: usize) {
        self.length = len;
    }
}

/// Whether arrays of a data type are of nulls alone.
#[tactic(auto, using(crate::proofs::NullColumns::laid_as_nulls, crate::proofs::NullColumns::laid_otherwise))]
fn is_of_nulls(data_type: &DataType) -> bool
    ensures { result ≡ is_null_type (type_layer data_type.now) }
{
    match data_type.to_physical_type() {
        PhysicalType::Null => true,
        _ => false,
    }
}

/// The array of so many nulls of a data type.
fn nulls_of(data_type: &DataType, length: usize) -> Result<AnyArray>
    requires { is_sound (nulls data_type.now length) ≡ true }
    ensures { OrOutOfMemory result (λ array. array ≡ nulls data_type.now length) }
{
    let data_type = data_type.clone()?;
    Ok(NullArray::new(data_type, length).into_any())
}
