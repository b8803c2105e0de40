//! The trait of builders.
ghost use Rattle.std.specs.Prelude.{◌≡◌, ◌<◌, ◌≤◌, ◌↔◌, not, option_copied, IfErr, IsTrue};
ghost use Rattle.nested_arrays_builders.specs.arrays.flat.ColumnMasks.{column_mask};
ghost use Rattle.nested_arrays_builders.specs.columnar_memory.Error.{IsOutOfMemory};
ghost use Rattle.nested_arrays_builders.specs.columns.StoredColumns.{Column, column_len, column_type};
ghost use Rattle.nested_arrays_builders.specs.generic.access.Nulls.{is_null_at};
ghost use Rattle.nested_arrays_builders.specs.parts.Open.{column_of};
ghost use Rattle.nested_arrays_builder_arrays.specs.OpenColumns.{AddsNull, IsFrozen, KeepsFirst, TakesColumn};
ghost use Rattle.nested_arrays_builder_arrays.specs.Taken.{IsTaken};

use crate::taken::{as_arc, as_array};
use nested_arrays_builders::AnyMutableArray;
use nested_arrays_builders::arrays::AnyArray;
use nested_arrays_builders::columnar_memory::{DataType, MutableBitmap, Result};
use std::alloc::Global;
use std::rc::Rc;

/// A builder of any type, of which a contract sees the column that it would be frozen to. Between calls that column may be unsound, as that of
/// lists whose items were lent for writing and are not as many as the offsets say; no array is made of it then.
///
/// A call that is refused changes no slot, but for `as_box` and `as_arc`, which leave an empty builder in any case.
pub trait MutableArray: Drop + Sized {
    ghost column: { Self → Column };

    /// How many slots there are.
    fn len(&self) -> usize
        ensures { result ≡ column_len (column self.now) };

    fn data_type(&self) -> &DataType
        ensures { result.now ≡ column_type (column self.now) };

    /// The mask, where there is one: a bit is set where its slot is not null.
    fn validity(&self) -> Option<&MutableBitmap>
        ensures { option_copied result ≡ column_mask (column self.now) };

    /// Whether the slot at a place has a value: none has of nulls alone, and else the mask says it.
    fn is_valid(&self, i: usize) -> bool
        requires { i < column_len (column self.now) }
        ensures { result ≡ not (is_null_at (column self.now) i) };

    /// The array of the slots; this is left empty, as a new builder of its data type.
    ///
    /// # Errors
    /// `OutOfMemory`: the array, or what is left, found no memory.
    /// `OutOfSpec`: the column is not sound. In either case this is left empty too.
    fn as_box(&mut self, alloc: Global) -> Result<AnyArray>
        ensures { TakesColumn (column self.old) (column self.new) (λ array. array) result };

    /// The array of the slots behind a count of owners; this is left empty, as a new builder of its data type.
    ///
    /// # Errors
    /// `OutOfMemory`: the array, the count, or what is left, found no memory.
    /// `OutOfSpec`: the column is not sound. In either case this is left empty too.
    fn as_arc(&mut self, alloc: Global) -> Result<Rc<AnyArray>>
        ensures { TakesColumn (column self.old) (column self.new) (λ counted. counted.value) result }
    {
        let array = self.as_box(alloc)?;
        Ok(Rc::new(alloc, array)?)
    }

    /// Pushes a null.
    ///
    /// # Errors
    /// `Overflow`: the slots with this one are more than a column may have, at some depth.
    /// `OutOfMemory`: the slot found no memory.
    fn push_null(&mut self) -> Result<()>
        ensures { AddsNull (column self.old) (column self.new) result };

    /// Makes room for some more slots: marks, offsets and values, but for items of lists of any length.
    ///
    /// # Errors
    /// `OutOfMemory`: the room found no memory.
    fn reserve(&mut self, additional: usize) -> Result<()>
        ensures same { column self.new ≡ column self.old }
        ensures error { IfErr result IsOutOfMemory };

    /// Gives back memory that no slot needs, as far as the allocator takes it.
    fn shrink_to_fit(&mut self)
        ensures { column self.new ≡ column self.old };

    /// Keeps the first `len` slots alone.
    fn truncate(&mut self, len: usize)
        requires { len ≤ column_len (column self.old) }
        ensures { KeepsFirst (column self.old) len (column self.new) };

    /// The array of the slots.
    ///
    /// # Errors
    /// `OutOfMemory`: the array, or what is left of the builder, found no memory.
    /// `OutOfSpec`: the column is not sound.
    fn into_box(self, alloc: Global) -> Result<AnyArray>
        ensures { IsFrozen (λ array. array) (column self) result }
    {
        let mut builder = self;
        builder.as_box(alloc)
    }

    /// The array of the slots behind a count of owners.
    ///
    /// # Errors
    /// `OutOfMemory`: the array, the count, or what is left of the builder, found no memory.
    /// `OutOfSpec`: the column is not sound.
    fn into_arc(self, alloc: Global) -> Result<Rc<AnyArray>>
        ensures { IsFrozen (λ counted. counted.value) (column self) result }
    {
        let mut builder = self;
        builder.as_arc(alloc)
    }

    fn is_empty(&self) -> bool
        ensures { IsTrue result ↔ (column_len (column self.now) ≡ 0) }
    {
        self.len() == 0
    }
}

impl MutableArray for AnyMutableArray {
    ghost column = { column_of };

    fn len(&self) -> usize {
        self.whole();
        AnyMutableArray::len(self)
    }

    fn data_type(&self) -> &DataType {
        AnyMutableArray::data_type(self)
    }

    fn validity(&self) -> Option<&MutableBitmap> {
        AnyMutableArray::validity(self)
    }

    fn is_valid(&self, i: usize) -> bool {
        self.whole();
        AnyMutableArray::is_valid(self, i)
    }

    fn as_box(&mut self, alloc: Global) -> Result<AnyArray>
        ensures taken { IsTaken self.old self.new (λ array. array) result }
        ensures column { TakesColumn (column_of self.old) (column_of self.new) (λ array. array) result }
    {
        self.whole();
        as_array(self, alloc)
    }

    fn as_arc(&mut self, alloc: Global) -> Result<Rc<AnyArray>>
        ensures taken { IsTaken self.old self.new (λ counted. counted.value) result }
        ensures column { TakesColumn (column_of self.old) (column_of self.new) (λ counted. counted.value) result }
    {
        self.whole();
        as_arc(self, alloc)
    }

    fn push_null(&mut self) -> Result<()> {
        self.whole();
        AnyMutableArray::push_null(self)
    }

    fn reserve(&mut self, additional: usize) -> Result<()> {
        AnyMutableArray::reserve(self, additional)
    }

    fn shrink_to_fit(&mut self) {
        AnyMutableArray::shrink_to_fit(self);
    }

    fn truncate(&mut self, len: usize) {
        self.whole();
        AnyMutableArray::truncate(self, len);
    }
}
