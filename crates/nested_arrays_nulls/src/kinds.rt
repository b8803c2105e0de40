//! Arrays of nulls, and without slots, of each kind that has children.
ghost use Rattle.nested_arrays_iterators.specs.columnar_memory.declared.PhysicalType.{PhysicalType};
ghost use Rattle.nested_arrays_iterators.specs.columnar_memory.declared.PhysicalType.TheVariants as physical;
ghost use Rattle.nested_arrays_iterators.specs.parts.FlatLayouts.{TakesKind};
ghost use Rattle.nested_arrays_nulls.specs.NullAnswers.{IsNullArrayAs};

use crate::nulls::new_null_array;
use nested_arrays_iterators::access::Array;
use nested_arrays_iterators::arrays::{
    AnyArray, FixedSizeListArray, MapArray, StructArray, UnionArray,
};
use nested_arrays_iterators::columnar_memory::{DataType, Error};
use nested_arrays_iterators::generic::{DictionaryArray, DictionaryKey, ListArray};
use std::alloc::Global;

/// Arrays of one kind, with children, that are made of nulls.
pub trait NullArrays: Array {
    /// How such arrays lie in memory.
    ghost layout: { PhysicalType };

    /// The array of this kind that an array of any type is, without memory.
    ///
    /// # Errors
    /// The array as it was: it is of another kind.
    fn try_from_any(any: AnyArray) -> Result<Self, AnyArray>
        ensures { TakesKind Self.column layout any result };

    /// An array of so many nulls of a type, as `new_null_array` makes it.
    ///
    /// # Errors
    /// As of `new_null_array`, and `OutOfSpec` where arrays of the type are of another kind.
    #[tactic(auto, using(crate::proofs::Made::sound_refused))]
    final fn new_null(alloc: Global, data_type: DataType, length: usize) -> Result<Self, Error>
        ensures { IsNullArrayAs Self.column Self.layout data_type length result }
    {
        match Self::try_from_any(new_null_array(alloc, data_type, length)?) {
            Ok(array) => Ok(array),
            Err(_) => Err(Error::OutOfSpec("arrays of this type are of another kind")),
        }
    }

    /// An array of a type without slots.
    ///
    /// # Errors
    /// As of `new_null`, except that no length is too great.
    final fn new_empty(alloc: Global, data_type: DataType) -> Result<Self, Error>
        ensures { IsNullArrayAs Self.column Self.layout data_type 0 result }
    {
        Self::new_null(alloc, data_type, 0)
    }
}

impl NullArrays for StructArray {
    ghost layout = { physical.Struct };

    fn try_from_any(any: AnyArray) -> Result<Self, AnyArray> {
        StructArray::try_from(any)
    }
}

impl NullArrays for UnionArray {
    ghost layout = { physical.Union };

    fn try_from_any(any: AnyArray) -> Result<Self, AnyArray> {
        UnionArray::try_from(any)
    }
}

impl NullArrays for MapArray {
    ghost layout = { physical.Map };

    fn try_from_any(any: AnyArray) -> Result<Self, AnyArray> {
        MapArray::try_from(any)
    }
}

impl NullArrays for FixedSizeListArray {
    ghost layout = { physical.FixedSizeList };

    fn try_from_any(any: AnyArray) -> Result<Self, AnyArray> {
        FixedSizeListArray::try_from(any)
    }
}

impl NullArrays for ListArray<i32> {
    ghost layout = { physical.List };

    fn try_from_any(any: AnyArray) -> Result<Self, AnyArray> {
        ListArray::<i32>::try_from(any)
    }
}

impl NullArrays for ListArray<i64> {
    ghost layout = { physical.LargeList };

    fn try_from_any(any: AnyArray) -> Result<Self, AnyArray> {
        ListArray::<i64>::try_from(any)
    }
}

impl<K: DictionaryKey> NullArrays for DictionaryArray<K> {
    ghost layout = { physical.Dictionary K.KEY_TYPE };

    fn try_from_any(any: AnyArray) -> Result<Self, AnyArray> {
        DictionaryArray::<K>::try_from(any)
    }
}
