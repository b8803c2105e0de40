//! Nulls in place of lists and of keys, whose children are given.
ghost use Rattle.std.specs.Prelude.{◌≡◌, pos, replicate};
ghost use Rattle.nested_arrays_iterators.specs.columnar_memory.Layouts.{physical_type};
ghost use Rattle.nested_arrays_iterators.specs.columnar_memory.declared.PhysicalType.TheVariants as physical;
ghost use Rattle.nested_arrays_iterators.specs.columns.StoredColumns.{dictionary, lists};
ghost use Rattle.nested_arrays_iterators.specs.generic.ListTypes.{list_layout};
ghost use Rattle.nested_arrays_nulls.specs.NullAnswers.{IsMade};
ghost use Rattle.nested_arrays_nulls.specs.NullColumns.{no_items, no_marks};

use crate::layouts::no_lists;
use nested_arrays_iterators::arrays::AnyArray;
use nested_arrays_iterators::columnar_memory::{DataType, Offset, Result};
use nested_arrays_iterators::flat_arrays::PrimitiveArray;
use nested_arrays_iterators::generic::{DictionaryArray, DictionaryKey, ListArray};
use std::alloc::Global;

/// So many nulls in place of lists of these items.
pub(crate) fn lists<O: Offset>(
    alloc: Global,
    data_type: DataType,
    items: AnyArray,
    length: usize,
) -> Result<ListArray<O>>
    requires { physical_type data_type ≡ list_layout O.IS_LARGE }
    ensures { IsMade (lists data_type (no_marks length) (no_items length) items) result }
{
    let parts = no_lists(alloc, length)?;
    let items = Box::new(alloc, items)?;
    let (offsets, mask) = parts;
    ListArray::try_new(data_type, offsets, items, Some(mask))
}

/// So many nulls in place of keys of these values.
#[tactic(auto, using(crate::proofs::Passed::plainest))]
pub(crate) fn dictionary<K: DictionaryKey>(
    alloc: Global,
    data_type: DataType,
    values: AnyArray,
    length: usize,
) -> Result<DictionaryArray<K>>
    requires { physical_type data_type ≡ physical.Dictionary K.KEY_TYPE }
    ensures { IsMade (dictionary data_type (no_marks length) (replicate length (pos 0)) values) result }
{
    let keys = PrimitiveArray::<K>::new_null(alloc, DataType::from(K::PRIMITIVE), length)?;
    DictionaryArray::try_new(data_type, keys, Box::new(alloc, values)?)
}
