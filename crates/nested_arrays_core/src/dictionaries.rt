//! Dictionaries.
ghost use Rattle.std.specs.Prelude.{◌≡◌, ◌+◌, ◌<◌, ◌≤◌, ◌≤ℤ◌, ◌↔◌, IsTrue, false, not, option_copied, pos, true};
ghost use Rattle.nested_arrays_access.specs.columnar_memory.Layouts.{physical_type};
ghost use Rattle.nested_arrays_access.specs.columnar_memory.Results.{OrOutOfMemory};
ghost use Rattle.nested_arrays_access.specs.columnar_memory.declared.PhysicalType.TheVariants as physical;
ghost use Rattle.nested_arrays_access.specs.columns.StoredColumns.{column_len, column_type, cut, is_valid_at, type_layer};
ghost use Rattle.nested_arrays_access.specs.flat.ColumnMasks.{column_mask, unset_in, ReplacesMask};
ghost use Rattle.nested_arrays_access.specs.arrays.Answers.{IsCheckedAs, LiesAs};
ghost use Rattle.nested_arrays_core.specs.Dictionaries.{has_order, is_value_type, key_at, keyed_by, raw_key, values_of};
ghost use Rattle.nested_arrays_core.specs.Dictionaries.{IsDictionaryOf};

use crate::keys::{DictionaryKey, name_values};
use nested_arrays_access::arrays::AnyArray;
use nested_arrays_access::columnar_memory::{Bitmap, Boxed, DataType, Error, PhysicalType, Result};
use nested_arrays_access::flat::{mark_at, primitive_is_sound, unset_marks};
use nested_arrays_access::flat_arrays::PrimitiveArray;
use nested_arrays_access::parts::fits;
use std::alloc::Global;
use std::marker::Model;

/// Values that stand apart, and for each slot a key, which is the place of its value; a slot is null where its key is (Arrow columnar format,
/// "Dictionary-encoded Layout"). A key under a null names nothing. A contract sees the column that the array stores.
#[derive(Debug, Drop)]
pub struct DictionaryArray<K: DictionaryKey> {
    pub(crate) data_type: DataType,
    pub(crate) keys: PrimitiveArray<K>,
    pub(crate) values: Box<AnyArray>,
}

impl<K: DictionaryKey> Model for DictionaryArray<K> {
    ghost use Rattle.nested_arrays_access.specs.columnar_memory.declared.PhysicalType.TheVariants as physical;
    ghost use Rattle.nested_arrays_access.specs.columns.ColumnCodes.{column_code};
    ghost use Rattle.nested_arrays_access.specs.columns.StoredColumns.{Column};
    ghost use Rattle.nested_arrays_access.specs.arrays.Answers.{LiesAs};
    ghost use Rattle.nested_arrays_core.specs.Dictionaries.{keyed_by};

    ghost Value = { Column };

    ghost coded = { column_code };

    ghost view = { λ it. keyed_by K.value it.data_type it.keys it.values.value };

    ghost invariant = { λ it. LiesAs (physical.Dictionary K.KEY_TYPE) (keyed_by K.value it.data_type it.keys it.values.value) };
}

/// Whether a data type is of dictionaries with such keys.
fn has_keys<K: DictionaryKey>(data_type: &DataType) -> bool
    ensures { IsTrue result ↔ (physical_type data_type.now ≡ physical.Dictionary K.KEY_TYPE) }
{
    data_type.to_physical_type() == PhysicalType::Dictionary(K::KEY_TYPE)
}

/// Whether a data type is of dictionaries whose values have another.
fn has_values(data_type: &DataType, value_type: &DataType) -> bool
    ensures { result ≡ is_value_type (type_layer data_type.now) value_type.now }
{
    match data_type.to_logical_type() {
        DataType::Dictionary(_, value, _) => *value.get() == *value_type,
        _ => false,
    }
}

/// Whether parts are those of a dictionary with such keys.
fn are_parts<K: DictionaryKey>(
    data_type: &DataType,
    keys: &PrimitiveArray<K>,
    values: &AnyArray,
) -> bool
    ensures { IsTrue result ↔ LiesAs (physical.Dictionary K.KEY_TYPE) (keyed_by K.value data_type.now keys.now values.now) }
{
    values.whole();
    primitive_is_sound(keys);
    let _slots = keys.len();
    if !has_keys::<K>(data_type) {
        return false;
    }
    if !has_values(data_type, values.data_type()) {
        return false;
    }
    name_values(keys, keys.validity(), values.len())
}

/// A data type in memory of its own.
fn boxed_type(alloc: Global, data_type: &DataType) -> Result<Boxed<DataType>>
    ensures { OrOutOfMemory result (λ boxed. boxed ≡ data_type.now) }
{
    Ok(Boxed::new(alloc, data_type.clone()?)?)
}

impl<K: DictionaryKey> DictionaryArray<K> {
    /// The array of a data type, keys and values. Takes no memory.
    ///
    /// # Errors
    /// `OutOfSpec`: the data type is not of dictionaries with such keys, the values have another type than it says, or the key of a slot that
    /// is not null is no place of a value.
    pub fn try_new(
        data_type: DataType,
        keys: PrimitiveArray<K>,
        values: Box<AnyArray>,
    ) -> Result<Self>
        ensures { IsCheckedAs (physical.Dictionary K.KEY_TYPE) (keyed_by K.value data_type keys values.value) result }
    {
        if !are_parts(&data_type, &keys, &values) {
            drop(data_type);
            drop(keys);
            drop(values);
            return Err(Error::OutOfSpec("a type, keys and values that make no dictionary"));
        }
        Ok(DictionaryArray {
            data_type,
            keys,
            values,
        })
    }

    /// The array of keys and values, of a data type that says no more than these.
    ///
    /// # Errors
    /// `OutOfSpec`: the key of a slot that is not null is no place of a value.
    /// `OutOfMemory`: the data type found no memory.
    pub fn try_from_keys(
        alloc: Global,
        keys: PrimitiveArray<K>,
        values: Box<AnyArray>,
    ) -> Result<Self>
        ensures { IsDictionaryOf K.KEY_TYPE (λ data_type. keyed_by K.value data_type keys values.value) (column_type values.value) result }
    {
        let value_type = boxed_type(alloc, values.data_type())?;
        DictionaryArray::try_new(
            DataType::Dictionary(K::KEY_TYPE, value_type, false),
            keys,
            values,
        )
    }

    /// How many slots there are.
    pub fn len(&self) -> usize
        ensures { result ≡ column_len self.now }
    {
        self.keys.len()
    }

    pub fn is_empty(&self) -> bool
        ensures { IsTrue result ↔ (column_len self.now ≡ 0) }
    {
        self.len() == 0
    }

    pub fn data_type(&self) -> &DataType
        ensures { result.now ≡ column_type self.now }
    {
        &self.data_type
    }

    /// Whether the order of the values has a meaning.
    pub fn is_ordered(&self) -> bool
        ensures { result ≡ has_order (type_layer (column_type self.now)) }
    {
        match self.data_type.to_logical_type() {
            DataType::Dictionary(_, _, is_ordered) => *is_ordered,
            _ => false,
        }
    }

    /// The keys, those under nulls too; their mask is the array's.
    pub fn keys(&self) -> &PrimitiveArray<K>
        ensures { keyed_by K.value (column_type self.now) result.now (values_of self.now) ≡ self.now }
    {
        &self.keys
    }

    /// The values that keys name.
    pub fn values(&self) -> &AnyArray
        ensures { result.now ≡ values_of self.now }
    {
        &self.values
    }

    /// The mask, where there is one: a bit is set where its slot is not null.
    pub fn validity(&self) -> Option<&Bitmap>
        ensures { option_copied result ≡ column_mask self.now }
    {
        self.keys.validity()
    }

    /// Replaces the mask, which is that of the keys.
    ///
    /// # Errors
    /// `InvalidArgumentError`: the mask has another length than the array, or a key that it says is valid names no value. The array is as it
    /// was.
    pub fn set_validity(&mut self, validity: Option<Bitmap>) -> Result<()>
        ensures { ReplacesMask self.old validity self.new result }
    {
        if !fits(&validity, self.len()) {
            return Err(Error::InvalidArgumentError("a mask of another length than the array"));
        }
        let count = self.values.len();
        if !name_values(&self.keys, validity.as_ref(), count) {
            return Err(Error::InvalidArgumentError(
                "a mask that makes a key valid that names no value",
            ));
        }
        self.keys.set_validity(validity);
        Ok(())
    }

    /// How many slots are null by the mask.
    pub fn null_count(&self) -> usize
        ensures { result ≡ unset_in (column_mask self.now) }
    {
        unset_marks(self.validity())
    }

    /// Whether the mask says that a slot has a key.
    pub fn is_valid(&self, i: usize) -> bool
        requires { i < column_len self.now }
        ensures { result ≡ is_valid_at (column_mask self.now) i }
    {
        self.whole();
        mark_at(self.validity(), i)
    }

    /// Whether the mask says that a slot has no key.
    pub fn is_null(&self, i: usize) -> bool
        requires { i < column_len self.now }
        ensures { result ≡ not (is_valid_at (column_mask self.now) i) }
    {
        !self.is_valid(i)
    }

    /// The place that the key of a slot names; of a null the raw key, which may name nothing.
    pub fn key_value(&self, index: usize) -> usize
        requires within { index < column_len self.now }
        requires place { pos 0 ≤ℤ raw_key self.now index }
        ensures { raw_key self.now index ≡ pos result }
    {
        self.keys.value(index).as_usize()
    }

    /// The place that a slot names, or none where it is null.
    pub fn key(&self, i: usize) -> Option<usize>
        requires { i < column_len self.now }
        ensures { result ≡ key_at self.now i }
    {
        let _keys = &self.keys;
        self.whole();
        if !self.is_valid(i) {
            return None;
        }
        Some(self.key_value(i))
    }

    /// Hands to a proof what holds of every such array.
    pub fn whole(&self)
        ensures { LiesAs (physical.Dictionary K.KEY_TYPE) self.now }
    {
        let _field = &self.keys;
    }

    /// Narrows this to the `count` slots from `offset` on, with no copy.
    pub fn slice(&mut self, offset: usize, count: usize)
        requires { offset + count ≤ column_len self.old }
        ensures { self.new ≡ cut self.old offset count }
    {
        self.keys.slice(offset, count);
    }

    /// The `count` slots from `offset` on, in the same memory.
    pub fn sliced(self, offset: usize, count: usize) -> Self
        requires { offset + count ≤ column_len self }
        ensures { result ≡ cut self offset count }
    {
        let mut array = self;
        array.slice(offset, count);
        array
    }
}
