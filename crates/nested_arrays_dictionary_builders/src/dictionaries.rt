//! Builders of dictionaries.
ghost use Rattle.std.specs.Prelude.{◌≡◌, ◌+◌, ◌<◌, ◌≤◌, ◌↔◌, length, not, take, true, IsTrue};
ghost use Rattle.std.specs.List.{count_by};
ghost use Rattle.nested_arrays_sized_builders.specs.values.Uses.{greatest};
ghost use Rattle.nested_arrays_sized_builders.specs.nulls.columnar_memory.Layouts.{physical_type};
ghost use Rattle.nested_arrays_sized_builders.specs.nulls.columnar_memory.Results.{OrOutOfMemory};
ghost use Rattle.nested_arrays_sized_builders.specs.nulls.columnar_memory.declared.PhysicalType.TheVariants as physical;
ghost use Rattle.nested_arrays_sized_builders.specs.nulls.columns.Slots.{null};
ghost use Rattle.nested_arrays_sized_builders.specs.nulls.columns.StoredColumns.{column_len, column_type, slots, type_layer};
ghost use Rattle.nested_arrays_sized_builders.specs.nulls.generic.Dictionaries.{dictionary_type, is_value_type, keyed_by};
ghost use Rattle.nested_arrays_sized_builders.specs.cells.taken.OpenColumns.{IsFrozen, KeepsFirst, TakesColumn};
ghost use Rattle.nested_arrays_sized_builders.specs.MarkedSlots.{AddsSlot};
ghost use Rattle.nested_arrays_dictionary_builders.specs.DictionaryBuilders.{dictionary_column, no_keys};
ghost use Rattle.nested_arrays_dictionary_builders.specs.DictionaryBuilders.{Begins, IsKeyOf, KeepsUses, LeavesNoKeys};
ghost use Rattle.nested_arrays_dictionary_builders.specs.SlotHashes.{hashes_as};

use crate::items::{SlotIs, TryExtend, TryPush};
use crate::keys::{copy_of_keys, freeze_parts};
use crate::places::{add_item, place_of, whole_values};
use nested_arrays_sized_builders::cells::builders::values::{
    Places, SlotUses, add_use, most_values_of,
};
use nested_arrays_sized_builders::cells::parts::Marks;
use nested_arrays_sized_builders::cells::taken::MutableArray;
use nested_arrays_sized_builders::flat_arrays::PrimitiveArray;
use nested_arrays_sized_builders::nulls::arrays::AnyArray;
use nested_arrays_sized_builders::nulls::columnar_memory::{
    Boxed, DataType, Error, MutableBitmap, PhysicalType, Result, Steps,
};
use nested_arrays_sized_builders::nulls::generic::{DictionaryArray, DictionaryKey, ToBoxed};
use std::alloc::Global;
use std::marker::{Model, PhantomData};
use std::mem;
use std::rc::Rc;

/// A builder of dictionaries over a builder of their values (Arrow columnar format, "Dictionary-encoded Layout"). A contract sees the data type,
/// how many of the values each slot needs, which is one more than its key and none under a null, and the builder of the values.
///
/// An item that is no value yet is pushed to the values; each is found by its hash and told by what it is. So where the values are fresh, they are
/// the distinct slots in the order of first use.
#[derive(Drop)]
pub struct MutableDictionaryArray<K: DictionaryKey, M: MutableArray> {
    alloc: Global,
    data_type: DataType,
    marks: Marks,
    uses: SlotUses,
    places: Places,
    values: M,
    key: PhantomData<K>,
}

impl<K: DictionaryKey, M: MutableArray> Model for MutableDictionaryArray<K, M> {
    ghost use Rattle.nested_arrays_dictionary_builders.specs.DictionaryBuilders.{dictionary_parts, dictionary_parts_code, AreKeyed};
    ghost use Rattle.nested_arrays_dictionary_builders.specs.DictionaryBuilders.{DictionaryParts};

    ghost Value = { DictionaryParts M };

    ghost coded = { dictionary_parts_code M.code };

    ghost view = { λ it. dictionary_parts it.data_type it.uses it.values };

    ghost invariant = { λ it. AreKeyed K.KEY_TYPE it.data_type it.marks it.uses it.places (M.column it.values) };
}

impl<K: DictionaryKey, M: MutableArray> MutableDictionaryArray<K, M> {
    /// A builder without slots, of a data type, over a builder that has no values yet. Takes no memory.
    ///
    /// # Errors
    /// `OutOfSpec`: the data type is not of dictionaries with such keys and values, or there are values.
    pub fn try_new(alloc: Global, data_type: DataType, values: M) -> Result<Self>
        ensures { Begins K.KEY_TYPE M.column data_type values result }
    {
        if !values.is_empty() {
            return Err(Error::OutOfSpec("a dictionary that begins with values"));
        }
        if !has_keys::<K>(&data_type) || !has_values(&data_type, values.data_type()) {
            return Err(Error::OutOfSpec("a type of other keys or values"));
        }
        Ok(make(alloc, data_type, values))
    }

    /// A builder without slots over a builder that has no values yet, where the order of the values has no meaning.
    ///
    /// # Errors
    /// `OutOfMemory`: the data type found no memory.
    pub fn new(alloc: Global, values: M) -> Result<Self>
        requires { column_len (M.column values) ≡ 0 }
        ensures { OrOutOfMemory result (λ builder. builder ≡ no_keys (dictionary_type K.KEY_TYPE (column_type (M.column values))) values) }
    {
        let value_type = Boxed::new(alloc, values.data_type().clone()?)?;
        let data_type = DataType::Dictionary(K::KEY_TYPE, value_type, false);
        Ok(make(alloc, data_type, values))
    }

    /// The key of the value that an item is, if it is one of them. Takes no memory.
    pub fn key_of<T>(&self, item: &T) -> Option<K>
    where
        M: SlotIs<T>,
        ensures { IsKeyOf K.value (M.column self.now.values) (M.slot item.now) result }
    {
        self.key_of_counted(item, &mut Steps::new())
    }

    /// The same, with a step for each value that the item is compared with: no more than have its hash.
    pub fn key_of_counted<T>(&self, item: &T, steps: &mut Steps) -> Option<K>
    where
        M: SlotIs<T>,
        ensures key { IsKeyOf K.value (M.column self.now.values) (M.slot item.now) result }
        ensures counted { steps.new.count ≤ steps.old.count + count_by (hashes_as (M.slot item.now)) (slots (M.column self.now.values)) }
    {
        match place_of(&self.values, &self.places, item, steps) {
            Some(place) => Some(K::from_as_usize(place)),
            None => None,
        }
    }

    /// The keys of the slots, 0 under a null, as an array of their own.
    ///
    /// # Errors
    /// `OutOfMemory`: the keys or their mask found no memory.
    pub fn keys(&self, alloc: Global) -> Result<PrimitiveArray<K>>
        ensures { OrOutOfMemory result (λ keys. keyed_by K.value self.now.data_type keys (M.column self.now.values)
            ≡ dictionary_column M.column self.now) }
    {
        copy_of_keys(alloc, &self.marks, &self.uses)
    }

    /// The values that keys name, in the order of first use.
    pub fn values(&self) -> &M
        ensures { result.now ≡ self.now.values }
    {
        &self.values
    }

    /// How many slots there are.
    pub fn len(&self) -> usize
        ensures { result ≡ length self.now.uses }
    {
        self.uses.len()
    }

    pub fn data_type(&self) -> &DataType
        ensures { result.now ≡ self.now.data_type }
    {
        &self.data_type
    }

    /// Pushes a null.
    ///
    /// # Errors
    /// `Overflow`: there are as many slots as a column may have.
    /// `OutOfMemory`: the null found no memory.
    pub fn push_null(&mut self) -> Result<()>
        ensures { AddsSlot (dictionary_column M.column self.old) null (dictionary_column M.column self.new) result }
    {
        add_use(&mut self.marks, &mut self.uses, false, 0)
    }

    /// Keeps the first `len` slots alone, and the values that are theirs.
    pub fn truncate(&mut self, len: usize)
        requires { len ≤ length self.old.uses }
        ensures uses { KeepsUses self.old len self.new }
        ensures values { KeepsFirst (M.column self.old.values) (greatest (take len self.old.uses)) (M.column self.new.values) }
        ensures column { KeepsFirst (dictionary_column M.column self.old) len (dictionary_column M.column self.new) }
    {
        let named = self.uses.truncate(len);
        self.marks.truncate(len);
        self.places.truncate(named);
        self.values.truncate(named);
    }

    /// The array of the slots; this is left empty.
    fn take(&mut self, alloc: Global) -> Result<DictionaryArray<K>>
        ensures left { LeavesNoKeys M.column self.old self.new }
        ensures column { TakesColumn (dictionary_column M.column self.old) (dictionary_column M.column self.new) (λ array. array) result }
    {
        let marks = mem::replace(&mut self.marks, Marks::new(alloc));
        let uses = mem::replace(&mut self.uses, SlotUses::new(alloc));
        self.places = Places::new(alloc);
        let values = self.values.as_box(alloc);
        freeze_parts(alloc, &self.data_type, marks, uses, values)
    }

    /// The array of the slots.
    ///
    /// # Errors
    /// `OutOfMemory`: the array, or what is left of the builder, found no memory.
    /// `OutOfSpec`: the column is not sound, which it is where the values are.
    pub fn freeze(self, alloc: Global) -> Result<DictionaryArray<K>>
        ensures { IsFrozen (λ array. array) (dictionary_column M.column self) result }
    {
        let mut builder = self;
        builder.take(alloc)
    }
}

impl<T, K: DictionaryKey, M: SlotIs<T>> TryPush<T> for MutableDictionaryArray<K, M> {
    ghost slot = { M.slot };

    fn try_push(&mut self, item: &T) -> Result<()> {
        whole_values(&self.values);
        add_item(
            self.alloc,
            most_values_of(K::KEY_TYPE),
            &mut self.marks,
            &mut self.uses,
            &mut self.places,
            &mut self.values,
            item,
        )
    }
}

impl<T, K: DictionaryKey, M: SlotIs<T>> TryExtend<T> for MutableDictionaryArray<K, M> {}

impl<K: DictionaryKey, M: MutableArray> MutableArray for MutableDictionaryArray<K, M> {
    ghost column = { dictionary_column M.column };

    fn len(&self) -> usize {
        MutableDictionaryArray::len(self)
    }

    fn data_type(&self) -> &DataType {
        MutableDictionaryArray::data_type(self)
    }

    fn validity(&self) -> Option<&MutableBitmap> {
        self.marks.validity()
    }

    fn is_valid(&self, i: usize) -> bool {
        self.marks.is_valid(i)
    }

    fn as_box(&mut self, alloc: Global) -> Result<AnyArray>
        ensures left { LeavesNoKeys M.column self.old self.new }
        ensures column { TakesColumn (dictionary_column M.column self.old) (dictionary_column M.column self.new) (λ array. array) result }
    {
        let array = self.take(alloc)?;
        Ok(array.into_any())
    }

    fn as_arc(&mut self, alloc: Global) -> Result<Rc<AnyArray>>
        ensures left { LeavesNoKeys M.column self.old self.new }
        ensures column { TakesColumn (dictionary_column M.column self.old) (dictionary_column M.column self.new) (λ counted. counted.value) result }
    {
        let array = self.take(alloc)?;
        Ok(Rc::new(alloc, array.into_any())?)
    }

    fn push_null(&mut self) -> Result<()> {
        MutableDictionaryArray::push_null(self)
    }

    fn reserve(&mut self, additional: usize) -> Result<()> {
        self.marks.reserve(additional)?;
        self.uses.reserve(additional)?;
        Ok(())
    }

    fn shrink_to_fit(&mut self) {
        self.marks.shrink_to_fit();
        self.uses.shrink_to_fit();
        self.values.shrink_to_fit();
    }

    fn truncate(&mut self, len: usize) {
        MutableDictionaryArray::truncate(self, len);
    }
}

/// Whether a data type is of dictionaries with such keys.
fn has_keys<K: DictionaryKey>(data_type: &DataType) -> bool
    ensures { IsTrue result ↔ (physical_type data_type.now ≡ physical.Dictionary K.KEY_TYPE) }
{
    data_type.to_physical_type() == PhysicalType::Dictionary(K::KEY_TYPE)
}

/// Whether a data type is of dictionaries whose values have another.
fn has_values(data_type: &DataType, value_type: &DataType) -> bool
    ensures { result ≡ is_value_type (type_layer data_type.now) value_type.now }
{
    match data_type.to_logical_type() {
        DataType::Dictionary(_, value, _) => *value.get() == *value_type,
        _ => false,
    }
}

/// The builder without slots of a data type and of its values.
fn make<K: DictionaryKey, M: MutableArray>(
    alloc: Global,
    data_type: DataType,
    values: M,
) -> MutableDictionaryArray<K, M>
    requires lies { physical_type data_type ≡ physical.Dictionary K.KEY_TYPE }
    requires valued { is_value_type (type_layer data_type) (column_type (M.column values)) ≡ true }
    requires empty { column_len (M.column values) ≡ 0 }
    ensures { result ≡ no_keys data_type values }
{
    MutableDictionaryArray {
        alloc,
        data_type,
        marks: Marks::new(alloc),
        uses: SlotUses::new(alloc),
        places: Places::new(alloc),
        values,
        key: PhantomData,
    }
}
