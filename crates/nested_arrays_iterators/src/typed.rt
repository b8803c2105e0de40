//! Dictionaries whose values are items of one kind, slot by slot.
ghost use Rattle.std.specs.Prelude.{◌≡◌, false, true, MatchOption};
ghost use Rattle.nested_arrays_core.specs.columnar_memory.declared.PhysicalType.{PhysicalType};
ghost use Rattle.nested_arrays_core.specs.columnar_memory.declared.PhysicalType.TheVariants as physical;
ghost use Rattle.nested_arrays_core.specs.columns.Slots.{Slot, text};
ghost use Rattle.nested_arrays_core.specs.columns.StoredColumns.{Column, column_len};
ghost use Rattle.nested_arrays_core.specs.parts.Childless.{is_childless};
ghost use Rattle.nested_arrays_core.specs.parts.FlatLayouts.{layout_in, lies_as};
ghost use Rattle.nested_arrays_core.specs.arrays.Variants.{is_flat_node};
ghost use Rattle.nested_arrays_core.specs.Dictionaries.{values_of};
ghost use Rattle.nested_arrays_iterators.specs.NamedValues.{AreNamed};
ghost use Rattle.nested_arrays_iterators.specs.TextItems.{AreThere, ShowsTexts};
ghost use Rattle.nested_arrays_iterators.specs.TypedValues.{IsDowncast, IsKeyed, IsKeyedSlot, ShowSlotsByKeys, ShowValuesByKeys};

use nested_arrays_core::access::Array;
use nested_arrays_core::arrays::{AnyArray, Node};
use nested_arrays_core::columnar_memory::{Error, Offset, Result};
use nested_arrays_core::flat_arrays::{ArrayAccessor, ArrayValuesIter, Utf8Array};
use nested_arrays_core::parts::{FlatArray, FlatNode};
use nested_arrays_core::{DictionaryArray, DictionaryKey};

/// Arrays, by reference, as which the values of a dictionary may be read: arrays of texts. `slot` is the slot that an item shows, and
/// `layout` says how such arrays lie in memory.
pub trait DictValue<'a>: ArrayAccessor + Sized {
    ghost slot: { Self.Item → Slot };

    ghost layout: { PhysicalType };

    /// The array as one of this kind.
    ///
    /// # Errors
    /// `InvalidArgumentError`: the array is of another kind, or a slot of it is null.
    fn downcast_values(array: &'a AnyArray) -> Result<Self>
        ensures { IsDowncast Self.is_item slot Self.count layout array.now result };
}

/// What a node holds where it is an array without children.
fn flat_in(node: &Node) -> Option<&FlatArray>
    ensures { MatchOption result (is_flat_node node.now ≡ false) (λ inside. node.now ≡ Node.Flat inside.now) }
{
    match node {
        Node::Flat(inside) => Some(inside),
        _ => None,
    }
}

/// What a node holds where it is texts with offsets of 32 bits.
fn utf8_in(node: &FlatNode) -> Option<&Utf8Array<i32>>
    ensures { MatchOption result (lies_as node.now physical.Utf8 ≡ false) (λ inside. node.now ≡ FlatNode.Utf8 inside.now) }
{
    match node {
        FlatNode::Utf8(inside) => Some(inside),
        _ => None,
    }
}

/// What a node holds where it is texts with offsets of 64 bits.
fn large_utf8_in(node: &FlatNode) -> Option<&Utf8Array<i64>>
    ensures { MatchOption result (lies_as node.now physical.LargeUtf8 ≡ false) (λ inside. node.now ≡ FlatNode.LargeUtf8 inside.now) }
{
    match node {
        FlatNode::LargeUtf8(inside) => Some(inside),
        _ => None,
    }
}

/// An array as one without children, if it is one.
#[tactic(auto, using(crate::proofs::Passed::flat_not))]
fn as_flat(array: &AnyArray) -> Option<&FlatArray>
    ensures { MatchOption result (¬ (is_childless (layout_in array.now) ≡ true)) (λ flat. flat.now ≡ array.now) }
{
    array.node.lies();
    match flat_in(&array.node) {
        Some(flat) => Some(flat),
        None => None,
    }
}

/// An array without children as one of texts with offsets of 32 bits, if it is one.
#[tactic(auto, using(crate::proofs::Passed::lies_not))]
fn flat_as_utf8(array: &FlatArray) -> Option<&Utf8Array<i32>>
    ensures { ShowsTexts physical.Utf8 array.now result }
{
    array.node.lies();
    match utf8_in(&array.node) {
        Some(texts) => {
            let _data_type = texts.data_type();
            Some(texts)
        }
        None => None,
    }
}

/// The same of offsets of 64 bits.
#[tactic(auto, using(crate::proofs::Passed::lies_not))]
fn flat_as_large_utf8(array: &FlatArray) -> Option<&Utf8Array<i64>>
    ensures { ShowsTexts physical.LargeUtf8 array.now result }
{
    array.node.lies();
    match large_utf8_in(&array.node) {
        Some(texts) => {
            let _data_type = texts.data_type();
            Some(texts)
        }
        None => None,
    }
}

/// An array as one of texts with offsets of 32 bits, if it is one.
fn as_utf8(array: &AnyArray) -> Option<&Utf8Array<i32>>
    ensures { ShowsTexts physical.Utf8 array.now result }
{
    match as_flat(array) {
        Some(flat) => match flat_as_utf8(flat) {
            Some(texts) => Some(texts),
            None => None,
        },
        None => None,
    }
}

/// The same of offsets of 64 bits.
fn as_large_utf8(array: &AnyArray) -> Option<&Utf8Array<i64>>
    ensures { ShowsTexts physical.LargeUtf8 array.now result }
{
    match as_flat(array) {
        Some(flat) => match flat_as_large_utf8(flat) {
            Some(texts) => Some(texts),
            None => None,
        },
        None => None,
    }
}

/// Texts, if no slot of them is null.
///
/// # Errors
/// `InvalidArgumentError`: a slot is null.
fn without_nulls<O: Offset>(texts: &Utf8Array<O>) -> Result<&Utf8Array<O>>
    ensures { AreThere texts.now result }
{
    if Array::null_count(texts) > 0 {
        return Err(Error::InvalidArgumentError("values of which one is null"));
    }
    Ok(texts)
}

impl<'a> DictValue<'a> for &'a Utf8Array<i32> {
    ghost slot = { λ item. text item.now };

    ghost layout = { physical.Utf8 };

    fn downcast_values(array: &'a AnyArray) -> Result<Self> {
        array.whole();
        match as_utf8(array) {
            Some(texts) => without_nulls(texts),
            None => Err(Error::InvalidArgumentError("values that are no such texts")),
        }
    }
}

impl<'a> DictValue<'a> for &'a Utf8Array<i64> {
    ghost slot = { λ item. text item.now };

    ghost layout = { physical.LargeUtf8 };

    fn downcast_values(array: &'a AnyArray) -> Result<Self> {
        array.whole();
        match as_large_utf8(array) {
            Some(texts) => without_nulls(texts),
            None => Err(Error::InvalidArgumentError("values that are no such texts")),
        }
    }
}

/// The values of a dictionary as items of one kind, slot by slot, where each key names one, those under nulls too.
#[derive(Drop)]
pub struct TypedValues<'a, K: DictionaryKey, V: ArrayAccessor> {
    pub array: &'a DictionaryArray<K>,
    pub values: V,
    ghost named: { AreNamed array.now },
    ghost counted: { V.count values ≡ column_len (values_of array.now) },
}

/// The slots of a dictionary as items of one kind, none where a slot is null.
#[derive(Drop)]
pub struct TypedSlots<'a, K: DictionaryKey, V: ArrayAccessor> {
    pub array: &'a DictionaryArray<K>,
    pub values: V,
    ghost counted: { V.count values ≡ column_len (values_of array.now) },
}

/// The values of a dictionary as items of one kind, slot by slot.
pub type DictionaryValuesIterTyped<'a, K, V> = ArrayValuesIter<TypedValues<'a, K, V>>;

impl<'a, K: DictionaryKey, V: ArrayAccessor> ArrayAccessor for TypedValues<'a, K, V> {
    type Item = V::Item;

    ghost count = { λ typed. column_len typed.array.now };

    ghost is_item = { λ typed i item. IsKeyed V.is_item typed.array.now typed.values i item };

    fn value(&self, index: usize) -> V::Item {
        self.values.value(self.array.key_value(index))
    }

    fn len(&self) -> usize {
        self.array.len()
    }
}

impl<'a, K: DictionaryKey, V: ArrayAccessor> ArrayAccessor for TypedSlots<'a, K, V> {
    type Item = Option<V::Item>;

    ghost count = { λ typed. column_len typed.array.now };

    ghost is_item = { λ typed i item. IsKeyedSlot V.is_item typed.array.now typed.values i item };

    fn value(&self, index: usize) -> Option<V::Item> {
        self.array.whole();
        let _keys = self.array.keys();
        match self.array.key(index) {
            Some(place) => Some(self.values.value(place)),
            None => None,
        }
    }

    fn len(&self) -> usize {
        self.array.len()
    }
}

/// What a dictionary's keys name, as items of one kind. `column` is what the dictionary stores. The items are those of its values, as
/// `DictValue::downcast_values` gives them; what these show in the values, the walk shows in the dictionary.
pub trait TypedDictionaryValues {
    type Key: DictionaryKey;

    ghost column: { Self → Column };

    /// The values that the keys name, in order, those under nulls too, from both ends.
    fn values_iter_typed<V: ArrayAccessor>(
        &self,
        values: V,
    ) -> DictionaryValuesIterTyped<'_, Self::Key, V>
        requires named { AreNamed (column self.now) }
        requires counted { V.count values ≡ column_len (values_of (column self.now)) }
        ensures array { result.array.array.now ≡ column self.now }
        ensures values { result.array.values ≡ values }
        ensures first { result.first ≡ 0 }
        ensures stop { result.stop ≡ column_len (column self.now) }
        ensures shows { ShowValuesByKeys V.is_item (column self.now) values };

    /// The slots in order, none where one is null, from both ends.
    fn iter_typed<V: ArrayAccessor>(
        &self,
        values: V,
    ) -> ArrayValuesIter<TypedSlots<'_, Self::Key, V>>
        requires counted { V.count values ≡ column_len (values_of (column self.now)) }
        ensures array { result.array.array.now ≡ column self.now }
        ensures values { result.array.values ≡ values }
        ensures first { result.first ≡ 0 }
        ensures stop { result.stop ≡ column_len (column self.now) }
        ensures shows { ShowSlotsByKeys V.is_item (column self.now) values };
}

impl<K: DictionaryKey> TypedDictionaryValues for DictionaryArray<K> {
    type Key = K;

    ghost column = { λ array. array };

    fn values_iter_typed<V: ArrayAccessor>(
        &self,
        values: V,
    ) -> DictionaryValuesIterTyped<'_, K, V> {
        let _keys = self.keys();
        ArrayValuesIter::new(TypedValues {
            array: self,
            values,
        })
    }

    fn iter_typed<V: ArrayAccessor>(&self, values: V) -> ArrayValuesIter<TypedSlots<'_, K, V>> {
        self.whole();
        let _keys = self.keys();
        ArrayValuesIter::new(TypedSlots {
            array: self,
            values,
        })
    }
}
