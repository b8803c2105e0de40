//! Primitive arrays made of values and slots.
ghost use Rattle.std.specs.Prelude.{◌≡◌, [], length, None};
ghost use Rattle.std.specs.Iterator.{IsFinite};
ghost use Rattle.std.specs.Iterator.Runs.{WholeRun};
ghost use Rattle.columnar_memory_core.specs.Conversions.{type_of_primitive};
ghost use Rattle.columnar_memory_core.specs.Layouts.{physical_type};
ghost use Rattle.columnar_memory_core.specs.Results.{OrOutOfMemory};
ghost use Rattle.columnar_memory_core.specs.declared.PhysicalType.TheVariants as layouts;
ghost use Rattle.flat_arrays_values.specs.Flat.{flat, mask_of, nulls, of_slots};
ghost use Rattle.flat_arrays_values.specs.Results.{ForZero};

use crate::masks::mask_from;
use crate::primitive::PrimitiveArray;
use columnar_memory_core::{
    BitGatherer, Bitmap, Buffer, DataType, Error, MutableBitmap, NativeType, Result,
};
use std::alloc::Global;

impl<T: NativeType> PrimitiveArray<T> {
    /// No slots.
    ///
    /// # Errors
    /// `OutOfMemory`: the count of owners found no memory.
    pub fn new_empty(alloc: Global, data_type: DataType) -> Result<Self>
        requires { physical_type data_type ≡ layouts.Primitive T.PRIMITIVE }
        ensures { OrOutOfMemory result (λ array. array ≡ flat data_type [] None) }
    {
        let values = Buffer::new(alloc)?;
        Ok(PrimitiveArray::new(data_type, values, None))
    }

    /// `len` nulls, which store zeros.
    ///
    /// # Errors
    /// `OutOfMemory`: the values or the mask found no memory.
    pub fn new_null(alloc: Global, data_type: DataType, len: usize) -> Result<Self>
        requires { physical_type data_type ≡ layouts.Primitive T.PRIMITIVE }
        ensures { OrOutOfMemory result (λ array. ForZero T.numbers T.PRIMITIVE (λ zero. array ≡ nulls data_type zero len)) }
    {
        let mut values: Vec<T> = Vec::new(alloc);
        values.resize(len, T::default())?;
        let mask = Bitmap::new_zeroed(alloc, len)?;
        Ok(PrimitiveArray::new(data_type, Buffer::from_vec(values)?, Some(mask)))
    }

    /// The values of a vector, with no copy and no null, under the plainest data type of such values.
    ///
    /// # Errors
    /// `OutOfMemory`: the count of owners found no memory.
    #[tactic(auto, using(crate::proofs::Layouts::plainest))]
    pub fn from_vec(values: Vec<T>) -> Result<Self>
        ensures { OrOutOfMemory result (λ array. array ≡ flat (type_of_primitive T.PRIMITIVE) values.items None) }
    {
        let values = Buffer::from_vec(values)?;
        Ok(PrimitiveArray::new(DataType::from(T::PRIMITIVE), values, None))
    }

    /// A copy of some values, with no null, under the plainest data type of such values.
    ///
    /// # Errors
    /// `OutOfMemory`: the copy found no memory.
    pub fn from_slice(alloc: Global, values: &[T]) -> Result<Self>
        ensures { OrOutOfMemory result (λ array. array ≡ flat (type_of_primitive T.PRIMITIVE) values.now None) }
    {
        PrimitiveArray::from_vec(Vec::from_slice(alloc, values)?)
    }

    /// The values of an iterator that ends, with no null, under the plainest data type of such values.
    ///
    /// # Errors
    /// `OutOfMemory`: the values found no memory.
    pub fn from_values<I: Iterator<Item = T>>(alloc: Global, values: I) -> Result<Self>
        requires can { I.can_next values }
        requires ends { IsFinite (I.remaining values) }
        ensures { OrOutOfMemory result (λ array.
            WholeRun I.next_gives values (λ p. array ≡ flat (type_of_primitive T.PRIMITIVE) p.items None)) }
    {
        let values: Vec<T> = values.collect(alloc)?;
        PrimitiveArray::from_vec(values)
    }

    /// The slots of an iterator that ends, under the plainest data type of such values. A null stores zeros, and without nulls there is no
    /// mask.
    ///
    /// # Errors
    /// `OutOfMemory`: the values or the mask found no memory.
    pub fn from_iter<I: Iterator<Item = Option<T>> + Drop>(alloc: Global, slots: I) -> Result<Self>
        requires can { I.can_next slots }
        requires ends { IsFinite (I.remaining slots) }
        ensures { OrOutOfMemory result (λ array. ForZero T.numbers T.PRIMITIVE (λ zero.
            WholeRun I.next_gives slots (λ p. array ≡ of_slots (type_of_primitive T.PRIMITIVE) zero p.items))) }
    {
        let zero = T::default();
        let mut values: Vec<T> = Vec::new(alloc);
        let mut mask = BitGatherer::new(alloc);
        // An iterator that promises more than there is memory for may give fewer.
        let least = slots.size_hint().0;
        let _ = values.reserve(least);
        let _ = mask.reserve(least);
        for slot in slots {
            values.push(slot.unwrap_or(zero))?;
            if mask.push(slot.is_some()).is_err() {
                return Err(Error::OutOfMemory);
            }
        }
        PrimitiveArray::from_gathered(values, mask.finish()?)
    }

    /// The array of values and as many marks, under the plainest data type of such values, with no mask where each mark is true.
    #[tactic(auto, using(crate::proofs::Layouts::plainest))]
    fn from_gathered(values: Vec<T>, bits: MutableBitmap) -> Result<Self>
        requires { length bits ≡ length values.items }
        ensures { OrOutOfMemory result (λ array. array ≡ flat (type_of_primitive T.PRIMITIVE) values.items (mask_of bits)) }
    {
        let validity = mask_from(bits)?;
        Ok(PrimitiveArray::new(
            DataType::from(T::PRIMITIVE),
            Buffer::from_vec(values)?,
            validity,
        ))
    }

    /// Some slots, under the plainest data type of such values. A null stores zeros, and without nulls there is no mask.
    ///
    /// # Errors
    /// `OutOfMemory`: the values or the mask found no memory.
    pub fn from(alloc: Global, slots: &[Option<T>]) -> Result<Self>
        ensures { OrOutOfMemory result (λ array. ForZero T.numbers T.PRIMITIVE (λ zero.
            array ≡ of_slots (type_of_primitive T.PRIMITIVE) zero slots.now)) }
    {
        PrimitiveArray::from_iter(alloc, slots.iter().copied())
    }
}
