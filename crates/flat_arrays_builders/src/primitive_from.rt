//! Builders of primitive arrays made of values and slots, and arrays that builders take over.
ghost use Rattle.std.specs.Prelude.{◌≡◌, None};
ghost use Rattle.std.specs.Iterator.{IsFinite};
ghost use Rattle.std.specs.Iterator.Runs.{WholeRun};
ghost use Rattle.flat_arrays_values.specs.columnar_memory.Conversions.{type_of_primitive};
ghost use Rattle.flat_arrays_values.specs.columnar_memory.Results.{OrOutOfMemory};
ghost use Rattle.flat_arrays_values.specs.Flat.{flat, of_slots};
ghost use Rattle.flat_arrays_values.specs.Results.{ForZero};

use crate::primitive::MutablePrimitiveArray;
use either::Either;
use flat_arrays_values::columnar_memory::{DataType, NativeType, Result};
use flat_arrays_values::marks::{freeze_mask, mask_into_mut};
use flat_arrays_values::{IntoMut, PrimitiveArray};
use std::alloc::Global;

impl<T: NativeType> MutablePrimitiveArray<T> {
    /// The values of a vector, with no copy and no null, under the plainest data type of such values. Takes no memory.
    #[tactic(auto, using(flat_arrays_values::proofs::Layouts::plainest))]
    pub fn from_vec(values: Vec<T>) -> Self
        ensures { result ≡ flat (type_of_primitive T.PRIMITIVE) values.items None }
    {
        MutablePrimitiveArray {
            data_type: DataType::from(T::PRIMITIVE),
            values,
            validity: None,
        }
    }

    /// A copy of some values, with no null, under the plainest data type of such values.
    ///
    /// # Errors
    /// `OutOfMemory`: the copy found no memory.
    pub fn from_slice(alloc: Global, values: &[T]) -> Result<Self>
        ensures { OrOutOfMemory result (λ builder. builder ≡ flat (type_of_primitive T.PRIMITIVE) values.now None) }
    {
        Ok(MutablePrimitiveArray::from_vec(Vec::from_slice(alloc, values)?))
    }

    /// The slots of an iterator that ends, under the plainest data type of such values. A null stores zeros, and the first one makes the
    /// mask.
    ///
    /// # Errors
    /// `OutOfMemory`: a slot found no memory.
    pub fn from_iter<I: Iterator<Item = Option<T>> + Drop>(alloc: Global, slots: I) -> Result<Self>
        requires can { I.can_next slots }
        requires ends { IsFinite (I.remaining slots) }
        ensures { OrOutOfMemory result (λ builder. ForZero T.numbers T.PRIMITIVE (λ zero.
            WholeRun I.next_gives slots (λ p. builder ≡ of_slots (type_of_primitive T.PRIMITIVE) zero p.items))) }
    {
        let mut builder = MutablePrimitiveArray::new(alloc);
        builder.extend(slots)?;
        Ok(builder)
    }

    /// Some slots, under the plainest data type of such values. A null stores zeros, and the first one makes the mask.
    ///
    /// # Errors
    /// `OutOfMemory`: a slot found no memory.
    pub fn from(alloc: Global, slots: &[Option<T>]) -> Result<Self>
        ensures { OrOutOfMemory result (λ builder. ForZero T.numbers T.PRIMITIVE (λ zero.
            builder ≡ of_slots (type_of_primitive T.PRIMITIVE) zero slots.now)) }
    {
        MutablePrimitiveArray::from_iter(alloc, slots.iter().copied())
    }
}

impl<T: NativeType> IntoMut<MutablePrimitiveArray<T>> for PrimitiveArray<T> {
    ghost builds = { λ array builder. builder ≡ array };

    fn into_mut(self) -> Result<Either<PrimitiveArray<T>, MutablePrimitiveArray<T>>> {
        let (data_type, values, validity) = self.into_inner();
        match mask_into_mut(validity) {
            Either::Left(validity) => {
                Ok(Either::Left(PrimitiveArray::new(data_type, values, validity)))
            }
            Either::Right(validity) => match values.into_mut() {
                Either::Left(values) => {
                    let validity = freeze_mask(validity)?;
                    Ok(Either::Left(PrimitiveArray::new(data_type, values, validity)))
                }
                Either::Right(values) => Ok(Either::Right(MutablePrimitiveArray {
                    data_type,
                    values,
                    validity,
                })),
            },
        }
    }
}
