//! Builders of boolean arrays made of values and slots, and arrays that builders take over.
ghost use Rattle.std.specs.Prelude.{◌≡◌, None, false};
ghost use Rattle.std.specs.Iterator.{IsFinite};
ghost use Rattle.std.specs.Iterator.Runs.{WholeRun};
ghost use Rattle.flat_arrays_values.specs.columnar_memory.Results.{OrOutOfMemory};
ghost use Rattle.flat_arrays_values.specs.Flat.{flat, of_slots};

use crate::boolean::MutableBooleanArray;
use either::Either;
use flat_arrays_values::columnar_memory::{DataType, MutableBitmap, Result};
use flat_arrays_values::marks::{freeze_mask, mask_into_mut};
use flat_arrays_values::{BooleanArray, IntoMut};
use std::alloc::Global;

impl MutableBooleanArray {
    /// A copy of some values, with no null.
    ///
    /// # Errors
    /// `OutOfMemory`: the copy found no memory.
    #[tactic(auto, using(flat_arrays_values::proofs::Layouts::plainest))]
    pub fn from_slice(alloc: Global, values: &[bool]) -> Result<Self>
        ensures { OrOutOfMemory result (λ builder. builder ≡ flat DataType.Boolean values.now None) }
    {
        let values = MutableBitmap::from_iter(alloc, values.iter().copied())?;
        Ok(MutableBooleanArray {
            data_type: DataType::Boolean,
            values,
            validity: None,
        })
    }

    /// The slots of an iterator that ends. A null stores false, and the first one makes the
    /// mask.
    ///
    /// # Errors
    /// `OutOfMemory`: a slot found no memory.
    pub fn from_iter<I: Iterator<Item = Option<bool>> + Drop>(
        alloc: Global,
        slots: I,
    ) -> Result<Self>
        requires can { I.can_next slots }
        requires ends { IsFinite (I.remaining slots) }
        ensures { OrOutOfMemory result (λ builder. WholeRun I.next_gives slots (λ p.
            builder ≡ of_slots DataType.Boolean false p.items)) }
    {
        let mut builder = MutableBooleanArray::new(alloc);
        builder.extend(slots)?;
        Ok(builder)
    }

    /// Some slots. A null stores false, and the first one makes the mask.
    ///
    /// # Errors
    /// `OutOfMemory`: a slot found no memory.
    pub fn from(alloc: Global, slots: &[Option<bool>]) -> Result<Self>
        ensures { OrOutOfMemory result (λ builder. builder ≡ of_slots DataType.Boolean false slots.now) }
    {
        MutableBooleanArray::from_iter(alloc, slots.iter().copied())
    }
}

impl IntoMut<MutableBooleanArray> for BooleanArray {
    ghost builds = { λ array builder. builder ≡ array };

    fn into_mut(self) -> Result<Either<BooleanArray, MutableBooleanArray>> {
        let (data_type, values, validity) = self.into_inner();
        match mask_into_mut(validity) {
            Either::Left(validity) => {
                Ok(Either::Left(BooleanArray::new(data_type, values, validity)))
            }
            Either::Right(validity) => match values.into_mut() {
                Either::Left(values) => {
                    let validity = freeze_mask(validity)?;
                    Ok(Either::Left(BooleanArray::new(data_type, values, validity)))
                }
                Either::Right(values) => Ok(Either::Right(MutableBooleanArray {
                    data_type,
                    values,
                    validity,
                })),
            },
        }
    }
}
