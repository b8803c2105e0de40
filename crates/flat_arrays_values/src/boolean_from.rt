//! Boolean arrays made of values and slots.
ghost use Rattle.std.specs.Prelude.{◌≡◌, [], false, length, None};
ghost use Rattle.std.specs.Iterator.{IsFinite};
ghost use Rattle.std.specs.Iterator.Runs.{WholeRun};
ghost use Rattle.columnar_memory_core.specs.Layouts.{physical_type};
ghost use Rattle.columnar_memory_core.specs.Results.{OrOutOfMemory};
ghost use Rattle.columnar_memory_core.specs.declared.PhysicalType.TheVariants as layouts;
ghost use Rattle.flat_arrays_values.specs.Flat.{flat, mask_of, nulls, of_slots};

use crate::boolean::BooleanArray;
use crate::masks::mask_from;
use columnar_memory_core::{BitGatherer, Bitmap, DataType, Error, MutableBitmap, Result};
use std::alloc::Global;

impl BooleanArray {
    /// No slots.
    ///
    /// # Errors
    /// `OutOfMemory`: the count of owners found no memory.
    pub fn new_empty(alloc: Global, data_type: DataType) -> Result<Self>
        requires { physical_type data_type ≡ layouts.Boolean }
        ensures { OrOutOfMemory result (λ array. array ≡ flat data_type [] None) }
    {
        let values = Bitmap::new(alloc)?;
        Ok(BooleanArray::new(data_type, values, None))
    }

    /// `len` nulls, which store false.
    ///
    /// # Errors
    /// `OutOfMemory`: the values or the mask found no memory.
    pub fn new_null(alloc: Global, data_type: DataType, len: usize) -> Result<Self>
        requires { physical_type data_type ≡ layouts.Boolean }
        ensures { OrOutOfMemory result (λ array. array ≡ nulls data_type false len) }
    {
        let values = Bitmap::new_zeroed(alloc, len)?;
        let mask = Bitmap::new_zeroed(alloc, len)?;
        Ok(BooleanArray::new(data_type, values, Some(mask)))
    }

    /// A copy of some values, with no null.
    ///
    /// # Errors
    /// `OutOfMemory`: the copy found no memory.
    pub fn from_slice(alloc: Global, values: &[bool]) -> Result<Self>
        ensures { OrOutOfMemory result (λ array. array ≡ flat DataType.Boolean values.now None) }
    {
        BooleanArray::from_values(alloc, values.iter().copied())
    }

    /// The values of an iterator that ends, with no null.
    ///
    /// # Errors
    /// `OutOfMemory`: the values found no memory.
    #[tactic(auto, using(crate::proofs::Layouts::plainest))]
    pub fn from_values<I: Iterator<Item = bool> + Drop>(alloc: Global, values: I) -> Result<Self>
        requires can { I.can_next values }
        requires ends { IsFinite (I.remaining values) }
        ensures { OrOutOfMemory result (λ array. WholeRun I.next_gives values (λ p. array ≡ flat DataType.Boolean p.items None)) }
    {
        let values = Bitmap::from_iter(alloc, values)?;
        Ok(BooleanArray::new(DataType::Boolean, values, None))
    }

    /// The slots of an iterator that ends. A null stores false, and without nulls there is no mask.
    ///
    /// # Errors
    /// `OutOfMemory`: the values or the mask found no memory.
    pub fn from_iter<I: Iterator<Item = Option<bool>> + Drop>(
        alloc: Global,
        slots: I,
    ) -> Result<Self>
        requires can { I.can_next slots }
        requires ends { IsFinite (I.remaining slots) }
        ensures { OrOutOfMemory result (λ array. WholeRun I.next_gives slots (λ p. array ≡ of_slots DataType.Boolean false p.items)) }
    {
        let mut values = BitGatherer::new(alloc);
        let mut mask = BitGatherer::new(alloc);
        // An iterator that promises more than there is memory for may give fewer.
        let least = slots.size_hint().0;
        let _ = values.reserve(least);
        let _ = mask.reserve(least);
        for slot in slots {
            if values.push(slot.unwrap_or(false)).is_err() || mask.push(slot.is_some()).is_err() {
                return Err(Error::OutOfMemory);
            }
        }
        BooleanArray::from_gathered(values.finish()?, mask.finish()?)
    }

    /// The array of values and as many marks, with no mask where each mark is true.
    #[tactic(auto, using(crate::proofs::Layouts::plainest))]
    fn from_gathered(values: MutableBitmap, bits: MutableBitmap) -> Result<Self>
        requires { length bits ≡ length values }
        ensures { OrOutOfMemory result (λ array. array ≡ flat DataType.Boolean values (mask_of bits)) }
    {
        let validity = mask_from(bits)?;
        Ok(BooleanArray::new(DataType::Boolean, values.freeze()?, validity))
    }

    /// Some slots. A null stores false, and without nulls there is no mask.
    ///
    /// # Errors
    /// `OutOfMemory`: the values or the mask found no memory.
    pub fn from(alloc: Global, slots: &[Option<bool>]) -> Result<Self>
        ensures { OrOutOfMemory result (λ array. array ≡ of_slots DataType.Boolean false slots.now) }
    {
        BooleanArray::from_iter(alloc, slots.iter().copied())
    }
}
