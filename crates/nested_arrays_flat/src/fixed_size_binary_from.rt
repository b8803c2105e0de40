//! Arrays of byte strings of one size made of values and of slots.
ghost use Rattle.std.specs.Prelude.{◌≡◌, ◌*◌, ◌/◌, ◌<◌, ◌++◌, length, option_map, replicate, true};
ghost use Rattle.std.specs.Iterator.{IsFinite};
ghost use Rattle.flat_arrays_core.specs.columnar_memory.Results.{OrOutOfMemory};
ghost use Rattle.nested_arrays_columns.specs.SoundColumns.{mask_fits};
ghost use Rattle.nested_arrays_flat.specs.FixedSizeItems.{GathersAlong, HasSize, StoresSlot, of_slots, of_values, sized_column, stored_for};

use crate::fixed_size_binary::FixedSizeBinaryArray;
use crate::ranges::read_bytes;
use flat_arrays_core::columnar_memory::{BitGatherer, Bitmap, Buffer, DataType, Error, Result};
use std::alloc::Global;
use std::convert::AsSlice;

impl FixedSizeBinaryArray {
    /// The slots of an iterator that ends, each of whose values has `size` bytes. A null stores zeros, and without nulls there is no mask.
    ///
    /// # Errors
    /// `OutOfSpec`: the size is zero.
    /// `InvalidArgumentError`: a value has another length. No item behind the first such value is taken.
    /// `OutOfMemory`: the byte strings or the mask found no memory.
    pub fn try_from_iter<T: AsSlice<u8> + Copy, I: Iterator<Item = Option<T>> + Drop>(
        alloc: Global,
        slots: I,
        size: usize,
    ) -> Result<Self>
        requires can { I.can_next slots }
        requires ends { IsFinite (I.remaining slots) }
        ensures { GathersAlong I.next_gives T.items size slots result }
    {
        if size == 0 {
            return Err(Error::OutOfSpec("byte strings of no bytes"));
        }
        let mut values: Vec<u8> = Vec::new(alloc);
        let mut mask = BitGatherer::new(alloc);
        // An iterator that promises more than there is memory for may give fewer.
        let least = slots.size_hint().0;
        let _ = values.reserve(least.saturating_mul(size));
        let _ = mask.reserve(least);
        for slot in slots {
            push_slot(&mut values, size, &slot)?;
            mask.push(slot.is_some())?;
        }
        let validity = Option::<Bitmap>::try_from(mask.finish()?)?;
        FixedSizeBinaryArray::from_gathered(size, values, validity)
    }

    /// The same as `try_from_iter`, with the same refusals.
    ///
    /// # Errors
    /// `OutOfSpec`: the size is zero.
    /// `InvalidArgumentError`: a value has another length. No item behind the first such value is taken.
    /// `OutOfMemory`: the byte strings or the mask found no memory.
    pub fn from_iter<T: AsSlice<u8> + Copy, I: Iterator<Item = Option<T>> + Drop>(
        alloc: Global,
        slots: I,
        size: usize,
    ) -> Result<Self>
        requires can { I.can_next slots }
        requires ends { IsFinite (I.remaining slots) }
        ensures { GathersAlong I.next_gives T.items size slots result }
    {
        FixedSizeBinaryArray::try_from_iter(alloc, slots, size)
    }

    /// Some slots of `N` bytes each. A null stores zeros, and without nulls there is no mask.
    ///
    /// # Errors
    /// `OutOfMemory`: the byte strings or the mask found no memory.
    pub fn from<const N: usize>(alloc: Global, slots: &[Option<[u8; N]>]) -> Result<Self>
        requires { 0 < N }
        ensures { OrOutOfMemory result (λ array. array ≡ of_slots N slots.now) }
    {
        let mut values: Vec<u8> = Vec::new(alloc);
        let mut mask = BitGatherer::new(alloc);
        values.reserve(slots.len().saturating_mul(N))?;
        mask.reserve(slots.len())?;
        for slot in slots {
            push_array_slot(&mut values, slot)?;
            mask.push(slot.is_some())?;
        }
        let validity = Option::<Bitmap>::try_from(mask.finish()?)?;
        FixedSizeBinaryArray::from_gathered(N, values, validity)
    }

    /// Some values of `N` bytes each, with no null.
    ///
    /// # Errors
    /// `OutOfMemory`: the byte strings found no memory.
    pub fn from_slice<const N: usize>(alloc: Global, values: &[[u8; N]]) -> Result<Self>
        requires { 0 < N }
        ensures { OrOutOfMemory result (λ array. array ≡ of_values N values.now) }
    {
        let bytes = Vec::from_slice(alloc, values.as_flattened())?;
        FixedSizeBinaryArray::from_gathered(N, bytes, None)
    }

    /// Whole byte strings of one size, under their plainest data type.
    fn from_gathered(size: usize, values: Vec<u8>, validity: Option<Bitmap>) -> Result<Self>
        requires some { 0 < size }
        requires whole { size * (length values.items / size) ≡ length values.items }
        requires masked { mask_fits validity (length values.items / size) ≡ true }
        ensures { OrOutOfMemory result (λ array. array ≡ sized_column size values.items validity) }
    {
        let values = Buffer::from_vec(values)?;
        read_bytes(values.as_slice());
        Ok(FixedSizeBinaryArray::new(DataType::FixedSizeBinary(size), values, validity))
    }
}

/// Puts the bytes of a slot behind the others: zeros for a null.
///
/// # Errors
/// `InvalidArgumentError`: a value has another length than `size`.
/// `OutOfMemory`: the bytes found no memory.
fn push_slot<T: AsSlice<u8>>(values: &mut Vec<u8>, size: usize, slot: &Option<T>) -> Result<()>
    ensures { StoresSlot size values.old.items (option_map T.items slot.now) values.new.items result }
{
    match slot {
        Some(value) => {
            let value = value.as_slice();
            if value.len() != size {
                return Err(Error::InvalidArgumentError("a byte string of another length"));
            }
            values.extend_from_slice(value)?;
            Ok(())
        }
        None => push_zeros(values, size),
    }
}

/// Puts the bytes of a slot behind the others, whose value has as many as each value of its type: zeros for a null.
///
/// # Errors
/// `OutOfMemory`: the bytes found no memory.
fn push_array_slot<const N: usize>(values: &mut Vec<u8>, slot: &Option<[u8; N]>) -> Result<()>
    ensures { OrOutOfMemory result (λ _. (values.new.items ≡ values.old.items ++ stored_for N slot.now) × HasSize N slot.now) }
{
    match slot {
        Some(value) => push_array(values, value),
        None => push_zeros(values, N),
    }
}

/// Puts the bytes of an array behind the others.
///
/// # Errors
/// `OutOfMemory`: they found no memory.
fn push_array<const N: usize>(values: &mut Vec<u8>, value: &[u8; N]) -> Result<()>
    ensures { OrOutOfMemory result (λ _. (values.new.items ≡ values.old.items ++ value.now) × (length value.now ≡ N)) }
{
    values.extend_from_slice(value.as_slice())?;
    Ok(())
}

/// Puts so many zeros behind the others.
///
/// # Errors
/// `OutOfMemory`: they found no memory.
fn push_zeros(values: &mut Vec<u8>, count: usize) -> Result<()>
    ensures { OrOutOfMemory result (λ _. values.new.items ≡ values.old.items ++ replicate count 0) }
{
    let Some(len) = values.len().checked_add(count) else {
        return Err(Error::OutOfMemory);
    };
    values.resize(len, 0)?;
    Ok(())
}
