//! Arrays of texts made of values and of slots.
ghost use Rattle.std.specs.Prelude.{◌≡◌, ◌≤◌, length, map, option_map, drop};
ghost use Rattle.std.specs.Iterator.{IsFinite};
ghost use Rattle.flat_arrays_values.specs.columnar_memory.Results.{OrOutOfMemory};
ghost use Rattle.flat_arrays_values.specs.columnar_memory.Spans.{last_of};
ghost use Rattle.flat_arrays_bytes.specs.ByteStrings.{byte_strings, cut_by, of_slots, of_values};
ghost use Rattle.flat_arrays_bytes.specs.Collected.{CollectsAlong, IsCollected};
ghost use Rattle.flat_arrays_bytes.specs.Fits.{IsMaskOf, text_type};
ghost use Rattle.flat_arrays_bytes.specs.Texts.{AllTexts};

use crate::gather::{bytes_of, push_value, stored_text};
use crate::utf8::Utf8Array;
use flat_arrays_values::columnar_memory::{BitGatherer, Bitmap, Buffer, Offset, Offsets, Result};
use std::alloc::Global;
use std::convert::AsStr;

impl<O: Offset> Utf8Array<O> {
    /// The slots of an iterator that ends. A null stores no bytes, and without nulls there is no mask.
    ///
    /// # Errors
    /// `Overflow`: a text would end past the greatest offset of the type.
    /// `OutOfMemory`: the texts or the mask found no memory.
    pub fn from_iter<T: AsStr + Drop, I: Iterator<Item = Option<T>> + Drop>(
        alloc: Global,
        slots: I,
    ) -> Result<Self>
        requires can { I.can_next slots }
        requires ends { IsFinite (I.remaining slots) }
        ensures { CollectsAlong I.next_gives O.greatest (λ items. of_slots (text_type O.IS_LARGE) (map (option_map T.text) items)) slots result }
    {
        let mut offsets = Offsets::new(alloc)?;
        let mut values: Vec<u8> = Vec::new(alloc);
        let mut mask = BitGatherer::new(alloc);
        // An iterator that promises more than there is memory for may give fewer.
        let least = slots.size_hint().0;
        let _ = offsets.reserve(least);
        let _ = mask.reserve(least);
        for slot in slots {
            push_value(&mut offsets, &mut values, stored_text(&slot))?;
            mask.push(slot.is_some())?;
        }
        let validity = Option::<Bitmap>::try_from(mask.finish()?)?;
        Utf8Array::from_gathered(offsets, values, validity)
    }

    /// The values of an iterator that ends, with no null.
    ///
    /// # Errors
    /// `Overflow`: a text would end past the greatest offset of the type.
    /// `OutOfMemory`: the texts found no memory.
    pub fn from_iter_values<T: AsStr + Drop, I: Iterator<Item = T> + Drop>(
        alloc: Global,
        values: I,
    ) -> Result<Self>
        requires can { I.can_next values }
        requires ends { IsFinite (I.remaining values) }
        ensures { CollectsAlong I.next_gives O.greatest (λ items. of_values (text_type O.IS_LARGE) (map T.text items)) values result }
    {
        let mut offsets = Offsets::new(alloc)?;
        let mut bytes: Vec<u8> = Vec::new(alloc);
        // An iterator that promises more than there is memory for may give fewer.
        let _ = offsets.reserve(values.size_hint().0);
        for value in values {
            push_value(&mut offsets, &mut bytes, bytes_of(value.as_str()))?;
        }
        Utf8Array::from_gathered(offsets, bytes, None)
    }

    /// Some slots. A null stores no bytes, and without nulls there is no mask.
    ///
    /// # Errors
    /// `Overflow`: a text would end past the greatest offset of the type.
    /// `OutOfMemory`: the texts or the mask found no memory.
    pub fn from<T: AsStr>(alloc: Global, slots: &[Option<T>]) -> Result<Self>
        ensures { IsCollected O.greatest (of_slots (text_type O.IS_LARGE) (map (option_map T.text) slots.now)) result }
    {
        Utf8Array::from_iter(alloc, slots.iter().map(|slot| slot.as_ref()))
    }

    /// Some values, with no null.
    ///
    /// # Errors
    /// `Overflow`: a text would end past the greatest offset of the type.
    /// `OutOfMemory`: the texts found no memory.
    pub fn from_slice<T: AsStr>(alloc: Global, values: &[T]) -> Result<Self>
        ensures { IsCollected O.greatest (of_values (text_type O.IS_LARGE) (map T.text values.now)) result }
    {
        Utf8Array::from_iter_values(alloc, values.iter())
    }

    /// The texts between offsets, under their plainest data type.
    fn from_gathered(offsets: Offsets<O>, values: Vec<u8>, validity: Option<Bitmap>) -> Result<Self>
        requires masked { IsMaskOf (length offsets.lengths) validity }
        requires within { last_of offsets ≤ length values.items }
        requires texts { AllTexts (cut_by offsets.lengths (drop offsets.start values.items)) }
        ensures { OrOutOfMemory result (λ a. a ≡ byte_strings (text_type O.IS_LARGE) offsets values.items validity) }
    {
        let offsets = offsets.freeze()?;
        let values = Buffer::from_vec(values)?;
        let data_type = Utf8Array::<O>::default_data_type();
        Ok(Utf8Array::new(data_type, offsets, values, validity))
    }
}
