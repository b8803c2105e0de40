ghost use Rattle.std.specs.Prelude.{◌≡◌, ◌<◌, Bool, List, None, Some, slice_get, [], length, option_map, IfErr, ◌≤◌};
ghost use Rattle.std.specs.Option.{ForSome, option_copied};
ghost use Rattle.std.specs.String.{string_bytes};
ghost use Rattle.flat_arrays_byte_values_builders.specs.columnar_memory.Error.{IsOutOfMemory};
ghost use Rattle.flat_arrays_byte_values_builders.specs.columnar_memory.Layouts.{physical_type};
ghost use Rattle.flat_arrays_byte_values_builders.specs.columnar_memory.Results.{OrOutOfMemory};
ghost use Rattle.flat_arrays_byte_values_builders.specs.columnar_memory.Spans.{no_spans};
ghost use Rattle.flat_arrays_byte_values_builders.specs.bytes.ByteStrings.{byte_strings, len_of, values_of, with_mask};
ghost use Rattle.flat_arrays_byte_values_builders.specs.bytes.Fits.{IsMaskOf, IsText, text_layout, text_type};
ghost use Rattle.flat_arrays_byte_values_builders.specs.bytes.Texts.{AllTexts};
ghost use Rattle.flat_arrays_byte_values_builders.specs.values.Results.{AppliesTo};
ghost use Rattle.flat_arrays_byte_values_builders.specs.Growing.{Grows, IsTaken, IsGrown, OrUnchanged, Pops, tidied, with_slot, first_slots};

use flat_arrays_byte_values_builders::bytes::Utf8Array;
use flat_arrays_byte_values_builders::columnar_memory::{
    DataType, Error, MutableBitmap, Offset, Offsets, Result,
};
use flat_arrays_byte_values_builders::{ByteBuilder, text_layout_of};
use std::alloc::Global;
use std::marker::Model;
use std::ops::Deref;
use std::rc::Rc;
use std::str::from_utf8_unchecked;

/// A builder of texts any of which may be null. A contract sees its data type, where each text stands among the bytes, the
/// bytes, of which none stand behind the last text, and the mask, which is made at the first null.
#[derive(Debug, Drop)]
pub struct MutableUtf8Array<O: Offset> {
    pub(crate) builder: ByteBuilder<O>,
}

impl<O: Offset> Model for MutableUtf8Array<O> {
    ghost use Rattle.std.specs.Prelude.{◌≡◌};
    ghost use Rattle.flat_arrays_byte_values_builders.specs.bytes.ByteStrings.{ByteStrings, byte_strings_code, values_of};
    ghost use Rattle.flat_arrays_byte_values_builders.specs.columnar_memory.Layouts.{physical_type};
    ghost use Rattle.flat_arrays_byte_values_builders.specs.bytes.Fits.{text_layout};
    ghost use Rattle.flat_arrays_byte_values_builders.specs.bytes.Texts.{AllTexts};

    ghost Value = { ByteStrings };

    ghost coded = { byte_strings_code };

    ghost view = { λ it. it.builder };

    ghost invariant = { λ it. (physical_type it.builder.data_type ≡ text_layout O.IS_LARGE) × AllTexts (values_of it.builder) };
}

impl<O: Offset> MutableUtf8Array<O> {
    /// No slots.
    ///
    /// # Errors
    /// `OutOfMemory`: the offsets found no memory.
    pub fn new(alloc: Global) -> Result<Self>
        ensures { OrOutOfMemory result (λ a. a ≡ byte_strings (text_type O.IS_LARGE) no_spans [] None) }
    {
        MutableUtf8Array::with_capacities(alloc, 0, 0)
    }

    /// No slots, with room for this many.
    ///
    /// # Errors
    /// `OutOfMemory`: the room found no memory.
    pub fn with_capacity(alloc: Global, capacity: usize) -> Result<Self>
        ensures { OrOutOfMemory result (λ a. a ≡ byte_strings (text_type O.IS_LARGE) no_spans [] None) }
    {
        MutableUtf8Array::with_capacities(alloc, capacity, 0)
    }

    /// No slots, with room for this many and for this many bytes.
    ///
    /// # Errors
    /// `OutOfMemory`: the room found no memory.
    pub fn with_capacities(alloc: Global, capacity: usize, values: usize) -> Result<Self>
        ensures { OrOutOfMemory result (λ a. a ≡ byte_strings (text_type O.IS_LARGE) no_spans [] None) }
    {
        let data_type = MutableUtf8Array::<O>::default_data_type();
        let builder = ByteBuilder::with_capacities(alloc, data_type, capacity, values)?;
        Ok(MutableUtf8Array { builder })
    }

    /// The builder that goes on behind these parts. Takes no memory, and cuts the bytes behind the last text.
    ///
    /// # Errors
    /// `OutOfSpec`: arrays of the data type do not store texts with such offsets, the mask is not as long as the offsets tell, the last
    /// offset is past the bytes, or a text is not UTF-8 by itself.
    pub fn try_new(
        data_type: DataType,
        offsets: Offsets<O>,
        values: Vec<u8>,
        validity: Option<MutableBitmap>,
    ) -> Result<Self>
        ensures { IsTaken (IsText O.IS_LARGE) (byte_strings data_type offsets values.items validity) result }
    {
        let layout = text_layout_of::<O>();
        let builder = ByteBuilder::try_new(layout, data_type, offsets, values, validity)?;
        if !builder.holds_texts() {
            return Err(Error::OutOfSpec("a value that is not UTF-8"));
        }
        Ok(MutableUtf8Array { builder })
    }

    /// The data type of texts with such offsets: `Utf8` or `LargeUtf8`.
    pub fn default_data_type() -> DataType
        ensures value { result ≡ text_type O.IS_LARGE }
        ensures fits { physical_type result ≡ text_layout O.IS_LARGE }
    {
        Utf8Array::<O>::default_data_type()
    }

    /// The stored text at a place, also where the slot is null.
    #[tactic(auto, using(crate::proofs::Passed::text_among))]
    pub fn value(&self, index: usize) -> &str
        requires { index < len_of self.now }
        ensures { slice_get (values_of self.now) index ≡ Some result.now }
    {
        let bytes = self.builder.value(index);
        unsafe { from_utf8_unchecked(bytes) }
    }

    /// Makes room for more slots and for more bytes.
    ///
    /// # Errors
    /// `OutOfMemory`: the room found no memory.
    pub fn reserve(&mut self, additional: usize, additional_values: usize) -> Result<()>
        ensures same { self.new ≡ self.old }
        ensures err { IfErr result IsOutOfMemory }
    {
        self.builder.reserve(additional, additional_values)
    }

    /// Replaces the mask.
    pub fn set_validity(&mut self, validity: Option<MutableBitmap>)
        requires { IsMaskOf (len_of self.old) validity }
        ensures { self.new ≡ with_mask self.old validity }
    {
        self.builder.set_validity(validity);
    }

    /// Replaces the mask, if there is one, by what a function gives for it, which has as many marks.
    pub fn apply_validity<F: FnOnce(MutableBitmap) -> MutableBitmap + Drop>(&mut self, f: F)
        requires callable { ForSome self.old.validity (F.pre f) }
        requires keeps { ForSome self.old.validity (λ mask. (made : List Bool) → F.post f mask made → length made ≡ length mask) }
        ensures applied { AppliesTo (F.post f) self.old.validity self.new.validity }
        ensures rest { self.new ≡ with_mask self.old self.new.validity }
    {
        self.builder.apply_validity(f);
    }

    /// Gives memory back that no slot needs.
    pub fn shrink_to_fit(&mut self)
        ensures { self.new ≡ self.old }
    {
        self.builder.shrink_to_fit();
    }

    /// Adds a slot behind the others, or changes nothing.
    ///
    /// # Errors
    /// `Overflow`: it would end past the greatest offset of the type.
    /// `OutOfMemory`: it found no memory.
    pub fn try_push(&mut self, value: Option<&str>) -> Result<()>
        ensures { Grows O.greatest self.old (with_slot self.old (option_copied value.entry)) self.new result }
    {
        match value {
            Some(text) => self.builder.try_push(text.as_bytes(), true),
            None => self.builder.try_push(&[], false),
        }
    }

    /// The same as `try_push`.
    ///
    /// # Errors
    /// `Overflow`: it would end past the greatest offset of the type.
    /// `OutOfMemory`: it found no memory.
    pub fn push(&mut self, value: Option<&str>) -> Result<()>
        ensures { Grows O.greatest self.old (with_slot self.old (option_copied value.entry)) self.new result }
    {
        self.try_push(value)
    }

    /// Adds a null, which stores no bytes.
    ///
    /// # Errors
    /// `OutOfMemory`: it found no memory, and nothing changed.
    pub fn push_null(&mut self) -> Result<()>
        ensures { OrUnchanged self.old self.new result (λ _. self.new ≡ with_slot self.old None) }
    {
        self.builder.push_null()
    }

    /// Takes the last slot off, and answers a copy of it: none where it is null, or where there is no slot.
    ///
    /// # Errors
    /// `OutOfMemory`: the copy found no memory, and nothing changed.
    pub fn pop(&mut self) -> Result<Option<String>>
        ensures { OrUnchanged self.old self.new result (λ slot. Pops self.old (option_map string_bytes slot) self.new) }
    {
        match self.builder.pop()? {
            Some(bytes) => Ok(Some(unsafe { String::from_utf8_unchecked(bytes) })),
            None => Ok(None),
        }
    }

    /// Drops the slots from `len` on, and the mask where none of the others is null.
    pub fn truncate(&mut self, len: usize)
        requires { len ≤ len_of self.old }
        ensures { self.new ≡ tidied (first_slots self.old len) }
    {
        self.builder.truncate(len);
    }

    /// Hands to a proof what holds of every such builder: its layout, a mark for each slot, and no bytes behind the last one; each
    /// stored value is a text by itself.
    pub fn whole(&self)
        ensures layout { IsGrown (text_layout O.IS_LARGE) self.now }
        ensures texts { AllTexts (values_of self.now) }
    {
        let _len = self.builder.len();
    }

    /// The data type, the offsets, the bytes and the mask.
    pub fn into_data(self) -> (DataType, Offsets<O>, Vec<u8>, Option<MutableBitmap>)
        ensures value { self ≡ byte_strings result.0 result.1 result.2.items result.3 }
        ensures whole { IsGrown (text_layout O.IS_LARGE) self }
    {
        let MutableUtf8Array { builder } = self;
        builder.into_inner()
    }

    /// The array of these slots, with no copy, and with no mask where no slot is null.
    ///
    /// # Errors
    /// `OutOfMemory`: a count of owners found no memory.
    pub fn freeze(self) -> Result<Utf8Array<O>>
        ensures { OrOutOfMemory result (λ a. a ≡ tidied self) }
    {
        let MutableUtf8Array { builder } = self;
        let (data_type, offsets, values, validity) = builder.freeze()?;
        Ok(Utf8Array::new(data_type, offsets, values, validity))
    }

    /// The array of these slots, shared.
    ///
    /// # Errors
    /// `OutOfMemory`: a count of owners found no memory.
    pub fn into_arc(self) -> Result<Rc<Utf8Array<O>>>
        ensures { OrOutOfMemory result (λ a. a.value ≡ tidied self) }
    {
        let alloc = *self.builder.values().allocator();
        Ok(Rc::new(alloc, self.freeze()?)?)
    }
}

impl<O: Offset> Deref for MutableUtf8Array<O> {
    type Target = ByteBuilder<O>;

    ghost deref_gives = { λ array builder. builder ≡ array };

    fn deref(&self) -> &ByteBuilder<O> {
        &self.builder
    }
}
