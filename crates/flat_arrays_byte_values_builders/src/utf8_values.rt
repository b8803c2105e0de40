ghost use Rattle.std.specs.Prelude.{◌≡◌, ◌<◌, None, Some, slice_get, [], true, option_map, IfErr, ◌≤◌};
ghost use Rattle.std.specs.String.{string_bytes};
ghost use Rattle.flat_arrays_bytes.specs.columnar_memory.Error.{IsOutOfMemory};
ghost use Rattle.flat_arrays_bytes.specs.columnar_memory.Layouts.{physical_type};
ghost use Rattle.flat_arrays_bytes.specs.columnar_memory.Results.{OrOutOfMemory};
ghost use Rattle.flat_arrays_bytes.specs.columnar_memory.Spans.{no_spans};
ghost use Rattle.flat_arrays_bytes.specs.ByteStrings.{byte_strings, len_of, values_of};
ghost use Rattle.flat_arrays_bytes.specs.Fits.{IsText, text_layout, text_type};
ghost use Rattle.flat_arrays_bytes.specs.Texts.{AllTexts};
ghost use Rattle.flat_arrays_byte_values_builders.specs.Growing.{Grows, IsTaken, IsValues, OrUnchanged, Pops, pushed, first_slots};

use crate::builder::{ByteBuilder, text_layout_of};
use flat_arrays_bytes::columnar_memory::{DataType, Error, Offset, Offsets, Result};
use flat_arrays_bytes::{TextValuesIter, Utf8Array};
use std::alloc::Global;
use std::marker::Model;
use std::ops::Deref;
use std::rc::Rc;
use std::str::from_utf8_unchecked;

/// The texts of a builder, those under nulls too, in order or from the back.
pub type MutableUtf8ValuesIter<'a, O> = TextValuesIter<'a, ByteBuilder<O>>;

/// A builder of texts none of which is null. A contract sees its data type, where each text stands among the bytes, and the
/// bytes, of which none stand behind the last text; it has no mask.
#[derive(Debug, Drop)]
pub struct MutableUtf8ValuesArray<O: Offset> {
    pub(crate) builder: ByteBuilder<O>,
}

impl<O: Offset> Model for MutableUtf8ValuesArray<O> {
    ghost use Rattle.std.specs.Prelude.{◌≡◌, None};
    ghost use Rattle.flat_arrays_bytes.specs.ByteStrings.{ByteStrings, byte_strings_code, values_of};
    ghost use Rattle.flat_arrays_bytes.specs.columnar_memory.Layouts.{physical_type};
    ghost use Rattle.flat_arrays_bytes.specs.Fits.{text_layout};
    ghost use Rattle.flat_arrays_bytes.specs.Texts.{AllTexts};

    ghost Value = { ByteStrings };

    ghost coded = { byte_strings_code };

    ghost view = { λ it. it.builder };

    ghost invariant = { λ it. (physical_type it.builder.data_type ≡ text_layout O.IS_LARGE) × (it.builder.validity ≡ None)
        × AllTexts (values_of it.builder) };
}

impl<O: Offset> MutableUtf8ValuesArray<O> {
    /// No texts.
    ///
    /// # Errors
    /// `OutOfMemory`: the offsets found no memory.
    pub fn new(alloc: Global) -> Result<Self>
        ensures { OrOutOfMemory result (λ a. a ≡ byte_strings (text_type O.IS_LARGE) no_spans [] None) }
    {
        MutableUtf8ValuesArray::with_capacities(alloc, 0, 0)
    }

    /// No texts, with room for this many.
    ///
    /// # Errors
    /// `OutOfMemory`: the room found no memory.
    pub fn with_capacity(alloc: Global, capacity: usize) -> Result<Self>
        ensures { OrOutOfMemory result (λ a. a ≡ byte_strings (text_type O.IS_LARGE) no_spans [] None) }
    {
        MutableUtf8ValuesArray::with_capacities(alloc, capacity, 0)
    }

    /// No texts, with room for this many and for this many bytes.
    ///
    /// # Errors
    /// `OutOfMemory`: the room found no memory.
    pub fn with_capacities(alloc: Global, capacity: usize, values: usize) -> Result<Self>
        ensures { OrOutOfMemory result (λ a. a ≡ byte_strings (text_type O.IS_LARGE) no_spans [] None) }
    {
        let data_type = MutableUtf8ValuesArray::<O>::default_data_type();
        let builder = ByteBuilder::with_capacities(alloc, data_type, capacity, values)?;
        Ok(MutableUtf8ValuesArray { builder })
    }

    /// The builder that goes on behind these parts. Takes no memory, and cuts the bytes behind the last text.
    ///
    /// # Errors
    /// `OutOfSpec`: arrays of the data type do not store texts with such offsets, the last offset is past the bytes, or a
    /// stored text is not UTF-8 by itself.
    pub fn try_new(data_type: DataType, offsets: Offsets<O>, values: Vec<u8>) -> Result<Self>
        ensures { IsTaken (IsText O.IS_LARGE) (byte_strings data_type offsets values.items None) result }
    {
        let layout = text_layout_of::<O>();
        let builder = ByteBuilder::try_new(layout, data_type, offsets, values, None)?;
        if !builder.holds_texts() {
            return Err(Error::OutOfSpec("a value that is not UTF-8"));
        }
        Ok(MutableUtf8ValuesArray { builder })
    }

    /// The data type of texts with such offsets: `Utf8` or `LargeUtf8`.
    pub fn default_data_type() -> DataType
        ensures value { result ≡ text_type O.IS_LARGE }
        ensures fits { physical_type result ≡ text_layout O.IS_LARGE }
    {
        Utf8Array::<O>::default_data_type()
    }

    /// The stored text at a place.
    #[tactic(auto, using(flat_arrays_bytes::proofs::Places::text_among))]
    pub fn value(&self, index: usize) -> &str
        requires { index < len_of self.now }
        ensures { slice_get (values_of self.now) index ≡ Some result.now }
    {
        let bytes = self.builder.value(index);
        unsafe { from_utf8_unchecked(bytes) }
    }

    /// The texts from both ends.
    pub fn values_iter(&self) -> MutableUtf8ValuesIter<'_, O>
        ensures { result ≡ values_of self.now }
    {
        TextValuesIter::new(self)
    }

    /// The same as `values_iter`.
    pub fn iter(&self) -> MutableUtf8ValuesIter<'_, O>
        ensures { result ≡ values_of self.now }
    {
        self.values_iter()
    }

    /// Makes room for more texts and for more bytes.
    ///
    /// # Errors
    /// `OutOfMemory`: the room found no memory.
    pub fn reserve(&mut self, additional: usize, additional_values: usize) -> Result<()>
        ensures same { self.new ≡ self.old }
        ensures err { IfErr result IsOutOfMemory }
    {
        self.builder.reserve(additional, additional_values)
    }

    /// Gives memory back that no text needs.
    pub fn shrink_to_fit(&mut self)
        ensures { self.new ≡ self.old }
    {
        self.builder.shrink_to_fit();
    }

    /// Adds a text behind the others, or changes nothing.
    ///
    /// # Errors
    /// `Overflow`: it would end past the greatest offset of the type.
    /// `OutOfMemory`: it found no memory.
    pub fn try_push(&mut self, value: &str) -> Result<()>
        ensures { Grows O.greatest self.old (pushed self.old value.now true) self.new result }
    {
        self.builder.try_push(value.as_bytes(), true)
    }

    /// The same as `try_push`.
    ///
    /// # Errors
    /// `Overflow`: it would end past the greatest offset of the type.
    /// `OutOfMemory`: it found no memory.
    pub fn push(&mut self, value: &str) -> Result<()>
        ensures { Grows O.greatest self.old (pushed self.old value.now true) self.new result }
    {
        self.try_push(value)
    }

    /// Takes the last text off, and answers a copy of it, or none where there is none.
    ///
    /// # Errors
    /// `OutOfMemory`: the copy found no memory, and nothing changed.
    pub fn pop(&mut self) -> Result<Option<String>>
        ensures { OrUnchanged self.old self.new result (λ slot. Pops self.old (option_map string_bytes slot) self.new) }
    {
        match self.builder.pop()? {
            Some(bytes) => Ok(Some(unsafe { String::from_utf8_unchecked(bytes) })),
            None => Ok(None),
        }
    }

    /// Drops the texts from `len` on.
    pub fn truncate(&mut self, len: usize)
        requires { len ≤ len_of self.old }
        ensures { self.new ≡ first_slots self.old len }
    {
        self.builder.keep_first(len);
    }

    /// The data type, the offsets and the bytes.
    pub fn into_inner(self) -> (DataType, Offsets<O>, Vec<u8>)
        ensures value { self ≡ byte_strings result.0 result.1 result.2.items None }
        ensures whole { IsValues (text_layout O.IS_LARGE) self }
    {
        let MutableUtf8ValuesArray { builder } = self;
        let (data_type, offsets, values, _) = builder.into_inner();
        (data_type, offsets, values)
    }

    /// What stands inside: the same texts, beside which a mask may come.
    pub fn into_builder(self) -> ByteBuilder<O>
        ensures value { result ≡ self }
        ensures whole { IsValues (text_layout O.IS_LARGE) self }
        ensures texts { AllTexts (values_of self) }
    {
        let MutableUtf8ValuesArray { builder } = self;
        let _slots = builder.len();
        builder
    }

    /// The array of these texts, with no copy.
    ///
    /// # Errors
    /// `OutOfMemory`: a count of owners found no memory.
    pub fn freeze(self) -> Result<Utf8Array<O>>
        ensures { OrOutOfMemory result (λ a. a ≡ self) }
    {
        let MutableUtf8ValuesArray { builder } = self;
        let (data_type, offsets, values, validity) = builder.freeze()?;
        Ok(Utf8Array::new(data_type, offsets, values, validity))
    }

    /// The array of these texts, shared.
    ///
    /// # Errors
    /// `OutOfMemory`: a count of owners found no memory.
    pub fn into_arc(self) -> Result<Rc<Utf8Array<O>>>
        ensures { OrOutOfMemory result (λ a. a.value ≡ self) }
    {
        let alloc = *self.builder.values().allocator();
        Ok(Rc::new(alloc, self.freeze()?)?)
    }
}

impl<O: Offset> Deref for MutableUtf8ValuesArray<O> {
    type Target = ByteBuilder<O>;

    ghost deref_gives = { λ array builder. builder ≡ array };

    fn deref(&self) -> &ByteBuilder<O> {
        &self.builder
    }
}
