ghost use Rattle.std.specs.Prelude.{◌≡◌, None, [], true, option_map, IfErr, ◌≤◌};
ghost use Rattle.flat_arrays_bytes.specs.columnar_memory.Error.{IsOutOfMemory};
ghost use Rattle.flat_arrays_bytes.specs.columnar_memory.Layouts.{physical_type};
ghost use Rattle.flat_arrays_bytes.specs.columnar_memory.Results.{OrOutOfMemory};
ghost use Rattle.flat_arrays_bytes.specs.columnar_memory.Spans.{no_spans};
ghost use Rattle.flat_arrays_bytes.specs.ByteStrings.{byte_strings, values_of, len_of};
ghost use Rattle.flat_arrays_bytes.specs.Fits.{IsBinary, binary_layout, binary_type};
ghost use Rattle.flat_arrays_byte_values_builders.specs.Growing.{Grows, IsTaken, IsValues, OrUnchanged, Pops, pushed, first_slots};

use crate::builder::{ByteBuilder, binary_layout_of};
use flat_arrays_bytes::columnar_memory::{DataType, Offset, Offsets, Result};
use flat_arrays_bytes::{BinaryArray, ByteValuesIter};
use std::alloc::Global;
use std::marker::Model;
use std::ops::Deref;
use std::rc::Rc;

/// The byte strings of a builder, those under nulls too, in order or from the back.
pub type MutableBinaryValuesIter<'a, O> = ByteValuesIter<'a, ByteBuilder<O>>;

/// A builder of byte strings none of which is null. A contract sees its data type, where each byte string stands among the bytes, and the
/// bytes, of which none stand behind the last byte string; it has no mask.
#[derive(Debug, Drop)]
pub struct MutableBinaryValuesArray<O: Offset> {
    pub(crate) builder: ByteBuilder<O>,
}

impl<O: Offset> Model for MutableBinaryValuesArray<O> {
    ghost use Rattle.std.specs.Prelude.{◌≡◌, None};
    ghost use Rattle.flat_arrays_bytes.specs.ByteStrings.{ByteStrings, byte_strings_code};
    ghost use Rattle.flat_arrays_bytes.specs.columnar_memory.Layouts.{physical_type};
    ghost use Rattle.flat_arrays_bytes.specs.Fits.{binary_layout};

    ghost Value = { ByteStrings };

    ghost coded = { byte_strings_code };

    ghost view = { λ it. it.builder };

    ghost invariant = { λ it. (physical_type it.builder.data_type ≡ binary_layout O.IS_LARGE) × (it.builder.validity ≡ None) };
}

impl<O: Offset> MutableBinaryValuesArray<O> {
    /// No byte strings.
    ///
    /// # Errors
    /// `OutOfMemory`: the offsets found no memory.
    pub fn new(alloc: Global) -> Result<Self>
        ensures { OrOutOfMemory result (λ a. a ≡ byte_strings (binary_type O.IS_LARGE) no_spans [] None) }
    {
        MutableBinaryValuesArray::with_capacities(alloc, 0, 0)
    }

    /// No byte strings, with room for this many.
    ///
    /// # Errors
    /// `OutOfMemory`: the room found no memory.
    pub fn with_capacity(alloc: Global, capacity: usize) -> Result<Self>
        ensures { OrOutOfMemory result (λ a. a ≡ byte_strings (binary_type O.IS_LARGE) no_spans [] None) }
    {
        MutableBinaryValuesArray::with_capacities(alloc, capacity, 0)
    }

    /// No byte strings, with room for this many and for this many bytes.
    ///
    /// # Errors
    /// `OutOfMemory`: the room found no memory.
    pub fn with_capacities(alloc: Global, capacity: usize, values: usize) -> Result<Self>
        ensures { OrOutOfMemory result (λ a. a ≡ byte_strings (binary_type O.IS_LARGE) no_spans [] None) }
    {
        let data_type = MutableBinaryValuesArray::<O>::default_data_type();
        let builder = ByteBuilder::with_capacities(alloc, data_type, capacity, values)?;
        Ok(MutableBinaryValuesArray { builder })
    }

    /// The builder that goes on behind these parts. Takes no memory, and cuts the bytes behind the last byte string.
    ///
    /// # Errors
    /// `OutOfSpec`: arrays of the data type do not store byte strings with such offsets, or the last offset is past the bytes.
    pub fn try_new(data_type: DataType, offsets: Offsets<O>, values: Vec<u8>) -> Result<Self>
        ensures { IsTaken (IsBinary O.IS_LARGE) (byte_strings data_type offsets values.items None) result }
    {
        let layout = binary_layout_of::<O>();
        let builder = ByteBuilder::try_new(layout, data_type, offsets, values, None)?;
        Ok(MutableBinaryValuesArray { builder })
    }

    /// The data type of byte strings with such offsets: `Binary` or `LargeBinary`.
    pub fn default_data_type() -> DataType
        ensures value { result ≡ binary_type O.IS_LARGE }
        ensures fits { physical_type result ≡ binary_layout O.IS_LARGE }
    {
        BinaryArray::<O>::default_data_type()
    }

    /// The byte strings from both ends.
    pub fn values_iter(&self) -> MutableBinaryValuesIter<'_, O>
        ensures { result ≡ values_of self.now }
    {
        ByteValuesIter::new(&self.builder)
    }

    /// The same as `values_iter`.
    pub fn iter(&self) -> MutableBinaryValuesIter<'_, O>
        ensures { result ≡ values_of self.now }
    {
        self.values_iter()
    }

    /// Makes room for more byte strings and for more bytes.
    ///
    /// # Errors
    /// `OutOfMemory`: the room found no memory.
    pub fn reserve(&mut self, additional: usize, additional_values: usize) -> Result<()>
        ensures same { self.new ≡ self.old }
        ensures err { IfErr result IsOutOfMemory }
    {
        self.builder.reserve(additional, additional_values)
    }

    /// Gives memory back that no byte string needs.
    pub fn shrink_to_fit(&mut self)
        ensures { self.new ≡ self.old }
    {
        self.builder.shrink_to_fit();
    }

    /// Adds a byte string behind the others, or changes nothing.
    ///
    /// # Errors
    /// `Overflow`: it would end past the greatest offset of the type.
    /// `OutOfMemory`: it found no memory.
    pub fn try_push(&mut self, value: &[u8]) -> Result<()>
        ensures { Grows O.greatest self.old (pushed self.old value.now true) self.new result }
    {
        self.builder.try_push(value, true)
    }

    /// The same as `try_push`.
    ///
    /// # Errors
    /// `Overflow`: it would end past the greatest offset of the type.
    /// `OutOfMemory`: it found no memory.
    pub fn push(&mut self, value: &[u8]) -> Result<()>
        ensures { Grows O.greatest self.old (pushed self.old value.now true) self.new result }
    {
        self.try_push(value)
    }

    /// Takes the last byte string off, and answers a copy of it, or none where there is none.
    ///
    /// # Errors
    /// `OutOfMemory`: the copy found no memory, and nothing changed.
    pub fn pop(&mut self) -> Result<Option<Vec<u8>>>
        ensures { OrUnchanged self.old self.new result (λ slot. Pops self.old (option_map (λ v. v.items) slot) self.new) }
    {
        self.builder.pop()
    }

    /// Drops the byte strings from `len` on.
    pub fn truncate(&mut self, len: usize)
        requires { len ≤ len_of self.old }
        ensures { self.new ≡ first_slots self.old len }
    {
        self.builder.keep_first(len);
    }

    /// The data type, the offsets and the bytes.
    pub fn into_inner(self) -> (DataType, Offsets<O>, Vec<u8>)
        ensures value { self ≡ byte_strings result.0 result.1 result.2.items None }
        ensures whole { IsValues (binary_layout O.IS_LARGE) self }
    {
        let MutableBinaryValuesArray { builder } = self;
        let (data_type, offsets, values, _) = builder.into_inner();
        (data_type, offsets, values)
    }

    /// What stands inside: the same byte strings, beside which a mask may come.
    pub fn into_builder(self) -> ByteBuilder<O>
        ensures value { result ≡ self }
        ensures whole { IsValues (binary_layout O.IS_LARGE) self }
    {
        let MutableBinaryValuesArray { builder } = self;
        let _slots = builder.len();
        builder
    }

    /// The array of these byte strings, with no copy.
    ///
    /// # Errors
    /// `OutOfMemory`: a count of owners found no memory.
    pub fn freeze(self) -> Result<BinaryArray<O>>
        ensures { OrOutOfMemory result (λ a. a ≡ self) }
    {
        let MutableBinaryValuesArray { builder } = self;
        let (data_type, offsets, values, validity) = builder.freeze()?;
        Ok(BinaryArray::new(data_type, offsets, values, validity))
    }

    /// The array of these byte strings, shared.
    ///
    /// # Errors
    /// `OutOfMemory`: a count of owners found no memory.
    pub fn into_arc(self) -> Result<Rc<BinaryArray<O>>>
        ensures { OrOutOfMemory result (λ a. a.value ≡ self) }
    {
        let alloc = *self.builder.values().allocator();
        Ok(Rc::new(alloc, self.freeze()?)?)
    }
}

impl<O: Offset> Deref for MutableBinaryValuesArray<O> {
    type Target = ByteBuilder<O>;

    ghost deref_gives = { λ array builder. builder ≡ array };

    fn deref(&self) -> &ByteBuilder<O> {
        &self.builder
    }
}
