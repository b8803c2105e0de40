ghost use Rattle.std.specs.Prelude.{◌≡◌, Bool, List, None, [], length, option_map, IfErr, ◌≤◌};
ghost use Rattle.std.specs.Option.{ForSome, option_copied};
ghost use Rattle.flat_arrays_byte_values_builders.specs.columnar_memory.Error.{IsOutOfMemory};
ghost use Rattle.flat_arrays_byte_values_builders.specs.columnar_memory.Layouts.{physical_type};
ghost use Rattle.flat_arrays_byte_values_builders.specs.columnar_memory.Results.{OrOutOfMemory};
ghost use Rattle.flat_arrays_byte_values_builders.specs.columnar_memory.Spans.{no_spans};
ghost use Rattle.flat_arrays_byte_values_builders.specs.bytes.ByteStrings.{byte_strings, len_of, with_mask};
ghost use Rattle.flat_arrays_byte_values_builders.specs.bytes.Fits.{IsBinary, IsMaskOf, binary_layout, binary_type};
ghost use Rattle.flat_arrays_byte_values_builders.specs.values.Results.{AppliesTo};
ghost use Rattle.flat_arrays_byte_values_builders.specs.Growing.{Grows, IsTaken, IsGrown, OrUnchanged, Pops, tidied, with_slot, first_slots};

use flat_arrays_byte_values_builders::bytes::BinaryArray;
use flat_arrays_byte_values_builders::columnar_memory::{
    DataType, MutableBitmap, Offset, Offsets, Result,
};
use flat_arrays_byte_values_builders::{ByteBuilder, binary_layout_of};
use std::alloc::Global;
use std::marker::Model;
use std::ops::Deref;
use std::rc::Rc;

/// A builder of byte strings any of which may be null. A contract sees its data type, where each byte string stands among the bytes, the
/// bytes, of which none stand behind the last byte string, and the mask, which is made at the first null.
#[derive(Debug, Drop)]
pub struct MutableBinaryArray<O: Offset> {
    pub(crate) builder: ByteBuilder<O>,
}

impl<O: Offset> Model for MutableBinaryArray<O> {
    ghost use Rattle.std.specs.Prelude.{◌≡◌};
    ghost use Rattle.flat_arrays_byte_values_builders.specs.bytes.ByteStrings.{ByteStrings, byte_strings_code};
    ghost use Rattle.flat_arrays_byte_values_builders.specs.columnar_memory.Layouts.{physical_type};
    ghost use Rattle.flat_arrays_byte_values_builders.specs.bytes.Fits.{binary_layout};

    ghost Value = { ByteStrings };

    ghost coded = { byte_strings_code };

    ghost view = { λ it. it.builder };

    ghost invariant = { λ it. physical_type it.builder.data_type ≡ binary_layout O.IS_LARGE };
}

impl<O: Offset> MutableBinaryArray<O> {
    /// No slots.
    ///
    /// # Errors
    /// `OutOfMemory`: the offsets found no memory.
    pub fn new(alloc: Global) -> Result<Self>
        ensures { OrOutOfMemory result (λ a. a ≡ byte_strings (binary_type O.IS_LARGE) no_spans [] None) }
    {
        MutableBinaryArray::with_capacities(alloc, 0, 0)
    }

    /// No slots, with room for this many.
    ///
    /// # Errors
    /// `OutOfMemory`: the room found no memory.
    pub fn with_capacity(alloc: Global, capacity: usize) -> Result<Self>
        ensures { OrOutOfMemory result (λ a. a ≡ byte_strings (binary_type O.IS_LARGE) no_spans [] None) }
    {
        MutableBinaryArray::with_capacities(alloc, capacity, 0)
    }

    /// No slots, with room for this many and for this many bytes.
    ///
    /// # Errors
    /// `OutOfMemory`: the room found no memory.
    pub fn with_capacities(alloc: Global, capacity: usize, values: usize) -> Result<Self>
        ensures { OrOutOfMemory result (λ a. a ≡ byte_strings (binary_type O.IS_LARGE) no_spans [] None) }
    {
        let data_type = MutableBinaryArray::<O>::default_data_type();
        let builder = ByteBuilder::with_capacities(alloc, data_type, capacity, values)?;
        Ok(MutableBinaryArray { builder })
    }

    /// The builder that goes on behind these parts. Takes no memory, and cuts the bytes behind the last byte string.
    ///
    /// # Errors
    /// `OutOfSpec`: arrays of the data type do not store byte strings with such offsets, the mask is not as long as the offsets tell, or
    /// the last offset is past the bytes.
    pub fn try_new(
        data_type: DataType,
        offsets: Offsets<O>,
        values: Vec<u8>,
        validity: Option<MutableBitmap>,
    ) -> Result<Self>
        ensures { IsTaken (IsBinary O.IS_LARGE) (byte_strings data_type offsets values.items validity) result }
    {
        let layout = binary_layout_of::<O>();
        let builder = ByteBuilder::try_new(layout, data_type, offsets, values, validity)?;
        Ok(MutableBinaryArray { builder })
    }

    /// The data type of byte strings with such offsets: `Binary` or `LargeBinary`.
    pub fn default_data_type() -> DataType
        ensures value { result ≡ binary_type O.IS_LARGE }
        ensures fits { physical_type result ≡ binary_layout O.IS_LARGE }
    {
        BinaryArray::<O>::default_data_type()
    }

    /// Makes room for more slots and for more bytes.
    ///
    /// # Errors
    /// `OutOfMemory`: the room found no memory.
    pub fn reserve(&mut self, additional: usize, additional_values: usize) -> Result<()>
        ensures same { self.new ≡ self.old }
        ensures err { IfErr result IsOutOfMemory }
    {
        self.builder.reserve(additional, additional_values)
    }

    /// Replaces the mask.
    pub fn set_validity(&mut self, validity: Option<MutableBitmap>)
        requires { IsMaskOf (len_of self.old) validity }
        ensures { self.new ≡ with_mask self.old validity }
    {
        self.builder.set_validity(validity);
    }

    /// Replaces the mask, if there is one, by what a function gives for it, which has as many marks.
    pub fn apply_validity<F: FnOnce(MutableBitmap) -> MutableBitmap + Drop>(&mut self, f: F)
        requires callable { ForSome self.old.validity (F.pre f) }
        requires keeps { ForSome self.old.validity (λ mask. (made : List Bool) → F.post f mask made → length made ≡ length mask) }
        ensures applied { AppliesTo (F.post f) self.old.validity self.new.validity }
        ensures rest { self.new ≡ with_mask self.old self.new.validity }
    {
        self.builder.apply_validity(f);
    }

    /// Gives memory back that no slot needs.
    pub fn shrink_to_fit(&mut self)
        ensures { self.new ≡ self.old }
    {
        self.builder.shrink_to_fit();
    }

    /// Adds a slot behind the others, or changes nothing.
    ///
    /// # Errors
    /// `Overflow`: it would end past the greatest offset of the type.
    /// `OutOfMemory`: it found no memory.
    pub fn try_push(&mut self, value: Option<&[u8]>) -> Result<()>
        ensures { Grows O.greatest self.old (with_slot self.old (option_copied value.entry)) self.new result }
    {
        match value {
            Some(bytes) => self.builder.try_push(bytes, true),
            None => self.builder.try_push(&[], false),
        }
    }

    /// The same as `try_push`.
    ///
    /// # Errors
    /// `Overflow`: it would end past the greatest offset of the type.
    /// `OutOfMemory`: it found no memory.
    pub fn push(&mut self, value: Option<&[u8]>) -> Result<()>
        ensures { Grows O.greatest self.old (with_slot self.old (option_copied value.entry)) self.new result }
    {
        self.try_push(value)
    }

    /// Adds a null, which stores no bytes.
    ///
    /// # Errors
    /// `OutOfMemory`: it found no memory, and nothing changed.
    pub fn push_null(&mut self) -> Result<()>
        ensures { OrUnchanged self.old self.new result (λ _. self.new ≡ with_slot self.old None) }
    {
        self.builder.push_null()
    }

    /// Takes the last slot off, and answers a copy of it: none where it is null, or where there is no slot.
    ///
    /// # Errors
    /// `OutOfMemory`: the copy found no memory, and nothing changed.
    pub fn pop(&mut self) -> Result<Option<Vec<u8>>>
        ensures { OrUnchanged self.old self.new result (λ slot. Pops self.old (option_map (λ v. v.items) slot) self.new) }
    {
        self.builder.pop()
    }

    /// Drops the slots from `len` on, and the mask where none of the others is null.
    pub fn truncate(&mut self, len: usize)
        requires { len ≤ len_of self.old }
        ensures { self.new ≡ tidied (first_slots self.old len) }
    {
        self.builder.truncate(len);
    }

    /// Hands to a proof what holds of every such builder: its layout, a mark for each slot, and no bytes behind the last one.
    pub fn whole(&self)
        ensures { IsGrown (binary_layout O.IS_LARGE) self.now }
    {
        let _len = self.builder.len();
    }

    /// The data type, the offsets, the bytes and the mask.
    pub fn into_inner(self) -> (DataType, Offsets<O>, Vec<u8>, Option<MutableBitmap>)
        ensures value { self ≡ byte_strings result.0 result.1 result.2.items result.3 }
        ensures whole { IsGrown (binary_layout O.IS_LARGE) self }
    {
        let MutableBinaryArray { builder } = self;
        builder.into_inner()
    }

    /// The array of these slots, with no copy, and with no mask where no slot is null.
    ///
    /// # Errors
    /// `OutOfMemory`: a count of owners found no memory.
    pub fn freeze(self) -> Result<BinaryArray<O>>
        ensures { OrOutOfMemory result (λ a. a ≡ tidied self) }
    {
        let MutableBinaryArray { builder } = self;
        let (data_type, offsets, values, validity) = builder.freeze()?;
        Ok(BinaryArray::new(data_type, offsets, values, validity))
    }

    /// The array of these slots, shared.
    ///
    /// # Errors
    /// `OutOfMemory`: a count of owners found no memory.
    pub fn into_arc(self) -> Result<Rc<BinaryArray<O>>>
        ensures { OrOutOfMemory result (λ a. a.value ≡ tidied self) }
    {
        let alloc = *self.builder.values().allocator();
        Ok(Rc::new(alloc, self.freeze()?)?)
    }
}

impl<O: Offset> Deref for MutableBinaryArray<O> {
    type Target = ByteBuilder<O>;

    ghost deref_gives = { λ array builder. builder ≡ array };

    fn deref(&self) -> &ByteBuilder<O> {
        &self.builder
    }
}
