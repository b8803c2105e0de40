//! Byte strings that grow, with validity marks: what builders of bytes and of texts hold.
ghost use Rattle.std.specs.Prelude.{◌≡◌, ◌+◌, ◌-◌, ◌<◌, ◌≤◌, ◌↔◌, IsTrue, Some, None, [], length, slice_get, IfErr};
ghost use Rattle.std.specs.Prelude.{MatchResult, option_map, take};
ghost use Rattle.std.specs.Option.{option_copied};
ghost use Rattle.flat_arrays_bytes.specs.columnar_memory.Error.{IsOutOfMemory, IsOutOfSpec};
ghost use Rattle.flat_arrays_bytes.specs.columnar_memory.Layouts.{physical_type};
ghost use Rattle.flat_arrays_bytes.specs.columnar_memory.Results.{OrOutOfMemory};
ghost use Rattle.flat_arrays_bytes.specs.columnar_memory.Spans.{first_spans, last_of, no_spans, shortened};
ghost use Rattle.flat_arrays_bytes.specs.ByteStrings.{byte_strings, len_of, marks_of, slots_of, values_of, with_mask};
ghost use Rattle.flat_arrays_bytes.specs.Fits.{Fits, IsMaskOf, binary_layout, text_layout};
ghost use Rattle.flat_arrays_bytes.specs.Texts.{AllTexts};
ghost use Rattle.flat_arrays_bytes.specs.values.Flat.{needed_mask};
ghost use Rattle.flat_arrays_byte_values_builders.specs.Growing.{Grows, IsFilled, IsTaken, OrUnchanged, Pops, tidied};
ghost use Rattle.flat_arrays_byte_values_builders.specs.Growing.{first_slots, pushed, trimmed, with_slot, without_last};

use flat_arrays_bytes::HoldsByteStrings;
use flat_arrays_bytes::columnar_memory::{
    Bitmap, Buffer, DataType, Error, Index, MutableBitmap, Offset, Offsets, OffsetsBuffer,
    PhysicalType, Result,
};
use flat_arrays_bytes::values::marks::{
    freeze_needed_mask, is_mask_of, push_mark, reserve_marks, shrink_marks, tidy_mask,
    truncate_mask,
};
use simdutf8::is_utf8;
use std::alloc::Global;
use std::marker::Model;

/// A data type, offsets, bytes and a mask, as an array shares them.
pub type Parts<O> = (DataType, OffsetsBuffer<O>, Buffer<u8>, Option<Bitmap>);

/// What each builder of byte strings or texts holds, and may be asked for: byte strings, each between two neighbouring offsets, a data
/// type, and a validity mark for each where a mask is held. No bytes stand behind the last of them.
///
/// A call that is refused changes nothing.
#[derive(Debug)]
pub struct ByteBuilder<O: Offset> {
    pub(crate) data_type: DataType,
    pub(crate) offsets: Offsets<O>,
    pub(crate) values: Vec<u8>,
    pub(crate) validity: Option<MutableBitmap>,
}

impl<O: Offset> Drop for ByteBuilder<O> {
    fn drop(self) {
        let ByteBuilder {
            data_type: _,
            offsets: _,
            values: _,
            validity: _,
        } = self;
    }
}

impl<O: Offset> Model for ByteBuilder<O> {
    ghost use Rattle.flat_arrays_bytes.specs.ByteStrings.{ByteStrings, byte_strings, byte_strings_code};
    ghost use Rattle.flat_arrays_byte_values_builders.specs.Growing.{IsFilled};

    ghost Value = { ByteStrings };

    ghost coded = { byte_strings_code };

    ghost view = { λ it. byte_strings it.data_type it.offsets it.values.items it.validity };

    ghost invariant = { λ it. IsFilled (byte_strings it.data_type it.offsets it.values.items it.validity) };
}

/// How arrays of byte strings lie in memory, by the width of their offsets.
pub fn binary_layout_of<O: Offset>() -> PhysicalType
    ensures { result ≡ binary_layout O.IS_LARGE }
{
    if O::IS_LARGE {
        PhysicalType::LargeBinary
    } else {
        PhysicalType::Binary
    }
}

/// The same of texts.
pub fn text_layout_of<O: Offset>() -> PhysicalType
    ensures { result ≡ text_layout O.IS_LARGE }
{
    if O::IS_LARGE {
        PhysicalType::LargeUtf8
    } else {
        PhysicalType::Utf8
    }
}

/// Whether arrays of a data type lie in memory so.
fn has_layout(data_type: &DataType, layout: PhysicalType) -> bool
    ensures { IsTrue result ↔ (physical_type data_type.now ≡ layout) }
{
    data_type.to_physical_type() == layout
}

/// Takes the last mark off, where a mask is held.
fn pop_mark(validity: &mut Option<MutableBitmap>)
    ensures { validity.new ≡ option_map (λ mask. take (length mask - 1) mask) validity.old }
{
    match validity {
        Some(mask) => drop_mark(mask),
        None => {}
    }
}

/// Takes the last bit off, where there is one.
fn drop_mark(mask: &mut MutableBitmap)
    ensures { mask.new ≡ take (length mask.old - 1) mask.old }
{
    match mask.pop() {
        Some(_) => {}
        None => {}
    }
}

/// Takes the last span off.
#[tactic(auto, using(crate::proofs::Growth::some_span))]
fn drop_span<O: Offset>(offsets: &mut Offsets<O>)
    requires { 0 < length offsets.old.lengths }
    ensures { offsets.new ≡ shortened offsets.old }
{
    match offsets.pop() {
        Some(_) => {}
        None => {}
    }
}

/// Takes the spans from `count` on off.
#[tactic(auto, using(crate::proofs::First::spans_off))]
fn keep_spans<O: Offset>(offsets: &mut Offsets<O>, count: usize)
    requires { count ≤ length offsets.old.lengths }
    ensures { offsets.new ≡ first_spans offsets.old count }
{
    let held = offsets.len_proxy();
    for _k in 0..held - count {
        drop_span(offsets);
    }
}

/// Where the last span ends, as a number.
pub(crate) fn end_of<O: Offset>(offsets: &Offsets<O>) -> usize
    ensures value { result ≡ last_of offsets.now }
    ensures bound { result ≤ O.greatest }
{
    offsets.last().to_usize()
}

/// Offsets, bytes and a mask in memory that arrays share. Where no slot is null there is no mask.
fn frozen_parts<O: Offset>(
    offsets: Offsets<O>,
    values: Vec<u8>,
    validity: Option<MutableBitmap>,
) -> Result<(OffsetsBuffer<O>, Buffer<u8>, Option<Bitmap>)>
    ensures { OrOutOfMemory result (λ p. (p.0 ≡ offsets) × (p.1 ≡ values.items) × (p.2 ≡ needed_mask validity)) }
{
    let validity = freeze_needed_mask(validity)?;
    Ok((offsets.freeze()?, Buffer::from_vec(values)?, validity))
}

/// Offsets and bytes of no slots, with room for this many and for this many bytes.
fn empty_parts<O: Offset>(
    alloc: Global,
    capacity: usize,
    bytes: usize,
) -> Result<(Offsets<O>, Vec<u8>)>
    ensures { OrOutOfMemory result (λ p. (p.0 ≡ no_spans) × (p.1.items ≡ [])) }
{
    let offsets = Offsets::with_capacity(alloc, capacity)?;
    Ok((offsets, Vec::with_capacity(alloc, bytes)?))
}

/// Refuses parts that make no array of the layout.
fn check_parts<O: Offset>(
    layout: PhysicalType,
    data_type: &DataType,
    offsets: &Offsets<O>,
    values: &[u8],
    validity: &Option<MutableBitmap>,
) -> Result<()>
    ensures { MatchResult result (λ _. Fits layout (byte_strings data_type.now offsets.now values.now validity.now))
        (λ e. IsOutOfSpec e × ¬ Fits layout (byte_strings data_type.now offsets.now values.now validity.now)) }
{
    if !has_layout(data_type, layout) {
        return Err(Error::OutOfSpec("data type of another layout than the array's"));
    }
    if !is_mask_of(validity, offsets.len_proxy()) {
        return Err(Error::OutOfSpec("validity of another length than the array"));
    }
    if end_of(offsets) > values.len() {
        return Err(Error::OutOfSpec("offsets past the end of the values"));
    }
    Ok(())
}

impl<O: Offset> ByteBuilder<O> {
    /// The builder that goes on behind these parts, where they make an array of the layout. Takes no memory, and cuts the bytes behind the
    /// last byte string.
    ///
    /// # Errors
    /// `OutOfSpec`: the data type is not laid out so, the mask has another length, or the last offset is past the bytes.
    pub fn try_new(
        layout: PhysicalType,
        data_type: DataType,
        offsets: Offsets<O>,
        values: Vec<u8>,
        validity: Option<MutableBitmap>,
    ) -> Result<Self>
        ensures { IsTaken (Fits layout) (byte_strings data_type offsets values.items validity) result }
    {
        check_parts(layout, &data_type, &offsets, &values, &validity)?;
        Ok(ByteBuilder::new(data_type, offsets, values, validity))
    }

    /// The builder that goes on behind parts that fit, without the bytes behind the last byte string. Takes no memory.
    pub fn new(
        data_type: DataType,
        offsets: Offsets<O>,
        values: Vec<u8>,
        validity: Option<MutableBitmap>,
    ) -> Self
        requires masked { IsMaskOf (length offsets.lengths) validity }
        requires within { last_of offsets ≤ length values.items }
        ensures { result ≡ trimmed (byte_strings data_type offsets values.items validity) }
    {
        let mut values = values;
        values.truncate(end_of(&offsets));
        ByteBuilder {
            data_type,
            offsets,
            values,
            validity,
        }
    }

    /// No slots, with room for this many and for this many bytes.
    pub fn with_capacities(
        alloc: Global,
        data_type: DataType,
        capacity: usize,
        bytes: usize,
    ) -> Result<Self>
        ensures { OrOutOfMemory result (λ a. a ≡ byte_strings data_type no_spans [] None) }
    {
        let (offsets, values) = empty_parts(alloc, capacity, bytes)?;
        Ok(ByteBuilder {
            data_type,
            offsets,
            values,
            validity: None,
        })
    }

    /// How many slots there are.
    pub fn len(&self) -> usize
        ensures value { result ≡ len_of self.now }
        ensures whole { IsFilled self.now }
    {
        self.offsets.len_proxy()
    }

    pub fn is_empty(&self) -> bool
        ensures { IsTrue result ↔ (len_of self.now ≡ 0) }
    {
        self.len() == 0
    }

    /// How many slots the memory of the offsets has room for.
    pub fn capacity(&self) -> usize
        ensures { len_of self.now ≤ result }
    {
        self.offsets.capacity()
    }

    pub fn data_type(&self) -> &DataType
        ensures { result.now ≡ self.now.data_type }
    {
        &self.data_type
    }

    /// The offsets: each byte string stands between two neighbouring ones.
    pub fn offsets(&self) -> &Offsets<O>
        ensures { result.now ≡ self.now.offsets }
    {
        &self.offsets
    }

    /// The bytes, one byte string behind another.
    pub fn values(&self) -> &Vec<u8>
        ensures { result.now.items ≡ self.now.bytes }
    {
        &self.values
    }

    /// The mask, where there is one: a bit is set where its slot is not null.
    pub fn validity(&self) -> Option<&MutableBitmap>
        ensures { option_copied result ≡ self.now.validity }
    {
        self.validity.as_ref()
    }

    /// The stored byte string at a place, also where the slot is null.
    #[tactic(auto, using(flat_arrays_bytes::proofs::Places::value_between))]
    pub fn value(&self, index: usize) -> &[u8]
        requires { index < len_of self.now }
        ensures { slice_get (values_of self.now) index ≡ Some result.now }
    {
        let (start, end) = self.offsets.start_end(index);
        &self.values[start..end]
    }

    /// Whether the slot at a place has a value.
    #[tactic(auto, using(flat_arrays_bytes::proofs::Slots::marks_all))]
    pub fn is_valid(&self, index: usize) -> bool
        requires { index < len_of self.now }
        ensures { slice_get (marks_of self.now) index ≡ Some result }
    {
        match &self.validity {
            Some(mask) => mask.get(index),
            None => true,
        }
    }

    /// Whether each stored byte string is UTF-8 by itself.
    pub fn holds_texts(&self) -> bool
        ensures { IsTrue result ↔ AllTexts (values_of self.now) }
    {
        let count = self.len();
        for index in 0..count {
            if !is_utf8(self.value(index)) {
                return false;
            }
        }
        true
    }

    /// Makes room for more slots, and for more bytes.
    pub fn reserve(&mut self, additional: usize, additional_bytes: usize) -> Result<()>
        ensures same { self.new ≡ self.old }
        ensures err { IfErr result IsOutOfMemory }
    {
        self.offsets.reserve(additional)?;
        reserve_marks(&mut self.validity, additional)?;
        self.values.reserve(additional_bytes)?;
        Ok(())
    }

    /// Gives memory back that no slot needs.
    pub fn shrink_to_fit(&mut self)
        ensures { self.new ≡ self.old }
    {
        self.values.shrink_to_fit();
        self.offsets.shrink_to_fit();
        shrink_marks(&mut self.validity);
    }

    /// Adds a byte string with its mark behind the others, or changes nothing.
    ///
    /// # Errors
    /// `Overflow`: it would end past the greatest offset of the type.
    /// `OutOfMemory`: it found no memory.
    #[tactic(auto, using(crate::proofs::Growth::undone))]
    pub fn try_push(&mut self, value: &[u8], mark: bool) -> Result<()>
        ensures grown { Grows O.greatest self.old (pushed self.old value.now mark) self.new result }
        ensures whole { IsFilled self.old }
    {
        let count = self.offsets.len_proxy();
        let held = self.values.len();
        let alloc = *self.values.allocator();
        self.offsets.try_push(value.len())?;
        if self.values.extend_from_slice(value).is_err() {
            drop_span(&mut self.offsets);
            return Err(Error::OutOfMemory);
        }
        if push_mark(alloc, &mut self.validity, count, mark).is_err() {
            self.values.truncate(held);
            drop_span(&mut self.offsets);
            return Err(Error::OutOfMemory);
        }
        Ok(())
    }

    /// Adds a null, which stores no bytes, or changes nothing.
    ///
    /// # Errors
    /// `OutOfMemory`: it found no memory.
    pub fn push_null(&mut self) -> Result<()>
        ensures null { OrUnchanged self.old self.new result (λ _. self.new ≡ with_slot self.old None) }
        ensures whole { IsFilled self.old }
    {
        // No offset passes the greatest one, and a null ends where the last slot does: it never overflows.
        let _end = end_of(&self.offsets);
        self.try_push(&[], false)
    }

    /// A copy of the slot at a place.
    fn copy_of_slot(&self, index: usize) -> Result<Option<Vec<u8>>>
        requires { index < len_of self.now }
        ensures { OrOutOfMemory result (λ slot. slice_get (slots_of self.now) index ≡ Some (option_map (λ v. v.items) slot)) }
    {
        if !self.is_valid(index) {
            return Ok(None);
        }
        let alloc = *self.values.allocator();
        let copy = Vec::from_slice(alloc, self.value(index))?;
        Ok(Some(copy))
    }

    /// Takes the last slot off, and answers a copy of it, or none where it is null or there is no slot.
    ///
    /// # Errors
    /// `OutOfMemory`: the copy found no memory.
    pub fn pop(&mut self) -> Result<Option<Vec<u8>>>
        ensures popped { OrUnchanged self.old self.new result (λ slot. Pops self.old (option_map (λ v. v.items) slot) self.new) }
        ensures whole { IsFilled self.old }
    {
        let count = self.len();
        if count == 0 {
            return Ok(None);
        }
        let slot = self.copy_of_slot(count - 1)?;
        self.drop_last();
        Ok(slot)
    }

    /// Takes the last slot off.
    fn drop_last(&mut self)
        requires { 0 < len_of self.old }
        ensures { self.new ≡ without_last self.old }
    {
        drop_span(&mut self.offsets);
        self.values.truncate(end_of(&self.offsets));
        pop_mark(&mut self.validity);
    }

    /// Drops the slots from `len` on, and the mask where none of the others is null.
    pub fn truncate(&mut self, len: usize)
        requires { len ≤ len_of self.old }
        ensures cut { self.new ≡ tidied (first_slots self.old len) }
        ensures whole { IsFilled self.old }
    {
        self.keep_first(len);
        tidy_mask(&mut self.validity);
    }

    /// Drops the slots from `len` on, and their marks.
    #[tactic(auto, using(crate::proofs::First::marks_held, crate::proofs::First::filled_first))]
    pub(crate) fn keep_first(&mut self, len: usize)
        requires { len ≤ len_of self.old }
        ensures cut { self.new ≡ first_slots self.old len }
        ensures whole { IsFilled self.old }
    {
        keep_spans(&mut self.offsets, len);
        self.values.truncate(end_of(&self.offsets));
        truncate_mask(&mut self.validity, len);
    }

    /// The parts of an array of the same slots, with no copy.
    ///
    /// # Errors
    /// `OutOfMemory`: a count of owners found no memory.
    pub fn freeze(self) -> Result<Parts<O>>
        ensures { OrOutOfMemory result (λ p. (byte_strings p.0 p.1 p.2 p.3 ≡ tidied self) × IsFilled self) }
    {
        let ByteBuilder {
            data_type,
            offsets,
            values,
            validity,
        } = self;
        let (offsets, values, validity) = frozen_parts(offsets, values, validity)?;
        Ok((data_type, offsets, values, validity))
    }

    /// The data type, the offsets, the bytes and the mask.
    pub fn into_inner(self) -> (DataType, Offsets<O>, Vec<u8>, Option<MutableBitmap>)
        ensures value { self ≡ byte_strings result.0 result.1 result.2.items result.3 }
        ensures whole { IsFilled self }
    {
        let ByteBuilder {
            data_type,
            offsets,
            values,
            validity,
        } = self;
        (data_type, offsets, values, validity)
    }
}

impl<O: Offset> HoldsByteStrings for ByteBuilder<O> {
    ghost held = { λ builder. builder };

    fn count(&self) -> usize {
        self.len()
    }

    fn bytes_at(&self, index: usize) -> &[u8] {
        self.value(index)
    }
}
