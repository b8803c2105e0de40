//! Builders of byte strings of one size.
ghost use Rattle.std.specs.Prelude.{◌≡◌, ◌+◌, ◌*◌, ◌<◌, ◌≤◌, length, not, replicate, true, false, option_map, MatchResult, IfErr, None, Some};
ghost use Rattle.std.specs.List.{list_all};
ghost use Rattle.std.specs.Option.{option_copied};
ghost use Rattle.nested_arrays_generic_builders.specs.nulls.access.Nulls.{is_null_at};
ghost use Rattle.nested_arrays_generic_builders.specs.nulls.columnar_memory.Error.{IsOutOfMemory};
ghost use Rattle.nested_arrays_generic_builders.specs.nulls.columnar_memory.Results.{OrOutOfMemory};
ghost use Rattle.nested_arrays_generic_builders.specs.nulls.columns.Slots.{null};
ghost use Rattle.nested_arrays_generic_builders.specs.nulls.columns.SoundColumns.{is_byte, is_sound, mask_fits};
ghost use Rattle.nested_arrays_generic_builders.specs.nulls.columns.StoredColumns.{column_len};
ghost use Rattle.nested_arrays_generic_builders.specs.nulls.flat.FlatColumns.{byte_width, fixed_column};
ghost use Rattle.nested_arrays_generic_builders.specs.cells.parts.Marks.{mask_of_marks};
ghost use Rattle.nested_arrays_generic_builders.specs.cells.taken.OpenColumns.{AddsNull, KeepsFirst, TakesColumn};
ghost use Rattle.nested_arrays_sized_builders.specs.MarkedSlots.{AddsSlot};
ghost use Rattle.nested_arrays_sized_builders.specs.SizedStrings.{AddsBytes, AddsString, IsBuilt, JoinsBytes, JoinsStrings};
ghost use Rattle.nested_arrays_sized_builders.specs.SizedStrings.{TakesLast, first_strings, is_sized, no_strings};
ghost use Rattle.nested_arrays_sized_builders.specs.SizedStrings.{sized_column, sized_type, sized_string_at, string_slot, value_at};

use nested_arrays_generic_builders::cells::parts::Marks;
use nested_arrays_generic_builders::cells::taken::MutableArray;
use nested_arrays_generic_builders::nulls::arrays::AnyArray;
use nested_arrays_generic_builders::nulls::columnar_memory::{
    Bitmap, Buffer, DataType, Error, MutableBitmap, Result,
};
use nested_arrays_generic_builders::nulls::flat::FixedSizeBinaryArray;
use nested_arrays_generic_builders::nulls::generic::ToBoxed;
use nested_arrays_generic_builders::{join_marks, marks_of};
use std::alloc::Global;
use std::marker::Model;
use std::mem;
use std::rc::Rc;

/// A builder of byte strings of one size (Arrow columnar format, "Fixed-size Primitive Layout"). A contract sees the data type, a mark for each
/// string, and the bytes of the strings one after another, zeros under each null that is pushed.
///
/// A call that is refused changes nothing, but for `as_box` and `as_arc`, which leave an empty builder in any case.
#[derive(Drop)]
pub struct MutableFixedSizeBinaryArray {
    data_type: DataType,
    size: usize,
    marks: Marks,
    values: Vec<u8>,
}

impl Model for MutableFixedSizeBinaryArray {
    ghost use Rattle.nested_arrays_sized_builders.specs.SizedStrings.{AreSized, SizedParts, sized_parts, sized_parts_code};

    ghost Value = { SizedParts };

    ghost coded = { sized_parts_code };

    ghost view = { λ it. sized_parts it.data_type it.marks it.values.items };

    ghost invariant = { λ it. AreSized it.data_type it.size it.marks it.values.items };
}

impl MutableFixedSizeBinaryArray {
    /// The builder of a data type, bytes and a mask, which is let go where it has no null.
    ///
    /// # Errors
    /// `OutOfSpec`: arrays of the data type are not of byte strings of one size, of a byte at least; the bytes are no whole number of such
    /// strings; or the mask is not as long as the strings.
    /// `Overflow`: there are more strings than a column may have.
    /// `OutOfMemory`: the marks found no memory.
    pub fn try_new(
        alloc: Global,
        data_type: DataType,
        values: Vec<u8>,
        validity: Option<MutableBitmap>,
    ) -> Result<Self>
        ensures { IsBuilt data_type values.items validity result }
    {
        read_bytes(&values);
        let size = FixedSizeBinaryArray::get_size(&data_type);
        if size == 0 {
            return Err(Error::OutOfSpec("a data type whose arrays store other values"));
        }
        if values.len() % size != 0 {
            return Err(Error::OutOfSpec("bytes that are no whole number of strings"));
        }
        let count = values.len() / size;
        if !has_length(&validity, count) {
            return Err(Error::OutOfSpec("a mask of another length than the strings"));
        }
        let marks = marks_of(alloc, &validity, count)?;
        Ok(MutableFixedSizeBinaryArray {
            data_type,
            size,
            marks,
            values,
        })
    }

    /// A builder without strings, of a size of one at least. Takes no memory.
    pub fn new(alloc: Global, size: usize) -> Self
        requires { 0 < size }
        ensures { result ≡ no_strings (sized_type size) }
    {
        MutableFixedSizeBinaryArray {
            data_type: DataType::FixedSizeBinary(size),
            size,
            marks: Marks::new(alloc),
            values: Vec::new(alloc),
        }
    }

    /// A builder without strings, of a size of one at least, with room for so many.
    ///
    /// # Errors
    /// `OutOfMemory`: the room found no memory.
    pub fn with_capacity(alloc: Global, size: usize, capacity: usize) -> Result<Self>
        requires { 0 < size }
        ensures { OrOutOfMemory result (λ builder. builder ≡ no_strings (sized_type size)) }
    {
        let mut builder = MutableFixedSizeBinaryArray::new(alloc, size);
        builder.reserve(capacity)?;
        Ok(builder)
    }

    /// Pushes a byte string, or a null.
    ///
    /// # Errors
    /// `InvalidArgumentError`: the string has another size.
    /// `Overflow`: there are as many strings as a column may have.
    /// `OutOfMemory`: the string found no memory.
    pub fn try_push(&mut self, value: Option<&[u8]>) -> Result<()>
        ensures string { AddsString self.old (option_copied value.entry) self.new result }
        ensures column { AddsSlot (sized_column self.old) (string_slot (option_copied value.entry)) (sized_column self.new) result }
    {
        match value {
            Some(bytes) => self.push_string(bytes),
            None => self.push_null(),
        }
    }

    /// Pushes a byte string of the size, or a null.
    ///
    /// # Errors
    /// `Overflow`: there are as many strings as a column may have.
    /// `OutOfMemory`: the string found no memory.
    pub fn push(&mut self, value: Option<&[u8]>) -> Result<()>
        requires { is_sized (byte_width self.old.data_type) (option_copied value) ≡ true }
        ensures string { AddsString self.old (option_copied value.entry) self.new result }
        ensures column { AddsSlot (sized_column self.old) (string_slot (option_copied value.entry)) (sized_column self.new) result }
    {
        self.try_push(value)
    }

    /// Pushes a byte string.
    fn push_string(&mut self, bytes: &[u8]) -> Result<()>
        ensures string { AddsString self.old (Some bytes.now) self.new result }
        ensures column { AddsSlot (sized_column self.old) (string_slot (Some bytes.now)) (sized_column self.new) result }
    {
        read_bytes(bytes);
        if bytes.len() != self.size {
            return Err(Error::InvalidArgumentError("a byte string of another size"));
        }
        push_bytes(&mut self.marks, &mut self.values, bytes)
    }

    /// Pushes the strings of another builder behind the others, those under nulls too.
    ///
    /// # Errors
    /// `InvalidArgumentError`: they have another size.
    /// `Overflow`: the strings of both are more than a column may have.
    /// `OutOfMemory`: the strings found no memory.
    pub fn try_extend_from_self(&mut self, other: &Self) -> Result<()>
        ensures { JoinsStrings self.old other.now self.new result }
    {
        if other.size != self.size {
            return Err(Error::InvalidArgumentError("byte strings of another size"));
        }
        join_bytes(
            &mut self.marks,
            &mut self.values,
            &other.marks,
            &other.values,
        )
    }

    /// Takes the last slot off, and answers a copy of it: none where it is null, or where there is no slot.
    ///
    /// # Errors
    /// `OutOfMemory`: the copy found no memory.
    pub fn pop(&mut self) -> Result<Option<Vec<u8>>>
        ensures { MatchResult result (λ value. TakesLast self.old self.new (option_map (λ v. v.items) value))
            (λ e. IsOutOfMemory e × (self.new ≡ self.old)) }
    {
        let held = self.marks.len();
        if held == 0 {
            return Ok(None);
        }
        let value = self.copy_at(held - 1)?;
        self.truncate(held - 1);
        Ok(value)
    }

    /// A copy of the string at a place, none where it is null.
    fn copy_at(&self, i: usize) -> Result<Option<Vec<u8>>>
        requires { i < length self.now.marks }
        ensures { OrOutOfMemory result (λ value. option_map (λ v. v.items) value ≡ value_at self.now i) }
    {
        if !self.marks.is_valid(i) {
            return Ok(None);
        }
        let alloc = *self.values.allocator();
        let copy = Vec::from_slice(alloc, self.value(i))?;
        Ok(Some(copy))
    }

    /// The byte string at a place, also where the slot is null.
    pub fn value(&self, i: usize) -> &[u8]
        requires { i < length self.now.marks }
        ensures { result.now ≡ sized_string_at self.now i }
    {
        let _held = self.values.len();
        let start = self.size * i;
        &self.values[start..start + self.size]
    }

    /// The byte string at a place, none where it is null or where there is no such place.
    pub fn get(&self, i: usize) -> Option<&[u8]>
        ensures { option_copied result ≡ value_at self.now i }
    {
        if i >= self.marks.len() {
            return None;
        }
        if self.marks.is_valid(i) {
            Some(self.value(i))
        } else {
            None
        }
    }

    /// How many bytes each string takes, one at least.
    pub fn size(&self) -> usize
        ensures value { result ≡ byte_width self.now.data_type }
        ensures some { 0 < result }
    {
        self.size
    }

    /// How many strings its memory has room for, at least as many as there are.
    pub fn capacity(&self) -> usize
        ensures { length self.now.marks ≤ result }
    {
        self.marks.len().max(self.values.capacity() / self.size)
    }

    /// The bytes of the strings, one string after another, those under nulls too.
    pub fn values(&self) -> &[u8]
        ensures { result.now ≡ self.now.content }
    {
        &self.values
    }

    /// Hands to a proof that the column of such a builder is sound.
    pub fn whole(&self)
        ensures { is_sound (sized_column self.now) ≡ true }
    {
        let _size = self.size;
    }

    /// The array of the strings, with no copy: there is a mask exactly where a string is null.
    ///
    /// # Errors
    /// `OutOfMemory`: a count of owners found no memory.
    pub fn freeze(self) -> Result<FixedSizeBinaryArray>
        ensures { OrOutOfMemory result (λ array. array ≡ sized_column self) }
    {
        self.whole();
        let MutableFixedSizeBinaryArray {
            data_type,
            size: _,
            marks,
            values,
        } = self;
        freeze_strings(data_type, marks, values)
    }
}

impl MutableFixedSizeBinaryArray {
    /// How many strings there are.
    pub fn len(&self) -> usize
        ensures count { result ≡ length self.now.marks }
        ensures column { result ≡ column_len (sized_column self.now) }
    {
        self.marks.len()
    }

    pub fn data_type(&self) -> &DataType
        ensures { result.now ≡ self.now.data_type }
    {
        &self.data_type
    }

    /// The mask, which is there exactly where a string is null.
    pub fn validity(&self) -> Option<&MutableBitmap>
        ensures { option_copied result ≡ mask_of_marks self.now.marks }
    {
        self.marks.validity()
    }

    /// Whether the slot at a place has a string.
    pub fn is_valid(&self, i: usize) -> bool
        requires { i < column_len (sized_column self.now) }
        ensures { result ≡ not (is_null_at (sized_column self.now) i) }
    {
        self.marks.is_valid(i)
    }

    /// Pushes a null, which stores zeros.
    ///
    /// # Errors
    /// `Overflow`: there are as many strings as a column may have.
    /// `OutOfMemory`: the null found no memory.
    pub fn push_null(&mut self) -> Result<()>
        ensures string { AddsString self.old None self.new result }
        ensures column { AddsSlot (sized_column self.old) null (sized_column self.new) result }
    {
        push_zeros(&mut self.marks, &mut self.values, self.size)
    }

    /// Makes room for some more strings.
    ///
    /// # Errors
    /// `OutOfMemory`: the room found no memory.
    pub fn reserve(&mut self, additional: usize) -> Result<()>
        ensures same { self.new ≡ self.old }
        ensures error { IfErr result IsOutOfMemory }
    {
        let Some(room) = self.size.checked_mul(additional) else {
            return Err(Error::OutOfMemory);
        };
        self.marks.reserve(additional)?;
        self.values.reserve(room)?;
        Ok(())
    }

    /// Gives back memory that no string needs, as far as the allocator takes it.
    pub fn shrink_to_fit(&mut self)
        ensures { self.new ≡ self.old }
    {
        self.marks.shrink_to_fit();
        self.values.shrink_to_fit();
    }

    /// Keeps the first `len` strings alone.
    pub fn truncate(&mut self, len: usize)
        requires { len ≤ length self.old.marks }
        ensures strings { self.new ≡ first_strings self.old len }
        ensures column { KeepsFirst (sized_column self.old) len (sized_column self.new) }
    {
        let _held = self.values.len();
        self.values.truncate(self.size * len);
        self.marks.truncate(len);
    }

    /// The array of the strings; this is left empty.
    fn take(&mut self, alloc: Global) -> Result<FixedSizeBinaryArray>
        ensures left { self.new ≡ no_strings self.old.data_type }
        ensures column { TakesColumn (sized_column self.old) (sized_column self.new) (λ array. array) result }
    {
        self.whole();
        let marks = mem::replace(&mut self.marks, Marks::new(alloc));
        let values = mem::replace(&mut self.values, Vec::new(alloc));
        freeze_under(&self.data_type, marks, values)
    }
}

impl MutableArray for MutableFixedSizeBinaryArray {
    ghost column = { sized_column };

    fn len(&self) -> usize {
        MutableFixedSizeBinaryArray::len(self)
    }

    fn data_type(&self) -> &DataType {
        MutableFixedSizeBinaryArray::data_type(self)
    }

    fn validity(&self) -> Option<&MutableBitmap> {
        MutableFixedSizeBinaryArray::validity(self)
    }

    fn is_valid(&self, i: usize) -> bool {
        MutableFixedSizeBinaryArray::is_valid(self, i)
    }

    fn as_box(&mut self, alloc: Global) -> Result<AnyArray>
        ensures left { self.new ≡ no_strings self.old.data_type }
        ensures column { TakesColumn (sized_column self.old) (sized_column self.new) (λ array. array) result }
    {
        let array = self.take(alloc)?;
        Ok(array.into_any())
    }

    fn as_arc(&mut self, alloc: Global) -> Result<Rc<AnyArray>>
        ensures left { self.new ≡ no_strings self.old.data_type }
        ensures column { TakesColumn (sized_column self.old) (sized_column self.new) (λ counted. counted.value) result }
    {
        let array = self.take(alloc)?;
        Ok(Rc::new(alloc, array.into_any())?)
    }

    fn push_null(&mut self) -> Result<()>
        ensures string { AddsString self.old None self.new result }
        ensures column { AddsNull (sized_column self.old) (sized_column self.new) result }
    {
        MutableFixedSizeBinaryArray::push_null(self)
    }

    fn reserve(&mut self, additional: usize) -> Result<()> {
        MutableFixedSizeBinaryArray::reserve(self, additional)
    }

    fn shrink_to_fit(&mut self) {
        MutableFixedSizeBinaryArray::shrink_to_fit(self);
    }

    fn truncate(&mut self, len: usize) {
        let _held = MutableFixedSizeBinaryArray::len(self);
        MutableFixedSizeBinaryArray::truncate(self, len);
    }
}

/// Reads each byte, by which a proof knows that it is one.
pub fn read_bytes(bytes: &[u8])
    ensures { list_all is_byte bytes.now ≡ true }
{
    for byte in bytes {
        let _byte = *byte;
    }
}

/// Whether a mask, where there is one, has so many marks.
fn has_length(validity: &Option<MutableBitmap>, count: usize) -> bool
    ensures { result ≡ mask_fits validity.now count }
{
    match validity {
        Some(bits) => bits.len() == count,
        None => true,
    }
}

/// Adds a byte string and the mark that it is there, or changes nothing.
fn push_bytes(marks: &mut Marks, values: &mut Vec<u8>, bytes: &[u8]) -> Result<()>
    ensures { AddsBytes marks.old values.old.items true bytes.now marks.new values.new.items result }
{
    let held = marks.len();
    marks.push(true)?;
    match values.extend_from_slice(bytes) {
        Ok(()) => Ok(()),
        Err(_) => {
            marks.truncate(held);
            Err(Error::OutOfMemory)
        }
    }
}

/// Adds bytes and their marks behind the others, or changes nothing.
fn join_bytes(
    marks: &mut Marks,
    values: &mut Vec<u8>,
    more_marks: &Marks,
    more: &[u8],
) -> Result<()>
    ensures { JoinsBytes marks.old values.old.items more_marks.now more.now marks.new values.new.items result }
{
    let held = marks.len();
    join_marks(marks, more_marks)?;
    match values.extend_from_slice(more) {
        Ok(()) => Ok(()),
        Err(_) => {
            marks.truncate(held);
            Err(Error::OutOfMemory)
        }
    }
}

/// Adds zeros and the mark of a null, or changes nothing.
fn push_zeros(marks: &mut Marks, values: &mut Vec<u8>, size: usize) -> Result<()>
    ensures { AddsBytes marks.old values.old.items false (replicate size 0) marks.new values.new.items result }
{
    let Some(len) = values.len().checked_add(size) else {
        return Err(Error::OutOfMemory);
    };
    let held = marks.len();
    marks.push_null()?;
    match values.resize(len, 0) {
        Ok(()) => Ok(()),
        Err(_) => {
            marks.truncate(held);
            Err(Error::OutOfMemory)
        }
    }
}

/// The array of marks and bytes.
fn freeze_strings(
    data_type: DataType,
    marks: Marks,
    values: Vec<u8>,
) -> Result<FixedSizeBinaryArray>
    requires { is_sound (fixed_column data_type (byte_width data_type) values.items (mask_of_marks marks)) ≡ true }
    ensures { OrOutOfMemory result (λ array. array ≡ fixed_column data_type (byte_width data_type) values.items (mask_of_marks marks)) }
{
    let validity: Option<Bitmap> = marks.freeze()?;
    let buffer = Buffer::from_vec(values)?;
    Ok(FixedSizeBinaryArray::new(data_type, buffer, validity))
}

/// The array of marks and bytes under a copy of a data type.
fn freeze_under(data_type: &DataType, marks: Marks, values: Vec<u8>) -> Result<FixedSizeBinaryArray>
    requires { is_sound (fixed_column data_type.now (byte_width data_type.now) values.items (mask_of_marks marks)) ≡ true }
    ensures { OrOutOfMemory result (λ array. array ≡ fixed_column data_type.now (byte_width data_type.now) values.items (mask_of_marks marks)) }
{
    let data_type = data_type.clone()?;
    freeze_strings(data_type, marks, values)
}
