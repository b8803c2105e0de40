//! Builders of structs.
ghost use Rattle.std.specs.Prelude.{◌≡◌, ◌<◌, ◌≤◌, length, map, not, slice_get, None, Some, option_copied, true, IfErr};
ghost use Rattle.std.specs.Borrow.{sem};
ghost use Rattle.nested_arrays_nulls.specs.access.Nulls.{is_null_at};
ghost use Rattle.nested_arrays_nulls.specs.arrays.Lengths.{struct_len};
ghost use Rattle.nested_arrays_nulls.specs.columnar_memory.Error.{IsOutOfMemory};
ghost use Rattle.nested_arrays_nulls.specs.columnar_memory.Results.{OrOutOfMemory};
ghost use Rattle.nested_arrays_nulls.specs.columns.SoundColumns.{is_sound, mask_fits};
ghost use Rattle.nested_arrays_nulls.specs.columns.StoredColumns.{column_len, in_columns, records};
ghost use Rattle.nested_arrays_cells.specs.parts.Marks.{marks, mask_of_marks};
ghost use Rattle.nested_arrays_cells.specs.parts.Open.{column_of};
ghost use Rattle.nested_arrays_cells.specs.taken.OpenColumns.{AddsNull, IsFrozen, KeepsFirst, TakesColumn};
ghost use Rattle.nested_arrays_generic_builders.specs.StructBuilders.{emptied, field_columns, first_records, masked_column, no_records};
ghost use Rattle.nested_arrays_generic_builders.specs.StructBuilders.{struct_parts, structs_column, with_fields};
ghost use Rattle.nested_arrays_generic_builders.specs.StructBuilders.{AddsMark, AddsNullRecord, AddsNulls, AreMarked, ClosesRow, IsBuilt, IsMeasured};
ghost use Rattle.nested_arrays_generic_builders.specs.StructLoans.{LendsChild};

use crate::fields::{MutableFields, are_fields_of, are_whole, first_len, have_len};
use crate::lending::MutValues;
use crate::lists::marks_of;
use nested_arrays_cells::builders::AnyMutableArray;
use nested_arrays_cells::parts::Marks;
use nested_arrays_cells::taken::MutableArray;
use nested_arrays_nulls::arrays::{AnyArray, StructArray};
use nested_arrays_nulls::columnar_memory::{DataType, Error, MutableBitmap, Result};
use std::alloc::Global;
use std::marker::Model;
use std::mem;
use std::rc::Rc;

/// A builder of structs over a builder of any type for each field (Arrow columnar format, "Struct Layout"). A contract sees the data type, a mark
/// for each record, and the open columns of the fields.
///
/// A record is closed by its mark: a slot is pushed to each field, which `value` and `mut_values` lend, and `push` then says whether the record is
/// null. There are as many records as marks, however many slots the fields have. While a record is not closed, or a field has slots of another type
/// or number, no array is made. A call that is refused changes nothing, but for `as_box` and `as_arc`, which leave an empty builder in any case.
#[derive(Drop)]
pub struct MutableStructArray {
    data_type: DataType,
    marks: Marks,
    values: MutableFields,
}

impl Model for MutableStructArray {
    ghost use Rattle.std.specs.Prelude.{◌≡◌, true};
    ghost use Rattle.nested_arrays_nulls.specs.columns.StoredColumns.{type_layer};
    ghost use Rattle.nested_arrays_generic_builders.specs.StructBuilders.{has_fields, struct_parts, struct_parts_code, StructParts};

    ghost Value = { StructParts };

    ghost coded = { struct_parts_code };

    ghost view = { λ it. struct_parts it.data_type it.marks it.values };

    ghost invariant = { λ it. has_fields (type_layer it.data_type) ≡ true };
}

impl MutableStructArray {
    /// The builder of a data type, a builder for each of its fields and a mask, which is let go where it has no null. There are as many records as
    /// slots of the first field.
    ///
    /// # Errors
    /// `OutOfSpec`: the data type is no struct with fields, the builders have not their types, one each, or are not equally long, or the mask has
    /// another length.
    /// `OutOfMemory`: the marks found no memory.
    pub fn try_new(
        alloc: Global,
        data_type: DataType,
        values: Vec<AnyMutableArray>,
        validity: Option<MutableBitmap>,
    ) -> Result<Self>
        ensures { IsBuilt data_type values.items validity result }
    {
        let marks = checked_marks(alloc, &data_type, values.as_slice(), &validity)?;
        Ok(MutableStructArray {
            data_type,
            marks,
            values: MutableFields::from_vec(values),
        })
    }

    /// The builder of a data type and builders that fit, as `try_new` tests, of which no record is null.
    ///
    /// # Errors
    /// `OutOfMemory`: the marks found no memory.
    pub fn new(alloc: Global, data_type: DataType, values: Vec<AnyMutableArray>) -> Result<Self>
        requires { is_sound (masked_column data_type values.items None) ≡ true }
        ensures { OrOutOfMemory result (λ builder. builder ≡ struct_parts data_type
            (marks (struct_len (map column_of values.items)) None) values.items) }
    {
        let marks = marks_of(alloc, &None, first_len(values.as_slice()))?;
        Ok(MutableStructArray {
            data_type,
            marks,
            values: MutableFields::from_vec(values),
        })
    }

    /// The data type, the builders of the fields, and the marks of the records.
    pub fn into_inner(self) -> (DataType, Vec<AnyMutableArray>, Marks)
        ensures { self ≡ struct_parts result.0 result.2 result.1.items }
    {
        let MutableStructArray {
            data_type,
            marks,
            values,
        } = self;
        (data_type, values.into_inner(), marks)
    }

    /// The builders of the fields.
    pub fn values(&self) -> &[AnyMutableArray]
        ensures { result.now ≡ self.now.fields }
    {
        self.values.as_slice()
    }

    /// The builder of the field at a place, to push to.
    pub fn value(&mut self, i: usize) -> &mut AnyMutableArray
        requires { i < length self.old.fields }
        ensures* lent { sem 𝓛 (LendsChild self.entry i result) }
        ensures shown { slice_get self.old.fields i ≡ Some result.now }
    {
        self.values.value(i)
    }

    /// Closes a record over the slots that stand in the fields behind those of the records before it: a null where it is not `valid`.
    ///
    /// # Errors
    /// `Overflow`: there are as many records as a column may have.
    /// `OutOfMemory`: the mark found no memory.
    pub fn push(&mut self, valid: bool) -> Result<()>
        ensures mark { AddsMark self.old valid self.new result }
        ensures column { ClosesRow self.old valid (structs_column self.new) result }
    {
        self.marks.push(valid)
    }

    /// Whether an array can be made of the records: each field has its type, and as many slots as there are records.
    pub fn is_whole(&self) -> bool
        ensures { result ≡ is_sound (structs_column self.now) }
    {
        let values = self.values.as_slice();
        are_whole(values);
        are_fields_of(&self.data_type, values) && have_len(values, self.marks.len())
    }

    /// The array of the records.
    ///
    /// # Errors
    /// `OutOfMemory`: the array found no memory.
    /// `OutOfSpec`: the records are not whole, as `is_whole` tests.
    pub fn freeze(self, alloc: Global) -> Result<StructArray>
        ensures { IsFrozen (λ array. array) (structs_column self) result }
    {
        let mut builder = self;
        builder.take(alloc)
    }
}

/// After the loan no array is made of the records until each field has its type, and as many slots as there are records.
impl MutValues for MutableStructArray {
    type Values = MutableFields;

    ghost values = { λ p. p.fields };

    ghost with_values = { with_fields };

    fn mut_values(&mut self) -> &mut MutableFields {
        &mut self.values
    }
}

impl MutableStructArray {
    /// How many records there are: as many as were closed.
    pub fn len(&self) -> usize
        ensures { result ≡ column_len (structs_column self.now) }
    {
        self.marks.len()
    }

    pub fn data_type(&self) -> &DataType
        ensures { result.now ≡ self.now.data_type }
    {
        &self.data_type
    }

    /// The mask, which is there exactly where a record is null.
    pub fn validity(&self) -> Option<&MutableBitmap>
        ensures { option_copied result ≡ mask_of_marks self.now.marks }
    {
        self.marks.validity()
    }

    /// Whether the slot at a place has a record.
    pub fn is_valid(&self, i: usize) -> bool
        requires { i < column_len (structs_column self.now) }
        ensures { result ≡ not (is_null_at (structs_column self.now) i) }
    {
        self.marks.is_valid(i)
    }

    /// Pushes a null, and a null to each field.
    ///
    /// # Errors
    /// `Overflow`: there are as many records as a column may have, or a field has no room for a null.
    /// `OutOfMemory`: the null found no memory.
    pub fn push_null(&mut self) -> Result<()>
        ensures record { AddsNullRecord self.old self.new result }
        ensures column { AddsNull (structs_column self.old) (structs_column self.new) result }
    {
        are_whole(self.values.as_slice());
        push_nulls(&mut self.marks, &mut self.values)
    }

    /// Makes room for some more records: for their marks, and for slots of each field.
    ///
    /// # Errors
    /// `OutOfMemory`: the room found no memory.
    pub fn reserve(&mut self, additional: usize) -> Result<()>
        ensures same { self.new ≡ self.old }
        ensures error { IfErr result IsOutOfMemory }
    {
        self.marks.reserve(additional)?;
        self.values.reserve(additional)
    }

    /// Gives back memory that no record needs, as far as the allocator takes it.
    pub fn shrink_to_fit(&mut self)
        ensures { self.new ≡ self.old }
    {
        self.marks.shrink_to_fit();
        self.values.shrink_to_fit();
    }

    /// Keeps the first `len` records alone, and as many slots of each field.
    pub fn truncate(&mut self, len: usize)
        requires { len ≤ column_len (structs_column self.old) }
        ensures records { self.new ≡ first_records self.old len }
        ensures column { KeepsFirst (structs_column self.old) len (structs_column self.new) }
    {
        are_whole(self.values.as_slice());
        self.marks.truncate(len);
        self.values.truncate(len);
    }

    /// The array of the records; this is left empty.
    fn take(&mut self, alloc: Global) -> Result<StructArray>
        ensures left { self.new ≡ no_records self.old }
        ensures column { TakesColumn (structs_column self.old) (structs_column self.new) (λ array. array) result }
    {
        if self.is_whole() {
            let marks = mem::replace(&mut self.marks, Marks::new(alloc));
            take_whole(alloc, &self.data_type, marks, &mut self.values)
        } else {
            self.marks.truncate(0);
            self.values.truncate(0);
            Err(Error::OutOfSpec("fields of other types or lengths than those of the records"))
        }
    }
}

impl MutableArray for MutableStructArray {
    ghost column = { structs_column };

    fn len(&self) -> usize {
        MutableStructArray::len(self)
    }

    fn data_type(&self) -> &DataType {
        MutableStructArray::data_type(self)
    }

    fn validity(&self) -> Option<&MutableBitmap> {
        MutableStructArray::validity(self)
    }

    fn is_valid(&self, i: usize) -> bool {
        MutableStructArray::is_valid(self, i)
    }

    fn as_box(&mut self, alloc: Global) -> Result<AnyArray>
        ensures left { self.new ≡ no_records self.old }
        ensures column { TakesColumn (structs_column self.old) (structs_column self.new) (λ array. array) result }
    {
        let array = self.take(alloc)?;
        Ok(AnyArray::from(array))
    }

    fn as_arc(&mut self, alloc: Global) -> Result<Rc<AnyArray>>
        ensures left { self.new ≡ no_records self.old }
        ensures column { TakesColumn (structs_column self.old) (structs_column self.new) (λ counted. counted.value) result }
    {
        let array = self.take(alloc)?;
        Ok(Rc::new(alloc, AnyArray::from(array))?)
    }

    fn push_null(&mut self) -> Result<()>
        ensures record { AddsNullRecord self.old self.new result }
        ensures column { AddsNull (structs_column self.old) (structs_column self.new) result }
    {
        MutableStructArray::push_null(self)
    }

    fn reserve(&mut self, additional: usize) -> Result<()> {
        MutableStructArray::reserve(self, additional)
    }

    fn shrink_to_fit(&mut self) {
        MutableStructArray::shrink_to_fit(self);
    }

    fn truncate(&mut self, len: usize) {
        MutableStructArray::truncate(self, len);
    }
}

/// How many records there are by the first of the builders of their fields, where these and a mask fit a data type.
fn checked_len(
    data_type: &DataType,
    values: &[AnyMutableArray],
    validity: &Option<MutableBitmap>,
) -> Result<usize>
    ensures { IsMeasured data_type.now values.now validity.now result }
{
    are_whole(values);
    let length = first_len(values);
    if !are_fields_of(data_type, values) {
        return Err(Error::OutOfSpec("builders that are not those of the fields of the data type"));
    }
    if !have_len(values, length) {
        return Err(Error::OutOfSpec("builders of different lengths"));
    }
    if !has_length(validity, length) {
        return Err(Error::OutOfSpec("a mask of another length than the builders"));
    }
    Ok(length)
}

/// The marks of the records, where the parts of their builder fit.
fn checked_marks(
    alloc: Global,
    data_type: &DataType,
    values: &[AnyMutableArray],
    validity: &Option<MutableBitmap>,
) -> Result<Marks>
    ensures { AreMarked data_type.now values.now validity.now result }
{
    let count = checked_len(data_type, values, validity)?;
    marks_of(alloc, validity, count)
}

/// Whether a mask has so many bits, or there is none.
fn has_length(validity: &Option<MutableBitmap>, length: usize) -> bool
    ensures { result ≡ mask_fits validity.now length }
{
    match validity {
        Some(bits) => bits.len() == length,
        None => true,
    }
}

/// Adds the mark of a null and a null to each field, or changes nothing.
fn push_nulls(marks: &mut Marks, values: &mut MutableFields) -> Result<()>
    ensures { AddsNulls marks.old values.old marks.new values.new result }
{
    let held = marks.len();
    marks.push_null()?;
    match values.push_nulls() {
        Ok(()) => Ok(()),
        Err(error) => {
            marks.truncate(held);
            Err(error)
        }
    }
}

/// The array of records with these marks over the slots of their fields, which are left empty.
fn take_whole(
    alloc: Global,
    data_type: &DataType,
    marks: Marks,
    values: &mut MutableFields,
) -> Result<StructArray>
    requires { is_sound (records data_type.now (mask_of_marks marks) (length marks) (field_columns values.old)) ≡ true }
    ensures left { values.new ≡ map emptied values.old }
    ensures array { OrOutOfMemory result (λ array. array
        ≡ records data_type.now (mask_of_marks marks) (length marks) (field_columns values.old)) }
{
    let arrays = values.take(alloc)?;
    freeze_structs(data_type, marks, arrays)
}

/// The array of records with these marks over the arrays of their fields.
fn freeze_structs(data_type: &DataType, marks: Marks, arrays: Vec<AnyArray>) -> Result<StructArray>
    requires { is_sound (records data_type.now (mask_of_marks marks) (struct_len arrays.items) (in_columns arrays.items)) ≡ true }
    ensures { OrOutOfMemory result (λ array. array
        ≡ records data_type.now (mask_of_marks marks) (struct_len arrays.items) (in_columns arrays.items)) }
{
    let validity = marks.freeze()?;
    let data_type = data_type.clone()?;
    Ok(StructArray::new(data_type, arrays, validity))
}
