//! Builders of numbers and of booleans, as builders of their columns.
ghost use Rattle.std.specs.Prelude.{◌≡◌, ◌≤◌, [], length, None, option_copied, true, false};
ghost use Rattle.nested_arrays_builders.specs.arrays.flat.FlatColumns.{boolean_column, primitive_column};
ghost use Rattle.nested_arrays_builders.specs.flat_arrays.Flat.{cut, flat, tidied, IsFlat};
ghost use Rattle.nested_arrays_builders.specs.flat_arrays.Results.{ForZero};
ghost use Rattle.nested_arrays_builders.specs.columnar_memory.declared.PhysicalType.TheVariants as layouts;
ghost use Rattle.nested_arrays_builders.specs.columnar_memory.Results.{OrOutOfMemory};
ghost use Rattle.nested_arrays_builders.specs.columns.SoundColumns.{is_sound};
ghost use Rattle.nested_arrays_builders.specs.columns.StoredColumns.{column_len};
ghost use Rattle.nested_arrays_builder_arrays.specs.FlatBuilders.{AddsFlatNull};
ghost use Rattle.nested_arrays_builder_arrays.specs.OpenColumns.{AddsNull, KeepsFirst, TakesColumn};

use crate::mutable_array::MutableArray;
use nested_arrays_builders::arrays::AnyArray;
use nested_arrays_builders::arrays::flat::{AnyPrimitive, PrimitiveKind};
use nested_arrays_builders::arrays::parts::FlatArray;
use nested_arrays_builders::columnar_memory::{
    Buffer, DataType, Error, MutableBitmap, NativeType, Result,
};
use nested_arrays_builders::flat_arrays::{
    BooleanArray, MutableBooleanArray, MutablePrimitiveArray, PrimitiveArray,
};
use nested_arrays_builders::values::frozen_mask;
use std::alloc::Global;
use std::mem;
use std::rc::Rc;

/// As many slots as an array may have.
const MOST_SLOTS: usize = 9_223_372_036_854_775_807;

/// Cuts keep a mask exactly where a slot is null.
impl<T: PrimitiveKind> MutableArray for MutablePrimitiveArray<T> {
    ghost column = { primitive_column T.PRIMITIVE T.numbers };

    fn len(&self) -> usize {
        MutablePrimitiveArray::len(self)
    }

    fn data_type(&self) -> &DataType {
        MutablePrimitiveArray::data_type(self)
    }

    fn validity(&self) -> Option<&MutableBitmap> {
        MutablePrimitiveArray::validity(self)
    }

    fn is_valid(&self, i: usize) -> bool {
        MutablePrimitiveArray::is_valid(self, i)
    }

    fn as_box(&mut self, alloc: Global) -> Result<AnyArray>
        ensures left { self.new ≡ flat self.old.data_type [] None }
        ensures column { TakesColumn (primitive_column T.PRIMITIVE T.numbers self.old) (primitive_column T.PRIMITIVE T.numbers self.new)
            (λ array. array) result }
    {
        whole_numbers(self);
        box_numbers(alloc, self)
    }

    fn as_arc(&mut self, alloc: Global) -> Result<Rc<AnyArray>>
        ensures left { self.new ≡ flat self.old.data_type [] None }
        ensures column { TakesColumn (primitive_column T.PRIMITIVE T.numbers self.old) (primitive_column T.PRIMITIVE T.numbers self.new)
            (λ counted. counted.value) result }
    {
        whole_numbers(self);
        share_numbers(alloc, self)
    }

    fn push_null(&mut self) -> Result<()>
        ensures slot { ForZero T.numbers T.PRIMITIVE (λ zero. AddsFlatNull zero self.old self.new result) }
        ensures column { AddsNull (primitive_column T.PRIMITIVE T.numbers self.old) (primitive_column T.PRIMITIVE T.numbers self.new) result }
    {
        whole_numbers(self);
        push_null_number(self)
    }

    fn reserve(&mut self, additional: usize) -> Result<()> {
        MutablePrimitiveArray::reserve(self, additional)
    }

    fn shrink_to_fit(&mut self) {
        MutablePrimitiveArray::shrink_to_fit(self);
    }

    fn truncate(&mut self, len: usize)
        requires { len ≤ column_len (primitive_column T.PRIMITIVE T.numbers self.old) }
        ensures slots { self.new ≡ tidied (cut self.old 0 len) }
        ensures column { KeepsFirst (primitive_column T.PRIMITIVE T.numbers self.old) len (primitive_column T.PRIMITIVE T.numbers self.new) }
    {
        whole_numbers(self);
        MutablePrimitiveArray::truncate(self, len);
    }
}

/// Cuts keep a mask exactly where a slot is null.
impl MutableArray for MutableBooleanArray {
    ghost column = { boolean_column };

    fn len(&self) -> usize {
        MutableBooleanArray::len(self)
    }

    fn data_type(&self) -> &DataType {
        MutableBooleanArray::data_type(self)
    }

    fn validity(&self) -> Option<&MutableBitmap> {
        MutableBooleanArray::validity(self)
    }

    fn is_valid(&self, i: usize) -> bool {
        MutableBooleanArray::is_valid(self, i)
    }

    fn as_box(&mut self, alloc: Global) -> Result<AnyArray>
        ensures left { self.new ≡ flat self.old.data_type [] None }
        ensures column { TakesColumn (boolean_column self.old) (boolean_column self.new) (λ array. array) result }
    {
        whole_booleans(self);
        box_booleans(alloc, self)
    }

    fn as_arc(&mut self, alloc: Global) -> Result<Rc<AnyArray>>
        ensures left { self.new ≡ flat self.old.data_type [] None }
        ensures column { TakesColumn (boolean_column self.old) (boolean_column self.new) (λ counted. counted.value) result }
    {
        whole_booleans(self);
        share_booleans(alloc, self)
    }

    fn push_null(&mut self) -> Result<()>
        ensures slot { AddsFlatNull false self.old self.new result }
        ensures column { AddsNull (boolean_column self.old) (boolean_column self.new) result }
    {
        whole_booleans(self);
        push_null_boolean(self)
    }

    fn reserve(&mut self, additional: usize) -> Result<()> {
        MutableBooleanArray::reserve(self, additional)
    }

    fn shrink_to_fit(&mut self) {
        MutableBooleanArray::shrink_to_fit(self);
    }

    fn truncate(&mut self, len: usize)
        requires { len ≤ column_len (boolean_column self.old) }
        ensures slots { self.new ≡ tidied (cut self.old 0 len) }
        ensures column { KeepsFirst (boolean_column self.old) len (boolean_column self.new) }
    {
        whole_booleans(self);
        MutableBooleanArray::truncate(self, len);
    }
}

/// Hands to a proof what holds of every such builder.
fn whole_numbers<T: NativeType>(numbers: &MutablePrimitiveArray<T>)
    ensures { IsFlat (layouts.Primitive T.PRIMITIVE) numbers.now }
{
    let _len = numbers.len();
}

/// Hands to a proof what holds of every such builder.
fn whole_booleans(booleans: &MutableBooleanArray)
    ensures { IsFlat layouts.Boolean booleans.now }
{
    let _len = booleans.len();
}

/// Pushes a null, under which zeros are stored.
fn push_null_number<T: NativeType>(numbers: &mut MutablePrimitiveArray<T>) -> Result<()>
    ensures { ForZero T.numbers T.PRIMITIVE (λ zero. AddsFlatNull zero numbers.old numbers.new result) }
{
    let _zero = T::default();
    if numbers.len() >= MOST_SLOTS {
        return Err(Error::Overflow);
    }
    numbers.push_null()
}

/// Pushes a null, under which false is stored.
fn push_null_boolean(booleans: &mut MutableBooleanArray) -> Result<()>
    ensures { AddsFlatNull false booleans.old booleans.new result }
{
    if booleans.len() >= MOST_SLOTS {
        return Err(Error::Overflow);
    }
    booleans.push_null()
}

/// A builder without slots, of the data type of another.
fn no_numbers<T: NativeType>(
    alloc: Global,
    numbers: &MutablePrimitiveArray<T>,
) -> Result<MutablePrimitiveArray<T>>
    ensures { OrOutOfMemory result (λ fresh. fresh ≡ flat numbers.now.data_type [] None) }
{
    let data_type = numbers.data_type().clone()?;
    MutablePrimitiveArray::with_capacity_from(alloc, 0, data_type)
}

/// The slots of a builder, which is left empty.
fn take_numbers<T: NativeType>(
    alloc: Global,
    numbers: &mut MutablePrimitiveArray<T>,
) -> Result<MutablePrimitiveArray<T>>
    ensures left { numbers.new ≡ flat numbers.old.data_type [] None }
    ensures taken { OrOutOfMemory result (λ taken. taken ≡ numbers.old) }
{
    match no_numbers(alloc, numbers) {
        Ok(fresh) => Ok(mem::replace(numbers, fresh)),
        Err(error) => {
            numbers.truncate(0);
            numbers.set_validity(None);
            Err(error)
        }
    }
}

/// The array of the slots of a builder, which is left empty.
fn box_numbers<T: PrimitiveKind>(
    alloc: Global,
    numbers: &mut MutablePrimitiveArray<T>,
) -> Result<AnyArray>
    ensures left { numbers.new ≡ flat numbers.old.data_type [] None }
    ensures taken { OrOutOfMemory result (λ array. (array ≡ primitive_column T.PRIMITIVE T.numbers numbers.old) × (is_sound array ≡ true)) }
{
    let taken = take_numbers(alloc, numbers)?;
    freeze_numbers(taken)
}

/// The array of the slots of a builder behind a count of owners; the builder is left empty.
fn share_numbers<T: PrimitiveKind>(
    alloc: Global,
    numbers: &mut MutablePrimitiveArray<T>,
) -> Result<Rc<AnyArray>>
    ensures left { numbers.new ≡ flat numbers.old.data_type [] None }
    ensures taken { OrOutOfMemory result (λ counted. (counted.value ≡ primitive_column T.PRIMITIVE T.numbers numbers.old)
        × (is_sound counted.value ≡ true)) }
{
    let array = box_numbers(alloc, numbers)?;
    Ok(Rc::new(alloc, array)?)
}

/// The array of the slots of a builder.
fn freeze_numbers<T: PrimitiveKind>(numbers: MutablePrimitiveArray<T>) -> Result<AnyArray>
    ensures { OrOutOfMemory result (λ array. (array ≡ primitive_column T.PRIMITIVE T.numbers numbers) × (is_sound array ≡ true)) }
{
    let (data_type, values, validity) = numbers.into_inner();
    let validity = frozen_mask(validity)?;
    Ok(any_numbers(PrimitiveArray::new(data_type, Buffer::from_vec(values)?, validity)))
}

/// An array of numbers as one of any type.
fn any_numbers<T: PrimitiveKind>(numbers: PrimitiveArray<T>) -> AnyArray
    ensures value { result ≡ primitive_column T.PRIMITIVE T.numbers numbers }
    ensures sound { is_sound result ≡ true }
{
    let array = AnyArray::from(FlatArray::from(AnyPrimitive::from_array(numbers)));
    array.whole();
    array
}

/// A builder without slots, of the data type of another.
fn no_booleans(alloc: Global, booleans: &MutableBooleanArray) -> Result<MutableBooleanArray>
    ensures { OrOutOfMemory result (λ fresh. fresh ≡ flat booleans.now.data_type [] None) }
{
    let data_type = booleans.data_type().clone()?;
    MutableBooleanArray::try_new(data_type, MutableBitmap::new(alloc), None)
}

/// The slots of a builder, which is left empty.
fn take_booleans(alloc: Global, booleans: &mut MutableBooleanArray) -> Result<MutableBooleanArray>
    ensures left { booleans.new ≡ flat booleans.old.data_type [] None }
    ensures taken { OrOutOfMemory result (λ taken. taken ≡ booleans.old) }
{
    match no_booleans(alloc, booleans) {
        Ok(fresh) => Ok(mem::replace(booleans, fresh)),
        Err(error) => {
            booleans.truncate(0);
            booleans.set_validity(None);
            Err(error)
        }
    }
}

/// The array of the slots of a builder, which is left empty.
fn box_booleans(alloc: Global, booleans: &mut MutableBooleanArray) -> Result<AnyArray>
    ensures left { booleans.new ≡ flat booleans.old.data_type [] None }
    ensures taken { OrOutOfMemory result (λ array. (array ≡ boolean_column booleans.old) × (is_sound array ≡ true)) }
{
    let taken = take_booleans(alloc, booleans)?;
    freeze_booleans(taken)
}

/// The array of the slots of a builder behind a count of owners; the builder is left empty.
fn share_booleans(alloc: Global, booleans: &mut MutableBooleanArray) -> Result<Rc<AnyArray>>
    ensures left { booleans.new ≡ flat booleans.old.data_type [] None }
    ensures taken { OrOutOfMemory result (λ counted. (counted.value ≡ boolean_column booleans.old) × (is_sound counted.value ≡ true)) }
{
    let array = box_booleans(alloc, booleans)?;
    Ok(Rc::new(alloc, array)?)
}

/// The array of the slots of a builder.
fn freeze_booleans(booleans: MutableBooleanArray) -> Result<AnyArray>
    ensures { OrOutOfMemory result (λ array. (array ≡ boolean_column booleans) × (is_sound array ≡ true)) }
{
    let (data_type, values, validity) = booleans.into_data();
    let validity = frozen_mask(validity)?;
    Ok(any_booleans(BooleanArray::new(data_type, values.freeze()?, validity)))
}

/// An array of booleans as one of any type.
fn any_booleans(booleans: BooleanArray) -> AnyArray
    ensures value { result ≡ boolean_column booleans }
    ensures sound { is_sound result ≡ true }
{
    let array = AnyArray::from(FlatArray::from(booleans));
    array.whole();
    array
}
