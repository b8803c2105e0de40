//! Arrays without children as arrays.
ghost use Rattle.std.specs.Prelude.{◌≡◌};
ghost use Rattle.nested_arrays_arrays.specs.flat.ColumnMasks.{ReplacesMask};
ghost use Rattle.nested_arrays_arrays.specs.flat.FlatColumns.{binary_column, boolean_column, primitive_column, text_column};

use crate::array::Array;
use nested_arrays_arrays::columnar_memory::{Bitmap, DataType, Error, NativeType, Offset, Result};
use nested_arrays_arrays::flat::{
    AnyPrimitive, FixedSizeBinaryArray, NullArray, primitive_is_sound,
};
use nested_arrays_arrays::flat_arrays::{BinaryArray, BooleanArray, PrimitiveArray, Utf8Array};
use nested_arrays_arrays::parts::{
    binary_is_sound, boolean_is_sound, fits, mask_booleans, mask_strings, mask_texts, text_is_sound,
};

impl Array for NullArray {
    ghost column = { λ array. array };

    fn len(&self) -> usize {
        NullArray::len(self)
    }

    fn data_type(&self) -> &DataType {
        NullArray::data_type(self)
    }

    fn validity(&self) -> Option<&Bitmap> {
        NullArray::validity(self)
    }

    fn whole(&self) {
        NullArray::whole(self);
    }

    fn slice(&mut self, offset: usize, count: usize) {
        NullArray::slice(self, offset, count);
    }

    fn set_validity(&mut self, validity: Option<Bitmap>) -> Result<()> {
        NullArray::set_validity(self, validity)
    }
}

impl Array for AnyPrimitive {
    ghost column = { λ array. array };

    fn len(&self) -> usize {
        AnyPrimitive::len(self)
    }

    fn data_type(&self) -> &DataType {
        AnyPrimitive::data_type(self)
    }

    fn validity(&self) -> Option<&Bitmap> {
        AnyPrimitive::validity(self)
    }

    fn whole(&self) {
        AnyPrimitive::whole(self);
    }

    fn slice(&mut self, offset: usize, count: usize) {
        AnyPrimitive::slice(self, offset, count);
    }

    fn set_validity(&mut self, validity: Option<Bitmap>) -> Result<()> {
        AnyPrimitive::set_validity(self, validity)
    }
}

impl Array for FixedSizeBinaryArray {
    ghost column = { λ array. array };

    fn len(&self) -> usize {
        FixedSizeBinaryArray::len(self)
    }

    fn data_type(&self) -> &DataType {
        FixedSizeBinaryArray::data_type(self)
    }

    fn validity(&self) -> Option<&Bitmap> {
        FixedSizeBinaryArray::validity(self)
    }

    fn whole(&self) {
        FixedSizeBinaryArray::whole(self);
    }

    fn slice(&mut self, offset: usize, count: usize) {
        FixedSizeBinaryArray::slice(self, offset, count);
    }

    fn set_validity(&mut self, validity: Option<Bitmap>) -> Result<()> {
        FixedSizeBinaryArray::set_validity(self, validity)
    }
}

impl<T: NativeType> Array for PrimitiveArray<T> {
    ghost column = { primitive_column T.PRIMITIVE T.numbers };

    #[tactic(auto, using(crate::proofs::Passed::primitive_len))]
    fn len(&self) -> usize {
        PrimitiveArray::len(self)
    }

    fn data_type(&self) -> &DataType {
        PrimitiveArray::data_type(self)
    }

    fn validity(&self) -> Option<&Bitmap> {
        PrimitiveArray::validity(self)
    }

    fn whole(&self) {
        primitive_is_sound(self);
    }

    #[tactic(auto, using(crate::proofs::Passed::primitive_len, crate::proofs::Passed::primitive_cut))]
    fn slice(&mut self, offset: usize, count: usize) {
        PrimitiveArray::slice(self, offset, count);
    }

    fn set_validity(&mut self, validity: Option<Bitmap>) -> Result<()> {
        mask_numbers(self, validity)
    }
}

impl Array for BooleanArray {
    ghost column = { boolean_column };

    fn len(&self) -> usize {
        BooleanArray::len(self)
    }

    fn data_type(&self) -> &DataType {
        BooleanArray::data_type(self)
    }

    fn validity(&self) -> Option<&Bitmap> {
        BooleanArray::validity(self)
    }

    fn whole(&self) {
        boolean_is_sound(self);
    }

    #[tactic(auto, using(crate::proofs::Passed::boolean_cut))]
    fn slice(&mut self, offset: usize, count: usize) {
        BooleanArray::slice(self, offset, count);
    }

    fn set_validity(&mut self, validity: Option<Bitmap>) -> Result<()> {
        mask_booleans(self, validity)
    }
}

impl<O: Offset> Array for BinaryArray<O> {
    ghost column = { binary_column };

    #[tactic(auto, using(crate::proofs::Passed::strings_len))]
    fn len(&self) -> usize {
        BinaryArray::len(self)
    }

    fn data_type(&self) -> &DataType {
        BinaryArray::data_type(self)
    }

    fn validity(&self) -> Option<&Bitmap> {
        BinaryArray::validity(self)
    }

    fn whole(&self) {
        binary_is_sound(self);
    }

    #[tactic(auto, using(crate::proofs::Passed::strings_len, crate::proofs::Passed::binary_cut))]
    fn slice(&mut self, offset: usize, count: usize) {
        BinaryArray::slice(self, offset, count);
    }

    fn set_validity(&mut self, validity: Option<Bitmap>) -> Result<()> {
        mask_strings(self, validity)
    }
}

impl<O: Offset> Array for Utf8Array<O> {
    ghost column = { text_column };

    #[tactic(auto, using(crate::proofs::Passed::texts_len))]
    fn len(&self) -> usize {
        Utf8Array::len(self)
    }

    fn data_type(&self) -> &DataType {
        Utf8Array::data_type(self)
    }

    fn validity(&self) -> Option<&Bitmap> {
        Utf8Array::validity(self)
    }

    fn whole(&self) {
        text_is_sound(self);
    }

    #[tactic(auto, using(crate::proofs::Passed::texts_len, crate::proofs::Passed::text_cut))]
    fn slice(&mut self, offset: usize, count: usize) {
        Utf8Array::slice(self, offset, count);
    }

    fn set_validity(&mut self, validity: Option<Bitmap>) -> Result<()> {
        mask_texts(self, validity)
    }
}

/// Replaces the mask of an array of numbers.
///
/// # Errors
/// `InvalidArgumentError`: the mask has another length than the array, which is as it was.
#[tactic(auto, using(crate::proofs::NumberMasks::masking))]
fn mask_numbers<T: NativeType>(
    array: &mut PrimitiveArray<T>,
    validity: Option<Bitmap>,
) -> Result<()>
    ensures { let column = primitive_column T.PRIMITIVE T.numbers in ReplacesMask (column array.old) validity (column array.new) result }
{
    primitive_is_sound(array);
    if !fits(&validity, array.len()) {
        return Err(Error::InvalidArgumentError("a mask of another length than the numbers"));
    }
    array.set_validity(validity);
    Ok(())
}
