//! Masks of arrays without children, read and replaced.
ghost use Rattle.std.specs.Prelude.{◌≡◌, option_copied};
ghost use Rattle.nested_arrays_flat.specs.ColumnMasks.{column_mask, ReplacesMask};
ghost use Rattle.nested_arrays_flat.specs.FlatColumns.{binary_column, boolean_column, text_column};

use crate::flats::{FlatArray, FlatNode};
use crate::masks::fits;
use crate::sound::{binary_is_sound, boolean_is_sound, text_is_sound};
use nested_arrays_flat::columnar_memory::{Bitmap, Error, Offset, Result};
use nested_arrays_flat::flat_arrays::{BinaryArray, BooleanArray, Utf8Array};

impl FlatArray {
    /// The mask, where there is one: a bit is set where its slot is not null.
    pub fn validity(&self) -> Option<&Bitmap>
        ensures { option_copied result ≡ column_mask self.now }
    {
        match &self.node {
            FlatNode::Null(array) => array.validity(),
            FlatNode::Boolean(array) => array.validity(),
            FlatNode::Primitive(array) => array.validity(),
            FlatNode::Binary(array) => array.validity(),
            FlatNode::LargeBinary(array) => array.validity(),
            FlatNode::FixedSizeBinary(array) => array.validity(),
            FlatNode::Utf8(array) => array.validity(),
            FlatNode::LargeUtf8(array) => array.validity(),
        }
    }

    /// Replaces the mask.
    ///
    /// # Errors
    /// `InvalidArgumentError`: the mask has another length than the array, or the array is one of nulls alone, which has none. The array is as
    /// it was.
    pub fn set_validity(&mut self, validity: Option<Bitmap>) -> Result<()>
        ensures { ReplacesMask self.old validity self.new result }
    {
        match &mut self.node {
            FlatNode::Null(array) => array.set_validity(validity),
            FlatNode::Boolean(array) => mask_booleans(array, validity),
            FlatNode::Primitive(array) => array.set_validity(validity),
            FlatNode::Binary(array) => mask_strings(array, validity),
            FlatNode::LargeBinary(array) => mask_strings(array, validity),
            FlatNode::FixedSizeBinary(array) => array.set_validity(validity),
            FlatNode::Utf8(array) => mask_texts(array, validity),
            FlatNode::LargeUtf8(array) => mask_texts(array, validity),
        }
    }
}

/// Replaces the mask of an array of booleans.
///
/// # Errors
/// `InvalidArgumentError`: the mask has another length than the array, which is as it was.
#[tactic(auto, using(crate::proofs::FlatMasks::masked_from, crate::proofs::FlatMasks::flat_takes))]
pub fn mask_booleans(array: &mut BooleanArray, validity: Option<Bitmap>) -> Result<()>
    ensures { ReplacesMask (boolean_column array.old) validity (boolean_column array.new) result }
{
    boolean_is_sound(array);
    if !fits(&validity, array.len()) {
        return Err(Error::InvalidArgumentError("a mask of another length than the booleans"));
    }
    array.set_validity(validity);
    Ok(())
}

/// Replaces the mask of an array of byte strings.
///
/// # Errors
/// `InvalidArgumentError`: the mask has another length than the array, which is as it was.
#[tactic(auto, using(crate::proofs::FlatCuts::strings_len, crate::proofs::FlatMasks::masked_from, crate::proofs::FlatMasks::flat_takes))]
pub fn mask_strings<O: Offset>(array: &mut BinaryArray<O>, validity: Option<Bitmap>) -> Result<()>
    ensures { ReplacesMask (binary_column array.old) validity (binary_column array.new) result }
{
    binary_is_sound(array);
    if !fits(&validity, array.len()) {
        return Err(Error::InvalidArgumentError("a mask of another length than the byte strings"));
    }
    array.set_validity(validity);
    Ok(())
}

/// Replaces the mask of an array of texts.
///
/// # Errors
/// `InvalidArgumentError`: the mask has another length than the array, which is as it was.
#[tactic(auto, using(crate::proofs::FlatCuts::texts_len, crate::proofs::FlatMasks::masked_from, crate::proofs::FlatMasks::flat_takes))]
pub fn mask_texts<O: Offset>(array: &mut Utf8Array<O>, validity: Option<Bitmap>) -> Result<()>
    ensures { ReplacesMask (text_column array.old) validity (text_column array.new) result }
{
    text_is_sound(array);
    if !fits(&validity, array.len()) {
        return Err(Error::InvalidArgumentError("a mask of another length than the texts"));
    }
    array.set_validity(validity);
    Ok(())
}
