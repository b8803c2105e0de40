//! Cells of the slots of arrays without children.
ghost use Rattle.std.specs.Prelude.{◌≡◌, ◌<◌};
ghost use Rattle.nested_arrays_builder_arrays.specs.arrays.columnar_memory.Results.{OrOutOfMemory};
ghost use Rattle.nested_arrays_builder_arrays.specs.arrays.columns.Slots.{bytes, text};
ghost use Rattle.nested_arrays_builder_arrays.specs.arrays.columns.StoredColumns.{column_len, slot_at};
ghost use Rattle.nested_arrays_builder_arrays.specs.arrays.flat.FlatColumns.{boolean_column};
ghost use Rattle.nested_arrays_builder_arrays.specs.arrays.parts.Forms.{bare};
ghost use Rattle.nested_arrays_builder_arrays.specs.parts.Scalars.{scalar_slot};

use crate::numbers::{number_at, number_cell};
use columnar_memory_types::{Items, Text};
use nested_arrays_builder_arrays::arrays::columnar_memory::Result;
use nested_arrays_builder_arrays::arrays::flat_arrays::BooleanArray;
use nested_arrays_builder_arrays::arrays::parts::{FlatArray, FlatNode, is_valid};
use nested_arrays_scalars::AnyScalar;
use std::alloc::Global;

/// The cell of a text.
fn text_cell(alloc: Global, value: &str) -> Result<AnyScalar>
    ensures { OrOutOfMemory result (λ cell. scalar_slot cell ≡ text value.now) }
{
    Ok(AnyScalar::Text(Text::from_str(alloc, value)?))
}

/// The cell of bytes.
fn bytes_cell(alloc: Global, value: &[u8]) -> Result<AnyScalar>
    ensures { OrOutOfMemory result (λ cell. scalar_slot cell ≡ bytes value.now) }
{
    Ok(AnyScalar::Bytes(Items::from_vec(Vec::from_slice(alloc, value)?)))
}

/// The cell of a truth value.
fn truth_cell(array: &BooleanArray, i: usize) -> AnyScalar
    requires { i < column_len (boolean_column array.now) }
    ensures { scalar_slot result ≡ slot_at (bare (boolean_column array.now)) i }
{
    AnyScalar::Boolean(array.value(i))
}

/// The cell of the value that is stored at a place, also where the slot is null.
#[tactic(auto, using(crate::proofs::StoredValues::stored))]
fn stored_cell(alloc: Global, array: &FlatArray, i: usize) -> Result<AnyScalar>
    requires { i < column_len array.now }
    ensures { OrOutOfMemory result (λ cell. scalar_slot cell ≡ slot_at (bare array.now) i) }
{
    match &array.node {
        FlatNode::Null(array) => {
            array.holds_nulls();
            Ok(AnyScalar::Null)
        }
        FlatNode::Boolean(array) => Ok(truth_cell(array, i)),
        FlatNode::Primitive(array) => Ok(number_cell(number_at(array, i))),
        FlatNode::Binary(array) => bytes_cell(alloc, array.value(i)),
        FlatNode::LargeBinary(array) => bytes_cell(alloc, array.value(i)),
        FlatNode::FixedSizeBinary(array) => bytes_cell(alloc, array.value(i)),
        FlatNode::Utf8(array) => text_cell(alloc, array.value(i)),
        FlatNode::LargeUtf8(array) => text_cell(alloc, array.value(i)),
    }
}

/// The cell of the slot at a place of an array without children.
///
/// # Errors
/// `OutOfMemory`: a text or bytes found no memory.
#[tactic(auto, using(crate::proofs::StoredValues::marked))]
pub(crate) fn flat_cell(alloc: Global, array: &FlatArray, i: usize) -> Result<AnyScalar>
    requires { i < column_len array.now }
    ensures { OrOutOfMemory result (λ cell. scalar_slot cell ≡ slot_at array.now i) }
{
    if !is_valid(array, i) {
        return Ok(AnyScalar::Null);
    }
    stored_cell(alloc, array, i)
}
