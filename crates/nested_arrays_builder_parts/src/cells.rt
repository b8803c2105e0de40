//! What a cell stores among values of one kind: nothing where it is of another.
ghost use Rattle.std.specs.Prelude.{◌≡◌, true};
ghost use Rattle.std.specs.List.{list_all};
ghost use Rattle.nested_arrays_core.specs.arrays.columns.Cells.{is_bytes, is_null, is_text, is_truth};
ghost use Rattle.nested_arrays_core.specs.arrays.columns.FreshColumns.{content_of, is_true};
ghost use Rattle.nested_arrays_core.specs.columns.OpenParts.{is_of_kind};
ghost use Rattle.nested_arrays_builder_parts.specs.Growing.{IsStoredFor, numbers_for};
ghost use Rattle.nested_arrays_builder_parts.specs.Scalars.{scalar_slot};
ghost use Rattle.nested_arrays_builder_parts.specs.AnyNumbers.{slot_of_number};

use crate::numbers::{AnyNumber, NumberKind};
use crate::parts::{CellPart, part_of};
use nested_arrays_core::arrays::flat::read_bytes;
use nested_arrays_scalars::AnyScalar;

/// Whether a cell is no value.
#[tactic(auto, using(crate::proofs::CellSlots::nulls))]
#[inline(always)]
pub fn is_null(cell: &AnyScalar) -> bool
    ensures { result ≡ is_null (scalar_slot cell.now) }
{
    match part_of(cell) {
        CellPart::Null => true,
        CellPart::Truth(_) => false,
        CellPart::Number(_) => false,
        CellPart::Text(_) => false,
        CellPart::Bytes(_) => false,
        CellPart::Nested => false,
    }
}

/// The truth value of a cell, and false of a null.
#[tactic(auto, using(crate::proofs::CellSlots::truths))]
pub(crate) fn truth_in(cell: &AnyScalar) -> Option<bool>
    ensures { IsStoredFor is_truth (λ value. value) is_true (scalar_slot cell.now) result }
{
    match part_of(cell) {
        CellPart::Null => Some(false),
        CellPart::Truth(truth) => Some(truth),
        _ => None,
    }
}

/// The number of a cell, and zeros of a null.
#[tactic(auto, using(crate::proofs::CellSlots::numbers))]
pub(crate) fn number_in<T: NumberKind>(cell: &AnyScalar) -> Option<T>
    ensures { IsStoredFor (is_of_kind T.PRIMITIVE) T.numbers (numbers_for T.PRIMITIVE) (scalar_slot cell.now) result }
{
    match part_of(cell) {
        CellPart::Null => Some(T::default()),
        CellPart::Number(number) => number_of::<T>(number),
        _ => None,
    }
}

/// A number, where it is of a kind.
#[tactic(auto, using(crate::proofs::CellSlots::numbers))]
fn number_of<T: NumberKind>(number: AnyNumber) -> Option<T>
    ensures { IsStoredFor (is_of_kind T.PRIMITIVE) T.numbers (numbers_for T.PRIMITIVE) (slot_of_number number) result }
{
    match T::taken_out(number) {
        Some(value) => {
            let _bytes = value.to_le_bytes();
            Some(value)
        }
        None => None,
    }
}

/// The bytes of a cell that is a text, and none of a null.
#[tactic(auto, using(crate::proofs::CellSlots::texts))]
pub(crate) fn text_in(cell: &AnyScalar) -> Option<&[u8]>
    ensures { IsStoredFor is_text (λ value. value.now) content_of (scalar_slot cell.now) result }
{
    match part_of(cell) {
        CellPart::Null => Some(&[]),
        CellPart::Text(text) => Some(text),
        _ => None,
    }
}

/// The bytes of a cell that is bytes, and none of a null.
#[tactic(auto, using(crate::proofs::CellSlots::byte_strings))]
pub(crate) fn bytes_in(cell: &AnyScalar) -> Option<&[u8]>
    ensures { IsStoredFor is_bytes (λ value. value.now) content_of (scalar_slot cell.now) result }
{
    match part_of(cell) {
        CellPart::Null => Some(&[]),
        CellPart::Bytes(bytes) => {
            read_bytes(bytes);
            Some(bytes)
        }
        _ => None,
    }
}
