//! Cells without what stands inside them.
ghost use Rattle.std.specs.Prelude.{◌≡◌};
ghost use Rattle.nested_arrays_core.specs.arrays.columns.Cells.{is_null};
ghost use Rattle.nested_arrays_builder_parts.specs.CellParts.{IsPart};
ghost use Rattle.nested_arrays_builder_parts.specs.Scalars.{scalar_slot};

use crate::numbers::AnyNumber;
use nested_arrays_scalars::AnyScalar;

/// A cell as a value without children is stored.
#[derive(Clone, Copy)]
pub enum CellPart<'a> {
    Null,
    Truth(bool),
    Number(AnyNumber),
    /// The bytes of a text.
    Text(&'a [u8]),
    Bytes(&'a [u8]),
    /// A list or a record.
    Nested,
}

/// A cell as a value without children is stored.
// match table: an arm for each cell.
#[inline(always)]
pub fn part_of(cell: &AnyScalar) -> CellPart<'_>
    ensures { IsPart (scalar_slot cell.now) result }
{
    match cell {
        AnyScalar::Null => CellPart::Null,
        AnyScalar::Boolean(truth) => CellPart::Truth(*truth),
        AnyScalar::Int8(value) => CellPart::Number(AnyNumber::Int8(*value)),
        AnyScalar::Int16(value) => CellPart::Number(AnyNumber::Int16(*value)),
        AnyScalar::Int32(value) => CellPart::Number(AnyNumber::Int32(*value)),
        AnyScalar::Int64(value) => CellPart::Number(AnyNumber::Int64(*value)),
        AnyScalar::Int128(value) => CellPart::Number(AnyNumber::Int128(*value)),
        AnyScalar::Int256(value) => CellPart::Number(AnyNumber::Int256(*value)),
        AnyScalar::UInt8(value) => CellPart::Number(AnyNumber::UInt8(*value)),
        AnyScalar::UInt16(value) => CellPart::Number(AnyNumber::UInt16(*value)),
        AnyScalar::UInt32(value) => CellPart::Number(AnyNumber::UInt32(*value)),
        AnyScalar::UInt64(value) => CellPart::Number(AnyNumber::UInt64(*value)),
        AnyScalar::DaysMs(value) => CellPart::Number(AnyNumber::DaysMs(*value)),
        AnyScalar::MonthsDaysNs(value) => CellPart::Number(AnyNumber::MonthsDaysNs(*value)),
        AnyScalar::Text(text) => {
            text.whole();
            CellPart::Text(text.as_str().as_bytes())
        }
        AnyScalar::Bytes(bytes) => CellPart::Bytes(bytes.as_slice()),
        AnyScalar::List(_) => CellPart::Nested,
        AnyScalar::Record(_) => CellPart::Nested,
    }
}
