//! Copies of cells, and whether two are the same.
ghost use Rattle.std.specs.Prelude.{◌≡◌, ◌↔◌, IsTrue, IfOk};

use columnar_memory_types::Items;
use nested_arrays_scalars::AnyScalar;
use std::alloc::AllocError;

/// A copy of a cell. An error is for want of memory.
// match table: an arm for each cell.
#[cycle(copies)]
pub fn copy_of_cell(cell: &AnyScalar) -> Result<AnyScalar, AllocError>
    ensures { IfOk result (λ copied. copied ≡ cell.now) }
{
    match cell {
        AnyScalar::Null => Ok(AnyScalar::Null),
        AnyScalar::Boolean(value) => Ok(AnyScalar::Boolean(*value)),
        AnyScalar::Int8(value) => Ok(AnyScalar::Int8(*value)),
        AnyScalar::Int16(value) => Ok(AnyScalar::Int16(*value)),
        AnyScalar::Int32(value) => Ok(AnyScalar::Int32(*value)),
        AnyScalar::Int64(value) => Ok(AnyScalar::Int64(*value)),
        AnyScalar::Int128(value) => Ok(AnyScalar::Int128(*value)),
        AnyScalar::Int256(value) => Ok(AnyScalar::Int256(*value)),
        AnyScalar::UInt8(value) => Ok(AnyScalar::UInt8(*value)),
        AnyScalar::UInt16(value) => Ok(AnyScalar::UInt16(*value)),
        AnyScalar::UInt32(value) => Ok(AnyScalar::UInt32(*value)),
        AnyScalar::UInt64(value) => Ok(AnyScalar::UInt64(*value)),
        AnyScalar::DaysMs(value) => Ok(AnyScalar::DaysMs(*value)),
        AnyScalar::MonthsDaysNs(value) => Ok(AnyScalar::MonthsDaysNs(*value)),
        AnyScalar::Text(text) => Ok(AnyScalar::Text(text.clone()?)),
        AnyScalar::Bytes(bytes) => Ok(AnyScalar::Bytes(bytes.clone()?)),
        AnyScalar::List(cells) => Ok(AnyScalar::List(copies_of_cells(cells)?)),
        AnyScalar::Record(cells) => Ok(AnyScalar::Record(copies_of_cells(cells)?)),
    }
}

#[cycle(copies)]
fn copies_of_cells(cells: &Items<AnyScalar>) -> Result<Items<AnyScalar>, AllocError>
    ensures { IfOk result (λ copied. copied ≡ cells.now) }
{
    let mut copied = Items::new(cells.allocator());
    for cell in cells.as_slice() {
        copied.push(copy_of_cell(cell)?)?;
    }
    Ok(copied)
}

/// Whether two cells are the same.
// match table: a pair of arms for each cell.
#[cycle(sameness)]
pub fn same_cell(a: &AnyScalar, b: &AnyScalar) -> bool
    ensures { IsTrue result ↔ (a.now ≡ b.now) }
{
    match a {
        AnyScalar::Null => matches!(b, AnyScalar::Null),
        AnyScalar::Boolean(value) => match b {
            AnyScalar::Boolean(other) => value == other,
            _ => false,
        },
        AnyScalar::Int8(value) => match b {
            AnyScalar::Int8(other) => value == other,
            _ => false,
        },
        AnyScalar::Int16(value) => match b {
            AnyScalar::Int16(other) => value == other,
            _ => false,
        },
        AnyScalar::Int32(value) => match b {
            AnyScalar::Int32(other) => value == other,
            _ => false,
        },
        AnyScalar::Int64(value) => match b {
            AnyScalar::Int64(other) => value == other,
            _ => false,
        },
        AnyScalar::Int128(value) => match b {
            AnyScalar::Int128(other) => value == other,
            _ => false,
        },
        AnyScalar::Int256(value) => match b {
            AnyScalar::Int256(other) => value == other,
            _ => false,
        },
        AnyScalar::UInt8(value) => match b {
            AnyScalar::UInt8(other) => value == other,
            _ => false,
        },
        AnyScalar::UInt16(value) => match b {
            AnyScalar::UInt16(other) => value == other,
            _ => false,
        },
        AnyScalar::UInt32(value) => match b {
            AnyScalar::UInt32(other) => value == other,
            _ => false,
        },
        AnyScalar::UInt64(value) => match b {
            AnyScalar::UInt64(other) => value == other,
            _ => false,
        },
        AnyScalar::DaysMs(value) => match b {
            AnyScalar::DaysMs(other) => value == other,
            _ => false,
        },
        AnyScalar::MonthsDaysNs(value) => match b {
            AnyScalar::MonthsDaysNs(other) => value == other,
            _ => false,
        },
        AnyScalar::Text(text) => match b {
            AnyScalar::Text(other) => text == other,
            _ => false,
        },
        AnyScalar::Bytes(bytes) => match b {
            AnyScalar::Bytes(other) => bytes == other,
            _ => false,
        },
        AnyScalar::List(cells) => match b {
            AnyScalar::List(others) => same_cells(cells.as_slice(), others.as_slice()),
            _ => false,
        },
        AnyScalar::Record(cells) => match b {
            AnyScalar::Record(others) => same_cells(cells.as_slice(), others.as_slice()),
            _ => false,
        },
    }
}

#[cycle(sameness)]
fn same_cells(a: &[AnyScalar], b: &[AnyScalar]) -> bool
    ensures { IsTrue result ↔ (a.now ≡ b.now) }
{
    if a.len() != b.len() {
        return false;
    }
    for i in 0..a.len() {
        if !same_cell(&a[i], &b[i]) {
            return false;
        }
    }
    true
}
