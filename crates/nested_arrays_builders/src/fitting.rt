//! Which cells fit a data type.
ghost use Rattle.std.specs.Prelude.{◌≡◌, map};
ghost use Rattle.std.specs.List.{list_all};
ghost use Rattle.nested_arrays_builder_values.specs.parts.arrays.columns.Cells.{fit_each, fits_cell, is_bytes, is_bytes_of, is_interval, is_list_of, is_list_of_size};
ghost use Rattle.nested_arrays_builder_values.specs.parts.arrays.columns.Cells.{is_number_of, is_record_of, is_text, is_truth, is_days_and_ms, is_months_days_and_ns};
ghost use Rattle.nested_arrays_builder_values.specs.parts.arrays.columns.Slots.{in_slots};
ghost use Rattle.nested_arrays_builder_values.specs.parts.columns.OpenParts.{is_of_kind};
ghost use Rattle.nested_arrays_builder_values.specs.parts.AnyNumbers.{slot_of_number};
ghost use Rattle.nested_arrays_builder_values.specs.parts.Scalars.{scalar_slot};

use nested_arrays_builder_values::parts::arrays::flat::read_bytes;
use nested_arrays_builder_values::parts::columnar_memory::{
    DataType, Field, IntervalUnit, PrimitiveType,
};
use nested_arrays_builder_values::parts::{AnyNumber, CellPart, is_null, part_of};
use nested_arrays_scalars::AnyScalar;

/// Whether a cell fits a data type: the kind is the type's, a size is met exactly, items and fields fit the types of the children, and a
/// dictionary or an extension takes what its inner type takes. A null fits every type, and nothing else a map, a union or floats.
// match table: an arm for each type.
#[cycle(fitting)]
pub fn is_cell_of(data_type: &DataType, cell: &AnyScalar) -> bool
    ensures { result ≡ fits_cell data_type.now (scalar_slot cell.now) }
{
    match data_type {
        DataType::Null => is_null(cell),
        DataType::Boolean => is_truth(cell),
        DataType::Int8 => is_number(PrimitiveType::Int8, cell),
        DataType::Int16 => is_number(PrimitiveType::Int16, cell),
        DataType::Int32 => is_number(PrimitiveType::Int32, cell),
        DataType::Int64 => is_number(PrimitiveType::Int64, cell),
        DataType::UInt8 => is_number(PrimitiveType::UInt8, cell),
        DataType::UInt16 => is_number(PrimitiveType::UInt16, cell),
        DataType::UInt32 => is_number(PrimitiveType::UInt32, cell),
        DataType::UInt64 => is_number(PrimitiveType::UInt64, cell),
        DataType::Float16 => is_null(cell),
        DataType::Float32 => is_null(cell),
        DataType::Float64 => is_null(cell),
        DataType::Timestamp(_, _) => is_number(PrimitiveType::Int64, cell),
        DataType::Date32 => is_number(PrimitiveType::Int32, cell),
        DataType::Date64 => is_number(PrimitiveType::Int64, cell),
        DataType::Time32(_) => is_number(PrimitiveType::Int32, cell),
        DataType::Time64(_) => is_number(PrimitiveType::Int64, cell),
        DataType::Duration(_) => is_number(PrimitiveType::Int64, cell),
        DataType::Interval(unit) => is_interval(*unit, cell),
        DataType::Binary => is_byte_string(cell),
        DataType::FixedSizeBinary(size) => is_sized_string(*size, cell),
        DataType::LargeBinary => is_byte_string(cell),
        DataType::Utf8 => is_text(cell),
        DataType::LargeUtf8 => is_text(cell),
        DataType::List(item) => is_list(item.get(), cell),
        DataType::FixedSizeList(item, size) => is_sized_list(item.get(), *size, cell),
        DataType::LargeList(item) => is_list(item.get(), cell),
        DataType::Struct(fields) => is_record(fields.as_slice(), cell),
        DataType::Union(_, _, _) => is_null(cell),
        DataType::Map(_, _) => is_null(cell),
        DataType::Dictionary(_, value, _) => is_cell_of(value.get(), cell),
        DataType::Decimal(_, _) => is_number(PrimitiveType::Int128, cell),
        DataType::Decimal256(_, _) => is_number(PrimitiveType::Int256, cell),
        DataType::Extension(_, inner, _) => is_cell_of(inner.get(), cell),
    }
}

/// Whether a cell is a list of items of a field's type, or null.
#[cycle(fitting)]
fn is_list(item: &Field, cell: &AnyScalar) -> bool
    ensures { result ≡ is_list_of (fits_cell item.now.data_type) (scalar_slot cell.now) }
{
    match cell {
        AnyScalar::List(cells) => are_cells_of(&item.data_type, cells.as_slice()),
        _ => is_null(cell),
    }
}

/// Whether a cell is a list of so many items of a field's type, or null.
#[cycle(fitting)]
fn is_sized_list(item: &Field, size: usize, cell: &AnyScalar) -> bool
    ensures { result ≡ is_list_of_size size (fits_cell item.now.data_type) (scalar_slot cell.now) }
{
    match cell {
        AnyScalar::List(cells) => {
            cells.len() == size && are_cells_of(&item.data_type, cells.as_slice())
        }
        _ => is_null(cell),
    }
}

/// Whether each of some cells fits a data type.
#[cycle(fitting)]
fn are_cells_of(data_type: &DataType, cells: &[AnyScalar]) -> bool
    ensures { result ≡ list_all (fits_cell data_type.now) (map scalar_slot cells.now) }
{
    for cell in cells {
        if !is_cell_of(data_type, cell) {
            return false;
        }
    }
    true
}

/// Whether a cell is a record with a cell for each field, or null.
#[cycle(fitting)]
fn is_record(fields: &[Field], cell: &AnyScalar) -> bool
    ensures { result ≡ is_record_of (map (λ field. fits_cell field.data_type) fields.now) (scalar_slot cell.now) }
{
    match cell {
        AnyScalar::Record(cells) => are_fields_of(fields, cells.as_slice()),
        _ => is_null(cell),
    }
}

/// Whether there is a cell for each field, and each fits its own.
#[cycle(fitting)]
fn are_fields_of(fields: &[Field], cells: &[AnyScalar]) -> bool
    ensures { result ≡ fit_each (map (λ field. fits_cell field.data_type) fields.now) (in_slots (map scalar_slot cells.now)) }
{
    if fields.len() != cells.len() {
        return false;
    }
    for place in 0..fields.len() {
        if !is_cell_of(&fields[place].data_type, &cells[place]) {
            return false;
        }
    }
    true
}

/// Whether a cell is a truth value or null.
fn is_truth(cell: &AnyScalar) -> bool
    ensures { result ≡ is_truth (scalar_slot cell.now) }
{
    match part_of(cell) {
        CellPart::Null => true,
        CellPart::Truth(_) => true,
        CellPart::Number(_) => false,
        CellPart::Text(_) => false,
        CellPart::Bytes(_) => false,
        CellPart::Nested => false,
    }
}

/// Whether a cell is a number of a kind or null.
fn is_number(kind: PrimitiveType, cell: &AnyScalar) -> bool
    ensures { result ≡ is_of_kind kind (scalar_slot cell.now) }
{
    match part_of(cell) {
        CellPart::Null => true,
        CellPart::Truth(_) => false,
        CellPart::Number(number) => is_of(kind, number),
        CellPart::Text(_) => false,
        CellPart::Bytes(_) => false,
        CellPart::Nested => false,
    }
}

/// Whether a number is of a kind.
// match table: an arm for each kind.
fn is_of(kind: PrimitiveType, number: AnyNumber) -> bool
    ensures { result ≡ is_of_kind kind (slot_of_number number) }
{
    match number {
        AnyNumber::Int8(_) => matches!(kind, PrimitiveType::Int8),
        AnyNumber::Int16(_) => matches!(kind, PrimitiveType::Int16),
        AnyNumber::Int32(_) => matches!(kind, PrimitiveType::Int32),
        AnyNumber::Int64(_) => matches!(kind, PrimitiveType::Int64),
        AnyNumber::Int128(_) => matches!(kind, PrimitiveType::Int128),
        AnyNumber::Int256(_) => matches!(kind, PrimitiveType::Int256),
        AnyNumber::UInt8(_) => matches!(kind, PrimitiveType::UInt8),
        AnyNumber::UInt16(_) => matches!(kind, PrimitiveType::UInt16),
        AnyNumber::UInt32(_) => matches!(kind, PrimitiveType::UInt32),
        AnyNumber::UInt64(_) => matches!(kind, PrimitiveType::UInt64),
        AnyNumber::DaysMs(_) => matches!(kind, PrimitiveType::DaysMs),
        AnyNumber::MonthsDaysNs(_) => matches!(kind, PrimitiveType::MonthDayNano),
    }
}

/// Whether a cell is an interval of a unit or null.
fn is_interval(unit: IntervalUnit, cell: &AnyScalar) -> bool
    ensures { result ≡ is_interval unit (scalar_slot cell.now) }
{
    match unit {
        IntervalUnit::YearMonth => is_number(PrimitiveType::Int32, cell),
        IntervalUnit::DayTime => is_number(PrimitiveType::DaysMs, cell),
        IntervalUnit::MonthDayNano => is_number(PrimitiveType::MonthDayNano, cell),
    }
}

/// Whether a cell is a text or null.
fn is_text(cell: &AnyScalar) -> bool
    ensures { result ≡ is_text (scalar_slot cell.now) }
{
    match part_of(cell) {
        CellPart::Null => true,
        CellPart::Truth(_) => false,
        CellPart::Number(_) => false,
        CellPart::Text(_) => true,
        CellPart::Bytes(_) => false,
        CellPart::Nested => false,
    }
}

/// Whether a cell is bytes or null.
fn is_byte_string(cell: &AnyScalar) -> bool
    ensures { result ≡ is_bytes (scalar_slot cell.now) }
{
    match part_of(cell) {
        CellPart::Null => true,
        CellPart::Truth(_) => false,
        CellPart::Number(_) => false,
        CellPart::Text(_) => false,
        CellPart::Bytes(bytes) => {
            read_bytes(bytes);
            true
        }
        CellPart::Nested => false,
    }
}

/// Whether a cell is bytes of one size or null.
fn is_sized_string(size: usize, cell: &AnyScalar) -> bool
    ensures { result ≡ is_bytes_of size (scalar_slot cell.now) }
{
    match part_of(cell) {
        CellPart::Null => true,
        CellPart::Truth(_) => false,
        CellPart::Number(_) => false,
        CellPart::Text(_) => false,
        CellPart::Bytes(bytes) => {
            read_bytes(bytes);
            bytes.len() == size
        }
        CellPart::Nested => false,
    }
}
