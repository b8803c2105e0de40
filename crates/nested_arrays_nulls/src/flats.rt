//! Nulls without children.
ghost use Rattle.std.specs.Prelude.{◌≡◌};
ghost use Rattle.nested_arrays_iterators.specs.columnar_memory.Layouts.{physical_type};
ghost use Rattle.nested_arrays_iterators.specs.columnar_memory.declared.PhysicalType.TheVariants as physical;
ghost use Rattle.nested_arrays_nulls.specs.NullAnswers.{IsMade};
ghost use Rattle.nested_arrays_nulls.specs.NullColumns.{flat_nulls};

use nested_arrays_iterators::columnar_memory::{
    DataType, Error, PhysicalType, PrimitiveType, Result, days_ms, i256, months_days_ns,
};
use nested_arrays_iterators::flat::{AnyPrimitive, FixedSizeBinaryArray, NullArray, PrimitiveKind};
use nested_arrays_iterators::flat_arrays::{BinaryArray, BooleanArray, PrimitiveArray, Utf8Array};
use nested_arrays_iterators::parts::FlatArray;
use std::alloc::Global;

/// So many nulls that store zeros of a kind.
fn zeros<T: PrimitiveKind>(alloc: Global, data_type: DataType, length: usize) -> Result<FlatArray>
    requires { physical_type data_type ≡ physical.Primitive T.PRIMITIVE }
    ensures { IsMade (flat_nulls (physical.Primitive T.PRIMITIVE) data_type length) result }
{
    let numbers: PrimitiveArray<T> = PrimitiveArray::new_null(alloc, data_type, length)?;
    let array = FlatArray::from(AnyPrimitive::from_array(numbers));
    array.whole();
    Ok(array)
}

/// The same of a kind that is known when it runs, which must not be one of floats.
fn numbers(
    alloc: Global,
    kind: PrimitiveType,
    data_type: DataType,
    length: usize,
) -> Result<FlatArray>
    requires { physical_type data_type ≡ physical.Primitive kind }
    ensures { IsMade (flat_nulls (physical.Primitive kind) data_type length) result }
{
    match kind {
        PrimitiveType::Int8 => zeros::<i8>(alloc, data_type, length),
        PrimitiveType::Int16 => zeros::<i16>(alloc, data_type, length),
        PrimitiveType::Int32 => zeros::<i32>(alloc, data_type, length),
        PrimitiveType::Int64 => zeros::<i64>(alloc, data_type, length),
        PrimitiveType::Int128 => zeros::<i128>(alloc, data_type, length),
        PrimitiveType::Int256 => zeros::<i256>(alloc, data_type, length),
        PrimitiveType::UInt8 => zeros::<u8>(alloc, data_type, length),
        PrimitiveType::UInt16 => zeros::<u16>(alloc, data_type, length),
        PrimitiveType::UInt32 => zeros::<u32>(alloc, data_type, length),
        PrimitiveType::UInt64 => zeros::<u64>(alloc, data_type, length),
        PrimitiveType::DaysMs => zeros::<days_ms>(alloc, data_type, length),
        PrimitiveType::MonthDayNano => zeros::<months_days_ns>(alloc, data_type, length),
        PrimitiveType::Float16 | PrimitiveType::Float32 | PrimitiveType::Float64 => {
            Err(Error::OutOfSpec("nulls of floats, which no array stores"))
        }
    }
}

/// So many nulls that store zeros in place of byte strings of one size.
fn fixed_strings(alloc: Global, data_type: DataType, length: usize) -> Result<FlatArray>
    requires { physical_type data_type ≡ physical.FixedSizeBinary }
    ensures { IsMade (flat_nulls physical.FixedSizeBinary data_type length) result }
{
    let size = FixedSizeBinaryArray::get_size(&data_type);
    if size == 0 {
        return Err(Error::OutOfSpec("nulls of byte strings of no size"));
    }
    if size.checked_mul(length).is_none() {
        return Err(Error::Overflow);
    }
    let strings = FixedSizeBinaryArray::new_null(alloc, data_type, length)?;
    let array = FlatArray::from(strings);
    array.whole();
    Ok(array)
}

/// So many nulls that store nothing.
fn no_values(data_type: DataType, length: usize) -> Result<FlatArray>
    requires { physical_type data_type ≡ physical.Null }
    ensures { IsMade (flat_nulls physical.Null data_type length) result }
{
    let array = FlatArray::from(NullArray::try_new(data_type, length)?);
    array.whole();
    Ok(array)
}

/// So many nulls that store false.
fn booleans(alloc: Global, data_type: DataType, length: usize) -> Result<FlatArray>
    requires { physical_type data_type ≡ physical.Boolean }
    ensures { IsMade (flat_nulls physical.Boolean data_type length) result }
{
    let array = FlatArray::from(BooleanArray::new_null(alloc, data_type, length)?);
    array.whole();
    Ok(array)
}

/// So many nulls in place of byte strings.
fn strings(alloc: Global, data_type: DataType, length: usize) -> Result<FlatArray>
    requires { physical_type data_type ≡ physical.Binary }
    ensures { IsMade (flat_nulls physical.Binary data_type length) result }
{
    let strings: BinaryArray<i32> = BinaryArray::new_null(alloc, data_type, length)?;
    let array = FlatArray::from(strings);
    array.whole();
    Ok(array)
}

/// The same with large offsets.
fn large_strings(alloc: Global, data_type: DataType, length: usize) -> Result<FlatArray>
    requires { physical_type data_type ≡ physical.LargeBinary }
    ensures { IsMade (flat_nulls physical.LargeBinary data_type length) result }
{
    let strings: BinaryArray<i64> = BinaryArray::new_null(alloc, data_type, length)?;
    let array = FlatArray::from(strings);
    array.whole();
    Ok(array)
}

/// So many nulls in place of texts.
fn texts(alloc: Global, data_type: DataType, length: usize) -> Result<FlatArray>
    requires { physical_type data_type ≡ physical.Utf8 }
    ensures { IsMade (flat_nulls physical.Utf8 data_type length) result }
{
    let texts: Utf8Array<i32> = Utf8Array::new_null(alloc, data_type, length)?;
    let array = FlatArray::from(texts);
    array.whole();
    Ok(array)
}

/// The same with large offsets.
fn large_texts(alloc: Global, data_type: DataType, length: usize) -> Result<FlatArray>
    requires { physical_type data_type ≡ physical.LargeUtf8 }
    ensures { IsMade (flat_nulls physical.LargeUtf8 data_type length) result }
{
    let texts: Utf8Array<i64> = Utf8Array::new_null(alloc, data_type, length)?;
    let array = FlatArray::from(texts);
    array.whole();
    Ok(array)
}

/// So many nulls of a data type whose arrays have no children.
pub(crate) fn flats(alloc: Global, data_type: DataType, length: usize) -> Result<FlatArray>
    ensures { IsMade (flat_nulls (physical_type data_type) data_type length) result }
{
    match data_type.to_physical_type() {
        PhysicalType::Null => no_values(data_type, length),
        PhysicalType::Boolean => booleans(alloc, data_type, length),
        PhysicalType::Primitive(kind) => numbers(alloc, kind, data_type, length),
        PhysicalType::Binary => strings(alloc, data_type, length),
        PhysicalType::LargeBinary => large_strings(alloc, data_type, length),
        PhysicalType::FixedSizeBinary => fixed_strings(alloc, data_type, length),
        PhysicalType::Utf8 => texts(alloc, data_type, length),
        PhysicalType::LargeUtf8 => large_texts(alloc, data_type, length),
        _ => Err(Error::OutOfSpec("a data type whose arrays have children")),
    }
}
