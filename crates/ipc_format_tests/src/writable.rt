//! Which types are written: each of the 35, and the bounds of each limit.
use crate::schemas::{extension, schema_of};
use crate::writing::{dictionary, entry, field, single, union};
use columnar_memory_types::{Boxed, DataType, IntervalUnit, Items, Text, TimeUnit};
use ipc_format::metadata::can_write;
use std::alloc::Global;
use std::test::*;

/// Whether a schema of one column of a type is written.
fn is_written(alloc: Global, data_type: DataType) -> Result<bool, Fail> {
    Ok(can_write(&schema_of(alloc, "x", data_type, true)?))
}

#[test]
fn types_without_fields_are_written(rt: HostRuntime) -> Result<(), Fail> {
    for data_type in [
        DataType::Null,
        DataType::Boolean,
        DataType::Int8,
        DataType::Int16,
        DataType::Int32,
        DataType::Int64,
        DataType::UInt8,
        DataType::UInt16,
        DataType::UInt32,
        DataType::UInt64,
        DataType::Binary,
        DataType::LargeBinary,
        DataType::Utf8,
        DataType::LargeUtf8,
        DataType::Timestamp(TimeUnit::Second, None),
        DataType::Date32,
        DataType::Date64,
        DataType::Time32(TimeUnit::Second),
        DataType::Time64(TimeUnit::Microsecond),
        DataType::Duration(TimeUnit::Nanosecond),
        DataType::Interval(IntervalUnit::DayTime),
        DataType::FixedSizeBinary(2_147_483_647),
        DataType::Decimal(2_147_483_647, 0),
        DataType::Decimal256(0, 2_147_483_647),
    ] {
        assert!(rt; is_written(rt.alloc(), data_type)?);
    }
    Ok(())
}

#[test]
fn floats_and_what_passes_a_limit_are_not_written(rt: HostRuntime) -> Result<(), Fail> {
    for data_type in [
        DataType::Float16,
        DataType::Float32,
        DataType::Float64,
        DataType::Time32(TimeUnit::Microsecond),
        DataType::Time64(TimeUnit::Millisecond),
        DataType::FixedSizeBinary(0),
        DataType::FixedSizeBinary(2_147_483_648),
        DataType::Decimal(2_147_483_648, 0),
        DataType::Decimal256(0, 2_147_483_648),
        DataType::Struct(Items::new(rt.alloc())),
    ] {
        assert!(rt; !is_written(rt.alloc(), data_type)?);
    }
    Ok(())
}

#[test]
fn lists_are_written(rt: HostRuntime) -> Result<(), Fail> {
    assert!(rt; is_written(rt.alloc(), DataType::List(entry(rt.alloc())?))?);
    assert!(rt; is_written(rt.alloc(), DataType::LargeList(entry(rt.alloc())?))?);
    assert!(rt; is_written(rt.alloc(), DataType::FixedSizeList(entry(rt.alloc())?, 1))?);
    assert!(rt; !is_written(rt.alloc(), DataType::FixedSizeList(entry(rt.alloc())?, 0))?);
    assert!(rt; is_written(rt.alloc(), DataType::Map(entry(rt.alloc())?, false))?);
    Ok(())
}

#[test]
fn a_map_has_entries_of_two_fields(rt: HostRuntime) -> Result<(), Fail> {
    let alone = single(rt.alloc(), field(rt.alloc(), "x", DataType::Int8)?)?;
    let entry = field(rt.alloc(), "entry", DataType::Struct(alone))?;
    let map = DataType::Map(Boxed::new(rt.alloc(), entry)?, false);
    assert!(rt; !is_written(rt.alloc(), map)?);
    Ok(())
}

#[test]
fn types_over_types_are_written(rt: HostRuntime) -> Result<(), Fail> {
    let alone = single(rt.alloc(), field(rt.alloc(), "x", DataType::Int8)?)?;
    assert!(rt; is_written(rt.alloc(), DataType::Struct(alone))?);
    assert!(rt; is_written(rt.alloc(), union(rt.alloc())?)?);
    assert!(rt; is_written(rt.alloc(), dictionary(rt.alloc(), extension(rt.alloc())?)?)?);
    assert!(rt; is_written(rt.alloc(), extension(rt.alloc())?)?);
    Ok(())
}

/// A type as an extension.
fn extended(alloc: Global, inner: DataType) -> Result<DataType, Fail> {
    let name = Text::from_str(alloc, "e")?;
    Ok(DataType::Extension(name, Boxed::new(alloc, inner)?, None))
}

#[test]
fn a_dictionary_stands_on_top(rt: HostRuntime) -> Result<(), Fail> {
    let inner = dictionary(rt.alloc(), DataType::Utf8)?;
    assert!(rt; !is_written(rt.alloc(), dictionary(rt.alloc(), inner)?)?);
    let inner = dictionary(rt.alloc(), DataType::Utf8)?;
    assert!(rt; !is_written(rt.alloc(), extended(rt.alloc(), inner)?)?);
    assert!(rt; !is_written(rt.alloc(), extended(rt.alloc(), extension(rt.alloc())?)?)?);
    Ok(())
}
