//! Columns of numbers, booleans, byte strings and texts, from bytes in memory.
use crate::cases::{buffers, nodes};
use ipc_format_reading::InMemory;
use ipc_format_reading::array_reading::column_writing::column_reading::{
    read_binary, read_boolean, read_primitive, read_utf8,
};
use ipc_format_reading::columnar_memory::{DataType, Error, IntervalUnit, days_ms};
use ipc_format_reading::nested_arrays_core::flat_arrays::{BinaryArray, Utf8Array};
use std::alloc::Global;
use std::test::*;

/// The texts of so many slots whose offsets and bytes stand in two buffers of a room.
fn texts(
    alloc: Global,
    slots: i64,
    parts: &[(i64, i64)],
    bytes: &[u8],
) -> Result<Result<Utf8Array<i32>, Error>, Fail> {
    let mut n = nodes(alloc, &[(slots, 0)])?;
    let mut b = buffers(alloc, parts)?;
    let mut room = InMemory { bytes };
    let mut scratch = Vec::new(alloc);
    Ok(read_utf8::<i32, _>(
        alloc,
        &mut n,
        DataType::Utf8,
        &mut b,
        &mut room,
        0,
        true,
        None,
        None,
        &mut scratch,
    ))
}

#[test]
fn big_endian_numbers(rt: HostRuntime) -> Result<(), Fail> {
    let alloc = rt.alloc();
    let mut n = nodes(alloc, &[(1, 0)])?;
    let mut b = buffers(alloc, &[(0, 0), (0, 4)])?;
    let mut room = InMemory {
        bytes: &[0, 0, 0, 7],
    };
    let mut scratch = Vec::new(alloc);
    let found = read_primitive::<i32, _>(
        alloc,
        &mut n,
        DataType::Int32,
        &mut b,
        &mut room,
        0,
        false,
        None,
        None,
        &mut scratch,
    );
    let array = found.ok().ok_or("refused")?;
    assert_eq!(rt;
        (array.len(), array.get(0), n.len(), b.len()),
        (1, Some(7), 0, 0)
    );
    Ok(())
}

#[test]
fn big_endian_intervals(rt: HostRuntime) -> Result<(), Fail> {
    let alloc = rt.alloc();
    let mut n = nodes(alloc, &[(1, 0)])?;
    let mut b = buffers(alloc, &[(0, 0), (0, 8)])?;
    let mut room = InMemory {
        bytes: &[0, 0, 0, 1, 0, 0, 0, 2],
    };
    let mut scratch = Vec::new(alloc);
    let found = read_primitive::<days_ms, _>(
        alloc,
        &mut n,
        DataType::Interval(IntervalUnit::DayTime),
        &mut b,
        &mut room,
        0,
        false,
        None,
        None,
        &mut scratch,
    );
    let array = found.ok().ok_or("refused")?;
    let value = array.get(0).ok_or("null")?;
    assert_eq!(rt; (value.0, value.1), (1, 2));
    Ok(())
}

#[test]
fn booleans_under_a_limit(rt: HostRuntime) -> Result<(), Fail> {
    let alloc = rt.alloc();
    let mut n = nodes(alloc, &[(3, 1)])?;
    let mut b = buffers(alloc, &[(0, 1), (1, 1)])?;
    let mut room = InMemory {
        bytes: &[0b101, 0b110],
    };
    let mut scratch = Vec::new(alloc);
    let found = read_boolean(
        alloc,
        &mut n,
        DataType::Boolean,
        &mut b,
        &mut room,
        0,
        true,
        None,
        Some(2),
        &mut scratch,
    );
    let array = found.ok().ok_or("refused")?;
    assert_eq!(rt;
        (array.len(), array.get(0), array.get(1)),
        (2, Some(false), None)
    );
    Ok(())
}

#[test]
fn byte_strings_from_a_later_offset(rt: HostRuntime) -> Result<(), Fail> {
    let alloc = rt.alloc();
    let mut n = nodes(alloc, &[(1, 0)])?;
    let mut b = buffers(alloc, &[(0, 0), (0, 16), (16, 4)])?;
    let mut room = InMemory {
        bytes: &[1, 0, 0, 0, 0, 0, 0, 0, 3, 0, 0, 0, 0, 0, 0, 0, 7, 8, 9, 6],
    };
    let mut scratch = Vec::new(alloc);
    let found: Result<BinaryArray<i64>, Error> = read_binary(
        alloc,
        &mut n,
        DataType::LargeBinary,
        &mut b,
        &mut room,
        0,
        true,
        None,
        None,
        &mut scratch,
    );
    let array = found.ok().ok_or("refused")?;
    assert!(rt; array.get(0) == Some([8u8, 9].as_slice()));
    assert_eq!(rt; (array.len(), array.values().len()), (1, 3));
    Ok(())
}

#[test]
fn offsets_that_are_not_there(rt: HostRuntime) -> Result<(), Fail> {
    let parts = [(0, 0), (-8, 0), (0, 0)];
    assert_eq!(rt; has_second(rt.alloc(), 0, &parts, &[], None)?, Some(true));
    assert_eq!(rt; has_second(rt.alloc(), 1, &parts, &[], None)?, None);
    Ok(())
}

/// Whether the second text of a column is this one, or there is none; nothing where the column is out of the format.
fn has_second(
    alloc: Global,
    slots: i64,
    parts: &[(i64, i64)],
    bytes: &[u8],
    second: Option<&str>,
) -> Result<Option<bool>, Fail> {
    match texts(alloc, slots, parts, bytes)? {
        Ok(array) => {
            let is_same = array.get(1) == second;
            drop(array);
            Ok(Some(is_same))
        }
        Err(Error::OutOfSpec(_)) => Ok(None),
        Err(_) => Err(Fail::from("refused")),
    }
}

#[test]
fn texts_are_tested_by_themselves(rt: HostRuntime) -> Result<(), Fail> {
    let alloc = rt.alloc();
    let parts = [(0, 0), (0, 12), (12, 4)];
    let bytes = [0, 0, 0, 0, 2, 0, 0, 0, 4, 0, 0, 0, 0xC3, 0xA9, 0xC3, 0xA8];
    assert_eq!(rt;
        has_second(alloc, 2, &parts, &bytes, Some("è"))?,
        Some(true)
    );
    let bytes = [0, 0, 0, 0, 1, 0, 0, 0, 4, 0, 0, 0, 0xC3, 0xA9, 0xC3, 0xA8];
    assert_eq!(rt; has_second(alloc, 2, &parts, &bytes, None)?, None);
    let bytes = [2, 0, 0, 0, 0, 0, 0, 0, 4, 0, 0, 0, 0xC3, 0xA9, 0xC3, 0xA8];
    assert_eq!(rt; has_second(alloc, 2, &parts, &bytes, None)?, None);
    Ok(())
}

#[test]
fn another_kind_takes_nothing(rt: HostRuntime) -> Result<(), Fail> {
    let alloc = rt.alloc();
    let mut n = nodes(alloc, &[(1, 0)])?;
    let mut b = buffers(alloc, &[(0, 0), (0, 4)])?;
    let mut room = InMemory {
        bytes: &[0, 0, 0, 7],
    };
    let mut scratch = Vec::new(alloc);
    let found = read_primitive::<u32, _>(
        alloc,
        &mut n,
        DataType::Int32,
        &mut b,
        &mut room,
        0,
        true,
        None,
        None,
        &mut scratch,
    );
    assert!(rt; matches!(found, Err(Error::OutOfSpec(_))));
    assert_eq!(rt; (n.len(), b.len()), (1, 2));
    Ok(())
}
