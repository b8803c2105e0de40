//! Single buffers, from bytes in memory.
use crate::cases::{buffers, node};
use ipc_format_reading::array_reading::column_writing::column_reading::{
    read_bitmap, read_buffer, read_bytes, read_validity,
};
use ipc_format_reading::columnar_memory::Error;
use ipc_format_reading::streams::messages::TableRef;
use ipc_format_reading::{BodyCompressionRef, InMemory};
use std::test::*;

#[test]
fn windows_from_an_origin(rt: HostRuntime) -> Result<(), Fail> {
    let alloc = rt.alloc();
    let mut room = InMemory {
        bytes: &[9, 9, 1, 0, 2, 0, 0b110],
    };
    let mut scratch = Vec::new(alloc);
    let mut queue = buffers(alloc, &[(1, 4), (5, 1), (0, 3)])?;
    let numbers = read_buffer::<u16, _>(
        alloc,
        &mut queue,
        2,
        &mut room,
        1,
        true,
        None,
        &mut scratch,
    );
    let numbers = numbers.ok().ok_or("refused")?;
    assert_eq!(rt; numbers.as_slice(), &[1, 2][..]);
    let bits = read_bitmap(alloc, &mut queue, 3, &mut room, 1, true, None, &mut scratch);
    let bits = bits.ok().ok_or("refused")?;
    assert_eq!(rt;
        (bits.get(0), bits.get(1), bits.get(2), bits.len()),
        (Some(false), Some(true), Some(true), 3)
    );
    let bytes = read_bytes(alloc, &mut queue, 2, &mut room, 1, None);
    let bytes = bytes.ok().ok_or("refused")?;
    assert_eq!(rt; bytes.as_slice(), &[9, 1][..]);
    assert_eq!(rt; queue.len(), 0);
    Ok(())
}

#[test]
fn validity_without_nulls_is_passed_over(rt: HostRuntime) -> Result<(), Fail> {
    let alloc = rt.alloc();
    let mut room = InMemory { bytes: &[] };
    let mut scratch = Vec::new(alloc);
    let mut queue = buffers(alloc, &[(5, 1)])?;
    let passed = read_validity(
        alloc,
        &mut queue,
        node(3, 0),
        &mut room,
        1,
        true,
        None,
        None,
        &mut scratch,
    );
    let passed = passed.ok().ok_or("refused")?;
    assert!(rt; passed.is_none());
    assert_eq!(rt; queue.len(), 0);
    Ok(())
}

#[test]
fn what_is_refused(rt: HostRuntime) -> Result<(), Fail> {
    let alloc = rt.alloc();
    let bytes = [4, 0, 0, 0, 4, 0, 4, 0, 4, 0, 0, 0];
    let mut room = InMemory { bytes: &bytes };
    let cases = [(0, 3), (10, 4), (-1, 4), (0, -4), (9223372036854775807, 4)];
    for case in cases {
        let mut queue = buffers(alloc, &[case])?;
        let found = read_bytes(alloc, &mut queue, 4, &mut room, 0, None);
        assert!(rt; matches!(found, Err(Error::OutOfSpec(_))), "at {case:?}");
        assert_eq!(rt; queue.len(), 0);
    }
    let mut queue = buffers(alloc, &[(0, 4)])?;
    let found = read_bytes(alloc, &mut queue, 4, &mut room, u64::MAX, None);
    assert!(rt; matches!(found, Err(Error::OutOfSpec(_))));
    let found = read_bytes(alloc, &mut queue, 4, &mut room, 0, None);
    assert!(rt; matches!(found, Err(Error::OutOfSpec(_))));
    Ok(())
}

#[test]
fn compressed_buffers(rt: HostRuntime) -> Result<(), Fail> {
    let alloc = rt.alloc();
    let bytes = [8, 0, 0, 0, 4, 0, 4, 0, 4, 0, 0, 0];
    let table = TableRef::read_as_root(&bytes).ok().ok_or("no table")?;
    let compression = Some(BodyCompressionRef { table });
    let mut room = InMemory { bytes: &bytes };
    let mut queue = buffers(alloc, &[(0, 4)])?;
    let found = read_bytes(alloc, &mut queue, 4, &mut room, 0, compression);
    assert!(rt; matches!(found, Err(Error::NotYetImplemented(_))));
    assert_eq!(rt; queue.len(), 1);
    Ok(())
}
