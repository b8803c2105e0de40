//! Messages one after another, and devices that count their failures.
use crate::samples::{NO_FIELDS, RECORD_BATCH};
use ipc_format::format::MessageHeaderRef;
use ipc_format::streams::{Counting, Faults, NextMessage, next_at};
use std::alloc::Global;
use std::io::{Cursor, Read, Seek, SeekFrom, Write};
use std::test::*;

/// A stream of a schema without fields and of a batch with a body of 128 bytes.
fn stream(alloc: Global) -> Result<Vec<u8>, Fail> {
    let mut bytes = Vec::new(alloc);
    bytes.extend_from_slice(&[255, 255, 255, 255, 88, 0, 0, 0])?;
    bytes.extend_from_slice(&NO_FIELDS)?;
    bytes.extend_from_slice(&[255, 255, 255, 255, 152, 0, 0, 0])?;
    bytes.extend_from_slice(&RECORD_BATCH)?;
    bytes.extend_from_slice(&[7; 128])?;
    bytes.extend_from_slice(&[255, 255, 255, 255, 0, 0, 0, 0])?;
    Ok(bytes)
}

/// What stands at a place of a stream, and where the next message stands.
fn kind_at(bytes: &[u8], place: usize) -> (&'static str, usize) {
    match next_at(bytes, place) {
        None => ("broken", 0),
        Some(NextMessage::Truncated) => ("truncated", 0),
        Some(NextMessage::End) => ("end", 0),
        Some(NextMessage::Message(framed, after)) => match framed.header {
            MessageHeaderRef::Schema(_) => ("schema", after),
            MessageHeaderRef::DictionaryBatch(_) => ("dictionary batch", after),
            MessageHeaderRef::RecordBatch(_) => ("record batch", after),
        },
    }
}

#[test]
fn messages_stand_one_after_another(rt: HostRuntime) -> Result<(), Fail> {
    let bytes = stream(rt.alloc())?;
    let cases = [
        (0, ("schema", 96)),
        (96, ("record batch", 384)),
        (384, ("end", 0)),
        (389, ("truncated", 0)),
    ];
    for (place, want) in cases {
        assert_eq!(rt; kind_at(&bytes, place), want);
    }
    Ok(())
}

#[test]
fn a_body_ends_in_the_stream(rt: HostRuntime) -> Result<(), Fail> {
    let bytes = stream(rt.alloc())?;
    for (end, want) in [(383, ("broken", 0)), (384, ("record batch", 384))] {
        let part = bytes.get(..end).ok_or("no such part")?;
        assert_eq!(rt; kind_at(part, 96), want);
    }
    Ok(())
}

#[test]
fn a_marker_may_be_missing(rt: HostRuntime) -> Result<(), Fail> {
    let bytes = stream(rt.alloc())?;
    let part = bytes.get(4..).ok_or("no such part")?;
    assert_eq!(rt; kind_at(part, 0), ("schema", 92));
    Ok(())
}

#[test]
fn memory_does_not_fail(rt: HostRuntime) -> Result<(), Fail> {
    let mut bytes = Vec::new(rt.alloc());
    bytes.push(1)?;
    assert_eq!(rt; bytes.faults(), 0);
    assert_eq!(rt; (&mut bytes).faults(), 0);
    assert_eq!(rt; bytes.as_slice().faults(), 0);
    assert_eq!(rt; Cursor::new([1u8]).faults(), 0);
    assert!(rt; bytes.is_memory());
    assert!(rt; (&mut bytes).is_memory());
    assert!(rt; bytes.as_slice().is_memory());
    assert!(rt; !Cursor::new([1u8]).is_memory());
    assert!(rt; !Counting::new(bytes.as_slice()).is_memory());
    Ok(())
}

#[test]
fn failures_are_counted(rt: HostRuntime) {
    let mut device = Counting::new(Cursor::new([1u8, 2]));
    let mut buffer = [0u8; 2];
    assert!(rt; matches!(device.read(&mut buffer), Ok(2)));
    assert_eq!(rt; device.faults(), 0);
    assert!(rt; device.seek(SeekFrom::Current(-3)).is_err());
    assert_eq!(rt; device.faults(), 1);
    assert!(rt; matches!(device.seek(SeekFrom::Start(0)), Ok(0)));
    assert_eq!(rt; device.faults(), 1);
}

#[test]
fn writes_go_through(rt: HostRuntime) -> Result<(), Fail> {
    let mut device = Counting::new(Vec::new(rt.alloc()));
    assert!(rt; matches!(device.write(&[1, 2]), Ok(2)));
    assert!(rt; device.flush().is_ok());
    assert_eq!(rt; device.faults(), 0);
    assert_eq!(rt; device.device.as_slice(), [1u8, 2].as_slice());
    Ok(())
}
