//! Objects laid as bytes, against bytes laid by hand.
use crate::samples::NO_FIELDS;
use ipc_format::flatbuffers::{
    Laid, LayError, Slot, lay_elements, lay_references, lay_table, lay_text, message_bytes,
};
use std::alloc::Global;
use std::test::*;

/// The message of what was laid.
fn message_of(alloc: Global, laid: Result<Laid, LayError>) -> Result<Vec<u8>, Fail> {
    let laid = laid.ok().ok_or("not laid")?;
    Ok(message_bytes(alloc, &laid)?)
}

#[test]
fn a_table_is_laid(rt: HostRuntime) -> Result<(), Fail> {
    let slots = [Slot::Byte(1), Slot::Long(2)];
    let bytes = message_of(rt.alloc(), lay_table(rt.alloc(), &slots))?;
    let want = [
        16, 0, 0, 0, 0, 0, 0, 0, 8, 0, 16, 0, 4, 0, 8, 0, 8, 0, 0, 0, 1, 0, 0, 0, 2, 0, 0, 0, 0, 0,
        0, 0,
    ];
    assert_eq!(rt; bytes.as_slice(), want.as_slice());
    Ok(())
}

#[test]
fn a_string_is_laid(rt: HostRuntime) -> Result<(), Fail> {
    let bytes = message_of(rt.alloc(), lay_text(rt.alloc(), b"hi"))?;
    let want = [
        12, 0, 0, 0, 0, 0, 0, 0, 0, 0, 0, 0, 2, 0, 0, 0, 104, 105, 0, 0, 0, 0, 0, 0,
    ];
    assert_eq!(rt; bytes.as_slice(), want.as_slice());
    Ok(())
}

#[test]
fn references_are_laid(rt: HostRuntime) -> Result<(), Fail> {
    let word = lay_text(rt.alloc(), b"hi").ok().ok_or("not laid")?;
    let bytes = message_of(rt.alloc(), lay_references(rt.alloc(), &[word]))?;
    let want = [
        12, 0, 0, 0, 0, 0, 0, 0, 0, 0, 0, 0, 1, 0, 0, 0, 12, 0, 0, 0, 0, 0, 0, 0, 0, 0, 0, 0, 2, 0,
        0, 0, 104, 105, 0, 0, 0, 0, 0, 0,
    ];
    assert_eq!(rt; bytes.as_slice(), want.as_slice());
    Ok(())
}

#[test]
fn elements_are_laid(rt: HostRuntime) -> Result<(), Fail> {
    let bytes = message_of(rt.alloc(), lay_elements(rt.alloc(), 3, &[1, 2, 3]))?;
    let want = [
        12, 0, 0, 0, 0, 0, 0, 0, 0, 0, 0, 0, 3, 0, 0, 0, 1, 2, 3, 0, 0, 0, 0, 0,
    ];
    assert_eq!(rt; bytes.as_slice(), want.as_slice());
    Ok(())
}

/// The Schema table without fields.
fn no_fields(alloc: Global) -> Result<Laid, Fail> {
    let fields = lay_references(alloc, &[]).ok().ok_or("no fields")?;
    let slots = [
        Slot::Short(0),
        Slot::Refers(&fields),
        Slot::Absent,
        Slot::Absent,
    ];
    Ok(lay_table(alloc, &slots).ok().ok_or("no schema")?)
}

#[test]
fn a_schema_message_is_laid(rt: HostRuntime) -> Result<(), Fail> {
    let schema = no_fields(rt.alloc())?;
    let slots = [
        Slot::Short(4),
        Slot::Byte(1),
        Slot::Refers(&schema),
        Slot::Long(0),
        Slot::Absent,
    ];
    let bytes = message_of(rt.alloc(), lay_table(rt.alloc(), &slots))?;
    assert_eq!(rt; bytes.as_slice(), NO_FIELDS.as_slice());
    Ok(())
}
