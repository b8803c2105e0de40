//! Schemas read from the metadata of messages.
use crate::samples::{DICTIONARY, EXTENSION, X};
use columnar_memory_types::{Boxed, DataType, Error, Field, IntegerType, Items, Schema, Text};
use ipc_format::metadata::{IpcField, deserialize_schema};
use std::alloc::Global;
use std::test::*;

// A message, its Schema table, and a vector of one reference to the table of the block behind it.
const HEAD: [u8; 52] = [
    16, 0, 0, 0, 10, 0, 9, 0, 0, 0, 8, 0, 4, 0, 0, 0, 12, 0, 0, 0, 16, 0, 0, 0, 1, 0, 0, 0, 8, 0,
    8, 0, 0, 0, 4, 0, 8, 0, 0, 0, 4, 0, 0, 0, 1, 0, 0, 0, 20, 0, 0, 0,
];

// A Field table of a struct, whose children are the table of the block behind it: once, or as many times as byte 48 says.
const STRUCT: [u8; 60] = [
    16, 0, 20, 0, 4, 0, 0, 0, 8, 0, 12, 0, 0, 0, 16, 0, 16, 0, 0, 0, 16, 0, 0, 0, 13, 0, 0, 0, 16,
    0, 0, 0, 16, 0, 0, 0, 0, 0, 0, 0, 4, 0, 4, 0, 4, 0, 0, 0, 1, 0, 0, 0, 24, 0, 0, 0, 20, 0, 0, 0,
];

// A Field table of signed 32-bit numbers.
const LEAF: [u8; 60] = [
    16, 0, 20, 0, 4, 0, 0, 0, 8, 0, 12, 0, 0, 0, 0, 0, 16, 0, 0, 0, 16, 0, 0, 0, 2, 0, 0, 0, 20, 0,
    0, 0, 0, 0, 0, 0, 0, 0, 0, 0, 8, 0, 9, 0, 4, 0, 8, 0, 8, 0, 0, 0, 32, 0, 0, 0, 1, 0, 0, 0,
];

/// The metadata of a schema of `levels` structs, one in another, round a column of a type.
fn nested(alloc: Global, levels: usize, children: u8, tag: u8) -> Result<Vec<u8>, Fail> {
    let mut bytes = Vec::new(alloc);
    bytes.extend_from_slice(&HEAD)?;
    let mut block = STRUCT;
    block[48] = children;
    for _ in 0..levels {
        bytes.extend_from_slice(&block)?;
    }
    let mut leaf = LEAF;
    leaf[24] = tag;
    bytes.extend_from_slice(&leaf)?;
    Ok(bytes)
}

/// The schema of one field.
pub(crate) fn schema_of(
    alloc: Global,
    name: &str,
    data_type: DataType,
    is_nullable: bool,
) -> Result<Schema, Fail> {
    let name = Text::from_str(alloc, name)?;
    let mut fields = Items::new(alloc);
    fields.push(Field::new(alloc, name, data_type, is_nullable))?;
    Ok(Schema::from_fields(fields))
}

#[test]
fn numbers_are_read(rt: HostRuntime) -> Result<(), Fail> {
    let found = deserialize_schema(rt.alloc(), &X);
    let (schema, beside) = found.ok().ok_or("refused")?;
    assert!(rt; schema == schema_of(rt.alloc(), "x", DataType::Int32, true)?);
    assert!(rt; beside.is_little_endian);
    Ok(())
}

#[test]
fn a_dictionary_is_read(rt: HostRuntime) -> Result<(), Fail> {
    let found = deserialize_schema(rt.alloc(), &DICTIONARY);
    let (schema, _beside) = found.ok().ok_or("refused")?;
    let values = Boxed::new(rt.alloc(), DataType::Utf8)?;
    let data_type = DataType::Dictionary(IntegerType::Int32, values, false);
    assert!(rt; schema == schema_of(rt.alloc(), "d", data_type, false)?);
    Ok(())
}

#[test]
fn ids_stand_beside_the_fields(rt: HostRuntime) -> Result<(), Fail> {
    let found = deserialize_schema(rt.alloc(), &DICTIONARY);
    let (_schema, beside) = found.ok().ok_or("refused")?;
    let copied = beside.clone()?;
    assert!(rt; copied == beside);
    let field = copied.fields.get(0).ok_or("no ids")?;
    assert_eq!(rt; field.dictionary_id, Some(0));
    assert_eq!(rt; field.fields.len(), 0);
    assert!(rt; *field != IpcField::new(rt.alloc()));
    Ok(())
}

/// x as an extension type e with the metadata m.
pub(crate) fn extension(alloc: Global) -> Result<DataType, Fail> {
    let name = Text::from_str(alloc, "e")?;
    let inner = Boxed::new(alloc, DataType::Int32)?;
    let metadata = Text::from_str(alloc, "m")?;
    Ok(DataType::Extension(name, inner, Some(metadata)))
}

#[test]
fn an_extension_is_read(rt: HostRuntime) -> Result<(), Fail> {
    let found = deserialize_schema(rt.alloc(), &EXTENSION);
    let (schema, _beside) = found.ok().ok_or("refused")?;
    let field = schema.fields.get(0).ok_or("no field")?;
    assert!(rt; field.data_type == extension(rt.alloc())?);
    assert_eq!(rt; field.metadata.len(), 3);
    Ok(())
}

/// What came of reading some metadata.
fn outcome(alloc: Global, bytes: &[u8]) -> &'static str {
    match deserialize_schema(alloc, bytes) {
        Ok(_) => "read",
        Err(Error::OutOfSpec(_)) => "out of specification",
        Err(Error::NotYetImplemented(_)) => "not implemented",
        Err(_) => "another error",
    }
}

#[test]
fn a_name_is_utf8(rt: HostRuntime) {
    let mut bytes = X;
    bytes[152] = 255;
    assert_eq!(rt; outcome(rt.alloc(), &bytes), "out of specification");
}

#[test]
fn limits_and_floats(rt: HostRuntime) -> Result<(), Fail> {
    let cases = [
        (63, 1, 2, "read"),
        (64, 1, 2, "out of specification"),
        // children that are shared are visited again and again
        (40, 2, 2, "out of specification"),
        (2, 1, 3, "not implemented"),
    ];
    for (levels, children, tag, want) in cases {
        let bytes = nested(rt.alloc(), levels, children, tag)?;
        assert_eq!(rt; outcome(rt.alloc(), &bytes), want);
    }
    Ok(())
}
