//! Columns that are written behind one another, columns of keys, and types that have one form, as a caller of the facade reaches them.
use ipc_format::columnar_memory::{Boxed, DataType, Error, IntegerType};
use ipc_format::columns::{Body, read_dictionary, write_binary, write_boolean, write_utf8};
use ipc_format::format::{Buffer, FieldNode};
use ipc_format::nested_arrays_core::flat_arrays::{BinaryArray, BooleanArray, Utf8Array};
use ipc_format::nested_arrays_core::{AnyArray, DictionaryArray, FlatArray};
use ipc_format::{Dictionaries, InMemory, have_one_form};
use std::alloc::Global;
use std::collections::VecDeque;
use std::test::*;

/// Two booleans, a byte string and a text behind one another.
fn columns(alloc: Global) -> Result<Body, Error> {
    let mut body = Body {
        nodes: Vec::new(alloc),
        buffers: Vec::new(alloc),
        bytes: Vec::new(alloc),
        offset: 0,
    };
    write_boolean(
        &BooleanArray::from_slice(alloc, &[false, true])?,
        &mut body,
        true,
    )?;
    let strings: BinaryArray<i32> = BinaryArray::from_slice(alloc, &[&[7u8][..]])?;
    write_binary(&strings, &mut body, true)?;
    let texts: Utf8Array<i64> = Utf8Array::from_slice(alloc, &["a"])?;
    write_utf8(&texts, &mut body, false)?;
    Ok(body)
}

#[test]
fn columns_stand_behind_one_another(rt: HostRuntime) -> Result<(), Fail> {
    let body = columns(rt.alloc())?;
    assert_eq!(rt;
        (body.nodes.len(), body.buffers.len(), body.offset),
        (3, 8, 320)
    );
    assert_eq!(rt; body.bytes.len(), 320);
    assert_eq!(rt; &body.bytes[..2], &[2, 0][..]);
    assert_eq!(rt; &body.bytes[64..72], &[0, 0, 0, 0, 1, 0, 0, 0][..]);
    assert_eq!(rt; &body.bytes[200..208], &[0, 0, 0, 0, 0, 0, 0, 1][..]);
    assert_eq!(rt; (body.bytes[128], body.bytes[256]), (7, b'a'));
    drop(body);
    Ok(())
}

/// The column of the key 1, of the texts a and b that stand under 7.
fn keyed(alloc: Global) -> Result<DictionaryArray<i8>, Error> {
    let texts: Utf8Array<i32> = Utf8Array::from_slice(alloc, &["a", "b"])?;
    let mut standing = Dictionaries::new(alloc);
    standing.insert(7, AnyArray::from(FlatArray::from(texts)))?;
    let mut nodes = VecDeque::new(alloc);
    nodes.push_back(FieldNode {
        length: 1,
        null_count: 0,
    })?;
    let mut buffers = VecDeque::new(alloc);
    for length in 0..2 {
        buffers.push_back(Buffer { offset: 0, length })?;
    }
    let values = Boxed::new(alloc, DataType::Utf8)?;
    read_dictionary::<i8, _>(
        alloc,
        &mut nodes,
        DataType::Dictionary(IntegerType::Int8, values, false),
        Some(7),
        &mut buffers,
        &mut InMemory { bytes: &[1] },
        &standing,
        0,
        true,
        None,
        None,
        &mut Vec::new(alloc),
    )
}

#[test]
fn a_column_of_keys_is_read(rt: HostRuntime) -> Result<(), Fail> {
    let array = keyed(rt.alloc())?;
    assert_eq!(rt; array.len(), 1);
    assert!(rt; array.keys().values().as_slice() == [1i8].as_slice());
    drop(array);
    Ok(())
}

#[test]
fn types_that_differ_have_their_own_forms(rt: HostRuntime) -> Result<(), Fail> {
    let alloc = rt.alloc();
    assert!(rt; have_one_form(alloc, &DataType::Utf8, &DataType::Utf8)?);
    assert!(rt; !have_one_form(alloc, &DataType::Utf8, &DataType::Binary)?);
    Ok(())
}
