//! Arrays and builders made of texts and byte strings that are owned.
use columnar_memory_core::Error;
use flat_arrays::{
    BinaryArray, MutableBinaryArray, MutableBinaryValuesArray, MutableUtf8Array,
    MutableUtf8ValuesArray, Utf8Array,
};
use std::alloc::{AllocError, Global};
use std::test::Fail;

// a, null
fn slots(alloc: Global) -> Result<[Option<String>; 2], AllocError> {
    Ok([Some(String::from_str(alloc, "a")?), None])
}

// b
fn values(alloc: Global) -> Result<[String; 1], AllocError> {
    Ok([String::from_str(alloc, "b")?])
}

fn array_of_texts(alloc: Global) -> Result<Utf8Array<i32>, Error> {
    let slots = slots(alloc)?;
    let array = Utf8Array::from(alloc, &slots);
    drop(slots);
    array
}

#[test]
fn owned_slots_make_an_array_of_texts(rt: HostRuntime) -> Result<(), Fail> {
    let array = array_of_texts(rt.alloc())?;
    assert_eq!(rt; array.len(), 2);
    assert!(rt; array.get(0) == Some("a"));
    drop(array);
    Ok(())
}

fn array_of_walked_texts(alloc: Global) -> Result<Utf8Array<i32>, Error> {
    let values = values(alloc)?;
    Utf8Array::from_iter_values(alloc, values.into_iter())
}

#[test]
fn owned_texts_of_an_iterator_make_an_array(rt: HostRuntime) -> Result<(), Fail> {
    let array = array_of_walked_texts(rt.alloc())?;
    assert_eq!(rt; array.len(), 1);
    assert!(rt; array.value(0) == "b");
    drop(array);
    Ok(())
}

fn array_of_bytes(alloc: Global) -> Result<BinaryArray<i32>, Error> {
    let values = values(alloc)?;
    let array = BinaryArray::from_slice(alloc, &values);
    drop(values);
    array
}

#[test]
fn owned_values_make_an_array_of_byte_strings(rt: HostRuntime) -> Result<(), Fail> {
    let array = array_of_bytes(rt.alloc())?;
    assert_eq!(rt; array.len(), 1);
    assert!(rt; array.value(0) == b"b".as_slice());
    drop(array);
    Ok(())
}

fn array_of_walked_slots(alloc: Global) -> Result<BinaryArray<i32>, Error> {
    let slots = slots(alloc)?;
    BinaryArray::from_iter(alloc, slots.into_iter())
}

#[test]
fn owned_slots_of_an_iterator_make_an_array(rt: HostRuntime) -> Result<(), Fail> {
    let array = array_of_walked_slots(rt.alloc())?;
    assert_eq!(rt; array.len(), 2);
    assert!(rt; array.is_null(1));
    drop(array);
    Ok(())
}

fn builder_of_bytes(alloc: Global) -> Result<MutableBinaryArray<i32>, Error> {
    let slots = slots(alloc)?;
    let builder = MutableBinaryArray::from(alloc, &slots);
    drop(slots);
    builder
}

#[test]
fn a_builder_keeps_its_first_byte_strings(rt: HostRuntime) -> Result<(), Fail> {
    let mut builder = builder_of_bytes(rt.alloc())?;
    if builder.len() == 2 {
        builder.truncate(1);
    }
    assert_eq!(rt; builder.len(), 1);
    assert!(rt; builder.values().as_slice() == b"a".as_slice());
    drop(builder);
    Ok(())
}

fn builder_of_texts(alloc: Global) -> Result<MutableUtf8Array<i32>, Error> {
    let slots = slots(alloc)?;
    let builder = MutableUtf8Array::from(alloc, &slots);
    drop(slots);
    builder
}

#[test]
fn a_builder_keeps_its_first_texts(rt: HostRuntime) -> Result<(), Fail> {
    let mut builder = builder_of_texts(rt.alloc())?;
    builder.truncate(0);
    assert_eq!(rt; builder.len(), 0);
    assert!(rt; builder.values().is_empty());
    drop(builder);
    Ok(())
}

fn values_of_bytes(alloc: Global) -> Result<MutableBinaryValuesArray<i32>, Error> {
    let values = values(alloc)?;
    let builder = MutableBinaryValuesArray::from_slice(alloc, &values);
    drop(values);
    builder
}

#[test]
fn a_builder_of_byte_strings_alone_is_cut(rt: HostRuntime) -> Result<(), Fail> {
    let mut builder = values_of_bytes(rt.alloc())?;
    assert_eq!(rt; builder.len(), 1);
    builder.truncate(0);
    assert_eq!(rt; builder.len(), 0);
    drop(builder);
    Ok(())
}

fn values_of_texts(alloc: Global) -> Result<MutableUtf8ValuesArray<i32>, Error> {
    let values = values(alloc)?;
    let builder = MutableUtf8ValuesArray::from_slice(alloc, &values);
    drop(values);
    builder
}

#[test]
fn a_builder_of_texts_alone_is_cut(rt: HostRuntime) -> Result<(), Fail> {
    let mut builder = values_of_texts(rt.alloc())?;
    assert_eq!(rt; builder.len(), 1);
    builder.truncate(0);
    assert_eq!(rt; builder.len(), 0);
    drop(builder);
    Ok(())
}
