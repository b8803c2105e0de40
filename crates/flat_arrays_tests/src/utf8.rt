use crate::cases::{bytes_of, offsets_of};
use columnar_memory_core::{DataType, Error};
use flat_arrays::Utf8Array;
use std::alloc::{AllocError, Global};
use std::test::Fail;

const ACUTE_GRAVE: [u8; 4] = [0xc3, 0xa9, 0xc3, 0xa8];

fn texts(alloc: Global, offsets: &[i32], bytes: &[u8]) -> Result<Utf8Array<i32>, Error> {
    let offsets = offsets_of(alloc, offsets)?;
    let bytes = bytes_of(alloc, bytes)?;
    Utf8Array::try_new(DataType::Utf8, offsets, bytes, None)
}

#[test]
fn a_text_ends_between_characters(rt: HostRuntime) -> Result<(), Fail> {
    let split = texts(rt.alloc(), &[0, 1, 4], &ACUTE_GRAVE);
    assert!(rt; matches!(split, Err(Error::OutOfSpec(_))));
    drop(split);
    Ok(())
}

#[test]
fn texts_are_tested_one_by_one(rt: HostRuntime) -> Result<(), Fail> {
    let array = texts(rt.alloc(), &[0, 2, 4], &ACUTE_GRAVE)?;
    assert!(rt; array.get(0) == Some("é"));
    assert!(rt; array.get(1) == Some("è"));
    assert!(rt; array.get(2).is_none());
    drop(array);
    Ok(())
}

#[test]
fn bytes_around_the_texts_do_not_count(rt: HostRuntime) -> Result<(), Fail> {
    let array = texts(rt.alloc(), &[1, 3], &[0xff, 0xc3, 0xa9, 0xff])?;
    assert!(rt; array.get(0) == Some("é"));
    assert!(rt; array.get(1).is_none());
    drop(array);
    Ok(())
}

#[test]
fn a_new_array_has_no_slot(rt: HostRuntime) -> Result<(), Fail> {
    let array: Utf8Array<i64> = Utf8Array::new_empty(rt.alloc(), DataType::LargeUtf8)?;
    assert!(rt; array.is_empty());
    drop(array);
    Ok(())
}

#[test]
fn an_array_of_nulls_has_no_value(rt: HostRuntime) -> Result<(), Fail> {
    let array: Utf8Array<i32> = Utf8Array::new_null(rt.alloc(), DataType::Utf8, 2)?;
    assert_eq!(rt; array.null_count(), 2);
    drop(array);
    Ok(())
}

fn two_values(alloc: Global) -> Result<Utf8Array<i32>, Error> {
    Utf8Array::from_slice(alloc, &["a", "bc"])
}

#[test]
fn values_are_copied(rt: HostRuntime) -> Result<(), Fail> {
    let array = two_values(rt.alloc())?;
    assert_eq!(rt; array.len(), 2);
    assert!(rt; array.value(1) == "bc");
    drop(array);
    Ok(())
}

fn is_cloned(array: &Utf8Array<i32>) -> Result<bool, AllocError> {
    let same = array.clone()?;
    let is_same = same == *array;
    drop(same);
    Ok(is_same)
}

#[test]
fn a_clone_is_equal(rt: HostRuntime) -> Result<(), Fail> {
    let array = two_values(rt.alloc())?;
    let is_cloned = is_cloned(&array);
    drop(array);
    assert!(rt; is_cloned?);
    Ok(())
}

#[test]
fn slots_are_gathered(rt: HostRuntime) -> Result<(), Fail> {
    let array: Utf8Array<i32> = Utf8Array::from(rt.alloc(), &[Some("a"), None])?;
    assert_eq!(rt; array.len(), 2);
    assert!(rt; array.get(0) == Some("a"));
    assert!(rt; array.is_null(1));
    drop(array);
    Ok(())
}
