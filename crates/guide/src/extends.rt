//! Builders that take the slots of another of their kind.
use nested_arrays::columnar_memory::Error;
use nested_arrays::flat_arrays::{
    MutableBinaryArray, MutableBooleanArray, MutablePrimitiveArray, MutableUtf8Array,
};
use nested_arrays::{
    MutValues, MutableFixedSizeBinaryArray, MutableFixedSizeListArray, MutableListArray,
    TryExtendFromSelf,
};
use std::alloc::Global;
use std::test::Fail;

/// Pushes the slots of a builder behind those of another.
fn extend<M: TryExtendFromSelf>(slots: &mut M, more: M) -> Result<(), Error> {
    let outcome = slots.try_extend_from_self(&more);
    drop(more);
    outcome
}

#[test]
fn numbers_stand_behind_others(rt: HostRuntime) -> Result<(), Fail> {
    let mut numbers = MutablePrimitiveArray::<i32>::from_slice(rt.alloc(), &[1])?;
    let more = MutablePrimitiveArray::<i32>::from(rt.alloc(), &[None, Some(2)])?;
    let outcome = extend(&mut numbers, more);
    let array = numbers.freeze()?;
    let found = (array.get(0), array.get(1), array.get(2), array.len());
    drop(array);
    outcome?;
    assert_eq!(rt; found, (Some(1), None, Some(2), 3));
    Ok(())
}

#[test]
fn booleans_stand_behind_others(rt: HostRuntime) -> Result<(), Fail> {
    let mut booleans = MutableBooleanArray::from(rt.alloc(), &[None, Some(true)])?;
    let more = MutableBooleanArray::from_slice(rt.alloc(), &[false])?;
    let outcome = extend(&mut booleans, more);
    let array = booleans.freeze()?;
    let found = (array.get(0), array.get(1), array.get(2), array.len());
    drop(array);
    outcome?;
    assert_eq!(rt; found, (None, Some(true), Some(false), 3));
    Ok(())
}

/// Whether texts are joined, the null among them.
fn joins_texts(
    mut texts: MutableUtf8Array<i64>,
    more: MutableUtf8Array<i64>,
) -> Result<bool, Error> {
    let outcome = extend(&mut texts, more);
    let array = texts.freeze()?;
    let same = array.get(0) == Some("ab") && array.get(2) == Some("c") && array.get(1).is_none();
    drop(array);
    outcome?;
    Ok(same)
}

#[test]
fn texts_stand_behind_others(rt: HostRuntime) -> Result<(), Fail> {
    let texts = MutableUtf8Array::<i64>::from_slice(rt.alloc(), &["ab"])?;
    let more = MutableUtf8Array::<i64>::from(rt.alloc(), &[None, Some("c")])?;
    assert!(rt; joins_texts(texts, more)?);
    Ok(())
}

/// Whether byte strings are joined.
fn joins_strings(
    mut strings: MutableBinaryArray<i32>,
    more: MutableBinaryArray<i32>,
) -> Result<bool, Error> {
    let outcome = extend(&mut strings, more);
    let array = strings.freeze()?;
    let same = array.get(0).is_none() && array.get(1) == Some(b"ab".as_slice());
    drop(array);
    outcome?;
    Ok(same)
}

#[test]
fn byte_strings_stand_behind_others(rt: HostRuntime) -> Result<(), Fail> {
    let strings = MutableBinaryArray::<i32>::from::<&[u8]>(rt.alloc(), &[None])?;
    let more = MutableBinaryArray::<i32>::from_slice(rt.alloc(), &["ab".as_bytes()])?;
    assert!(rt; joins_strings(strings, more)?);
    Ok(())
}

/// A null and a byte string of its size.
fn null_and(alloc: Global, bytes: &[u8]) -> Result<MutableFixedSizeBinaryArray, Error> {
    if bytes.is_empty() {
        return Err(Error::InvalidArgumentError("a string without bytes"));
    }
    let mut strings = MutableFixedSizeBinaryArray::new(alloc, bytes.len());
    strings.push_null()?;
    strings.try_push(Some(bytes))?;
    Ok(strings)
}

#[test]
fn strings_of_one_size_stand_behind_others(rt: HostRuntime) -> Result<(), Fail> {
    let mut strings = null_and(rt.alloc(), b"ab")?;
    let more = null_and(rt.alloc(), b"cd")?;
    let outcome = extend(&mut strings, more);
    let same = strings.values() == b"\0\0ab\0\0cd".as_slice() && strings.get(2).is_none();
    let count = strings.len();
    drop(strings);
    outcome?;
    assert!(rt; same);
    assert_eq!(rt; count, 4);
    Ok(())
}

#[test]
fn strings_of_another_size_are_refused(rt: HostRuntime) -> Result<(), Fail> {
    let mut strings = null_and(rt.alloc(), b"ab")?;
    let more = null_and(rt.alloc(), b"cde")?;
    let outcome = extend(&mut strings, more);
    let count = strings.len();
    drop(strings);
    assert!(rt; matches!(outcome, Err(Error::InvalidArgumentError(_))));
    assert_eq!(rt; count, 2);
    Ok(())
}

/// A builder of lists of numbers.
type Lists = MutableListArray<i32, MutablePrimitiveArray<i32>>;

/// A list of one number.
fn list_of(alloc: Global, number: i32) -> Result<Lists, Error> {
    let mut lists = Lists::new_with_capacity(alloc, MutablePrimitiveArray::new(alloc), 1)?;
    lists.mut_values().push(Some(number))?;
    lists.try_push_valid()?;
    Ok(lists)
}

#[test]
fn lists_stand_behind_others(rt: HostRuntime) -> Result<(), Fail> {
    let mut lists = list_of(rt.alloc(), 1)?;
    let more = list_of(rt.alloc(), 2)?;
    let outcome = extend(&mut lists, more);
    let found = (
        lists.len(),
        lists.values().values().as_slice() == [1, 2].as_slice(),
    );
    drop(lists);
    outcome?;
    assert_eq!(rt; found, (2, true));
    Ok(())
}

#[test]
fn items_of_no_list_are_refused(rt: HostRuntime) -> Result<(), Fail> {
    let mut lists = list_of(rt.alloc(), 1)?;
    lists.mut_values().push(Some(2))?;
    let more = list_of(rt.alloc(), 3)?;
    let outcome = extend(&mut lists, more);
    let found = (lists.len(), lists.values().len());
    drop(lists);
    assert!(rt; matches!(outcome, Err(Error::InvalidArgumentError(_))));
    assert_eq!(rt; found, (1, 2));
    Ok(())
}

/// A builder of lists of one size over numbers.
type Sized = MutableFixedSizeListArray<MutablePrimitiveArray<i32>>;

/// No lists of two numbers.
fn no_pairs(alloc: Global) -> Result<Sized, Error> {
    Sized::new(alloc, MutablePrimitiveArray::new(alloc), 2)
}

/// Two numbers, of which no list was closed yet.
fn open_pair(alloc: Global, first: i32, second: i32) -> Result<Sized, Error> {
    let mut pairs = no_pairs(alloc)?;
    pairs.mut_values().push(Some(first))?;
    pairs.mut_values().push(Some(second))?;
    Ok(pairs)
}

#[test]
fn lists_of_one_size_stand_behind_others(rt: HostRuntime) -> Result<(), Fail> {
    let mut pairs = open_pair(rt.alloc(), 1, 2)?;
    pairs.try_push_valid()?;
    let more = open_pair(rt.alloc(), 3, 4)?;
    let outcome = extend(&mut pairs, more);
    let found = (
        pairs.len(),
        pairs.values().values().as_slice() == [1, 2, 3, 4].as_slice(),
    );
    drop(pairs);
    outcome?;
    assert_eq!(rt; found, (2, true));
    Ok(())
}

#[test]
fn a_null_stands_behind_a_list_that_was_not_closed(rt: HostRuntime) -> Result<(), Fail> {
    let mut pairs = open_pair(rt.alloc(), 1, 2)?;
    let mut more = no_pairs(rt.alloc())?;
    more.push_null()?;
    let outcome = extend(&mut pairs, more);
    let count = pairs.len();
    let same = count == 2 && pairs.is_valid(0) && !pairs.is_valid(1);
    drop(pairs);
    outcome?;
    assert!(rt; same);
    Ok(())
}

#[test]
fn lists_of_another_size_are_refused(rt: HostRuntime) -> Result<(), Fail> {
    let mut pairs = open_pair(rt.alloc(), 1, 2)?;
    let more = Sized::new(rt.alloc(), MutablePrimitiveArray::new(rt.alloc()), 3)?;
    let outcome = extend(&mut pairs, more);
    let count = pairs.len();
    drop(pairs);
    assert!(rt; matches!(outcome, Err(Error::InvalidArgumentError(_))));
    assert_eq!(rt; count, 1);
    Ok(())
}
