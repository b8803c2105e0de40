//! Columns of builders that stand over one another: each call that takes memory finds it here.
use nested_arrays::columnar_memory::{DataType, Error, Offsets, Text};
use nested_arrays::flat_arrays::{
    MutableBinaryArray, MutableBooleanArray, MutablePrimitiveArray, MutableUtf8Array, Utf8Array,
};
use nested_arrays::{
    Array, Downcast, MutValues, MutableArray, MutableFixedSizeListArray, MutableListArray,
};
use std::alloc::Global;
use std::test::Fail;

/// How many slots a builder's array has behind a null more, and then, behind a count of owners, with two nulls.
fn frozen_twice<M: MutableArray>(builder: &mut M, alloc: Global) -> Result<(usize, usize), Error> {
    builder.reserve(2)?;
    builder.push_null()?;
    let array = builder.as_box(alloc)?;
    builder.push_null()?;
    builder.push_null()?;
    let shared = builder.as_arc(alloc)?;
    Ok((array.len(), shared.len()))
}

#[test]
fn a_builder_of_numbers_is_frozen_as_a_column(rt: HostRuntime) -> Result<(), Fail> {
    let mut numbers = MutablePrimitiveArray::<u16>::from_slice(rt.alloc(), &[7, 8])?;
    let found = frozen_twice(&mut numbers, rt.alloc());
    drop(numbers);
    assert_eq!(rt; found?, (3, 2));
    Ok(())
}

#[test]
fn a_builder_of_booleans_is_frozen_as_a_column(rt: HostRuntime) -> Result<(), Fail> {
    let mut booleans = MutableBooleanArray::from_slice(rt.alloc(), &[true])?;
    let found = frozen_twice(&mut booleans, rt.alloc());
    drop(booleans);
    assert_eq!(rt; found?, (2, 2));
    Ok(())
}

#[test]
fn a_builder_of_texts_is_frozen_as_a_column(rt: HostRuntime) -> Result<(), Fail> {
    let mut texts = MutableUtf8Array::<i32>::from_slice(rt.alloc(), &["a", "bc"])?;
    let found = frozen_twice(&mut texts, rt.alloc());
    drop(texts);
    assert_eq!(rt; found?, (3, 2));
    Ok(())
}

#[test]
fn a_builder_of_byte_strings_is_frozen_as_a_column(rt: HostRuntime) -> Result<(), Fail> {
    let mut strings = MutableBinaryArray::<i64>::new(rt.alloc())?;
    let found = frozen_twice(&mut strings, rt.alloc());
    drop(strings);
    assert_eq!(rt; found?, (1, 2));
    Ok(())
}

/// A builder of the text that stands behind the first byte of two.
fn second_text(alloc: Global) -> Result<MutableUtf8Array<i32>, Error> {
    let (mut places, mut bytes) = (Vec::new(alloc), Vec::new(alloc));
    places.push(1)?;
    places.push(2)?;
    bytes.extend_from_slice(b"ab")?;
    MutableUtf8Array::try_new(DataType::Utf8, Offsets::try_from(places)?, bytes, None)
}

/// How many bytes the column of that text has, and whether it is that text.
fn frozen_text(alloc: Global) -> Result<Option<(usize, bool)>, Error> {
    let array = second_text(alloc)?.as_box(alloc)?;
    let Some(texts) = Utf8Array::<i32>::downcast_ref(&array) else {
        return Ok(None);
    };
    Ok(Some((texts.values().len(), texts.get(0) == Some("b"))))
}

#[test]
fn offsets_that_begin_elsewhere_begin_at_0_in_a_column(rt: HostRuntime) -> Result<(), Fail> {
    assert_eq!(rt; frozen_text(rt.alloc())?, Some((1, true)));
    Ok(())
}

/// Pushes a list of a text and a null.
fn push_names(lists: &mut MutableListArray<i32, MutableUtf8Array<i32>>) -> Result<(), Error> {
    lists.mut_values().push(Some("a"))?;
    lists.mut_values().push(None)?;
    lists.try_push_valid()
}

/// How many lists of texts there are, and how many are null.
fn lists_of_names(alloc: Global) -> Result<(usize, usize), Error> {
    let texts = MutableUtf8Array::<i32>::new(alloc)?;
    let mut lists: MutableListArray<i32, MutableUtf8Array<i32>> =
        MutableListArray::new_with_capacity(alloc, texts, 1)?;
    push_names(&mut lists)?;
    lists.push_null()?;
    let array = lists.freeze(alloc)?;
    Ok((array.len(), array.null_count()))
}

#[test]
fn lists_of_texts_are_built(rt: HostRuntime) -> Result<(), Fail> {
    assert_eq!(rt; lists_of_names(rt.alloc())?, (2, 1));
    Ok(())
}

/// Pushes a pair of a number and a null.
fn push_pair(
    pairs: &mut MutableFixedSizeListArray<MutablePrimitiveArray<i32>>,
) -> Result<(), Error> {
    pairs.mut_values().push(Some(1))?;
    pairs.mut_values().push(None)?;
    pairs.try_push_valid()
}

/// A builder of pairs of numbers, of which one was closed.
fn pairs(alloc: Global) -> Result<MutableFixedSizeListArray<MutablePrimitiveArray<i32>>, Error> {
    let numbers = MutablePrimitiveArray::<i32>::new(alloc);
    let mut pairs = MutableFixedSizeListArray::new(alloc, numbers, 2)?;
    push_pair(&mut pairs)?;
    Ok(pairs)
}

#[test]
fn lists_of_one_size_are_frozen_as_columns(rt: HostRuntime) -> Result<(), Fail> {
    let mut pairs = pairs(rt.alloc())?;
    let found = frozen_twice(&mut pairs, rt.alloc());
    drop(pairs);
    assert_eq!(rt; found?, (2, 2));
    Ok(())
}

/// How many lists the array of a pair has, how many of them are null, and of which size they are.
fn frozen_pair(alloc: Global) -> Result<(usize, usize, usize), Error> {
    let array = pairs(alloc)?.freeze(alloc)?;
    Ok((array.len(), array.null_count(), array.size()))
}

#[test]
fn lists_of_one_size_are_frozen(rt: HostRuntime) -> Result<(), Fail> {
    assert_eq!(rt; frozen_pair(rt.alloc())?, (1, 0, 2));
    Ok(())
}

/// Whether a list of one item is refused, how many items there are then, and how many lists with one item more.
fn refuses_one(
    pairs: &mut MutableFixedSizeListArray<MutablePrimitiveArray<i32>>,
) -> Result<(bool, usize, usize), Error> {
    pairs.mut_values().push(Some(3))?;
    let is_refused = matches!(pairs.try_push_valid(), Err(Error::InvalidArgumentError(_)));
    let items = pairs.values().len();
    pairs.mut_values().push(Some(4))?;
    pairs.try_push_valid()?;
    Ok((is_refused, items, pairs.len()))
}

#[test]
fn a_list_of_another_size_is_refused(rt: HostRuntime) -> Result<(), Fail> {
    let mut pairs = pairs(rt.alloc())?;
    let found = refuses_one(&mut pairs);
    drop(pairs);
    assert_eq!(rt; found?, (true, 3, 2));
    Ok(())
}

/// A builder of named pairs of booleans that are not null.
fn named_pairs(alloc: Global) -> Result<MutableFixedSizeListArray<MutableBooleanArray>, Error> {
    let booleans = MutableBooleanArray::new(alloc);
    let name = Text::from_str(alloc, "side")?;
    MutableFixedSizeListArray::new_with_field(alloc, booleans, name, false, 2)
}

#[test]
fn items_of_one_size_have_a_name(rt: HostRuntime) -> Result<(), Fail> {
    let mut pairs = named_pairs(rt.alloc())?;
    pairs.mut_values().extend_constant(4, Some(true))?;
    let array = pairs.as_box(rt.alloc())?;
    assert_eq!(rt; (array.len(), array.null_count()), (2, 0));
    Ok(())
}

/// Pushes a list of one boolean.
fn push_flag(lists: &mut MutableListArray<i64, MutableBooleanArray>) -> Result<(), Error> {
    lists.mut_values().push(Some(true))?;
    lists.try_push_valid()
}

/// A builder of lists of booleans, of which one was closed.
fn flags(alloc: Global) -> Result<MutableListArray<i64, MutableBooleanArray>, Error> {
    let booleans = MutableBooleanArray::new(alloc);
    let mut lists: MutableListArray<i64, MutableBooleanArray> = MutableListArray::new_with_capacity(
        alloc, booleans, 1,
    )?;
    push_flag(&mut lists)?;
    Ok(lists)
}

#[test]
fn lists_are_frozen_as_columns(rt: HostRuntime) -> Result<(), Fail> {
    let mut lists = flags(rt.alloc())?;
    let found = frozen_twice(&mut lists, rt.alloc());
    drop(lists);
    assert_eq!(rt; found?, (2, 2));
    Ok(())
}

#[test]
fn lists_are_frozen(rt: HostRuntime) -> Result<(), Fail> {
    let array = flags(rt.alloc())?.freeze(rt.alloc())?;
    let count = array.len();
    drop(array);
    assert_eq!(rt; count, 1);
    Ok(())
}
