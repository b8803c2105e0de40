//! Builders of nulls alone.
use columnar_memory_types::{DataType, Error};
use nested_arrays_dictionary_builders::cells::taken::MutableArray;
use nested_arrays_dictionary_builders::nulls::Downcast;
use nested_arrays_dictionary_builders::nulls::arrays::AnyArray;
use nested_arrays_dictionary_builders::nulls::flat::NullArray;
use nested_arrays_dictionary_builders::{MutValues, MutableListArray, MutableNullArray};
use std::alloc::Global;
use std::test::Fail;

/// How many nulls an array of nulls alone has.
fn count_of(array: &AnyArray) -> Option<usize> {
    Some(NullArray::downcast_ref(array)?.len())
}

/// How many nulls a builder has, how many with one more, how many its array has, and how many are left.
fn counts(
    nulls: &mut MutableNullArray,
    alloc: Global,
) -> Result<(usize, usize, Option<usize>, usize), Error> {
    let first = nulls.len();
    nulls.push_null()?;
    let more = nulls.len();
    let array = nulls.as_box(alloc)?;
    let found = count_of(&array);
    drop(array);
    Ok((first, more, found, nulls.len()))
}

#[test]
fn nulls_are_counted(rt: HostRuntime) -> Result<(), Fail> {
    let mut nulls = MutableNullArray::try_new(DataType::Null, 3)?;
    let found = counts(&mut nulls, rt.alloc());
    drop(nulls);
    assert_eq!(rt; found?, (3, 4, Some(4), 0));
    Ok(())
}

/// What a call to begin so many nulls of a data type answers.
fn answer(data_type: DataType, count: usize) -> u8 {
    let begun = MutableNullArray::try_new(data_type, count);
    let found = match &begun {
        Ok(_) => 0,
        Err(Error::OutOfSpec(_)) => 1,
        Err(Error::Overflow) => 2,
        Err(_) => 3,
    };
    drop(begun);
    found
}

#[test]
fn nulls_of_another_type_or_too_many_are_refused(rt: HostRuntime) -> Result<(), Fail> {
    assert_eq!(rt; answer(DataType::Int32, 3), 1);
    assert_eq!(rt; answer(DataType::Null, 9_223_372_036_854_775_807), 0);
    assert_eq!(rt; answer(DataType::Null, 9_223_372_036_854_775_808), 2);
    Ok(())
}

/// Pushes a list of two nulls.
fn push_pair(lists: &mut MutableListArray<i32, MutableNullArray>) -> Result<(), Error> {
    lists.mut_values().push_null()?;
    lists.mut_values().push_null()?;
    lists.try_push_valid()
}

/// A builder of lists of nulls.
fn new_lists(alloc: Global) -> Result<MutableListArray<i32, MutableNullArray>, Error> {
    let nulls = MutableNullArray::try_new(DataType::Null, 0)?;
    MutableListArray::new_with_capacity(alloc, nulls, 1)
}

#[test]
fn nulls_stand_in_lists(rt: HostRuntime) -> Result<(), Fail> {
    let mut lists = new_lists(rt.alloc())?;
    let pushed = push_pair(&mut lists);
    let array = lists.freeze(rt.alloc());
    pushed?;
    let array = array?;
    let found = (array.len(), array.null_count(), count_of(array.values()));
    drop(array);
    assert_eq!(rt; found, (1, 0, Some(2)));
    Ok(())
}
