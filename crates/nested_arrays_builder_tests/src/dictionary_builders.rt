//! Builders of dictionaries over a builder of their values.
use crate::generic_lists::keep;
use columnar_memory_types::{Boxed, DataType, Error, IntegerType};
use nested_arrays_dictionary_builders::cells::taken::MutableArray;
use nested_arrays_dictionary_builders::flat_arrays::{MutablePrimitiveArray, PrimitiveArray};
use nested_arrays_dictionary_builders::nulls::Downcast;
use nested_arrays_dictionary_builders::nulls::arrays::AnyArray;
use nested_arrays_dictionary_builders::nulls::generic::{DictionaryArray, ListArray};
use nested_arrays_dictionary_builders::{
    MutValues, MutableDictionaryArray, MutableFixedSizeBinaryArray, MutableListArray, TryExtend,
    TryPush,
};
use std::alloc::Global;
use std::test::Fail;

/// A builder of numbers by keys of 8 bits.
type Numbers = MutableDictionaryArray<i8, MutablePrimitiveArray<i32>>;

fn new_numbers(alloc: Global) -> Result<Numbers, Error> {
    MutableDictionaryArray::new(alloc, MutablePrimitiveArray::new(alloc))
}

/// Whether an array is of these numbers.
fn are_numbers(array: &AnyArray, numbers: &[i32]) -> bool {
    match PrimitiveArray::<i32>::downcast_ref(array) {
        Some(found) => found.values().as_slice() == numbers,
        None => false,
    }
}

/// Whether a dictionary has these keys and these numbers.
fn stores(array: &DictionaryArray<i8>, keys: &[i8], numbers: &[i32]) -> bool {
    array.keys().values().as_slice() == keys && are_numbers(array.values(), numbers)
}

/// Whether an array is a dictionary of these keys and these numbers.
fn holds(array: AnyArray, keys: &[i8], numbers: &[i32]) -> bool {
    match DictionaryArray::<i8>::try_from(array) {
        Ok(found) => {
            let same = stores(&found, keys, numbers);
            drop(found);
            same
        }
        Err(other) => {
            drop(other);
            false
        }
    }
}

/// Pushes two numbers, and another one in place of the second.
fn push_and_replace(builder: &mut Numbers) -> Result<(), Fail> {
    builder.try_push(&7)?;
    builder.try_push(&8)?;
    keep(builder, 1)?;
    builder.try_push(&9)?;
    Ok(())
}

/// Whether the dictionary of a builder has these keys and these numbers.
fn freezes_to(
    builder: Numbers,
    alloc: Global,
    keys: &[i8],
    numbers: &[i32],
) -> Result<bool, Error> {
    let array = builder.freeze(alloc)?;
    let found = stores(&array, keys, numbers);
    drop(array);
    Ok(found)
}

#[test]
fn a_cut_forgets_values_and_keys(rt: HostRuntime) -> Result<(), Fail> {
    let mut builder = new_numbers(rt.alloc())?;
    let pushed = push_and_replace(&mut builder);
    let found = freezes_to(builder, rt.alloc(), &[0, 1], &[7, 9]);
    pushed?;
    assert!(rt; found?);
    Ok(())
}

/// Pushes the numbers below another.
fn push_below(builder: &mut Numbers, end: i32) -> Result<(), Error> {
    for number in 0..end {
        builder.try_push(&number)?;
    }
    Ok(())
}

/// Whether the 129th number is refused, and how many slots and values there are then.
fn use_up(builder: &mut Numbers) -> Result<(bool, usize, usize), Error> {
    push_below(builder, 128)?;
    let is_refused = matches!(builder.try_push(&128), Err(Error::Overflow));
    Ok((is_refused, builder.len(), builder.values().len()))
}

/// The last key of the dictionary of a builder, and how many slots it has.
fn last_key(builder: Numbers, alloc: Global) -> Result<(Option<i8>, usize), Error> {
    let array = builder.freeze(alloc)?;
    let last = array.keys().values().as_slice().last().copied();
    let count = array.len();
    drop(array);
    Ok((last, count))
}

#[test]
fn keys_that_are_used_up_refuse_a_new_value_alone(rt: HostRuntime) -> Result<(), Fail> {
    let mut builder = new_numbers(rt.alloc())?;
    let used = use_up(&mut builder);
    let again = builder.try_push(&0);
    let last = last_key(builder, rt.alloc());
    again?;
    assert_eq!(rt; used?, (true, 128, 128));
    assert_eq!(rt; last?, (Some(0), 129));
    Ok(())
}

/// Whether an array of two numbers is frozen, and whether one of the second number alone then.
fn freeze_twice(builder: &mut Numbers, alloc: Global) -> Result<(bool, bool), Error> {
    push_below(builder, 2)?;
    let first = holds(builder.as_box(alloc)?, &[0, 1], &[0, 1]);
    builder.try_push(&1)?;
    let second = holds(builder.as_box(alloc)?, &[0], &[1]);
    Ok((first, second))
}

#[test]
fn a_builder_that_was_frozen_begins_anew(rt: HostRuntime) -> Result<(), Fail> {
    let mut builder = new_numbers(rt.alloc())?;
    let found = freeze_twice(&mut builder, rt.alloc());
    drop(builder);
    assert_eq!(rt; found?, (true, true));
    Ok(())
}

/// How many slots and values there are with three items of which two are the same.
fn extend(builder: &mut Numbers) -> Result<(usize, usize), Error> {
    builder.try_extend(&[5, 6, 5])?;
    Ok((builder.len(), builder.values().len()))
}

#[test]
fn several_items_are_pushed(rt: HostRuntime) -> Result<(), Fail> {
    let mut builder = new_numbers(rt.alloc())?;
    let counts = extend(&mut builder);
    let found = freezes_to(builder, rt.alloc(), &[0, 1, 0], &[5, 6]);
    assert_eq!(rt; counts?, (3, 2));
    assert!(rt; found?);
    Ok(())
}

/// Pushes a number, a null and another number.
fn push_with_null(builder: &mut Numbers) -> Result<(), Error> {
    builder.try_push(&5)?;
    builder.push_null()?;
    builder.try_push(&6)
}

/// The keys of the two numbers, of 0, which stands under the null, and of a number that is not there.
fn keys_of(builder: &Numbers) -> (Option<i8>, Option<i8>, Option<i8>, Option<i8>) {
    (
        builder.key_of(&5),
        builder.key_of(&6),
        builder.key_of(&0),
        builder.key_of(&7),
    )
}

#[test]
fn a_value_has_a_key(rt: HostRuntime) -> Result<(), Fail> {
    let mut builder = new_numbers(rt.alloc())?;
    let pushed = push_with_null(&mut builder);
    let keys = keys_of(&builder);
    let counts = (builder.len(), builder.values().len());
    drop(builder);
    pushed?;
    assert_eq!(rt; keys, (Some(0), Some(1), None, None));
    assert_eq!(rt; counts, (3, 2));
    Ok(())
}

/// The first three keys of a builder, as its array of them says.
fn own_keys(
    builder: &Numbers,
    alloc: Global,
) -> Result<(usize, Option<i8>, Option<i8>, Option<i8>), Error> {
    let keys = builder.keys(alloc)?;
    let found = (keys.len(), keys.get(0), keys.get(1), keys.get(2));
    drop(keys);
    Ok(found)
}

#[test]
fn keys_are_an_array_of_their_own(rt: HostRuntime) -> Result<(), Fail> {
    let mut builder = new_numbers(rt.alloc())?;
    let pushed = push_with_null(&mut builder);
    let keys = own_keys(&builder, rt.alloc());
    drop(builder);
    pushed?;
    assert_eq!(rt; keys?, (3, Some(0), None, Some(1)));
    Ok(())
}

/// What a call to begin a builder of a data type over numbers answers, and whether the builder has the data type.
fn answer(alloc: Global, data_type: &DataType, values: &[i32]) -> Result<u8, Error> {
    let values = MutablePrimitiveArray::from_slice(alloc, values)?;
    let begun = Numbers::try_new(alloc, data_type.clone()?, values);
    let found = match &begun {
        Ok(builder) if builder.data_type() == data_type => 0,
        Ok(_) => 1,
        Err(Error::OutOfSpec(_)) => 2,
        Err(_) => 3,
    };
    drop(begun);
    Ok(found)
}

fn keyed(
    alloc: Global,
    key: IntegerType,
    value: DataType,
    is_ordered: bool,
) -> Result<DataType, Error> {
    Ok(DataType::Dictionary(key, Boxed::new(alloc, value)?, is_ordered))
}

/// What a call to begin a builder of a type of dictionaries over numbers answers.
fn answer_to(
    alloc: Global,
    key: IntegerType,
    value: DataType,
    is_ordered: bool,
    values: &[i32],
) -> Result<u8, Error> {
    let data_type = keyed(alloc, key, value, is_ordered)?;
    answer(alloc, &data_type, values)
}

#[test]
fn a_builder_is_begun_of_its_own_type(rt: HostRuntime) -> Result<(), Fail> {
    let ordered = answer_to(rt.alloc(), IntegerType::Int8, DataType::Int32, true, &[])?;
    let plain = answer_to(rt.alloc(), IntegerType::Int8, DataType::Int32, false, &[])?;
    assert_eq!(rt; (ordered, plain), (0, 0));
    Ok(())
}

#[test]
fn a_builder_is_begun_of_no_other_type_nor_over_values(rt: HostRuntime) -> Result<(), Fail> {
    let keys = answer_to(rt.alloc(), IntegerType::Int16, DataType::Int32, false, &[])?;
    let values = answer_to(rt.alloc(), IntegerType::Int8, DataType::Int64, false, &[])?;
    let plain = answer(rt.alloc(), &DataType::Int32, &[])?;
    let filled = answer_to(rt.alloc(), IntegerType::Int8, DataType::Int32, false, &[1])?;
    assert_eq!(rt; (keys, values, plain, filled), (2, 2, 2, 2));
    Ok(())
}

/// A builder of byte strings of two bytes by keys of 32 bits.
type Strings = MutableDictionaryArray<i32, MutableFixedSizeBinaryArray>;

fn new_strings(alloc: Global) -> Result<Strings, Error> {
    MutableDictionaryArray::new(alloc, MutableFixedSizeBinaryArray::new(alloc, 2))
}

fn push_bytes(builder: &mut Strings, alloc: Global, bytes: &[u8]) -> Result<(), Error> {
    let bytes = Vec::from_slice(alloc, bytes)?;
    builder.try_push(&bytes)
}

/// Whether three bytes are refused behind two pushes of two, and how many slots there are then.
fn refuse_three(builder: &mut Strings, alloc: Global) -> Result<(bool, usize), Error> {
    push_bytes(builder, alloc, &[1, 2])?;
    push_bytes(builder, alloc, &[1, 2])?;
    let refused = push_bytes(builder, alloc, &[1, 2, 3]);
    Ok((
        matches!(refused, Err(Error::InvalidArgumentError(_))),
        builder.len(),
    ))
}

/// Whether a builder has these keys and these bytes as its values.
fn has_strings(
    builder: &Strings,
    alloc: Global,
    keys: &[i32],
    bytes: &[u8],
) -> Result<bool, Error> {
    let own = builder.keys(alloc)?;
    let same = own.values().as_slice() == keys && builder.values().values() == bytes;
    drop(own);
    Ok(same)
}

#[test]
fn a_refused_item_changes_nothing(rt: HostRuntime) -> Result<(), Fail> {
    let mut builder = new_strings(rt.alloc())?;
    let refused = refuse_three(&mut builder, rt.alloc());
    let kept = has_strings(&builder, rt.alloc(), &[0, 0], &[1, 2]);
    drop(builder);
    assert_eq!(rt; refused?, (true, 2));
    assert!(rt; kept?);
    Ok(())
}

/// Pushes a list of items.
fn push_list(lists: &mut MutableListArray<i32, Numbers>, items: &[i32]) -> Result<(), Error> {
    lists.mut_values().try_extend(items)?;
    lists.try_push_valid()
}

/// Pushes two lists.
fn push_two(lists: &mut MutableListArray<i32, Numbers>) -> Result<(), Error> {
    push_list(lists, &[5, 6])?;
    push_list(lists, &[6])
}

/// A builder of lists of numbers by keys.
fn new_lists(alloc: Global) -> Result<MutableListArray<i32, Numbers>, Error> {
    MutableListArray::new_with_capacity(alloc, new_numbers(alloc)?, 2)
}

/// Whether lists of numbers by keys have these keys and these numbers.
fn has_items(lists: &ListArray<i32>, keys: &[i8], numbers: &[i32]) -> Result<bool, Error> {
    let items = lists.values().clone()?;
    Ok(holds(items, keys, numbers))
}

#[test]
fn dictionaries_stand_in_lists(rt: HostRuntime) -> Result<(), Fail> {
    let mut lists = new_lists(rt.alloc())?;
    let pushed = push_two(&mut lists);
    let array = lists.freeze(rt.alloc());
    pushed?;
    let array = array?;
    let count = array.len();
    let found = has_items(&array, &[0, 1, 1], &[5, 6]);
    drop(array);
    assert_eq!(rt; count, 2);
    assert!(rt; found?);
    Ok(())
}
