use crate::cases::list_type;
use nested_arrays_nulls::arrays::{AnyArray, FixedSizeListArray};
use nested_arrays_nulls::columnar_memory::{DataType, Error, OffsetsBuffer};
use nested_arrays_nulls::flat::AnyPrimitive;
use nested_arrays_nulls::flat_arrays::PrimitiveArray;
use nested_arrays_nulls::generic::ListArray;
use nested_arrays_nulls::parts::FlatArray;
use std::alloc::Global;
use std::test::Fail;

/// The numbers 1 to 5.
fn numbers(alloc: Global) -> Result<Box<AnyArray>, Error> {
    let numbers = PrimitiveArray::from_slice(alloc, &[1i32, 2, 3, 4, 5])?;
    let flat = FlatArray::from(AnyPrimitive::from_array(numbers));
    Ok(Box::new(alloc, AnyArray::from(flat))?)
}

fn lists(alloc: Global, offsets: &[i32]) -> Result<ListArray<i32>, Error> {
    let offsets = OffsetsBuffer::try_from(Vec::from_slice(alloc, offsets)?)?;
    ListArray::try_new(list_type(alloc)?, offsets, numbers(alloc)?, None)
}

#[test]
fn a_cut_has_the_lists_between_its_offsets(rt: HostRuntime) -> Result<(), Fail> {
    let array = lists(rt.alloc(), &[0, 2, 2, 3, 5])?;
    assert_eq!(rt; array.len(), 4);
    let cut = array.sliced(2, 2);
    assert_eq!(rt; cut.len(), 2);
    assert!(rt; cut.offsets().as_slice() == [2i32, 3, 5].as_slice());
    assert_eq!(rt; cut.values().len(), 5);
    drop(cut);
    Ok(())
}

#[test]
fn an_offset_past_the_items_is_refused(rt: HostRuntime) -> Result<(), Fail> {
    let array = lists(rt.alloc(), &[0, 6]);
    assert!(rt; matches!(array, Err(Error::OutOfSpec(_))));
    drop(array);
    Ok(())
}

#[test]
fn another_width_is_given_back(rt: HostRuntime) -> Result<(), Fail> {
    let any = AnyArray::from(lists(rt.alloc(), &[0, 2])?);
    let left = ListArray::<i64>::try_from(any).err();
    assert!(rt; left.as_ref().is_some_and(|any| any.len() == 1));
    drop(left);
    Ok(())
}

/// Whether an array differs from the lists between other offsets.
fn differs(array: &ListArray<i32>, alloc: Global, offsets: &[i32]) -> Result<bool, Error> {
    let other = lists(alloc, offsets)?;
    let differs = *array != other;
    drop(other);
    Ok(differs)
}

#[test]
fn lists_are_equal_by_their_items(rt: HostRuntime) -> Result<(), Fail> {
    let array = lists(rt.alloc(), &[0, 2])?;
    let outcome = differs(&array, rt.alloc(), &[3, 5]);
    drop(array);
    assert!(rt; outcome?);
    Ok(())
}

fn is_of_lists(given: &DataType, alloc: Global) -> Result<bool, Error> {
    let lists = list_type(alloc)?;
    let is_of_lists = *given == lists;
    drop(lists);
    Ok(is_of_lists)
}

#[test]
fn lists_have_items_that_may_be_null(rt: HostRuntime) -> Result<(), Fail> {
    let lists = ListArray::<i32>::default_datatype(rt.alloc(), DataType::Int32)?;
    let outcome = is_of_lists(&lists, rt.alloc());
    drop(lists);
    assert!(rt; outcome?);
    Ok(())
}

#[test]
fn lists_of_one_size_have_items_that_may_be_null(rt: HostRuntime) -> Result<(), Fail> {
    let lists = FixedSizeListArray::default_datatype(rt.alloc(), DataType::Int32, 2)?;
    assert!(rt; matches!(lists, DataType::FixedSizeList(_, 2)));
    drop(lists);
    Ok(())
}

fn has_numbers(lists: &DataType) -> Result<bool, Error> {
    let item = ListArray::<i32>::try_get_child(lists)?;
    Ok(matches!(item.data_type, DataType::Int32))
}

#[test]
fn a_type_of_lists_has_a_field_of_items(rt: HostRuntime) -> Result<(), Fail> {
    let lists = list_type(rt.alloc())?;
    let outcome = has_numbers(&lists);
    drop(lists);
    assert!(rt; outcome?);
    Ok(())
}

fn has_no_items(data_type: &DataType) -> bool {
    let item = ListArray::<i32>::try_get_child(data_type);
    matches!(item, Err(Error::OutOfSpec(_)))
}

#[test]
fn a_type_of_numbers_has_no_items(rt: HostRuntime) -> Result<(), Fail> {
    let numbers = DataType::Int32;
    let outcome = has_no_items(&numbers);
    drop(numbers);
    assert!(rt; outcome);
    Ok(())
}
