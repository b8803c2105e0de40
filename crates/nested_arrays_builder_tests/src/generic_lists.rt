use columnar_memory_types::{DataType, Error};
use nested_arrays_dictionary_builders::cells::builders::AnyMutableArray;
use nested_arrays_dictionary_builders::cells::parts::AnyScalar;
use nested_arrays_dictionary_builders::cells::taken::MutableArray;
use nested_arrays_dictionary_builders::nulls::arrays::{AnyArray, ListNode, Node};
use nested_arrays_dictionary_builders::nulls::parts::ListOffsets;
use nested_arrays_dictionary_builders::{MutValues, MutableListArray};
use std::alloc::Global;
use std::test::Fail;

/// A builder of lists of numbers.
fn new_lists(alloc: Global) -> Result<MutableListArray<i32, AnyMutableArray>, Error> {
    let items = AnyMutableArray::new(alloc, &DataType::Int32)?;
    MutableListArray::new_with_capacity(alloc, items, 4)
}

/// Keeps the first slots of a builder, where there are as many.
pub(crate) fn keep<M: MutableArray>(slots: &mut M, count: usize) -> Result<(), Fail> {
    if slots.len() < count {
        return Err(Fail::from("fewer slots"));
    }
    slots.truncate(count);
    Ok(())
}

/// Whether the slot at a place has a value, where there is one.
fn is_valid_at<M: MutableArray>(slots: &M, place: usize) -> Option<bool> {
    if place < slots.len() {
        Some(slots.is_valid(place))
    } else {
        None
    }
}

/// Pushes a list of these numbers.
fn push_list(
    lists: &mut MutableListArray<i32, AnyMutableArray>,
    items: &[i32],
) -> Result<(), Error> {
    for item in items {
        lists
            .mut_values()
            .try_push_scalar(&AnyScalar::Int32(*item))?;
    }
    lists.try_push_valid()
}

/// The lists of an array of lists.
fn lists_of(array: AnyArray) -> Option<ListNode> {
    match array.into_node() {
        Node::List(lists) => Some(lists),
        _ => None,
    }
}

/// Whether lists have these offsets, these bytes as their mask, and so many items.
fn are_lists(array: AnyArray, offsets: &[i32], mask: &[u8], items: usize) -> bool {
    let Some(lists) = lists_of(array) else {
        return false;
    };
    let ListNode {
        data_type,
        offsets: own,
        values,
        validity,
    } = lists;
    drop(data_type);
    let same = match own {
        ListOffsets::Small(own) => own.as_slice() == offsets,
        ListOffsets::Large(_) => false,
    };
    let masked = match validity {
        Some(bits) => bits.as_slice().0 == mask,
        None => mask.is_empty(),
    };
    let count = values.len();
    drop(values);
    same && masked && count == items
}

/// The array of one list more.
fn array_with(
    alloc: Global,
    lists: &mut MutableListArray<i32, AnyMutableArray>,
    items: &[i32],
) -> Result<AnyArray, Error> {
    push_list(lists, items)?;
    lists.as_box(alloc)
}

#[test]
fn lists_are_closed_over_items(rt: HostRuntime) -> Result<(), Fail> {
    let mut lists = new_lists(rt.alloc())?;
    push_list(&mut lists, &[1, 2])?;
    lists.push_null()?;
    push_list(&mut lists, &[])?;
    push_list(&mut lists, &[3])?;
    assert_eq!(rt;
        (lists.len(), lists.values().len(), is_valid_at(&lists, 1)),
        (4, 3, Some(false))
    );
    let array = lists.as_box(rt.alloc())?;
    assert!(rt; are_lists(array, &[0, 2, 2, 2, 3], &[13], 3));
    push_list(&mut lists, &[4])?;
    let array = lists.as_box(rt.alloc())?;
    assert!(rt; are_lists(array, &[0, 1], &[], 1));
    drop(lists);
    Ok(())
}

#[test]
fn lists_that_are_cut_back_keep_their_items_alone(rt: HostRuntime) -> Result<(), Fail> {
    let mut lists = new_lists(rt.alloc())?;
    push_list(&mut lists, &[1, 2])?;
    lists.push_null()?;
    push_list(&mut lists, &[3])?;
    keep(&mut lists, 1)?;
    lists.shrink_to_fit();
    push_list(&mut lists, &[4])?;
    let array = lists.as_box(rt.alloc())?;
    assert!(rt; are_lists(array, &[0, 2, 3], &[], 3));
    drop(lists);
    Ok(())
}

/// Keeps the first item of lists.
fn keep_one_item(lists: &mut MutableListArray<i32, AnyMutableArray>) -> Result<(), Fail> {
    keep(lists.mut_values(), 1)
}

/// Pushes a list of two numbers, and takes one of them away.
fn push_list_without_an_item(
    lists: &mut MutableListArray<i32, AnyMutableArray>,
) -> Result<(), Fail> {
    push_list(lists, &[1, 2])?;
    keep_one_item(lists)
}

/// Whether no array was made of lists that have fewer items than they say.
fn is_out_of_spec(made: Result<AnyArray, Error>) -> bool {
    matches!(made, Err(Error::OutOfSpec(_)))
}

/// Whether lists that have fewer items than they say close no list and make no array.
fn refuse(
    lists: &mut MutableListArray<i32, AnyMutableArray>,
    alloc: Global,
) -> Result<(bool, bool), Fail> {
    push_list_without_an_item(lists)?;
    let is_overflow = matches!(lists.try_push_valid(), Err(Error::Overflow));
    Ok((is_overflow, is_out_of_spec(lists.as_box(alloc))))
}

#[test]
fn lists_without_their_items_make_no_array(rt: HostRuntime) -> Result<(), Fail> {
    let mut lists = new_lists(rt.alloc())?;
    let refused = refuse(&mut lists, rt.alloc());
    let array = array_with(rt.alloc(), &mut lists, &[3]);
    drop(lists);
    let is_there = match array {
        Ok(array) => are_lists(array, &[0, 1], &[], 1),
        Err(_) => false,
    };
    assert!(rt; is_there);
    assert_eq!(rt; refused?, (true, true));
    Ok(())
}

/// Pushes numbers as items of no list yet.
fn push_items(
    lists: &mut MutableListArray<i32, AnyMutableArray>,
    items: &[i32],
) -> Result<(), Error> {
    for item in items {
        lists
            .mut_values()
            .try_push_scalar(&AnyScalar::Int32(*item))?;
    }
    Ok(())
}

#[test]
fn lists_of_given_lengths_are_closed(rt: HostRuntime) -> Result<(), Fail> {
    let mut lists = new_lists(rt.alloc())?;
    push_items(&mut lists, &[1, 2, 3])?;
    lists.try_extend_from_lengths(&[Some(2), None, Some(0), Some(1)])?;
    assert_eq!(rt; lists.len(), 4);
    let refused = lists.try_extend_from_lengths(&[Some(0), Some(1), Some(0)]);
    assert!(rt; matches!(refused, Err(Error::Overflow)));
    assert_eq!(rt; lists.len(), 5);
    let array = lists.into_box(rt.alloc())?;
    assert!(rt; are_lists(array, &[0, 2, 2, 2, 3, 3], &[29], 3));
    Ok(())
}
