//! Arrays whose type is known when they are read.
use crate::records::lists_of_numbers;
use nested_arrays::columnar_memory::{DataType, Error, PhysicalType, PrimitiveType};
use nested_arrays::flat_arrays::{PrimitiveArray, Utf8Array};
use nested_arrays::{AnyArray, Array, Downcast, Node, equal, new_null_array};
use std::alloc::Global;
use std::test::Fail;

/// The sum of numbers of 32 or 64 bits, or of the lengths of texts; none of other types.
fn sum(array: &AnyArray) -> Option<i64> {
    match array.data_type().to_physical_type() {
        PhysicalType::Primitive(PrimitiveType::Int32) => {
            let numbers = PrimitiveArray::<i32>::downcast_ref(array)?;
            let mut sum = 0i64;
            for slot in numbers {
                sum = sum.wrapping_add(i64::from(slot.copied().unwrap_or(0)));
            }
            Some(sum)
        }
        PhysicalType::Primitive(PrimitiveType::Int64) => {
            let numbers = PrimitiveArray::<i64>::downcast_ref(array)?;
            let mut sum = 0i64;
            for slot in numbers {
                sum = sum.wrapping_add(slot.copied().unwrap_or(0));
            }
            Some(sum)
        }
        PhysicalType::Utf8 => {
            let texts = Utf8Array::<i32>::downcast_ref(array)?;
            i64::try_from(texts.values().len()).ok()
        }
        _ => None,
    }
}

/// Columns of three types.
fn columns(alloc: Global) -> Result<[AnyArray; 3], Error> {
    let numbers = PrimitiveArray::from_slice(alloc, &[1i32, 2, 3])?;
    let longs = PrimitiveArray::<i64>::from(alloc, &[Some(5), None])?;
    let texts = Utf8Array::<i32>::from_slice(alloc, &["a", "bc"])?;
    Ok([
        AnyArray::from(numbers),
        AnyArray::from(longs),
        AnyArray::from(texts),
    ])
}

#[test]
fn an_array_of_any_type_is_looked_at_inside(rt: HostRuntime) -> Result<(), Fail> {
    let [numbers, longs, texts] = columns(rt.alloc())?;
    assert_eq!(rt;
        (sum(&numbers), sum(&longs), sum(&texts)),
        (Some(6), Some(5), Some(3))
    );
    let nulls = new_null_array(rt.alloc(), DataType::Null, 2)?;
    assert_eq!(rt; (sum(&nulls), nulls.null_count()), (None, 2));
    Ok(())
}

/// The slots from a first one on, in the same memory, where there are as many.
fn part(array: AnyArray, first: usize, count: usize) -> Option<AnyArray> {
    if first > array.len() || count > array.len() - first {
        return None;
    }
    Some(array.sliced(first, count))
}

#[test]
fn arrays_are_equal_by_their_slots(rt: HostRuntime) -> Result<(), Fail> {
    let [numbers, longs, texts] = columns(rt.alloc())?;
    assert!(rt; !equal(&numbers, &longs));
    assert!(rt; equal(&texts, &texts.clone()?));
    let Some(last) = part(numbers, 1, 2) else {
        return Err(Fail::from("fewer slots"));
    };
    let two = AnyArray::from(PrimitiveArray::from_slice(rt.alloc(), &[2i32, 3])?);
    assert!(rt; last == two);
    Ok(())
}

/// How many items the lists of a column have, and how many lists there are; none where it is of another type.
fn counts(array: &AnyArray) -> Option<(usize, usize)> {
    match &array.node {
        Node::List(lists) => Some((lists.values.len(), array.len())),
        _ => None,
    }
}

#[test]
fn a_column_of_lists_is_matched(rt: HostRuntime) -> Result<(), Fail> {
    let lists = lists_of_numbers(rt.alloc())?;
    let found = counts(&lists);
    drop(lists);
    assert_eq!(rt; found, Some((2, 3)));
    Ok(())
}

#[test]
fn a_column_of_numbers_has_no_lists(rt: HostRuntime) -> Result<(), Fail> {
    let numbers = AnyArray::from(PrimitiveArray::from_slice(rt.alloc(), &[1i32])?);
    let found = counts(&numbers);
    drop(numbers);
    assert_eq!(rt; found, None);
    Ok(())
}
