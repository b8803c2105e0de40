//! Arrays of numbers and of texts.
use nested_arrays::columnar_memory::{Bitmap, Buffer, DataType, Error};
use nested_arrays::flat_arrays::{Int32Array, Int32Vec, PrimitiveArray, Utf8Array};
use std::alloc::Global;
use std::test::Fail;

/// The sum of the values that are not null.
fn sum(array: &Int32Array) -> i64 {
    let mut sum = 0i64;
    for slot in array {
        if let Some(value) = slot {
            sum = sum.wrapping_add(i64::from(*value));
        }
    }
    sum
}

#[test]
fn an_array_is_made_of_slots(rt: HostRuntime) -> Result<(), Fail> {
    let array = Int32Array::from(rt.alloc(), &[Some(1), None, Some(123)])?;
    assert_eq!(rt; array.len(), 3);
    assert_eq!(rt; array.null_count(), 1);
    assert!(rt; *array.data_type() == DataType::Int32);
    assert_eq!(rt;
        (array.get(0), array.get(1), array.get(9)),
        (Some(1), None, None)
    );
    assert_eq!(rt; sum(&array), 124);
    Ok(())
}

/// Five numbers, of which the second is null, over memory that is shared.
fn of_parts(alloc: Global) -> Result<PrimitiveArray<u64>, Error> {
    let values = Buffer::from_vec(Vec::from_slice(alloc, &[1u64, 2, 3, 4, 5])?)?;
    let validity = Bitmap::from(alloc, &[true, false, true, true, true])?;
    PrimitiveArray::try_new(DataType::UInt64, values, Some(validity))
}

/// The slots from a first one on, in the same memory, where there are as many.
fn part(array: PrimitiveArray<u64>, first: usize, count: usize) -> Option<PrimitiveArray<u64>> {
    if first > array.len() || count > array.len() - first {
        return None;
    }
    Some(array.sliced(first, count))
}

#[test]
fn a_part_of_an_array_shares_its_memory(rt: HostRuntime) -> Result<(), Fail> {
    let array = of_parts(rt.alloc())?;
    let Some(part) = part(array, 1, 3) else {
        return Err(Fail::from("fewer slots"));
    };
    assert_eq!(rt;
        (part.get(0), part.get(1), part.get(2)),
        (None, Some(3), Some(4))
    );
    assert!(rt; part.values().as_slice() == [2u64, 3, 4].as_slice());
    Ok(())
}

/// The squares of numbers, null where one is null or a square has more than 32 bits.
fn squares(alloc: Global, array: &Int32Array) -> Result<Int32Array, Error> {
    let mut squares = Int32Vec::with_capacity(alloc, array.len())?;
    for slot in array {
        let square = match slot {
            Some(value) => value.checked_mul(*value),
            None => None,
        };
        squares.push(square)?;
    }
    squares.freeze()
}

#[test]
fn an_array_is_computed_from_another(rt: HostRuntime) -> Result<(), Fail> {
    let array = Int32Array::from(rt.alloc(), &[Some(3), None, Some(65_536)])?;
    let squares = squares(rt.alloc(), &array)?;
    let want = Int32Array::from(rt.alloc(), &[Some(9), None, None])?;
    assert!(rt; squares == want);
    Ok(())
}

/// How many bytes the texts have together, and how many of them are null.
fn measures(texts: &Utf8Array<i32>) -> (usize, usize) {
    let mut bytes = 0usize;
    for slot in texts {
        if let Some(text) = slot {
            bytes = bytes.wrapping_add(text.len());
        }
    }
    (bytes, texts.null_count())
}

#[test]
fn texts_are_walked_over(rt: HostRuntime) -> Result<(), Fail> {
    let texts = Utf8Array::<i32>::from(rt.alloc(), &[Some("naïve"), None, Some("")])?;
    assert_eq!(rt; texts.iter().len(), 3);
    assert_eq!(rt; measures(&texts), (6, 1));
    assert!(rt; texts.get(0) == Some("naïve"));
    Ok(())
}
