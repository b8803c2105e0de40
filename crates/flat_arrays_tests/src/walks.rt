//! Arrays and builders in a `for`, and walks over their values that are made of a reference.
use columnar_memory_core::Error;
use flat_arrays::{
    ArrayAccessor, ArrayValuesIter, BinaryArray, BinaryValueIter, MutableBinaryArray,
    MutableBinaryValuesArray, MutableBinaryValuesIter, MutableBooleanArray, MutablePrimitiveArray,
    MutableUtf8Array, MutableUtf8ValuesArray, MutableUtf8ValuesIter, Utf8Array, Utf8ValuesIter,
};
use std::test::Fail;

fn has_byte_strings(array: &BinaryArray<i32>) -> bool {
    let mut nulls = 0u8;
    for slot in array {
        nulls = if slot.is_none() { 1 } else { nulls };
    }
    nulls == 1 && array.iter().len() == 2 && BinaryValueIter::new(array).len() == 2
}

#[test]
fn an_array_of_byte_strings_is_walked_over(rt: HostRuntime) -> Result<(), Fail> {
    let array: BinaryArray<i32> = BinaryArray::from(rt.alloc(), &[Some("a"), None])?;
    let walked = has_byte_strings(&array);
    drop(array);
    assert!(rt; walked);
    Ok(())
}

fn has_texts(array: &Utf8Array<i64>) -> bool {
    let mut nulls = 0u8;
    for slot in array {
        nulls = if slot.is_none() { 1 } else { nulls };
    }
    nulls == 1 && array.iter().len() == 2 && Utf8ValuesIter::new(array).len() == 2
}

#[test]
fn an_array_of_texts_is_walked_over(rt: HostRuntime) -> Result<(), Fail> {
    let array: Utf8Array<i64> = Utf8Array::from(rt.alloc(), &[Some("a"), None])?;
    let walked = has_texts(&array);
    drop(array);
    assert!(rt; walked);
    Ok(())
}

fn has_numbers(builder: &MutablePrimitiveArray<i16>) -> bool {
    let mut last = 0;
    for slot in builder {
        last = slot.copied().unwrap_or(9);
    }
    last == 9 && builder.iter().len() == 2
}

#[test]
fn a_builder_of_numbers_is_walked_over(rt: HostRuntime) -> Result<(), Fail> {
    let builder = MutablePrimitiveArray::<i16>::from(rt.alloc(), &[Some(1), None])?;
    let walked = has_numbers(&builder);
    drop(builder);
    assert!(rt; walked);
    Ok(())
}

fn has_booleans(builder: &MutableBooleanArray) -> bool {
    let mut last = Some(true);
    for slot in builder {
        last = slot;
    }
    last.is_none() && builder.iter().len() == 2
}

#[test]
fn a_builder_of_booleans_is_walked_over(rt: HostRuntime) -> Result<(), Fail> {
    let builder = MutableBooleanArray::from(rt.alloc(), &[Some(true), None])?;
    let walked = has_booleans(&builder);
    drop(builder);
    assert!(rt; walked);
    Ok(())
}

fn holds_byte_strings(builder: &MutableBinaryArray<i32>) -> bool {
    let mut nulls = 0u8;
    for slot in builder {
        nulls = if slot.is_none() { 1 } else { nulls };
    }
    nulls == 1 && builder.iter().len() == 2 && MutableBinaryValuesIter::new(builder).len() == 2
}

#[test]
fn a_builder_of_byte_strings_is_walked_over(rt: HostRuntime) -> Result<(), Fail> {
    let builder = MutableBinaryArray::<i32>::from(rt.alloc(), &[Some("a"), None])?;
    let walked = holds_byte_strings(&builder);
    drop(builder);
    assert!(rt; walked);
    Ok(())
}

fn holds_texts(builder: &MutableUtf8Array<i32>) -> bool {
    let mut nulls = 0u8;
    for slot in builder {
        nulls = if slot.is_none() { 1 } else { nulls };
    }
    nulls == 1 && builder.iter().len() == 2 && MutableUtf8ValuesIter::new(builder).len() == 2
}

#[test]
fn a_builder_of_texts_is_walked_over(rt: HostRuntime) -> Result<(), Fail> {
    let builder = MutableUtf8Array::<i32>::from(rt.alloc(), &[Some("a"), None])?;
    let walked = holds_texts(&builder);
    drop(builder);
    assert!(rt; walked);
    Ok(())
}

fn has_only_byte_strings(builder: &MutableBinaryValuesArray<i32>) -> bool {
    let mut last = b"".as_slice();
    for value in builder {
        last = value;
    }
    last == b"b".as_slice()
        && builder.iter().len() == 2
        && MutableBinaryValuesIter::new(builder).len() == 2
}

#[test]
fn a_builder_of_byte_strings_alone_is_walked_over(rt: HostRuntime) -> Result<(), Fail> {
    let builder = MutableBinaryValuesArray::<i32>::from_slice(rt.alloc(), &["a", "b"])?;
    let walked = has_only_byte_strings(&builder);
    drop(builder);
    assert!(rt; walked);
    Ok(())
}

fn has_only_texts(builder: &MutableUtf8ValuesArray<i32>) -> bool {
    let mut ends_with_b = false;
    for value in builder {
        ends_with_b = value == "b";
    }
    ends_with_b && builder.iter().len() == 2 && MutableUtf8ValuesIter::new(builder).len() == 2
}

#[test]
fn a_builder_of_texts_alone_is_walked_over(rt: HostRuntime) -> Result<(), Fail> {
    let builder = MutableUtf8ValuesArray::<i32>::from_slice(rt.alloc(), &["a", "b"])?;
    let walked = has_only_texts(&builder);
    drop(builder);
    assert!(rt; walked);
    Ok(())
}

fn last_of<A: ArrayAccessor + Drop>(array: A) -> Option<A::Item> {
    let mut walk = ArrayValuesIter::new(array);
    let last = walk.next_back();
    let _left = walk.len();
    last
}

#[test]
fn builders_are_read_by_their_places(rt: HostRuntime) -> Result<(), Fail> {
    let bytes = MutableBinaryValuesArray::<i32>::from_slice(rt.alloc(), &["a", "b"])?;
    let last = last_of(&bytes) == Some(b"b".as_slice());
    drop(bytes);
    assert!(rt; last);
    let texts = MutableUtf8Array::<i32>::from_slice(rt.alloc(), &["a", "b"])?;
    let last = last_of(&texts) == Some("b");
    drop(texts);
    assert!(rt; last);
    let texts = MutableUtf8ValuesArray::<i32>::from_slice(rt.alloc(), &["a", "b"])?;
    let last = last_of(&texts) == Some("b");
    drop(texts);
    assert!(rt; last);
    Ok(())
}
