use crate::generic_lists::keep;
use columnar_memory_types::{DataType, Error};
use nested_arrays_dictionary_builders::MutableFixedSizeBinaryArray;
use nested_arrays_dictionary_builders::cells::taken::MutableArray;
use nested_arrays_dictionary_builders::nulls::columnar_memory::MutableBitmap;
use std::test::Fail;

/// Pushes a string, where it has the size.
fn push(strings: &mut MutableFixedSizeBinaryArray, bytes: &[u8]) -> Result<(), Error> {
    if bytes.len() != strings.size() {
        return Err(Error::InvalidArgumentError("another size"));
    }
    strings.push(Some(bytes))
}

#[test]
fn strings_of_one_size_are_pushed(rt: HostRuntime) -> Result<(), Fail> {
    let mut strings = MutableFixedSizeBinaryArray::with_capacity(rt.alloc(), 2, 4)?;
    push(&mut strings, "ab".as_bytes())?;
    strings.push_null()?;
    assert!(rt;
        matches!(
            strings.try_push(Some("abc".as_bytes())),
            Err(Error::InvalidArgumentError(_))
        )
    );
    strings.try_push(Some("cd".as_bytes()))?;
    assert_eq!(rt; strings.values(), [97u8, 98, 0, 0, 99, 100].as_slice());
    assert_eq!(rt; (strings.len(), strings.size()), (3, 2));
    let last = strings.pop()?;
    assert!(rt; matches!(&last, Some(bytes) if bytes.as_slice() == [99u8, 100].as_slice()));
    drop(last);
    let array = strings.freeze()?;
    assert_eq!(rt; array.values().as_slice(), [97u8, 98, 0, 0].as_slice());
    assert!(rt; array.get(1).is_none());
    drop(array);
    Ok(())
}

#[test]
fn strings_of_one_size_are_cut_back_and_taken(rt: HostRuntime) -> Result<(), Fail> {
    let mut mask = MutableBitmap::new(rt.alloc());
    mask.push(true)?;
    mask.push(false)?;
    let bytes = Vec::from_slice(rt.alloc(), &[1, 2, 3, 4])?;
    let mut strings = MutableFixedSizeBinaryArray::try_new(
        rt.alloc(),
        DataType::FixedSizeBinary(2),
        bytes,
        Some(mask),
    )?;
    keep(&mut strings, 1)?;
    assert!(rt; strings.validity().is_none());
    strings.shrink_to_fit();
    let array = strings.as_box(rt.alloc())?;
    assert_eq!(rt; (array.len(), MutableArray::is_empty(&strings)), (1, true));
    drop(array);
    let counted = MutableArray::as_arc(&mut strings, rt.alloc())?;
    assert_eq!(rt; counted.len(), 0);
    drop(counted);
    drop(strings);
    Ok(())
}

#[test]
fn parts_of_another_length_are_refused(rt: HostRuntime) -> Result<(), Fail> {
    let bytes = Vec::from_slice(rt.alloc(), &[1, 2, 3])?;
    let refused = MutableFixedSizeBinaryArray::try_new(
        rt.alloc(),
        DataType::FixedSizeBinary(2),
        bytes,
        None,
    );
    assert!(rt; matches!(refused, Err(Error::OutOfSpec(_))));
    drop(refused);
    Ok(())
}

/// How many slots of a builder there are, and how many bytes those have that are not null.
fn counted(strings: &MutableFixedSizeBinaryArray) -> (usize, usize) {
    let mut slots: usize = 0;
    let mut bytes: usize = 0;
    for slot in strings {
        slots = slots.saturating_add(1);
        if let Some(value) = slot {
            bytes = bytes.saturating_add(value.len());
        }
    }
    (slots, bytes)
}

#[test]
fn strings_of_one_size_are_read_in_order(rt: HostRuntime) -> Result<(), Fail> {
    let mut strings = MutableFixedSizeBinaryArray::with_capacity(rt.alloc(), 2, 4)?;
    push(&mut strings, "ab".as_bytes())?;
    strings.push_null()?;
    push(&mut strings, "cd".as_bytes())?;
    assert_eq!(rt; counted(&strings), (3, 4));
    assert_eq!(rt; strings.iter().len(), 3);
    assert!(rt; strings.iter_values().next_back() == Some("cd".as_bytes()));
    assert!(rt; strings.capacity() >= 4);
    drop(strings);
    Ok(())
}

#[test]
fn a_builder_becomes_an_array_with_a_count(rt: HostRuntime) -> Result<(), Fail> {
    let mut strings = MutableFixedSizeBinaryArray::new(rt.alloc(), 2);
    strings.push_null()?;
    let counted = strings.into_arc(rt.alloc())?;
    assert_eq!(rt; counted.len(), 1);
    drop(counted);
    Ok(())
}
