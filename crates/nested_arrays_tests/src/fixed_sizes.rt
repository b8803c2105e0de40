use nested_arrays_nulls::columnar_memory::{Buffer, DataType, Error};
use nested_arrays_nulls::flat::{FixedSizeBinaryArray, NullArray};
use std::alloc::{AllocError, Global};
use std::test::Fail;

fn pairs(alloc: Global, bytes: &[u8]) -> Result<FixedSizeBinaryArray, Error> {
    let bytes = Buffer::from_vec(Vec::from_slice(alloc, bytes)?)?;
    FixedSizeBinaryArray::try_new(DataType::FixedSizeBinary(2), bytes, None)
}

#[test]
fn a_part_of_a_string_is_refused(rt: HostRuntime) -> Result<(), Fail> {
    let outcome = pairs(rt.alloc(), &[1, 2, 3]);
    assert!(rt; matches!(outcome, Err(Error::OutOfSpec(_))));
    drop(outcome);
    Ok(())
}

fn copied_pairs(alloc: Global) -> Result<FixedSizeBinaryArray, Error> {
    let array = pairs(alloc, &[1, 2, 3, 4])?;
    let outcome: Result<_, AllocError> = array.clone();
    drop(array);
    Ok(outcome?)
}

#[test]
fn strings_of_one_size_are_cut(rt: HostRuntime) -> Result<(), Fail> {
    let mut array = copied_pairs(rt.alloc())?;
    assert_eq!(rt; array.len(), 2);
    array.slice(1, 1);
    assert_eq!(rt; array.len(), 1);
    assert!(rt; array.value(0) == [3u8, 4].as_slice());
    drop(array);
    Ok(())
}

#[test]
fn nulls_have_no_value(rt: HostRuntime) -> Result<(), Fail> {
    let data_type = DataType::FixedSizeBinary(2);
    assert_eq!(rt; FixedSizeBinaryArray::get_size(&data_type), 2);
    let array = FixedSizeBinaryArray::new_null(rt.alloc(), data_type, 3)?;
    assert_eq!(rt; array.null_count(), 3);
    drop(array);
    Ok(())
}

fn three_nulls() -> Result<NullArray, Error> {
    let array = NullArray::try_new(DataType::Null, 3)?;
    let outcome: Result<_, AllocError> = array.clone();
    drop(array);
    Ok(outcome?)
}

#[test]
fn nulls_are_cut(rt: HostRuntime) -> Result<(), Fail> {
    let array = three_nulls()?;
    assert_eq!(rt; array.len(), 3);
    let cut = array.sliced(1, 2);
    assert_eq!(rt; cut.len(), 2);
    drop(cut);
    Ok(())
}

#[test]
fn nulls_have_a_type_of_their_own(rt: HostRuntime) -> Result<(), Fail> {
    let outcome = NullArray::try_new(DataType::Int8, 3);
    assert!(rt; matches!(outcome, Err(Error::OutOfSpec(_))));
    drop(outcome);
    Ok(())
}

#[test]
fn an_empty_array_has_no_place(rt: HostRuntime) -> Result<(), Fail> {
    let data_type = DataType::FixedSizeBinary(2);
    assert_eq!(rt; FixedSizeBinaryArray::get_size(&data_type), 2);
    let array = FixedSizeBinaryArray::new_empty(rt.alloc(), data_type)?;
    assert_eq!(rt; array.len(), 0);
    assert!(rt; array.get(0).is_none());
    drop(array);
    Ok(())
}

#[test]
fn strings_are_equal_by_their_bytes(rt: HostRuntime) -> Result<(), Fail> {
    let array = pairs(rt.alloc(), &[1, 2])?;
    let other = pairs(rt.alloc(), &[1, 3])?;
    assert!(rt; array != other);
    drop(other);
    drop(array);
    Ok(())
}
