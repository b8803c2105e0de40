use nested_arrays_nulls::columnar_memory::{DataType, Error};
use nested_arrays_nulls::flat::FixedSizeBinaryArray;
use std::test::Fail;

#[test]
fn slots_are_gathered(rt: HostRuntime) -> Result<(), Fail> {
    let array = FixedSizeBinaryArray::from(rt.alloc(), &[Some([1, 2]), None])?;
    assert!(rt; array.values().as_slice() == [1u8, 2, 0, 0].as_slice());
    assert_eq!(rt; array.null_count(), 1);
    drop(array);
    Ok(())
}

#[test]
fn values_are_copied(rt: HostRuntime) -> Result<(), Fail> {
    let array = FixedSizeBinaryArray::from_slice(rt.alloc(), &[[1, 2], [3, 4]])?;
    assert!(rt; array.values().as_slice() == [1u8, 2, 3, 4].as_slice());
    drop(array);
    Ok(())
}

#[test]
fn items_are_gathered(rt: HostRuntime) -> Result<(), Fail> {
    let slots = [Some("ab"), None].into_iter();
    let array = FixedSizeBinaryArray::try_from_iter(rt.alloc(), slots, 2)?;
    assert!(rt; array.values().as_slice() == b"ab\0\0".as_slice());
    drop(array);
    Ok(())
}

#[test]
fn a_value_of_another_length_is_refused(rt: HostRuntime) -> Result<(), Fail> {
    let slots = [Some("ab"), Some("c")].into_iter();
    let refused = FixedSizeBinaryArray::try_from_iter(rt.alloc(), slots, 2);
    assert!(rt; matches!(refused, Err(Error::InvalidArgumentError(_))));
    drop(refused);
    Ok(())
}

#[test]
fn arrays_are_items(rt: HostRuntime) -> Result<(), Fail> {
    let array = FixedSizeBinaryArray::from_iter(rt.alloc(), [Some([7u8])].iter().copied(), 1)?;
    assert!(rt; array.values().as_slice() == [7u8].as_slice());
    drop(array);
    Ok(())
}

#[test]
fn a_type_of_the_same_size_takes_its_place(rt: HostRuntime) -> Result<(), Fail> {
    let array = FixedSizeBinaryArray::from_slice(rt.alloc(), &[[1, 2]])?;
    let array = array.to(DataType::FixedSizeBinary(2));
    assert!(rt; array.values().as_slice() == [1u8, 2].as_slice());
    drop(array);
    Ok(())
}
