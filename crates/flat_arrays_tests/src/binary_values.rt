use columnar_memory_core::Error;
use flat_arrays::MutableBinaryValuesArray;
use std::alloc::Global;
use std::test::Fail;

// 1 and 2, 3
fn values(alloc: Global) -> Result<MutableBinaryValuesArray<i32>, Error> {
    MutableBinaryValuesArray::from_slice(alloc, &[&[1u8, 2][..], &[3][..]])
}

#[test]
fn an_array_has_the_values_of_its_builder(rt: HostRuntime) -> Result<(), Fail> {
    let array = values(rt.alloc())?.freeze()?;
    assert_eq!(rt; array.len(), 2);
    assert!(rt; array.value(0) == [1u8, 2].as_slice());
    assert!(rt; array.value(1) == [3u8].as_slice());
    drop(array);
    Ok(())
}

#[test]
fn a_popped_value_is_the_last_one(rt: HostRuntime) -> Result<(), Fail> {
    let mut builder = values(rt.alloc())?;
    let popped = builder.pop();
    assert_eq!(rt; builder.len(), 1);
    drop(builder);
    assert!(rt; popped?.is_some_and(|value| value.as_slice() == [3u8].as_slice()));
    Ok(())
}

fn extend(builder: &mut MutableBinaryValuesArray<i64>) -> Result<(), Error> {
    builder.reserve(2, 2)?;
    builder.extend(["a"].into_iter())?;
    builder.push(&[1])
}

#[test]
fn values_of_an_iterator_are_added(rt: HostRuntime) -> Result<(), Fail> {
    let mut builder = MutableBinaryValuesArray::<i64>::with_capacity(rt.alloc(), 2)?;
    assert!(rt; extend(&mut builder).is_ok());
    assert_eq!(rt; builder.len(), 2);
    drop(builder);
    Ok(())
}

fn add_values(builder: &mut MutableBinaryValuesArray<i32>, alloc: Global) -> Result<(), Error> {
    let more = values(alloc)?;
    let outcome = builder.try_extend_from_self(&more);
    drop(more);
    outcome
}

#[test]
fn values_of_two_builders_stand_in_order(rt: HostRuntime) -> Result<(), Fail> {
    let mut builder = values(rt.alloc())?;
    assert!(rt; add_values(&mut builder, rt.alloc()).is_ok());
    let array = builder.into_arc()?;
    assert_eq!(rt; array.len(), 4);
    drop(array);
    Ok(())
}

fn gathered(alloc: Global) -> Result<MutableBinaryValuesArray<i32>, Error> {
    MutableBinaryValuesArray::from_iter(alloc, ["a", "bc"].into_iter())
}

#[test]
fn the_values_of_an_iterator_are_gathered(rt: HostRuntime) -> Result<(), Fail> {
    let array = gathered(rt.alloc())?.freeze()?;
    assert_eq!(rt; array.len(), 2);
    assert!(rt; array.value(1) == b"bc".as_slice());
    drop(array);
    Ok(())
}
