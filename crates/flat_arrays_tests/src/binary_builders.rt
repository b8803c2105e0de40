use columnar_memory_core::Error;
use either::Either;
use flat_arrays::{BinaryArray, IntoMut, MutableBinaryArray};
use std::alloc::Global;
use std::test::Fail;

// 1 and 2, null
fn slots(alloc: Global) -> Result<MutableBinaryArray<i32>, Error> {
    MutableBinaryArray::from(alloc, &[Some(&[1u8, 2][..]), None])
}

fn array(alloc: Global) -> Result<BinaryArray<i32>, Error> {
    slots(alloc)?.freeze()
}

#[test]
fn an_array_has_the_slots_of_its_builder(rt: HostRuntime) -> Result<(), Fail> {
    let array = array(rt.alloc())?;
    assert_eq!(rt; array.len(), 2);
    assert!(rt; array.get(0) == Some([1u8, 2].as_slice()));
    assert!(rt; array.is_null(1));
    drop(array);
    Ok(())
}

fn push_slots(builder: &mut MutableBinaryArray<i64>) -> Result<(), Error> {
    builder.push(Some(&[1, 2]))?;
    builder.push_null()
}

#[test]
fn slots_are_pushed(rt: HostRuntime) -> Result<(), Fail> {
    let mut builder = MutableBinaryArray::<i64>::with_capacities(rt.alloc(), 2, 2)?;
    assert!(rt; push_slots(&mut builder).is_ok());
    assert_eq!(rt; builder.len(), 2);
    assert!(rt; builder.value(0) == [1u8, 2].as_slice());
    assert!(rt; !builder.is_valid(1));
    let popped = builder.pop();
    drop(builder);
    assert!(rt; popped?.is_none());
    Ok(())
}

fn add_slots(builder: &mut MutableBinaryArray<i32>, alloc: Global) -> Result<(), Error> {
    let more = slots(alloc)?;
    let outcome = builder.try_extend_from_self(&more);
    drop(more);
    outcome
}

#[test]
fn slots_of_two_builders_stand_in_order(rt: HostRuntime) -> Result<(), Fail> {
    let mut builder = slots(rt.alloc())?;
    assert!(rt; add_slots(&mut builder, rt.alloc()).is_ok());
    assert_eq!(rt; builder.len(), 4);
    assert!(rt; builder.value(2) == [1u8, 2].as_slice());
    assert!(rt; !builder.is_valid(3));
    drop(builder);
    Ok(())
}

#[test]
fn an_array_goes_on_as_its_builder(rt: HostRuntime) -> Result<(), Fail> {
    let side: Either<BinaryArray<i32>, MutableBinaryArray<i32>> = array(rt.alloc())?.into_mut()?;
    assert!(rt; matches!(side, Either::Right(_)));
    drop(side);
    Ok(())
}

fn comes_back(array: BinaryArray<i32>) -> Result<bool, Error> {
    let side: Either<BinaryArray<i32>, MutableBinaryArray<i32>> = array.into_mut()?;
    let is_array = matches!(side, Either::Left(_));
    drop(side);
    Ok(is_array)
}

#[test]
fn a_shared_array_comes_back(rt: HostRuntime) -> Result<(), Fail> {
    let array = array(rt.alloc())?;
    let shared = array.clone()?;
    let comes_back = comes_back(array);
    assert_eq!(rt; shared.len(), 2);
    drop(shared);
    assert!(rt; comes_back?);
    Ok(())
}

fn extend(builder: &mut MutableBinaryArray<i32>) -> Result<(), Error> {
    builder.reserve(2, 2)?;
    builder.extend([Some("a"), None].into_iter())?;
    builder.extend_values(["b"].into_iter())
}

#[test]
fn slots_of_an_iterator_are_added(rt: HostRuntime) -> Result<(), Fail> {
    let mut builder = MutableBinaryArray::<i32>::with_capacity(rt.alloc(), 2)?;
    assert!(rt; extend(&mut builder).is_ok());
    assert_eq!(rt; builder.len(), 3);
    drop(builder);
    Ok(())
}

#[test]
fn values_make_an_array(rt: HostRuntime) -> Result<(), Fail> {
    let array = MutableBinaryArray::<i32>::from_slice(rt.alloc(), &["a", "b"])?.into_arc()?;
    assert_eq!(rt; array.len(), 2);
    drop(array);
    Ok(())
}

#[test]
fn values_of_an_iterator_make_a_builder(rt: HostRuntime) -> Result<(), Fail> {
    let builder = MutableBinaryArray::<i32>::from_iter_values(rt.alloc(), ["a", "b"].into_iter())?;
    assert_eq!(rt; builder.len(), 2);
    drop(builder);
    Ok(())
}
