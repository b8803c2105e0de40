use columnar_memory_core::{DataType, Error};
use either::Either;
use flat_arrays::{Int32Array, Int32Vec, IntoMut};
use std::alloc::Global;
use std::test::Fail;

// 1, null
fn slots(alloc: Global) -> Result<Int32Vec, Error> {
    Int32Vec::from(alloc, &[Some(1), None])
}

fn push_slots(builder: &mut Int32Vec) -> Result<(), Error> {
    builder.push(Some(1))?;
    builder.push(None)
}

#[test]
fn slots_are_pushed(rt: HostRuntime) -> Result<(), Fail> {
    let mut builder = Int32Vec::with_capacity(rt.alloc(), 2)?;
    assert!(rt; push_slots(&mut builder).is_ok());
    let array = builder.freeze()?;
    assert_eq!(rt; (array.get(0), array.get(1)), (Some(1), None));
    drop(array);
    Ok(())
}

fn add_slots(builder: &mut Int32Vec, alloc: Global) -> Result<(), Error> {
    let more = Int32Vec::from_slice(alloc, &[2])?;
    let outcome = builder.try_extend_from_self(&more);
    drop(more);
    outcome
}

#[test]
fn a_builder_goes_on_behind_another(rt: HostRuntime) -> Result<(), Fail> {
    let mut builder = slots(rt.alloc())?;
    assert!(rt; add_slots(&mut builder, rt.alloc()).is_ok());
    assert!(rt; builder.values().as_slice() == [1, 0, 2].as_slice());
    assert!(rt; builder.is_valid(2));
    assert!(rt; builder.pop() == Some(2));
    drop(builder);
    Ok(())
}

fn extend(builder: &mut Int32Vec) -> Result<(), Error> {
    builder.reserve(2)?;
    builder.extend([Some(1), None].into_iter())?;
    builder.extend_values([2].into_iter())?;
    builder.push_null()
}

#[test]
fn slots_of_an_iterator_are_added(rt: HostRuntime) -> Result<(), Fail> {
    let mut builder = Int32Vec::with_capacity_from(rt.alloc(), 2, DataType::Date32)?;
    assert!(rt; extend(&mut builder).is_ok());
    assert_eq!(rt; builder.len(), 4);
    assert!(rt; builder.value(2) == 2);
    assert!(rt; !builder.is_valid(3));
    drop(builder);
    Ok(())
}

fn try_extend(builder: &mut Int32Vec) -> Result<(), Error> {
    builder.try_push(None)?;
    builder.try_extend([Some(2), None].into_iter())
}

#[test]
fn more_slots_of_an_iterator_are_added(rt: HostRuntime) -> Result<(), Fail> {
    let mut builder = slots(rt.alloc())?;
    assert!(rt; try_extend(&mut builder).is_ok());
    assert!(rt; builder.values().as_slice() == [1, 0, 0, 2, 0].as_slice());
    drop(builder);
    Ok(())
}

fn add_equal_slots(builder: &mut Int32Vec) -> Result<(), Error> {
    builder.extend_constant(2, None)?;
    builder.extend_from_slice(&[3])?;
    builder.set(1, Some(2))
}

#[test]
fn equal_slots_are_added(rt: HostRuntime) -> Result<(), Fail> {
    let mut builder = slots(rt.alloc())?;
    assert!(rt; add_equal_slots(&mut builder).is_ok());
    assert!(rt; builder.values().as_slice() == [1, 2, 0, 0, 3].as_slice());
    drop(builder);
    Ok(())
}

#[test]
fn an_array_goes_on_as_its_builder(rt: HostRuntime) -> Result<(), Fail> {
    let side: Either<Int32Array, Int32Vec> = slots(rt.alloc())?.freeze()?.into_mut()?;
    assert!(rt; matches!(side, Either::Right(_)));
    drop(side);
    Ok(())
}

#[test]
fn an_array_is_shared(rt: HostRuntime) -> Result<(), Fail> {
    let array = slots(rt.alloc())?.into_arc()?;
    assert_eq!(rt; array.len(), 2);
    drop(array);
    Ok(())
}
