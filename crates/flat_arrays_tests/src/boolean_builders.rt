use columnar_memory_core::Error;
use either::Either;
use flat_arrays::{BooleanArray, IntoMut, MutableBooleanArray};
use std::alloc::Global;
use std::test::Fail;

// true, null
fn slots(alloc: Global) -> Result<MutableBooleanArray, Error> {
    MutableBooleanArray::from(alloc, &[Some(true), None])
}

fn push_slots(builder: &mut MutableBooleanArray) -> Result<(), Error> {
    builder.push(Some(true))?;
    builder.push(None)
}

#[test]
fn slots_are_pushed(rt: HostRuntime) -> Result<(), Fail> {
    let mut builder = MutableBooleanArray::with_capacity(rt.alloc(), 2)?;
    assert!(rt; push_slots(&mut builder).is_ok());
    let array = builder.freeze()?;
    assert_eq!(rt; (array.get(0), array.get(1)), (Some(true), None));
    drop(array);
    Ok(())
}

fn add_slots(builder: &mut MutableBooleanArray, alloc: Global) -> Result<(), Error> {
    let more = MutableBooleanArray::from_slice(alloc, &[true])?;
    let outcome = builder.try_extend_from_self(&more);
    drop(more);
    outcome
}

#[test]
fn a_builder_goes_on_behind_another(rt: HostRuntime) -> Result<(), Fail> {
    let mut builder = slots(rt.alloc())?;
    assert!(rt; add_slots(&mut builder, rt.alloc()).is_ok());
    assert_eq!(rt;
        (builder.pop(), builder.pop(), builder.len()),
        (Some(true), None, 1)
    );
    drop(builder);
    Ok(())
}

fn extend(builder: &mut MutableBooleanArray) -> Result<(), Error> {
    builder.reserve(2)?;
    builder.extend([Some(true), None].into_iter())?;
    builder.extend_values([true].into_iter())?;
    builder.push_null()
}

#[test]
fn slots_of_an_iterator_are_added(rt: HostRuntime) -> Result<(), Fail> {
    let mut builder = slots(rt.alloc())?;
    assert!(rt; extend(&mut builder).is_ok());
    assert_eq!(rt; builder.len(), 6);
    assert!(rt; builder.value(4));
    assert!(rt; !builder.is_valid(5));
    drop(builder);
    Ok(())
}

fn try_extend(builder: &mut MutableBooleanArray) -> Result<(), Error> {
    builder.try_push(Some(true))?;
    builder.try_extend([None, Some(true)].into_iter())
}

#[test]
fn more_slots_of_an_iterator_are_added(rt: HostRuntime) -> Result<(), Fail> {
    let mut builder = slots(rt.alloc())?;
    assert!(rt; try_extend(&mut builder).is_ok());
    assert_eq!(rt; builder.len(), 5);
    assert_eq!(rt;
        (builder.is_valid(2), builder.is_valid(3), builder.value(4)),
        (true, false, true)
    );
    drop(builder);
    Ok(())
}

fn add_nulls(builder: &mut MutableBooleanArray) -> Result<(), Error> {
    builder.extend_constant(2, None)?;
    builder.set(1, Some(true))
}

#[test]
fn equal_slots_are_added(rt: HostRuntime) -> Result<(), Fail> {
    let mut builder = slots(rt.alloc())?;
    assert!(rt; add_nulls(&mut builder).is_ok());
    assert_eq!(rt; builder.len(), 4);
    assert!(rt; builder.is_valid(1));
    assert!(rt; !builder.is_valid(3));
    drop(builder);
    Ok(())
}

#[test]
fn an_array_goes_on_as_its_builder(rt: HostRuntime) -> Result<(), Fail> {
    let side: Either<BooleanArray, MutableBooleanArray> = slots(rt.alloc())?.freeze()?.into_mut()?;
    assert!(rt; matches!(side, Either::Right(_)));
    drop(side);
    Ok(())
}

#[test]
fn an_array_is_shared(rt: HostRuntime) -> Result<(), Fail> {
    let array = slots(rt.alloc())?.into_arc()?;
    assert_eq!(rt; array.len(), 2);
    drop(array);
    Ok(())
}
