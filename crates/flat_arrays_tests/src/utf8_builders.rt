use columnar_memory_core::Error;
use either::Either;
use flat_arrays::{IntoMut, MutableUtf8Array, Utf8Array};
use std::alloc::Global;
use std::test::Fail;

// a, null
fn texts(alloc: Global) -> Result<MutableUtf8Array<i32>, Error> {
    MutableUtf8Array::from(alloc, &[Some("a"), None])
}

#[test]
fn a_popped_text_is_the_last_one_pushed(rt: HostRuntime) -> Result<(), Fail> {
    let mut builder = MutableUtf8Array::<i32>::from_slice(rt.alloc(), &["a"])?;
    assert!(rt; builder.push(Some("b")).is_ok());
    let popped = builder.pop();
    assert_eq!(rt; builder.len(), 1);
    assert!(rt; builder.value(0) == "a");
    drop(builder);
    assert!(rt; popped?.is_some_and(|text| text.as_str() == "b"));
    Ok(())
}

fn add_texts(builder: &mut MutableUtf8Array<i32>, alloc: Global) -> Result<(), Error> {
    let more = texts(alloc)?;
    let outcome = builder.try_extend_from_self(&more);
    drop(more);
    outcome
}

#[test]
fn texts_of_two_builders_stand_in_order(rt: HostRuntime) -> Result<(), Fail> {
    let mut builder = texts(rt.alloc())?;
    assert!(rt; add_texts(&mut builder, rt.alloc()).is_ok());
    assert_eq!(rt; builder.len(), 4);
    assert!(rt; builder.value(2) == "a");
    assert!(rt; !builder.is_valid(3));
    drop(builder);
    Ok(())
}

#[test]
fn an_array_has_the_slots_of_its_builder(rt: HostRuntime) -> Result<(), Fail> {
    let array = texts(rt.alloc())?.freeze()?;
    assert_eq!(rt; array.len(), 2);
    assert!(rt; array.get(0) == Some("a"));
    assert!(rt; array.is_null(1));
    drop(array);
    Ok(())
}

#[test]
fn an_array_goes_on_as_its_builder(rt: HostRuntime) -> Result<(), Fail> {
    let array = texts(rt.alloc())?.freeze()?;
    let side: Either<Utf8Array<i32>, MutableUtf8Array<i32>> = array.into_mut()?;
    assert!(rt; matches!(side, Either::Right(_)));
    drop(side);
    Ok(())
}

fn extend(builder: &mut MutableUtf8Array<i64>) -> Result<(), Error> {
    builder.reserve(2, 2)?;
    builder.extend([Some("a"), None].into_iter())?;
    builder.extend_values(["b"].into_iter())?;
    builder.push_null()
}

#[test]
fn slots_of_an_iterator_are_added(rt: HostRuntime) -> Result<(), Fail> {
    let mut builder = MutableUtf8Array::<i64>::with_capacity(rt.alloc(), 2)?;
    assert!(rt; extend(&mut builder).is_ok());
    assert_eq!(rt; builder.len(), 4);
    drop(builder);
    Ok(())
}

#[test]
fn values_make_an_array(rt: HostRuntime) -> Result<(), Fail> {
    let builder = MutableUtf8Array::<i32>::from_iter_values(rt.alloc(), ["a", "b"].into_iter())?;
    let array = builder.into_arc()?;
    assert_eq!(rt; array.len(), 2);
    drop(array);
    Ok(())
}
