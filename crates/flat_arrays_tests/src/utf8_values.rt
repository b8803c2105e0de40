use columnar_memory_core::Error;
use flat_arrays::MutableUtf8ValuesArray;
use std::alloc::Global;
use std::test::Fail;

fn add_accent(builder: &mut MutableUtf8ValuesArray<i64>, alloc: Global) -> Result<(), Error> {
    let more = MutableUtf8ValuesArray::<i64>::from_iter(alloc, ["é"].into_iter())?;
    let outcome = builder.try_extend_from_self(&more);
    drop(more);
    outcome
}

#[test]
fn texts_of_two_builders_stand_in_order(rt: HostRuntime) -> Result<(), Fail> {
    let mut builder = MutableUtf8ValuesArray::<i64>::from_slice(rt.alloc(), &["a", "bc"])?;
    assert!(rt; add_accent(&mut builder, rt.alloc()).is_ok());
    assert_eq!(rt; builder.len(), 3);
    assert!(rt; builder.value(1) == "bc");
    assert!(rt; builder.value(2) == "é");
    drop(builder);
    Ok(())
}

fn push_texts(builder: &mut MutableUtf8ValuesArray<i32>) -> Result<(), Error> {
    builder.push("a")?;
    builder.push("b")
}

#[test]
fn a_popped_text_is_the_last_one_pushed(rt: HostRuntime) -> Result<(), Fail> {
    let mut builder = MutableUtf8ValuesArray::<i32>::with_capacities(rt.alloc(), 2, 2)?;
    assert!(rt; push_texts(&mut builder).is_ok());
    let popped = builder.pop();
    assert_eq!(rt; builder.len(), 1);
    drop(builder);
    assert!(rt; popped?.is_some_and(|text| text.as_str() == "b"));
    Ok(())
}

fn extend(builder: &mut MutableUtf8ValuesArray<i32>) -> Result<(), Error> {
    builder.reserve(1, 1)?;
    builder.extend(["a", "b"].into_iter())
}

#[test]
fn texts_of_an_iterator_are_added(rt: HostRuntime) -> Result<(), Fail> {
    let mut builder = MutableUtf8ValuesArray::<i32>::with_capacity(rt.alloc(), 1)?;
    assert!(rt; extend(&mut builder).is_ok());
    let array = builder.freeze()?;
    assert_eq!(rt; array.len(), 2);
    drop(array);
    Ok(())
}

#[test]
fn texts_make_an_array(rt: HostRuntime) -> Result<(), Fail> {
    let builder = MutableUtf8ValuesArray::<i32>::from_slice(rt.alloc(), &["a", "b"])?;
    let array = builder.into_arc()?;
    assert_eq!(rt; array.len(), 2);
    drop(array);
    Ok(())
}
