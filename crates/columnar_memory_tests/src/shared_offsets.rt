use columnar_memory_buffer::OffsetsBuffer;
use columnar_memory_types::Error;
use either::Either;
use std::alloc::Global;
use std::test::Fail;

// Offsets of texts of 1, 2, 0 and 5 bytes behind a first byte.
fn texts(alloc: Global) -> Result<OffsetsBuffer<i32>, Error> {
    OffsetsBuffer::try_from(vec![in alloc; 1i32, 2, 4, 4, 9]?)
}

// The second and the third of them.
fn window(alloc: Global) -> Result<OffsetsBuffer<i32>, Error> {
    let mut window = texts(alloc)?;
    if window.len() == 5 {
        window.slice(1, 3);
    }
    Ok(window)
}

#[test]
fn spans_begin_and_end(rt: HostRuntime) -> Result<(), Fail> {
    let texts = texts(rt.alloc())?;
    assert_eq!(rt; texts.len(), 5);
    assert_eq!(rt; texts.start_end(1), (2, 4));
    Ok(())
}

#[test]
fn slices_are_windows(rt: HostRuntime) -> Result<(), Fail> {
    let window = window(rt.alloc())?;
    assert_eq!(rt; window.as_slice(), [2i32, 4, 4].as_slice());
    Ok(())
}

#[test]
fn lengths_stand_in_order(rt: HostRuntime) -> Result<(), Fail> {
    let window = window(rt.alloc())?;
    let mut lengths = window.lengths();
    assert_eq!(rt;
        (lengths.next(), lengths.next(), lengths.next()),
        (Some(2), Some(0), None)
    );
    Ok(())
}

#[test]
fn a_clone_has_the_same_spans(rt: HostRuntime) -> Result<(), Fail> {
    let texts = texts(rt.alloc())?;
    assert!(rt; texts.clone()? == texts);
    Ok(())
}

#[test]
fn a_window_does_not_grow(rt: HostRuntime) -> Result<(), Fail> {
    assert!(rt; matches!(window(rt.alloc())?.into_mut(), Either::Left(_)));
    Ok(())
}

#[test]
fn one_owner_may_grow(rt: HostRuntime) -> Result<(), Fail> {
    assert!(rt; matches!(texts(rt.alloc())?.into_mut(), Either::Right(_)));
    Ok(())
}

#[test]
fn no_offsets_are_refused(rt: HostRuntime) {
    let outcome = OffsetsBuffer::<i64>::try_from(Vec::new(rt.alloc()));
    assert!(rt; matches!(outcome, Err(Error::OutOfSpec(_))));
}

#[test]
fn widths_change_there_and_back(rt: HostRuntime) -> Result<(), Fail> {
    let texts = texts(rt.alloc())?;
    let wide = OffsetsBuffer::<i64>::try_from(&texts)?;
    assert!(rt; OffsetsBuffer::<i32>::try_from(&wide)? == texts);
    Ok(())
}

#[test]
fn new_offsets_have_no_span(rt: HostRuntime) -> Result<(), Fail> {
    assert_eq!(rt; OffsetsBuffer::<i32>::new(rt.alloc())?.len_proxy(), 0);
    Ok(())
}
