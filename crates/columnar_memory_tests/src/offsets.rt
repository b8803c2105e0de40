use columnar_memory_buffer::{Offsets, OffsetsBuffer};
use columnar_memory_types::Error;
use std::alloc::Global;
use std::test::Fail;

fn overflows<T>(outcome: &Result<T, Error>) -> bool {
    matches!(outcome, Err(Error::Overflow))
}

// Offsets of texts of 1, 2, 0 and 5 bytes behind a first byte.
fn texts(alloc: Global) -> Result<Offsets<i32>, Error> {
    Offsets::try_from(vec![in alloc; 1i32, 2, 4, 4, 9]?)
}

fn are(offsets: &Offsets<i32>, expected: &[i32]) -> bool {
    offsets.as_slice() == expected
}

fn one_span(alloc: Global, length: usize) -> Result<Offsets<i32>, Error> {
    let mut offsets = Offsets::new(alloc)?;
    offsets.try_push(length)?;
    Ok(offsets)
}

#[test]
fn pushes_stop_at_the_greatest(rt: HostRuntime) -> Result<(), Fail> {
    let mut offsets = one_span(rt.alloc(), 2_147_483_647)?;
    assert!(rt; overflows(&offsets.try_push(1)));
    assert!(rt; are(&offsets, &[0, 2_147_483_647]));
    Ok(())
}

#[test]
fn the_last_offset_is_taken_off(rt: HostRuntime) -> Result<(), Fail> {
    let mut offsets = one_span(rt.alloc(), 7)?;
    assert_eq!(rt; (offsets.pop(), offsets.pop()), (Some(7), None));
    Ok(())
}

fn two_spans(alloc: Global) -> Result<Offsets<i32>, Error> {
    Offsets::try_from_iter(alloc, [3usize, 0].into_iter())
}

// Three spans more, of which the second is too long.
fn grow(offsets: &mut Offsets<i32>) -> Result<(), Error> {
    offsets.try_extend_from_lengths([4usize, 2_147_483_647, 5].into_iter())
}

#[test]
fn lengths_before_a_refused_one_stay(rt: HostRuntime) -> Result<(), Fail> {
    let mut offsets = two_spans(rt.alloc())?;
    assert!(rt; overflows(&grow(&mut offsets)));
    assert!(rt; are(&offsets, &[0, 3, 3, 7]));
    Ok(())
}

#[test]
fn all_of_other_offsets_goes_behind(rt: HostRuntime) -> Result<(), Fail> {
    let mut offsets = one_span(rt.alloc(), 2)?;
    offsets.try_extend_from_self(&texts(rt.alloc())?)?;
    assert!(rt; are(&offsets, &[0, 2, 3, 5, 5, 10]));
    Ok(())
}

fn shared(alloc: Global) -> Result<OffsetsBuffer<i32>, Error> {
    texts(alloc)?.freeze()
}

// The second and the third of four spans behind the others.
fn append_two(offsets: &mut Offsets<i32>, other: &OffsetsBuffer<i32>) -> Result<(), Error> {
    if other.len_proxy() == 4 {
        offsets.try_extend_from_slice(other, 1, 2)?;
    }
    Ok(())
}

fn three_spans(alloc: Global) -> Result<Offsets<i32>, Error> {
    let mut offsets = one_span(alloc, 2)?;
    append_two(&mut offsets, &shared(alloc)?)?;
    Ok(offsets)
}

#[test]
fn a_part_of_shared_offsets_goes_behind(rt: HostRuntime) -> Result<(), Fail> {
    assert!(rt; are(&three_spans(rt.alloc())?, &[0, 2, 4, 4]));
    Ok(())
}

fn one_empty_span(alloc: Global) -> Result<Offsets<i32>, Error> {
    let mut offsets = Offsets::with_capacity(alloc, 1)?;
    offsets.reserve(2)?;
    offsets.extend_constant(1)?;
    Ok(offsets)
}

#[test]
fn spans_of_no_length_go_behind(rt: HostRuntime) -> Result<(), Fail> {
    let mut offsets = one_empty_span(rt.alloc())?;
    offsets.shrink_to_fit();
    assert!(rt; are(&offsets, &[0, 0]));
    Ok(())
}

fn is_cloned(offsets: &Offsets<i32>) -> Result<bool, Error> {
    Ok(offsets.clone()? == *offsets)
}

#[test]
fn offsets_are_cloned(rt: HostRuntime) -> Result<(), Fail> {
    assert!(rt; is_cloned(&texts(rt.alloc())?)?);
    Ok(())
}

#[test]
fn offsets_of_zeros_are_wide(rt: HostRuntime) -> Result<(), Fail> {
    let offsets = Offsets::<i64>::new_zeroed(rt.alloc(), 1)?;
    assert!(rt; offsets.as_slice() == [0i64, 0].as_slice());
    Ok(())
}

fn are_refused(alloc: Global, values: &[i32]) -> Result<bool, Error> {
    let offsets = Offsets::try_from(Vec::from_slice(alloc, values)?);
    Ok(matches!(offsets, Err(Error::OutOfSpec(_))))
}

#[test]
fn broken_offsets_are_refused(rt: HostRuntime) -> Result<(), Fail> {
    assert!(rt; are_refused(rt.alloc(), &[0, 2, 1])?);
    assert!(rt; are_refused(rt.alloc(), &[-1, 2])?);
    assert!(rt; are_refused(rt.alloc(), &[])?);
    assert!(rt; !are_refused(rt.alloc(), &[2, 2])?);
    Ok(())
}

#[test]
fn widths_change_there_and_back(rt: HostRuntime) -> Result<(), Fail> {
    let wide = Offsets::<i64>::try_from(texts(rt.alloc())?)?;
    assert_eq!(rt;
        Offsets::<i32>::try_from(wide)?.as_slice(),
        [1i32, 2, 4, 4, 9].as_slice()
    );
    Ok(())
}

#[test]
fn widths_do_not_change_past_the_greatest(rt: HostRuntime) -> Result<(), Fail> {
    let long = Offsets::<i64>::try_from_iter(rt.alloc(), [2_147_483_648usize].into_iter())?;
    assert!(rt; overflows(&Offsets::<i32>::try_from(long)));
    Ok(())
}
