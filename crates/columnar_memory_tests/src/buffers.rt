ghost use Rattle.std.specs.Prelude.{◌≡◌, length, IfOk};

use columnar_memory_buffer::{Buffer, Bytes};
use columnar_memory_types::Error;
use either::Either;
use std::alloc::Global;
use std::test::Fail;

fn numbers(alloc: Global) -> Result<Buffer<u16>, Error> {
    Buffer::from_iter(alloc, 1u16..6)
}

// The third and the fourth of five numbers.
fn window(alloc: Global) -> Result<Buffer<u16>, Error> {
    let values: Vec<u16> = vec![in alloc; 1, 2, 3, 4, 5]?;
    let mut window = Buffer::from_vec(values)?.sliced(1, 4);
    window.slice(1, 2);
    Ok(window)
}

fn reverse(buffer: &mut Buffer<u16>) -> bool {
    let Some(values) = buffer.get_mut_slice() else {
        return false;
    };
    values.reverse();
    true
}

fn vector_of(buffer: Buffer<u16>) -> Option<Vec<u16>> {
    match buffer.into_mut() {
        Either::Left(_) => None,
        Either::Right(values) => Some(values),
    }
}

// Three numbers, in a vector with room for a hundred.
fn roomy(alloc: Global) -> Result<Buffer<u16>, Error>
    ensures { IfOk result (λ buffer. length buffer ≡ 3) }
{
    let mut values = Vec::with_capacity(alloc, 100)?;
    values.extend_from_slice(&[1u16, 2, 3])?;
    Buffer::from_vec(values)
}

// Turns the order, and says for how many numbers the vector had room that was turned.
fn turn(buffer: &mut Buffer<u16>) -> Result<usize, Error> {
    let mut room = 0;
    buffer.apply_mut(|values| {
        let mut values = values;
        values.reverse();
        room = values.capacity();
        values
    })?;
    Ok(room)
}

#[test]
fn slices_are_windows(rt: HostRuntime) -> Result<(), Fail> {
    let window = window(rt.alloc())?;
    assert_eq!(rt; window.as_slice(), [3u16, 4].as_slice());
    assert_eq!(rt;
        (window.len(), window.is_sliced(), window.offset()),
        (2, true, 2)
    );
    Ok(())
}

#[test]
fn a_clone_has_the_same_elements(rt: HostRuntime) -> Result<(), Fail> {
    let window = window(rt.alloc())?;
    assert!(rt; window.clone()? == window);
    Ok(())
}

#[test]
fn elements_come_from_both_ends(rt: HostRuntime) -> Result<(), Fail> {
    let mut items = numbers(rt.alloc())?.into_iter();
    assert_eq!(rt;
        (items.next(), items.next_back(), items.next()),
        (Some(1), Some(5), Some(2))
    );
    Ok(())
}

#[test]
fn one_owner_may_write(rt: HostRuntime) -> Result<(), Fail> {
    let mut one = numbers(rt.alloc())?;
    assert!(rt; reverse(&mut one));
    assert_eq!(rt; one.as_slice(), [5u16, 4, 3, 2, 1].as_slice());
    Ok(())
}

#[test]
fn one_owner_may_write_a_window(rt: HostRuntime) -> Result<(), Fail> {
    let mut window = window(rt.alloc())?;
    assert!(rt; reverse(&mut window));
    assert_eq!(rt; window.as_slice(), [4u16, 3].as_slice());
    Ok(())
}

#[test]
fn one_of_two_owners_may_not_write(rt: HostRuntime) -> Result<(), Fail> {
    let one = numbers(rt.alloc())?;
    let mut other = one.clone()?;
    assert!(rt; !reverse(&mut other));
    assert!(rt; vector_of(other).is_none());
    Ok(())
}

#[test]
fn one_owner_gets_its_vector_back(rt: HostRuntime) -> Result<(), Fail> {
    let values = vector_of(numbers(rt.alloc())?);
    assert_eq!(rt; values.map(|values| Bytes::from(values).len()), Some(5));
    Ok(())
}

#[test]
fn a_new_buffer_is_empty(rt: HostRuntime) -> Result<(), Fail> {
    assert!(rt; Buffer::<u16>::new(rt.alloc())?.is_empty());
    Ok(())
}

#[test]
fn the_vector_of_one_owner_is_changed_in_place(rt: HostRuntime) -> Result<(), Fail> {
    let mut one = roomy(rt.alloc())?;
    let room = turn(&mut one)?;
    let shown = one.as_slice() == [3u16, 2, 1].as_slice();
    let kept = vector_of(one).map(|values| values.capacity() >= 100);
    assert!(rt; room >= 100 && shown);
    assert_eq!(rt; kept, Some(true));
    Ok(())
}

#[test]
fn a_shared_vector_is_copied_to_change(rt: HostRuntime) -> Result<(), Fail> {
    let one = roomy(rt.alloc())?;
    let mut other = one.clone()?;
    let room = turn(&mut other)?;
    assert!(rt; room < 100);
    assert_eq!(rt; one.as_slice(), [1u16, 2, 3].as_slice());
    assert_eq!(rt; other.as_slice(), [3u16, 2, 1].as_slice());
    Ok(())
}

#[test]
fn a_window_is_copied_to_change(rt: HostRuntime) -> Result<(), Fail> {
    let mut window = roomy(rt.alloc())?.sliced(1, 2);
    let room = turn(&mut window)?;
    assert!(rt; room < 100);
    assert_eq!(rt; window.as_slice(), [3u16, 2].as_slice());
    Ok(())
}
