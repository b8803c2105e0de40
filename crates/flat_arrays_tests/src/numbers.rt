ghost use Rattle.std.specs.Prelude.{◌≡◌, length, IfOk};

use columnar_memory_core::{Buffer, DataType, Error};
use flat_arrays::Int32Array;
use std::alloc::Global;
use std::test::Fail;

fn gathered(alloc: Global) -> Result<Int32Array, Error> {
    Int32Array::from(alloc, &[Some(1), None, Some(3), Some(4)])
}

#[test]
fn slots_are_gathered(rt: HostRuntime) -> Result<(), Fail> {
    let array = gathered(rt.alloc())?;
    assert!(rt; array.values().as_slice() == [1i32, 0, 3, 4].as_slice());
    assert_eq!(rt;
        (array.get(0), array.get(1), array.get(4)),
        (Some(1), None, None)
    );
    drop(array);
    Ok(())
}

#[test]
fn a_new_array_has_no_slot(rt: HostRuntime) -> Result<(), Fail> {
    let array = Int32Array::new_empty(rt.alloc(), DataType::Int32)?;
    assert_eq!(rt; array.len(), 0);
    drop(array);
    Ok(())
}

#[test]
fn an_array_of_nulls_has_no_value(rt: HostRuntime) -> Result<(), Fail> {
    let array = Int32Array::new_null(rt.alloc(), DataType::Int32, 2)?;
    assert_eq!(rt; array.null_count(), 2);
    drop(array);
    Ok(())
}

#[test]
fn a_slice_is_copied(rt: HostRuntime) -> Result<(), Fail> {
    let array = Int32Array::from_slice(rt.alloc(), &[1, 2])?;
    assert_eq!(rt; array.len(), 2);
    drop(array);
    Ok(())
}

#[test]
fn values_of_an_iterator_are_copied(rt: HostRuntime) -> Result<(), Fail> {
    let array = Int32Array::from_values(rt.alloc(), [1, 2].into_iter())?;
    assert_eq!(rt; array.len(), 2);
    drop(array);
    Ok(())
}

// Three numbers and no null, in a vector with room for a hundred.
fn roomy(alloc: Global) -> Result<Int32Array, Error>
    ensures { IfOk result (λ array. length array.values ≡ 3) }
{
    let mut values = Vec::with_capacity(alloc, 100)?;
    values.extend_from_slice(&[1, 2, 3])?;
    let values = Buffer::from_vec(values)?;
    Int32Array::try_new(DataType::Int32, values, None)
}

// Turns the order of the values, and says for how many of them the vector had room that was turned.
fn turn(array: &mut Int32Array) -> Result<usize, Error> {
    let mut room = 0;
    array.apply_values_mut(|values| {
        let mut values = values;
        values.reverse();
        room = values.capacity();
        values
    })?;
    Ok(room)
}

#[test]
fn values_of_one_owner_are_changed_in_place(rt: HostRuntime) -> Result<(), Fail> {
    let mut array = roomy(rt.alloc())?;
    let rooms = (turn(&mut array)?, turn(&mut array)?);
    let shown = array.values().as_slice() == [1i32, 2, 3].as_slice();
    drop(array);
    assert!(rt; rooms.0 >= 100 && rooms.1 >= 100 && shown);
    Ok(())
}

#[test]
fn shared_values_are_copied_to_change(rt: HostRuntime) -> Result<(), Fail> {
    let mut array = roomy(rt.alloc())?;
    let same = array.clone()?;
    let room = turn(&mut array)?;
    let shown = array.values().as_slice() == [3i32, 2, 1].as_slice();
    let kept = same.values().as_slice() == [1i32, 2, 3].as_slice();
    drop(same);
    drop(array);
    assert!(rt; room < 100 && shown && kept);
    Ok(())
}

#[test]
fn values_of_a_slice_are_copied_to_change(rt: HostRuntime) -> Result<(), Fail> {
    let mut array = roomy(rt.alloc())?.sliced(1, 2);
    let room = turn(&mut array)?;
    let shown = array.values().as_slice() == [3i32, 2].as_slice();
    drop(array);
    assert!(rt; room < 100 && shown);
    Ok(())
}
