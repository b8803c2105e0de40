ghost use Rattle.std.specs.Prelude.{◌≡◌, length, IfOk};

use columnar_memory_core::{DataType, Error, MutableBitmap};
use flat_arrays::BooleanArray;
use std::alloc::Global;
use std::test::Fail;

// true, null, false
fn three(alloc: Global) -> Result<BooleanArray, Error> {
    BooleanArray::from(alloc, &[Some(true), None, Some(false)])
}

#[test]
fn slots_are_gathered(rt: HostRuntime) -> Result<(), Fail> {
    let array = three(rt.alloc())?;
    assert_eq!(rt;
        (array.get(0), array.get(1), array.get(2)),
        (Some(true), None, Some(false))
    );
    assert!(rt; array.get(3).is_none());
    drop(array);
    Ok(())
}

#[test]
fn a_new_array_has_no_slot(rt: HostRuntime) -> Result<(), Fail> {
    let array = BooleanArray::new_empty(rt.alloc(), DataType::Boolean)?;
    assert_eq!(rt; array.len(), 0);
    drop(array);
    Ok(())
}

#[test]
fn an_array_of_nulls_has_no_value(rt: HostRuntime) -> Result<(), Fail> {
    let array = BooleanArray::new_null(rt.alloc(), DataType::Boolean, 2)?;
    assert_eq!(rt; array.null_count(), 2);
    drop(array);
    Ok(())
}

#[test]
fn a_slice_is_copied(rt: HostRuntime) -> Result<(), Fail> {
    let array = BooleanArray::from_slice(rt.alloc(), &[true, false])?;
    assert_eq!(rt; array.len(), 2);
    drop(array);
    Ok(())
}

#[test]
fn values_of_an_iterator_are_copied(rt: HostRuntime) -> Result<(), Fail> {
    let array = BooleanArray::from_values(rt.alloc(), [true].into_iter())?;
    assert_eq!(rt; array.len(), 1);
    drop(array);
    Ok(())
}

// Three booleans and no null, in bytes with room for a thousand.
fn roomy(alloc: Global) -> Result<BooleanArray, Error>
    ensures { IfOk result (λ array. length array.values ≡ 3) }
{
    let mut values = MutableBitmap::with_capacity(alloc, 1000)?;
    values.extend_constant(2, true)?;
    values.push(false)?;
    let values = values.freeze()?;
    BooleanArray::try_new(DataType::Boolean, values, None)
}

// Turns each value, and says for how many of them the bytes had room that were turned.
fn turn(array: &mut BooleanArray) -> Result<usize, Error> {
    let mut room = 0;
    array.apply_values_mut(|values| {
        room = values.capacity();
        !values
    })?;
    Ok(room)
}

#[test]
fn values_of_one_owner_are_changed_in_place(rt: HostRuntime) -> Result<(), Fail> {
    let mut array = roomy(rt.alloc())?;
    let rooms = (turn(&mut array)?, turn(&mut array)?);
    let unset = array.values().unset_bits();
    drop(array);
    assert!(rt; rooms.0 >= 1000 && rooms.1 >= 1000);
    assert_eq!(rt; unset, 1);
    Ok(())
}

#[test]
fn shared_values_are_copied_to_change(rt: HostRuntime) -> Result<(), Fail> {
    let mut array = roomy(rt.alloc())?;
    let same = array.clone()?;
    let room = turn(&mut array)?;
    let unset = (array.values().unset_bits(), same.values().unset_bits());
    drop(same);
    drop(array);
    assert!(rt; room < 1000);
    assert_eq!(rt; unset, (2, 1));
    Ok(())
}

#[test]
fn values_of_a_slice_are_copied_to_change(rt: HostRuntime) -> Result<(), Fail> {
    let mut array = roomy(rt.alloc())?.sliced(1, 2);
    let room = turn(&mut array)?;
    let slots = (array.get(0), array.get(1));
    drop(array);
    assert!(rt; room < 1000);
    assert_eq!(rt; slots, (Some(false), Some(true)));
    Ok(())
}
