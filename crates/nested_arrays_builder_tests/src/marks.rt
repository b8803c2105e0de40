use columnar_memory_types::Error;
use nested_arrays_dictionary_builders::cells::parts::Marks;
use std::alloc::Global;
use std::test::Fail;

/// Ten marks of which those at 3 and 9 are false.
fn ten_marks(alloc: Global) -> Result<Marks, Error> {
    let mut marks = Marks::new(alloc);
    for i in 0u32..10 {
        marks.push(i != 3 && i != 9)?;
    }
    Ok(marks)
}

#[test]
fn the_first_null_makes_a_bitmap(rt: HostRuntime) -> Result<(), Fail> {
    let mut marks = Marks::new(rt.alloc());
    marks.push(true)?;
    assert!(rt; marks.validity().is_none());
    marks.push_null()?;
    assert!(rt; marks.validity().is_some());
    assert_eq!(rt; (marks.len(), marks.null_count()), (2, 1));
    assert_eq!(rt; (marks.is_valid(0), marks.is_valid(1)), (true, false));
    drop(marks);
    Ok(())
}

#[test]
fn a_cut_drops_the_bitmap_with_the_last_null(rt: HostRuntime) -> Result<(), Fail> {
    let mut marks = ten_marks(rt.alloc())?;
    assert_eq!(rt; marks.null_count(), 2);
    if marks.len() != 10 {
        return Err(Fail::from("ten marks"));
    }
    marks.truncate(9);
    assert_eq!(rt; (marks.len(), marks.null_count()), (9, 1));
    assert!(rt; !marks.is_valid(3));
    marks.truncate(3);
    assert_eq!(rt; (marks.len(), marks.null_count()), (3, 0));
    assert!(rt; marks.validity().is_none());
    marks.push(true)?;
    marks.push(false)?;
    assert_eq!(rt; (marks.is_valid(3), marks.is_valid(4)), (true, false));
    drop(marks);
    Ok(())
}

#[test]
fn a_frozen_mask_has_the_marks(rt: HostRuntime) -> Result<(), Fail> {
    let mut marks = ten_marks(rt.alloc())?;
    marks.reserve(100)?;
    marks.shrink_to_fit();
    let mask = marks.freeze()?;
    assert!(rt;
        mask.is_some_and(|mask| {
            let found = mask.len() == 10 && mask.unset_bits() == 2 && !mask.get_bit(9);
            drop(mask);
            found
        })
    );
    let none = Marks::new(rt.alloc()).freeze()?;
    assert!(rt; none.is_none());
    drop(none);
    Ok(())
}
