use crate::cases::{dense, sparse};
use nested_arrays_nulls::columnar_memory::Error;
use std::test::Fail;

#[test]
fn an_offset_past_its_child_is_refused(rt: HostRuntime) -> Result<(), Fail> {
    let refused = dense(rt.alloc(), &[0, 1], &[7]);
    assert!(rt; matches!(refused, Err(Error::OutOfSpec(_))));
    Ok(())
}

#[test]
fn an_offset_below_zero_is_refused(rt: HostRuntime) -> Result<(), Fail> {
    let refused = dense(rt.alloc(), &[0, -1], &[7]);
    assert!(rt; matches!(refused, Err(Error::OutOfSpec(_))));
    Ok(())
}

#[test]
fn a_child_of_another_length_than_a_sparse_union_is_refused(rt: HostRuntime) -> Result<(), Fail> {
    let refused = sparse(rt.alloc(), &[7, 8, 9]);
    assert!(rt; matches!(refused, Err(Error::OutOfSpec(_))));
    Ok(())
}

#[test]
fn a_cut_of_a_dense_union_keeps_its_child(rt: HostRuntime) -> Result<(), Fail> {
    let mut array = dense(rt.alloc(), &[2, 0], &[7, 8, 9])?;
    assert_eq!(rt; array.len(), 2);
    assert_eq!(rt; array.index(0), (0, 2));
    array.slice(1, 1);
    assert_eq!(rt; array.len(), 1);
    assert_eq!(rt; array.index(0), (0, 0));
    assert!(rt; !array.is_sparse());
    Ok(())
}

#[test]
fn a_cut_of_a_sparse_union_cuts_its_child(rt: HostRuntime) -> Result<(), Fail> {
    let mut array = sparse(rt.alloc(), &[7, 8])?;
    assert_eq!(rt; array.len(), 2);
    array.slice(1, 1);
    assert_eq!(rt; array.len(), 1);
    assert!(rt; array.is_sparse());
    Ok(())
}
