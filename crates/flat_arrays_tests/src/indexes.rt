use columnar_memory_core::{Error, Index};
use flat_arrays::check_indexes;
use std::test::Fail;

fn are_places<K: Index>(keys: &[K], len: usize) -> bool {
    check_indexes(keys, len).is_ok()
}

fn are_refused<K: Index>(keys: &[K], len: usize) -> bool {
    matches!(check_indexes(keys, len), Err(Error::OutOfSpec(_)))
}

#[test]
fn keys_are_places_below_the_length(rt: HostRuntime) -> Result<(), Fail> {
    assert!(rt; are_places(&[0i8, 1, 2], 3));
    assert!(rt; are_refused(&[0i8, 3], 3));
    assert!(rt; are_refused(&[-1i8], 3));
    assert!(rt; are_refused(&[0u64, 3], 3));
    Ok(())
}
