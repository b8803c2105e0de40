use nested_arrays_dictionary_builders::cells::parts::Strings;
use std::test::Fail;

#[test]
fn strings_are_cut_back(rt: HostRuntime) -> Result<(), Fail> {
    let mut strings = Strings::<i32>::new(rt.alloc())?;
    strings.push(b"abc")?;
    strings.push(b"")?;
    strings.push(b"de")?;
    assert_eq!(rt; strings.len(), 3);
    strings.truncate(1);
    strings.push(b"fg")?;
    let (offsets, bytes) = strings.freeze()?;
    assert!(rt; offsets.as_slice() == [0, 3, 5].as_slice());
    assert!(rt; bytes.as_slice() == b"abcfg".as_slice());
    drop(offsets);
    drop(bytes);
    Ok(())
}
