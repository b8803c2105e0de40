//! Columns of nulls and of byte strings of one size.
use crate::cases::{buffers, nodes};
use ipc_format_reading::InMemory;
use ipc_format_reading::array_reading::{read_fixed_size_binary, read_null};
use ipc_format_reading::columnar_memory::{DataType, Error};
use std::alloc::Global;
use std::test::*;

/// How many nulls are read, and how many nodes are left then; no number where what is asked for is out of the format.
fn nulls_of(
    alloc: Global,
    data_type: DataType,
    nodes_of: &[(i64, i64)],
    limit: Option<usize>,
) -> Result<(Option<usize>, usize), Fail> {
    let mut queue = nodes(alloc, nodes_of)?;
    match read_null(&mut queue, data_type, limit) {
        Ok(array) => {
            let len = array.len();
            drop(array);
            Ok((Some(len), queue.len()))
        }
        Err(Error::OutOfSpec(_)) => Ok((None, queue.len())),
        Err(_) => Err(Fail::from("refused")),
    }
}

#[test]
fn nulls_are_as_many_as_the_node_says(rt: HostRuntime) -> Result<(), Fail> {
    let alloc = rt.alloc();
    let (three, none) = (&[(3, 3)], &[]);
    assert_eq!(rt;
        nulls_of(alloc, DataType::Null, three, Some(2))?,
        (Some(2), 0)
    );
    assert_eq!(rt; nulls_of(alloc, DataType::Null, none, None)?, (None, 0));
    assert_eq!(rt; nulls_of(alloc, DataType::Int8, three, None)?, (None, 1));
    Ok(())
}

/// How many strings of a size are read in 1 and 6 bytes, the second of which is null.
fn strings(alloc: Global, size: usize, length: i64) -> Result<Result<usize, Error>, Fail> {
    let mut queue = nodes(alloc, &[(length, 1)])?;
    let mut places = buffers(alloc, &[(0, 1), (1, 6)])?;
    let mut room = InMemory {
        bytes: &[0b101, 1, 2, 3, 4, 5, 6],
    };
    let mut scratch = Vec::new(alloc);
    let found = read_fixed_size_binary(
        alloc,
        &mut queue,
        DataType::FixedSizeBinary(size),
        &mut places,
        &mut room,
        0,
        true,
        None,
        None,
        &mut scratch,
    );
    match found {
        Ok(array) => Ok(Ok(array.len())),
        Err(error) => Ok(Err(error)),
    }
}

#[test]
fn strings_of_one_size_have_a_byte_at_least(rt: HostRuntime) -> Result<(), Fail> {
    assert_eq!(rt; strings(rt.alloc(), 2, 3)?.ok(), Some(3));
    assert!(rt; matches!(strings(rt.alloc(), 0, 3)?, Err(Error::OutOfSpec(_))));
    assert!(rt; matches!(strings(rt.alloc(), 3, 3)?, Err(Error::OutOfSpec(_))));
    assert!(rt; matches!(strings(rt.alloc(), 1 << 63, 3)?, Err(Error::OutOfSpec(_))));
    Ok(())
}
