//! Arrays of each form, cut or whole, in either byte order.
use crate::arrays::{any_of, lists, numbers, record, sparse, written};
use ipc_format_reading::array_reading::column_writing::{write_struct, write_union};
use ipc_format_reading::columnar_memory::{Bitmap, Error};
use ipc_format_reading::nested_arrays_core::AnyArray;
use ipc_format_reading::nested_arrays_core::flat_arrays::PrimitiveArray;
use ipc_format_reading::{Compression, write};
use std::alloc::Global;
use std::test::*;

#[test]
fn a_mask_of_trues_is_left_out(rt: HostRuntime) -> Result<(), Fail> {
    let alloc = rt.alloc();
    let mut array: PrimitiveArray<i32> = PrimitiveArray::from_slice(alloc, &[1, 2])?;
    array.set_validity(Some(Bitmap::from_u8_slice(alloc, &[0b11], 2)?));
    let found = written(alloc, &any_of(array), true)?;
    assert_eq!(rt; found.nodes(alloc)?.as_slice(), &[(2, 0)][..]);
    assert_eq!(rt; found.buffers(alloc)?.as_slice(), &[(0, 0), (0, 8)][..]);
    Ok(())
}

#[test]
fn a_cut_list_begins_with_the_offset_0(rt: HostRuntime) -> Result<(), Fail> {
    let alloc = rt.alloc();
    let mut array = lists(alloc)?;
    assert!(rt; array.len() == 4);
    array.slice(2, 2);
    let found = written(alloc, &array, true)?;
    assert!(rt; found.bytes.len() >= 76);
    assert_eq!(rt; found.nodes(alloc)?.as_slice(), &[(2, 0), (3, 0)][..]);
    assert_eq!(rt;
        &found.bytes[..12],
        &[0, 0, 0, 0, 1, 0, 0, 0, 3, 0, 0, 0][..]
    );
    assert_eq!(rt;
        &found.bytes[64..76],
        &[3, 0, 0, 0, 4, 0, 0, 0, 5, 0, 0, 0][..]
    );
    Ok(())
}

#[test]
fn a_cut_sparse_union_has_cut_children(rt: HostRuntime) -> Result<(), Fail> {
    let alloc = rt.alloc();
    let mut array = AnyArray::from(sparse(alloc)?);
    assert!(rt; array.len() == 3);
    array.slice(1, 1);
    let found = written(alloc, &array, false)?;
    assert!(rt; found.bytes.len() >= 68);
    assert_eq!(rt; found.nodes(alloc)?.as_slice(), &[(1, 0), (1, 0)][..]);
    assert_eq!(rt;
        found.buffers(alloc)?.as_slice(),
        &[(0, 1), (64, 0), (64, 4)][..]
    );
    assert_eq!(rt; &found.bytes[64..68], &[0, 0, 0, 8][..]);
    Ok(())
}

#[test]
fn a_compression_is_refused(rt: HostRuntime) -> Result<(), Fail> {
    let alloc = rt.alloc();
    let array = numbers(alloc, &[1])?;
    let (mut nodes, mut buffers, mut bytes) = (Vec::new(alloc), Vec::new(alloc), Vec::new(alloc));
    let mut offset = 0;
    let answer = write(
        &array,
        &mut buffers,
        &mut bytes,
        &mut nodes,
        &mut offset,
        true,
        Some(Compression::LZ4),
    );
    assert!(rt; matches!(answer, Err(Error::NotYetImplemented(_))));
    assert_eq!(rt; (nodes.len(), buffers.len(), bytes.len()), (0, 0, 0));
    Ok(())
}

/// How many nodes and buffers are written of a struct behind its node, and where the next buffer begins.
fn struct_parts(alloc: Global) -> Result<(usize, usize, i64), Error> {
    let array = record(alloc)?;
    let (mut nodes, mut buffers, mut bytes) = (Vec::new(alloc), Vec::new(alloc), Vec::new(alloc));
    let mut offset = 0;
    write_struct(
        &array,
        &mut buffers,
        &mut bytes,
        &mut nodes,
        &mut offset,
        true,
        None,
    )?;
    Ok((nodes.len(), buffers.len(), offset))
}

/// The same of a union.
fn union_parts(alloc: Global) -> Result<(usize, usize, i64), Error> {
    let array = sparse(alloc)?;
    let (mut nodes, mut buffers, mut bytes) = (Vec::new(alloc), Vec::new(alloc), Vec::new(alloc));
    let mut offset = 0;
    write_union(
        &array,
        &mut buffers,
        &mut bytes,
        &mut nodes,
        &mut offset,
        true,
        None,
    )?;
    Ok((nodes.len(), buffers.len(), offset))
}

#[test]
fn structs_and_unions_are_written_without_their_nodes(rt: HostRuntime) -> Result<(), Fail> {
    assert_eq!(rt; struct_parts(rt.alloc())?, (1, 3, 64));
    assert_eq!(rt; union_parts(rt.alloc())?, (1, 3, 128));
    Ok(())
}
