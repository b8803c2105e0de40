//! Columns of one kind.
use crate::cases::{buffers, field, no_id, no_ids, nodes, one_field};
use ipc_format_reading::columnar_memory::{Boxed, DataType, Error, Items, UnionMode};
use ipc_format_reading::nested_arrays_core::Array;
use ipc_format_reading::{
    Buffer, Dictionaries, FieldNode, InMemory, IpcField, MetadataVersion, read_fixed_size_list,
    read_large_list, read_list, read_map, read_struct, read_union,
};
use std::alloc::Global;
use std::collections::VecDeque;
use std::test::*;

/// What a column is read from, beside its bytes.
#[derive(Drop)]
struct Sent {
    nodes: VecDeque<FieldNode>,
    buffers: VecDeque<Buffer>,
    none: Dictionaries,
    scratch: Vec<u8>,
}

impl Sent {
    fn new(alloc: Global, lengths: &[(i64, i64)], places: &[(i64, i64)]) -> Result<Sent, Error> {
        Ok(Sent {
            nodes: nodes(alloc, lengths)?,
            buffers: buffers(alloc, places)?,
            none: Dictionaries::new(alloc),
            scratch: Vec::new(alloc),
        })
    }
}

/// A map of numbers by numbers, and no ids beside its fields.
fn map_of(alloc: Global) -> Result<(DataType, IpcField), Error> {
    let mut fields = one_field(alloc, DataType::Int8)?;
    fields.push(field(alloc, DataType::Int8)?)?;
    let entry = field(alloc, DataType::Struct(fields))?;
    let mut below = Items::new(alloc);
    below.push(no_id(Items::new(alloc)))?;
    below.push(no_id(Items::new(alloc)))?;
    let mut ids = Items::new(alloc);
    ids.push(no_id(below))?;
    Ok((DataType::Map(Boxed::new(alloc, entry)?, false), no_id(ids)))
}

#[test]
fn a_list_of_two_numbers(rt: HostRuntime) -> Result<(), Fail> {
    let alloc = rt.alloc();
    let item = Boxed::new(alloc, field(alloc, DataType::Int8)?)?;
    let mut sent = Sent::new(alloc, &[(1, 0), (2, 0)], &[(0, 0), (0, 0), (0, 2)])?;
    let found = read_fixed_size_list(
        alloc,
        &mut sent.nodes,
        DataType::FixedSizeList(item, 2),
        &no_ids(alloc)?,
        &mut sent.buffers,
        &mut InMemory { bytes: &[7, 8] },
        &sent.none,
        0,
        true,
        None,
        None,
        MetadataVersion::V5,
        &mut sent.scratch,
    )?;
    assert_eq!(rt; found.len(), 1);
    Ok(())
}

#[test]
fn a_list_of_two(rt: HostRuntime) -> Result<(), Fail> {
    let alloc = rt.alloc();
    let item = Boxed::new(alloc, field(alloc, DataType::Int8)?)?;
    let mut sent = Sent::new(alloc, &[(1, 0), (2, 0)], &[(0, 0), (0, 8), (0, 0), (8, 2)])?;
    let found = read_list(
        alloc,
        &mut sent.nodes,
        DataType::List(item),
        &no_ids(alloc)?,
        &mut sent.buffers,
        &mut InMemory {
            bytes: &[0, 0, 0, 0, 2, 0, 0, 0, 7, 8],
        },
        &sent.none,
        0,
        true,
        None,
        None,
        MetadataVersion::V5,
        &mut sent.scratch,
    )?;
    assert_eq!(rt; found.len(), 1);
    Ok(())
}

#[test]
fn a_large_list_of_one(rt: HostRuntime) -> Result<(), Fail> {
    let alloc = rt.alloc();
    let item = Boxed::new(alloc, field(alloc, DataType::Int8)?)?;
    let mut sent = Sent::new(
        alloc,
        &[(1, 0), (1, 0)],
        &[(0, 0), (0, 16), (0, 0), (16, 1)],
    )?;
    let found = read_large_list(
        alloc,
        &mut sent.nodes,
        DataType::LargeList(item),
        &no_ids(alloc)?,
        &mut sent.buffers,
        &mut InMemory {
            bytes: &[0, 0, 0, 0, 0, 0, 0, 0, 1, 0, 0, 0, 0, 0, 0, 0, 7],
        },
        &sent.none,
        0,
        true,
        None,
        None,
        MetadataVersion::V5,
        &mut sent.scratch,
    )?;
    assert_eq!(rt; found.len(), 1);
    Ok(())
}

#[test]
fn a_map_of_one_entry(rt: HostRuntime) -> Result<(), Fail> {
    let alloc = rt.alloc();
    let (data_type, ids) = map_of(alloc)?;
    let lengths = &[(1, 0), (1, 0), (1, 0), (1, 0)];
    let places = &[(0, 0), (0, 8), (0, 0), (0, 0), (8, 1), (0, 0), (9, 1)];
    let mut sent = Sent::new(alloc, lengths, places)?;
    let found = read_map(
        alloc,
        &mut sent.nodes,
        data_type,
        &ids,
        &mut sent.buffers,
        &mut InMemory {
            bytes: &[0, 0, 0, 0, 1, 0, 0, 0, 7, 8],
        },
        &sent.none,
        0,
        true,
        None,
        None,
        MetadataVersion::V5,
        &mut sent.scratch,
    )?;
    assert_eq!(rt; found.len(), 1);
    Ok(())
}

#[test]
fn a_record_of_a_number(rt: HostRuntime) -> Result<(), Fail> {
    let alloc = rt.alloc();
    let mut sent = Sent::new(alloc, &[(1, 0), (1, 0)], &[(0, 0), (0, 0), (0, 1)])?;
    let found = read_struct(
        alloc,
        &mut sent.nodes,
        DataType::Struct(one_field(alloc, DataType::Int8)?),
        &no_ids(alloc)?,
        &mut sent.buffers,
        &mut InMemory { bytes: &[5] },
        &sent.none,
        0,
        true,
        None,
        None,
        MetadataVersion::V5,
        &mut sent.scratch,
    )?;
    assert_eq!(rt; found.len(), 1);
    Ok(())
}

#[test]
fn a_sparse_union_of_numbers(rt: HostRuntime) -> Result<(), Fail> {
    let alloc = rt.alloc();
    let mut sent = Sent::new(alloc, &[(1, 0), (1, 0)], &[(0, 1), (0, 0), (1, 4)])?;
    let found = read_union(
        alloc,
        &mut sent.nodes,
        DataType::Union(one_field(alloc, DataType::Int32)?, None, UnionMode::Sparse),
        &no_ids(alloc)?,
        &mut sent.buffers,
        &mut InMemory {
            bytes: &[0, 7, 0, 0, 0],
        },
        &sent.none,
        0,
        true,
        None,
        None,
        MetadataVersion::V5,
        &mut sent.scratch,
    )?;
    assert_eq!(rt; found.len(), 1);
    Ok(())
}
