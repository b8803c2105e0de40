//! Columns with columns below them.
use crate::cases::{column, field, list, no_ids, one_field};
use ipc_format_reading::columnar_memory::{Boxed, DataType, Error, UnionMode};
use ipc_format_reading::nested_arrays_core::{AnyArray, Array};
use ipc_format_reading::{Dictionaries, MetadataVersion};
use std::alloc::Global;
use std::test::*;

#[test]
fn lists_of_numbers(rt: HostRuntime) -> Result<(), Fail> {
    let alloc = rt.alloc();
    let found = column(
        alloc,
        list(alloc, DataType::Int8)?,
        &no_ids(alloc)?,
        &Dictionaries::new(alloc),
        MetadataVersion::V5,
        &[(2, 1), (3, 0)],
        &[(0, 1), (1, 12), (0, 0), (13, 3)],
        &[0b10, 0, 0, 0, 0, 1, 0, 0, 0, 3, 0, 0, 0, 7, 8, 9],
    )?;
    assert_eq!(rt; (found.len(), found.null_count()), (2, 1));
    Ok(())
}

/// A sparse union of one number, as a schema of one version has it in buffers.
fn union_of(
    alloc: Global,
    version: MetadataVersion,
    buffers: &[(i64, i64)],
) -> Result<AnyArray, Error> {
    column(
        alloc,
        DataType::Union(one_field(alloc, DataType::Int32)?, None, UnionMode::Sparse),
        &no_ids(alloc)?,
        &Dictionaries::new(alloc),
        version,
        &[(1, 0), (1, 0)],
        buffers,
        &[0, 7, 0, 0, 0],
    )
}

#[test]
fn a_union_before_V5_has_a_buffer_more(rt: HostRuntime) -> Result<(), Fail> {
    let alloc = rt.alloc();
    let (types, mask, numbers) = ((0, 1), (0, 0), (1, 4));
    let older = union_of(alloc, MetadataVersion::V4, &[(0, 0), types, mask, numbers])?;
    let newer = union_of(alloc, MetadataVersion::V5, &[types, mask, numbers])?;
    assert_eq!(rt; (older.len(), older == newer), (1, true));
    Ok(())
}

#[test]
fn lists_of_nulls_are_as_many_as_their_nodes_say(rt: HostRuntime) -> Result<(), Fail> {
    let alloc = rt.alloc();
    let (ids, none) = (no_ids(alloc)?, Dictionaries::new(alloc));
    let version = MetadataVersion::V5;
    let item = Boxed::new(alloc, field(alloc, DataType::Null)?)?;
    let lists = DataType::FixedSizeList(item, 2_147_483_647);
    let many = &[(4_294_967_296, 0), (9_223_372_032_559_808_512, 0)];
    let found = column(
        alloc,
        lists.clone()?,
        &ids,
        &none,
        version,
        many,
        &[(0, 0)],
        &[],
    )?;
    assert_eq!(rt; found.len(), 4_294_967_296);
    let more = &[(8_589_934_592, 0), (9_223_372_036_854_775_807, 0)];
    let refused = column(alloc, lists, &ids, &none, version, more, &[(0, 0)], &[]);
    assert!(rt; matches!(refused, Err(Error::OutOfSpec(_))));
    Ok(())
}

#[test]
fn a_struct_has_a_validity_buffer(rt: HostRuntime) -> Result<(), Fail> {
    let alloc = rt.alloc();
    let (ids, none) = (no_ids(alloc)?, Dictionaries::new(alloc));
    let version = MetadataVersion::V5;
    let records = DataType::Struct(one_field(alloc, DataType::Null)?);
    let lengths = &[(2, 0), (2, 2)];
    let refused = column(
        alloc,
        records.clone()?,
        &ids,
        &none,
        version,
        lengths,
        &[],
        &[],
    );
    assert!(rt; matches!(refused, Err(Error::OutOfSpec(_))));
    let found = column(
        alloc,
        records,
        &ids,
        &none,
        version,
        lengths,
        &[(0, 0)],
        &[],
    )?;
    assert_eq!(rt; found.len(), 2);
    Ok(())
}
