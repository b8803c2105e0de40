//! Columns that are passed over.
use crate::cases::{buffers, field, list, nodes, pair, union};
use ipc_format_reading::MetadataVersion;
use ipc_format_reading::array_reading::column_writing::column_reading::{
    skip, skip_binary, skip_boolean, skip_dictionary, skip_fixed_size_binary, skip_fixed_size_list,
    skip_list, skip_map, skip_null, skip_primitive, skip_struct, skip_union, skip_utf8,
};
use ipc_format_reading::columnar_memory::{Boxed, DataType, Text, UnionMode};
use std::alloc::Global;
use std::test::*;

/// How many nodes and buffers are left of eight of each behind a column of a type.
fn left(
    alloc: Global,
    data_type: &DataType,
    version: MetadataVersion,
) -> Result<(usize, usize), Fail> {
    let mut n = nodes(alloc, &[(1, 0); 8])?;
    let mut b = buffers(alloc, &[(0, 8); 8])?;
    if skip(&mut n, data_type, &mut b, version).is_err() {
        return Err(Fail::from("refused"));
    }
    Ok((n.len(), b.len()))
}

#[test]
fn plain_columns(rt: HostRuntime) -> Result<(), Fail> {
    let alloc = rt.alloc();
    let v5 = MetadataVersion::V5;
    assert_eq!(rt; left(alloc, &DataType::Null, v5)?, (7, 8));
    assert_eq!(rt; left(alloc, &DataType::Boolean, v5)?, (7, 6));
    assert_eq!(rt; left(alloc, &DataType::Date32, v5)?, (7, 6));
    assert_eq!(rt; left(alloc, &DataType::LargeBinary, v5)?, (7, 5));
    assert_eq!(rt; left(alloc, &DataType::Utf8, v5)?, (7, 5));
    assert_eq!(rt; left(alloc, &DataType::FixedSizeBinary(3), v5)?, (7, 6));
    Ok(())
}

#[test]
fn nested_columns(rt: HostRuntime) -> Result<(), Fail> {
    let alloc = rt.alloc();
    let v5 = MetadataVersion::V5;
    let lists = list(alloc, list(alloc, DataType::Utf8)?)?;
    assert_eq!(rt; left(alloc, &lists, v5)?, (5, 1));
    drop(lists);
    let structs = DataType::Struct(pair(alloc, DataType::Null, DataType::Int8)?);
    assert_eq!(rt; left(alloc, &structs, v5)?, (5, 5));
    let inner = Boxed::new(alloc, structs)?;
    let extension = DataType::Extension(Text::from_str(alloc, "e")?, inner, None);
    assert_eq!(rt; left(alloc, &extension, v5)?, (5, 5));
    drop(extension);
    Ok(())
}

#[test]
fn unions_of_both_versions(rt: HostRuntime) -> Result<(), Fail> {
    let alloc = rt.alloc();
    let sparse = union(alloc, UnionMode::Sparse)?;
    assert_eq!(rt; left(alloc, &sparse, MetadataVersion::V5)?, (5, 2));
    assert_eq!(rt; left(alloc, &sparse, MetadataVersion::V4)?, (5, 1));
    drop(sparse);
    let dense = union(alloc, UnionMode::Dense)?;
    assert_eq!(rt; left(alloc, &dense, MetadataVersion::V5)?, (5, 1));
    assert_eq!(rt; left(alloc, &dense, MetadataVersion::V1)?, (5, 0));
    drop(dense);
    Ok(())
}

#[test]
fn short_queues(rt: HostRuntime) -> Result<(), Fail> {
    let alloc = rt.alloc();
    let mut n = nodes(alloc, &[(1, 0)])?;
    let mut b = buffers(alloc, &[(0, 0), (0, 0), (0, 0), (0, 0)])?;
    let lists = list(alloc, DataType::Int32)?;
    assert!(rt; skip(&mut n, &lists, &mut b, MetadataVersion::V5).is_err());
    drop(lists);
    assert!(rt; skip_null(&mut n).is_err());
    n = nodes(alloc, &[(1, 0), (1, 0), (1, 0), (1, 0), (1, 0), (1, 0)])?;
    b = buffers(alloc, &[(0, 0), (0, 0)])?;
    assert!(rt; skip_utf8(&mut n, &mut b).is_err());
    assert!(rt; skip_boolean(&mut n, &mut b).is_err());
    assert!(rt; skip_primitive(&mut n, &mut b).is_err());
    assert!(rt; skip_binary(&mut n, &mut b).is_err());
    assert!(rt; skip_fixed_size_binary(&mut n, &mut b).is_err());
    assert!(rt; skip_dictionary(&mut n, &mut b).is_err());
    Ok(())
}

#[test]
fn each_kind_by_its_own_call(rt: HostRuntime) -> Result<(), Fail> {
    let alloc = rt.alloc();
    let v5 = MetadataVersion::V5;
    let mut n = nodes(alloc, &[(1, 0); 12])?;
    let mut b = buffers(alloc, &[(0, 8); 20])?;
    let lists = list(alloc, DataType::Int32)?;
    assert!(rt; skip_list::<i32>(&mut n, &lists, &mut b, v5).is_ok());
    assert!(rt; skip_list::<i64>(&mut n, &lists, &mut b, v5).is_err());
    assert!(rt; skip_map(&mut n, &lists, &mut b, v5).is_err());
    drop(lists);
    assert_eq!(rt; (n.len(), b.len()), (10, 16));
    let structs = DataType::Struct(pair(alloc, DataType::Null, DataType::Int8)?);
    assert!(rt; skip_struct(&mut n, &structs, &mut b, v5).is_ok());
    assert!(rt; skip_union(&mut n, &structs, &mut b, v5).is_err());
    assert_eq!(rt; (n.len(), b.len()), (7, 13));
    let entry = Boxed::new(alloc, field(alloc, structs)?)?;
    let map = DataType::Map(entry, false);
    assert!(rt; skip_map(&mut n, &map, &mut b, v5).is_ok());
    assert!(rt; skip_struct(&mut n, &map, &mut b, v5).is_err());
    drop(map);
    assert_eq!(rt; (n.len(), b.len()), (3, 8));
    let item = Boxed::new(alloc, field(alloc, DataType::Boolean)?)?;
    let fixed = DataType::FixedSizeList(item, 2);
    assert!(rt; skip_fixed_size_list(&mut n, &fixed, &mut b, v5).is_ok());
    assert!(rt; skip_fixed_size_list(&mut n, &DataType::Int8, &mut b, v5).is_err());
    drop(fixed);
    assert_eq!(rt; (n.len(), b.len()), (1, 5));
    Ok(())
}
