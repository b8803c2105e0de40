//! Chosen columns of record batches.
use crate::answers::{Short, told};
use crate::batches::{field, ids, one_field, one_id, picked};
use ipc_format::columnar_memory::{DataType, Error, Field, Items, UnionMode};
use ipc_format::format::MetadataVersion;
use ipc_format::nested_arrays_core::AnyArray;
use ipc_format::{
    Chunk, IpcSchema, ProjectionIter, ProjectionResult, apply_projection, is_choice,
    prepare_projection, rises,
};
use std::alloc::Global;
use std::test::*;

/// A sparse union of one child, and numbers of four bytes behind it.
fn union_and_numbers(alloc: Global) -> Result<(Items<Field>, IpcSchema), Error> {
    let children = one_field(alloc, DataType::Int32)?;
    let mut fields = one_field(alloc, DataType::Union(children, None, UnionMode::Sparse))?;
    fields.push(field(alloc, DataType::Int32)?)?;
    let child = one_id(alloc, ids(None, Items::new(alloc)))?;
    let mut below = one_id(alloc, ids(None, child))?;
    below.push(ids(None, Items::new(alloc)))?;
    let schema = IpcSchema {
        fields: below,
        is_little_endian: true,
    };
    Ok((fields, schema))
}

/// What is read of one of these columns, where the buffers of the union stand outside of the body.
fn read_one(
    alloc: Global,
    version: MetadataVersion,
    column: usize,
    places: &[(i64, i64)],
) -> Short {
    let Ok((fields, schema)) = union_and_numbers(alloc) else {
        return Short::Other;
    };
    told(picked(
        alloc,
        fields.as_slice(),
        &schema,
        version,
        &[column],
        &[(1, 0), (1, 0), (1, 0)],
        places,
        &[7, 0, 0, 0],
    ))
}

#[test]
fn what_is_not_chosen_is_counted(rt: HostRuntime) {
    let alloc = rt.alloc();
    let (past, mask, numbers) = ((100, 0), (0, 0), (0, 4));
    let five = [past, past, past, mask, numbers];
    let six = [past, past, past, past, mask, numbers];
    assert_eq!(rt; read_one(alloc, MetadataVersion::V5, 1, &five), Short::Done);
    assert_eq!(rt;
        read_one(alloc, MetadataVersion::V5, 0, &five),
        Short::OutOfSpec
    );
    assert_eq!(rt;
        read_one(alloc, MetadataVersion::V4, 1, &five),
        Short::OutOfSpec
    );
    assert_eq!(rt; read_one(alloc, MetadataVersion::V4, 1, &six), Short::Done);
}

/// Columns of numbers of four bytes and of one.
fn two_numbers(alloc: Global) -> Result<(Items<Field>, IpcSchema), Error> {
    let mut fields = one_field(alloc, DataType::Int32)?;
    fields.push(field(alloc, DataType::Int8)?)?;
    let mut below = one_id(alloc, ids(None, Items::new(alloc)))?;
    below.push(ids(None, Items::new(alloc)))?;
    let schema = IpcSchema {
        fields: below,
        is_little_endian: true,
    };
    Ok((fields, schema))
}

/// The columns of a batch in the asked order, where they may be asked for.
fn in_asked_order(alloc: Global, asked: Vec<usize>) -> Result<Option<Chunk<AnyArray>>, Error> {
    let (fields, schema) = two_numbers(alloc)?;
    let count = asked.len();
    if !is_choice(asked.as_slice(), fields.len()) {
        return Ok(None);
    }
    let (rising, map, _) = prepare_projection(alloc, fields.as_slice(), asked)?;
    let chunk = picked(
        alloc,
        fields.as_slice(),
        &schema,
        MetadataVersion::V5,
        rising.as_slice(),
        &[(1, 0), (1, 0)],
        &[(0, 0), (0, 4), (0, 0), (4, 1)],
        &[7, 0, 0, 0, 9],
    )?;
    if chunk.arrays().len() != count {
        return Ok(None);
    }
    Ok(Some(apply_projection(alloc, chunk, &map)?))
}

#[test]
fn columns_are_put_where_they_were_asked_for(rt: HostRuntime) -> Result<(), Fail> {
    let alloc = rt.alloc();
    let found = in_asked_order(alloc, Vec::from_slice(alloc, &[1, 0])?)?;
    let types = match &found {
        Some(chunk) => match chunk.arrays() {
            [first, second] => (
                first.data_type() == &DataType::Int8,
                second.data_type() == &DataType::Int32,
            ),
            _ => (false, false),
        },
        None => (false, false),
    };
    drop(found);
    let twice = in_asked_order(alloc, Vec::from_slice(alloc, &[1, 1])?)?.is_none();
    assert_eq!(rt; types, (true, true));
    assert!(rt; twice);
    Ok(())
}

#[test]
fn items_are_selected_by_their_places(rt: HostRuntime) {
    let items = [10_u8, 11, 12, 13, 14];
    let mut found = ProjectionIter::new(&[0, 2, 4], items.iter());
    for (place, item) in items.iter().enumerate() {
        let wanted = if place % 2 == 0 {
            Some(ProjectionResult::Selected(item))
        } else {
            Some(ProjectionResult::NotSelected(item))
        };
        assert!(rt; found.next() == wanted);
    }
    assert!(rt; found.next() == None);
}

#[test]
fn places_rise(rt: HostRuntime) {
    assert_eq!(rt;
        (rises(&[]), rises(&[0, 2, 4]), rises(&[usize::MAX])),
        (true, true, true)
    );
    assert_eq!(rt;
        (rises(&[1, 1]), rises(&[2, 0]), rises(&[usize::MAX, 0])),
        (false, false, false)
    );
}

#[test]
fn no_place_selects_no_item(rt: HostRuntime) {
    let items = [10_u8, 11, 12, 13, 14];
    let mut found = ProjectionIter::new(&[], items.iter());
    for item in &items {
        assert!(rt; found.next() == Some(ProjectionResult::NotSelected(item)));
    }
    assert!(rt; found.next() == None);
}
