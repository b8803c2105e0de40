//! Columns of dictionaries' keys.
use crate::cases::{column, id, keyed, no_id, one_field};
use ipc_format_reading::columnar_memory::{DataType, Error, Items};
use ipc_format_reading::nested_arrays_core::AnyArray;
use ipc_format_reading::{Dictionaries, IpcField, MetadataVersion};
use std::alloc::Global;
use std::test::*;

/// The array of one text, a.
fn texts(alloc: Global) -> Result<AnyArray, Error> {
    column(
        alloc,
        DataType::Utf8,
        &no_id(Items::new(alloc)),
        &Dictionaries::new(alloc),
        MetadataVersion::V5,
        &[(1, 0)],
        &[(0, 0), (0, 8), (8, 1)],
        &[0, 0, 0, 0, 1, 0, 0, 0, b'a'],
    )
}

/// The array of one record, whose field is the first value of dictionary 1.
fn records(
    alloc: Global,
    data_type: DataType,
    below: Items<IpcField>,
    standing: &Dictionaries,
) -> Result<AnyArray, Error> {
    column(
        alloc,
        data_type,
        &no_id(below),
        standing,
        MetadataVersion::V5,
        &[(1, 0), (1, 0)],
        &[(0, 0), (0, 0), (0, 1)],
        &[0],
    )
}

#[test]
fn records_of_a_dictionary_in_a_dictionary(rt: HostRuntime) -> Result<(), Fail> {
    let alloc = rt.alloc();
    let version = MetadataVersion::V5;
    let mut standing = Dictionaries::new(alloc);
    standing.insert(1, texts(alloc)?)?;
    let mut below = Items::new(alloc);
    below.push(id(1, Items::new(alloc)))?;
    let values = DataType::Struct(one_field(alloc, keyed(alloc, DataType::Utf8)?)?);
    let first = records(alloc, values.clone()?, below.clone()?, &standing)?;
    standing.insert(0, first)?;
    let (data_type, ids, place) = (keyed(alloc, values)?, id(0, below), &[(0, 0), (0, 1)]);
    let one = &[(1, 0)];
    let found = column(
        alloc,
        data_type.clone()?,
        &ids,
        &standing,
        version,
        one,
        place,
        &[0],
    )?;
    assert_eq!(rt; found.len(), 1);
    let refused = column(alloc, data_type, &ids, &standing, version, one, place, &[1]);
    assert!(rt; matches!(refused, Err(Error::OutOfSpec(_))));
    Ok(())
}
