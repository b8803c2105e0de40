//! Record batches.
use crate::answers::{Short, told};
use crate::batches::{batch, counted_batch, field, ids, one_field, one_id};
use ipc_format::columnar_memory::{DataType, Error, Field, Items};
use ipc_format::{Dictionaries, IpcSchema};
use std::alloc::Global;
use std::test::*;

/// Numbers of four bytes and of one, the highest byte first.
fn two_numbers(alloc: Global) -> Result<(Items<Field>, IpcSchema), Error> {
    let mut fields = one_field(alloc, DataType::Int32)?;
    fields.push(field(alloc, DataType::Int8)?)?;
    let mut below = one_id(alloc, ids(None, Items::new(alloc)))?;
    below.push(ids(None, Items::new(alloc)))?;
    let schema = IpcSchema {
        fields: below,
        is_little_endian: false,
    };
    Ok((fields, schema))
}

#[test]
fn columns_of_one_length(rt: HostRuntime) -> Result<(), Fail> {
    let alloc = rt.alloc();
    let (fields, schema) = two_numbers(alloc)?;
    let none = Dictionaries::new(alloc);
    let (equal, unequal) = (&[(1, 0), (1, 0)], &[(1, 0), (0, 0)]);
    let places = &[(0, 0), (0, 4), (0, 0), (4, 1)];
    let body = [0, 0, 0, 7, 9];
    let found = batch(
        alloc,
        fields.as_slice(),
        &schema,
        &none,
        equal,
        places,
        &body,
    )?;
    let sizes = (found.arrays().len(), found.len());
    drop(found);
    let refused = told(batch(
        alloc,
        fields.as_slice(),
        &schema,
        &none,
        unequal,
        places,
        &body,
    ));
    assert_eq!(rt; sizes, (2, 1));
    assert_eq!(rt; refused, Short::OutOfSpec);
    Ok(())
}

#[test]
fn the_call_that_counts_answers_the_same(rt: HostRuntime) -> Result<(), Fail> {
    let alloc = rt.alloc();
    let (fields, schema) = two_numbers(alloc)?;
    let none = Dictionaries::new(alloc);
    let lengths = &[(1, 0), (1, 0)];
    let places = &[(0, 0), (0, 4), (0, 0), (4, 1)];
    let body = [0, 0, 0, 7, 9];
    let plain = batch(
        alloc,
        fields.as_slice(),
        &schema,
        &none,
        lengths,
        places,
        &body,
    )?;
    let counted = counted_batch(
        alloc,
        fields.as_slice(),
        &schema,
        &none,
        lengths,
        places,
        &body,
    )?;
    let is_same = counted == plain;
    drop(counted);
    drop(plain);
    assert!(rt; is_same);
    Ok(())
}
