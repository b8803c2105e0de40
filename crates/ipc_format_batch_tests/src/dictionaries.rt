//! Dictionary batches.
use crate::answers::{Short, told};
use crate::batches::{batch, dictionary, dictionary_of, ids, one_field, one_id};
use ipc_format::columnar_memory::{DataType, Error, Field, Items};
use ipc_format::nested_arrays_core::AnyArray;
use ipc_format::{Chunk, Dictionaries, IpcSchema};
use std::alloc::Global;
use std::test::*;

/// Records of a text by key, by key: the outer dictionary has the id 0, the inner one 1.
fn nested(alloc: Global) -> Result<(Items<Field>, IpcSchema), Error> {
    let inner = dictionary_of(alloc, DataType::Utf8)?;
    let outer = dictionary_of(alloc, DataType::Struct(one_field(alloc, inner)?))?;
    let below = one_id(alloc, ids(Some(1), Items::new(alloc)))?;
    let schema = IpcSchema {
        fields: one_id(alloc, ids(Some(0), below))?,
        is_little_endian: true,
    };
    Ok((one_field(alloc, outer)?, schema))
}

/// Reads the inner dictionary, of a text of one letter.
fn read_text(
    alloc: Global,
    fields: &[Field],
    schema: &IpcSchema,
    now: &mut Dictionaries,
    letter: u8,
) -> Result<(), Error> {
    let places = &[(0, 0), (0, 8), (8, 1)];
    let body = [0, 0, 0, 0, 1, 0, 0, 0, letter];
    dictionary(alloc, 1, fields, schema, now, &[(1, 0)], places, &body)
}

/// Reads the outer dictionary, of a record of the first text.
fn read_records(
    alloc: Global,
    fields: &[Field],
    schema: &IpcSchema,
    now: &mut Dictionaries,
) -> Result<(), Error> {
    let places = &[(0, 0), (0, 0), (0, 1)];
    dictionary(
        alloc,
        0,
        fields,
        schema,
        now,
        &[(1, 0), (1, 0)],
        places,
        &[0],
    )
}

/// A batch of the first record.
fn first_record(
    alloc: Global,
    fields: &[Field],
    schema: &IpcSchema,
    now: &Dictionaries,
) -> Result<Chunk<AnyArray>, Error> {
    batch(
        alloc,
        fields,
        schema,
        now,
        &[(1, 0)],
        &[(0, 0), (0, 1)],
        &[0],
    )
}

/// Whether the batch of the first record is as it was before.
fn is_as_before(
    alloc: Global,
    fields: &[Field],
    schema: &IpcSchema,
    now: &Dictionaries,
    before: &Chunk<AnyArray>,
) -> Result<bool, Error> {
    let chunk = first_record(alloc, fields, schema, now)?;
    Ok(chunk == *before)
}

/// Whether it is so once the text is another, and once the records are read again.
fn stays(
    alloc: Global,
    fields: &[Field],
    schema: &IpcSchema,
    now: &mut Dictionaries,
    before: &Chunk<AnyArray>,
) -> Result<(bool, bool), Error> {
    read_text(alloc, fields, schema, now, b'z')?;
    let later = is_as_before(alloc, fields, schema, now, before)?;
    read_records(alloc, fields, schema, now)?;
    Ok((later, is_as_before(alloc, fields, schema, now, before)?))
}

/// The dictionaries of the text a, and of its record.
fn of_a(alloc: Global, fields: &[Field], schema: &IpcSchema) -> Result<Dictionaries, Error> {
    let mut now = Dictionaries::new(alloc);
    read_text(alloc, fields, schema, &mut now, b'a')?;
    read_records(alloc, fields, schema, &mut now)?;
    Ok(now)
}

#[test]
fn records_keep_the_values_that_stood(rt: HostRuntime) -> Result<(), Fail> {
    let alloc = rt.alloc();
    let (fields, schema) = nested(alloc)?;
    let mut now = of_a(alloc, fields.as_slice(), &schema)?;
    let before = first_record(alloc, fields.as_slice(), &schema, &now)?;
    let found = stays(alloc, fields.as_slice(), &schema, &mut now, &before)?;
    assert_eq!(rt; found, (true, false));
    Ok(())
}

#[test]
fn an_id_that_no_field_has(rt: HostRuntime) -> Result<(), Fail> {
    let alloc = rt.alloc();
    let (fields, schema) = nested(alloc)?;
    let mut now = Dictionaries::new(alloc);
    let places = &[(0, 0), (0, 0), (0, 0)];
    let refused = dictionary(
        alloc,
        2,
        fields.as_slice(),
        &schema,
        &mut now,
        &[(0, 0)],
        places,
        &[],
    );
    assert_eq!(rt; (told(refused), now.len()), (Short::OutOfSpec, 0));
    Ok(())
}
