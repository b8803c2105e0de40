//! Batches given to writers with the ids beside their columns, whether they are owned or borrowed.
use ipc_format::columnar_memory::Error;
use ipc_format::nested_arrays_core::flat_arrays::Utf8Array;
use ipc_format::nested_arrays_core::{AnyArray, FlatArray};
use ipc_format::{Chunk, IpcField, Record};
use std::alloc::Global;
use std::test::*;

/// One column of two texts.
fn texts(alloc: Global) -> Result<Chunk<AnyArray>, Error> {
    let column: Utf8Array<i32> = Utf8Array::from_slice(alloc, &["a", "b"])?;
    let mut arrays = Vec::new(alloc);
    arrays.push(AnyArray::from(FlatArray::from(column)))?;
    Chunk::try_new(arrays)
}

/// No id beside it.
fn no_ids(alloc: Global) -> Result<Vec<IpcField>, Error> {
    let mut ids = Vec::new(alloc);
    ids.push(IpcField::new(alloc))?;
    Ok(ids)
}

/// Whether what is borrowed equals what is owned, and a copy of it too.
fn are_equal(alloc: Global) -> Result<[bool; 3], Error> {
    let (chunk, ids) = (texts(alloc)?, no_ids(alloc)?);
    let borrowed = Record::from((&chunk, Some(ids.as_slice())));
    let owned = Record::from((texts(alloc)?, Some(no_ids(alloc)?)));
    let plain = Record::from(texts(alloc)?);
    Ok([
        borrowed == owned,
        borrowed.clone()? == owned.clone()?,
        borrowed == plain,
    ])
}

#[test]
fn a_borrowed_batch_equals_an_owned_one(rt: HostRuntime) -> Result<(), Fail> {
    assert_eq!(rt; are_equal(rt.alloc())?, [true, true, false]);
    let plain = Record::from(texts(rt.alloc())?);
    assert_eq!(rt; plain.columns().len(), 2);
    assert!(rt; plain.fields().is_none());
    let text = format!(in rt.alloc(); "{plain:?}")?;
    assert_eq!(rt;
        text.as_str(),
        "Record { columns: 1 of 2 rows, fields: None }"
    );
    drop(plain);
    Ok(())
}
