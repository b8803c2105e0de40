//! Messages that the tests read: their metadata, with nodes and buffers by their numbers.
use ipc_format::columnar_memory::{Boxed, DataType, Error, Field, IntegerType, Items, Steps, Text};
use ipc_format::format::{Buffer, FieldNode, MessageHeaderRef, MetadataVersion, message_in};
use ipc_format::nested_arrays_core::AnyArray;
use ipc_format::{
    Chunk, Dictionaries, InMemory, IpcField, IpcSchema, dictionary_batch_to_bytes, is_projection,
    read_dictionary, read_record_batch, read_record_batch_counted, record_batch_to_bytes,
};
use std::alloc::Global;

/// A field by the name `b`.
pub(crate) fn field(alloc: Global, data_type: DataType) -> Result<Field, Error> {
    Ok(Field::new(alloc, Text::from_str(alloc, "b")?, data_type, true))
}

/// One field of a type.
pub(crate) fn one_field(alloc: Global, data_type: DataType) -> Result<Items<Field>, Error> {
    let mut fields = Items::new(alloc);
    fields.push(field(alloc, data_type)?)?;
    Ok(fields)
}

/// Keys of eight bits into values of a type.
pub(crate) fn dictionary_of(alloc: Global, values: DataType) -> Result<DataType, Error> {
    Ok(DataType::Dictionary(IntegerType::Int8, Boxed::new(alloc, values)?, false))
}

/// The ids beside a field, over those beside the fields below it.
pub(crate) fn ids(dictionary_id: Option<i64>, fields: Items<IpcField>) -> IpcField {
    IpcField {
        fields,
        dictionary_id,
    }
}

/// The ids beside one field.
pub(crate) fn one_id(alloc: Global, field: IpcField) -> Result<Items<IpcField>, Error> {
    let mut fields = Items::new(alloc);
    fields.push(field)?;
    Ok(fields)
}

/// Nodes by their lengths and counts of nulls.
fn nodes(alloc: Global, pairs: &[(i64, i64)]) -> Result<Vec<FieldNode>, Error> {
    let mut nodes = Vec::new(alloc);
    for pair in pairs {
        nodes.push(FieldNode {
            length: pair.0,
            null_count: pair.1,
        })?;
    }
    Ok(nodes)
}

/// Buffers by their places and lengths.
fn buffers(alloc: Global, pairs: &[(i64, i64)]) -> Result<Vec<Buffer>, Error> {
    let mut buffers = Vec::new(alloc);
    for pair in pairs {
        buffers.push(Buffer {
            offset: pair.0,
            length: pair.1,
        })?;
    }
    Ok(buffers)
}

/// The metadata of a record batch of one row.
fn record_of(
    alloc: Global,
    lengths: &[(i64, i64)],
    places: &[(i64, i64)],
    body: &[u8],
) -> Result<Vec<u8>, Error> {
    let nodes = nodes(alloc, lengths)?;
    let buffers = buffers(alloc, places)?;
    record_batch_to_bytes(
        alloc,
        1,
        nodes.as_slice(),
        buffers.as_slice(),
        body.len() as u64,
    )
}

/// The metadata of a dictionary of one value.
fn values_of(
    alloc: Global,
    id: i64,
    lengths: &[(i64, i64)],
    places: &[(i64, i64)],
    body: &[u8],
) -> Result<Vec<u8>, Error> {
    let nodes = nodes(alloc, lengths)?;
    let buffers = buffers(alloc, places)?;
    dictionary_batch_to_bytes(
        alloc,
        id,
        1,
        nodes.as_slice(),
        buffers.as_slice(),
        body.len() as u64,
    )
}

/// What is read of a record batch with these nodes, buffers and bytes, in a schema.
pub(crate) fn batch(
    alloc: Global,
    fields: &[Field],
    schema: &IpcSchema,
    dictionaries: &Dictionaries,
    lengths: &[(i64, i64)],
    places: &[(i64, i64)],
    body: &[u8],
) -> Result<Chunk<AnyArray>, Error> {
    let metadata = record_of(alloc, lengths, places, body)?;
    let parts = message_in(metadata.as_slice()).ok_or(Error::OutOfSpec("no message"))?;
    let MessageHeaderRef::RecordBatch(header) = parts.header else {
        return Err(Error::OutOfSpec("no record batch"));
    };
    let mut room = InMemory { bytes: body };
    read_record_batch(
        alloc,
        &header,
        fields,
        schema,
        None,
        None,
        dictionaries,
        MetadataVersion::V5,
        &mut room,
        0,
        body.len() as u64,
        &mut Vec::new(alloc),
    )
}

/// The same by the call that counts.
pub(crate) fn counted_batch(
    alloc: Global,
    fields: &[Field],
    schema: &IpcSchema,
    dictionaries: &Dictionaries,
    lengths: &[(i64, i64)],
    places: &[(i64, i64)],
    body: &[u8],
) -> Result<Chunk<AnyArray>, Error> {
    let metadata = record_of(alloc, lengths, places, body)?;
    let parts = message_in(metadata.as_slice()).ok_or(Error::OutOfSpec("no message"))?;
    let MessageHeaderRef::RecordBatch(header) = parts.header else {
        return Err(Error::OutOfSpec("no record batch"));
    };
    let mut room = InMemory { bytes: body };
    read_record_batch_counted(
        alloc,
        &header,
        fields,
        schema,
        None,
        None,
        dictionaries,
        MetadataVersion::V5,
        &mut room,
        0,
        body.len() as u64,
        &mut Vec::new(alloc),
        &mut Steps::new(),
    )
}

/// What is read of chosen columns of a record batch with these nodes, buffers and bytes, where these may be chosen.
pub(crate) fn picked(
    alloc: Global,
    fields: &[Field],
    schema: &IpcSchema,
    version: MetadataVersion,
    columns: &[usize],
    lengths: &[(i64, i64)],
    places: &[(i64, i64)],
    body: &[u8],
) -> Result<Chunk<AnyArray>, Error> {
    let metadata = record_of(alloc, lengths, places, body)?;
    let parts = message_in(metadata.as_slice()).ok_or(Error::OutOfSpec("no message"))?;
    let MessageHeaderRef::RecordBatch(header) = parts.header else {
        return Err(Error::OutOfSpec("no record batch"));
    };
    if !is_projection(columns, fields.len()) {
        return Err(Error::InvalidArgumentError("no projection"));
    }
    let mut room = InMemory { bytes: body };
    read_record_batch(
        alloc,
        &header,
        fields,
        schema,
        Some(columns),
        None,
        &Dictionaries::new(alloc),
        version,
        &mut room,
        0,
        body.len() as u64,
        &mut Vec::new(alloc),
    )
}

/// Reads a dictionary batch with these nodes, buffers and bytes.
pub(crate) fn dictionary(
    alloc: Global,
    id: i64,
    fields: &[Field],
    schema: &IpcSchema,
    dictionaries: &mut Dictionaries,
    lengths: &[(i64, i64)],
    places: &[(i64, i64)],
    body: &[u8],
) -> Result<(), Error> {
    let metadata = values_of(alloc, id, lengths, places, body)?;
    let parts = message_in(metadata.as_slice()).ok_or(Error::OutOfSpec("no message"))?;
    let MessageHeaderRef::DictionaryBatch(header) = parts.header else {
        return Err(Error::OutOfSpec("no dictionary batch"));
    };
    let mut room = InMemory { bytes: body };
    read_dictionary(
        alloc,
        &header,
        fields,
        schema,
        dictionaries,
        MetadataVersion::V5,
        &mut room,
        0,
        body.len() as u64,
        &mut Vec::new(alloc),
    )
}
