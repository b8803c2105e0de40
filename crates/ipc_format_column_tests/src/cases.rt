//! Types, ids, queues and columns that the tests share.
use ipc_format_reading::columnar_memory::{
    Boxed, DataType, Error, Field, IntegerType, Items, Text, UnionMode,
};
use ipc_format_reading::nested_arrays_core::AnyArray;
use ipc_format_reading::{
    Buffer, Dictionaries, FieldNode, InMemory, IpcField, MetadataVersion, read,
};
use std::alloc::Global;
use std::collections::VecDeque;

/// A node of so many slots, so many of which are null.
pub(crate) fn node(length: i64, null_count: i64) -> FieldNode {
    FieldNode { length, null_count }
}

/// The nodes of some pairs of slots and nulls.
pub(crate) fn nodes(alloc: Global, pairs: &[(i64, i64)]) -> Result<VecDeque<FieldNode>, Error> {
    let mut nodes = VecDeque::new(alloc);
    for pair in pairs {
        nodes.push_back(node(pair.0, pair.1))?;
    }
    Ok(nodes)
}

/// The buffers of some pairs of offsets and lengths.
pub(crate) fn buffers(alloc: Global, pairs: &[(i64, i64)]) -> Result<VecDeque<Buffer>, Error> {
    let mut buffers = VecDeque::new(alloc);
    for pair in pairs {
        buffers.push_back(Buffer {
            offset: pair.0,
            length: pair.1,
        })?;
    }
    Ok(buffers)
}

/// A field of a type.
pub(crate) fn field(alloc: Global, data_type: DataType) -> Result<Field, Error> {
    Ok(Field::new(alloc, Text::from_str(alloc, "x")?, data_type, true))
}

/// The field of one type.
pub(crate) fn one_field(alloc: Global, data_type: DataType) -> Result<Items<Field>, Error> {
    let mut fields = Items::new(alloc);
    fields.push(field(alloc, data_type)?)?;
    Ok(fields)
}

/// The fields of two types.
pub(crate) fn pair(
    alloc: Global,
    first: DataType,
    second: DataType,
) -> Result<Items<Field>, Error> {
    let mut fields = one_field(alloc, first)?;
    fields.push(field(alloc, second)?)?;
    Ok(fields)
}

/// A list of a type.
pub(crate) fn list(alloc: Global, data_type: DataType) -> Result<DataType, Error> {
    Ok(DataType::List(Boxed::new(alloc, field(alloc, data_type)?)?))
}

/// A union of numbers and texts.
pub(crate) fn union(alloc: Global, mode: UnionMode) -> Result<DataType, Error> {
    let fields = pair(alloc, DataType::Int32, DataType::Utf8)?;
    Ok(DataType::Union(fields, None, mode))
}

/// A dictionary's type, with keys of a byte.
pub(crate) fn keyed(alloc: Global, values: DataType) -> Result<DataType, Error> {
    Ok(DataType::Dictionary(IntegerType::Int8, Boxed::new(alloc, values)?, false))
}

/// An id beside a field, and these beside the fields below it.
pub(crate) fn id(id: i64, fields: Items<IpcField>) -> IpcField {
    IpcField {
        fields,
        dictionary_id: Some(id),
    }
}

/// No id beside a field, and these beside the fields below it.
pub(crate) fn no_id(fields: Items<IpcField>) -> IpcField {
    IpcField {
        fields,
        dictionary_id: None,
    }
}

/// No id beside a field, nor beside the one below it.
pub(crate) fn no_ids(alloc: Global) -> Result<IpcField, Error> {
    let mut fields = Items::new(alloc);
    fields.push(no_id(Items::new(alloc)))?;
    Ok(no_id(fields))
}

/// What is read of a column, alone in a batch with these nodes, buffers and bytes.
pub(crate) fn column(
    alloc: Global,
    data_type: DataType,
    ids: &IpcField,
    dictionaries: &Dictionaries,
    version: MetadataVersion,
    lengths: &[(i64, i64)],
    places: &[(i64, i64)],
    bytes: &[u8],
) -> Result<AnyArray, Error> {
    let field = field(alloc, data_type)?;
    let (mut nodes, mut buffers) = (nodes(alloc, lengths)?, buffers(alloc, places)?);
    let mut room = InMemory { bytes };
    read(
        alloc,
        &mut nodes,
        &field,
        ids,
        &mut buffers,
        &mut room,
        dictionaries,
        0,
        true,
        None,
        None,
        version,
        &mut Vec::new(alloc),
    )
}
