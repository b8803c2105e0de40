//! Work on one column, alone in its batch.
use crate::columns::data::field;
use benches_timing::{Work, bytes_checksum};
use columnar_memory_types::{Error, Field, Items, Result};
use ipc_format::format::{Buffer, FieldNode, MetadataVersion};
use ipc_format::nested_arrays_core::{AnyArray, Array};
use ipc_format::{Chunk, Dictionaries, InMemory, IpcField, default_ipc_fields, read, write};
use std::alloc::Global;
use std::collections::VecDeque;

/// The nodes, the buffers and the body of a batch.
#[derive(Drop)]
pub(crate) struct Body {
    nodes: Vec<FieldNode>,
    buffers: Vec<Buffer>,
    bytes: Vec<u8>,
}

/// What is written of a column.
fn written(alloc: Global, array: &AnyArray) -> Result<Body> {
    let (mut nodes, mut buffers, mut bytes) = (Vec::new(alloc), Vec::new(alloc), Vec::new(alloc));
    let mut offset = 0;
    write(
        array,
        &mut buffers,
        &mut bytes,
        &mut nodes,
        &mut offset,
        true,
        None,
    )?;
    Ok(Body {
        nodes,
        buffers,
        bytes,
    })
}

/// A checksum of the bytes that are written of a column, or 0 where there is no memory for them.
fn column_checksum(alloc: Global, array: &AnyArray) -> u64 {
    match written(alloc, array) {
        Ok(body) => bytes_checksum(&body.bytes),
        Err(_) => 0,
    }
}

/// Batches that were read.
#[derive(Drop)]
pub(crate) struct Batches {
    pub alloc: Global,
    pub chunks: Vec<Chunk<AnyArray>>,
}

impl Batches {
    /// A checksum of all columns.
    pub(crate) fn checksum(&self) -> u64 {
        let mut sum = 0u64;
        for chunk in &self.chunks {
            for array in chunk.arrays() {
                let column = column_checksum(self.alloc, array);
                sum = sum.wrapping_mul(31).wrapping_add(column);
            }
        }
        sum
    }
}

/// `write` of a column.
#[derive(Drop)]
pub(crate) struct WriteColumn {
    alloc: Global,
    array: AnyArray,
}

impl WriteColumn {
    pub(crate) fn of(alloc: Global, array: AnyArray) -> WriteColumn {
        WriteColumn { alloc, array }
    }
}

impl Work for WriteColumn {
    type Made = Body;

    fn make(&self) -> Result<Body> {
        written(self.alloc, &self.array)
    }

    fn checksum(made: &Body) -> u64 {
        bytes_checksum(&made.bytes)
    }
}

/// `read` of a column.
#[derive(Drop)]
pub(crate) struct ReadColumn {
    alloc: Global,
    field: Field,
    ids: IpcField,
    dictionaries: Dictionaries,
    body: Body,
}

impl ReadColumn {
    /// The column and, where it has keys, the texts that they mean.
    pub(crate) fn of(
        alloc: Global,
        array: AnyArray,
        texts: Option<AnyArray>,
    ) -> Result<ReadColumn> {
        let mut fields = Items::new(alloc);
        fields.push(field(alloc, array.data_type().clone()?)?)?;
        let mut ids = default_ipc_fields(alloc, fields.as_slice())?;
        let Some(ids) = ids.pop() else {
            return Err(Error::InvalidArgumentError("no ids of a field"));
        };
        let mut dictionaries = Dictionaries::new(alloc);
        if let Some(texts) = texts {
            dictionaries.insert(0, texts)?;
        }
        Ok(ReadColumn {
            alloc,
            field: field(alloc, array.data_type().clone()?)?,
            ids,
            dictionaries,
            body: written(alloc, &array)?,
        })
    }
}

/// A column that was read.
#[derive(Drop)]
pub(crate) struct Column {
    alloc: Global,
    array: AnyArray,
}

impl Work for ReadColumn {
    type Made = Column;

    fn make(&self) -> Result<Column> {
        let alloc = self.alloc;
        let mut nodes = VecDeque::new(alloc);
        for node in &self.body.nodes {
            nodes.push_back(*node)?;
        }
        let mut buffers = VecDeque::new(alloc);
        for buffer in &self.body.buffers {
            buffers.push_back(*buffer)?;
        }
        let array = read(
            alloc,
            &mut nodes,
            &self.field,
            &self.ids,
            &mut buffers,
            &mut InMemory {
                bytes: &self.body.bytes,
            },
            &self.dictionaries,
            0,
            true,
            None,
            None,
            MetadataVersion::V5,
            &mut Vec::new(alloc),
        )?;
        Ok(Column { alloc, array })
    }

    fn checksum(made: &Column) -> u64 {
        column_checksum(made.alloc, &made.array)
    }
}
