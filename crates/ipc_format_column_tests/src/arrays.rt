//! Arrays that the tests write, and what is written of them.
use crate::cases::{list, one_field};
use ipc_format_reading::columnar_memory::{DataType, Error, OffsetsBuffer, UnionMode};
use ipc_format_reading::nested_arrays_core::flat_arrays::PrimitiveArray;
use ipc_format_reading::nested_arrays_core::{
    AnyArray, AnyPrimitive, FlatArray, ListArray, StructArray, ToBoxed, UnionArray,
    columnar_memory as memory,
};
use ipc_format_reading::{Buffer, FieldNode, write};
use std::alloc::Global;

/// The nodes, the buffers and the body of a batch.
#[derive(Drop)]
pub(crate) struct Batch {
    pub(crate) nodes: Vec<FieldNode>,
    pub(crate) buffers: Vec<Buffer>,
    pub(crate) bytes: Vec<u8>,
}

/// What is written of an array, alone in a batch.
pub(crate) fn written(
    alloc: Global,
    array: &AnyArray,
    is_little_endian: bool,
) -> Result<Batch, Error> {
    let (mut nodes, mut buffers, mut bytes) = (Vec::new(alloc), Vec::new(alloc), Vec::new(alloc));
    let mut offset = 0;
    write(
        array,
        &mut buffers,
        &mut bytes,
        &mut nodes,
        &mut offset,
        is_little_endian,
        None,
    )?;
    Ok(Batch {
        nodes,
        buffers,
        bytes,
    })
}

impl Batch {
    /// How long the columns are, and how many of their slots are null.
    pub(crate) fn nodes(&self, alloc: Global) -> Result<Vec<(i64, i64)>, Error> {
        let nodes = self.nodes.iter().map(|node| (node.length, node.null_count));
        Ok(nodes.collect(alloc)?)
    }

    /// Where the buffers begin, and how many bytes they state.
    pub(crate) fn buffers(&self, alloc: Global) -> Result<Vec<(i64, i64)>, Error> {
        let buffers = self
            .buffers
            .iter()
            .map(|buffer| (buffer.offset, buffer.length));
        Ok(buffers.collect(alloc)?)
    }
}

pub(crate) fn any_of(numbers: PrimitiveArray<i32>) -> AnyArray {
    AnyArray::from(FlatArray::from(AnyPrimitive::from_array(numbers)))
}

pub(crate) fn numbers(alloc: Global, values: &[i32]) -> Result<AnyArray, Error> {
    Ok(any_of(PrimitiveArray::from_slice(alloc, values)?))
}

/// Lists of the numbers 1 to 5 between the offsets 0, 2, 2, 3 and 5.
pub(crate) fn lists(alloc: Global) -> Result<AnyArray, Error> {
    let offsets: OffsetsBuffer<i32> = OffsetsBuffer::try_from(Vec::from_slice(
        alloc,
        &[0i32, 2, 2, 3, 5],
    )?)?;
    let items = Box::new(alloc, numbers(alloc, &[1, 2, 3, 4, 5])?)?;
    let data_type = list(alloc, DataType::Int32)?;
    Ok(ListArray::try_new(data_type, offsets, items, None)?.into_any())
}

/// A struct of two numbers.
pub(crate) fn record(alloc: Global) -> Result<StructArray, Error> {
    let fields = one_field(alloc, DataType::Int32)?;
    let mut children = Vec::new(alloc);
    children.push(numbers(alloc, &[7, 8])?)?;
    StructArray::try_new(DataType::Struct(fields), children, None)
}

/// A sparse union of three numbers of one child.
pub(crate) fn sparse(alloc: Global) -> Result<UnionArray, Error> {
    let fields = one_field(alloc, DataType::Int32)?;
    let mut children = Vec::new(alloc);
    children.push(numbers(alloc, &[7, 8, 9])?)?;
    let types = Vec::from_slice(alloc, &[0i8, 0, 0])?;
    let data_type = DataType::Union(fields, None, UnionMode::Sparse);
    let types = memory::Buffer::from_vec(types)?;
    UnionArray::try_new(data_type, types, children, None)
}
