//! The bytes of columns of the jobs' types, by which what was built is compared: each buffer by itself, filled by zeros up to a multiple of 64
//! bytes, as the format lays them. Of keys the texts that they mean are left out.
use columnar_memory_types::{Error, Result};
use nested_arrays::columnar_memory::{Bitmap, NativeType};
use nested_arrays::flat_arrays::{PrimitiveArray, Utf8Array};
use nested_arrays::{AnyArray, AnyPrimitive, FlatNode, ListOffsets, Node, PrimitiveNode};
use std::convert::AsSlice;

/// The bytes of a buffer are a multiple of this.
const ALIGNMENT: usize = 64;

const ZEROS: [u8; 64] = [0; 64];

/// Puts the bytes of a buffer behind others, which are a multiple of 64.
fn put_buffer(bytes: &mut Vec<u8>, buffer: &[u8]) -> Result<()> {
    bytes.extend_from_slice(buffer)?;
    fill(bytes)
}

/// Fills bytes by zeros up to a multiple of 64.
fn fill(bytes: &mut Vec<u8>) -> Result<()> {
    let past = bytes.len() % ALIGNMENT;
    if past > 0 {
        bytes.extend_from_slice(&ZEROS[past..])?;
    }
    Ok(())
}

/// Puts the bytes of numbers, the lowest of each first.
fn put_numbers<T: NativeType>(bytes: &mut Vec<u8>, numbers: &[T]) -> Result<()> {
    for number in numbers {
        bytes.extend_from_slice(number.to_le_bytes().as_slice())?;
    }
    fill(bytes)
}

/// Puts the marks of slots, where some are null.
fn put_mask(bytes: &mut Vec<u8>, mask: Option<&Bitmap>) -> Result<()> {
    let Some(mask) = mask else {
        return Ok(());
    };
    let (marks, _, _) = mask.as_slice();
    put_buffer(bytes, marks)
}

fn put_array<T: NativeType>(bytes: &mut Vec<u8>, array: &PrimitiveArray<T>) -> Result<()> {
    put_mask(bytes, array.validity())?;
    put_numbers(bytes, array.values().as_slice())
}

/// The same of numbers of 32 or of 64 bits.
fn put_any_numbers(bytes: &mut Vec<u8>, array: &AnyPrimitive) -> Result<()> {
    match &array.node {
        PrimitiveNode::Int32(array) => put_array(bytes, array),
        PrimitiveNode::Int64(array) => put_array(bytes, array),
        _ => Err(Error::InvalidArgumentError("numbers that no job has")),
    }
}

fn put_texts(bytes: &mut Vec<u8>, array: &Utf8Array<i32>) -> Result<()> {
    put_mask(bytes, array.validity())?;
    put_numbers(bytes, array.offsets().as_slice())?;
    put_buffer(bytes, array.values().as_slice())
}

/// Puts the bytes of numbers or of texts.
fn put_flat(bytes: &mut Vec<u8>, array: &AnyArray) -> Result<()> {
    let Node::Flat(flat) = &array.node else {
        return Err(Error::InvalidArgumentError("a column that no job has"));
    };
    match &flat.node {
        FlatNode::Primitive(array) => put_any_numbers(bytes, array),
        FlatNode::Utf8(array) => put_texts(bytes, array),
        _ => Err(Error::InvalidArgumentError("a column that no job has")),
    }
}

fn put_offsets(bytes: &mut Vec<u8>, offsets: &ListOffsets) -> Result<()> {
    match offsets {
        ListOffsets::Small(offsets) => put_numbers(bytes, offsets.as_slice()),
        ListOffsets::Large(offsets) => put_numbers(bytes, offsets.as_slice()),
    }
}

/// Puts the bytes of a column of numbers, of texts, of keys, or of lists of the former.
///
/// # Errors
/// `InvalidArgumentError`: a column that no job has.
/// `OutOfMemory`: the bytes found no memory.
pub(crate) fn put_column(bytes: &mut Vec<u8>, array: &AnyArray) -> Result<()> {
    match &array.node {
        Node::List(node) => {
            put_mask(bytes, node.validity.as_ref())?;
            put_offsets(bytes, &node.offsets)?;
            put_flat(bytes, &node.values)
        }
        Node::Dictionary(node) => put_any_numbers(bytes, &node.keys),
        _ => put_flat(bytes, array),
    }
}
