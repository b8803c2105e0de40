//! Writing of arrays behind what stands in the body of a record batch (Arrow IPC, "RecordBatch message").
ghost use Rattle.std.specs.Prelude.{◌≤ℤ◌, pos};
ghost use Rattle.ipc_format_column_reading.specs.column_bytes.Bodies.{Adds, Settles, parts, parts_of};
ghost use Rattle.ipc_format_column_reading.specs.column_bytes.WholeColumns.{behind_node};
ghost use Rattle.ipc_format_column_reading.specs.column_bytes.grammar.StoredEncoding.{encode_stored};
ghost use Rattle.ipc_format_column_writing.specs.Written.{Writes};

use crate::columns::{write_children, write_range};
use crate::own::add_union_buffers;
use crate::parts::Part;
use ipc_format_column_reading::column_bytes::columnar_memory::{Error, Result};
use ipc_format_column_reading::column_bytes::messages::{Buffer, FieldNode};
use ipc_format_column_reading::column_bytes::{Body, Lengths};
use nested_arrays_core::{AnyArray, StructArray, UnionArray};

/// How the buffers of a body are compressed (Arrow IPC, "Compression").
#[derive(Clone, Copy, PartialEq, Eq, Hash, Debug)]
pub enum Compression {
    LZ4,
    ZSTD,
}

/// Adds what a struct has behind its node: its mask, and its children.
fn write_behind_struct(array: &StructArray, body: &mut Body, is_little_endian: bool) -> Result<()>
    ensures { Adds result (parts_of body.old) (parts_of body.new) (behind_node (encode_stored is_little_endian array.now)) }
{
    array.whole();
    let count = array.len();
    let fields = array.values();
    body.add_validity(array.validity(), 0, count)?;
    write_children(fields, Part::Range(0, count), body, is_little_endian)
}

/// The same of a union: its ids, of a dense one the places, and its children.
fn write_behind_union(array: &UnionArray, body: &mut Body, is_little_endian: bool) -> Result<()>
    ensures { Adds result (parts_of body.old) (parts_of body.new) (behind_node (encode_stored is_little_endian array.now)) }
{
    let part = add_union_buffers(array, 0, array.len(), body, is_little_endian)?;
    write_children(array.fields(), part, body, is_little_endian)
}

/// Writes an array behind what stands in the body of a batch, as it is.
fn write_plain(
    array: &AnyArray,
    buffers: &mut Vec<Buffer>,
    arrow_data: &mut Vec<u8>,
    nodes: &mut Vec<FieldNode>,
    offset: &mut i64,
    is_little_endian: bool,
) -> Result<()>
    requires { pos 0 ≤ℤ offset.old }
    ensures { Settles result (parts nodes.old.items buffers.old.items arrow_data.old.items offset.old)
        (parts nodes.new.items buffers.new.items arrow_data.new.items offset.new) (encode_stored is_little_endian array.now) }
{
    let begun = Lengths {
        nodes: nodes.len(),
        buffers: buffers.len(),
        bytes: arrow_data.len(),
    };
    let mut body = Body::taken(nodes, buffers, arrow_data, *offset);
    let answer = write_range(array, 0, array.len(), &mut body, is_little_endian);
    body.give_back(answer, begun, nodes, buffers, arrow_data, offset)
}

/// The same of what a struct has behind its node.
fn write_plain_struct(
    array: &StructArray,
    buffers: &mut Vec<Buffer>,
    arrow_data: &mut Vec<u8>,
    nodes: &mut Vec<FieldNode>,
    offset: &mut i64,
    is_little_endian: bool,
) -> Result<()>
    requires { pos 0 ≤ℤ offset.old }
    ensures { Settles result (parts nodes.old.items buffers.old.items arrow_data.old.items offset.old)
        (parts nodes.new.items buffers.new.items arrow_data.new.items offset.new) (behind_node (encode_stored is_little_endian array.now)) }
{
    let begun = Lengths {
        nodes: nodes.len(),
        buffers: buffers.len(),
        bytes: arrow_data.len(),
    };
    let mut body = Body::taken(nodes, buffers, arrow_data, *offset);
    let answer = write_behind_struct(array, &mut body, is_little_endian);
    body.give_back(answer, begun, nodes, buffers, arrow_data, offset)
}

/// The same of what a union has behind its node.
fn write_plain_union(
    array: &UnionArray,
    buffers: &mut Vec<Buffer>,
    arrow_data: &mut Vec<u8>,
    nodes: &mut Vec<FieldNode>,
    offset: &mut i64,
    is_little_endian: bool,
) -> Result<()>
    requires { pos 0 ≤ℤ offset.old }
    ensures { Settles result (parts nodes.old.items buffers.old.items arrow_data.old.items offset.old)
        (parts nodes.new.items buffers.new.items arrow_data.new.items offset.new) (behind_node (encode_stored is_little_endian array.now)) }
{
    let begun = Lengths {
        nodes: nodes.len(),
        buffers: buffers.len(),
        bytes: arrow_data.len(),
    };
    let mut body = Body::taken(nodes, buffers, arrow_data, *offset);
    let answer = write_behind_union(array, &mut body, is_little_endian);
    body.give_back(answer, begun, nodes, buffers, arrow_data, offset)
}

/// Writes an array behind what stands in the body of a batch: its node and those of its children in pre-order, its buffers, each padded with
/// zeros to a multiple of 64 bytes, and where each stands, from an offset on, which moves to where the body ends.
///
/// Offsets are written less the first one, and of the items below them those between the first and the last; a cut sparse union's children
/// are written cut, a dense one's whole; of a dictionary the keys alone.
///
/// # Errors
/// Refused, all is as it was.
/// - `NotYetImplemented`: a compression is given.
/// - `Overflow`: a number of a node, or where a buffer ends, is past 2^63 - 1.
/// - `OutOfMemory`: the nodes, the buffers or the bytes found no memory.
pub fn write(
    array: &AnyArray,
    buffers: &mut Vec<Buffer>,
    arrow_data: &mut Vec<u8>,
    nodes: &mut Vec<FieldNode>,
    offset: &mut i64,
    is_little_endian: bool,
    compression: Option<Compression>,
) -> Result<()>
    requires { pos 0 ≤ℤ offset.old }
    ensures { Writes compression result (parts nodes.old.items buffers.old.items arrow_data.old.items offset.old)
        (parts nodes.new.items buffers.new.items arrow_data.new.items offset.new) (encode_stored is_little_endian array.now) }
{
    match compression {
        Some(_) => Err(Error::NotYetImplemented("compression of buffers")),
        None => write_plain(array, buffers, arrow_data, nodes, offset, is_little_endian),
    }
}

/// Writes what a struct has behind its node, its mask and its children, as `write` does.
///
/// # Errors
/// Those of `write`.
pub fn write_struct(
    array: &StructArray,
    buffers: &mut Vec<Buffer>,
    arrow_data: &mut Vec<u8>,
    nodes: &mut Vec<FieldNode>,
    offset: &mut i64,
    is_little_endian: bool,
    compression: Option<Compression>,
) -> Result<()>
    requires { pos 0 ≤ℤ offset.old }
    ensures { Writes compression result (parts nodes.old.items buffers.old.items arrow_data.old.items offset.old)
        (parts nodes.new.items buffers.new.items arrow_data.new.items offset.new) (behind_node (encode_stored is_little_endian array.now)) }
{
    match compression {
        Some(_) => Err(Error::NotYetImplemented("compression of buffers")),
        None => write_plain_struct(array, buffers, arrow_data, nodes, offset, is_little_endian),
    }
}

/// Writes what a union has behind its node, its ids, of a dense one the places of its slots, and its children, as `write` does.
///
/// # Errors
/// Those of `write`.
pub fn write_union(
    array: &UnionArray,
    buffers: &mut Vec<Buffer>,
    arrow_data: &mut Vec<u8>,
    nodes: &mut Vec<FieldNode>,
    offset: &mut i64,
    is_little_endian: bool,
    compression: Option<Compression>,
) -> Result<()>
    requires { pos 0 ≤ℤ offset.old }
    ensures { Writes compression result (parts nodes.old.items buffers.old.items arrow_data.old.items offset.old)
        (parts nodes.new.items buffers.new.items arrow_data.new.items offset.new) (behind_node (encode_stored is_little_endian array.now)) }
{
    match compression {
        Some(_) => Err(Error::NotYetImplemented("compression of buffers")),
        None => write_plain_union(array, buffers, arrow_data, nodes, offset, is_little_endian),
    }
}
