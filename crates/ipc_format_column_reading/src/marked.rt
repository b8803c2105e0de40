//! What the readers of columns begin with: how many slots are taken, and which of them are valid.
ghost use Rattle.std.specs.Prelude.{◌<◌, ◌^◌, is_some, IfOk};
ghost use Rattle.ipc_format_column_bytes.specs.flat_arrays.Flat.{IsMaskOf};
ghost use Rattle.ipc_format_column_reading.specs.Queues.{TakesOff};
ghost use Rattle.ipc_format_column_reading.specs.Reads.{next_marked};
ghost use Rattle.ipc_format_column_reading.specs.Rooms.{ReadsAs};

use crate::read_basic::{read_validity, slots_taken};
use crate::room::Room;
use ipc_format_column_bytes::streams::columnar_memory::{Bitmap, Error, Result};
use ipc_format_column_bytes::streams::messages as ipc;
use ipc_format_column_bytes::streams::messages::{BodyCompressionRef, FieldNode};
use std::alloc::Global;
use std::collections::VecDeque;

/// How many slots are taken of a column, and their validity where its node counts nulls.
#[derive(Drop)]
pub struct Marked {
    pub taken: usize,
    pub validity: Option<Bitmap>,
}

/// Takes a node and a buffer off the fronts, and reads the validity of the slots that are taken.
///
/// # Errors
/// As of `read_validity`; `OutOfSpec` also where there is no node.
pub fn read_marked<R: Room>(
    alloc: Global,
    field_nodes: &mut VecDeque<FieldNode>,
    buffers: &mut VecDeque<ipc::Buffer>,
    reader: &mut R,
    block_offset: u64,
    is_little_endian: bool,
    compression: Option<BodyCompressionRef<'_>>,
    limit: Option<usize>,
    scratch: &mut Vec<u8>,
) -> Result<Marked>
    ensures read { ReadsAs (is_some compression.entry) (R.told reader.old) (R.told reader.new) (λ marked. (marked.taken, marked.validity))
        (next_marked field_nodes.old.items limit buffers.old.items block_offset) result }
    ensures nodes { TakesOff 1 field_nodes.old.items field_nodes.new.items result }
    ensures buffers { TakesOff 1 buffers.old.items buffers.new.items result }
    ensures size { IfOk result (λ marked. IsMaskOf marked.taken marked.validity) }
    ensures small { IfOk result (λ marked. marked.taken < 2 ^ 63) }
{
    if compression.is_some() {
        return Err(Error::NotYetImplemented("compressed buffers"));
    }
    let Some(field_node) = field_nodes.pop_front() else {
        return Err(Error::OutOfSpec("MissingMessageNodes"));
    };
    let Some(taken) = slots_taken(field_node, limit) else {
        return Err(Error::OutOfSpec("UnexpectedNegativeInteger"));
    };
    let validity = read_validity(
        alloc,
        buffers,
        field_node,
        reader,
        block_offset,
        is_little_endian,
        compression,
        limit,
        scratch,
    )?;
    Ok(Marked { taken, validity })
}
