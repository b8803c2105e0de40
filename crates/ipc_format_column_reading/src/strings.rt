//! What columns of byte strings and of texts share: validity, offsets and bytes.
ghost use Rattle.std.specs.Prelude.{◌≡◌, ◌≤◌, ◌⊎◌, is_some, length, IfOk, MatchResult};
ghost use Rattle.ipc_format_column_bytes.specs.flat_arrays.Flat.{IsMaskOf};
ghost use Rattle.ipc_format_column_bytes.specs.streams.columnar_memory.Error.{IsOutOfSpec};
ghost use Rattle.ipc_format_column_bytes.specs.streams.columnar_memory.Layouts.{physical_type};
ghost use Rattle.ipc_format_column_bytes.specs.streams.columnar_memory.Spans.{last_of, offsets_of};
ghost use Rattle.ipc_format_column_reading.specs.Queues.{TakesOff};
ghost use Rattle.ipc_format_column_reading.specs.Reads.{next_strings, strings_of};
ghost use Rattle.ipc_format_column_reading.specs.Rooms.{ReadsAs};

use crate::marked::read_marked;
use crate::offsets::read_offsets;
use crate::read_basic::read_bytes;
use crate::room::Room;
use ipc_format_column_bytes::streams::columnar_memory::{
    Bitmap, Buffer, DataType, Error, Offset, OffsetsBuffer, PhysicalType, Result,
};
use ipc_format_column_bytes::streams::messages as ipc;
use ipc_format_column_bytes::streams::messages::{BodyCompressionRef, FieldNode};
use std::alloc::Global;
use std::collections::VecDeque;

/// The parts of an array of byte strings or of texts.
#[derive(Drop)]
pub struct Strings<O: Offset> {
    pub offsets: OffsetsBuffer<O>,
    pub values: Buffer<u8>,
    pub validity: Option<Bitmap>,
}

/// Takes a node and three buffers off the fronts, and reads the validity, the offsets, and the bytes up to the last offset.
///
/// # Errors
/// As of `read_binary`.
pub fn read_strings<O: Offset, R: Room>(
    alloc: Global,
    field_nodes: &mut VecDeque<FieldNode>,
    buffers: &mut VecDeque<ipc::Buffer>,
    reader: &mut R,
    block_offset: u64,
    is_little_endian: bool,
    compression: Option<BodyCompressionRef<'_>>,
    limit: Option<usize>,
    scratch: &mut Vec<u8>,
) -> Result<Strings<O>>
    ensures read { ReadsAs (is_some compression.entry) (R.told reader.old) (R.told reader.new)
        (λ parts. strings_of (length parts.offsets.lengths) parts.validity (offsets_of parts.offsets) parts.values)
        (next_strings O.IS_LARGE field_nodes.old.items limit buffers.old.items is_little_endian block_offset) result }
    ensures nodes { TakesOff 1 field_nodes.old.items field_nodes.new.items result }
    ensures buffers { TakesOff 3 buffers.old.items buffers.new.items result }
    ensures masked { IfOk result (λ parts. IsMaskOf (length parts.offsets.lengths) parts.validity) }
    ensures within { IfOk result (λ parts. last_of parts.offsets ≤ length parts.values) }
{
    let marked = read_marked(
        alloc,
        field_nodes,
        buffers,
        reader,
        block_offset,
        is_little_endian,
        compression,
        limit,
        scratch,
    )?;
    let offsets = read_offsets::<O, R>(
        alloc,
        buffers,
        marked.taken,
        reader,
        block_offset,
        is_little_endian,
        compression,
        scratch,
    )?;
    let end = offsets.last().to_usize();
    let bytes = read_bytes(alloc, buffers, end, reader, block_offset, compression)?;
    let values = Buffer::from_vec(bytes)?;
    Ok(Strings {
        offsets,
        values,
        validity: marked.validity,
    })
}

/// Refuses a type whose arrays do not lie in memory as `layout` says.
fn refuse_other(data_type: &DataType, layout: PhysicalType) -> Result<()>
    ensures { MatchResult result (λ _. physical_type data_type.now ≡ layout)
        (λ error. IsOutOfSpec error × ¬ (physical_type data_type.now ≡ layout)) }
{
    if data_type.to_physical_type() != layout {
        return Err(Error::OutOfSpec("InvalidDataType"));
    }
    Ok(())
}

/// Reads as `read_strings` does where arrays of the type lie in memory as `layout` says. Another type is refused, and nothing is taken.
///
/// # Errors
/// As of `read_binary`.
pub fn read_strings_of<O: Offset, R: Room>(
    alloc: Global,
    field_nodes: &mut VecDeque<FieldNode>,
    data_type: &DataType,
    layout: PhysicalType,
    buffers: &mut VecDeque<ipc::Buffer>,
    reader: &mut R,
    block_offset: u64,
    is_little_endian: bool,
    compression: Option<BodyCompressionRef<'_>>,
    limit: Option<usize>,
    scratch: &mut Vec<u8>,
) -> Result<Strings<O>>
    ensures read { ((physical_type data_type.now ≡ layout)
        × ReadsAs (is_some compression.entry) (R.told reader.old) (R.told reader.new)
        (λ parts. strings_of (length parts.offsets.lengths) parts.validity (offsets_of parts.offsets) parts.values)
        (next_strings O.IS_LARGE field_nodes.old.items limit buffers.old.items is_little_endian block_offset) result
        × TakesOff 1 field_nodes.old.items field_nodes.new.items result × TakesOff 3 buffers.old.items buffers.new.items result)
        ⊎ (¬ (physical_type data_type.now ≡ layout) × MatchResult result (λ _. ⊥) IsOutOfSpec
        × (field_nodes.new.items ≡ field_nodes.old.items) × (buffers.new.items ≡ buffers.old.items)) }
    ensures masked { IfOk result (λ parts. IsMaskOf (length parts.offsets.lengths) parts.validity) }
    ensures within { IfOk result (λ parts. last_of parts.offsets ≤ length parts.values) }
{
    refuse_other(data_type, layout)?;
    read_strings::<O, R>(
        alloc,
        field_nodes,
        buffers,
        reader,
        block_offset,
        is_little_endian,
        compression,
        limit,
        scratch,
    )
}
