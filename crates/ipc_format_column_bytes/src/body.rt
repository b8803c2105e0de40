//! What columns are written to.
ghost use Rattle.std.specs.List.{flat_map};
ghost use Rattle.std.specs.Option.{ForSome};
ghost use Rattle.std.specs.Prelude.{◌≡◌, ◌+◌, ◌-◌, ◌%◌, ◌≤◌, ◌≤ℤ◌, [], ◌∷◌, length, option_copied, pos, replicate, Some};
ghost use Rattle.ipc_format_column_bytes.specs.Appends.{Appends};
ghost use Rattle.ipc_format_column_bytes.specs.Bodies.{Adds, EndsBuffer, GivesBack, of_buffers, of_node, of_slots, parts, parts_of};
ghost use Rattle.ipc_format_column_bytes.specs.Numbers.{value_bytes, width_of};
ghost use Rattle.ipc_format_streams.specs.columnar_memory.Spans.{offsets_of};
ghost use Rattle.ipc_format_streams.specs.columns.StoredColumns.{cut_list, cut_mask};
ghost use Rattle.ipc_format_streams.specs.grammar.Buffers.{bitmap_bytes};
ghost use Rattle.ipc_format_streams.specs.grammar.StoredEncoding.{mask_bytes, mask_nulls, moved_bytes};

use crate::bitmaps::append_bitmap;
use crate::numbers::append_numbers;
use crate::offsets::append_offsets;
use ipc_format_streams::columnar_memory::{
    Bitmap, Error, NativeType, Offset, OffsetsBuffer, Result,
};
use ipc_format_streams::messages::{Buffer, FieldNode};
use std::mem::replace;

/// Buffers begin at multiples of this.
const ALIGNMENT: usize = 64;

const ZEROS: [u8; 64] = [0; 64];

/// What columns are written to: the nodes and buffers of a batch, the bytes of its body, and where the next buffer begins in it.
///
/// # Errors
/// What adds to it is refused so, and then more may stand behind what stood there before; the next buffer begins behind all that stand there.
/// - `Overflow`: a number of a node, or where a buffer ends, is past what the format states.
/// - `OutOfMemory`: it found no memory.
#[derive(Drop)]
pub struct Body {
    pub nodes: Vec<FieldNode>,
    pub buffers: Vec<Buffer>,
    pub bytes: Vec<u8>,
    pub offset: u64,
}

/// Adds zeros behind bytes that begin at a place, up to the next multiple of 64 of their number.
#[tactic(auto, using(crate::proofs::Bodies::nothing_behind))]
fn pad(to: &mut Vec<u8>, start: usize) -> Result<()>
    requires { start ≤ length to.old.items }
    ensures { Appends result to.old.items to.new.items (replicate ((64 - (length to.old.items - start) % 64) % 64) 0) }
{
    let past = (to.len() - start) % ALIGNMENT;
    if past == 0 {
        return Ok(());
    }
    to.extend_from_slice(&ZEROS[past..])?;
    Ok(())
}

/// How many of the `count` slots from slot `first` on a mask says are null.
fn nulls_in(validity: Option<&Bitmap>, first: usize, count: usize) -> usize
    requires { ForSome (option_copied validity) (λ mask. first + count ≤ length mask) }
    ensures { result ≡ mask_nulls (cut_mask (option_copied validity.entry) first count) }
{
    match validity {
        Some(mask) => mask.null_count_range(first, count),
        None => 0,
    }
}

impl Body {
    /// Adds the node of a column of so many slots, of which so many are null.
    pub fn add_node(&mut self, slots: usize, nulls: usize) -> Result<()>
        ensures { Adds result (parts_of self.old) (parts_of self.new) (of_node slots nulls) }
    {
        let Ok(length) = i64::try_from(slots) else {
            return Err(Error::Overflow);
        };
        let Ok(null_count) = i64::try_from(nulls) else {
            return Err(Error::Overflow);
        };
        self.nodes.push(FieldNode { length, null_count })?;
        Ok(())
    }

    /// Ends the buffer whose bytes stand from a place on: zeros up to the next multiple of 64 stand behind them.
    fn end_buffer(&mut self, start: usize) -> Result<()>
        requires { start ≤ length self.old.bytes.items }
        ensures { EndsBuffer result (parts_of self.old) (parts_of self.new) start }
    {
        let length = (self.bytes.len() - start) as u64;
        pad(&mut self.bytes, start)?;
        let padded = (self.bytes.len() - start) as u64;
        let end = match self.offset.checked_add(padded) {
            Some(end) if end <= i64::MAX as u64 => end,
            _ => return Err(Error::Overflow),
        };
        let offset = self.offset.cast_signed();
        let length = length.cast_signed();
        self.buffers.push(Buffer { offset, length })?;
        self.offset = end;
        Ok(())
    }

    /// Adds a buffer of some bytes.
    pub fn add_bytes(&mut self, bytes: &[u8]) -> Result<()>
        ensures { Adds result (parts_of self.old) (parts_of self.new) (of_buffers (bytes.now ∷ [])) }
    {
        let start = self.bytes.len();
        self.bytes.extend_from_slice(bytes)?;
        self.end_buffer(start)
    }

    /// Adds a buffer of the `count` bits from bit `first` on.
    pub fn add_bits(&mut self, bits: &Bitmap, first: usize, count: usize) -> Result<()>
        requires { first + count ≤ length bits.now }
        ensures { Adds result (parts_of self.old) (parts_of self.new) (of_buffers (bitmap_bytes (cut_list bits.now first count) ∷ [])) }
    {
        let start = self.bytes.len();
        append_bitmap(&mut self.bytes, bits, first, count)?;
        self.end_buffer(start)
    }

    /// Adds the buffer of the marks of the `count` slots from slot `first` on, which has no bytes where none of them is null.
    pub fn add_validity(
        &mut self,
        validity: Option<&Bitmap>,
        first: usize,
        count: usize,
    ) -> Result<()>
        requires { ForSome (option_copied validity) (λ mask. first + count ≤ length mask) }
        ensures { Adds result (parts_of self.old) (parts_of self.new)
            (of_buffers (mask_bytes (cut_mask (option_copied validity.entry) first count) ∷ [])) }
    {
        match validity {
            Some(mask) => self.add_marks(mask, first, count),
            None => self.add_bytes(&[]),
        }
    }

    /// The same of a mask that is there.
    fn add_marks(&mut self, mask: &Bitmap, first: usize, count: usize) -> Result<()>
        requires { first + count ≤ length mask.now }
        ensures { Adds result (parts_of self.old) (parts_of self.new)
            (of_buffers (mask_bytes (Some (cut_list mask.now first count)) ∷ [])) }
    {
        if mask.null_count_range(first, count) > 0 {
            self.add_bits(mask, first, count)
        } else {
            self.add_bytes(&[])
        }
    }

    /// Adds the node and the marks of the `count` slots from slot `first` on.
    pub fn add_slots(&mut self, validity: Option<&Bitmap>, first: usize, count: usize) -> Result<()>
        requires { ForSome (option_copied validity) (λ mask. first + count ≤ length mask) }
        ensures { Adds result (parts_of self.old) (parts_of self.new) (of_slots count (cut_mask (option_copied validity.entry) first count)) }
    {
        self.add_node(count, nulls_in(validity, first, count))?;
        self.add_validity(validity, first, count)
    }

    /// Adds a buffer of numbers, each by itself in the byte order.
    pub fn add_numbers<T: NativeType>(&mut self, values: &[T], is_little_endian: bool) -> Result<()>
        ensures { Adds result (parts_of self.old) (parts_of self.new)
            (of_buffers (flat_map (λ v. value_bytes is_little_endian T.PRIMITIVE (T.numbers v)) values.now ∷ [])) }
    {
        let start = self.bytes.len();
        append_numbers(&mut self.bytes, values, is_little_endian)?;
        self.end_buffer(start)
    }

    /// Adds a buffer of the offsets of the `count` spans from span `first` on, less the first one, each by itself in the byte order.
    pub fn add_offsets<O: Offset>(
        &mut self,
        offsets: &OffsetsBuffer<O>,
        first: usize,
        count: usize,
        is_little_endian: bool,
    ) -> Result<()>
        requires { first + count ≤ length offsets.now.lengths }
        ensures { Adds result (parts_of self.old) (parts_of self.new)
            (of_buffers (moved_bytes is_little_endian (width_of O.IS_LARGE) (cut_list (offsets_of offsets.now) first (count + 1)) ∷ [])) }
    {
        let start = self.bytes.len();
        append_offsets(&mut self.bytes, offsets, first, count, is_little_endian)?;
        self.end_buffer(start)
    }
}

/// How many nodes, buffers and bytes there were.
#[derive(Clone, Copy)]
pub struct Lengths {
    pub nodes: usize,
    pub buffers: usize,
    pub bytes: usize,
}

impl Body {
    /// The parts of a batch, which are left empty.
    pub fn taken(
        nodes: &mut Vec<FieldNode>,
        buffers: &mut Vec<Buffer>,
        bytes: &mut Vec<u8>,
        offset: i64,
    ) -> Body
        requires { pos 0 ≤ℤ offset }
        ensures taken { parts_of result ≡ parts nodes.old.items buffers.old.items bytes.old.items offset }
        ensures nodes_left { nodes.new.items ≡ [] }
        ensures buffers_left { buffers.new.items ≡ [] }
        ensures bytes_left { bytes.new.items ≡ [] }
    {
        let alloc = *bytes.allocator();
        Body {
            nodes: replace(nodes, Vec::new(alloc)),
            buffers: replace(buffers, Vec::new(alloc)),
            bytes: replace(bytes, Vec::new(alloc)),
            offset: offset.cast_unsigned(),
        }
    }

    /// Gives the parts back after a call that added to them: as they are, or, where it was refused, as they were when there were so many.
    pub fn give_back(
        self,
        answer: Result<()>,
        begun: Lengths,
        nodes: &mut Vec<FieldNode>,
        buffers: &mut Vec<Buffer>,
        bytes: &mut Vec<u8>,
        offset: &mut i64,
    ) -> Result<()>
        ensures { GivesBack answer (parts_of self) begun offset.old result (parts nodes.new.items buffers.new.items bytes.new.items offset.new) }
    {
        let Body {
            nodes: all_nodes,
            buffers: all_buffers,
            bytes: all_bytes,
            offset: end,
        } = self;
        *nodes = all_nodes;
        *buffers = all_buffers;
        *bytes = all_bytes;
        let refusal = match (answer, i64::try_from(end)) {
            (Ok(()), Ok(end)) => {
                *offset = end;
                return Ok(());
            }
            (Ok(()), Err(_)) => Error::Overflow,
            (Err(error), _) => error,
        };
        nodes.truncate(begun.nodes);
        buffers.truncate(begun.buffers);
        bytes.truncate(begun.bytes);
        Err(refusal)
    }
}
