//! The structs of vectors: nodes and buffers of a record batch, blocks of a footer (Message.fbs, File.fbs).
ghost use Rattle.std.specs.Prelude.{◌≡◌, ◌↔◌, IsTrue, MatchOption, Some};
ghost use Rattle.std.specs.Option.{option_map};
ghost use Rattle.ipc_format_metadata.specs.flatbuffers.Views.{vector_of};
ghost use Rattle.ipc_format_metadata.specs.grammar.Messages as format;
ghost use Rattle.ipc_format_messages.specs.BufferLengths.{length_at, IsNoneOrLong};
ghost use Rattle.ipc_format_messages.specs.MessageSlots as slots;
ghost use Rattle.ipc_format_messages.specs.MessageViews.{node_view, buffer_view, block_view};

use crate::values::{Block, Buffer, FieldNode};
use crate::vectors::{BlocksRef, BuffersRef, FieldNodesRef};
use ipc_format_metadata::flatbuffers::{i32_at, i64_at};

impl<'a> FieldNodesRef<'a> {
    /// How many nodes there are.
    pub fn len(&self) -> usize
        ensures { result ≡ self.now.vector.count }
    {
        self.vector.count
    }

    /// Whether there are no nodes.
    pub fn is_empty(&self) -> bool
        ensures { IsTrue result ↔ (self.now.vector.count ≡ 0) }
    {
        self.vector.count == 0
    }

    /// Node `k`, where there are so many.
    #[tactic(auto, unfolding(crate::proofs::Passed::struct_at, crate::proofs::Passed::pair_at))]
    pub fn get(&self, k: usize) -> Option<FieldNode>
        ensures { option_map node_view result ≡ format.struct_at self.now.bytes.now (vector_of self.now.vector) k }
    {
        if k >= self.vector.count {
            return None;
        }
        let place = self.vector.place + 16 * k;
        let length = i64_at(self.bytes, place)?;
        let null_count = i64_at(self.bytes, place + 8)?;
        Some(FieldNode { length, null_count })
    }
}

impl<'a> BuffersRef<'a> {
    /// How many buffers there are.
    pub fn len(&self) -> usize
        ensures { result ≡ self.now.vector.count }
    {
        self.vector.count
    }

    /// Whether there are no buffers.
    pub fn is_empty(&self) -> bool
        ensures { IsTrue result ↔ (self.now.vector.count ≡ 0) }
    {
        self.vector.count == 0
    }

    /// Buffer `k`, where there are so many.
    #[tactic(auto, unfolding(crate::proofs::Passed::struct_at, crate::proofs::Passed::pair_at))]
    pub fn get(&self, k: usize) -> Option<Buffer>
        ensures { option_map buffer_view result ≡ format.struct_at self.now.bytes.now (vector_of self.now.vector) k }
    {
        if k >= self.vector.count {
            return None;
        }
        let place = self.vector.place + 16 * k;
        let offset = i64_at(self.bytes, place)?;
        let length = i64_at(self.bytes, place + 8)?;
        Some(Buffer { offset, length })
    }

    /// How many bytes buffer `k` states; none where it is negative.
    #[tactic(auto, unfolding(crate::specs::BufferLengths::length_at))]
    fn stated(&self, k: usize) -> Option<u64>
        ensures { result ≡ length_at self.now.bytes.now (vector_of self.now.vector) k }
    {
        u64::try_from(self.get(k)?.length).ok()
    }

    /// How many bytes all buffers state together: nothing where one of them is negative, or where the sum has more than 64 bits.
    pub fn lengths_sum(&self) -> Option<u64>
        ensures { MatchOption result (IsNoneOrLong (format.lengths_sum self.now.bytes.now (vector_of self.now.vector)))
            (λ n. format.lengths_sum self.now.bytes.now (vector_of self.now.vector) ≡ Some n) }
    {
        let mut sum: u64 = 0;
        for k in 0..self.vector.count {
            let length = self.stated(k)?;
            sum = sum.checked_add(length)?;
        }
        Some(sum)
    }
}

impl<'a> BlocksRef<'a> {
    /// How many blocks there are.
    pub fn len(&self) -> usize
        ensures { result ≡ self.now.vector.count }
    {
        self.vector.count
    }

    /// Whether there are no blocks.
    pub fn is_empty(&self) -> bool
        ensures { IsTrue result ↔ (self.now.vector.count ≡ 0) }
    {
        self.vector.count == 0
    }

    /// Block `k`, where there are so many.
    #[tactic(auto, unfolding(crate::specs::MessageSlots::block_at))]
    pub fn get(&self, k: usize) -> Option<Block>
        ensures { option_map block_view result ≡ slots.block_at self.now.bytes.now (vector_of self.now.vector) k }
    {
        if k >= self.vector.count {
            return None;
        }
        let place = self.vector.place + 24 * k;
        let offset = i64_at(self.bytes, place)?;
        let meta_data_length = i32_at(self.bytes, place + 8)?;
        let body_length = i64_at(self.bytes, place + 16)?;
        Some(Block {
            offset,
            meta_data_length,
            body_length,
        })
    }
}
