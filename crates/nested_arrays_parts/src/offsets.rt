//! Offsets of lists.
ghost use Rattle.std.specs.Prelude.{◌≡◌, ◌+◌, ◌≤◌, length};
ghost use Rattle.nested_arrays_flat.specs.columnar_memory.Spans.{spans_between};
ghost use Rattle.nested_arrays_parts.specs.Widths.{spans_in, layout_of};

use nested_arrays_flat::columnar_memory::{Offset, OffsetsBuffer};

/// Narrows offsets to those of the `count` spans from `offset` on.
pub fn slice_offsets<O: Offset>(offsets: &mut OffsetsBuffer<O>, offset: usize, count: usize)
    requires { offset + count ≤ length offsets.old.lengths }
    ensures { offsets.new ≡ spans_between offsets.old offset count }
{
    let _all = offsets.len();
    offsets.slice(offset, count + 1);
}

/// The offsets of lists, of 32 or of 64 bits.
#[derive(Debug, Drop)]
pub enum ListOffsets {
    Small(OffsetsBuffer<i32>),
    Large(OffsetsBuffer<i64>),
}

impl ListOffsets {
    /// How many lists there are.
    pub fn lists(&self) -> usize
        ensures { result ≡ length (spans_in self.now).lengths }
    {
        match self {
            ListOffsets::Small(offsets) => offsets.len_proxy(),
            ListOffsets::Large(offsets) => offsets.len_proxy(),
        }
    }

    /// Narrows this to the offsets of the `count` lists from `offset` on.
    pub fn slice(&mut self, offset: usize, count: usize)
        requires { offset + count ≤ length (spans_in self.old).lengths }
        ensures spans { spans_in self.new ≡ spans_between (spans_in self.old) offset count }
        ensures width { layout_of self.new ≡ layout_of self.old }
    {
        match self {
            ListOffsets::Small(offsets) => slice_offsets(offsets, offset, count),
            ListOffsets::Large(offsets) => slice_offsets(offsets, offset, count),
        }
    }
}
