//! Offsets of lists that grow.
ghost use Rattle.std.specs.Prelude.{◌≡◌, ◌<◌, ◌≤◌, length, IfErr};
ghost use Rattle.nested_arrays_builder_values.specs.parts.arrays.columnar_memory.Error.{IsOutOfMemory};
ghost use Rattle.nested_arrays_builder_values.specs.parts.arrays.columnar_memory.Spans.{first_spans, last_of, shortened};
ghost use Rattle.nested_arrays_builders.specs.Widths.{is_large, spans_in, AddsSpan};

use nested_arrays_builder_values::parts::columnar_memory::{Index, Offset, Offsets, Result};

/// The offsets of lists, of 32 or of 64 bits.
#[derive(Drop)]
pub enum MutableListOffsets {
    Small(Offsets<i32>),
    Large(Offsets<i64>),
}

impl MutableListOffsets {
    /// Adds a list of so many items behind the others, or changes nothing.
    ///
    /// # Errors
    /// `Overflow`: its items would end past the greatest offset.
    /// `OutOfMemory`: the offset found no memory.
    pub fn try_push(&mut self, count: usize) -> Result<()>
        ensures { AddsSpan self.old count self.new result }
    {
        match self {
            MutableListOffsets::Small(offsets) => offsets.try_push(count),
            MutableListOffsets::Large(offsets) => offsets.try_push(count),
        }
    }

    /// Makes room for some more lists.
    ///
    /// # Errors
    /// `OutOfMemory`: the room found no memory.
    pub fn reserve(&mut self, additional: usize) -> Result<()>
        ensures width { is_large self.new ≡ is_large self.old }
        ensures spans { spans_in self.new ≡ spans_in self.old }
        ensures error { IfErr result IsOutOfMemory }
    {
        match self {
            MutableListOffsets::Small(offsets) => offsets.reserve(additional),
            MutableListOffsets::Large(offsets) => offsets.reserve(additional),
        }
    }

    /// Gives back memory that no offset needs, as far as the allocator takes it.
    pub fn shrink_to_fit(&mut self)
        ensures width { is_large self.new ≡ is_large self.old }
        ensures spans { spans_in self.new ≡ spans_in self.old }
    {
        match self {
            MutableListOffsets::Small(offsets) => offsets.shrink_to_fit(),
            MutableListOffsets::Large(offsets) => offsets.shrink_to_fit(),
        }
    }

    /// Keeps the first `len` lists alone, and answers where the last of them ends.
    pub fn truncate(&mut self, len: usize) -> usize
        requires { len ≤ length (spans_in self.old).lengths }
        ensures spans { spans_in self.new ≡ first_spans (spans_in self.old) len }
        ensures width { is_large self.new ≡ is_large self.old }
        ensures end { result ≡ last_of (spans_in self.new) }
    {
        match self {
            MutableListOffsets::Small(offsets) => keep_spans(offsets, len),
            MutableListOffsets::Large(offsets) => keep_spans(offsets, len),
        }
    }
}

/// Takes the last span off.
fn drop_span<O: Offset>(offsets: &mut Offsets<O>)
    requires { 0 < length offsets.old.lengths }
    ensures { offsets.new ≡ shortened offsets.old }
{
    match offsets.pop() {
        Some(_) => {}
        None => {}
    }
}

/// Keeps the first spans alone, and answers where the last of them ends.
#[tactic(auto, using(crate::proofs::FirstSpans::first_again, crate::proofs::FirstSpans::first_all))]
fn keep_spans<O: Offset>(offsets: &mut Offsets<O>, len: usize) -> usize
    requires { len ≤ length offsets.old.lengths }
    ensures first { offsets.new ≡ first_spans offsets.old len }
    ensures end { result ≡ last_of offsets.new }
{
    'keep: while offsets.len_proxy() > len {
        drop_span(offsets);
    }
    offsets.last().to_usize()
}
