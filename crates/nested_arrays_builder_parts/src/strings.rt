//! Byte strings that grow, by offsets of one width (Arrow columnar format, "Variable-size Binary Layout").
ghost use Rattle.std.specs.Prelude.{◌≡◌, ◌<◌, ◌≤◌, [], ◌∷◌, ◌++◌, length, take, IfErr};
ghost use Rattle.std.specs.List.{concat};
ghost use Rattle.nested_arrays_core.specs.arrays.columnar_memory.Error.{IsOutOfMemory};
ghost use Rattle.nested_arrays_core.specs.arrays.columnar_memory.Results.{OrOutOfMemory};
ghost use Rattle.nested_arrays_core.specs.arrays.columnar_memory.Spans.{first_spans, last_of, shortened};
ghost use Rattle.nested_arrays_core.specs.arrays.flat_arrays.ByteStrings.{packed};
ghost use Rattle.nested_arrays_builder_parts.specs.Strings.{TakesString};

use nested_arrays_core::arrays::columnar_memory::{
    Buffer, Error, Index, Offset, Offsets, OffsetsBuffer, Result,
};
use std::alloc::Global;
use std::marker::Model;

/// Byte strings one after another. A contract sees their list.
///
/// A call that is refused changes nothing.
#[derive(Drop)]
pub struct Strings<O: Offset> {
    offsets: Offsets<O>,
    bytes: Vec<u8>,
}

impl<O: Offset> Model for Strings<O> {
    ghost use Rattle.std.specs.Prelude.{ℕ, List};
    ghost use Rattle.nested_arrays_core.specs.arrays.flat_arrays.ByteStrings.{cut_by};
    ghost use Rattle.nested_arrays_builder_parts.specs.Strings.{ArePacked};

    ghost Value = { List (List ℕ) };

    ghost view = { λ it. cut_by it.offsets.lengths it.bytes.items };

    ghost invariant = { λ it. ArePacked (cut_by it.offsets.lengths it.bytes.items) it.offsets it.bytes.items };
}

impl<O: Offset> Strings<O> {
    /// No byte strings.
    ///
    /// # Errors
    /// `OutOfMemory`: the first offset found no memory.
    pub fn new(alloc: Global) -> Result<Self>
        ensures { OrOutOfMemory result (λ strings. strings ≡ []) }
    {
        Ok(Strings {
            offsets: Offsets::new(alloc)?,
            bytes: Vec::new(alloc),
        })
    }

    /// How many there are.
    pub fn len(&self) -> usize
        ensures { result ≡ length self.now }
    {
        self.offsets.len_proxy()
    }

    /// Adds one behind the others, or changes nothing.
    ///
    /// # Errors
    /// `Overflow`: it would end past the greatest offset.
    /// `OutOfMemory`: it found no memory.
    pub fn push(&mut self, value: &[u8]) -> Result<()>
        ensures { TakesString O.greatest self.old value.now self.new result }
    {
        if let Err(error) = self.offsets.try_push(value.len()) {
            return Err(error);
        }
        match self.bytes.extend_from_slice(value) {
            Ok(()) => Ok(()),
            Err(_) => {
                drop_span(&mut self.offsets);
                Err(Error::OutOfMemory)
            }
        }
    }

    /// Keeps the first `len` alone.
    pub fn truncate(&mut self, len: usize)
        requires { len ≤ length self.old }
        ensures { self.new ≡ take len self.old }
    {
        keep_spans(&mut self.offsets, len);
        let end = end_of(&self.offsets);
        self.bytes.truncate(end);
    }

    /// Makes room for some more, and for so many bytes of them.
    ///
    /// # Errors
    /// `OutOfMemory`: the room found no memory.
    pub fn reserve(&mut self, additional: usize, additional_bytes: usize) -> Result<()>
        ensures same { self.new ≡ self.old }
        ensures error { IfErr result IsOutOfMemory }
    {
        self.offsets.reserve(additional)?;
        self.bytes.reserve(additional_bytes)?;
        Ok(())
    }

    /// Gives back memory that nothing needs, as far as the allocator takes it.
    pub fn shrink_to_fit(&mut self)
        ensures { self.new ≡ self.old }
    {
        self.offsets.shrink_to_fit();
        self.bytes.shrink_to_fit();
    }

    /// The offsets and the bytes, with no copy.
    ///
    /// # Errors
    /// `OutOfMemory`: a count of owners found no memory.
    pub fn freeze(self) -> Result<(OffsetsBuffer<O>, Buffer<u8>)>
        ensures { OrOutOfMemory result (λ parts. (parts.0 ≡ packed self) × (parts.1 ≡ concat self)) }
    {
        let Strings { offsets, bytes } = self;
        let offsets = offsets.freeze()?;
        let bytes = Buffer::from_vec(bytes)?;
        Ok((offsets, bytes))
    }
}

/// Where the last span ends, as a number.
fn end_of<O: Offset>(offsets: &Offsets<O>) -> usize
    ensures { result ≡ last_of offsets.now }
{
    offsets.last().to_usize()
}

/// Takes the last span off.
fn drop_span<O: Offset>(offsets: &mut Offsets<O>)
    requires { 0 < length offsets.old.lengths }
    ensures { offsets.new ≡ shortened offsets.old }
{
    match offsets.pop() {
        Some(_) => {}
        None => {}
    }
}

/// Keeps the first spans alone.
fn keep_spans<O: Offset>(offsets: &mut Offsets<O>, len: usize)
    requires { len ≤ length offsets.old.lengths }
    ensures { offsets.new ≡ first_spans offsets.old len }
{
    'keep: while offsets.len_proxy() > len {
        drop_span(offsets);
    }
}
