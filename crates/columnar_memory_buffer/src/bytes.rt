ghost use Rattle.std.specs.Prelude.{◌≡◌, [], length, ◌↔◌, IsTrue};
ghost use Rattle.std.specs.Borrow.{sem};
ghost use Rattle.columnar_memory_buffer.specs.Lending.{LendsElements};

use std::alloc::Global;
use std::marker::Model;
use std::mem;

/// The memory of a [`crate::Buffer`]: a plain vector, which a contract sees as the list of its elements.
#[derive(Debug, Drop)]
pub struct Bytes<T> {
    vec: Vec<T>,
}

impl<T> Model for Bytes<T> {
    ghost use Rattle.std.specs.Prelude.{List};
    ghost use Rattle.std.specs.Coded.{coded_list};

    ghost Value = { List T };

    ghost coded = { coded_list T.code };

    ghost view = { λ it. it.vec.items };
}

impl<T> Bytes<T> {
    /// Takes a vector over as it is.
    pub fn from_vec(vec: Vec<T>) -> Self
        ensures { result ≡ vec.items }
    {
        Bytes { vec }
    }

    /// The vector that this was, with no copy.
    pub fn into_inner(self) -> Vec<T>
        ensures { result.items ≡ self }
    {
        let Bytes { vec } = self;
        vec
    }

    /// The vector, in whose place none is left. Takes no memory.
    pub fn take(&mut self) -> Vec<T>
        ensures taken { result.items ≡ self.old }
        ensures left { self.new ≡ [] }
    {
        let alloc = self.allocator();
        mem::replace(&mut self.vec, Vec::new(alloc))
    }

    pub fn as_slice(&self) -> &[T]
        ensures { result.now ≡ self.now }
    {
        self.vec.as_slice()
    }

    /// The elements to change, as many as there are.
    pub fn as_mut_slice(&mut self) -> &mut [T]
        ensures* writes_back { sem 𝓛 (LendsElements T.row self.entry result) }
        ensures value { result.now ≡ self.old }
    {
        self.vec.as_mut_slice()
    }

    /// The allocator of the memory.
    pub fn allocator(&self) -> Global {
        *self.vec.allocator()
    }

    pub fn len(&self) -> usize
        ensures { result ≡ length self.now }
    {
        self.vec.len()
    }

    pub fn is_empty(&self) -> bool
        ensures { IsTrue result ↔ (self.now ≡ []) }
    {
        self.vec.is_empty()
    }
}

impl<T> From<Vec<T>> for Bytes<T> {
    ghost from_gives = { λ v bytes. bytes ≡ v.items };

    fn from(vec: Vec<T>) -> Self {
        Bytes { vec }
    }
}
