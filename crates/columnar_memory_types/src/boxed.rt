ghost use Rattle.std.specs.Prelude.{◌≡◌, IfOk};

use std::alloc::{AllocError, Global};
use std::hash::{Hash, Hasher};
use std::marker::Model;

/// One value on the heap, which a contract sees as that value.
#[derive(Debug, Drop)]
pub struct Boxed<T> {
    boxed: Box<T>,
}

impl<T> Model for Boxed<T> {
    ghost Value = { T };

    ghost coded = { T.code };

    ghost view = { λ b. b.boxed.value };
}

impl<T> Boxed<T> {
    /// Takes a box over as it is.
    pub fn from_box(boxed: Box<T>) -> Self
        ensures { result ≡ boxed.value }
    {
        Boxed { boxed }
    }

    /// The box that this was, with no copy.
    pub fn into_box(self) -> Box<T>
        ensures { result.value ≡ self }
    {
        let Boxed { boxed } = self;
        boxed
    }

    /// The value, moved out of the heap.
    pub fn into_inner(self) -> T
        ensures { result ≡ self }
    {
        let Boxed { boxed } = self;
        Box::into_inner(boxed)
    }

    pub fn get(&self) -> &T
        ensures { result.now ≡ self.now }
    {
        &self.boxed
    }

    /// The allocator of the value's memory.
    pub fn allocator(&self) -> Global {
        *Box::allocator(&self.boxed)
    }
}

impl<T: Drop> Boxed<T> {
    /// Moves a value to the heap. An error is for want of memory, and drops the value.
    pub fn new(alloc: Global, value: T) -> Result<Self, AllocError>
        ensures { IfOk result (λ b. b ≡ value) }
    {
        Ok(Boxed {
            boxed: Box::new(alloc, value)?,
        })
    }
}

impl<T: PartialEq> PartialEq for Boxed<T> {
    ghost eq = { T.eq };

    ghost laws = { T.laws };

    fn eq(&self, other: &Self) -> bool {
        self.get() == other.get()
    }
}

impl<T: Eq> Eq for Boxed<T> {
    ghost laws = { T.Eq.laws };
}

impl<T: Hash> Hash for Boxed<T> {
    ghost hash_input = { T.hash_input };

    ghost respects_eq = { T.respects_eq };

    fn hash<H: Hasher>(&self, state: &mut H) {
        self.get().hash(state);
    }
}

impl<T: Clone> Clone for Boxed<T> {
    ghost is_clone = { T.is_clone };

    fn clone(&self) -> Result<Self, AllocError> {
        Boxed::new(self.allocator(), self.get().clone()?)
    }
}
