//! The trait of arrays that become arrays of any type.
ghost use Rattle.std.specs.Prelude.{◌≡◌, IfOk};

use nested_arrays_access::Array;
use nested_arrays_access::arrays::AnyArray;
use std::alloc::{AllocError, Global};
use std::rc::Rc;

/// An array that becomes one of any type, or is copied as one, with the same column.
pub trait ToBoxed: Array {
    /// This as an array of any type. Takes no memory.
    fn into_any(self) -> AnyArray
        ensures { result ≡ Self.column self };

    /// A copy of this as an array of any type. It shares what is stored at every depth; data types and the places of children are copied.
    ///
    /// # Errors
    /// A data type, a child's place or a count of owners found no memory.
    fn to_any(&self) -> Result<AnyArray, AllocError>
        ensures { IfOk result (λ copy. copy ≡ Self.column self.now) };

    /// This as an array of any type on the heap.
    ///
    /// # Errors
    /// Its place found no memory; the array is let go.
    final fn boxed(self, alloc: Global) -> Result<Box<AnyArray>, AllocError>
        ensures { IfOk result (λ boxed. boxed.value ≡ Self.column self) }
    {
        Ok(Box::new(alloc, self.into_any())?)
    }

    /// This as an array of any type that several owners share.
    ///
    /// # Errors
    /// Its place found no memory; the array is let go.
    final fn arced(self, alloc: Global) -> Result<Rc<AnyArray>, AllocError>
        ensures { IfOk result (λ shared. shared.value ≡ Self.column self) }
    {
        Ok(Rc::new(alloc, self.into_any())?)
    }

    /// A copy of this as an array of any type on the heap, which shares memory as `to_any` does.
    ///
    /// # Errors
    /// As in `to_any`, or its place found no memory.
    final fn to_boxed(&self, alloc: Global) -> Result<Box<AnyArray>, AllocError>
        ensures { IfOk result (λ boxed. boxed.value ≡ Self.column self.now) }
    {
        self.to_any()?.boxed(alloc)
    }
}
