//! Clones of arrays, which share the memory of offsets, bytes and marks.
ghost use Rattle.std.specs.Prelude.{◌≡◌, IfOk};
ghost use Rattle.std.specs.Option.{option_copied};

use crate::{BinaryArray, Utf8Array};
use flat_arrays_values::columnar_memory::{Bitmap, Buffer, Offset, OffsetsBuffer};
use std::alloc::AllocError;

/// Offsets, bytes and marks in the same memory.
fn shared_parts<O: Offset>(
    offsets: &OffsetsBuffer<O>,
    values: &Buffer<u8>,
    validity: Option<&Bitmap>,
) -> std::result::Result<(OffsetsBuffer<O>, Buffer<u8>, Option<Bitmap>), AllocError>
    ensures { IfOk result (λ parts. (parts.0 ≡ offsets.now) × (parts.1 ≡ values.now) × (parts.2 ≡ option_copied validity.entry)) }
{
    Ok((offsets.clone()?, values.clone()?, validity.cloned()?))
}

impl<O: Offset> Clone for BinaryArray<O> {
    ghost is_clone = { λ array copy. copy ≡ array };

    /// Shares the offsets, the bytes and the marks, and copies the data type.
    fn clone(&self) -> std::result::Result<Self, AllocError> {
        let _slots = self.len();
        let (offsets, values, validity) = shared_parts(
            self.offsets(),
            self.values(),
            self.validity(),
        )?;
        let data_type = self.data_type().clone()?;
        Ok(BinaryArray::new(data_type, offsets, values, validity))
    }
}

impl<O: Offset> Clone for Utf8Array<O> {
    ghost is_clone = { λ array copy. copy ≡ array };

    /// Shares the offsets, the bytes and the marks, and copies the data type.
    fn clone(&self) -> std::result::Result<Self, AllocError> {
        let _slots = self.len();
        let (offsets, values, validity) = shared_parts(
            self.offsets(),
            self.values(),
            self.validity(),
        )?;
        let data_type = self.data_type().clone()?;
        Ok(Utf8Array::new(data_type, offsets, values, validity))
    }
}
