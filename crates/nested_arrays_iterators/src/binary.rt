//! The bytes of arrays of byte strings.
ghost use Rattle.std.specs.Prelude.{◌≡◌, ℕ, List};
ghost use Rattle.nested_arrays_core.specs.columnar_memory.Spans.{offsets_of};
ghost use Rattle.nested_arrays_core.specs.columns.StoredColumns.{column_type};
ghost use Rattle.nested_arrays_core.specs.flat.FlatColumns.{byte_width};
ghost use Rattle.nested_arrays_iterators.specs.StringParts.{string_bytes, string_offsets};

use nested_arrays_core::access::Array;
use nested_arrays_core::columnar_memory::{Offset, OffsetsBuffer};
use nested_arrays_core::flat::FixedSizeBinaryArray;
use nested_arrays_core::flat_arrays::{BinaryArray, Utf8Array};

/// Byte strings or texts between offsets.
pub trait GenericBinaryArray<O: Offset>: Array {
    /// The bytes of all strings, one after another.
    fn values(&self) -> &[u8]
        ensures { result.now ≡ string_bytes (Self.column self.now) };

    /// Where each string begins in the bytes, and the last one ends.
    fn offsets(&self) -> &OffsetsBuffer<O>
        ensures { offsets_of result.now ≡ string_offsets (Self.column self.now) };
}

impl<O: Offset> GenericBinaryArray<O> for BinaryArray<O> {
    fn values(&self) -> &[u8] {
        BinaryArray::values(self).as_slice()
    }

    fn offsets(&self) -> &OffsetsBuffer<O> {
        BinaryArray::offsets(self)
    }
}

impl<O: Offset> GenericBinaryArray<O> for Utf8Array<O> {
    fn values(&self) -> &[u8] {
        Utf8Array::values(self).as_slice()
    }

    fn offsets(&self) -> &OffsetsBuffer<O> {
        Utf8Array::offsets(self)
    }
}

/// Byte strings of one size, one after another.
pub trait FixedSizeBinaryValues {
    ghost content: { Self → List ℕ };

    ghost width: { Self → ℕ };

    /// The bytes of all strings, those under nulls too.
    fn values(&self) -> &[u8]
        ensures { result.now ≡ content self.now };

    /// How many bytes each string takes.
    fn size(&self) -> usize
        ensures { result ≡ width self.now };
}

impl FixedSizeBinaryValues for FixedSizeBinaryArray {
    ghost content = { string_bytes };

    ghost width = { λ array. byte_width (column_type array) };

    fn values(&self) -> &[u8] {
        FixedSizeBinaryArray::values(self).as_slice()
    }

    fn size(&self) -> usize {
        FixedSizeBinaryArray::size(self)
    }
}
