//! Arrays of byte strings and texts as arrays that are read by their places.
ghost use Rattle.std.specs.Prelude.{◌≡◌, Some, slice_get};
ghost use Rattle.flat_arrays_bytes.specs.ByteStrings.{len_of, values_of};

use crate::{BinaryArray, Utf8Array};
use flat_arrays_values::ArrayAccessor;
use flat_arrays_values::columnar_memory::Offset;

impl<'a, O: Offset> ArrayAccessor for &'a BinaryArray<O> {
    type Item = &'a [u8];

    ghost count = { λ array. len_of array.now };

    ghost is_item = { λ array index item. slice_get (values_of array.now) index ≡ Some item.now };

    fn value(&self, index: usize) -> &'a [u8] {
        BinaryArray::value(*self, index)
    }

    fn len(&self) -> usize {
        BinaryArray::len(*self)
    }
}

impl<'a, O: Offset> ArrayAccessor for &'a Utf8Array<O> {
    type Item = &'a str;

    ghost count = { λ array. len_of array.now };

    ghost is_item = { λ array index item. slice_get (values_of array.now) index ≡ Some item.now };

    fn value(&self, index: usize) -> &'a str {
        Utf8Array::value(*self, index)
    }

    fn len(&self) -> usize {
        Utf8Array::len(*self)
    }
}
