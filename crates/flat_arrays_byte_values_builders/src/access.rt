//! Builders of byte strings and texts without nulls as arrays that are read by their places.
ghost use Rattle.std.specs.Prelude.{◌≡◌, Some, slice_get};
ghost use Rattle.flat_arrays_bytes.specs.ByteStrings.{len_of, values_of};

use crate::{ByteBuilder, MutableBinaryValuesArray, MutableUtf8ValuesArray};
use flat_arrays_bytes::columnar_memory::Offset;
use flat_arrays_bytes::values::ArrayAccessor;

impl<'a, O: Offset> ArrayAccessor for &'a MutableBinaryValuesArray<O> {
    type Item = &'a [u8];

    ghost count = { λ builder. len_of builder.now };

    ghost is_item = { λ builder index item. slice_get (values_of builder.now) index ≡ Some item.now };

    fn value(&self, index: usize) -> &'a [u8] {
        let builder: &'a MutableBinaryValuesArray<O> = *self;
        ByteBuilder::value(&builder.builder, index)
    }

    fn len(&self) -> usize {
        let builder: &'a MutableBinaryValuesArray<O> = *self;
        ByteBuilder::len(&builder.builder)
    }
}

impl<'a, O: Offset> ArrayAccessor for &'a MutableUtf8ValuesArray<O> {
    type Item = &'a str;

    ghost count = { λ builder. len_of builder.now };

    ghost is_item = { λ builder index item. slice_get (values_of builder.now) index ≡ Some item.now };

    fn value(&self, index: usize) -> &'a str {
        MutableUtf8ValuesArray::value(*self, index)
    }

    fn len(&self) -> usize {
        let builder: &'a MutableUtf8ValuesArray<O> = *self;
        ByteBuilder::len(&builder.builder)
    }
}
