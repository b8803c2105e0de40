//! Builders of texts as arrays that are read by their places.
ghost use Rattle.std.specs.Prelude.{◌≡◌, Some, slice_get};
ghost use Rattle.flat_arrays_byte_values_builders.specs.bytes.ByteStrings.{len_of, values_of};

use crate::MutableUtf8Array;
use flat_arrays_byte_values_builders::ByteBuilder;
use flat_arrays_byte_values_builders::columnar_memory::Offset;
use flat_arrays_byte_values_builders::values::ArrayAccessor;

impl<'a, O: Offset> ArrayAccessor for &'a MutableUtf8Array<O> {
    type Item = &'a str;

    ghost count = { λ builder. len_of builder.now };

    ghost is_item = { λ builder index item. slice_get (values_of builder.now) index ≡ Some item.now };

    fn value(&self, index: usize) -> &'a str {
        MutableUtf8Array::value(*self, index)
    }

    fn len(&self) -> usize {
        let builder: &'a MutableUtf8Array<O> = *self;
        ByteBuilder::len(&builder.builder)
    }
}
