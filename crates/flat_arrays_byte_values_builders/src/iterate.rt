//! What builders are walked over by: `for` over references to them, whose items are those of `iter`, and walks over stored texts.
ghost use Rattle.std.specs.Prelude.{◌≡◌};
ghost use Rattle.flat_arrays_bytes.specs.ByteStrings.{values_of};

use crate::{
    ByteBuilder, MutableBinaryValuesArray, MutableBinaryValuesIter, MutableUtf8ValuesArray,
    MutableUtf8ValuesIter,
};
use flat_arrays_bytes::HoldsTexts;
use flat_arrays_bytes::columnar_memory::Offset;

impl<'a, O: Offset> IntoIterator for &'a MutableBinaryValuesArray<O> {
    type Item = &'a [u8];

    type IntoIter = MutableBinaryValuesIter<'a, O>;

    ghost into_iter_gives = { λ builder it. it ≡ values_of builder.now };

    fn into_iter(self) -> MutableBinaryValuesIter<'a, O> {
        self.iter()
    }
}

impl<'a, O: Offset> IntoIterator for &'a MutableUtf8ValuesArray<O> {
    type Item = &'a str;

    type IntoIter = MutableUtf8ValuesIter<'a, O>;

    ghost into_iter_gives = { λ builder it. it ≡ values_of builder.now };

    fn into_iter(self) -> MutableUtf8ValuesIter<'a, O> {
        self.iter()
    }
}

impl<O: Offset> HoldsTexts for MutableUtf8ValuesArray<O> {
    type Holder = ByteBuilder<O>;

    ghost texts = { λ builder. builder };

    fn holder(&self) -> &ByteBuilder<O> {
        &self.builder
    }
}
