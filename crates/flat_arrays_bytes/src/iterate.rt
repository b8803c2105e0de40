//! What arrays are walked over by: `for` over references to them, whose items are those of `iter`, and walks over stored values.
ghost use Rattle.flat_arrays_bytes.specs.ByteWalks.{StandsBefore};

use crate::{
    BinaryArray, BinaryValueIter, ByteColumn, HoldsByteStrings, HoldsTexts, Utf8Array,
    Utf8ValuesIter,
};
use flat_arrays_values::columnar_memory::{BitmapIter, Offset, ZipValidity};

impl<'a, O: Offset> IntoIterator for &'a BinaryArray<O> {
    type Item = Option<&'a [u8]>;

    type IntoIter = ZipValidity<&'a [u8], BinaryValueIter<'a, O>, BitmapIter<'a>>;

    ghost into_iter_gives = { λ array it. StandsBefore array.now it };

    fn into_iter(self) -> ZipValidity<&'a [u8], BinaryValueIter<'a, O>, BitmapIter<'a>> {
        self.iter()
    }
}

impl<'a, O: Offset> IntoIterator for &'a Utf8Array<O> {
    type Item = Option<&'a str>;

    type IntoIter = ZipValidity<&'a str, Utf8ValuesIter<'a, O>, BitmapIter<'a>>;

    ghost into_iter_gives = { λ array it. StandsBefore array.now it };

    fn into_iter(self) -> ZipValidity<&'a str, Utf8ValuesIter<'a, O>, BitmapIter<'a>> {
        self.iter()
    }
}

impl<O: Offset> HoldsByteStrings for BinaryArray<O> {
    ghost held = { λ array. array };

    fn count(&self) -> usize {
        self.len()
    }

    fn bytes_at(&self, index: usize) -> &[u8] {
        self.value(index)
    }
}

impl<O: Offset> HoldsTexts for Utf8Array<O> {
    type Holder = ByteColumn<O>;

    ghost texts = { λ array. array };

    fn holder(&self) -> &ByteColumn<O> {
        &self.column
    }
}
