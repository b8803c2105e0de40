//! Walks over the values and the slots of builders, from both ends.
ghost use Rattle.std.specs.Prelude.{◌≡◌, MatchOption, ◌==◌, if◌then◌else◌};
ghost use Rattle.flat_arrays_byte_values_builders.specs.columnar_memory.Bits.{unset_count};
ghost use Rattle.flat_arrays_byte_values_builders.specs.bytes.ByteStrings.{values_of};
ghost use Rattle.flat_arrays_byte_values_builders.specs.bytes.ByteWalks.{StandsBefore};

use crate::{MutableBinaryArray, MutableUtf8Array};
use flat_arrays_byte_values_builders::bytes::HoldsTexts;
use flat_arrays_byte_values_builders::columnar_memory::{
    BitmapIter, MutableBitmap, Offset, ZipValidity,
};
use flat_arrays_byte_values_builders::{
    ByteBuilder, MutableBinaryValuesIter, MutableUtf8ValuesIter,
};

/// Values beside as many marks, where one of them is false.
fn beside_marks<'a, T, I: Iterator<Item = T>>(
    values: I,
    validity: Option<&'a MutableBitmap>,
) -> ZipValidity<T, I, BitmapIter<'a>>
    ensures { MatchOption validity.entry (result ≡ ZipValidity.Required values) (λ mask. result ≡ (
        if unset_count mask.now == 0 then ZipValidity.Required values else ZipValidity.Optional (values, mask.now))) }
{
    match validity {
        Some(mask) if mask.unset_bits() > 0 => ZipValidity::new(values, Some(mask.iter())),
        _ => ZipValidity::new(values, None),
    }
}

impl<O: Offset> MutableBinaryArray<O> {
    /// The stored byte strings, those under nulls too, from both ends.
    pub fn values_iter(&self) -> MutableBinaryValuesIter<'_, O>
        ensures { result ≡ values_of self.now }
    {
        MutableBinaryValuesIter::new(&self.builder)
    }

    /// The slots from both ends: the stored byte strings, and where a slot is null their marks beside them.
    pub fn iter(&self) -> ZipValidity<&[u8], MutableBinaryValuesIter<'_, O>, BitmapIter<'_>>
        ensures { StandsBefore self.now result }
    {
        beside_marks(self.values_iter(), self.builder.validity())
    }
}

impl<O: Offset> MutableUtf8Array<O> {
    /// The stored texts, those under nulls too, from both ends.
    pub fn values_iter(&self) -> MutableUtf8ValuesIter<'_, O>
        ensures { result ≡ values_of self.now }
    {
        MutableUtf8ValuesIter::new(self)
    }

    /// The slots from both ends: the stored texts, and where a slot is null their marks beside them.
    pub fn iter(&self) -> ZipValidity<&str, MutableUtf8ValuesIter<'_, O>, BitmapIter<'_>>
        ensures { StandsBefore self.now result }
    {
        beside_marks(self.values_iter(), self.builder.validity())
    }
}

impl<'a, O: Offset> IntoIterator for &'a MutableBinaryArray<O> {
    type Item = Option<&'a [u8]>;

    type IntoIter = ZipValidity<&'a [u8], MutableBinaryValuesIter<'a, O>, BitmapIter<'a>>;

    ghost into_iter_gives = { λ builder it. StandsBefore builder.now it };

    fn into_iter(self) -> ZipValidity<&'a [u8], MutableBinaryValuesIter<'a, O>, BitmapIter<'a>> {
        self.iter()
    }
}

impl<'a, O: Offset> IntoIterator for &'a MutableUtf8Array<O> {
    type Item = Option<&'a str>;

    type IntoIter = ZipValidity<&'a str, MutableUtf8ValuesIter<'a, O>, BitmapIter<'a>>;

    ghost into_iter_gives = { λ builder it. StandsBefore builder.now it };

    fn into_iter(self) -> ZipValidity<&'a str, MutableUtf8ValuesIter<'a, O>, BitmapIter<'a>> {
        self.iter()
    }
}

impl<O: Offset> HoldsTexts for MutableUtf8Array<O> {
    type Holder = ByteBuilder<O>;

    ghost texts = { λ builder. builder };

    fn holder(&self) -> &ByteBuilder<O> {
        &self.builder
    }
}
