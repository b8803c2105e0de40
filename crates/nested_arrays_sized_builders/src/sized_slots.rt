//! Byte strings of one size read from their builders, in order.
ghost use Rattle.std.specs.Prelude.{◌≡◌, length};
ghost use Rattle.nested_arrays_generic_builders.specs.nulls.flat.FlatColumns.{byte_width};
ghost use Rattle.nested_arrays_generic_builders.specs.nulls.iterators.ReadValues.{IsByteString};
ghost use Rattle.nested_arrays_sized_builders.specs.SizedStrings.{sized_column};

use crate::sized_strings::MutableFixedSizeBinaryArray;
use nested_arrays_generic_builders::nulls::flat_arrays::ArrayValuesIter;
use nested_arrays_generic_builders::nulls::iterators::{
    ArrayValues, FixedSizeBinaryValues, Slots, Values,
};

impl<'a> ArrayValues for &'a MutableFixedSizeBinaryArray {
    type Item = &'a [u8];

    ghost column = { λ builder. sized_column builder.now };

    ghost is_value = { IsByteString };

    fn count(self) -> usize {
        self.len()
    }

    fn has_value(self, i: usize) -> bool {
        self.is_valid(i)
    }

    fn value(self, i: usize) -> &'a [u8] {
        self.whole();
        let _count = self.len();
        MutableFixedSizeBinaryArray::value(self, i)
    }
}

impl MutableFixedSizeBinaryArray {
    /// The slots in order, none where one is null, from both ends.
    pub fn iter(&self) -> ArrayValuesIter<Slots<&Self>>
        ensures { result ≡ record { array = record { array = self.entry }; first = 0; stop = length self.now.marks } }
    {
        let _count = self.len();
        ArrayValues::iter(self)
    }

    /// The stored byte strings in order, those under nulls too, from both ends.
    pub fn iter_values(&self) -> ArrayValuesIter<Values<&Self>>
        ensures { result ≡ record { array = record { array = self.entry }; first = 0; stop = length self.now.marks } }
    {
        let _count = self.len();
        ArrayValues::values_iter(self)
    }
}

impl<'a> IntoIterator for &'a MutableFixedSizeBinaryArray {
    type Item = Option<&'a [u8]>;

    type IntoIter = ArrayValuesIter<Slots<&'a MutableFixedSizeBinaryArray>>;

    ghost into_iter_gives = { λ builder it. it ≡ record { array = record { array = builder }; first = 0; stop = length builder.now.marks } };

    fn into_iter(self) -> ArrayValuesIter<Slots<&'a MutableFixedSizeBinaryArray>> {
        self.iter()
    }
}

impl FixedSizeBinaryValues for MutableFixedSizeBinaryArray {
    ghost content = { λ builder. builder.content };

    ghost width = { λ builder. byte_width builder.data_type };

    fn values(&self) -> &[u8] {
        MutableFixedSizeBinaryArray::values(self)
    }

    fn size(&self) -> usize {
        MutableFixedSizeBinaryArray::size(self)
    }
}
