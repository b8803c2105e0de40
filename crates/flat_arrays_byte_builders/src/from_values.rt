//! Builders that take builders without nulls over.
ghost use Rattle.std.specs.Prelude.{◌≡◌};

use crate::{MutableBinaryArray, MutableUtf8Array};
use flat_arrays_byte_values_builders::columnar_memory::Offset;
use flat_arrays_byte_values_builders::{MutableBinaryValuesArray, MutableUtf8ValuesArray};

impl<O: Offset> From<MutableBinaryValuesArray<O>> for MutableBinaryArray<O> {
    ghost from_gives = { λ values builder. builder ≡ values };

    fn from(values: MutableBinaryValuesArray<O>) -> Self {
        MutableBinaryArray {
            builder: values.into_builder(),
        }
    }
}

impl<O: Offset> From<MutableUtf8ValuesArray<O>> for MutableUtf8Array<O> {
    ghost from_gives = { λ values builder. builder ≡ values };

    fn from(values: MutableUtf8ValuesArray<O>) -> Self {
        MutableUtf8Array {
            builder: values.into_builder(),
        }
    }
}
