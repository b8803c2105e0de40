//! Arrays without children made of arrays of one type, without memory.
ghost use Rattle.std.specs.Prelude.{◌≡◌};
ghost use Rattle.nested_arrays_flat.specs.FlatColumns.{binary_column, boolean_column, text_column};

use crate::flats::{FlatArray, FlatNode};
use crate::sound::{binary_is_sound, boolean_is_sound, text_is_sound};
use nested_arrays_flat::flat_arrays::{BinaryArray, BooleanArray, Utf8Array};
use nested_arrays_flat::{AnyPrimitive, FixedSizeBinaryArray, NullArray};

impl From<NullArray> for FlatArray {
    ghost from_gives = { λ array flat. flat ≡ array };

    fn from(array: NullArray) -> Self {
        array.whole();
        FlatArray {
            node: FlatNode::Null(array),
        }
    }
}

impl From<AnyPrimitive> for FlatArray {
    ghost from_gives = { λ array flat. flat ≡ array };

    fn from(array: AnyPrimitive) -> Self {
        array.whole();
        FlatArray {
            node: FlatNode::Primitive(array),
        }
    }
}

impl From<FixedSizeBinaryArray> for FlatArray {
    ghost from_gives = { λ array flat. flat ≡ array };

    fn from(array: FixedSizeBinaryArray) -> Self {
        array.whole();
        FlatArray {
            node: FlatNode::FixedSizeBinary(array),
        }
    }
}

impl From<BooleanArray> for FlatArray {
    ghost from_gives = { λ array flat. flat ≡ boolean_column array };

    fn from(array: BooleanArray) -> Self {
        boolean_is_sound(&array);
        FlatArray {
            node: FlatNode::Boolean(array),
        }
    }
}

impl From<BinaryArray<i32>> for FlatArray {
    ghost from_gives = { λ array flat. flat ≡ binary_column array };

    fn from(array: BinaryArray<i32>) -> Self {
        binary_is_sound(&array);
        FlatArray {
            node: FlatNode::Binary(array),
        }
    }
}

impl From<BinaryArray<i64>> for FlatArray {
    ghost from_gives = { λ array flat. flat ≡ binary_column array };

    fn from(array: BinaryArray<i64>) -> Self {
        binary_is_sound(&array);
        FlatArray {
            node: FlatNode::LargeBinary(array),
        }
    }
}

impl From<Utf8Array<i32>> for FlatArray {
    ghost from_gives = { λ array flat. flat ≡ text_column array };

    fn from(array: Utf8Array<i32>) -> Self {
        text_is_sound(&array);
        FlatArray {
            node: FlatNode::Utf8(array),
        }
    }
}

impl From<Utf8Array<i64>> for FlatArray {
    ghost from_gives = { λ array flat. flat ≡ text_column array };

    fn from(array: Utf8Array<i64>) -> Self {
        text_is_sound(&array);
        FlatArray {
            node: FlatNode::LargeUtf8(array),
        }
    }
}
