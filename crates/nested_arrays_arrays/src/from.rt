//! Arrays of any type made of arrays of one, without memory.
ghost use Rattle.std.specs.Prelude.{◌≡◌};
ghost use Rattle.nested_arrays_parts.specs.flat.FlatColumns.{binary_column, boolean_column, primitive_column, text_column};

use crate::any::{AnyArray, Node};
use crate::fixed_lists::FixedSizeListArray;
use crate::maps::MapArray;
use crate::records::StructArray;
use crate::unions::UnionArray;
use nested_arrays_parts::FlatArray;
use nested_arrays_parts::flat::{AnyPrimitive, FixedSizeBinaryArray, NullArray, PrimitiveKind};
use nested_arrays_parts::flat_arrays::{BinaryArray, BooleanArray, PrimitiveArray, Utf8Array};

impl From<FlatArray> for AnyArray {
    ghost from_gives = { λ array any. any ≡ array };

    fn from(array: FlatArray) -> Self {
        array.whole();
        AnyArray {
            node: Node::Flat(array),
        }
    }
}

impl<T: PrimitiveKind> From<PrimitiveArray<T>> for AnyArray {
    ghost from_gives = { λ array any. any ≡ primitive_column T.PRIMITIVE T.numbers array };

    fn from(array: PrimitiveArray<T>) -> Self {
        AnyArray::from(FlatArray::from(AnyPrimitive::from_array(array)))
    }
}

impl From<NullArray> for AnyArray {
    ghost from_gives = { λ array any. any ≡ array };

    fn from(array: NullArray) -> Self {
        AnyArray::from(FlatArray::from(array))
    }
}

impl From<FixedSizeBinaryArray> for AnyArray {
    ghost from_gives = { λ array any. any ≡ array };

    fn from(array: FixedSizeBinaryArray) -> Self {
        AnyArray::from(FlatArray::from(array))
    }
}

impl From<BooleanArray> for AnyArray {
    ghost from_gives = { λ array any. any ≡ boolean_column array };

    fn from(array: BooleanArray) -> Self {
        AnyArray::from(FlatArray::from(array))
    }
}

impl From<BinaryArray<i32>> for AnyArray {
    ghost from_gives = { λ array any. any ≡ binary_column array };

    fn from(array: BinaryArray<i32>) -> Self {
        AnyArray::from(FlatArray::from(array))
    }
}

impl From<BinaryArray<i64>> for AnyArray {
    ghost from_gives = { λ array any. any ≡ binary_column array };

    fn from(array: BinaryArray<i64>) -> Self {
        AnyArray::from(FlatArray::from(array))
    }
}

impl From<Utf8Array<i32>> for AnyArray {
    ghost from_gives = { λ array any. any ≡ text_column array };

    fn from(array: Utf8Array<i32>) -> Self {
        AnyArray::from(FlatArray::from(array))
    }
}

impl From<Utf8Array<i64>> for AnyArray {
    ghost from_gives = { λ array any. any ≡ text_column array };

    fn from(array: Utf8Array<i64>) -> Self {
        AnyArray::from(FlatArray::from(array))
    }
}

impl From<FixedSizeListArray> for AnyArray {
    ghost from_gives = { λ array any. any ≡ array };

    fn from(array: FixedSizeListArray) -> Self {
        array.whole();
        AnyArray {
            node: Node::FixedSizeList(array),
        }
    }
}

impl From<StructArray> for AnyArray {
    ghost from_gives = { λ array any. any ≡ array };

    fn from(array: StructArray) -> Self {
        array.whole();
        AnyArray {
            node: Node::Struct(array),
        }
    }
}

impl From<MapArray> for AnyArray {
    ghost from_gives = { λ array any. any ≡ array };

    fn from(array: MapArray) -> Self {
        array.whole();
        AnyArray {
            node: Node::Map(array),
        }
    }
}

impl From<UnionArray> for AnyArray {
    ghost from_gives = { λ array any. any ≡ array };

    fn from(array: UnionArray) -> Self {
        array.whole();
        AnyArray {
            node: Node::Union(array),
        }
    }
}
