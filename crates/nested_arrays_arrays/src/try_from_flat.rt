//! Arrays of one kind without children taken out of arrays of any type, without memory: an array of another kind is given back.
ghost use Rattle.std.specs.Prelude.{◌≡◌};
ghost use Rattle.nested_arrays_parts.specs.columnar_memory.declared.PhysicalType.TheVariants as physical;
ghost use Rattle.nested_arrays_parts.specs.flat.FlatColumns.{binary_column, boolean_column, text_column};
ghost use Rattle.nested_arrays_parts.specs.flat.Taken.{Takes};
ghost use Rattle.nested_arrays_parts.specs.FlatLayouts.{TakesKind, TakesNumbers};

use crate::any::AnyArray;
use nested_arrays_parts::FlatArray;
use nested_arrays_parts::flat::{AnyPrimitive, FixedSizeBinaryArray, NullArray, PrimitiveKind};
use nested_arrays_parts::flat_arrays::{BinaryArray, BooleanArray, PrimitiveArray, Utf8Array};

impl<T: PrimitiveKind> TryFrom<AnyArray> for PrimitiveArray<T> {
    type Error = AnyArray;

    ghost try_from_gives = { Takes T.PRIMITIVE T.numbers };

    fn try_from(any: AnyArray) -> Result<Self, AnyArray> {
        match FlatArray::try_from(any) {
            Ok(flat) => match PrimitiveArray::<T>::try_from(flat) {
                Ok(array) => Ok(array),
                Err(flat) => Err(AnyArray::from(flat)),
            },
            Err(any) => Err(any),
        }
    }
}

impl TryFrom<AnyArray> for NullArray {
    type Error = AnyArray;

    ghost try_from_gives = { TakesKind (λ array. array) physical.Null };

    fn try_from(any: AnyArray) -> Result<Self, AnyArray> {
        match FlatArray::try_from(any) {
            Ok(flat) => match NullArray::try_from(flat) {
                Ok(array) => Ok(array),
                Err(flat) => Err(AnyArray::from(flat)),
            },
            Err(any) => Err(any),
        }
    }
}

impl TryFrom<AnyArray> for BooleanArray {
    type Error = AnyArray;

    ghost try_from_gives = { TakesKind boolean_column physical.Boolean };

    fn try_from(any: AnyArray) -> Result<Self, AnyArray> {
        match FlatArray::try_from(any) {
            Ok(flat) => match BooleanArray::try_from(flat) {
                Ok(array) => Ok(array),
                Err(flat) => Err(AnyArray::from(flat)),
            },
            Err(any) => Err(any),
        }
    }
}

impl TryFrom<AnyArray> for AnyPrimitive {
    type Error = AnyArray;

    ghost try_from_gives = { TakesNumbers };

    fn try_from(any: AnyArray) -> Result<Self, AnyArray> {
        match FlatArray::try_from(any) {
            Ok(flat) => match AnyPrimitive::try_from(flat) {
                Ok(array) => Ok(array),
                Err(flat) => Err(AnyArray::from(flat)),
            },
            Err(any) => Err(any),
        }
    }
}

impl TryFrom<AnyArray> for BinaryArray<i32> {
    type Error = AnyArray;

    ghost try_from_gives = { TakesKind binary_column physical.Binary };

    fn try_from(any: AnyArray) -> Result<Self, AnyArray> {
        match FlatArray::try_from(any) {
            Ok(flat) => match BinaryArray::<i32>::try_from(flat) {
                Ok(array) => Ok(array),
                Err(flat) => Err(AnyArray::from(flat)),
            },
            Err(any) => Err(any),
        }
    }
}

impl TryFrom<AnyArray> for BinaryArray<i64> {
    type Error = AnyArray;

    ghost try_from_gives = { TakesKind binary_column physical.LargeBinary };

    fn try_from(any: AnyArray) -> Result<Self, AnyArray> {
        match FlatArray::try_from(any) {
            Ok(flat) => match BinaryArray::<i64>::try_from(flat) {
                Ok(array) => Ok(array),
                Err(flat) => Err(AnyArray::from(flat)),
            },
            Err(any) => Err(any),
        }
    }
}

impl TryFrom<AnyArray> for FixedSizeBinaryArray {
    type Error = AnyArray;

    ghost try_from_gives = { TakesKind (λ array. array) physical.FixedSizeBinary };

    fn try_from(any: AnyArray) -> Result<Self, AnyArray> {
        match FlatArray::try_from(any) {
            Ok(flat) => match FixedSizeBinaryArray::try_from(flat) {
                Ok(array) => Ok(array),
                Err(flat) => Err(AnyArray::from(flat)),
            },
            Err(any) => Err(any),
        }
    }
}

impl TryFrom<AnyArray> for Utf8Array<i32> {
    type Error = AnyArray;

    ghost try_from_gives = { TakesKind text_column physical.Utf8 };

    fn try_from(any: AnyArray) -> Result<Self, AnyArray> {
        match FlatArray::try_from(any) {
            Ok(flat) => match Utf8Array::<i32>::try_from(flat) {
                Ok(array) => Ok(array),
                Err(flat) => Err(AnyArray::from(flat)),
            },
            Err(any) => Err(any),
        }
    }
}

impl TryFrom<AnyArray> for Utf8Array<i64> {
    type Error = AnyArray;

    ghost try_from_gives = { TakesKind text_column physical.LargeUtf8 };

    fn try_from(any: AnyArray) -> Result<Self, AnyArray> {
        match FlatArray::try_from(any) {
            Ok(flat) => match Utf8Array::<i64>::try_from(flat) {
                Ok(array) => Ok(array),
                Err(flat) => Err(AnyArray::from(flat)),
            },
            Err(any) => Err(any),
        }
    }
}
