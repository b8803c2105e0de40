//! Structs, unions and byte strings of one size as arrays whose values are read by their places.
ghost use Rattle.nested_arrays_iterators.specs.ReadValues.{IsByteString, IsPicked, IsRow};

use crate::rows::StructSlot;
use crate::slots::ArraySlot;
use crate::values::{ArrayValues, Values};
use nested_arrays_core::arrays::{StructArray, UnionArray};
use nested_arrays_core::flat::{FixedSizeBinaryArray, mark_at};
use nested_arrays_core::flat_arrays::ArrayValuesIter;

/// The values of the fields of structs, struct by struct.
pub type StructValueIter<'a> = ArrayValuesIter<Values<&'a StructArray>>;

/// The values that the slots of a union pick.
pub type UnionIter<'a> = ArrayValuesIter<Values<&'a UnionArray>>;

impl<'a> ArrayValues for &'a StructArray {
    type Item = StructSlot<'a>;

    ghost column = { λ array. array.now };

    ghost is_value = { IsRow };

    fn count(self) -> usize {
        self.len()
    }

    fn has_value(self, i: usize) -> bool {
        self.whole();
        mark_at(self.validity(), i)
    }

    fn value(self, i: usize) -> StructSlot<'a> {
        self.whole();
        StructSlot::new(self.values(), i)
    }
}

impl<'a> ArrayValues for &'a UnionArray {
    type Item = ArraySlot<'a>;

    ghost column = { λ array. array.now };

    ghost is_value = { IsPicked };

    fn count(self) -> usize {
        self.len()
    }

    fn has_value(self, i: usize) -> bool {
        self.whole();
        mark_at(self.validity(), i)
    }

    fn value(self, i: usize) -> ArraySlot<'a> {
        let (number, place) = self.index(i);
        let fields = self.fields();
        ArraySlot::new(&fields[number], place)
    }
}

impl<'a> ArrayValues for &'a FixedSizeBinaryArray {
    type Item = &'a [u8];

    ghost column = { λ array. array.now };

    ghost is_value = { IsByteString };

    fn count(self) -> usize {
        self.len()
    }

    fn has_value(self, i: usize) -> bool {
        self.is_valid(i)
    }

    fn value(self, i: usize) -> &'a [u8] {
        FixedSizeBinaryArray::value(self, i)
    }
}
