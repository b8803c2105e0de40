//! Walks over the values and the slots of builders, from both ends.
ghost use Rattle.std.specs.Prelude.{◌≡◌};
ghost use Rattle.std.specs.Slice.Iter.{iter_rest};
ghost use Rattle.flat_arrays_values.specs.Iteration.{StandsBefore};

use crate::boolean::MutableBooleanArray;
use crate::primitive::MutablePrimitiveArray;
use flat_arrays_values::columnar_memory::{BitmapIter, NativeType, ZipValidity};
use std::slice::Iter;

impl<T: NativeType> MutablePrimitiveArray<T> {
    /// The stored values in order, those under nulls too.
    pub fn values_iter(&self) -> Iter<'_, T>
        ensures { iter_rest result ≡ self.now.values }
    {
        self.values.iter()
    }

    /// The slots in order: a reference to the value, or none where the slot is null.
    #[tactic(auto, using(flat_arrays_values::proofs::MarkPlaces::mask_lemmas))]
    pub fn iter(&self) -> ZipValidity<&T, Iter<'_, T>, BitmapIter<'_>>
        ensures { StandsBefore iter_rest (λ bits. bits) self.now result }
    {
        match &self.validity {
            Some(mask) => ZipValidity::new(self.values_iter(), Some(mask.iter())),
            None => ZipValidity::new(self.values_iter(), None),
        }
    }
}

impl MutableBooleanArray {
    /// The stored values in order, those under nulls too.
    pub fn values_iter(&self) -> BitmapIter<'_>
        ensures { result ≡ self.now.values }
    {
        self.values.iter()
    }

    /// The slots in order: the value, or none where the slot is null.
    #[tactic(auto, using(flat_arrays_values::proofs::MarkPlaces::mask_lemmas))]
    pub fn iter(&self) -> ZipValidity<bool, BitmapIter<'_>, BitmapIter<'_>>
        ensures { StandsBefore (λ values. values) (λ bits. bits) self.now result }
    {
        match &self.validity {
            Some(mask) => ZipValidity::new(self.values_iter(), Some(mask.iter())),
            None => ZipValidity::new(self.values_iter(), None),
        }
    }
}

impl<'a, T: NativeType> IntoIterator for &'a MutablePrimitiveArray<T> {
    type Item = Option<&'a T>;

    type IntoIter = ZipValidity<&'a T, Iter<'a, T>, BitmapIter<'a>>;

    ghost into_iter_gives = { λ builder it. StandsBefore iter_rest (λ bits. bits) builder.now it };

    fn into_iter(self) -> ZipValidity<&'a T, Iter<'a, T>, BitmapIter<'a>> {
        self.iter()
    }
}

impl<'a> IntoIterator for &'a MutableBooleanArray {
    type Item = Option<bool>;

    type IntoIter = ZipValidity<bool, BitmapIter<'a>, BitmapIter<'a>>;

    ghost into_iter_gives = { λ builder it. StandsBefore (λ values. values) (λ bits. bits) builder.now it };

    fn into_iter(self) -> ZipValidity<bool, BitmapIter<'a>, BitmapIter<'a>> {
        self.iter()
    }
}
