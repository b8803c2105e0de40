//! Walks over the values and the slots of arrays, from both ends.
ghost use Rattle.std.specs.Prelude.{◌≡◌};
ghost use Rattle.std.specs.Slice.Iter.{iter_rest};
ghost use Rattle.flat_arrays_values.specs.Iteration.{StandsBefore};

use crate::boolean::BooleanArray;
use crate::primitive::PrimitiveArray;
use columnar_memory_core::{BitmapIter, NativeType, ZipValidity};
use std::slice::Iter;

impl<T: NativeType> PrimitiveArray<T> {
    /// The stored values in order, those under nulls too.
    pub fn values_iter(&self) -> Iter<'_, T>
        ensures { iter_rest result ≡ self.now.values }
    {
        self.values().as_slice().iter()
    }

    /// The slots in order: a reference to the value, or none where the slot is null.
    #[tactic(auto, using(crate::proofs::MarkPlaces::mask_lemmas))]
    pub fn iter(&self) -> ZipValidity<&T, Iter<'_, T>, BitmapIter<'_>>
        ensures { StandsBefore iter_rest (λ bits. bits) self.now result }
    {
        ZipValidity::new_with_validity(self.values_iter(), self.validity())
    }
}

impl<'a, T: NativeType> IntoIterator for &'a PrimitiveArray<T> {
    type Item = Option<&'a T>;

    type IntoIter = ZipValidity<&'a T, Iter<'a, T>, BitmapIter<'a>>;

    ghost into_iter_gives = { λ array it. StandsBefore iter_rest (λ bits. bits) array.now it };

    fn into_iter(self) -> ZipValidity<&'a T, Iter<'a, T>, BitmapIter<'a>> {
        self.iter()
    }
}

impl BooleanArray {
    /// The stored values in order, those under nulls too.
    pub fn values_iter(&self) -> BitmapIter<'_>
        ensures { result ≡ self.now.values }
    {
        self.values().iter()
    }

    /// The slots in order: the value, or none where the slot is null.
    #[tactic(auto, using(crate::proofs::MarkPlaces::mask_lemmas))]
    pub fn iter(&self) -> ZipValidity<bool, BitmapIter<'_>, BitmapIter<'_>>
        ensures { StandsBefore (λ values. values) (λ bits. bits) self.now result }
    {
        ZipValidity::new_with_validity(self.values_iter(), self.validity())
    }
}

impl<'a> IntoIterator for &'a BooleanArray {
    type Item = Option<bool>;

    type IntoIter = ZipValidity<bool, BitmapIter<'a>, BitmapIter<'a>>;

    ghost into_iter_gives = { λ array it. StandsBefore (λ values. values) (λ bits. bits) array.now it };

    fn into_iter(self) -> ZipValidity<bool, BitmapIter<'a>, BitmapIter<'a>> {
        self.iter()
    }
}
