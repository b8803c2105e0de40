ghost use Rattle.std.specs.Prelude.{◌≡◌, ◌-◌, ◌<◌, ℕ, Some};
ghost use Rattle.flat_arrays_values.specs.Places.{StepsFirst, StepsLast, places_count};

use std::marker::Model;

/// An array whose values are read by their places, as a reference to it may be. `count` is how many there are, and `is_item` says what
/// stands at a place.
pub trait ArrayAccessor {
    /// A value, or a reference to it.
    type Item;

    ghost count: { Self → ℕ };

    ghost is_item: { Self → ℕ → Self.Item → Type 0 };

    /// The value at a place.
    fn value(&self, index: usize) -> Self::Item
        requires { index < count self.now }
        ensures { is_item self.now index result };

    /// How many values there are.
    fn len(&self) -> usize
        ensures { result ≡ count self.now };
}

/// The values of an array in order, from both ends. A contract sees the array and the places that are left.
#[derive(Drop)]
pub struct ArrayValuesIter<A: ArrayAccessor> {
    array: A,
    index: usize,
    stop: usize,
}

impl<A: ArrayAccessor> Model for ArrayValuesIter<A> {
    ghost use Rattle.std.specs.Prelude.{◌≤◌};
    ghost use Rattle.flat_arrays_values.specs.Places.{PlacesLeft};

    ghost Value = { PlacesLeft A };

    ghost view = { λ it. record { array = it.array; first = it.index; stop = it.stop } };

    ghost invariant = { λ it. (it.index ≤ it.stop) × (it.stop ≤ A.count it.array) };
}

impl<A: ArrayAccessor> ArrayValuesIter<A> {
    /// All values of an array.
    pub fn new(array: A) -> Self
        ensures { result ≡ record { array = array; first = 0; stop = A.count array } }
    {
        let stop = array.len();
        ArrayValuesIter {
            array,
            index: 0,
            stop,
        }
    }
}

impl<A: ArrayAccessor + Drop> Iterator for ArrayValuesIter<A> {
    type Item = A::Item;

    ghost next_gives = { StepsFirst A.is_item };

    ghost remaining = { places_count };

    fn next(&mut self) -> Option<A::Item> {
        if self.index == self.stop {
            return None;
        }
        let index = self.index;
        self.index = index + 1;
        Some(self.array.value(index))
    }

    fn size_hint(&self) -> (usize, Option<usize>)
        ensures { result ≡ (self.now.stop - self.now.first, Some (self.now.stop - self.now.first)) }
    {
        let left = self.stop - self.index;
        (left, Some(left))
    }
}

impl<A: ArrayAccessor + Drop> DoubleEndedIterator for ArrayValuesIter<A> {
    ghost next_back_gives = { StepsLast A.is_item };

    fn next_back(&mut self) -> Option<A::Item> {
        if self.index == self.stop {
            return None;
        }
        self.stop -= 1;
        Some(self.array.value(self.stop))
    }
}

impl<A: ArrayAccessor + Drop> ExactSizeIterator for ArrayValuesIter<A> {
    fn len(&self) -> usize {
        self.stop - self.index
    }
}
