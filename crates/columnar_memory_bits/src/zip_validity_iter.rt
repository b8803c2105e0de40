ghost use Rattle.std.specs.Prelude.{◌≡◌};
ghost use Rattle.std.specs.Iterator.{count_min};
ghost use Rattle.columnar_memory_bits.specs.ZipValidity.{StepsBoth};

use std::marker::Model;

/// Values beside their validity bits: a value where its bit is set, and `None` where it isn't. It is seen as the values and the bits that are
/// left.
#[derive(Drop)]
pub struct ZipValidityIter<T, I: Iterator<Item = T>, V: Iterator<Item = bool>> {
    values: I,
    validity: V,
}

impl<T, I: Iterator<Item = T>, V: Iterator<Item = bool>> Model for ZipValidityIter<T, I, V> {
    ghost Value = { I × V };

    ghost view = { λ it. (it.values, it.validity) };
}

impl<T, I: Iterator<Item = T>, V: Iterator<Item = bool>> ZipValidityIter<T, I, V> {
    /// Values beside as many bits.
    pub fn new(values: I, validity: V) -> Self
        ensures { result ≡ (values, validity) }
    {
        ZipValidityIter { values, validity }
    }
}

impl<T: Drop, I: Iterator<Item = T>, V: Iterator<Item = bool>> Iterator
    for ZipValidityIter<T, I, V> {
    type Item = Option<T>;

    ghost can_next = { λ s. I.can_next s.0 × V.can_next s.1 };

    ghost next_gives = { StepsBoth I.next_gives V.next_gives };

    ghost remaining = { λ s. count_min (I.remaining s.0) (V.remaining s.1) };

    fn next(&mut self) -> Option<Option<T>> {
        let value = self.values.next();
        let valid = self.validity.next();
        match (value, valid) {
            (Some(value), Some(valid)) => Some(if valid { Some(value) } else { None }),
            _ => None,
        }
    }

    fn size_hint(&self) -> (usize, Option<usize>) {
        let (low, high) = self.values.size_hint();
        let (low_valid, high_valid) = self.validity.size_hint();
        let most = match (high, high_valid) {
            (Some(a), Some(b)) => Some(a.min(b)),
            (None, bound) => bound,
            (bound, None) => bound,
        };
        (low.min(low_valid), most)
    }
}

impl<
    T: Drop,
    I: DoubleEndedIterator<Item = T>,
    V: DoubleEndedIterator<Item = bool>,
> DoubleEndedIterator for ZipValidityIter<T, I, V> {
    ghost can_next_back = { λ s. I.can_next_back s.0 × V.can_next_back s.1 };

    ghost next_back_gives = { StepsBoth I.next_back_gives V.next_back_gives };

    fn next_back(&mut self) -> Option<Option<T>> {
        let value = self.values.next_back();
        let valid = self.validity.next_back();
        match (value, valid) {
            (Some(value), Some(valid)) => Some(if valid { Some(value) } else { None }),
            _ => None,
        }
    }
}

impl<T: Drop, I: ExactSizeIterator<Item = T>, V: ExactSizeIterator<Item = bool>> ExactSizeIterator
    for ZipValidityIter<T, I, V> {
    fn len(&self) -> usize {
        let values = self.values.len();
        let bits = self.validity.len();
        values.min(bits)
    }
}
