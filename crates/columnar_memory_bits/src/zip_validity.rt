ghost use Rattle.std.specs.Prelude.{◌≡◌, Bool, List, MatchOption, if◌then◌else◌, ◌==◌};
ghost use Rattle.columnar_memory_bits.specs.Bits.{unset_count};
ghost use Rattle.columnar_memory_bits.specs.ZipValidityCases.{StepsEither, CanStepEither, count_either, IsRequired, IsOptional};

use crate::iterator::BitmapIter;
use crate::zip_validity_iter::ZipValidityIter;

/// What holds validity bits, as a bitmap does.
pub trait Validity {
    ghost valid: { Self → List Bool };

    /// How many bits are not set.
    fn unset_bits(&self) -> usize
        ensures { result ≡ unset_count (valid self.now) };

    /// The bits in order.
    fn valid_iter(&self) -> BitmapIter<'_>
        ensures { result ≡ valid self.now };
}

/// Values of which all are there, or that stand beside their validity bits.
#[derive(Drop)]
pub enum ZipValidity<T, I: Iterator<Item = T>, V: Iterator<Item = bool>> {
    Required(I),
    Optional(ZipValidityIter<T, I, V>),
}

impl<T, I: Iterator<Item = T>, V: Iterator<Item = bool>> ZipValidity<T, I, V> {
    /// Values beside as many bits, where there are bits.
    pub fn new(values: I, validity: Option<V>) -> Self
        ensures { MatchOption validity (result ≡ ZipValidity.Required values) (λ bits. result ≡ ZipValidity.Optional (values, bits)) }
    {
        match validity {
            Some(validity) => ZipValidity::Optional(ZipValidityIter::new(values, validity)),
            None => ZipValidity::Required(values),
        }
    }

    /// The values, where all are there.
    pub fn unwrap_required(self) -> I
    where
        T: Drop,
        requires { IsRequired self }
        ensures { self ≡ ZipValidity.Required result }
    {
        match self {
            ZipValidity::Required(values) => values,
            ZipValidity::Optional(_) => unreachable!(),
        }
    }

    /// The values and their bits, where there are bits.
    pub fn unwrap_optional(self) -> ZipValidityIter<T, I, V>
    where
        T: Drop,
        requires { IsOptional self }
        ensures { self ≡ ZipValidity.Optional result }
    {
        match self {
            ZipValidity::Required(_) => unreachable!(),
            ZipValidity::Optional(both) => both,
        }
    }
}

impl<'a, T, I: Iterator<Item = T>> ZipValidity<T, I, BitmapIter<'a>> {
    /// Values beside as many bits of a bitmap, where one of them is not set.
    pub fn new_with_validity<B: Validity>(values: I, validity: Option<&'a B>) -> Self
        ensures { MatchOption validity.entry (result ≡ ZipValidity.Required values) (λ bits. result ≡ (
            if unset_count (B.valid bits.now) == 0 then ZipValidity.Required values else ZipValidity.Optional (values, B.valid bits.now))) }
    {
        match validity {
            Some(validity) if validity.unset_bits() > 0 => {
                ZipValidity::Optional(ZipValidityIter::new(values, validity.valid_iter()))
            }
            _ => ZipValidity::Required(values),
        }
    }
}

impl<T: Drop, I: Iterator<Item = T>, V: Iterator<Item = bool>> Iterator for ZipValidity<T, I, V> {
    type Item = Option<T>;

    ghost can_next = { CanStepEither I.can_next V.can_next };

    ghost next_gives = { StepsEither I.next_gives V.next_gives };

    ghost remaining = { count_either I.remaining V.remaining };

    fn next(&mut self) -> Option<Option<T>> {
        match self {
            ZipValidity::Required(values) => match values.next() {
                Some(value) => Some(Some(value)),
                None => None,
            },
            ZipValidity::Optional(both) => both.next(),
        }
    }

    fn size_hint(&self) -> (usize, Option<usize>) {
        match self {
            ZipValidity::Required(values) => values.size_hint(),
            ZipValidity::Optional(both) => both.size_hint(),
        }
    }
}

impl<
    T: Drop,
    I: DoubleEndedIterator<Item = T>,
    V: DoubleEndedIterator<Item = bool>,
> DoubleEndedIterator for ZipValidity<T, I, V> {
    ghost can_next_back = { CanStepEither I.can_next_back V.can_next_back };

    ghost next_back_gives = { StepsEither I.next_back_gives V.next_back_gives };

    fn next_back(&mut self) -> Option<Option<T>> {
        match self {
            ZipValidity::Required(values) => match values.next_back() {
                Some(value) => Some(Some(value)),
                None => None,
            },
            ZipValidity::Optional(both) => both.next_back(),
        }
    }
}

impl<T: Drop, I: ExactSizeIterator<Item = T>, V: ExactSizeIterator<Item = bool>> ExactSizeIterator
    for ZipValidity<T, I, V> {
    fn len(&self) -> usize {
        match self {
            ZipValidity::Required(values) => values.len(),
            ZipValidity::Optional(both) => both.len(),
        }
    }
}
