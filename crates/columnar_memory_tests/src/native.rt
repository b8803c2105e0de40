ghost use Rattle.std.specs.Prelude.{◌≡◌};

use columnar_memory_native::{NativeType, days_ms, i256, months_days_ns};
use columnar_memory_types::PrimitiveType;
use std::cmp::Ordering;
use std::convert::AsSlice;
use std::hash::{DefaultHasher, Hash, Hasher};

// The value by its bytes in both orders.
fn there_and_back<T: NativeType>(value: T) -> (T, T)
    ensures little { result.0 ≡ value }
    ensures big { result.1 ≡ value }
{
    let little = T::from_le_bytes(T::bytes_from_slice(value.to_le_bytes().as_slice()));
    (little, T::from_be_bytes(value.to_be_bytes()))
}

fn comes_back<T: NativeType>(value: T) -> bool {
    there_and_back(value) == (value, value)
}

#[test]
fn integers_come_back_from_their_bytes(rt: HostRuntime) {
    assert!(rt; comes_back(-2i8));
    assert!(rt; comes_back(u64::MAX));
    assert!(rt; comes_back(i128::MIN));
}

#[test]
fn wide_values_come_back_from_their_bytes(rt: HostRuntime) {
    assert!(rt; comes_back(i256::from_words(-3, 5)));
    assert!(rt; comes_back(months_days_ns::new(-1, 2, -3)));
}

#[test]
fn intervals_have_parts(rt: HostRuntime) {
    let parts = months_days_ns::new(-1, 2, -3);
    assert!(rt; (parts.months(), parts.days(), parts.ns()) == (-1, 2, -3));
    let interval = days_ms::from_be_bytes([0, 0, 0, 1, 0, 0, 0, 2]);
    assert!(rt; (interval.days(), interval.milliseconds()) == (1, 2));
}

#[test]
fn bytes_stand_in_the_order_asked_for(rt: HostRuntime) {
    assert_eq!(rt; (-2i16).to_le_bytes().as_slice(), [0xfe, 0xff].as_slice());
    assert_eq!(rt;
        NativeType::to_le_bytes(&days_ms::new(1, 2)).as_slice(),
        [1, 0, 0, 0, 2, 0, 0, 0].as_slice()
    );
}

#[test]
fn the_highest_byte_of_a_wide_number_stands_first(rt: HostRuntime) {
    let wide = i256::from_words(-2, 1).to_be_bytes();
    assert_eq!(rt; wide.as_slice().first(), Some(&0xff));
    assert_eq!(rt; wide.as_slice().last(), Some(&1));
}

#[test]
fn kinds_have_a_size(rt: HostRuntime) {
    assert_eq!(rt; <days_ms as NativeType>::PRIMITIVE, PrimitiveType::DaysMs);
    assert_eq!(rt; <i256 as NativeType>::SIZE, 32);
}

fn hash_of<T: Hash>(value: &T) -> u64 {
    let mut state = DefaultHasher::new();
    value.hash(&mut state);
    state.finish()
}

#[test]
fn numbers_of_256_bits_have_an_order(rt: HostRuntime) {
    let (below, zero) = (i256::from_words(-1, -1), i256::default());
    assert_eq!(rt; below.cmp(&zero), Ordering::Less);
    assert_eq!(rt; -below, i256::from_words(0, 1));
    assert_eq!(rt; hash_of(&-zero), hash_of(&i256::from_words(0, 0)));
}

#[test]
fn the_higher_word_is_negated(rt: HostRuntime) {
    assert_eq!(rt; -i256::from_words(2, 0), i256::from_words(-2, 0));
}
