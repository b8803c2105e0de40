//! The parts of intervals, each part a number by itself.

ghost use Rattle.std.specs.Prelude.{◌≡◌};
ghost use Rattle.std.proofs.Common.{refl, rules};
ghost use Rattle.columnar_memory_types.specs.declared.kinds.PrimitiveType.TheVariants as kinds;
ghost use Rattle.columnar_memory_native.specs.Numbers.{two, three, first_number, second_number, third_number};

use crate::arrays::array_of;
use crate::native_type::NativeType;
use columnar_memory_types::PrimitiveType;

/// Days and milliseconds (Arrow format, "Schema.fbs", `Interval` of the unit `DAY_TIME`).
#[allow(non_camel_case_types)]
#[derive(Clone, Copy, Debug, Default, PartialEq, Eq, Hash)]
pub struct days_ms(pub i32, pub i32);

impl days_ms {
    pub fn new(days: i32, milliseconds: i32) -> Self
        ensures days { result.0 ≡ days }
        ensures milliseconds { result.1 ≡ milliseconds }
    {
        days_ms(days, milliseconds)
    }

    pub fn days(&self) -> i32
        ensures { result ≡ self.now.0 }
    {
        self.0
    }

    pub fn milliseconds(&self) -> i32
        ensures { result ≡ self.now.1 }
    {
        self.1
    }
}

impl NativeType for days_ms {
    type Bytes = [u8; 8];

    ghost PRIMITIVE = { kinds.DaysMs };

    ghost SIZE = { 8 };

    ghost numbers = { λ x. two x.0 x.1 };

    const PRIMITIVE: PrimitiveType = PrimitiveType::DaysMs;

    const SIZE: usize = 8;

    fn to_le_bytes(&self) -> [u8; 8] {
        let [d0, d1, d2, d3] = self.0.to_le_bytes();
        let [m0, m1, m2, m3] = self.1.to_le_bytes();
        [d0, d1, d2, d3, m0, m1, m2, m3]
    }

    fn to_be_bytes(&self) -> [u8; 8] {
        let [d0, d1, d2, d3] = self.0.to_be_bytes();
        let [m0, m1, m2, m3] = self.1.to_be_bytes();
        [d0, d1, d2, d3, m0, m1, m2, m3]
    }

    fn from_le_bytes(bytes: [u8; 8]) -> days_ms {
        days_ms(
            i32::from_le_bytes(array_of(&bytes[..4])),
            i32::from_le_bytes(array_of(&bytes[4..])),
        )
    }

    fn from_be_bytes(bytes: [u8; 8]) -> days_ms {
        days_ms(
            i32::from_be_bytes(array_of(&bytes[..4])),
            i32::from_be_bytes(array_of(&bytes[4..])),
        )
    }

    fn bytes_from_slice(slice: &[u8]) -> [u8; 8] {
        array_of(slice)
    }

    ghost size_law = { refl };

    ghost same_law = { λ x y same i. record { 0 = first_number (same i); 1 = second_number (same i) } };

    ghost eq_law = { λ x y. Prim.search rules };

    ghost default_law = { λ x is. Prim.cc };
}

/// Months, days and nanoseconds (Arrow format, "Schema.fbs", `Interval` of the unit
/// `MONTH_DAY_NANO`).
#[allow(non_camel_case_types)]
#[derive(Clone, Copy, Debug, Default, PartialEq, Eq, Hash)]
pub struct months_days_ns(pub i32, pub i32, pub i64);

impl months_days_ns {
    pub fn new(months: i32, days: i32, nanoseconds: i64) -> Self
        ensures months { result.0 ≡ months }
        ensures days { result.1 ≡ days }
        ensures nanoseconds { result.2 ≡ nanoseconds }
    {
        months_days_ns(months, days, nanoseconds)
    }

    pub fn months(&self) -> i32
        ensures { result ≡ self.now.0 }
    {
        self.0
    }

    pub fn days(&self) -> i32
        ensures { result ≡ self.now.1 }
    {
        self.1
    }

    /// The nanoseconds.
    pub fn ns(&self) -> i64
        ensures { result ≡ self.now.2 }
    {
        self.2
    }
}

impl NativeType for months_days_ns {
    type Bytes = [u8; 16];

    ghost PRIMITIVE = { kinds.MonthDayNano };

    ghost SIZE = { 16 };

    ghost numbers = { λ x. three x.0 x.1 x.2 };

    const PRIMITIVE: PrimitiveType = PrimitiveType::MonthDayNano;

    const SIZE: usize = 16;

    fn to_le_bytes(&self) -> [u8; 16] {
        let [m0, m1, m2, m3] = self.0.to_le_bytes();
        let [d0, d1, d2, d3] = self.1.to_le_bytes();
        let [n0, n1, n2, n3, n4, n5, n6, n7] = self.2.to_le_bytes();
        [
            m0, m1, m2, m3, d0, d1, d2, d3, n0, n1, n2, n3, n4, n5, n6, n7,
        ]
    }

    fn to_be_bytes(&self) -> [u8; 16] {
        let [m0, m1, m2, m3] = self.0.to_be_bytes();
        let [d0, d1, d2, d3] = self.1.to_be_bytes();
        let [n0, n1, n2, n3, n4, n5, n6, n7] = self.2.to_be_bytes();
        [
            m0, m1, m2, m3, d0, d1, d2, d3, n0, n1, n2, n3, n4, n5, n6, n7,
        ]
    }

    fn from_le_bytes(bytes: [u8; 16]) -> months_days_ns {
        months_days_ns(
            i32::from_le_bytes(array_of(&bytes[..4])),
            i32::from_le_bytes(array_of(&bytes[4..8])),
            i64::from_le_bytes(array_of(&bytes[8..])),
        )
    }

    fn from_be_bytes(bytes: [u8; 16]) -> months_days_ns {
        months_days_ns(
            i32::from_be_bytes(array_of(&bytes[..4])),
            i32::from_be_bytes(array_of(&bytes[4..8])),
            i64::from_be_bytes(array_of(&bytes[8..])),
        )
    }

    fn bytes_from_slice(slice: &[u8]) -> [u8; 16] {
        array_of(slice)
    }

    ghost size_law = { refl };

    ghost same_law = { λ x y same i. record { 0 = first_number (same i); 1 = second_number (same i); 2 = third_number (same i) } };

    ghost eq_law = { λ x y. Prim.search rules };

    ghost default_law = { λ x is. Prim.cc };
}
