//! Numbers of any kind by themselves.
ghost use Rattle.std.specs.Prelude.{pos, MatchOption};
ghost use Rattle.nested_arrays_core.specs.arrays.columnar_memory.Numbers.{one, two, three};
ghost use Rattle.nested_arrays_core.specs.arrays.columnar_memory.declared.PrimitiveType.TheVariants as kinds;
ghost use Rattle.nested_arrays_builder_parts.specs.AnyNumbers.{IsTakenOut};

use nested_arrays_core::arrays::columnar_memory::{days_ms, i256, months_days_ns};
use nested_arrays_core::arrays::flat::PrimitiveKind;

/// A number, by its kind.
#[derive(Clone, Copy, Debug)]
pub enum AnyNumber {
    Int8(i8),
    Int16(i16),
    Int32(i32),
    Int64(i64),
    Int128(i128),
    Int256(i256),
    UInt8(u8),
    UInt16(u16),
    UInt32(u32),
    UInt64(u64),
    DaysMs(days_ms),
    MonthsDaysNs(months_days_ns),
}

/// A kind of numbers that are taken out of one of any kind.
pub trait NumberKind: PrimitiveKind {
    /// The number, where it is of this kind.
    fn taken_out(number: AnyNumber) -> Option<Self>
        ensures { IsTakenOut Self.PRIMITIVE Self.numbers number result };
}

impl NumberKind for i8 {
    fn taken_out(number: AnyNumber) -> Option<i8> {
        match number {
            AnyNumber::Int8(value) => Some(value),
            _ => None,
        }
    }
}

impl NumberKind for i16 {
    fn taken_out(number: AnyNumber) -> Option<i16> {
        match number {
            AnyNumber::Int16(value) => Some(value),
            _ => None,
        }
    }
}

impl NumberKind for i32 {
    fn taken_out(number: AnyNumber) -> Option<i32> {
        match number {
            AnyNumber::Int32(value) => Some(value),
            _ => None,
        }
    }
}

impl NumberKind for i64 {
    fn taken_out(number: AnyNumber) -> Option<i64> {
        match number {
            AnyNumber::Int64(value) => Some(value),
            _ => None,
        }
    }
}

impl NumberKind for i128 {
    fn taken_out(number: AnyNumber) -> Option<i128> {
        match number {
            AnyNumber::Int128(value) => Some(value),
            _ => None,
        }
    }
}

impl NumberKind for i256 {
    fn taken_out(number: AnyNumber) -> Option<i256> {
        match number {
            AnyNumber::Int256(value) => Some(value),
            _ => None,
        }
    }
}

impl NumberKind for u8 {
    fn taken_out(number: AnyNumber) -> Option<u8> {
        match number {
            AnyNumber::UInt8(value) => Some(value),
            _ => None,
        }
    }
}

impl NumberKind for u16 {
    fn taken_out(number: AnyNumber) -> Option<u16> {
        match number {
            AnyNumber::UInt16(value) => Some(value),
            _ => None,
        }
    }
}

impl NumberKind for u32 {
    fn taken_out(number: AnyNumber) -> Option<u32> {
        match number {
            AnyNumber::UInt32(value) => Some(value),
            _ => None,
        }
    }
}

impl NumberKind for u64 {
    fn taken_out(number: AnyNumber) -> Option<u64> {
        match number {
            AnyNumber::UInt64(value) => Some(value),
            _ => None,
        }
    }
}

impl NumberKind for days_ms {
    fn taken_out(number: AnyNumber) -> Option<days_ms> {
        match number {
            AnyNumber::DaysMs(value) => Some(value),
            _ => None,
        }
    }
}

impl NumberKind for months_days_ns {
    fn taken_out(number: AnyNumber) -> Option<months_days_ns> {
        match number {
            AnyNumber::MonthsDaysNs(value) => Some(value),
            _ => None,
        }
    }
}
