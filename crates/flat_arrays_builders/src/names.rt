//! The builders of primitive arrays by their values.
use crate::primitive::MutablePrimitiveArray;
use flat_arrays_values::columnar_memory::{days_ms, i256, months_days_ns};

pub type Int8Vec = MutablePrimitiveArray<i8>;

pub type Int16Vec = MutablePrimitiveArray<i16>;

pub type Int32Vec = MutablePrimitiveArray<i32>;

pub type Int64Vec = MutablePrimitiveArray<i64>;

pub type Int128Vec = MutablePrimitiveArray<i128>;

pub type Int256Vec = MutablePrimitiveArray<i256>;

pub type UInt8Vec = MutablePrimitiveArray<u8>;

pub type UInt16Vec = MutablePrimitiveArray<u16>;

pub type UInt32Vec = MutablePrimitiveArray<u32>;

pub type UInt64Vec = MutablePrimitiveArray<u64>;

pub type DaysMsVec = MutablePrimitiveArray<days_ms>;

pub type MonthsDaysNsVec = MutablePrimitiveArray<months_days_ns>;
