//! The primitive arrays by their values.
use crate::primitive::PrimitiveArray;
use columnar_memory_core::{days_ms, i256, months_days_ns};

pub type Int8Array = PrimitiveArray<i8>;

pub type Int16Array = PrimitiveArray<i16>;

pub type Int32Array = PrimitiveArray<i32>;

pub type Int64Array = PrimitiveArray<i64>;

pub type Int128Array = PrimitiveArray<i128>;

pub type Int256Array = PrimitiveArray<i256>;

pub type UInt8Array = PrimitiveArray<u8>;

pub type UInt16Array = PrimitiveArray<u16>;

pub type UInt32Array = PrimitiveArray<u32>;

pub type UInt64Array = PrimitiveArray<u64>;

pub type DaysMsArray = PrimitiveArray<days_ms>;

pub type MonthsDaysNsArray = PrimitiveArray<months_days_ns>;
