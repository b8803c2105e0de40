//! Cells of any type by themselves.

use columnar_memory_native::types::{Items, Text};
use columnar_memory_native::{days_ms, i256, months_days_ns};

/// One value that is pushed.
///
/// The cell of a dictionary or of an extension is that of its inner type.
#[derive(Debug, Drop)]
pub enum AnyScalar {
    Null,
    Boolean(bool),
    Int8(i8),
    Int16(i16),
    Int32(i32),
    Int64(i64),
    Int128(i128),
    Int256(i256),
    UInt8(u8),
    UInt16(u16),
    UInt32(u32),
    UInt64(u64),
    DaysMs(days_ms),
    MonthsDaysNs(months_days_ns),
    /// A text in UTF-8.
    Text(Text),
    Bytes(Items<u8>),
    List(Items<AnyScalar>),
    /// A cell for each field of a struct.
    Record(Items<AnyScalar>),
}
