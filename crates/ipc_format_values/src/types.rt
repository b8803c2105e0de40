//! The types of fields (Schema.fbs, union `Type`).
use crate::fields::Int;
use ipc_format_writing::columnar_memory::{IntervalUnit, Items, Text, TimeUnit, UnionMode};
use ipc_format_writing::messages::DateUnit;

/// How many bits a floating-point number has: 16, 32 or 64 (Schema.fbs, `Precision`).
#[derive(Clone, Copy, Debug, PartialEq, Eq)]
pub enum Precision {
    Half,
    Single,
    Double,
}

/// A type by itself: the fields below it stand at its field (Schema.fbs, union `Type`).
#[derive(Debug, Drop)]
pub enum Type_ {
    Null,
    Int(Int),
    FloatingPoint(Precision),
    Binary,
    Utf8,
    Bool,
    Decimal {
        /// How many digits a number has.
        precision: i32,
        /// How many of them stand after the point.
        scale: i32,
        bit_width: i32,
    },
    Date(DateUnit),
    Time {
        unit: TimeUnit,
        bit_width: i32,
    },
    Timestamp {
        unit: TimeUnit,
        timezone: Option<Text>,
    },
    Interval(IntervalUnit),
    List,
    Struct,
    Union {
        mode: UnionMode,
        /// The numbers of the fields in turn, where they are given.
        type_ids: Option<Items<i32>>,
    },
    FixedSizeBinary {
        /// How many bytes a value has.
        byte_width: i32,
    },
    FixedSizeList {
        /// How many items a list has.
        list_size: i32,
    },
    Map {
        keys_sorted: bool,
    },
    Duration(TimeUnit),
    LargeBinary,
    LargeUtf8,
    LargeList,
}
