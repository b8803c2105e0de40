ghost use Rattle.columnar_memory_types.specs.Equality.{same_type-Decides, same_field-Decides};

use crate::{Boxed, IntegerType, IntervalUnit, Items, Metadata, Text, TimeUnit, UnionMode};
use std::hash::Hash;

/// What the values of a column mean, and so how they lie in memory.
#[cycle(types)]
#[derive(Debug, Drop, Hash)]
pub enum DataType {
    /// No value at all: each slot is null.
    Null,
    Boolean,
    Int8,
    Int16,
    Int32,
    Int64,
    UInt8,
    UInt16,
    UInt32,
    UInt64,
    Float16,
    Float32,
    Float64,
    /// A moment, as a count of the unit since 1970 in UTC, and the time zone to show it in, if it has
    /// one.
    Timestamp(TimeUnit, Option<Text>),
    /// Days since 1970, in 32 bits.
    Date32,
    /// Milliseconds since 1970, in 64 bits.
    Date64,
    /// The time of a day in 32 bits: seconds or milliseconds.
    Time32(TimeUnit),
    /// The time of a day in 64 bits: microseconds or nanoseconds.
    Time64(TimeUnit),
    Duration(TimeUnit),
    Interval(IntervalUnit),
    /// Bytes, of at most 2^31 - 1 in an array.
    Binary,
    /// As many bytes a value as the number says.
    FixedSizeBinary(usize),
    LargeBinary,
    /// Text in UTF-8, of at most 2^31 - 1 bytes in an array.
    Utf8,
    LargeUtf8,
    List(Boxed<Field>),
    /// Lists of the length that the number says.
    FixedSizeList(Boxed<Field>, usize),
    LargeList(Boxed<Field>),
    Struct(Items<Field>),
    /// One of several types a slot. The numbers, where they are given, name the fields in turn.
    Union(Items<Field>, Option<Items<i32>>, UnionMode),
    /// Lists of entries, a struct of a key and a value, and whether the keys are sorted.
    Map(Boxed<Field>, bool),
    /// Values by their numbers: the numbers' type, the values' type, and whether the order of the
    /// numbers is that of the values.
    Dictionary(IntegerType, Boxed<DataType>, bool),
    /// Decimal numbers in 128 bits: how many digits, and how many of them after the point.
    Decimal(usize, usize),
    /// The same in 256 bits.
    Decimal256(usize, usize),
    /// A type with a meaning of its own, by its name, the type that stores it, and what else is said
    /// of it.
    Extension(Text, Boxed<DataType>, Option<Text>),
}

/// A named column of a schema, or a child of a nested type.
#[cycle(types)]
#[derive(Debug, Drop, Hash)]
pub struct Field {
    /// The name, which may be empty, and which others may have too.
    pub name: Text,
    pub data_type: DataType,
    /// Whether a slot may be null.
    pub is_nullable: bool,
    /// What else is said of the column.
    pub metadata: Metadata,
}

#[derived]
impl Hash for DataType {
    ghost respects_eq = { λ x y h. Prim.cc ((same_type-Decides x y).0 h) };
}

#[derived]
impl Hash for Field {
    ghost respects_eq = { λ x y h. Prim.cc ((same_field-Decides x y).0 h) };
}
