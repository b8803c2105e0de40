ghost use Rattle.std.specs.Prelude.{◌≡◌, ◌↔◌, IsTrue};

/// The integers that may number the values of a dictionary.
#[derive(Clone, Copy, Debug, PartialEq, Eq, Hash, PartialOrd, Ord)]
pub enum IntegerType {
    Int8,
    Int16,
    Int32,
    Int64,
    UInt8,
    UInt16,
    UInt32,
    UInt64,
}

/// The values of one width that an array stores side by side.
#[derive(Clone, Copy, Debug, PartialEq, Eq, Hash, PartialOrd, Ord)]
pub enum PrimitiveType {
    Int8,
    Int16,
    Int32,
    Int64,
    /// 128 bits.
    Int128,
    /// 256 bits.
    Int256,
    UInt8,
    UInt16,
    UInt32,
    UInt64,
    Float16,
    Float32,
    Float64,
    /// Days and milliseconds, 32 bits each.
    DaysMs,
    /// Months and days, 32 bits each, and nanoseconds, 64 bits.
    MonthDayNano,
}

/// How an array of a type lies in memory, whatever its values mean.
#[derive(Clone, Copy, Debug, PartialEq, Eq, Hash)]
pub enum PhysicalType {
    /// A length alone.
    Null,
    /// A bit a value.
    Boolean,
    /// Values of one width.
    Primitive(PrimitiveType),
    /// Bytes, by offsets of 32 bits.
    Binary,
    /// As many bytes a value as the type says.
    FixedSizeBinary,
    /// Bytes, by offsets of 64 bits.
    LargeBinary,
    /// Text, by offsets of 32 bits.
    Utf8,
    /// Text, by offsets of 64 bits.
    LargeUtf8,
    /// Lists, by offsets of 32 bits.
    List,
    /// Lists of one length.
    FixedSizeList,
    /// Lists, by offsets of 64 bits.
    LargeList,
    /// A child for each field.
    Struct,
    /// A child for each field, and at each slot the number of one.
    Union,
    /// Lists of entries with a key and a value.
    Map,
    /// Numbers of values that stand apart.
    Dictionary(IntegerType),
}

impl PhysicalType {
    /// Whether this is the layout of these primitive values.
    pub fn eq_primitive(&self, primitive: PrimitiveType) -> bool
        ensures { IsTrue result ↔ (self.now ≡ PhysicalType.Primitive primitive) }
    {
        match self {
            PhysicalType::Primitive(own) => *own == primitive,
            _ => false,
        }
    }
}
