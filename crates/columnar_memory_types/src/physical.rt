// Which types lie in memory alike.
ghost use Rattle.std.specs.Prelude.{◌≡◌};
ghost use Rattle.columnar_memory_types.specs.Conversions.{type_of_integer, type_of_primitive};
ghost use Rattle.columnar_memory_types.specs.Layouts.{logical_type, physical_type};

use crate::data_type::DataType;
use crate::{IntegerType, IntervalUnit, PhysicalType, PrimitiveType};

impl DataType {
    /// The type that stores this one: itself, or what its extension is over.
    pub fn to_logical_type(&self) -> &DataType
        ensures value { result.now ≡ logical_type self.now }
        ensures layout { physical_type result.now ≡ physical_type self.now }
    {
        match self {
            DataType::Extension(_, inner, _) => inner.get().to_logical_type(),
            _ => self,
        }
    }

    /// How an array of this type lies in memory.
    // match table: an arm for each layout of the 35 types.
    pub fn to_physical_type(&self) -> PhysicalType
        ensures { result ≡ physical_type self.now }
    {
        match self {
            DataType::Null => PhysicalType::Null,
            DataType::Boolean => PhysicalType::Boolean,
            DataType::Int8 => PhysicalType::Primitive(PrimitiveType::Int8),
            DataType::Int16 => PhysicalType::Primitive(PrimitiveType::Int16),
            DataType::Int32 | DataType::Date32 | DataType::Time32(_) => PhysicalType::Primitive(
                PrimitiveType::Int32,
            ),
            DataType::Int64
            | DataType::Timestamp(_, _)
            | DataType::Date64
            | DataType::Time64(_)
            | DataType::Duration(_) => PhysicalType::Primitive(PrimitiveType::Int64),
            DataType::UInt8 => PhysicalType::Primitive(PrimitiveType::UInt8),
            DataType::UInt16 => PhysicalType::Primitive(PrimitiveType::UInt16),
            DataType::UInt32 => PhysicalType::Primitive(PrimitiveType::UInt32),
            DataType::UInt64 => PhysicalType::Primitive(PrimitiveType::UInt64),
            DataType::Float16 => PhysicalType::Primitive(PrimitiveType::Float16),
            DataType::Float32 => PhysicalType::Primitive(PrimitiveType::Float32),
            DataType::Float64 => PhysicalType::Primitive(PrimitiveType::Float64),
            DataType::Interval(IntervalUnit::YearMonth) => PhysicalType::Primitive(
                PrimitiveType::Int32,
            ),
            DataType::Interval(IntervalUnit::DayTime) => PhysicalType::Primitive(
                PrimitiveType::DaysMs,
            ),
            DataType::Interval(IntervalUnit::MonthDayNano) => PhysicalType::Primitive(
                PrimitiveType::MonthDayNano,
            ),
            DataType::Binary => PhysicalType::Binary,
            DataType::FixedSizeBinary(_) => PhysicalType::FixedSizeBinary,
            DataType::LargeBinary => PhysicalType::LargeBinary,
            DataType::Utf8 => PhysicalType::Utf8,
            DataType::LargeUtf8 => PhysicalType::LargeUtf8,
            DataType::List(_) => PhysicalType::List,
            DataType::FixedSizeList(_, _) => PhysicalType::FixedSizeList,
            DataType::LargeList(_) => PhysicalType::LargeList,
            DataType::Struct(_) => PhysicalType::Struct,
            DataType::Union(_, _, _) => PhysicalType::Union,
            DataType::Map(_, _) => PhysicalType::Map,
            DataType::Dictionary(key, _, _) => PhysicalType::Dictionary(*key),
            DataType::Decimal(_, _) => PhysicalType::Primitive(PrimitiveType::Int128),
            DataType::Decimal256(_, _) => PhysicalType::Primitive(PrimitiveType::Int256),
            DataType::Extension(_, inner, _) => inner.get().to_physical_type(),
        }
    }
}

impl From<IntegerType> for DataType {
    ghost from_gives = { λ integer d. d ≡ type_of_integer integer };

    fn from(integer: IntegerType) -> Self {
        match integer {
            IntegerType::Int8 => DataType::Int8,
            IntegerType::Int16 => DataType::Int16,
            IntegerType::Int32 => DataType::Int32,
            IntegerType::Int64 => DataType::Int64,
            IntegerType::UInt8 => DataType::UInt8,
            IntegerType::UInt16 => DataType::UInt16,
            IntegerType::UInt32 => DataType::UInt32,
            IntegerType::UInt64 => DataType::UInt64,
        }
    }
}

impl From<PrimitiveType> for DataType {
    ghost from_gives = { λ primitive d. d ≡ type_of_primitive primitive };

    fn from(primitive: PrimitiveType) -> Self {
        match primitive {
            PrimitiveType::Int8 => DataType::Int8,
            PrimitiveType::Int16 => DataType::Int16,
            PrimitiveType::Int32 => DataType::Int32,
            PrimitiveType::Int64 => DataType::Int64,
            PrimitiveType::Int128 => DataType::Decimal(32, 32),
            PrimitiveType::Int256 => DataType::Decimal256(32, 32),
            PrimitiveType::UInt8 => DataType::UInt8,
            PrimitiveType::UInt16 => DataType::UInt16,
            PrimitiveType::UInt32 => DataType::UInt32,
            PrimitiveType::UInt64 => DataType::UInt64,
            PrimitiveType::Float16 => DataType::Float16,
            PrimitiveType::Float32 => DataType::Float32,
            PrimitiveType::Float64 => DataType::Float64,
            PrimitiveType::DaysMs => DataType::Interval(IntervalUnit::DayTime),
            PrimitiveType::MonthDayNano => DataType::Interval(IntervalUnit::MonthDayNano),
        }
    }
}
