//! A type's own table, and the tag that names its kind (Schema.fbs, union Type).
ghost use Rattle.std.specs.Prelude.{◌≡◌, IsTrue, true};
ghost use Rattle.ipc_format_messages.specs.grammar.Schemas.{no_ids};
ghost use Rattle.ipc_format_messages.specs.grammar.SchemaObjects as objects;
ghost use Rattle.ipc_format_messages.specs.grammar.Writable.{report_of, fits_i32};
ghost use Rattle.ipc_format_writing.specs.Kinds.{table_view, kind_view, kind_told};

use ipc_format_messages::columnar_memory::{
    DataType, IntegerType, IntervalUnit, Items, Text, TimeUnit, UnionMode,
};
use ipc_format_messages::metadata::tag_numbers;

/// A type's own table.
#[derive(Clone, Copy, Debug)]
pub enum TypeTable<'a> {
    Empty,
    /// A unit, or the precision of a float.
    Unit(u16),
    /// How many bytes or items a value has.
    Size(u32),
    Int {
        bits: u32,
        is_signed: bool,
    },
    Decimal {
        precision: u32,
        scale: u32,
        bits: u32,
    },
    Time {
        unit: u16,
        bits: u32,
    },
    Timestamp {
        unit: u16,
        timezone: &'a Option<Text>,
    },
    Map {
        are_keys_sorted: bool,
    },
    Union {
        mode: u16,
        ids: &'a Option<Items<i32>>,
    },
}

/// The tag of a type's table, and the table.
#[derive(Clone, Copy, Debug)]
pub struct Kind<'a> {
    pub tag: u8,
    pub table: TypeTable<'a>,
}

fn time_unit(unit: TimeUnit) -> u16
    ensures { result ≡ objects.unit_number unit }
{
    match unit {
        TimeUnit::Second => 0,
        TimeUnit::Millisecond => 1,
        TimeUnit::Microsecond => 2,
        TimeUnit::Nanosecond => 3,
    }
}

fn interval_unit(unit: IntervalUnit) -> u16
    ensures { result ≡ objects.interval_number unit }
{
    match unit {
        IntervalUnit::YearMonth => 0,
        IntervalUnit::DayTime => 1,
        IntervalUnit::MonthDayNano => 2,
    }
}

fn union_mode(mode: UnionMode) -> u16
    ensures { result ≡ objects.mode_number mode }
{
    match mode {
        UnionMode::Sparse => 0,
        UnionMode::Dense => 1,
    }
}

/// The kind of whole numbers of so many bits.
fn int<'a>(bits: u32, is_signed: bool) -> Kind<'a>
    ensures { kind_view result ≡ (2, objects.int_object bits is_signed) }
{
    Kind {
        tag: tag_numbers::TYPE_INT,
        table: TypeTable::Int { bits, is_signed },
    }
}

/// The kind of a type by itself, under its dictionary and extension.
// match table: an arm for each of the 35 types.
pub fn kind_of(data_type: &DataType) -> Kind<'_>
    requires { (report_of data_type.now).is_allowed ≡ true }
    ensures { kind_view result ≡ kind_told (objects.told_of data_type.now no_ids) }
{
    let (tag, table) = match data_type {
        DataType::Int8 => return int(8, true),
        DataType::Int16 => return int(16, true),
        DataType::Int32 => return int(32, true),
        DataType::Int64 => return int(64, true),
        DataType::UInt8 => return int(8, false),
        DataType::UInt16 => return int(16, false),
        DataType::UInt32 => return int(32, false),
        DataType::UInt64 => return int(64, false),
        DataType::Dictionary(_, value, _) => return kind_of(value.get()),
        DataType::Extension(_, inner, _) => return kind_of(inner.get()),
        DataType::Null => (tag_numbers::TYPE_NULL, TypeTable::Empty),
        DataType::Float16 => (tag_numbers::TYPE_FLOATING_POINT, TypeTable::Unit(0)),
        DataType::Float32 => (tag_numbers::TYPE_FLOATING_POINT, TypeTable::Unit(1)),
        DataType::Float64 => (tag_numbers::TYPE_FLOATING_POINT, TypeTable::Unit(2)),
        DataType::Binary => (tag_numbers::TYPE_BINARY, TypeTable::Empty),
        DataType::Utf8 => (tag_numbers::TYPE_UTF8, TypeTable::Empty),
        DataType::Boolean => (tag_numbers::TYPE_BOOL, TypeTable::Empty),
        DataType::Decimal(precision, scale) => (
            tag_numbers::TYPE_DECIMAL,
            decimal(*precision, *scale, 128),
        ),
        DataType::Decimal256(precision, scale) => (
            tag_numbers::TYPE_DECIMAL,
            decimal(*precision, *scale, 256),
        ),
        DataType::Date32 => (tag_numbers::TYPE_DATE, TypeTable::Unit(0)),
        DataType::Date64 => (tag_numbers::TYPE_DATE, TypeTable::Unit(1)),
        DataType::Time32(unit) => (tag_numbers::TYPE_TIME, time(*unit, 32)),
        DataType::Time64(unit) => (tag_numbers::TYPE_TIME, time(*unit, 64)),
        DataType::Timestamp(unit, timezone) => {
            let unit = time_unit(*unit);
            (
                tag_numbers::TYPE_TIMESTAMP,
                TypeTable::Timestamp { unit, timezone },
            )
        }
        DataType::Interval(unit) => (
            tag_numbers::TYPE_INTERVAL,
            TypeTable::Unit(interval_unit(*unit)),
        ),
        DataType::List(_) => (tag_numbers::TYPE_LIST, TypeTable::Empty),
        DataType::Struct(_) => (tag_numbers::TYPE_STRUCT, TypeTable::Empty),
        DataType::Union(_, ids, mode) => {
            let mode = union_mode(*mode);
            (tag_numbers::TYPE_UNION, TypeTable::Union { mode, ids })
        }
        DataType::FixedSizeBinary(size) => (
            tag_numbers::TYPE_FIXED_SIZE_BINARY,
            TypeTable::Size(*size as u32),
        ),
        DataType::FixedSizeList(_, size) => (
            tag_numbers::TYPE_FIXED_SIZE_LIST,
            TypeTable::Size(*size as u32),
        ),
        DataType::Map(_, are_keys_sorted) => {
            let are_keys_sorted = *are_keys_sorted;
            (tag_numbers::TYPE_MAP, TypeTable::Map { are_keys_sorted })
        }
        DataType::Duration(unit) => (
            tag_numbers::TYPE_DURATION,
            TypeTable::Unit(time_unit(*unit)),
        ),
        DataType::LargeBinary => (tag_numbers::TYPE_LARGE_BINARY, TypeTable::Empty),
        DataType::LargeUtf8 => (tag_numbers::TYPE_LARGE_UTF8, TypeTable::Empty),
        DataType::LargeList(_) => (tag_numbers::TYPE_LARGE_LIST, TypeTable::Empty),
    };
    Kind { tag, table }
}

fn decimal<'a>(precision: usize, scale: usize, bits: u32) -> TypeTable<'a>
    requires precision { IsTrue (fits_i32 precision) }
    requires scale { IsTrue (fits_i32 scale) }
    ensures { table_view result ≡ objects.decimal_object precision scale bits }
{
    TypeTable::Decimal {
        precision: precision as u32,
        scale: scale as u32,
        bits,
    }
}

fn time<'a>(unit: TimeUnit, bits: u32) -> TypeTable<'a>
    ensures { table_view result ≡ objects.time_object (objects.unit_number unit) bits }
{
    TypeTable::Time {
        unit: time_unit(unit),
        bits,
    }
}
