//! The types of columns without fields of their own (Schema.fbs, union `Type` and its tables).
ghost use Rattle.std.specs.Prelude.{◌≡◌, ◌<◌};
ghost use Rattle.std.specs.Option.{option_map};
ghost use Rattle.ipc_format_grammar.specs.Types as kinds;
ghost use Rattle.ipc_format_grammar.specs.Messages as messages;
ghost use Rattle.ipc_format_grammar.specs.flatbuffers.Views.{table_of};
ghost use Rattle.ipc_format_metadata.specs.Leaves as leaves;

use crate::slots;
use ipc_format_grammar::columnar_memory::{
    DataType, IntegerType, IntervalUnit, TimeUnit, UnionMode,
};
use ipc_format_grammar::flatbuffers::{Table, i16_field, i32_field, truth_field};

/// The whole numbers of an Int table.
#[tactic(auto, unfolding(ipc_format_grammar::specs::Types::integer_in))]
pub fn integer_in(bytes: &[u8], table: &Table) -> Option<IntegerType>
    ensures { result ≡ kinds.integer_in bytes.now (table_of table.now) }
{
    let bits = i32_field(bytes, table, slots::INT_BIT_WIDTH, 0)?;
    let is_signed = truth_field(bytes, table, slots::INT_IS_SIGNED)?;
    if is_signed {
        signed_of(bits)
    } else {
        unsigned_of(bits)
    }
}

fn signed_of(bits: i32) -> Option<IntegerType>
    ensures { result ≡ kinds.signed_of bits }
{
    match bits {
        8 => Some(IntegerType::Int8),
        16 => Some(IntegerType::Int16),
        32 => Some(IntegerType::Int32),
        64 => Some(IntegerType::Int64),
        _ => None,
    }
}

fn unsigned_of(bits: i32) -> Option<IntegerType>
    ensures { result ≡ kinds.unsigned_of bits }
{
    match bits {
        8 => Some(IntegerType::UInt8),
        16 => Some(IntegerType::UInt16),
        32 => Some(IntegerType::UInt32),
        64 => Some(IntegerType::UInt64),
        _ => None,
    }
}

/// The decimals of a Decimal table, in 128 or 256 bits.
#[tactic(auto, unfolding(ipc_format_grammar::specs::Types::decimal_in))]
pub fn decimal_in(bytes: &[u8], table: &Table) -> Option<DataType>
    ensures { result ≡ kinds.decimal_in bytes.now (table_of table.now) }
{
    let precision = natural(i32_field(bytes, table, slots::DECIMAL_PRECISION, 0)?)?;
    let scale = natural(i32_field(bytes, table, slots::DECIMAL_SCALE, 0)?)?;
    match i32_field(bytes, table, slots::DECIMAL_BIT_WIDTH, 128)? {
        128 => Some(DataType::Decimal(precision, scale)),
        256 => Some(DataType::Decimal256(precision, scale)),
        _ => None,
    }
}

/// A number that isn't negative.
fn natural(number: i32) -> Option<usize>
    ensures { result ≡ messages.natural number }
{
    usize::try_from(number).ok()
}

/// The dates of a Date table: days or milliseconds.
pub fn date_in(bytes: &[u8], table: &Table) -> Option<DataType>
    ensures { result ≡ leaves.date_in bytes.now (table_of table.now) }
{
    match i16_field(bytes, table, slots::UNIT, 1)? {
        0 => Some(DataType::Date32),
        1 => Some(DataType::Date64),
        _ => None,
    }
}

/// The unit of a table, or `absent`.
pub fn unit_in(bytes: &[u8], table: &Table, absent: u8) -> Option<TimeUnit>
    ensures { result ≡ leaves.unit_in bytes.now (table_of table.now) absent }
{
    match i16_field(bytes, table, slots::UNIT, i16::from(absent))? {
        0 => Some(TimeUnit::Second),
        1 => Some(TimeUnit::Millisecond),
        2 => Some(TimeUnit::Microsecond),
        3 => Some(TimeUnit::Nanosecond),
        _ => None,
    }
}

/// The times of a day of a Time table: seconds and milliseconds in 32 bits, the finer units in 64.
#[tactic(auto, unfolding(ipc_format_grammar::specs::Types::time_in))]
pub fn time_in(bytes: &[u8], table: &Table) -> Option<DataType>
    ensures { result ≡ kinds.time_in bytes.now (table_of table.now) }
{
    let unit = unit_in(bytes, table, 1)?;
    let bits = i32_field(bytes, table, slots::TIME_BIT_WIDTH, 32)?;
    match unit {
        TimeUnit::Second | TimeUnit::Millisecond if bits == 32 => Some(DataType::Time32(unit)),
        TimeUnit::Microsecond | TimeUnit::Nanosecond if bits == 64 => Some(DataType::Time64(unit)),
        _ => None,
    }
}

/// The intervals of an Interval table.
pub fn interval_in(bytes: &[u8], table: &Table) -> Option<DataType>
    ensures { result ≡ leaves.interval_in bytes.now (table_of table.now) }
{
    match i16_field(bytes, table, slots::UNIT, 0)? {
        0 => Some(DataType::Interval(IntervalUnit::YearMonth)),
        1 => Some(DataType::Interval(IntervalUnit::DayTime)),
        2 => Some(DataType::Interval(IntervalUnit::MonthDayNano)),
        _ => None,
    }
}

/// A number of bytes or items, from 1 on.
pub fn size_in(bytes: &[u8], table: &Table) -> Option<usize>
    ensures { result ≡ leaves.size_in bytes.now (table_of table.now) }
{
    let size = usize::try_from(i32_field(bytes, table, slots::FIXED_SIZE, 0)?).ok()?;
    if size == 0 { None } else { Some(size) }
}

/// The mode of a union by its number.
pub fn mode_of(number: i16) -> Option<UnionMode>
    ensures { result ≡ kinds.mode_of number }
{
    match number {
        0 => Some(UnionMode::Sparse),
        1 => Some(UnionMode::Dense),
        _ => None,
    }
}
