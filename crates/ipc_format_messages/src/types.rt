//! The types of fields (Schema.fbs, union `Type` and its tables).
ghost use Rattle.std.specs.Prelude.{◌≡◌};
ghost use Rattle.std.specs.Option.{option_map, option_copied};
ghost use Rattle.std.specs.Result.{result_ok};
ghost use Rattle.ipc_format_messages.specs.MessageViews.{table_view};
ghost use Rattle.ipc_format_messages.specs.TypeRefs.{type_view, is_day, numbers_view};
ghost use Rattle.ipc_format_messages.specs.TypeSlots as slots;

use crate::fields::IntRef;
use crate::tables::TableRef;
use crate::vectors::NumbersRef;
use ipc_format_metadata::columnar_memory::{IntervalUnit, TimeUnit, UnionMode};
use ipc_format_metadata::flatbuffers::{i16_field, i32_field};
use ipc_format_metadata::sizes::I32_SIZE;
use ipc_format_metadata::slots::{
    DECIMAL_BIT_WIDTH, DECIMAL_PRECISION, DECIMAL_SCALE, FIXED_SIZE, MAP_KEYS_SORTED,
    TIME_BIT_WIDTH, TIMESTAMP_TIMEZONE, UNION_MODE, UNION_TYPE_IDS, UNIT,
};
use ipc_format_metadata::{Error, Tag, mode_of, tag_of, unit_in};

/// A field's type, by its own table (Schema.fbs, union `Type`). A table without slots that are looked at stands by itself.
#[derive(Clone, Copy, Debug)]
pub enum TypeRef<'a> {
    Null(TableRef<'a>),
    Int(IntRef<'a>),
    FloatingPoint(TableRef<'a>),
    Binary(TableRef<'a>),
    Utf8(TableRef<'a>),
    Bool(TableRef<'a>),
    Decimal(DecimalRef<'a>),
    Date(DateRef<'a>),
    Time(TimeRef<'a>),
    Timestamp(TimestampRef<'a>),
    Interval(IntervalRef<'a>),
    List(TableRef<'a>),
    Struct(TableRef<'a>),
    Union(UnionRef<'a>),
    FixedSizeBinary(FixedSizeBinaryRef<'a>),
    FixedSizeList(FixedSizeListRef<'a>),
    Map(MapRef<'a>),
    Duration(DurationRef<'a>),
    LargeBinary(TableRef<'a>),
    LargeUtf8(TableRef<'a>),
    LargeList(TableRef<'a>),
}

/// Decimal numbers (Schema.fbs, `Decimal`).
#[derive(Clone, Copy, Debug)]
pub struct DecimalRef<'a>(pub TableRef<'a>);

/// Dates (Schema.fbs, `Date`).
#[derive(Clone, Copy, Debug)]
pub struct DateRef<'a>(pub TableRef<'a>);

/// Times of a day (Schema.fbs, `Time`).
#[derive(Clone, Copy, Debug)]
pub struct TimeRef<'a>(pub TableRef<'a>);

/// Moments (Schema.fbs, `Timestamp`).
#[derive(Clone, Copy, Debug)]
pub struct TimestampRef<'a>(pub TableRef<'a>);

/// Intervals (Schema.fbs, `Interval`).
#[derive(Clone, Copy, Debug)]
pub struct IntervalRef<'a>(pub TableRef<'a>);

/// Unions (Schema.fbs, `Union`).
#[derive(Clone, Copy, Debug)]
pub struct UnionRef<'a>(pub TableRef<'a>);

/// Bytes of one length (Schema.fbs, `FixedSizeBinary`).
#[derive(Clone, Copy, Debug)]
pub struct FixedSizeBinaryRef<'a>(pub TableRef<'a>);

/// Lists of one length (Schema.fbs, `FixedSizeList`).
#[derive(Clone, Copy, Debug)]
pub struct FixedSizeListRef<'a>(pub TableRef<'a>);

/// Maps (Schema.fbs, `Map`).
#[derive(Clone, Copy, Debug)]
pub struct MapRef<'a>(pub TableRef<'a>);

/// Durations (Schema.fbs, `Duration`).
#[derive(Clone, Copy, Debug)]
pub struct DurationRef<'a>(pub TableRef<'a>);

/// What a date counts (Schema.fbs, `DateUnit`).
#[derive(Clone, Copy, Debug, PartialEq, Eq)]
pub enum DateUnit {
    Day,
    Millisecond,
}

/// The type of a tag, if it is one.
pub fn type_of<'a>(number: u8, table: TableRef<'a>) -> Option<TypeRef<'a>>
    ensures { option_map type_view result ≡ slots.type_of number (table_view table.entry) }
{
    let tag = tag_of(number)?;
    Some(match tag {
        Tag::Null => TypeRef::Null(table),
        Tag::Int => TypeRef::Int(IntRef { table }),
        Tag::FloatingPoint => TypeRef::FloatingPoint(table),
        Tag::Binary => TypeRef::Binary(table),
        Tag::Utf8 => TypeRef::Utf8(table),
        Tag::Bool => TypeRef::Bool(table),
        Tag::Decimal => TypeRef::Decimal(DecimalRef(table)),
        Tag::Date => TypeRef::Date(DateRef(table)),
        Tag::Time => TypeRef::Time(TimeRef(table)),
        Tag::Timestamp => TypeRef::Timestamp(TimestampRef(table)),
        Tag::Interval => TypeRef::Interval(IntervalRef(table)),
        Tag::List => TypeRef::List(table),
        Tag::Struct => TypeRef::Struct(table),
        Tag::Union => TypeRef::Union(UnionRef(table)),
        Tag::FixedSizeBinary => TypeRef::FixedSizeBinary(FixedSizeBinaryRef(table)),
        Tag::FixedSizeList => TypeRef::FixedSizeList(FixedSizeListRef(table)),
        Tag::Map => TypeRef::Map(MapRef(table)),
        Tag::Duration => TypeRef::Duration(DurationRef(table)),
        Tag::LargeBinary => TypeRef::LargeBinary(table),
        Tag::LargeUtf8 => TypeRef::LargeUtf8(table),
        Tag::LargeList => TypeRef::LargeList(table),
    })
}

impl<'a> DecimalRef<'a> {
    /// How many digits there are.
    ///
    /// # Errors
    /// - `InvalidFlatbuffer`: the slot breaks a rule of FlatBuffers.
    pub fn precision(&self) -> Result<i32, Error>
        ensures { result_ok result ≡ slots.decimal_precision (table_view self.now.0) }
    {
        self.0.int(DECIMAL_PRECISION)
    }

    /// How many digits stand behind the point.
    ///
    /// # Errors
    /// - `InvalidFlatbuffer`: the slot breaks a rule of FlatBuffers.
    pub fn scale(&self) -> Result<i32, Error>
        ensures { result_ok result ≡ slots.decimal_scale (table_view self.now.0) }
    {
        self.0.int(DECIMAL_SCALE)
    }

    /// How many bits a number has, 128 where it is absent.
    ///
    /// # Errors
    /// - `InvalidFlatbuffer`: the slot breaks a rule of FlatBuffers.
    pub fn bit_width(&self) -> Result<i32, Error>
        ensures { result_ok result ≡ slots.decimal_bit_width (table_view self.now.0) }
    {
        i32_field(self.0.bytes, &self.0.place, DECIMAL_BIT_WIDTH, 128).ok_or(
            Error::InvalidFlatbuffer,
        )
    }
}

impl<'a> DateRef<'a> {
    /// What dates count, milliseconds where it is absent.
    ///
    /// # Errors
    /// - `InvalidFlatbuffer`: the slot breaks a rule of FlatBuffers, or its number names no unit.
    pub fn unit(&self) -> Result<DateUnit, Error>
        ensures { option_map is_day (result_ok result) ≡ slots.date_is_day (table_view self.now.0) }
    {
        match i16_field(self.0.bytes, &self.0.place, UNIT, 1) {
            Some(0) => Ok(DateUnit::Day),
            Some(1) => Ok(DateUnit::Millisecond),
            _ => Err(Error::InvalidFlatbuffer),
        }
    }
}

impl<'a> TimeRef<'a> {
    /// What times count, milliseconds where it is absent.
    ///
    /// # Errors
    /// - `InvalidFlatbuffer`: the slot breaks a rule of FlatBuffers, or its number names no unit.
    pub fn unit(&self) -> Result<TimeUnit, Error>
        ensures { result_ok result ≡ slots.time_unit (table_view self.now.0) }
    {
        unit_in(self.0.bytes, &self.0.place, 1).ok_or(Error::InvalidFlatbuffer)
    }

    /// How many bits a time has, 32 where it is absent.
    ///
    /// # Errors
    /// - `InvalidFlatbuffer`: the slot breaks a rule of FlatBuffers.
    pub fn bit_width(&self) -> Result<i32, Error>
        ensures { result_ok result ≡ slots.time_bit_width (table_view self.now.0) }
    {
        i32_field(self.0.bytes, &self.0.place, TIME_BIT_WIDTH, 32).ok_or(Error::InvalidFlatbuffer)
    }
}

impl<'a> TimestampRef<'a> {
    /// What moments count, seconds where it is absent.
    ///
    /// # Errors
    /// - `InvalidFlatbuffer`: the slot breaks a rule of FlatBuffers, or its number names no unit.
    pub fn unit(&self) -> Result<TimeUnit, Error>
        ensures { result_ok result ≡ slots.timestamp_unit (table_view self.now.0) }
    {
        unit_in(self.0.bytes, &self.0.place, 0).ok_or(Error::InvalidFlatbuffer)
    }

    /// The time zone, if there is one.
    ///
    /// # Errors
    /// - `InvalidFlatbuffer`: the slot breaks a rule of FlatBuffers, or the text does not stand in the message or is not UTF-8.
    pub fn timezone(&self) -> Result<Option<&'a str>, Error>
        ensures { option_map option_copied (result_ok result) ≡ slots.timestamp_timezone (table_view self.now.0) }
    {
        self.0.text(TIMESTAMP_TIMEZONE)
    }
}

impl<'a> IntervalRef<'a> {
    /// What intervals count.
    ///
    /// # Errors
    /// - `InvalidFlatbuffer`: the slot breaks a rule of FlatBuffers, or its number names no unit.
    pub fn unit(&self) -> Result<IntervalUnit, Error>
        ensures { result_ok result ≡ slots.interval_unit (table_view self.now.0) }
    {
        match self.0.short(UNIT)? {
            0 => Ok(IntervalUnit::YearMonth),
            1 => Ok(IntervalUnit::DayTime),
            2 => Ok(IntervalUnit::MonthDayNano),
            _ => Err(Error::InvalidFlatbuffer),
        }
    }
}

impl<'a> UnionRef<'a> {
    /// How the children are stored.
    ///
    /// # Errors
    /// - `InvalidFlatbuffer`: the slot breaks a rule of FlatBuffers, or its number names no mode.
    pub fn mode(&self) -> Result<UnionMode, Error>
        ensures { result_ok result ≡ slots.union_mode (table_view self.now.0) }
    {
        mode_of(self.0.short(UNION_MODE)?).ok_or(Error::InvalidFlatbuffer)
    }

    /// The ids of the children in turn, if they are given.
    ///
    /// # Errors
    /// - `InvalidFlatbuffer`: the slot breaks a rule of FlatBuffers, or the vector does not stand in the message.
    pub fn type_ids(&self) -> Result<Option<NumbersRef<'a>>, Error>
        ensures { option_map (option_map numbers_view) (result_ok result) ≡ slots.union_type_ids (table_view self.now.0) }
    {
        let Some(vector) = self.0.vector(UNION_TYPE_IDS, I32_SIZE)? else {
            return Ok(None);
        };
        Ok(Some(NumbersRef {
            bytes: self.0.bytes,
            vector,
        }))
    }
}

impl<'a> FixedSizeBinaryRef<'a> {
    /// How many bytes a value has.
    ///
    /// # Errors
    /// - `InvalidFlatbuffer`: the slot breaks a rule of FlatBuffers.
    pub fn byte_width(&self) -> Result<i32, Error>
        ensures { result_ok result ≡ slots.fixed_size (table_view self.now.0) }
    {
        self.0.int(FIXED_SIZE)
    }
}

impl<'a> FixedSizeListRef<'a> {
    /// How many items a list has.
    ///
    /// # Errors
    /// - `InvalidFlatbuffer`: the slot breaks a rule of FlatBuffers.
    pub fn list_size(&self) -> Result<i32, Error>
        ensures { result_ok result ≡ slots.fixed_size (table_view self.now.0) }
    {
        self.0.int(FIXED_SIZE)
    }
}

impl<'a> MapRef<'a> {
    /// Whether the keys of each map are sorted.
    ///
    /// # Errors
    /// - `InvalidFlatbuffer`: the slot breaks a rule of FlatBuffers.
    pub fn keys_sorted(&self) -> Result<bool, Error>
        ensures { result_ok result ≡ slots.map_keys_sorted (table_view self.now.0) }
    {
        self.0.truth(MAP_KEYS_SORTED)
    }
}

impl<'a> DurationRef<'a> {
    /// What durations count, milliseconds where it is absent.
    ///
    /// # Errors
    /// - `InvalidFlatbuffer`: the slot breaks a rule of FlatBuffers, or its number names no unit.
    pub fn unit(&self) -> Result<TimeUnit, Error>
        ensures { result_ok result ≡ slots.duration_unit (table_view self.now.0) }
    {
        unit_in(self.0.bytes, &self.0.place, 1).ok_or(Error::InvalidFlatbuffer)
    }
}
