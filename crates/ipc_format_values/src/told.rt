//! How a type is told at its field (Schema.fbs, `Field`): by itself, the fields below it, its dictionary and its extension.
ghost use Rattle.std.specs.Prelude.{◌≡◌, IsTrue, IfOk, true, map};
ghost use Rattle.std.specs.Int.{w32, cast_unsigned};
ghost use Rattle.ipc_format_writing.specs.flatbuffers.Objects.{no_object};
ghost use Rattle.ipc_format_writing.specs.grammar.Schemas.{no_ids};
ghost use Rattle.ipc_format_writing.specs.grammar.SchemaObjects as objects;
ghost use Rattle.ipc_format_writing.specs.grammar.Writable.{report_of, fits_i32};
ghost use Rattle.ipc_format_writing.specs.Kinds.{kind_told};
ghost use Rattle.ipc_format_values.specs.ToldTypes.{told_view, told_over, type_kind};
ghost use Rattle.ipc_format_values.specs.ValueObjects as values;

use crate::fields::{Field, Int};
use crate::types::{Precision, Type_};
use ipc_format_writing::Named;
use ipc_format_writing::columnar_memory::{DataType, IntegerType, Items, TimeUnit};
use ipc_format_writing::messages::DateUnit;
use std::alloc::{AllocError, Global};

/// A type as its field tells it.
#[derive(Debug, Drop)]
pub struct Told<'a> {
    pub type_: Type_,
    /// The fields below the type.
    pub children: Items<Field>,
    /// The type of a dictionary's keys, and whether its values are ordered.
    pub dictionary: Option<(IntegerType, bool)>,
    pub extension: Option<Named<'a>>,
}

/// Whole numbers of so many bits.
fn int(bit_width: i32, is_signed: bool) -> Int
    ensures { values.int_value result ≡ objects.int_object (cast_unsigned w32 bit_width) is_signed }
{
    Int {
        bit_width,
        is_signed,
    }
}

/// The numbers of a type of keys.
pub fn int_of(keys: IntegerType) -> Int
    ensures { values.int_value result ≡ objects.integer_object keys }
{
    match keys {
        IntegerType::Int8 => int(8, true),
        IntegerType::Int16 => int(16, true),
        IntegerType::Int32 => int(32, true),
        IntegerType::Int64 => int(64, true),
        IntegerType::UInt8 => int(8, false),
        IntegerType::UInt16 => int(16, false),
        IntegerType::UInt32 => int(32, false),
        IntegerType::UInt64 => int(64, false),
    }
}

/// A number for which a signed one of four bytes has room.
fn signed(number: usize) -> i32
    requires { IsTrue (fits_i32 number) }
    ensures { cast_unsigned w32 result ≡ number }
{
    number as i32
}

fn decimal(precision: usize, scale: usize, bit_width: i32) -> Type_
    requires precision { IsTrue (fits_i32 precision) }
    requires scale { IsTrue (fits_i32 scale) }
    ensures { type_kind result ≡ (7, objects.decimal_object precision scale (cast_unsigned w32 bit_width)) }
{
    Type_::Decimal {
        precision: signed(precision),
        scale: signed(scale),
        bit_width,
    }
}

fn time(unit: TimeUnit, bit_width: i32) -> Type_
    ensures { type_kind result ≡ (9, objects.time_object (objects.unit_number unit) (cast_unsigned w32 bit_width)) }
{
    Type_::Time { unit, bit_width }
}

/// A type by itself, under its dictionary and extension.
// match table: an arm for each of the 35 types.
pub fn type_of(data_type: &DataType) -> Result<Type_, AllocError>
    requires { (report_of data_type.now).is_allowed ≡ true }
    ensures { IfOk result (λ made. type_kind made ≡ kind_told (objects.told_of data_type.now no_ids)) }
{
    let made = match data_type {
        DataType::Dictionary(_, value, _) => type_of(value.get())?,
        DataType::Extension(_, inner, _) => type_of(inner.get())?,
        DataType::Null => Type_::Null,
        DataType::Int8 => Type_::Int(int(8, true)),
        DataType::Int16 => Type_::Int(int(16, true)),
        DataType::Int32 => Type_::Int(int(32, true)),
        DataType::Int64 => Type_::Int(int(64, true)),
        DataType::UInt8 => Type_::Int(int(8, false)),
        DataType::UInt16 => Type_::Int(int(16, false)),
        DataType::UInt32 => Type_::Int(int(32, false)),
        DataType::UInt64 => Type_::Int(int(64, false)),
        DataType::Float16 => Type_::FloatingPoint(Precision::Half),
        DataType::Float32 => Type_::FloatingPoint(Precision::Single),
        DataType::Float64 => Type_::FloatingPoint(Precision::Double),
        DataType::Binary => Type_::Binary,
        DataType::Utf8 => Type_::Utf8,
        DataType::Boolean => Type_::Bool,
        DataType::Decimal(precision, scale) => decimal(*precision, *scale, 128),
        DataType::Decimal256(precision, scale) => decimal(*precision, *scale, 256),
        DataType::Date32 => Type_::Date(DateUnit::Day),
        DataType::Date64 => Type_::Date(DateUnit::Millisecond),
        DataType::Time32(unit) => time(*unit, 32),
        DataType::Time64(unit) => time(*unit, 64),
        DataType::Timestamp(unit, timezone) => Type_::Timestamp {
            unit: *unit,
            timezone: timezone.clone()?,
        },
        DataType::Interval(unit) => Type_::Interval(*unit),
        DataType::List(_) => Type_::List,
        DataType::Struct(_) => Type_::Struct,
        DataType::Union(_, ids, mode) => Type_::Union {
            mode: *mode,
            type_ids: ids.clone()?,
        },
        DataType::FixedSizeBinary(size) => Type_::FixedSizeBinary {
            byte_width: signed(*size),
        },
        DataType::FixedSizeList(_, size) => Type_::FixedSizeList {
            list_size: signed(*size),
        },
        DataType::Map(_, are_keys_sorted) => Type_::Map {
            keys_sorted: *are_keys_sorted,
        },
        DataType::Duration(unit) => Type_::Duration(*unit),
        DataType::LargeBinary => Type_::LargeBinary,
        DataType::LargeUtf8 => Type_::LargeUtf8,
        DataType::LargeList(_) => Type_::LargeList,
    };
    Ok(made)
}

/// A type by itself, over the fields below it.
pub fn over<'a>(data_type: &'a DataType, children: Items<Field>) -> Result<Told<'a>, AllocError>
    requires { (report_of data_type.now).is_allowed ≡ true }
    ensures { IfOk result (λ told. told_view told
        ≡ told_over (objects.told_of data_type.now no_ids) (values.objects_list (map values.field_value children))) }
{
    Ok(Told {
        type_: type_of(data_type)?,
        children,
        dictionary: None,
        extension: None,
    })
}

/// A type by itself, with no field below it.
pub fn leaf<'a>(alloc: Global, data_type: &'a DataType) -> Result<Told<'a>, AllocError>
    requires { (report_of data_type.now).is_allowed ≡ true }
    ensures { IfOk result (λ told. told_view told ≡ told_over (objects.told_of data_type.now no_ids) no_object) }
{
    over(data_type, Items::new(alloc))
}
