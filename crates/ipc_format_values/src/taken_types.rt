//! Types, taken of their views (Schema.fbs, union `Type` and its tables).
ghost use Rattle.std.specs.Prelude.{◌≡◌, IfOk, false, true, ◌+◌, ◌*◌, ◌≤◌, length};
ghost use Rattle.std.specs.Option.{option_map};
ghost use Rattle.std.specs.Result.{result_ok};
ghost use Rattle.ipc_format_writing.specs.messages.MessageViews.{table_view};
ghost use Rattle.ipc_format_writing.specs.messages.TypeRefs.{type_view, numbers_view};
ghost use Rattle.ipc_format_values.specs.Owned as owned;
ghost use Rattle.ipc_format_values.specs.Taken.{Takes};

use crate::taken::taken;
use crate::taken_pairs::int_of;
use crate::{Precision, Type_};
use ipc_format_writing::columnar_memory::{Items, Result as Answer, Text};
use ipc_format_writing::messages::{
    DecimalRef, Error, NumbersRef, TableRef, TimeRef, TimestampRef, TypeRef, UnionRef,
};
use std::alloc::{AllocError, Global};

/// The slot of `FloatingPoint`.
const PRECISION: u8 = 0;

/// The numbers of a vector.
fn numbers_of(alloc: Global, numbers: &NumbersRef<'_>) -> Result<Option<Items<i32>>, AllocError>
    ensures { IfOk result (λ found. found ≡ owned.numbers_of (numbers_view numbers.now)) }
{
    let mut made = Items::new(alloc);
    for k in 0..numbers.vector.count {
        let Some(number) = numbers.get(k) else {
            return Ok(None);
        };
        made.push(number)?;
    }
    Ok(Some(made))
}

/// Numbers, if there are any.
fn numbers_in(
    alloc: Global,
    numbers: &Option<NumbersRef<'_>>,
) -> Result<Option<Option<Items<i32>>>, AllocError>
    ensures { IfOk result (λ found. found ≡ owned.numbers_in (option_map numbers_view numbers.now)) }
{
    let Some(numbers) = numbers else {
        return Ok(Some(None));
    };
    match numbers_of(alloc, numbers)? {
        Some(found) => Ok(Some(Some(found))),
        None => Ok(None),
    }
}

fn union_in(alloc: Global, union: &UnionRef<'_>) -> Result<Option<Type_>, AllocError>
    ensures { IfOk result (λ found. found ≡ owned.union_in (table_view union.now.0)) }
{
    let Ok(mode) = union.mode() else {
        return Ok(None);
    };
    let Ok(numbers) = union.type_ids() else {
        return Ok(None);
    };
    match numbers_in(alloc, &numbers)? {
        Some(type_ids) => Ok(Some(Type_::Union { mode, type_ids })),
        None => Ok(None),
    }
}

fn timestamp_in(alloc: Global, timestamp: &TimestampRef<'_>) -> Result<Option<Type_>, AllocError>
    ensures { IfOk result (λ found. found ≡ owned.timestamp_in (table_view timestamp.now.0)) }
{
    let Ok(unit) = timestamp.unit() else {
        return Ok(None);
    };
    match timestamp.timezone() {
        Ok(Some(timezone)) => {
            let timezone = Some(Text::from_str(alloc, timezone)?);
            Ok(Some(Type_::Timestamp { unit, timezone }))
        }
        Ok(None) => Ok(Some(Type_::Timestamp {
            unit,
            timezone: None,
        })),
        Err(_) => Ok(None),
    }
}

fn decimal_in(decimal: &DecimalRef<'_>) -> Result<Type_, Error>
    ensures { result_ok result ≡ owned.decimal_in (table_view decimal.now.0) }
{
    let precision = decimal.precision()?;
    let scale = decimal.scale()?;
    let bit_width = decimal.bit_width()?;
    Ok(Type_::Decimal {
        precision,
        scale,
        bit_width,
    })
}

fn time_in(time: &TimeRef<'_>) -> Result<Type_, Error>
    ensures { result_ok result ≡ owned.time_in (table_view time.now.0) }
{
    let unit = time.unit()?;
    let bit_width = time.bit_width()?;
    Ok(Type_::Time { unit, bit_width })
}

fn floating_point_in(table: &TableRef<'_>) -> Result<Type_, Error>
    ensures { result_ok result ≡ owned.floating_point_in (table_view table.now) }
{
    let precision = match table.short(PRECISION)? {
        0 => Precision::Half,
        1 => Precision::Single,
        2 => Precision::Double,
        _ => return Err(Error::InvalidFlatbuffer),
    };
    Ok(Type_::FloatingPoint(precision))
}

/// A type that takes no memory.
#[tactic(auto, using(crate::proofs::Taking::date_unit_is))]
fn plain_type_in(type_: &TypeRef<'_>) -> Result<Type_, Error>
    requires plain { owned.is_plain (type_view type_.now).kind ≡ true }
    ensures { result_ok result ≡ owned.type_in (type_view type_.now) }
{
    match type_ {
        TypeRef::Null(_) => Ok(Type_::Null),
        TypeRef::Int(int) => Ok(Type_::Int(int_of(*int)?)),
        TypeRef::FloatingPoint(table) => floating_point_in(table),
        TypeRef::Binary(_) => Ok(Type_::Binary),
        TypeRef::Utf8(_) => Ok(Type_::Utf8),
        TypeRef::Bool(_) => Ok(Type_::Bool),
        TypeRef::Decimal(decimal) => decimal_in(decimal),
        TypeRef::Date(date) => Ok(Type_::Date(date.unit()?)),
        TypeRef::Time(time) => time_in(time),
        TypeRef::Interval(interval) => Ok(Type_::Interval(interval.unit()?)),
        TypeRef::List(_) => Ok(Type_::List),
        TypeRef::Struct(_) => Ok(Type_::Struct),
        TypeRef::FixedSizeBinary(of) => Ok(Type_::FixedSizeBinary {
            byte_width: of.byte_width()?,
        }),
        TypeRef::FixedSizeList(of) => Ok(Type_::FixedSizeList {
            list_size: of.list_size()?,
        }),
        TypeRef::Map(map) => Ok(Type_::Map {
            keys_sorted: map.keys_sorted()?,
        }),
        TypeRef::Duration(duration) => Ok(Type_::Duration(duration.unit()?)),
        TypeRef::LargeBinary(_) => Ok(Type_::LargeBinary),
        TypeRef::LargeUtf8(_) => Ok(Type_::LargeUtf8),
        TypeRef::LargeList(_) => Ok(Type_::LargeList),
        TypeRef::Timestamp(_) | TypeRef::Union(_) => Err(Error::InvalidFlatbuffer),
    }
}

/// A type; nothing where the view refuses.
pub fn type_in(alloc: Global, type_: &TypeRef<'_>) -> Result<Option<Type_>, AllocError>
    ensures { IfOk result (λ found. found ≡ owned.type_in (type_view type_.now)) }
{
    match type_ {
        TypeRef::Timestamp(timestamp) => timestamp_in(alloc, timestamp),
        TypeRef::Union(union) => union_in(alloc, union),
        _ => Ok(plain_type_in(type_).ok()),
    }
}

/// The type of a view.
///
/// # Errors
/// - `OutOfSpec`: the view refuses a slot, or numbers name no precision.
/// - `OutOfMemory`: there was no memory for a time zone or the ids of a union.
pub fn type_of(alloc: Global, type_: TypeRef<'_>) -> Answer<Type_>
    ensures { Takes false result (owned.type_in (type_view type_.entry)) }
{
    taken(type_in(alloc, &type_)?, false)
}
