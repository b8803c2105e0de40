// `==` of types and fields, which tells whether they are the same.
ghost use Rattle.std.specs.Prelude.{◌≡◌, ◌↔◌, IsTrue, Option, Bool};
ghost use Rattle.columnar_memory_types.specs.Equality.{same_type, same_type-per, same_type-equivalence};
ghost use Rattle.columnar_memory_types.specs.Equality.{same_field, same_field-per, same_field-equivalence};

use crate::Items;
use crate::data_type::{DataType, Field};

impl PartialEq for DataType {
    ghost eq = { same_type };

    ghost laws = { same_type-per };

    fn eq(&self, other: &Self) -> bool
        ensures value { result ≡ same_type self.now other.now }
        ensures exact { IsTrue result ↔ (self.now ≡ other.now) }
    {
        is_same_type(self, other)
    }
}

impl Eq for DataType {
    ghost laws = { same_type-equivalence };
}

impl PartialEq for Field {
    ghost eq = { same_field };

    ghost laws = { same_field-per };

    fn eq(&self, other: &Self) -> bool
        ensures value { result ≡ same_field self.now other.now }
        ensures exact { IsTrue result ↔ (self.now ≡ other.now) }
    {
        is_same_field(self, other)
    }
}

impl Eq for Field {
    ghost laws = { same_field-equivalence };
}

fn are_same_ids(a: &Option<Items<i32>>, b: &Option<Items<i32>>) -> bool
    ensures { IsTrue result ↔ (a.now ≡ b.now) }
{
    match (a, b) {
        (None, None) => true,
        (Some(a), Some(b)) => a == b,
        _ => false,
    }
}

// match table: a pair of arms for each of the 35 types.
#[cycle(equality)]
fn is_same_type(a: &DataType, b: &DataType) -> bool
    ensures { IsTrue result ↔ (a.now ≡ b.now) }
{
    match a {
        DataType::Null => matches!(b, DataType::Null),
        DataType::Boolean => matches!(b, DataType::Boolean),
        DataType::Int8 => matches!(b, DataType::Int8),
        DataType::Int16 => matches!(b, DataType::Int16),
        DataType::Int32 => matches!(b, DataType::Int32),
        DataType::Int64 => matches!(b, DataType::Int64),
        DataType::UInt8 => matches!(b, DataType::UInt8),
        DataType::UInt16 => matches!(b, DataType::UInt16),
        DataType::UInt32 => matches!(b, DataType::UInt32),
        DataType::UInt64 => matches!(b, DataType::UInt64),
        DataType::Float16 => matches!(b, DataType::Float16),
        DataType::Float32 => matches!(b, DataType::Float32),
        DataType::Float64 => matches!(b, DataType::Float64),
        DataType::Timestamp(unit, zone) => match b {
            DataType::Timestamp(other_unit, other_zone) => unit == other_unit && zone == other_zone,
            _ => false,
        },
        DataType::Date32 => matches!(b, DataType::Date32),
        DataType::Date64 => matches!(b, DataType::Date64),
        DataType::Time32(unit) => match b {
            DataType::Time32(other_unit) => unit == other_unit,
            _ => false,
        },
        DataType::Time64(unit) => match b {
            DataType::Time64(other_unit) => unit == other_unit,
            _ => false,
        },
        DataType::Duration(unit) => match b {
            DataType::Duration(other_unit) => unit == other_unit,
            _ => false,
        },
        DataType::Interval(unit) => match b {
            DataType::Interval(other_unit) => unit == other_unit,
            _ => false,
        },
        DataType::Binary => matches!(b, DataType::Binary),
        DataType::FixedSizeBinary(size) => match b {
            DataType::FixedSizeBinary(other_size) => size == other_size,
            _ => false,
        },
        DataType::LargeBinary => matches!(b, DataType::LargeBinary),
        DataType::Utf8 => matches!(b, DataType::Utf8),
        DataType::LargeUtf8 => matches!(b, DataType::LargeUtf8),
        DataType::List(item) => match b {
            DataType::List(other_item) => is_same_field(item.get(), other_item.get()),
            _ => false,
        },
        DataType::FixedSizeList(item, size) => match b {
            DataType::FixedSizeList(other_item, other_size) => is_same_field(
                item.get(),
                other_item.get(),
            ) && size == other_size,
            _ => false,
        },
        DataType::LargeList(item) => match b {
            DataType::LargeList(other_item) => is_same_field(item.get(), other_item.get()),
            _ => false,
        },
        DataType::Struct(fields) => match b {
            DataType::Struct(other_fields) => are_same_fields(
                fields.as_slice(),
                other_fields.as_slice(),
            ),
            _ => false,
        },
        DataType::Union(fields, ids, mode) => match b {
            DataType::Union(other_fields, other_ids, other_mode) => are_same_fields(
                fields.as_slice(),
                other_fields.as_slice(),
            ) && are_same_ids(ids, other_ids)
                && mode == other_mode,
            _ => false,
        },
        DataType::Map(entry, is_sorted) => match b {
            DataType::Map(other_entry, other_is_sorted) => is_same_field(
                entry.get(),
                other_entry.get(),
            ) && is_sorted == other_is_sorted,
            _ => false,
        },
        DataType::Dictionary(key, value, is_ordered) => match b {
            DataType::Dictionary(other_key, other_value, other_is_ordered) => key == other_key
                && is_same_type(value.get(), other_value.get())
                && is_ordered == other_is_ordered,
            _ => false,
        },
        DataType::Decimal(precision, scale) => match b {
            DataType::Decimal(other_precision, other_scale) => precision == other_precision
                && scale == other_scale,
            _ => false,
        },
        DataType::Decimal256(precision, scale) => match b {
            DataType::Decimal256(other_precision, other_scale) => precision == other_precision
                && scale == other_scale,
            _ => false,
        },
        DataType::Extension(name, inner, more) => match b {
            DataType::Extension(other_name, other_inner, other_more) => name == other_name
                && is_same_type(inner.get(), other_inner.get())
                && more == other_more,
            _ => false,
        },
    }
}

#[cycle(equality)]
fn is_same_field(a: &Field, b: &Field) -> bool
    ensures { IsTrue result ↔ (a.now ≡ b.now) }
{
    a.name == b.name
        && is_same_type(&a.data_type, &b.data_type)
        && a.is_nullable == b.is_nullable
        && a.metadata == b.metadata
}

#[cycle(equality)]
fn are_same_fields(a: &[Field], b: &[Field]) -> bool
    ensures { IsTrue result ↔ (a.now ≡ b.now) }
{
    if a.len() != b.len() {
        return false;
    }
    for i in 0..a.len() {
        if !is_same_field(&a[i], &b[i]) {
            return false;
        }
    }
    true
}
