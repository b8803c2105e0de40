// The clones of types and fields, which equal what they copy.
ghost use Rattle.std.specs.Prelude.{◌≡◌, IfOk};

use crate::data_type::{DataType, Field};
use crate::{Boxed, Items};
use std::alloc::AllocError;

impl Clone for DataType {
    ghost is_clone = { λ a b. b ≡ a };

    fn clone(&self) -> Result<Self, AllocError> {
        copy_of_type(self)
    }
}

impl Clone for Field {
    ghost is_clone = { λ a b. b ≡ a };

    fn clone(&self) -> Result<Self, AllocError> {
        copy_of_field(self)
    }
}

// match table: an arm for each of the 35 types.
#[cycle(copies)]
fn copy_of_type(data_type: &DataType) -> Result<DataType, AllocError>
    ensures { IfOk result (λ copied. copied ≡ data_type.now) }
{
    match data_type {
        DataType::Null => Ok(DataType::Null),
        DataType::Boolean => Ok(DataType::Boolean),
        DataType::Int8 => Ok(DataType::Int8),
        DataType::Int16 => Ok(DataType::Int16),
        DataType::Int32 => Ok(DataType::Int32),
        DataType::Int64 => Ok(DataType::Int64),
        DataType::UInt8 => Ok(DataType::UInt8),
        DataType::UInt16 => Ok(DataType::UInt16),
        DataType::UInt32 => Ok(DataType::UInt32),
        DataType::UInt64 => Ok(DataType::UInt64),
        DataType::Float16 => Ok(DataType::Float16),
        DataType::Float32 => Ok(DataType::Float32),
        DataType::Float64 => Ok(DataType::Float64),
        DataType::Timestamp(unit, zone) => Ok(DataType::Timestamp(*unit, zone.clone()?)),
        DataType::Date32 => Ok(DataType::Date32),
        DataType::Date64 => Ok(DataType::Date64),
        DataType::Time32(unit) => Ok(DataType::Time32(*unit)),
        DataType::Time64(unit) => Ok(DataType::Time64(*unit)),
        DataType::Duration(unit) => Ok(DataType::Duration(*unit)),
        DataType::Interval(unit) => Ok(DataType::Interval(*unit)),
        DataType::Binary => Ok(DataType::Binary),
        DataType::FixedSizeBinary(size) => Ok(DataType::FixedSizeBinary(*size)),
        DataType::LargeBinary => Ok(DataType::LargeBinary),
        DataType::Utf8 => Ok(DataType::Utf8),
        DataType::LargeUtf8 => Ok(DataType::LargeUtf8),
        DataType::List(item) => Ok(DataType::List(copy_of_boxed_field(item)?)),
        DataType::FixedSizeList(item, size) => Ok(DataType::FixedSizeList(
            copy_of_boxed_field(item)?,
            *size,
        )),
        DataType::LargeList(item) => Ok(DataType::LargeList(copy_of_boxed_field(item)?)),
        DataType::Struct(fields) => Ok(DataType::Struct(copy_of_fields(fields)?)),
        DataType::Union(fields, ids, mode) => Ok(DataType::Union(
            copy_of_fields(fields)?,
            ids.clone()?,
            *mode,
        )),
        DataType::Map(entry, is_sorted) => Ok(DataType::Map(
            copy_of_boxed_field(entry)?,
            *is_sorted,
        )),
        DataType::Dictionary(key, value, is_ordered) => {
            Ok(DataType::Dictionary(*key, copy_of_boxed_type(value)?, *is_ordered))
        }
        DataType::Decimal(precision, scale) => Ok(DataType::Decimal(*precision, *scale)),
        DataType::Decimal256(precision, scale) => Ok(DataType::Decimal256(*precision, *scale)),
        DataType::Extension(name, inner, more) => {
            Ok(DataType::Extension(name.clone()?, copy_of_boxed_type(inner)?, more.clone()?))
        }
    }
}

#[cycle(copies)]
fn copy_of_boxed_type(boxed: &Boxed<DataType>) -> Result<Boxed<DataType>, AllocError>
    ensures { IfOk result (λ copied. copied ≡ boxed.now) }
{
    let copied = copy_of_type(boxed.get())?;
    Boxed::new(boxed.allocator(), copied)
}

#[cycle(copies)]
fn copy_of_field(field: &Field) -> Result<Field, AllocError>
    ensures { IfOk result (λ copied. copied ≡ field.now) }
{
    Ok(Field {
        name: field.name.clone()?,
        data_type: copy_of_type(&field.data_type)?,
        is_nullable: field.is_nullable,
        metadata: field.metadata.clone()?,
    })
}

#[cycle(copies)]
fn copy_of_boxed_field(boxed: &Boxed<Field>) -> Result<Boxed<Field>, AllocError>
    ensures { IfOk result (λ copied. copied ≡ boxed.now) }
{
    let copied = copy_of_field(boxed.get())?;
    Boxed::new(boxed.allocator(), copied)
}

#[cycle(copies)]
fn copy_of_fields(fields: &Items<Field>) -> Result<Items<Field>, AllocError>
    ensures { IfOk result (λ copied. copied ≡ fields.now) }
{
    let mut copied = Items::new(fields.allocator());
    for field in fields.as_slice() {
        copied.push(copy_of_field(field)?)?;
    }
    Ok(copied)
}
