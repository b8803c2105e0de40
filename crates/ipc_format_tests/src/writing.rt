//! Schemas written, against metadata laid by plain Python, and read back.
use crate::samples::{DICTIONARY, EXTENSION, NO_FIELDS, X};
use crate::schemas::{extension, schema_of};
use columnar_memory_types::{
    Boxed, DataType, EXTENSION_METADATA, Error, Field, IntegerType, IntervalUnit, Items, Metadata,
    Schema, Text, TimeUnit, UnionMode,
};
use ipc_format::metadata::{IpcField, deserialize_schema};
use ipc_format::{default_ipc_fields, normalised, schema_to_bytes};
use std::alloc::Global;
use std::test::*;

/// The metadata of a schema with the ids that its dictionaries have by default.
fn written(alloc: Global, schema: &Schema) -> Result<Vec<u8>, Fail> {
    let ids = default_ipc_fields(alloc, schema.fields.as_slice())
        .ok()
        .ok_or("no ids")?;
    Ok(
        schema_to_bytes(alloc, schema, &ids)
            .ok()
            .ok_or("not written")?,
    )
}

/// A dictionary by signed keys of 32 bits.
pub(crate) fn dictionary(alloc: Global, value: DataType) -> Result<DataType, Fail> {
    let value = Boxed::new(alloc, value)?;
    Ok(DataType::Dictionary(IntegerType::Int32, value, false))
}

pub(crate) fn field(alloc: Global, name: &str, data_type: DataType) -> Result<Field, Fail> {
    Ok(Field::new(alloc, Text::from_str(alloc, name)?, data_type, true))
}

/// x as an extension, with a pair of its own.
fn extension_schema(alloc: Global) -> Result<Schema, Fail> {
    let mut pairs = Metadata::new(alloc);
    pairs.insert(Text::from_str(alloc, "a")?, Text::from_str(alloc, "1")?)?;
    let x = field(alloc, "x", extension(alloc)?)?;
    let mut fields = Items::new(alloc);
    fields.push(x.with_metadata(pairs))?;
    Ok(Schema::from_fields(fields))
}

#[test]
fn no_fields_are_written(rt: HostRuntime) -> Result<(), Fail> {
    let schema = Schema::from_fields(Items::new(rt.alloc()));
    assert_eq!(rt;
        written(rt.alloc(), &schema)?.as_slice(),
        NO_FIELDS.as_slice()
    );
    Ok(())
}

#[test]
fn numbers_are_written(rt: HostRuntime) -> Result<(), Fail> {
    let schema = schema_of(rt.alloc(), "x", DataType::Int32, true)?;
    assert_eq!(rt; written(rt.alloc(), &schema)?.as_slice(), X.as_slice());
    Ok(())
}

#[test]
fn a_dictionary_is_written(rt: HostRuntime) -> Result<(), Fail> {
    let data_type = dictionary(rt.alloc(), DataType::Utf8)?;
    let schema = schema_of(rt.alloc(), "d", data_type, false)?;
    assert_eq!(rt;
        written(rt.alloc(), &schema)?.as_slice(),
        DICTIONARY.as_slice()
    );
    Ok(())
}

#[test]
fn an_extension_is_written(rt: HostRuntime) -> Result<(), Fail> {
    let schema = extension_schema(rt.alloc())?;
    assert_eq!(rt;
        written(rt.alloc(), &schema)?.as_slice(),
        EXTENSION.as_slice()
    );
    Ok(())
}

#[test]
fn keys_of_an_extension_are_dropped(rt: HostRuntime) -> Result<(), Fail> {
    let key = Text::from_str(rt.alloc(), EXTENSION_METADATA)?;
    let mut pairs = Metadata::new(rt.alloc());
    pairs.insert(key, Text::from_str(rt.alloc(), "m")?)?;
    let x = field(rt.alloc(), "x", DataType::Int32)?.with_metadata(pairs);
    let schema = Schema::from_fields(single(rt.alloc(), x)?);
    let normal = normalised(rt.alloc(), &schema).ok().ok_or("no memory")?;
    assert!(rt; normal == schema_of(rt.alloc(), "x", DataType::Int32, true)?);
    Ok(())
}

/// A list of one field.
pub(crate) fn single(alloc: Global, field: Field) -> Result<Items<Field>, Fail> {
    let mut fields = Items::new(alloc);
    fields.push(field)?;
    Ok(fields)
}

/// A struct of a dictionary b by signed keys of 8 bits.
fn inner(alloc: Global) -> Result<DataType, Fail> {
    let value = Boxed::new(alloc, DataType::Utf8)?;
    let b = field(
        alloc,
        "b",
        DataType::Dictionary(IntegerType::Int8, value, false),
    )?;
    Ok(DataType::Struct(single(alloc, b)?))
}

/// a: a dictionary of structs of a dictionary b; c: a dictionary.
fn nested_dictionaries(alloc: Global) -> Result<Items<Field>, Fail> {
    let a = field(alloc, "a", dictionary(alloc, inner(alloc)?)?)?;
    let mut fields = single(alloc, a)?;
    fields.push(field(alloc, "c", dictionary(alloc, DataType::Utf8)?)?)?;
    Ok(fields)
}

/// A field's own id, and how many fields have ids below it.
fn ids_at(fields: &[IpcField], k: usize) -> Option<(Option<i64>, usize)> {
    let field = fields.get(k)?;
    Some((field.dictionary_id, field.fields.len()))
}

#[test]
fn dictionaries_are_numbered(rt: HostRuntime) -> Result<(), Fail> {
    let fields = nested_dictionaries(rt.alloc())?;
    let ids = default_ipc_fields(rt.alloc(), fields.as_slice())
        .ok()
        .ok_or("no ids")?;
    assert_eq!(rt; ids_at(&ids, 0), Some((Some(0), 1)));
    assert_eq!(rt; ids_at(&ids, 1), Some((Some(2), 0)));
    let first = ids.first().ok_or("no field")?;
    assert_eq!(rt; ids_at(first.fields.as_slice(), 0), Some((Some(1), 0)));
    Ok(())
}

/// What came of writing a schema of one field without ids.
fn outcome(alloc: Global, data_type: DataType, ids: &[IpcField]) -> Result<&'static str, Fail> {
    let schema = schema_of(alloc, "x", data_type, true)?;
    Ok(match schema_to_bytes(alloc, &schema, ids) {
        Ok(_) => "written",
        Err(Error::NotYetImplemented(_)) => "not implemented",
        Err(Error::InvalidArgumentError(_)) => "invalid argument",
        Err(_) => "another error",
    })
}

/// The ids of one field without dictionary.
fn no_id(alloc: Global) -> Result<Vec<IpcField>, Fail> {
    let fields = single(alloc, field(alloc, "x", DataType::Null)?)?;
    Ok(
        default_ipc_fields(alloc, fields.as_slice())
            .ok()
            .ok_or("no ids")?,
    )
}

#[test]
fn floats_are_not_implemented(rt: HostRuntime) -> Result<(), Fail> {
    let ids = no_id(rt.alloc())?;
    assert_eq!(rt;
        outcome(rt.alloc(), DataType::Float32, &ids)?,
        "not implemented"
    );
    Ok(())
}

#[test]
fn schemas_are_refused(rt: HostRuntime) -> Result<(), Fail> {
    let ids = no_id(rt.alloc())?;
    let time = DataType::Time32(TimeUnit::Nanosecond);
    assert_eq!(rt; outcome(rt.alloc(), time, &ids)?, "invalid argument");
    assert_eq!(rt;
        outcome(rt.alloc(), DataType::Int32, &[])?,
        "invalid argument"
    );
    Ok(())
}

/// A struct of a key and a value.
pub(crate) fn entry(alloc: Global) -> Result<Boxed<Field>, Fail> {
    let mut fields = single(alloc, field(alloc, "key", DataType::Utf8)?)?;
    fields.push(field(alloc, "value", DataType::Int8)?)?;
    Ok(Boxed::new(alloc, field(alloc, "entry", DataType::Struct(fields))?)?)
}

/// A dense union of numbers and texts, by the ids 5 and 7.
pub(crate) fn union(alloc: Global) -> Result<DataType, Fail> {
    let ids = Items::from_vec(Vec::from_array(alloc, [5, 7])?);
    let mut fields = single(alloc, field(alloc, "n", DataType::Int8)?)?;
    fields.push(field(alloc, "t", DataType::Utf8)?)?;
    Ok(DataType::Union(fields, Some(ids), UnionMode::Dense))
}

/// Whether a schema of one field reads back as it is written.
fn reads_back(alloc: Global, data_type: DataType) -> Result<bool, Fail> {
    let schema = schema_of(alloc, "x", data_type, true)?;
    let bytes = written(alloc, &schema)?;
    let (read, _beside) = deserialize_schema(alloc, &bytes).ok().ok_or("not read")?;
    Ok(read == schema)
}

#[test]
fn numbers_and_texts_read_back(rt: HostRuntime) -> Result<(), Fail> {
    for data_type in [
        DataType::Null,
        DataType::Boolean,
        DataType::Int8,
        DataType::Int16,
        DataType::Int64,
        DataType::UInt8,
        DataType::UInt16,
        DataType::UInt32,
        DataType::UInt64,
        DataType::Binary,
        DataType::FixedSizeBinary(3),
        DataType::LargeBinary,
        DataType::LargeUtf8,
        DataType::Decimal(38, 2),
        DataType::Decimal256(76, 3),
    ] {
        assert!(rt; reads_back(rt.alloc(), data_type)?);
    }
    Ok(())
}

#[test]
fn times_read_back(rt: HostRuntime) -> Result<(), Fail> {
    for data_type in [
        DataType::Timestamp(TimeUnit::Nanosecond, None),
        DataType::Date32,
        DataType::Date64,
        DataType::Time32(TimeUnit::Millisecond),
        DataType::Time64(TimeUnit::Nanosecond),
        DataType::Duration(TimeUnit::Second),
        DataType::Interval(IntervalUnit::MonthDayNano),
    ] {
        assert!(rt; reads_back(rt.alloc(), data_type)?);
    }
    Ok(())
}

#[test]
fn a_time_zone_reads_back(rt: HostRuntime) -> Result<(), Fail> {
    let zone = Text::from_str(rt.alloc(), "UTC")?;
    let data_type = DataType::Timestamp(TimeUnit::Microsecond, Some(zone));
    assert!(rt; reads_back(rt.alloc(), data_type)?);
    Ok(())
}

#[test]
fn lists_read_back(rt: HostRuntime) -> Result<(), Fail> {
    assert!(rt; reads_back(rt.alloc(), DataType::List(entry(rt.alloc())?))?);
    assert!(rt; reads_back(rt.alloc(), DataType::LargeList(entry(rt.alloc())?))?);
    assert!(rt; reads_back(rt.alloc(), DataType::FixedSizeList(entry(rt.alloc())?, 4))?);
    Ok(())
}

#[test]
fn fields_together_read_back(rt: HostRuntime) -> Result<(), Fail> {
    assert!(rt; reads_back(rt.alloc(), DataType::Map(entry(rt.alloc())?, true))?);
    assert!(rt; reads_back(rt.alloc(), union(rt.alloc())?)?);
    assert!(rt;
        reads_back(
            rt.alloc(),
            DataType::Struct(nested_dictionaries(rt.alloc())?)
        )?
    );
    Ok(())
}
