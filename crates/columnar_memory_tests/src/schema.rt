//! A data type is let go by `drop`, a call: at the end of a scope each variant of it is let go in turn, which costs much more to prove.
use crate::cases::hash_of;
use columnar_memory_types::{
    Boxed, DataType, EXTENSION_METADATA, EXTENSION_NAME, Field, IntegerType, IntervalUnit, Items,
    Metadata, PhysicalType, PrimitiveType, Schema, Text, TimeUnit, UnionMode, get_extension,
};
use std::alloc::{AllocError, Global};
use std::test::Fail;

fn field_of(alloc: Global, name: &str, data_type: DataType) -> Result<Field, AllocError> {
    Ok(Field::new(alloc, Text::from_str(alloc, name)?, data_type, true))
}

fn fields_of(alloc: Global, data_type: DataType) -> Result<Items<Field>, AllocError> {
    let mut fields = Items::new(alloc);
    fields.push(field_of(alloc, "child", data_type)?)?;
    Ok(fields)
}

fn list_of(alloc: Global, item: DataType) -> Result<DataType, AllocError> {
    Ok(DataType::List(Boxed::new(alloc, field_of(alloc, "item", item)?)?))
}

fn union_of(alloc: Global, child: DataType, id: i32) -> Result<DataType, AllocError> {
    let fields = fields_of(alloc, child)?;
    let mut ids = Items::new(alloc);
    ids.push(id)?;
    Ok(DataType::Union(fields, Some(ids), UnionMode::Sparse))
}

fn dictionary_of(alloc: Global, values: DataType) -> Result<DataType, AllocError> {
    Ok(DataType::Dictionary(IntegerType::UInt16, Boxed::new(alloc, values)?, false))
}

fn extension_of(alloc: Global, name: &str, stored: DataType) -> Result<DataType, AllocError> {
    let stored = Boxed::new(alloc, stored)?;
    let name = Text::from_str(alloc, name)?;
    Ok(DataType::Extension(name, stored, None))
}

fn zoned(alloc: Global, zone: &str) -> Result<DataType, AllocError> {
    let zone = Text::from_str(alloc, zone)?;
    Ok(DataType::Timestamp(TimeUnit::Millisecond, Some(zone)))
}

fn lists_of_times(alloc: Global) -> Result<DataType, AllocError> {
    list_of(alloc, zoned(alloc, "UTC")?)
}

fn union_of_texts(alloc: Global) -> Result<DataType, AllocError> {
    union_of(alloc, dictionary_of(alloc, DataType::Utf8)?, 5)
}

/// A struct of a list of times and a union of a dictionary.
fn nested(alloc: Global) -> Result<DataType, AllocError> {
    let mut fields = fields_of(alloc, lists_of_times(alloc)?)?;
    fields.push(field_of(alloc, "second", union_of_texts(alloc)?)?)?;
    Ok(DataType::Struct(fields))
}

#[test]
fn a_nested_type_equals_its_clone(rt: HostRuntime) -> Result<(), Fail> {
    let data_type = nested(rt.alloc())?;
    let copied = data_type.clone()?;
    assert!(rt; copied == data_type);
    assert!(rt; hash_of(&copied) == hash_of(&data_type));
    drop(copied);
    drop(data_type);
    Ok(())
}

/// Whether two types were made and are not equal.
fn differ(first: Result<DataType, AllocError>, second: Result<DataType, AllocError>) -> bool {
    let differ = match (&first, &second) {
        (Ok(first), Ok(second)) => first != second,
        _ => false,
    };
    drop(first);
    drop(second);
    differ
}

#[test]
fn types_differ_where_a_part_does(rt: HostRuntime) {
    let alloc = rt.alloc();
    assert!(rt; differ(zoned(alloc, "UTC"), zoned(alloc, "+01:00")));
    assert!(rt;
        differ(
            list_of(alloc, DataType::Int8),
            list_of(alloc, DataType::Int16)
        )
    );
    assert!(rt;
        differ(
            union_of(alloc, DataType::Int8, 5),
            union_of(alloc, DataType::Int8, 6)
        )
    );
    assert!(rt; differ(Ok(DataType::Decimal(9, 2)), Ok(DataType::Decimal(9, 3))));
}

#[test]
fn extensions_are_laid_out_as_what_they_are_over(rt: HostRuntime) -> Result<(), Fail> {
    let inner = extension_of(rt.alloc(), "day", DataType::Date32)?;
    let outer = extension_of(rt.alloc(), "holiday", inner)?;
    assert!(rt; matches!(outer.to_logical_type(), DataType::Date32));
    assert!(rt; outer.to_physical_type() == PhysicalType::Primitive(PrimitiveType::Int32));
    drop(outer);
    Ok(())
}

#[test]
fn months_are_laid_out_as_integers(rt: HostRuntime) {
    let months = DataType::Interval(IntervalUnit::YearMonth);
    assert!(rt; months.to_physical_type().eq_primitive(PrimitiveType::Int32));
    drop(months);
}

fn are_equal(first: DataType, second: DataType) -> bool {
    let are_equal = first == second;
    drop(first);
    drop(second);
    are_equal
}

#[test]
fn types_of_integers(rt: HostRuntime) {
    assert!(rt;
        are_equal(
            DataType::from(PrimitiveType::Int256),
            DataType::Decimal256(32, 32)
        )
    );
    assert!(rt; are_equal(DataType::from(IntegerType::UInt8), DataType::UInt8));
}

/// A pair.
fn pair(alloc: Global, key: &str, value: &str) -> Result<Metadata, AllocError> {
    let mut pairs = Metadata::new(alloc);
    pairs.insert(Text::from_str(alloc, key)?, Text::from_str(alloc, value)?)?;
    Ok(pairs)
}

/// One field with metadata, in a schema with metadata.
fn heights(alloc: Global) -> Result<Schema, AllocError> {
    let (unit, source) = (pair(alloc, "unit", "m")?, pair(alloc, "source", "survey")?);
    let height = field_of(alloc, "height", DataType::Float32)?.with_metadata(unit);
    Ok(Schema::from(vec![in alloc; height]?).with_metadata(source))
}

#[test]
fn a_schema_equals_its_clone(rt: HostRuntime) -> Result<(), Fail> {
    let schema = heights(rt.alloc())?;
    let copied = schema.clone()?;
    assert!(rt; copied == schema);
    assert!(rt; hash_of(&copied) == hash_of(&schema));
    let bare = Schema::from_fields(copied.fields);
    assert!(rt; bare != schema);
    drop(bare);
    drop(schema);
    Ok(())
}

/// Three fields a, b and c, of which the second is of another type.
fn three_fields(alloc: Global) -> Result<Schema, AllocError> {
    let mut fields = Vec::new(alloc);
    for name in ["a", "b", "c"] {
        let data_type = if name == "b" {
            DataType::Int16
        } else {
            DataType::Int8
        };
        fields.push(field_of(alloc, name, data_type)?)?;
    }
    Ok(Schema::from(fields))
}

#[test]
fn a_schema_keeps_the_columns_asked_for(rt: HostRuntime) -> Result<(), Fail> {
    let schema = three_fields(rt.alloc())?;
    let kept = schema.filter(|index, field| index < 2
        && matches!(field.data_type(), DataType::Int8))?;
    assert!(rt; kept.fields.len() == 1);
    assert!(rt; kept.fields.get(0).map(|field| field.name.as_str()) == Some("a"));
    drop(kept);
    Ok(())
}

#[test]
fn metadata_of_an_extension_alone_names_none(rt: HostRuntime) -> Result<(), Fail> {
    let pairs = pair(rt.alloc(), EXTENSION_METADATA, "{}")?;
    assert!(rt; get_extension(&pairs).is_none());
    drop(pairs);
    Ok(())
}

fn named_extension(alloc: Global) -> Result<Metadata, AllocError> {
    let mut pairs = pair(alloc, EXTENSION_METADATA, "{}")?;
    let name = Text::from_str(alloc, EXTENSION_NAME)?;
    pairs.insert(name, Text::from_str(alloc, "uuid")?)?;
    Ok(pairs)
}

#[test]
fn a_field_may_name_an_extension(rt: HostRuntime) -> Result<(), Fail> {
    let pairs = named_extension(rt.alloc())?;
    let (name, more) = get_extension(&pairs).ok_or("no extension")?;
    assert!(rt; name.as_str() == "uuid");
    assert!(rt; more.map(|text| text.as_str()) == Some("{}"));
    drop(pairs);
    Ok(())
}
