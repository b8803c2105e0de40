//! Values of schemas that are written.
use crate::calling::message_of;
use columnar_memory_types::{
    Boxed, DataType, Error, Field, IntegerType, Items, Metadata, Schema, Text,
};
use ipc_format::format::{DictionaryEncoding, DictionaryKind, Footer, Int, MetadataVersion};
use ipc_format::metadata::IpcField;
use ipc_format::serialize_schema;
use std::alloc::Global;
use std::test::*;

/// x, a dictionary of extensions e of texts by signed 32-bit keys, with the metadata a = 1 of its own.
pub(crate) fn schema(alloc: Global) -> Result<Schema, Fail> {
    let inner = Boxed::new(alloc, DataType::Utf8)?;
    let name = Text::from_str(alloc, "e")?;
    let metadata = Text::from_str(alloc, "m")?;
    let values = Boxed::new(alloc, DataType::Extension(name, inner, Some(metadata)))?;
    let data_type = DataType::Dictionary(IntegerType::Int32, values, true);
    let mut pairs = Metadata::new(alloc);
    pairs.insert(Text::from_str(alloc, "a")?, Text::from_str(alloc, "1")?)?;
    let field = Field::new(alloc, Text::from_str(alloc, "x")?, data_type, true);
    let mut fields = Items::new(alloc);
    fields.push(field.with_metadata(pairs))?;
    Ok(Schema::from_fields(fields))
}

pub(crate) fn ids(alloc: Global, dictionary_id: i64) -> Result<Vec<IpcField>, Fail> {
    let mut ids = Vec::new(alloc);
    ids.push(IpcField {
        fields: Items::new(alloc),
        dictionary_id: Some(dictionary_id),
    })?;
    Ok(ids)
}

#[test]
fn a_schema_has_its_value(rt: HostRuntime) -> Result<(), Fail> {
    let alloc = rt.alloc();
    let value = serialize_schema(alloc, &schema(alloc)?, &ids(alloc, 7)?);
    let value = value.ok().ok_or("refused")?;
    let field = value.fields.get(0).ok_or("no field")?;
    let want = DictionaryEncoding {
        id: 7,
        index_type: Int {
            bit_width: 32,
            is_signed: true,
        },
        is_ordered: true,
        dictionary_kind: DictionaryKind::DenseArray,
    };
    assert!(rt; field.dictionary == Some(want));
    assert_eq!(rt; field.name.as_str(), "x");
    assert!(rt; field.children.is_empty());
    let keys = ["ARROW:extension:metadata", "ARROW:extension:name", "a"];
    assert_eq!(rt; field.custom_metadata.len(), keys.len());
    for (pair, key) in field.custom_metadata.iter().zip(keys) {
        assert_eq!(rt; pair.key.as_str(), key);
    }
    Ok(())
}

#[test]
fn ids_that_do_not_fit_are_refused(rt: HostRuntime) -> Result<(), Fail> {
    let alloc = rt.alloc();
    let refused = serialize_schema(alloc, &schema(alloc)?, &[]);
    assert!(rt; matches!(&refused, Err(Error::InvalidArgumentError(_))));
    Ok(())
}

#[test]
fn a_message_and_a_footer_are_of_version_five(rt: HostRuntime) -> Result<(), Fail> {
    let alloc = rt.alloc();
    let no_fields = Schema::from_fields(Items::new(alloc));
    let message = message_of(alloc, &no_fields, &[]).ok().ok_or("refused")?;
    let value = serialize_schema(alloc, &no_fields, &[])
        .ok()
        .ok_or("refused")?;
    let footer = Footer::new(alloc, value, Items::new(alloc), Items::new(alloc));
    assert!(rt; message.version == MetadataVersion::V5);
    assert!(rt; footer.version == MetadataVersion::V5);
    Ok(())
}
