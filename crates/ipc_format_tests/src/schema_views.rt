//! Views of schemas and fields.
use crate::samples::{DICTIONARY, EXTENSION, NO_FIELDS, UNION, X};
use ipc_format::OutOfSpecKind;
use ipc_format::format::{
    DictionaryEncodingRef, DictionaryKind, Endianness, Error, FieldRef, KeyValuesRef,
    MessageHeaderRef, MessageRef, SchemaRef, TypeRef, UnionRef,
};
use std::test::*;

/// The schema of a message.
fn schema_of(bytes: &[u8]) -> Result<SchemaRef<'_>, Fail> {
    let message = MessageRef::read_as_root(bytes).ok().ok_or("no message")?;
    match message.header().ok().ok_or("no header")? {
        Some(MessageHeaderRef::Schema(schema)) => Ok(schema),
        _ => Err(Fail::from("no schema")),
    }
}

/// The first field of a message's schema.
fn first_field(bytes: &[u8]) -> Result<FieldRef<'_>, Fail> {
    let found = schema_of(bytes)?.fields().ok().ok_or("broken")?;
    let fields = found.ok_or("no fields")?;
    let field = fields.get(0).ok().ok_or("broken")?;
    Ok(field.ok_or("no field")?)
}

#[test]
fn a_schema_has_fields(rt: HostRuntime) -> Result<(), Fail> {
    let schema = schema_of(&X)?;
    assert_eq!(rt; schema.endianness().ok(), Some(Endianness::Little));
    assert!(rt; matches!(schema.custom_metadata(), Ok(None)));
    let fields = schema.fields().ok().ok_or("broken")?.ok_or("no fields")?;
    assert_eq!(rt; fields.tables.len(), 1);
    assert!(rt; matches!(fields.get(1), Ok(None)));
    Ok(())
}

#[test]
fn an_order_is_little_or_big(rt: HostRuntime) -> Result<(), Fail> {
    let cases = [
        (0, Some(Endianness::Little)),
        (1, Some(Endianness::Big)),
        (2, None),
    ];
    for (number, want) in cases {
        let mut bytes = NO_FIELDS;
        bytes[68] = number;
        assert_eq!(rt; schema_of(&bytes)?.endianness().ok(), want);
    }
    Ok(())
}

#[test]
fn a_field_has_a_name(rt: HostRuntime) -> Result<(), Fail> {
    let field = first_field(&X)?;
    assert_eq!(rt; field.name().ok(), Some(Some("x")));
    assert_eq!(rt; field.nullable().ok(), Some(true));
    assert!(rt; matches!(field.dictionary(), Ok(None)));
    let children = field.children().ok().ok_or("broken")?.ok_or("no children")?;
    assert_eq!(rt; children.tables.len(), 0);
    Ok(())
}

/// The dictionary of the first field of a message's schema.
fn dictionary_of(bytes: &[u8]) -> Result<DictionaryEncodingRef<'_>, Fail> {
    let found = first_field(bytes)?.dictionary().ok().ok_or("broken")?;
    Ok(found.ok_or("no dictionary")?)
}

#[test]
fn a_dictionary_has_keys(rt: HostRuntime) -> Result<(), Fail> {
    let dictionary = dictionary_of(&DICTIONARY)?;
    assert_eq!(rt; dictionary.id().ok(), Some(0));
    assert_eq!(rt; dictionary.is_ordered().ok(), Some(false));
    let int = dictionary
        .index_type()
        .ok()
        .ok_or("broken")?
        .ok_or("no keys")?;
    assert_eq!(rt;
        (int.bit_width().ok(), int.is_signed().ok()),
        (Some(32), Some(true))
    );
    Ok(())
}

#[test]
fn a_dictionary_is_a_dense_array(rt: HostRuntime) -> Result<(), Fail> {
    for (number, want) in [(0, Some(DictionaryKind::DenseArray)), (1, None)] {
        let mut bytes = DICTIONARY;
        bytes[214] = number;
        assert_eq!(rt; dictionary_of(&bytes)?.dictionary_kind().ok(), want);
        bytes[186] = 0;
        let absent = dictionary_of(&bytes)?.dictionary_kind().ok();
        assert_eq!(rt; absent, Some(DictionaryKind::DenseArray));
    }
    Ok(())
}

/// The union of the first field of a message's schema.
fn union_of(bytes: &[u8]) -> Result<UnionRef<'_>, Fail> {
    match first_field(bytes)?.type_().ok().ok_or("broken")? {
        Some(TypeRef::Union(union)) => Ok(union),
        _ => Err(Fail::from("no union")),
    }
}

#[test]
fn a_union_has_ids_in_turn(rt: HostRuntime) -> Result<(), Fail> {
    let found = union_of(&UNION)?.type_ids().ok().ok_or("broken")?;
    let ids = found.ok_or("no ids")?;
    assert_eq!(rt; ids.len(), 3);
    assert!(rt; !ids.is_empty());
    let want = [Some(5), Some(2), Some(-1), None];
    for k in 0..want.len() {
        assert_eq!(rt; ids.get(k), want[k]);
    }
    Ok(())
}

#[test]
fn ids_may_be_absent_and_lie_in_the_message(rt: HostRuntime) -> Result<(), Fail> {
    let mut bytes = UNION;
    bytes[188] = 100;
    assert!(rt; union_of(&bytes)?.type_ids().is_err());
    let mut bytes = UNION;
    bytes[166] = 0;
    assert!(rt; matches!(union_of(&bytes)?.type_ids(), Ok(None)));
    Ok(())
}

#[test]
fn a_kind_of_refusal_holds_that_of_the_view(rt: HostRuntime) -> Result<(), Fail> {
    let refusal = MessageRef::read_as_root(&[]).err().ok_or("a message")?;
    let kind = OutOfSpecKind::InvalidFlatbufferMessage(refusal);
    assert_eq!(rt;
        kind,
        OutOfSpecKind::InvalidFlatbufferMessage(Error::InvalidFlatbuffer)
    );
    assert_eq!(rt; kind.name(), "InvalidFlatbufferMessage");
    Ok(())
}

/// The custom metadata of the first field of a message's schema.
fn pairs_of(bytes: &[u8]) -> Result<KeyValuesRef<'_>, Fail> {
    let found = first_field(bytes)?.custom_metadata().ok().ok_or("broken")?;
    Ok(found.ok_or("no pairs")?)
}

#[test]
fn a_field_has_pairs(rt: HostRuntime) -> Result<(), Fail> {
    let pairs = pairs_of(&EXTENSION)?;
    assert_eq!(rt; pairs.tables.len(), 3);
    let pair = pairs.get(0).ok().ok_or("broken")?.ok_or("no pair")?;
    assert_eq!(rt; pair.key().ok(), Some(Some("ARROW:extension:metadata")));
    assert_eq!(rt; pair.value().ok(), Some(Some("m")));
    Ok(())
}

#[test]
fn a_field_has_a_type(rt: HostRuntime) -> Result<(), Fail> {
    for (tag, is_int) in [(0, false), (2, true), (21, false), (22, false)] {
        let mut bytes = X;
        bytes[129] = tag;
        let found = first_field(&bytes)?.type_();
        assert_eq!(rt; matches!(found, Ok(Some(TypeRef::Int(_)))), is_int);
        assert_eq!(rt; found.is_err(), tag == 0 || tag == 22);
    }
    Ok(())
}
