//! Values taken of views.
use crate::schemas::{ids, schema};
use columnar_memory_types::{DataType, Error, Field, Items, Schema, Text, UnionMode};
use ipc_format::format::{
    Block, Buffer, FieldNode, FieldRef, FooterRef, MessageHeaderRef, MessageRef, Type_,
    dictionary_batch_of, field_of, footer_of, key_value_of, message_header_of, message_of,
    record_batch_of, schema_of, type_of,
};
use ipc_format::{
    default_ipc_fields, dictionary_batch_to_bytes, footer_to_bytes, record_batch_to_bytes,
    schema_to_bytes,
};
use std::alloc::Global;
use std::test::*;

const NODES: [FieldNode; 1] = [FieldNode {
    length: 2,
    null_count: 1,
}];

const BUFFERS: [Buffer; 2] = [
    Buffer {
        offset: 0,
        length: 1,
    },
    Buffer {
        offset: 64,
        length: 8,
    },
];

/// s, a struct of the fields a and b.
fn structs(alloc: Global) -> Result<Schema, Fail> {
    let mut below = Items::new(alloc);
    let a = Text::from_str(alloc, "a")?;
    below.push(Field::new(alloc, a, DataType::Int32, true))?;
    let b = Text::from_str(alloc, "b")?;
    below.push(Field::new(alloc, b, DataType::Utf8, false))?;
    let mut fields = Items::new(alloc);
    let name = Text::from_str(alloc, "s")?;
    fields.push(Field::new(alloc, name, DataType::Struct(below), true))?;
    Ok(Schema::from_fields(fields))
}

/// The header of a message.
fn header_of(bytes: &[u8]) -> Result<MessageHeaderRef<'_>, Fail> {
    let message = MessageRef::read_as_root(bytes).ok().ok_or("no message")?;
    let header = message.header().ok().ok_or("no header")?;
    Ok(header.ok_or("absent")?)
}

/// The first field of a schema's message.
fn first_field(bytes: &[u8]) -> Result<FieldRef<'_>, Fail> {
    let MessageHeaderRef::Schema(schema) = header_of(bytes)? else {
        return Err(Fail::from("no schema"));
    };
    let fields = schema.fields().ok().ok_or("no fields")?;
    let fields = fields.ok_or("absent fields")?;
    let field = fields.get(0).ok().ok_or("no field")?;
    Ok(field.ok_or("absent field")?)
}

#[test]
fn a_written_schema_is_taken(rt: HostRuntime) -> Result<(), Fail> {
    let alloc = rt.alloc();
    let bytes = schema_to_bytes(alloc, &schema(alloc)?, &ids(alloc, 7)?);
    let bytes = bytes.ok().ok_or("not written")?;
    let MessageHeaderRef::Schema(view) = header_of(&bytes)? else {
        return Err(Fail::from("no schema"));
    };
    let value = schema_of(alloc, view).ok().ok_or("refused")?;
    assert_eq!(rt; value.fields.len(), 1);
    let field = value.fields.get(0).ok_or("no field")?;
    assert_eq!(rt; field.name.as_str(), "x");
    assert!(rt; matches!(field.dictionary, Some(encoding) if encoding.id == 7));
    let keys = ["ARROW:extension:metadata", "ARROW:extension:name", "a"];
    assert_eq!(rt; field.custom_metadata.len(), keys.len());
    for (pair, key) in field.custom_metadata.iter().zip(keys) {
        assert_eq!(rt; pair.key.as_str(), key);
    }
    Ok(())
}

#[test]
fn a_field_is_taken_with_its_children(rt: HostRuntime) -> Result<(), Fail> {
    let alloc = rt.alloc();
    let schema = structs(alloc)?;
    let ids = default_ipc_fields(alloc, schema.fields.as_slice())?;
    let bytes = schema_to_bytes(alloc, &schema, ids.as_slice());
    let bytes = bytes.ok().ok_or("not written")?;
    let field = field_of(alloc, first_field(&bytes)?).ok().ok_or("refused")?;
    assert!(rt; matches!(field.type_, Type_::Struct));
    let names = ["a", "b"];
    assert_eq!(rt; field.children.len(), names.len());
    for (child, name) in field.children.iter().zip(names) {
        assert_eq!(rt; child.name.as_str(), name);
    }
    Ok(())
}

/// u, a dense union of the field a with the id 7.
fn unions(alloc: Global) -> Result<Schema, Fail> {
    let mut below = Items::new(alloc);
    let a = Text::from_str(alloc, "a")?;
    below.push(Field::new(alloc, a, DataType::Int32, true))?;
    let mut ids = Items::new(alloc);
    ids.push(7)?;
    let union = DataType::Union(below, Some(ids), UnionMode::Dense);
    let mut fields = Items::new(alloc);
    let name = Text::from_str(alloc, "u")?;
    fields.push(Field::new(alloc, name, union, false))?;
    Ok(Schema::from_fields(fields))
}

/// Whether a type is a dense union of one field, whose id this is.
fn is_dense_of_id(type_: &Type_, id: i32) -> bool {
    let Type_::Union { mode, type_ids } = type_ else {
        return false;
    };
    let Some(type_ids) = type_ids else {
        return false;
    };
    matches!(mode, UnionMode::Dense) && type_ids.as_slice() == [id].as_slice()
}

#[test]
fn a_union_is_taken_with_its_ids(rt: HostRuntime) -> Result<(), Fail> {
    let alloc = rt.alloc();
    let schema = unions(alloc)?;
    let ids = default_ipc_fields(alloc, schema.fields.as_slice())?;
    let bytes = schema_to_bytes(alloc, &schema, ids.as_slice());
    let bytes = bytes.ok().ok_or("not written")?;
    let field = field_of(alloc, first_field(&bytes)?).ok().ok_or("refused")?;
    assert!(rt; is_dense_of_id(&field.type_, 7));
    Ok(())
}

#[test]
fn a_type_and_a_pair_are_taken(rt: HostRuntime) -> Result<(), Fail> {
    let alloc = rt.alloc();
    let bytes = schema_to_bytes(alloc, &schema(alloc)?, &ids(alloc, 7)?);
    let bytes = bytes.ok().ok_or("not written")?;
    let field = first_field(&bytes)?;
    let view = field.type_().ok().ok_or("no type")?;
    let type_ = type_of(alloc, view.ok_or("absent type")?);
    assert!(rt; matches!(type_, Ok(Type_::Utf8)));
    let pairs = field.custom_metadata().ok().ok_or("no pairs")?;
    let pair = pairs.ok_or("absent pairs")?.get(2).ok().ok_or("no pair")?;
    let pair = key_value_of(alloc, pair.ok_or("absent pair")?);
    let pair = pair.ok().ok_or("refused")?;
    assert_eq!(rt; pair.key.as_str(), "a");
    assert_eq!(rt; pair.value.as_str(), "1");
    Ok(())
}

#[test]
fn a_record_batch_is_taken(rt: HostRuntime) -> Result<(), Fail> {
    let alloc = rt.alloc();
    let bytes = record_batch_to_bytes(alloc, 2, &NODES, &BUFFERS, 128);
    let bytes = bytes.ok().ok_or("not written")?;
    let MessageHeaderRef::RecordBatch(view) = header_of(&bytes)? else {
        return Err(Fail::from("no batch"));
    };
    let batch = record_batch_of(alloc, view).ok().ok_or("refused")?;
    assert_eq!(rt; batch.length, 2);
    assert!(rt; batch.nodes.as_slice() == NODES.as_slice());
    assert!(rt; batch.buffers.as_slice() == BUFFERS.as_slice());
    Ok(())
}

#[test]
fn a_dictionary_batch_is_taken(rt: HostRuntime) -> Result<(), Fail> {
    let alloc = rt.alloc();
    let bytes = dictionary_batch_to_bytes(alloc, 7, 2, &NODES, &BUFFERS, 128);
    let bytes = bytes.ok().ok_or("not written")?;
    let MessageHeaderRef::DictionaryBatch(view) = header_of(&bytes)? else {
        return Err(Fail::from("no dictionary"));
    };
    let batch = dictionary_batch_of(alloc, view).ok().ok_or("refused")?;
    assert_eq!(rt; batch.id, 7);
    assert_eq!(rt; batch.data.nodes.len(), 1);
    assert!(rt; !batch.is_delta);
    Ok(())
}

#[test]
fn a_footer_is_taken(rt: HostRuntime) -> Result<(), Fail> {
    let alloc = rt.alloc();
    let block = Block {
        offset: 8,
        meta_data_length: 200,
        body_length: 64,
    };
    let schema = structs(alloc)?;
    let ids = default_ipc_fields(alloc, schema.fields.as_slice())?;
    let bytes = footer_to_bytes(alloc, &schema, ids.as_slice(), &[], &[block]);
    let bytes = bytes.ok().ok_or("not written")?;
    let view = FooterRef::read_as_root(&bytes).ok().ok_or("no footer")?;
    let footer = footer_of(alloc, view).ok().ok_or("refused")?;
    assert_eq!(rt; footer.schema.fields.len(), 1);
    assert!(rt; footer.dictionaries.is_empty());
    assert!(rt; footer.record_batches.as_slice() == [block].as_slice());
    Ok(())
}

#[test]
fn a_damaged_message_is_refused(rt: HostRuntime) -> Result<(), Fail> {
    let alloc = rt.alloc();
    let bytes = record_batch_to_bytes(alloc, 2, &NODES, &BUFFERS, 128);
    let mut bytes = bytes.ok().ok_or("not written")?;
    let view = MessageRef::read_as_root(&bytes).ok().ok_or("no message")?;
    assert!(rt; message_of(alloc, view).is_ok());
    assert!(rt; message_header_of(alloc, header_of(&bytes)?).is_ok());
    // the count of nodes
    *bytes.get_mut(92).ok_or("too short")? = 255;
    let view = MessageRef::read_as_root(&bytes).ok().ok_or("no message")?;
    assert!(rt;
        matches!(
            message_of(alloc, view),
            Err(Error::OutOfSpec("InvalidFlatbuffer"))
        )
    );
    Ok(())
}
