//! Messages, batches and footers: their views at the bounds of each rule, and what is written.
use crate::samples::{DICTIONARY_BATCH, FOOTER, NO_FIELDS, RECORD_BATCH, X};
use columnar_memory_types::{Error as MemoryError, Items, Schema};
use ipc_format::format::{
    Block, Buffer, BuffersRef, DictionaryBatchRef, Error, FieldNode, FooterRef, MessageHeaderRef,
    MessageRef, MetadataVersion, RecordBatchRef, dictionary_batch_in, message_in, record_batch_in,
    version_in,
};
use ipc_format::{dictionary_batch_to_bytes, footer_to_bytes, record_batch_to_bytes};
use std::test::*;

const NODES: [FieldNode; 1] = [FieldNode {
    length: 2,
    null_count: 1,
}];

const BUFFERS: [Buffer; 2] = [
    Buffer {
        offset: 0,
        length: 1,
    },
    Buffer {
        offset: 64,
        length: 8,
    },
];

/// The record batch of a message.
fn record_batch(bytes: &[u8]) -> Result<RecordBatchRef<'_>, Fail> {
    let message = MessageRef::read_as_root(bytes).ok().ok_or("no message")?;
    match message.header().ok().ok_or("no header")? {
        Some(MessageHeaderRef::RecordBatch(batch)) => Ok(batch),
        _ => Err(Fail::from("no record batch")),
    }
}

/// The dictionary batch of a message.
fn dictionary_batch(bytes: &[u8]) -> Result<DictionaryBatchRef<'_>, Fail> {
    let message = MessageRef::read_as_root(bytes).ok().ok_or("no message")?;
    match message.header().ok().ok_or("no header")? {
        Some(MessageHeaderRef::DictionaryBatch(batch)) => Ok(batch),
        _ => Err(Fail::from("no dictionary batch")),
    }
}

/// What kind of header a message has.
fn kind_of(bytes: &[u8]) -> &'static str {
    let Ok(message) = MessageRef::read_as_root(bytes) else {
        return "no message";
    };
    match message.header() {
        Ok(Some(MessageHeaderRef::Schema(_))) => "schema",
        Ok(Some(MessageHeaderRef::DictionaryBatch(_))) => "dictionary batch",
        Ok(Some(MessageHeaderRef::RecordBatch(_))) => "record batch",
        Ok(None) => "none",
        Err(Error::InvalidFlatbuffer) => "invalid",
    }
}

#[test]
fn a_record_batch_is_written(rt: HostRuntime) -> Result<(), Fail> {
    let written = record_batch_to_bytes(rt.alloc(), 2, &NODES, &BUFFERS, 128);
    let bytes = written.ok().ok_or("refused")?;
    assert!(rt; bytes.as_slice() == RECORD_BATCH.as_slice());
    Ok(())
}

#[test]
fn a_dictionary_batch_is_written(rt: HostRuntime) -> Result<(), Fail> {
    let written = dictionary_batch_to_bytes(rt.alloc(), -2, 2, &NODES, &BUFFERS, 128);
    let bytes = written.ok().ok_or("refused")?;
    assert!(rt; bytes.as_slice() == DICTIONARY_BATCH.as_slice());
    Ok(())
}

#[test]
fn a_footer_is_written(rt: HostRuntime) -> Result<(), Fail> {
    let schema = Schema::from_fields(Items::new(rt.alloc()));
    let block = Block {
        offset: 104,
        meta_data_length: 160,
        body_length: 128,
    };
    let written = footer_to_bytes(rt.alloc(), &schema, &[], &[], &[block]);
    let bytes = written.ok().ok_or("refused")?;
    assert!(rt; bytes.as_slice() == FOOTER.as_slice());
    Ok(())
}

#[test]
fn a_body_is_below_the_limit(rt: HostRuntime) {
    let limit: u64 = 1 << 63;
    let under = record_batch_to_bytes(rt.alloc(), 2, &NODES, &BUFFERS, limit - 1);
    assert!(rt; matches!(under, Ok(_)));
    let over = record_batch_to_bytes(rt.alloc(), 2, &NODES, &BUFFERS, limit);
    assert!(rt; matches!(over, Err(MemoryError::Overflow)));
}

#[test]
fn a_message_says_what_it_carries(rt: HostRuntime) {
    let mut tensor = RECORD_BATCH;
    tensor[30] = 4;
    let mut nothing = RECORD_BATCH;
    nothing[16] = 0;
    assert_eq!(rt; kind_of(&X), "schema");
    assert_eq!(rt; kind_of(&RECORD_BATCH), "record batch");
    assert_eq!(rt; kind_of(&DICTIONARY_BATCH), "dictionary batch");
    assert_eq!(rt; kind_of(&tensor), "invalid");
    assert_eq!(rt; kind_of(&nothing), "none");
    assert_eq!(rt; kind_of(&[1]), "no message");
}

#[test]
fn a_message_has_a_version(rt: HostRuntime) -> Result<(), Fail> {
    let cases = [
        (0, Some(MetadataVersion::V1)),
        (1, Some(MetadataVersion::V2)),
        (2, Some(MetadataVersion::V3)),
        (3, Some(MetadataVersion::V4)),
        (4, Some(MetadataVersion::V5)),
        (5, None),
    ];
    for (number, want) in cases {
        let mut bytes = NO_FIELDS;
        bytes[28] = number;
        let message = MessageRef::read_as_root(&bytes).ok().ok_or("no message")?;
        assert_eq!(rt; message.version().ok(), want);
    }
    Ok(())
}

#[test]
fn a_message_states_its_body(rt: HostRuntime) -> Result<(), Fail> {
    let message = MessageRef::read_as_root(&RECORD_BATCH)
        .ok()
        .ok_or("no message")?;
    assert_eq!(rt; message.body_length().ok(), Some(128));
    Ok(())
}

#[test]
fn a_record_batch_has_nodes(rt: HostRuntime) -> Result<(), Fail> {
    let batch = record_batch(&RECORD_BATCH)?;
    assert_eq!(rt; batch.length().ok(), Some(2));
    let nodes = batch.nodes().ok().ok_or("broken")?.ok_or("no nodes")?;
    assert_eq!(rt; nodes.len(), 1);
    assert_eq!(rt; nodes.get(0), Some(NODES[0]));
    assert_eq!(rt; nodes.get(1), None);
    assert!(rt; matches!(batch.compression(), Ok(None)));
    Ok(())
}

/// The buffers of the record batch of a message.
fn buffers_of(bytes: &[u8]) -> Result<BuffersRef<'_>, Fail> {
    let batch = record_batch(bytes)?;
    let found = batch.buffers().ok().ok_or("broken")?;
    Ok(found.ok_or("no buffers")?)
}

#[test]
fn a_record_batch_has_buffers(rt: HostRuntime) -> Result<(), Fail> {
    let buffers = buffers_of(&RECORD_BATCH)?;
    assert_eq!(rt; buffers.len(), 2);
    assert_eq!(rt; buffers.get(1), Some(BUFFERS[1]));
    assert_eq!(rt; buffers.get(2), None);
    assert_eq!(rt; buffers.lengths_sum(), Some(9));
    Ok(())
}

#[test]
fn a_negative_length_has_no_sum(rt: HostRuntime) -> Result<(), Fail> {
    let mut bytes = RECORD_BATCH;
    bytes[151] = 128;
    assert_eq!(rt; buffers_of(&bytes)?.lengths_sum(), None);
    Ok(())
}

#[test]
fn a_dictionary_batch_has_values(rt: HostRuntime) -> Result<(), Fail> {
    let batch = dictionary_batch(&DICTIONARY_BATCH)?;
    assert_eq!(rt; batch.id().ok(), Some(-2));
    assert_eq!(rt; batch.is_delta().ok(), Some(false));
    let values = batch.data_().ok().ok_or("broken")?.ok_or("no values")?;
    assert_eq!(rt; values.length().ok(), Some(2));
    Ok(())
}

#[test]
fn a_footer_has_blocks(rt: HostRuntime) -> Result<(), Fail> {
    let footer = FooterRef::read_as_root(&FOOTER).ok().ok_or("no footer")?;
    assert_eq!(rt; footer.version().ok(), Some(MetadataVersion::V5));
    assert!(rt; matches!(footer.schema(), Ok(Some(_))));
    let dictionaries = footer.dictionaries().ok().ok_or("broken")?;
    assert_eq!(rt; dictionaries.ok_or("no dictionaries")?.len(), 0);
    let found = footer.record_batches().ok().ok_or("broken")?;
    let blocks = found.ok_or("no record batches")?;
    let block = blocks.get(0).ok_or("no block")?;
    assert_eq!(rt;
        (block.offset, block.meta_data_length, block.body_length),
        (104, 160, 128)
    );
    assert_eq!(rt; (blocks.len(), blocks.get(1)), (1, None));
    Ok(())
}

#[test]
fn a_message_is_read_whole(rt: HostRuntime) -> Result<(), Fail> {
    let message = message_in(&RECORD_BATCH).ok_or("no message")?;
    assert_eq!(rt; message.body_length, 128);
    assert_eq!(rt; version_in(&RECORD_BATCH), Some(MetadataVersion::V5));
    let parts = record_batch_in(&record_batch(&RECORD_BATCH)?).ok_or("no parts")?;
    assert_eq!(rt; (parts.nodes.len(), parts.buffers.len()), (1, 2));
    assert!(rt; !parts.is_compressed);
    Ok(())
}

#[test]
fn a_schema_has_no_body(rt: HostRuntime) -> Result<(), Fail> {
    let mut bytes = X;
    bytes[40] = 9;
    let stated = MessageRef::read_as_root(&bytes).ok().ok_or("no message")?;
    assert_eq!(rt; stated.body_length().ok(), Some(9));
    let message = message_in(&bytes).ok_or("no message")?;
    assert_eq!(rt; message.body_length, 0);
    Ok(())
}

#[test]
fn a_dictionary_is_read_whole(rt: HostRuntime) -> Result<(), Fail> {
    let batch = dictionary_batch(&DICTIONARY_BATCH)?;
    let parts = dictionary_batch_in(&batch).ok_or("no parts")?;
    assert_eq!(rt; (parts.id, parts.is_delta), (-2, false));
    assert_eq!(rt; parts.values.length().ok(), Some(2));
    Ok(())
}
