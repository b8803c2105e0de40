//! Columns one by one, and the values of metadata by their names, as a caller of the facade reaches them.
use ipc_format::InMemory;
use ipc_format::columnar_memory::{DataType, Items, Text};
use ipc_format::columns::{Body, read_primitive, skip, skip_boolean, write_primitive};
use ipc_format::format::{
    Buffer, DictionaryBatch, Endianness, FieldNode, KeyValue, MetadataVersion, RecordBatch, Schema,
};
use std::alloc::Global;
use std::collections::VecDeque;
use std::test::*;

/// Nodes of one slot each, none of which is null.
fn nodes(alloc: Global, count: usize) -> Result<VecDeque<FieldNode>, Fail> {
    let mut nodes = VecDeque::new(alloc);
    for _k in 0..count {
        let node = FieldNode {
            length: 1,
            null_count: 0,
        };
        if nodes.push_back(node).is_err() {
            return Err(Fail::from("no memory"));
        }
    }
    Ok(nodes)
}

/// The buffers of some pairs of offsets and lengths.
fn buffers(alloc: Global, pairs: &[(i64, i64)]) -> Result<VecDeque<Buffer>, Fail> {
    let mut buffers = VecDeque::new(alloc);
    for pair in pairs {
        let buffer = Buffer {
            offset: pair.0,
            length: pair.1,
        };
        if buffers.push_back(buffer).is_err() {
            return Err(Fail::from("no memory"));
        }
    }
    Ok(buffers)
}

#[test]
fn a_column_is_read_and_written(rt: HostRuntime) -> Result<(), Fail> {
    let alloc = rt.alloc();
    let mut n = nodes(alloc, 1)?;
    let mut b = buffers(alloc, &[(0, 0), (0, 4)])?;
    let mut room = InMemory {
        bytes: &[0, 0, 0, 7],
    };
    let mut scratch = Vec::new(alloc);
    let found = read_primitive::<i32, _>(
        alloc,
        &mut n,
        DataType::Int32,
        &mut b,
        &mut room,
        0,
        false,
        None,
        None,
        &mut scratch,
    );
    let array = found.ok().ok_or("refused")?;
    assert_eq!(rt;
        (array.len(), array.get(0), n.len(), b.len()),
        (1, Some(7), 0, 0)
    );
    let mut body = Body {
        nodes: Vec::new(alloc),
        buffers: Vec::new(alloc),
        bytes: Vec::new(alloc),
        offset: 0,
    };
    assert!(rt; write_primitive(&array, &mut body, false).is_ok());
    assert_eq!(rt;
        (body.nodes.len(), body.buffers.len(), body.offset),
        (1, 2, 64)
    );
    assert!(rt; body.bytes.as_slice().starts_with(&[0, 0, 0, 7]));
    Ok(())
}

#[test]
fn columns_are_passed_over(rt: HostRuntime) -> Result<(), Fail> {
    let alloc = rt.alloc();
    let mut n = nodes(alloc, 2)?;
    let mut b = buffers(alloc, &[(0, 8); 5])?;
    assert!(rt; skip(&mut n, &DataType::Utf8, &mut b, MetadataVersion::V5).is_ok());
    assert_eq!(rt; (n.len(), b.len()), (1, 2));
    assert!(rt; skip_boolean(&mut n, &mut b).is_ok());
    assert_eq!(rt; (n.len(), b.len()), (0, 0));
    assert!(rt; skip_boolean(&mut n, &mut b).is_err());
    Ok(())
}

#[test]
fn values_have_names(rt: HostRuntime) -> Result<(), Fail> {
    let alloc = rt.alloc();
    let data = RecordBatch {
        length: 2,
        nodes: Items::new(alloc),
        buffers: Items::new(alloc),
    };
    let values = DictionaryBatch {
        id: 7,
        data,
        is_delta: false,
    };
    assert_eq!(rt; (values.id, values.data.length), (7, 2));
    let mut custom_metadata = Items::new(alloc);
    let key = Text::from_str(alloc, "a")?;
    let value = Text::from_str(alloc, "1")?;
    custom_metadata.push(KeyValue { key, value })?;
    let schema = Schema {
        endianness: Endianness::Little,
        fields: Items::new(alloc),
        custom_metadata,
    };
    let pair = schema.custom_metadata.get(0).ok_or("no pair")?;
    assert_eq!(rt; pair.key.as_str(), "a");
    Ok(())
}
