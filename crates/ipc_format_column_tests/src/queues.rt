//! Nodes and buffers of a batch.
use crate::cases::node;
use ipc_format_reading::columnar_memory::Error;
use ipc_format_reading::{Buffer, MessageHeaderRef, batch_queues, message_in};
use std::test::*;

/// A message with a batch of one node, (2, 1), and two buffers, (0, 1) and (8, 8).
const MESSAGE: [u8; 152] = [
    24, 0, 0, 0, 0, 0, 0, 0, 14, 0, 24, 0, 4, 0, 6, 0, 8, 0, 16, 0, 0, 0, 0, 0, 16, 0, 0, 0, 4, 0,
    3, 0, 32, 0, 0, 0, 0, 0, 0, 0, 64, 0, 0, 0, 0, 0, 0, 0, 12, 0, 24, 0, 8, 0, 16, 0, 20, 0, 0, 0,
    0, 0, 0, 0, 16, 0, 0, 0, 0, 0, 0, 0, 2, 0, 0, 0, 0, 0, 0, 0, 12, 0, 0, 0, 32, 0, 0, 0, 0, 0, 0,
    0, 1, 0, 0, 0, 2, 0, 0, 0, 0, 0, 0, 0, 1, 0, 0, 0, 0, 0, 0, 0, 0, 0, 0, 0, 2, 0, 0, 0, 0, 0, 0,
    0, 0, 0, 0, 0, 1, 0, 0, 0, 0, 0, 0, 0, 8, 0, 0, 0, 0, 0, 0, 0, 8, 0, 0, 0, 0, 0, 0, 0,
];

#[test]
fn nodes_and_buffers_in_order(rt: HostRuntime) -> Result<(), Fail> {
    let message = message_in(&MESSAGE).ok_or("no message")?;
    let MessageHeaderRef::RecordBatch(batch) = message.header else {
        return Err(Fail::from("no batch"));
    };
    let mut queues = batch_queues(rt.alloc(), &batch, 9).ok().ok_or("refused")?;
    let first = Buffer {
        offset: 0,
        length: 1,
    };
    let second = Buffer {
        offset: 8,
        length: 8,
    };
    assert_eq!(rt; queues.field_nodes.pop_front(), Some(node(2, 1)));
    assert_eq!(rt; queues.field_nodes.pop_front(), None);
    assert_eq!(rt; queues.buffers.pop_front(), Some(first));
    assert_eq!(rt; queues.buffers.pop_front(), Some(second));
    assert_eq!(rt; queues.buffers.pop_front(), None);
    Ok(())
}

#[test]
fn buffers_longer_than_the_room(rt: HostRuntime) -> Result<(), Fail> {
    let message = message_in(&MESSAGE).ok_or("no message")?;
    let MessageHeaderRef::RecordBatch(batch) = message.header else {
        return Err(Fail::from("no batch"));
    };
    let refused = batch_queues(rt.alloc(), &batch, 8).err();
    assert!(rt; matches!(refused, Some(Error::OutOfSpec(_))));
    Ok(())
}
