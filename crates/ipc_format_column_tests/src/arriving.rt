//! Messages of a stream as their bytes arrive, and as they are written.
ghost use Rattle.std.specs.Prelude.{◌<◌, length};

use crate::streams::stream;
use ipc_format_reading::streams::{
    EncodedData, Incoming, next_message, write_continuation, write_message,
};
use std::alloc::Global;
use std::io;
use std::io::Read;
use std::test::*;

/// A device that pauses once, behind its first bytes.
#[derive(Drop)]
struct Pausing {
    bytes: [u8; 104],
    place: usize,
    end: usize,
}

impl Read for Pausing {
    fn read(&mut self, buffer: &mut [u8]) -> io::Result<usize> {
        let end = self.end.min(self.bytes.len());
        if self.place >= end {
            self.end = self.bytes.len();
            return Ok(0);
        }
        let count = buffer.len().min(end - self.place);
        buffer[..count].copy_from_slice(&self.bytes[self.place..self.place + count]);
        self.place += count;
        Ok(count)
    }
}

/// What comes next, and how many bytes of metadata and of a body there are then.
fn next_of<R: Read>(
    alloc: Global,
    reader: &mut R,
    held: &mut Vec<u8>,
) -> (Option<Incoming>, usize, usize)
    requires { length held.old.items < 4 }
    ensures { length held.new.items < 4 }
{
    let mut metadata = Vec::new(alloc);
    let mut body = Vec::new(alloc);
    let found = next_message(reader, held, &mut metadata, &mut body).ok();
    (found, metadata.len(), body.len())
}

#[test]
fn a_reader_waits_and_goes_on(rt: HostRuntime) -> Result<(), Fail> {
    let mut device = Pausing {
        bytes: stream(),
        place: 0,
        end: 3,
    };
    let mut held = Vec::new(rt.alloc());
    let first = next_of(rt.alloc(), &mut device, &mut held);
    let second = next_of(rt.alloc(), &mut device, &mut held);
    let third = next_of(rt.alloc(), &mut device, &mut held);
    assert_eq!(rt; first, (Some(Incoming::Waiting), 0, 0));
    assert_eq!(rt; second, (Some(Incoming::Message), 88, 0));
    assert_eq!(rt; third.0, Some(Incoming::End));
    Ok(())
}

#[test]
fn an_encoded_message_is_padded(rt: HostRuntime) -> Result<(), Fail> {
    let mut encoded = EncodedData::new(rt.alloc());
    encoded.ipc_message.extend_from_slice(&[1, 2, 3])?;
    encoded.arrow_data.extend_from_slice(&[9; 70])?;
    let mut bytes = Vec::new(rt.alloc());
    let sizes = write_message(&mut bytes, &encoded).ok();
    let ended = write_continuation(&mut bytes, 0).ok();
    drop(encoded);
    let mut want = [0; 152];
    want[..11].copy_from_slice(&[255, 255, 255, 255, 8, 0, 0, 0, 1, 2, 3]);
    want[16..86].copy_from_slice(&[9; 70]);
    want[144..148].copy_from_slice(&[255; 4]);
    let is_so = bytes.as_slice() == want.as_slice();
    drop(bytes);
    assert_eq!(rt; sizes, Some((16, 128)));
    assert_eq!(rt; ended, Some(8));
    assert_eq!(rt; is_so, true);
    Ok(())
}
