//! What a stream says before its batches.
use ipc_format_reading::MetadataVersion;
use ipc_format_reading::columnar_memory::Error;
use ipc_format_reading::streams::read_stream_metadata;
use std::test::*;

/// The metadata of the message of a schema without fields.
const NO_FIELDS: [u8; 88] = [
    24, 0, 0, 0, 0, 0, 0, 0, 14, 0, 24, 0, 4, 0, 6, 0, 8, 0, 16, 0, 0, 0, 0, 0, 16, 0, 0, 0, 4, 0,
    1, 0, 32, 0, 0, 0, 0, 0, 0, 0, 0, 0, 0, 0, 0, 0, 0, 0, 12, 0, 12, 0, 4, 0, 8, 0, 0, 0, 0, 0, 0,
    0, 0, 0, 16, 0, 0, 0, 0, 0, 0, 0, 12, 0, 0, 0, 0, 0, 0, 0, 0, 0, 0, 0, 0, 0, 0, 0,
];

/// The stream of a schema without fields.
pub(crate) fn stream() -> [u8; 104] {
    let mut bytes = [255; 104];
    bytes[4..8].copy_from_slice(&[88, 0, 0, 0]);
    bytes[8..96].copy_from_slice(&NO_FIELDS);
    bytes[100..].copy_from_slice(&[0; 4]);
    bytes
}

#[test]
fn a_schema_without_fields(rt: HostRuntime) -> Result<(), Fail> {
    let bytes = stream();
    let mut rest = &bytes[..];
    let metadata = read_stream_metadata(rt.alloc(), &mut rest)
        .ok()
        .ok_or("refused")?;
    assert_eq!(rt; metadata.version, MetadataVersion::V5);
    assert_eq!(rt; metadata.schema.fields.len(), 0);
    assert!(rt; metadata.ipc_schema.is_little_endian);
    assert_eq!(rt; rest, &[255, 255, 255, 255, 0, 0, 0, 0][..]);
    let copied = metadata.clone()?;
    assert!(rt; copied.schema == metadata.schema && copied.ipc_schema == metadata.ipc_schema);
    Ok(())
}

#[test]
fn fewer_than_four_bytes(rt: HostRuntime) -> Result<(), Fail> {
    let bytes = stream();
    let mut rest = &bytes[..3];
    let refused = read_stream_metadata(rt.alloc(), &mut rest).err();
    assert!(rt; matches!(refused, Some(Error::OutOfSpec(_))));
    Ok(())
}
