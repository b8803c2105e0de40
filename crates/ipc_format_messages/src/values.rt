//! The values that messages and footers hold (Schema.fbs, Message.fbs, File.fbs).
ghost use Rattle.std.specs.Prelude.{◌≡◌};
ghost use Rattle.std.specs.Option.{option_map};
ghost use Rattle.ipc_format_metadata.specs.grammar.Messages as format;
ghost use Rattle.ipc_format_messages.specs.MessageViews.{version_view};

/// A version of Arrow's metadata (Schema.fbs, `MetadataVersion`).
#[derive(Clone, Copy, Debug, PartialEq, Eq)]
pub enum MetadataVersion {
    V1,
    V2,
    V3,
    V4,
    V5,
}

/// How many slots a column of a batch has, and how many of them are null.
#[derive(Clone, Copy, Debug, PartialEq, Eq)]
pub struct FieldNode {
    pub length: i64,
    pub null_count: i64,
}

/// Where a buffer begins in its body, and how many bytes it has.
#[derive(Clone, Copy, Debug, PartialEq, Eq)]
pub struct Buffer {
    pub offset: i64,
    pub length: i64,
}

/// Where a message stands in a file.
#[derive(Clone, Copy, Debug, PartialEq, Eq)]
pub struct Block {
    /// Where the message begins, counted from the file's first byte.
    pub offset: i64,
    /// How many bytes stand before its body.
    pub meta_data_length: i32,
    /// How many bytes its body has.
    pub body_length: i64,
}

/// The version of a number, if it is one of V1 to V5.
pub fn version_of(number: i16) -> Option<MetadataVersion>
    ensures { option_map version_view result ≡ format.version_of number }
{
    match number {
        0 => Some(MetadataVersion::V1),
        1 => Some(MetadataVersion::V2),
        2 => Some(MetadataVersion::V3),
        3 => Some(MetadataVersion::V4),
        4 => Some(MetadataVersion::V5),
        _ => None,
    }
}
