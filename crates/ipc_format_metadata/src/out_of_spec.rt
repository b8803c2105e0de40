ghost use Rattle.std.specs.Prelude.{◌≡◌};
ghost use Rattle.ipc_format_metadata.specs.Names.{IsOutOfSpecBy, name_of};

use crate::error::Error as FormatError;
use ipc_format_grammar::columnar_memory::Error;

/// Why bytes break a rule of the Arrow IPC format. An `InvalidFlatbuffer..` holds why the view of what it names does not answer.
#[derive(Clone, Copy, Debug, PartialEq, Eq)]
pub enum OutOfSpecKind {
    /// A file does not begin with its mark.
    InvalidHeader,
    /// A file does not end with its mark.
    InvalidFooter,
    /// The length of a file's footer is negative.
    NegativeFooterLength,
    InvalidFlatbufferFooter(FormatError),
    /// A footer has no record batches.
    MissingRecordBatches,
    InvalidFlatbufferRecordBatches(FormatError),
    /// A footer has no schema.
    MissingSchema,
    InvalidFlatbufferSchema(FormatError),
    /// A schema has no fields.
    MissingFields,
    InvalidFlatbufferDictionaries(FormatError),
    InvalidFlatbufferBlock(FormatError),
    InvalidFlatbufferMessage(FormatError),
    /// A message has no header.
    MissingMessageHeader,
    InvalidFlatbufferHeader(FormatError),
    /// A place or a length is negative.
    UnexpectedNegativeInteger,
    /// A message of another kind than can stand there.
    UnexpectedMessageType,
    /// A record batch has no buffers.
    MissingMessageBuffers,
    InvalidFlatbufferBuffers(FormatError),
    /// A record batch has no nodes.
    MissingMessageNodes,
    InvalidFlatbufferNodes(FormatError),
    InvalidFlatbufferBodyLength(FormatError),
    /// A dictionary batch has no values.
    MissingData,
    InvalidFlatbufferData(FormatError),
    InvalidFlatbufferVersion(FormatError),
    InvalidFlatbufferCompression(FormatError),
    /// A record batch has too few buffers for its schema.
    ExpectedBuffer,
    /// A buffer has fewer bytes than its elements take.
    InvalidBuffer {
        /// How many elements the batch states.
        length: usize,
        /// The name of their type.
        type_name: &'static str,
        /// How many bytes they take.
        required_number_of_bytes: usize,
        /// How many bytes the buffer has.
        buffer_length: usize,
    },
    /// The buffers of a batch have more bytes than the file.
    InvalidBuffersLength {
        buffers_size: u64,
        file_size: u64,
    },
    /// A bitmap has fewer bits than there are elements.
    InvalidBitmap {
        length: usize,
        number_of_bits: usize,
    },
    InvalidFlatbufferIsDelta(FormatError),
    InvalidFlatbufferId(FormatError),
    /// A dictionary id that no field has.
    InvalidId {
        requested_id: i64,
    },
    /// A dictionary id of a field that is no dictionary.
    InvalidIdDataType {
        requested_id: i64,
    },
    /// A type does not fit what is read as it.
    InvalidDataType,
}

/// A schema's metadata, or what stands in it, breaks a rule of FlatBuffers or of the grammar.
pub const INVALID_SCHEMA: OutOfSpecKind = OutOfSpecKind::InvalidFlatbufferSchema(
    FormatError::InvalidFlatbuffer,
);

impl From<OutOfSpecKind> for Error {
    ghost from_gives = { λ kind error. IsOutOfSpecBy kind error };

    /// The error that says the variant's name.
    fn from(kind: OutOfSpecKind) -> Self {
        Error::OutOfSpec(kind.name())
    }
}

impl OutOfSpecKind {
    /// The variant's name.
    pub fn name(&self) -> &'static str
        ensures { result.now ≡ name_of self.now }
    {
        match self {
            OutOfSpecKind::InvalidHeader => "InvalidHeader",
            OutOfSpecKind::InvalidFooter => "InvalidFooter",
            OutOfSpecKind::NegativeFooterLength => "NegativeFooterLength",
            OutOfSpecKind::InvalidFlatbufferFooter(_) => "InvalidFlatbufferFooter",
            OutOfSpecKind::MissingRecordBatches => "MissingRecordBatches",
            OutOfSpecKind::InvalidFlatbufferRecordBatches(_) => "InvalidFlatbufferRecordBatches",
            OutOfSpecKind::MissingSchema => "MissingSchema",
            OutOfSpecKind::InvalidFlatbufferSchema(_) => "InvalidFlatbufferSchema",
            OutOfSpecKind::MissingFields => "MissingFields",
            OutOfSpecKind::InvalidFlatbufferDictionaries(_) => "InvalidFlatbufferDictionaries",
            OutOfSpecKind::InvalidFlatbufferBlock(_) => "InvalidFlatbufferBlock",
            OutOfSpecKind::InvalidFlatbufferMessage(_) => "InvalidFlatbufferMessage",
            OutOfSpecKind::MissingMessageHeader => "MissingMessageHeader",
            OutOfSpecKind::InvalidFlatbufferHeader(_) => "InvalidFlatbufferHeader",
            OutOfSpecKind::UnexpectedNegativeInteger => "UnexpectedNegativeInteger",
            OutOfSpecKind::UnexpectedMessageType => "UnexpectedMessageType",
            OutOfSpecKind::MissingMessageBuffers => "MissingMessageBuffers",
            OutOfSpecKind::InvalidFlatbufferBuffers(_) => "InvalidFlatbufferBuffers",
            OutOfSpecKind::MissingMessageNodes => "MissingMessageNodes",
            OutOfSpecKind::InvalidFlatbufferNodes(_) => "InvalidFlatbufferNodes",
            OutOfSpecKind::InvalidFlatbufferBodyLength(_) => "InvalidFlatbufferBodyLength",
            OutOfSpecKind::MissingData => "MissingData",
            OutOfSpecKind::InvalidFlatbufferData(_) => "InvalidFlatbufferData",
            OutOfSpecKind::InvalidFlatbufferVersion(_) => "InvalidFlatbufferVersion",
            OutOfSpecKind::InvalidFlatbufferCompression(_) => "InvalidFlatbufferCompression",
            OutOfSpecKind::ExpectedBuffer => "ExpectedBuffer",
            OutOfSpecKind::InvalidBuffer { .. } => "InvalidBuffer",
            OutOfSpecKind::InvalidBuffersLength { .. } => "InvalidBuffersLength",
            OutOfSpecKind::InvalidBitmap { .. } => "InvalidBitmap",
            OutOfSpecKind::InvalidFlatbufferIsDelta(_) => "InvalidFlatbufferIsDelta",
            OutOfSpecKind::InvalidFlatbufferId(_) => "InvalidFlatbufferId",
            OutOfSpecKind::InvalidId { .. } => "InvalidId",
            OutOfSpecKind::InvalidIdDataType { .. } => "InvalidIdDataType",
            OutOfSpecKind::InvalidDataType => "InvalidDataType",
        }
    }
}
