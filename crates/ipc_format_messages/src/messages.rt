//! Messages (Arrow IPC, "Encapsulated message format"; Message.fbs).
ghost use Rattle.std.specs.Prelude.{◌≡◌};
ghost use Rattle.std.specs.Option.{option_map};
ghost use Rattle.std.specs.Result.{result_ok};
ghost use Rattle.ipc_format_messages.specs.MessageSlots as slots;
ghost use Rattle.ipc_format_messages.specs.MessageViews.{table_view, message_view, header_view, version_view};

use crate::batches::{DictionaryBatchRef, RecordBatchRef};
use crate::schemas::SchemaRef;
use crate::tables::TableRef;
use crate::values::{MetadataVersion, version_of};
use ipc_format_metadata::Error;
use ipc_format_metadata::slots::{
    MESSAGE_BODY_LENGTH, MESSAGE_HEADER, MESSAGE_HEADER_TYPE, MESSAGE_VERSION,
};
use ipc_format_metadata::tag_numbers::{
    DICTIONARY_BATCH_HEADER, RECORD_BATCH_HEADER, SCHEMA_HEADER,
};

/// A message's metadata (Message.fbs, `Message`).
#[derive(Clone, Copy, Debug)]
pub struct MessageRef<'a> {
    pub table: TableRef<'a>,
}

/// What a message carries (Message.fbs, union `MessageHeader`). Tensors are not read.
#[derive(Clone, Copy, Debug)]
pub enum MessageHeaderRef<'a> {
    Schema(SchemaRef<'a>),
    DictionaryBatch(DictionaryBatchRef<'a>),
    RecordBatch(RecordBatchRef<'a>),
}

/// The header of a kind, if it is one of those that are read.
pub fn header_of<'a>(kind: u8, table: TableRef<'a>) -> Option<MessageHeaderRef<'a>>
    ensures { option_map header_view result ≡ slots.header_of kind (table_view table.entry) }
{
    match kind {
        SCHEMA_HEADER => Some(MessageHeaderRef::Schema(SchemaRef { table })),
        DICTIONARY_BATCH_HEADER => {
            Some(MessageHeaderRef::DictionaryBatch(DictionaryBatchRef { table }))
        }
        RECORD_BATCH_HEADER => Some(MessageHeaderRef::RecordBatch(RecordBatchRef { table })),
        _ => None,
    }
}

impl<'a> MessageRef<'a> {
    /// The message of some metadata.
    ///
    /// # Errors
    /// - `InvalidFlatbuffer`: no table stands at the root's place.
    pub fn read_as_root(bytes: &'a [u8]) -> Result<MessageRef<'a>, Error>
        ensures { option_map message_view (result_ok result) ≡ slots.root_in bytes.now }
    {
        let table = TableRef::read_as_root(bytes)?;
        Ok(MessageRef { table })
    }

    /// The version of the metadata.
    ///
    /// # Errors
    /// - `InvalidFlatbuffer`: the slot breaks a rule of FlatBuffers, or its number is none of V1 to V5.
    pub fn version(&self) -> Result<MetadataVersion, Error>
        ensures { option_map version_view (result_ok result) ≡ slots.message_version (table_view self.now.table) }
    {
        let number = self.table.short(MESSAGE_VERSION)?;
        version_of(number).ok_or(Error::InvalidFlatbuffer)
    }

    /// What the message carries, if it carries anything.
    ///
    /// # Errors
    /// - `InvalidFlatbuffer`: a slot of the header breaks a rule of FlatBuffers, or it is neither a schema nor a batch.
    pub fn header(&self) -> Result<Option<MessageHeaderRef<'a>>, Error>
        ensures { option_map (option_map header_view) (result_ok result) ≡ slots.message_header (table_view self.now.table) }
    {
        let kind = self.table.byte(MESSAGE_HEADER_TYPE)?;
        let Some(table) = self.table.table(MESSAGE_HEADER)? else {
            return Ok(None);
        };
        match header_of(kind, table) {
            Some(header) => Ok(Some(header)),
            None => Err(Error::InvalidFlatbuffer),
        }
    }

    /// How many bytes the message's body has, as it states.
    ///
    /// # Errors
    /// - `InvalidFlatbuffer`: the slot breaks a rule of FlatBuffers.
    pub fn body_length(&self) -> Result<i64, Error>
        ensures { result_ok result ≡ slots.message_body_length (table_view self.now.table) }
    {
        self.table.long(MESSAGE_BODY_LENGTH)
    }
}
