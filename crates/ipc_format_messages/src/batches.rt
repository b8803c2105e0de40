//! Record batches and dictionary batches (Arrow IPC, "RecordBatch message" and "Dictionary Messages"; Message.fbs).
ghost use Rattle.std.specs.Prelude.{◌≡◌};
ghost use Rattle.std.specs.Option.{option_map};
ghost use Rattle.std.specs.Result.{result_ok};
ghost use Rattle.ipc_format_messages.specs.MessageSlots as slots;
ghost use Rattle.ipc_format_messages.specs.MessageViews.{table_view, nodes_view, buffers_view, batch_view, compression_view};

use crate::tables::TableRef;
use crate::vectors::{BuffersRef, FieldNodesRef};
use ipc_format_metadata::Error;
use ipc_format_metadata::sizes::PAIR_SIZE;
use ipc_format_metadata::slots::{
    DICTIONARY_BATCH_DATA, DICTIONARY_BATCH_ID, DICTIONARY_BATCH_IS_DELTA, RECORD_BATCH_BUFFERS,
    RECORD_BATCH_COMPRESSION, RECORD_BATCH_LENGTH, RECORD_BATCH_NODES,
};

/// How the buffers of a record batch are compressed (Message.fbs, `BodyCompression`): that they are is all that is looked at.
#[derive(Clone, Copy, Debug)]
pub struct BodyCompressionRef<'a> {
    pub table: TableRef<'a>,
}

/// A record batch (Message.fbs, `RecordBatch`).
#[derive(Clone, Copy, Debug)]
pub struct RecordBatchRef<'a> {
    pub table: TableRef<'a>,
}

/// The values of a dictionary (Message.fbs, `DictionaryBatch`).
#[derive(Clone, Copy, Debug)]
pub struct DictionaryBatchRef<'a> {
    pub table: TableRef<'a>,
}

impl<'a> RecordBatchRef<'a> {
    /// How many rows the batch states.
    ///
    /// # Errors
    /// - `InvalidFlatbuffer`: the slot breaks a rule of FlatBuffers.
    pub fn length(&self) -> Result<i64, Error>
        ensures { result_ok result ≡ slots.batch_length (table_view self.now.table) }
    {
        self.table.long(RECORD_BATCH_LENGTH)
    }

    /// The nodes, if there are any stated.
    ///
    /// # Errors
    /// - `InvalidFlatbuffer`: the slot breaks a rule of FlatBuffers, or the vector does not stand in the message.
    pub fn nodes(&self) -> Result<Option<FieldNodesRef<'a>>, Error>
        ensures { option_map (option_map nodes_view) (result_ok result) ≡ slots.batch_nodes (table_view self.now.table) }
    {
        let Some(vector) = self.table.vector(RECORD_BATCH_NODES, PAIR_SIZE)? else {
            return Ok(None);
        };
        Ok(Some(FieldNodesRef {
            bytes: self.table.bytes,
            vector,
        }))
    }

    /// The buffers, if there are any stated.
    ///
    /// # Errors
    /// - `InvalidFlatbuffer`: the slot breaks a rule of FlatBuffers, or the vector does not stand in the message.
    pub fn buffers(&self) -> Result<Option<BuffersRef<'a>>, Error>
        ensures { option_map (option_map buffers_view) (result_ok result) ≡ slots.batch_buffers (table_view self.now.table) }
    {
        let Some(vector) = self.table.vector(RECORD_BATCH_BUFFERS, PAIR_SIZE)? else {
            return Ok(None);
        };
        Ok(Some(BuffersRef {
            bytes: self.table.bytes,
            vector,
        }))
    }

    /// How the buffers are compressed, if they are.
    ///
    /// # Errors
    /// - `InvalidFlatbuffer`: the slot breaks a rule of FlatBuffers, or refers to no table.
    pub fn compression(&self) -> Result<Option<BodyCompressionRef<'a>>, Error>
        ensures { option_map (option_map compression_view) (result_ok result) ≡ slots.batch_compression (table_view self.now.table) }
    {
        match self.table.table(RECORD_BATCH_COMPRESSION)? {
            Some(table) => Ok(Some(BodyCompressionRef { table })),
            None => Ok(None),
        }
    }
}

impl<'a> DictionaryBatchRef<'a> {
    /// The dictionary's id.
    ///
    /// # Errors
    /// - `InvalidFlatbuffer`: the slot breaks a rule of FlatBuffers.
    pub fn id(&self) -> Result<i64, Error>
        ensures { result_ok result ≡ slots.dictionary_id (table_view self.now.table) }
    {
        self.table.long(DICTIONARY_BATCH_ID)
    }

    /// The values as a record batch, if they are there.
    ///
    /// # Errors
    /// - `InvalidFlatbuffer`: the slot breaks a rule of FlatBuffers, or refers to no table.
    pub fn data_(&self) -> Result<Option<RecordBatchRef<'a>>, Error>
        ensures { option_map (option_map batch_view) (result_ok result) ≡ slots.dictionary_data (table_view self.now.table) }
    {
        match self.table.table(DICTIONARY_BATCH_DATA)? {
            Some(table) => Ok(Some(RecordBatchRef { table })),
            None => Ok(None),
        }
    }

    /// Whether the values are added to those before.
    ///
    /// # Errors
    /// - `InvalidFlatbuffer`: the slot breaks a rule of FlatBuffers.
    pub fn is_delta(&self) -> Result<bool, Error>
        ensures { result_ok result ≡ slots.dictionary_is_delta (table_view self.now.table) }
    {
        self.table.truth(DICTIONARY_BATCH_IS_DELTA)
    }
}
