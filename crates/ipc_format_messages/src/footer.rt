//! The footer of a file (Arrow IPC, "IPC File Format"; File.fbs).
ghost use Rattle.std.specs.Prelude.{◌≡◌};
ghost use Rattle.std.specs.Option.{option_map};
ghost use Rattle.std.specs.Result.{result_ok};
ghost use Rattle.ipc_format_messages.specs.MessageSlots as slots;
ghost use Rattle.ipc_format_messages.specs.MessageViews.{table_view, footer_view, version_view, schema_view, blocks_view};

use crate::schemas::SchemaRef;
use crate::tables::TableRef;
use crate::values::{MetadataVersion, version_of};
use crate::vectors::BlocksRef;
use ipc_format_metadata::Error;
use ipc_format_metadata::sizes::BLOCK_SIZE;
use ipc_format_metadata::slots::{
    FOOTER_DICTIONARIES, FOOTER_RECORD_BATCHES, FOOTER_SCHEMA, FOOTER_VERSION,
};

/// A file's footer (File.fbs, `Footer`).
#[derive(Clone, Copy, Debug)]
pub struct FooterRef<'a> {
    pub table: TableRef<'a>,
}

impl<'a> FooterRef<'a> {
    /// The footer of its bytes.
    ///
    /// # Errors
    /// - `InvalidFlatbuffer`: no table stands at the root's place.
    pub fn read_as_root(bytes: &'a [u8]) -> Result<FooterRef<'a>, Error>
        ensures { option_map footer_view (result_ok result) ≡ slots.root_in bytes.now }
    {
        let table = TableRef::read_as_root(bytes)?;
        Ok(FooterRef { table })
    }

    /// The version of the metadata.
    ///
    /// # Errors
    /// - `InvalidFlatbuffer`: the slot breaks a rule of FlatBuffers, or its number is none of V1 to V5.
    pub fn version(&self) -> Result<MetadataVersion, Error>
        ensures { option_map version_view (result_ok result) ≡ slots.footer_version (table_view self.now.table) }
    {
        let number = self.table.short(FOOTER_VERSION)?;
        version_of(number).ok_or(Error::InvalidFlatbuffer)
    }

    /// The schema, if it is there.
    ///
    /// # Errors
    /// - `InvalidFlatbuffer`: the slot breaks a rule of FlatBuffers, or refers to no table.
    pub fn schema(&self) -> Result<Option<SchemaRef<'a>>, Error>
        ensures { option_map (option_map schema_view) (result_ok result) ≡ slots.footer_schema (table_view self.now.table) }
    {
        match self.table.table(FOOTER_SCHEMA)? {
            Some(table) => Ok(Some(SchemaRef { table })),
            None => Ok(None),
        }
    }

    /// Where the messages of dictionaries stand, if any are stated.
    ///
    /// # Errors
    /// - `InvalidFlatbuffer`: the slot breaks a rule of FlatBuffers, or the vector does not stand in the footer.
    pub fn dictionaries(&self) -> Result<Option<BlocksRef<'a>>, Error>
        ensures { option_map (option_map blocks_view) (result_ok result) ≡ slots.footer_dictionaries (table_view self.now.table) }
    {
        let Some(vector) = self.table.vector(FOOTER_DICTIONARIES, BLOCK_SIZE)? else {
            return Ok(None);
        };
        Ok(Some(BlocksRef {
            bytes: self.table.bytes,
            vector,
        }))
    }

    /// Where the messages of record batches stand, if any are stated.
    ///
    /// # Errors
    /// - `InvalidFlatbuffer`: the slot breaks a rule of FlatBuffers, or the vector does not stand in the footer.
    pub fn record_batches(&self) -> Result<Option<BlocksRef<'a>>, Error>
        ensures { option_map (option_map blocks_view) (result_ok result) ≡ slots.footer_record_batches (table_view self.now.table) }
    {
        let Some(vector) = self.table.vector(FOOTER_RECORD_BATCHES, BLOCK_SIZE)? else {
            return Ok(None);
        };
        Ok(Some(BlocksRef {
            bytes: self.table.bytes,
            vector,
        }))
    }
}
