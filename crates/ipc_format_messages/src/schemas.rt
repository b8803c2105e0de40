//! Schemas as a message or a footer has them (Schema.fbs).
ghost use Rattle.std.specs.Prelude.{◌≡◌};
ghost use Rattle.std.specs.Option.{option_map};
ghost use Rattle.std.specs.Result.{result_ok};
ghost use Rattle.ipc_format_metadata.specs.grammar.Schemas as format;
ghost use Rattle.ipc_format_messages.specs.MessageViews.{table_view};
ghost use Rattle.ipc_format_messages.specs.SchemaRefs.{is_little, fields_view, pairs_view, field_view, pair_view};
ghost use Rattle.ipc_format_messages.specs.SchemaSlots as slots;

use crate::fields::{FieldRef, KeyValueRef};
use crate::tables::TableRef;
use crate::vectors::TablesRef;
use ipc_format_metadata::Error;
use ipc_format_metadata::slots::{SCHEMA_CUSTOM_METADATA, SCHEMA_ENDIANNESS, SCHEMA_FIELDS};

/// A schema's table (Schema.fbs, `Schema`).
#[derive(Clone, Copy, Debug)]
pub struct SchemaRef<'a> {
    pub table: TableRef<'a>,
}

/// Which byte of a number stands first (Schema.fbs, `Endianness`).
#[derive(Clone, Copy, Debug, PartialEq, Eq)]
pub enum Endianness {
    Little,
    Big,
}

/// The fields of a schema, or those below a field.
#[derive(Clone, Copy, Debug)]
pub struct FieldsRef<'a> {
    pub tables: TablesRef<'a>,
}

/// Pairs of custom metadata.
#[derive(Clone, Copy, Debug)]
pub struct KeyValuesRef<'a> {
    pub tables: TablesRef<'a>,
}

/// The order of a number, if it is that of one.
fn endianness_of(number: i16) -> Option<Endianness>
    ensures { option_map is_little result ≡ format.is_little_of number }
{
    match number {
        0 => Some(Endianness::Little),
        1 => Some(Endianness::Big),
        _ => None,
    }
}

impl<'a> SchemaRef<'a> {
    /// Which byte of a number stands first.
    ///
    /// # Errors
    /// - `InvalidFlatbuffer`: the slot breaks a rule of FlatBuffers, or its number is neither 0 nor 1.
    pub fn endianness(&self) -> Result<Endianness, Error>
        ensures { option_map is_little (result_ok result) ≡ slots.schema_is_little (table_view self.now.table) }
    {
        let number = self.table.short(SCHEMA_ENDIANNESS)?;
        endianness_of(number).ok_or(Error::InvalidFlatbuffer)
    }

    /// The fields, if they are there.
    ///
    /// # Errors
    /// - `InvalidFlatbuffer`: the slot breaks a rule of FlatBuffers, or the vector does not stand in the message.
    pub fn fields(&self) -> Result<Option<FieldsRef<'a>>, Error>
        ensures { option_map (option_map fields_view) (result_ok result) ≡ slots.schema_fields (table_view self.now.table) }
    {
        match self.table.tables(SCHEMA_FIELDS)? {
            Some(tables) => Ok(Some(FieldsRef { tables })),
            None => Ok(None),
        }
    }

    /// The custom metadata, if there is any.
    ///
    /// # Errors
    /// - `InvalidFlatbuffer`: the slot breaks a rule of FlatBuffers, or the vector does not stand in the message.
    pub fn custom_metadata(&self) -> Result<Option<KeyValuesRef<'a>>, Error>
        ensures { option_map (option_map pairs_view) (result_ok result) ≡ slots.schema_metadata (table_view self.now.table) }
    {
        match self.table.tables(SCHEMA_CUSTOM_METADATA)? {
            Some(tables) => Ok(Some(KeyValuesRef { tables })),
            None => Ok(None),
        }
    }
}

impl<'a> FieldsRef<'a> {
    /// Field `k`, where there are so many.
    ///
    /// # Errors
    /// - `InvalidFlatbuffer`: no table stands where the reference points.
    pub fn get(&self, k: usize) -> Result<Option<FieldRef<'a>>, Error>
        ensures { option_map (option_map field_view) (result_ok result) ≡ slots.element_in (fields_view self.now) k }
    {
        match self.tables.get(k)? {
            Some(table) => Ok(Some(FieldRef { table })),
            None => Ok(None),
        }
    }
}

impl<'a> KeyValuesRef<'a> {
    /// Pair `k`, where there are so many.
    ///
    /// # Errors
    /// - `InvalidFlatbuffer`: no table stands where the reference points.
    pub fn get(&self, k: usize) -> Result<Option<KeyValueRef<'a>>, Error>
        ensures { option_map (option_map pair_view) (result_ok result) ≡ slots.element_in (pairs_view self.now) k }
    {
        match self.tables.get(k)? {
            Some(table) => Ok(Some(KeyValueRef { table })),
            None => Ok(None),
        }
    }
}
