//! Fields and what stands beside them (Schema.fbs).
ghost use Rattle.std.specs.Prelude.{◌≡◌};
ghost use Rattle.std.specs.Option.{option_map, option_copied};
ghost use Rattle.std.specs.Result.{result_ok};
ghost use Rattle.ipc_format_messages.specs.MessageViews.{table_view};
ghost use Rattle.ipc_format_messages.specs.SchemaRefs.{fields_view, pairs_view, encoding_view, int_view};
ghost use Rattle.ipc_format_messages.specs.SchemaSlots as slots;
ghost use Rattle.ipc_format_messages.specs.TypeRefs.{type_view};
ghost use Rattle.ipc_format_messages.specs.TypeSlots as types;

use crate::schemas::{FieldsRef, KeyValuesRef};
use crate::tables::TableRef;
use crate::types::{TypeRef, type_of};
use ipc_format_metadata::Error;
use ipc_format_metadata::slots::{
    DICTIONARY_ENCODING_DICTIONARY_KIND, DICTIONARY_ENCODING_ID, DICTIONARY_ENCODING_INDEX_TYPE,
    DICTIONARY_ENCODING_IS_ORDERED, FIELD_CHILDREN, FIELD_CUSTOM_METADATA, FIELD_DICTIONARY,
    FIELD_NAME, FIELD_NULLABLE, FIELD_TYPE, FIELD_TYPE_TYPE, INT_BIT_WIDTH, INT_IS_SIGNED,
    KEY_VALUE_KEY, KEY_VALUE_VALUE,
};

/// A field (Schema.fbs, `Field`).
#[derive(Clone, Copy, Debug)]
pub struct FieldRef<'a> {
    pub table: TableRef<'a>,
}

/// How the values of a field stand in a dictionary (Schema.fbs, `DictionaryEncoding`).
#[derive(Clone, Copy, Debug)]
pub struct DictionaryEncodingRef<'a> {
    pub table: TableRef<'a>,
}

/// How the values of a dictionary stand (Schema.fbs, `DictionaryKind`).
#[derive(Clone, Copy, Debug, PartialEq, Eq)]
pub enum DictionaryKind {
    DenseArray,
}

/// A type of whole numbers (Schema.fbs, `Int`).
#[derive(Clone, Copy, Debug)]
pub struct IntRef<'a> {
    pub table: TableRef<'a>,
}

/// A pair of custom metadata (Schema.fbs, `KeyValue`).
#[derive(Clone, Copy, Debug)]
pub struct KeyValueRef<'a> {
    pub table: TableRef<'a>,
}

impl<'a> FieldRef<'a> {
    /// The name, if there is one.
    ///
    /// # Errors
    /// - `InvalidFlatbuffer`: the slot breaks a rule of FlatBuffers, or the text does not stand in the message or is not UTF-8.
    pub fn name(&self) -> Result<Option<&'a str>, Error>
        ensures { option_map option_copied (result_ok result) ≡ slots.field_name (table_view self.now.table) }
    {
        self.table.text(FIELD_NAME)
    }

    /// Whether slots may be null.
    ///
    /// # Errors
    /// - `InvalidFlatbuffer`: the slot breaks a rule of FlatBuffers.
    pub fn nullable(&self) -> Result<bool, Error>
        ensures { result_ok result ≡ slots.field_is_nullable (table_view self.now.table) }
    {
        self.table.truth(FIELD_NULLABLE)
    }

    /// The type, if it is there.
    ///
    /// # Errors
    /// - `InvalidFlatbuffer`: a slot of the type breaks a rule of FlatBuffers, or its tag is that of no type.
    pub fn type_(&self) -> Result<Option<TypeRef<'a>>, Error>
        ensures { option_map (option_map type_view) (result_ok result) ≡ types.field_type (table_view self.now.table) }
    {
        let number = self.table.byte(FIELD_TYPE_TYPE)?;
        match self.table.table(FIELD_TYPE)? {
            Some(table) => Ok(Some(type_of(number, table).ok_or(Error::InvalidFlatbuffer)?)),
            None => Ok(None),
        }
    }

    /// The dictionary in which the values stand, if there is one.
    ///
    /// # Errors
    /// - `InvalidFlatbuffer`: the slot breaks a rule of FlatBuffers, or refers to no table.
    pub fn dictionary(&self) -> Result<Option<DictionaryEncodingRef<'a>>, Error>
        ensures { option_map (option_map encoding_view) (result_ok result) ≡ slots.field_dictionary (table_view self.now.table) }
    {
        match self.table.table(FIELD_DICTIONARY)? {
            Some(table) => Ok(Some(DictionaryEncodingRef { table })),
            None => Ok(None),
        }
    }

    /// The fields below this one, if they are there.
    ///
    /// # Errors
    /// - `InvalidFlatbuffer`: the slot breaks a rule of FlatBuffers, or the vector does not stand in the message.
    pub fn children(&self) -> Result<Option<FieldsRef<'a>>, Error>
        ensures { option_map (option_map fields_view) (result_ok result) ≡ slots.field_children (table_view self.now.table) }
    {
        match self.table.tables(FIELD_CHILDREN)? {
            Some(tables) => Ok(Some(FieldsRef { tables })),
            None => Ok(None),
        }
    }

    /// The custom metadata, if there is any.
    ///
    /// # Errors
    /// - `InvalidFlatbuffer`: the slot breaks a rule of FlatBuffers, or the vector does not stand in the message.
    pub fn custom_metadata(&self) -> Result<Option<KeyValuesRef<'a>>, Error>
        ensures { option_map (option_map pairs_view) (result_ok result) ≡ slots.field_metadata (table_view self.now.table) }
    {
        match self.table.tables(FIELD_CUSTOM_METADATA)? {
            Some(tables) => Ok(Some(KeyValuesRef { tables })),
            None => Ok(None),
        }
    }
}

impl<'a> DictionaryEncodingRef<'a> {
    /// The dictionary's id.
    ///
    /// # Errors
    /// - `InvalidFlatbuffer`: the slot breaks a rule of FlatBuffers.
    pub fn id(&self) -> Result<i64, Error>
        ensures { result_ok result ≡ slots.encoding_id (table_view self.now.table) }
    {
        self.table.long(DICTIONARY_ENCODING_ID)
    }

    /// The type of the keys, if it is there.
    ///
    /// # Errors
    /// - `InvalidFlatbuffer`: the slot breaks a rule of FlatBuffers, or refers to no table.
    pub fn index_type(&self) -> Result<Option<IntRef<'a>>, Error>
        ensures { option_map (option_map int_view) (result_ok result) ≡ slots.encoding_index_type (table_view self.now.table) }
    {
        match self.table.table(DICTIONARY_ENCODING_INDEX_TYPE)? {
            Some(table) => Ok(Some(IntRef { table })),
            None => Ok(None),
        }
    }

    /// Whether the order of the values means something.
    ///
    /// # Errors
    /// - `InvalidFlatbuffer`: the slot breaks a rule of FlatBuffers.
    pub fn is_ordered(&self) -> Result<bool, Error>
        ensures { result_ok result ≡ slots.encoding_is_ordered (table_view self.now.table) }
    {
        self.table.truth(DICTIONARY_ENCODING_IS_ORDERED)
    }

    /// How the values stand.
    ///
    /// # Errors
    /// - `InvalidFlatbuffer`: the slot breaks a rule of FlatBuffers, or its number names no kind.
    pub fn dictionary_kind(&self) -> Result<DictionaryKind, Error>
        ensures { result_ok result ≡ slots.encoding_kind (table_view self.now.table) }
    {
        match self.table.short(DICTIONARY_ENCODING_DICTIONARY_KIND)? {
            0 => Ok(DictionaryKind::DenseArray),
            _ => Err(Error::InvalidFlatbuffer),
        }
    }
}

impl<'a> IntRef<'a> {
    /// How many bits a number has.
    ///
    /// # Errors
    /// - `InvalidFlatbuffer`: the slot breaks a rule of FlatBuffers.
    pub fn bit_width(&self) -> Result<i32, Error>
        ensures { result_ok result ≡ slots.int_bit_width (table_view self.now.table) }
    {
        self.table.int(INT_BIT_WIDTH)
    }

    /// Whether numbers are signed.
    ///
    /// # Errors
    /// - `InvalidFlatbuffer`: the slot breaks a rule of FlatBuffers.
    pub fn is_signed(&self) -> Result<bool, Error>
        ensures { result_ok result ≡ slots.int_is_signed (table_view self.now.table) }
    {
        self.table.truth(INT_IS_SIGNED)
    }
}

impl<'a> KeyValueRef<'a> {
    /// The key, if there is one.
    ///
    /// # Errors
    /// - `InvalidFlatbuffer`: the slot breaks a rule of FlatBuffers, or the text does not stand in the message or is not UTF-8.
    pub fn key(&self) -> Result<Option<&'a str>, Error>
        ensures { option_map option_copied (result_ok result) ≡ slots.pair_key (table_view self.now.table) }
    {
        self.table.text(KEY_VALUE_KEY)
    }

    /// The value, if there is one.
    ///
    /// # Errors
    /// - `InvalidFlatbuffer`: the slot breaks a rule of FlatBuffers, or the text does not stand in the message or is not UTF-8.
    pub fn value(&self) -> Result<Option<&'a str>, Error>
        ensures { option_map option_copied (result_ok result) ≡ slots.pair_value (table_view self.now.table) }
    {
        self.table.text(KEY_VALUE_VALUE)
    }
}
