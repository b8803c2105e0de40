//! Schemas and what stands in them (Schema.fbs).
use crate::types::Type_;
use ipc_format_writing::columnar_memory::{Items, Text};
use ipc_format_writing::messages::{DictionaryKind, Endianness};

/// A pair of custom metadata (Schema.fbs, `KeyValue`).
#[derive(Debug, Drop)]
pub struct KeyValue {
    pub key: Text,
    pub value: Text,
}

/// Whole numbers (Schema.fbs, `Int`).
#[derive(Clone, Copy, Debug, PartialEq, Eq)]
pub struct Int {
    /// How many bits a number has.
    pub bit_width: i32,
    pub is_signed: bool,
}

/// A field's dictionary (Schema.fbs, `DictionaryEncoding`).
#[derive(Clone, Copy, Debug, PartialEq, Eq)]
pub struct DictionaryEncoding {
    /// The id under which its values are sent.
    pub id: i64,
    /// The type of the keys.
    pub index_type: Int,
    /// Whether the order of the keys is that of the values.
    pub is_ordered: bool,
    /// How the values stand.
    pub dictionary_kind: DictionaryKind,
}

/// A field (Schema.fbs, `Field`). Without pairs its custom metadata is absent.
#[derive(Debug, Drop)]
pub struct Field {
    pub name: Text,
    /// Whether a slot may be null.
    pub nullable: bool,
    /// The type, of a dictionary that of its values.
    pub type_: Type_,
    pub dictionary: Option<DictionaryEncoding>,
    /// The fields below the type.
    pub children: Items<Field>,
    pub custom_metadata: Items<KeyValue>,
}

/// A schema (Schema.fbs, `Schema`), without features. Without pairs its custom metadata is absent.
#[derive(Debug, Drop)]
pub struct Schema {
    pub endianness: Endianness,
    pub fields: Items<Field>,
    pub custom_metadata: Items<KeyValue>,
}
