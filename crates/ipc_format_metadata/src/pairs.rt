//! What stands beside a field's type: custom metadata, its extension, and its dictionary (Schema.fbs).
ghost use Rattle.std.specs.Prelude.{◌≡◌, IfOk, OnOk, ◌<◌, ◌+◌, ◌*◌, ◌≤◌, length};
ghost use Rattle.std.specs.Option.{option_map, option_copied};
ghost use Rattle.ipc_format_grammar.specs.Schemas as format;
ghost use Rattle.ipc_format_grammar.specs.flatbuffers.Views.{table_of, vector_of};
ghost use Rattle.ipc_format_metadata.specs.Reading.{Reads};
ghost use Rattle.ipc_format_metadata.specs.FieldViews.{encoding_view, encoded_view};
ghost use Rattle.ipc_format_metadata.specs.Parts as parts;

use crate::out_of_spec::INVALID_SCHEMA;
use crate::sizes::REFERENCE_SIZE;
use crate::slots::{
    DICTIONARY_ENCODING_ID, DICTIONARY_ENCODING_INDEX_TYPE, DICTIONARY_ENCODING_IS_ORDERED,
    KEY_VALUE_KEY, KEY_VALUE_VALUE,
};
use crate::types::integer_in;
use ipc_format_grammar::columnar_memory::{
    Boxed, DataType, Error, IntegerType, Metadata, Result, Text, get_extension,
};
use ipc_format_grammar::flatbuffers::{
    Table, Vector, element_at, i64_field, string_field, table_field, truth_field, vector_field,
};
use std::alloc::{AllocError, Global};
use std::result;

/// The pair at place `k` of a vector of KeyValue tables.
fn pair_at<'a>(
    bytes: &'a [u8],
    vector: &Vector,
    k: usize,
) -> Option<(Option<&'a str>, Option<&'a str>)>
    requires k_in { k < vector.now.count }
    requires in_message { vector.now.place + vector.now.count * 4 ≤ length bytes.now }
    ensures { option_map (λ p. (option_copied p.0, option_copied p.1)) result ≡ parts.pair_in bytes.now (vector_of vector.now) k }
{
    let pair = element_at(bytes, vector, k)?;
    let key = string_field(bytes, &pair, KEY_VALUE_KEY)?;
    let value = string_field(bytes, &pair, KEY_VALUE_VALUE)?;
    Some((key, value))
}

/// The custom metadata to which a slot of a table refers: of a repeated key the last pair, and none without key or value.
///
/// # Errors
/// - `OutOfSpec`: the bytes are no vector of such pairs.
/// - `OutOfMemory`: there was no memory for the pairs.
#[tactic(auto, unfolding(ipc_format_grammar::specs::Schemas::metadata_in))]
pub fn metadata_in(alloc: Global, bytes: &[u8], table: &Table, slot: u8) -> Result<Metadata>
    ensures { Reads (λ pairs. pairs) ⊥ result (format.metadata_in bytes.now (table_of table.now) slot) }
{
    let mut pairs = Metadata::new(alloc);
    let Some(vector) = vector_field(bytes, table, slot, REFERENCE_SIZE) else {
        return Err(Error::OutOfSpec(INVALID_SCHEMA.name()));
    };
    let Some(vector) = vector else {
        return Ok(pairs);
    };
    for k in 0..vector.count {
        let Some((key, value)) = pair_at(bytes, &vector, k) else {
            return Err(Error::OutOfSpec(INVALID_SCHEMA.name()));
        };
        put_found(alloc, &mut pairs, key, value)?;
    }
    Ok(pairs)
}

/// Puts a pair among others, where it has a key and a value.
fn put_found(
    alloc: Global,
    pairs: &mut Metadata,
    key: Option<&str>,
    value: Option<&str>,
) -> result::Result<(), AllocError>
    ensures { OnOk result (pairs.new ≡ format.with_found pairs.old (option_copied key.entry) (option_copied value.entry)) }
{
    if let (Some(key), Some(value)) = (key, value) {
        pairs.insert(Text::from_str(alloc, key)?, Text::from_str(alloc, value)?)?;
    }
    Ok(())
}

/// The type as the extension that the metadata of its field names, if it names one.
pub fn extended(
    alloc: Global,
    metadata: &Metadata,
    data_type: DataType,
) -> result::Result<DataType, AllocError>
    ensures { IfOk result (λ found. found ≡ format.extended metadata.now data_type) }
{
    match get_extension(metadata) {
        Some((name, more)) => {
            let name = name.clone()?;
            let more = match more {
                Some(more) => Some(more.clone()?),
                None => None,
            };
            Ok(DataType::Extension(name, Boxed::new(alloc, data_type)?, more))
        }
        None => Ok(data_type),
    }
}

/// A dictionary's id, the type of its keys, and whether its values are ordered.
#[derive(Clone, Copy, Debug)]
pub struct Encoding {
    pub id: i64,
    pub keys: IntegerType,
    pub is_ordered: bool,
}

/// The encoding of a DictionaryEncoding table. Its kind is not looked at.
fn encoding_in(bytes: &[u8], table: &Table) -> Option<Encoding>
    ensures { option_map encoding_view result ≡ parts.encoding_in bytes.now (table_of table.now) }
{
    let id = i64_field(bytes, table, DICTIONARY_ENCODING_ID, 0)?;
    let keys = table_field(bytes, table, DICTIONARY_ENCODING_INDEX_TYPE)??;
    let keys = integer_in(bytes, &keys)?;
    let is_ordered = truth_field(bytes, table, DICTIONARY_ENCODING_IS_ORDERED)?;
    Some(Encoding {
        id,
        keys,
        is_ordered,
    })
}

/// A type, as a dictionary where its field has one, and that one's id.
#[derive(Debug, Drop)]
pub struct Encoded {
    pub data_type: DataType,
    pub id: Option<i64>,
}

/// The type as the values of its field's dictionary, if the field has one.
///
/// # Errors
/// - `OutOfSpec`: the table is no encoding of a dictionary.
/// - `OutOfMemory`: there was no memory for the type.
pub fn encoded_by(
    alloc: Global,
    bytes: &[u8],
    dictionary: &Option<Table>,
    data_type: DataType,
) -> Result<Encoded>
    ensures { Reads encoded_view ⊥ result (format.encoded_by bytes.now (option_map table_of dictionary.now) data_type) }
{
    let Some(table) = dictionary else {
        return Ok(Encoded {
            data_type,
            id: None,
        });
    };
    let Some(encoding) = encoding_in(bytes, table) else {
        return Err(Error::OutOfSpec(INVALID_SCHEMA.name()));
    };
    let values = Boxed::new(alloc, data_type)?;
    Ok(Encoded {
        data_type: DataType::Dictionary(encoding.keys, values, encoding.is_ordered),
        id: Some(encoding.id),
    })
}
