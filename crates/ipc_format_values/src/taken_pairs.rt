//! Pairs, whole numbers and dictionaries, taken of their views (Schema.fbs).
ghost use Rattle.std.specs.Prelude.{◌≡◌, ◌++◌, IfOk, OnOk, false};
ghost use Rattle.std.specs.Option.{option_map};
ghost use Rattle.std.specs.Result.{result_ok};
ghost use Rattle.ipc_format_writing.specs.messages.SchemaRefs.{pair_view, pairs_view, int_view, encoding_view};
ghost use Rattle.ipc_format_values.specs.Owned as owned;
ghost use Rattle.ipc_format_values.specs.OwnedFields as fields;
ghost use Rattle.ipc_format_values.specs.Taken.{Takes};

use crate::taken::taken;
use crate::{DictionaryEncoding, Int, KeyValue};
use ipc_format_writing::columnar_memory::{Items, Result as Answer, Text};
use ipc_format_writing::messages::{
    DictionaryEncodingRef, Error, IntRef, KeyValueRef, KeyValuesRef,
};
use std::alloc::{AllocError, Global};

/// A pair, if it has a key and a value; nothing where the view refuses.
fn pair_in(alloc: Global, pair: &KeyValueRef<'_>) -> Result<Option<Option<KeyValue>>, AllocError>
    ensures { IfOk result (λ found. found ≡ owned.pair_in (pair_view pair.now)) }
{
    let Ok(key) = pair.key() else {
        return Ok(None);
    };
    let Ok(value) = pair.value() else {
        return Ok(None);
    };
    match (key, value) {
        (Some(key), Some(value)) => {
            let key = Text::from_str(alloc, key)?;
            let value = Text::from_str(alloc, value)?;
            Ok(Some(Some(KeyValue { key, value })))
        }
        _ => Ok(Some(None)),
    }
}

/// Pair `k` of a vector, if it has a key and a value; nothing where the views refuse.
fn pair_at(
    alloc: Global,
    pairs: &KeyValuesRef<'_>,
    k: usize,
) -> Result<Option<Option<KeyValue>>, AllocError>
    ensures { IfOk result (λ found. option_map owned.kept found ≡ owned.kept_at (pairs_view pairs.now) k) }
{
    match pairs.get(k) {
        Ok(Some(pair)) => pair_in(alloc, &pair),
        Ok(None) | Err(_) => Ok(None),
    }
}

/// Puts a pair behind others, if there is one.
fn put(pairs: &mut Items<KeyValue>, found: Option<KeyValue>) -> Result<(), AllocError>
    ensures { OnOk result (pairs.new ≡ pairs.old ++ owned.kept found) }
{
    if let Some(pair) = found {
        pairs.push(pair)?;
    }
    Ok(())
}

/// The pairs of a vector that have a key and a value.
fn pairs_of_vector(
    alloc: Global,
    pairs: &KeyValuesRef<'_>,
) -> Result<Option<Items<KeyValue>>, AllocError>
    ensures { IfOk result (λ found. found ≡ owned.pairs_of (pairs_view pairs.now)) }
{
    let mut made = Items::new(alloc);
    for k in 0..pairs.tables.vector.count {
        let Some(found) = pair_at(alloc, pairs, k)? else {
            return Ok(None);
        };
        put(&mut made, found)?;
    }
    Ok(Some(made))
}

/// Custom metadata, which is empty where it is absent.
pub fn pairs_in(
    alloc: Global,
    pairs: &Option<KeyValuesRef<'_>>,
) -> Result<Option<Items<KeyValue>>, AllocError>
    ensures { IfOk result (λ found. found ≡ owned.pairs_in (option_map pairs_view pairs.now)) }
{
    match pairs {
        Some(pairs) => pairs_of_vector(alloc, pairs),
        None => Ok(Some(Items::new(alloc))),
    }
}

/// The pair of a view.
///
/// # Errors
/// - `OutOfSpec`: the view refuses a slot, or the key or the value is absent.
/// - `OutOfMemory`: there was no memory for the texts.
pub fn key_value_of(alloc: Global, pair: KeyValueRef<'_>) -> Answer<KeyValue>
    ensures { Takes false result (owned.key_value_in (pair_view pair.entry)) }
{
    let found = pair_in(alloc, &pair)?;
    taken(found.flatten(), false)
}

/// The whole numbers of a view. It takes no memory.
///
/// # Errors
/// - `InvalidFlatbuffer`: the view refuses a slot.
pub fn int_of(int: IntRef<'_>) -> Result<Int, Error>
    ensures { result_ok result ≡ owned.int_in (int_view int.entry) }
{
    let bit_width = int.bit_width()?;
    let is_signed = int.is_signed()?;
    Ok(Int {
        bit_width,
        is_signed,
    })
}

/// The dictionary of a view. It takes no memory.
///
/// # Errors
/// - `InvalidFlatbuffer`: the view refuses a slot, or the type of the keys is absent.
pub fn dictionary_encoding_of(
    encoding: DictionaryEncodingRef<'_>,
) -> Result<DictionaryEncoding, Error>
    ensures { result_ok result ≡ fields.encoding_in (encoding_view encoding.entry) }
{
    let id = encoding.id()?;
    let Some(index_type) = encoding.index_type()? else {
        return Err(Error::InvalidFlatbuffer);
    };
    let index_type = int_of(index_type)?;
    let is_ordered = encoding.is_ordered()?;
    let dictionary_kind = encoding.dictionary_kind()?;
    Ok(DictionaryEncoding {
        id,
        index_type,
        is_ordered,
        dictionary_kind,
    })
}

/// The dictionary of a view, if there is one.
pub fn encoding_if(
    encoding: &Option<DictionaryEncodingRef<'_>>,
) -> Result<Option<DictionaryEncoding>, Error>
    ensures { result_ok result ≡ fields.encoding_if (option_map encoding_view encoding.now) }
{
    match encoding {
        Some(encoding) => Ok(Some(dictionary_encoding_of(*encoding)?)),
        None => Ok(None),
    }
}
