//! Pairs of custom metadata (Schema.fbs, `KeyValue`).
ghost use Rattle.std.specs.Prelude.{◌≡◌, IfOk, map};
ghost use Rattle.ipc_format_writing.specs.grammar.SchemaObjects.{extension_pairs, written_pairs};
ghost use Rattle.ipc_format_writing.specs.Pieces.{extension_view, is_kept};
ghost use Rattle.ipc_format_values.specs.ValueObjects.{pair_view};

use crate::fields::KeyValue;
use ipc_format_writing::Named;
use ipc_format_writing::columnar_memory::{
    EXTENSION_METADATA, EXTENSION_NAME, Items, Metadata, Text,
};
use std::alloc::{AllocError, Global};

fn pair_of(alloc: Global, key: &str, value: &str) -> Result<KeyValue, AllocError>
    ensures { IfOk result (λ pair. pair_view pair ≡ (key.now, value.now)) }
{
    let key = Text::from_str(alloc, key)?;
    let value = Text::from_str(alloc, value)?;
    Ok(KeyValue { key, value })
}

/// The pairs of an extension type, if the type is one: its metadata, if it has any, and then its name.
fn own_pairs(alloc: Global, extension: Option<Named<'_>>) -> Result<Items<KeyValue>, AllocError>
    ensures { IfOk result (λ pairs. map pair_view pairs ≡ extension_pairs (extension_view extension.entry)) }
{
    let mut pairs = Items::new(alloc);
    let Some(named) = extension else {
        return Ok(pairs);
    };
    if let Some(metadata) = named.metadata {
        pairs.push(pair_of(alloc, EXTENSION_METADATA, metadata.as_str())?)?;
    }
    pairs.push(pair_of(alloc, EXTENSION_NAME, named.name.as_str())?)?;
    Ok(pairs)
}

/// Whether a key is none of those of an extension.
fn is_other(key: &str, value: &str) -> bool
    ensures { result ≡ is_kept (key.now, value.now) }
{
    EXTENSION_NAME != key && EXTENSION_METADATA != key
}

/// All pairs in the order of their keys.
pub fn pairs_of(alloc: Global, pairs: &Metadata) -> Result<Items<KeyValue>, AllocError>
    ensures { IfOk result (λ made. map pair_view made ≡ pairs.now) }
{
    let mut made = Items::new(alloc);
    for (key, value) in pairs.iter() {
        made.push(pair_of(alloc, key.as_str(), value.as_str())?)?;
    }
    Ok(made)
}

/// The pairs of a field: those of its type's extension, and then the others in the order of their keys.
pub fn field_pairs(
    alloc: Global,
    extension: Option<Named<'_>>,
    pairs: &Metadata,
) -> Result<Items<KeyValue>, AllocError>
    ensures { IfOk result (λ made. map pair_view made ≡ written_pairs (extension_view extension.entry) pairs.now) }
{
    let others = pairs.iter();
    let mut made = own_pairs(alloc, extension)?;
    for (key, value) in others {
        if is_other(key.as_str(), value.as_str()) {
            made.push(pair_of(alloc, key.as_str(), value.as_str())?)?;
        }
    }
    Ok(made)
}
