//! Custom metadata and the extension that a type names, laid (Schema.fbs, `KeyValue`).
ghost use Rattle.std.specs.Prelude.{◌≡◌, Some, map};
ghost use Rattle.std.specs.Option.{option_map};
ghost use Rattle.ipc_format_messages.specs.flatbuffers.Views.{Lays, piece_view, slot_view};
ghost use Rattle.ipc_format_messages.specs.flatbuffers.Objects.{piece_of};
ghost use Rattle.ipc_format_messages.specs.grammar.SchemaObjects as objects;
ghost use Rattle.ipc_format_writing.specs.Pieces as pieces;
ghost use Rattle.ipc_format_writing.specs.Pieces.{LaysIf, LaysAll, piece_if, vector_if, pair_piece, extension_view, is_kept};

use ipc_format_messages::columnar_memory::{EXTENSION_METADATA, EXTENSION_NAME, Metadata, Text};
use ipc_format_messages::flatbuffers::{Laid, LayError, Slot, lay_references, lay_table, lay_text};
use std::alloc::Global;

/// The name of an extension type, and its metadata if it has any.
#[derive(Clone, Copy, Debug)]
pub struct Named<'a> {
    pub name: &'a Text,
    pub metadata: &'a Option<Text>,
}

/// A slot that refers to an object if there is one.
pub fn optional(laid: &Option<Laid>) -> Slot<'_>
    ensures { slot_view result ≡ pieces.slot_if (option_map piece_view laid.now) }
{
    match laid {
        Some(laid) => Slot::Refers(laid),
        None => Slot::Absent,
    }
}

/// A KeyValue table.
fn lay_pair(alloc: Global, key: &str, value: &str) -> Result<Laid, LayError>
    ensures { Lays result (piece_of (objects.pair_object (key.now, value.now))) }
{
    let key = lay_text(alloc, key.as_bytes())?;
    let value = lay_text(alloc, value.as_bytes())?;
    lay_table(alloc, &[Slot::Refers(&key), Slot::Refers(&value)])
}

/// The pairs of an extension type of a name: its metadata, if it has any, and then its name.
fn lay_named(alloc: Global, name: &Text, metadata: &Option<Text>) -> Result<Vec<Laid>, LayError>
    ensures { LaysAll result (map pair_piece (objects.extension_pairs (Some (name.now, metadata.now)))) }
{
    match metadata {
        Some(metadata) => {
            let metadata = lay_pair(alloc, EXTENSION_METADATA, metadata.as_str())?;
            let name = lay_pair(alloc, EXTENSION_NAME, name.as_str())?;
            Ok(Vec::from_array(alloc, [metadata, name])?)
        }
        None => {
            let name = lay_pair(alloc, EXTENSION_NAME, name.as_str())?;
            Ok(Vec::from_array(alloc, [name])?)
        }
    }
}

/// The pairs of an extension type, if the type is one.
fn lay_extension(alloc: Global, extension: Option<Named<'_>>) -> Result<Vec<Laid>, LayError>
    ensures { LaysAll result (map pair_piece (objects.extension_pairs (extension_view extension.entry))) }
{
    match extension {
        Some(named) => lay_named(alloc, named.name, named.metadata),
        None => Ok(Vec::new(alloc)),
    }
}

/// Whether a key is none of those of an extension.
fn is_other(key: &str, value: &str) -> bool
    ensures { result ≡ is_kept (key.now, value.now) }
{
    EXTENSION_NAME != key && EXTENSION_METADATA != key
}

/// A vector of pairs, absent where there is none.
fn lay_vector_if(alloc: Global, laid: &[Laid]) -> Result<Option<Laid>, LayError>
    ensures { LaysIf result (vector_if (map piece_view laid.now)) }
{
    if laid.is_empty() {
        return Ok(None);
    }
    Ok(Some(lay_references(alloc, laid)?))
}

/// All pairs in the order of their keys.
pub fn lay_pairs(alloc: Global, pairs: &Metadata) -> Result<Option<Laid>, LayError>
    ensures { LaysIf result (piece_if (objects.metadata_object pairs.now)) }
{
    let mut laid = Vec::new(alloc);
    for (key, value) in pairs.iter() {
        laid.push(lay_pair(alloc, key.as_str(), value.as_str())?)?;
    }
    lay_vector_if(alloc, &laid)
}

/// The pairs of a field: those of its type's extension, and then the others in the order of their keys.
pub fn lay_field_pairs(
    alloc: Global,
    extension: Option<Named<'_>>,
    pairs: &Metadata,
) -> Result<Option<Laid>, LayError>
    ensures { LaysIf result (piece_if (objects.metadata_object (objects.written_pairs (extension_view extension.entry) pairs.now))) }
{
    let others = pairs.iter();
    let mut laid = lay_extension(alloc, extension)?;
    for (key, value) in others {
        if is_other(key.as_str(), value.as_str()) {
            laid.push(lay_pair(alloc, key.as_str(), value.as_str())?)?;
        }
    }
    lay_vector_if(alloc, &laid)
}
