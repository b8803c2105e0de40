//! The dictionaries that columns bring, those within a dictionary's values before it (Arrow IPC, "Dictionary Messages").
ghost use Rattle.std.specs.Prelude.{◌≡◌, map, MatchResult};
ghost use Rattle.columnar_memory_types.specs.Error.{IsOutOfMemory};
ghost use Rattle.ipc_format_batch_reading.specs.columns.StoredColumns.{in_columns};
ghost use Rattle.ipc_format_batch_reading.specs.grammar.GivenDictionaries.{given_each, given_stored};
ghost use Rattle.ipc_format_batch_reading.specs.grammar.Columns.{first_ids};
ghost use Rattle.ipc_format_batch_reading.specs.grammar.Schemas.{ids};
ghost use Rattle.ipc_format_batch_reading.specs.grammar.WrittenStreams.{given_of_stored};
ghost use Rattle.ipc_format_batch_reading.specs.metadata.Views.{ids_views};
ghost use Rattle.ipc_format_chunk_writing.specs.Found.{Finds, given_in};

use columnar_memory_types::Result;
use ipc_format_batch_reading::nested_arrays_core::{AnyArray, Node};
use ipc_format_batch_reading::{IpcField, first_beside};
use std::alloc::Global;

/// A dictionary that a column brings: its id, and its values.
#[derive(Clone, Copy)]
pub(crate) struct Found<'a> {
    pub(crate) id: i64,
    pub(crate) values: &'a AnyArray,
}

/// Adds the dictionaries of an array, by the id of its own dictionary and the ids below it. A dictionary without an id has the id 0.
#[cycle(finding)]
fn find<'a>(
    array: &'a AnyArray,
    own: Option<i64>,
    below: &[IpcField],
    found: &mut Vec<Found<'a>>,
) -> Result<()>
    ensures { Finds result found.old.items found.new.items (given_stored (ids own (ids_views below.now)) array.now) }
{
    array.whole();
    match &array.node {
        Node::Flat(flat) => {
            flat.lies();
            Ok(())
        }
        Node::List(node) => find_first(&node.values, below, found),
        Node::FixedSizeList(array) => find_first(array.values(), below, found),
        Node::Struct(array) => find_each(array.values(), below, found),
        Node::Map(array) => find_first(array.field(), below, found),
        Node::Union(array) => find_each(array.fields(), below, found),
        Node::Dictionary(node) => {
            find(&node.values, None, below, found)?;
            found.push(Found {
                id: own.unwrap_or(0),
                values: &node.values,
            })?;
            Ok(())
        }
    }
}

/// Adds the dictionaries of the only array below another.
#[cycle(finding)]
fn find_first<'a>(
    array: &'a AnyArray,
    beside: &[IpcField],
    found: &mut Vec<Found<'a>>,
) -> Result<()>
    ensures { Finds result found.old.items found.new.items (given_stored (first_ids (ids_views beside.now)) array.now) }
{
    let here = first_beside(beside);
    find(array, here.own, here.below, found)
}

/// Adds the dictionaries of arrays, one array after another.
#[cycle(finding)]
fn find_each<'a>(
    arrays: &'a [AnyArray],
    beside: &[IpcField],
    found: &mut Vec<Found<'a>>,
) -> Result<()>
    ensures { Finds result found.old.items found.new.items (given_each (ids_views beside.now) (in_columns arrays.now)) }
{
    let mut others = beside;
    for array in arrays {
        let here = first_beside(others);
        find(array, here.own, here.below, found)?;
        others = here.others;
    }
    Ok(())
}

/// The dictionaries of some columns in the order in which they are written.
///
/// # Errors
/// - `OutOfMemory`: there was no memory for the list.
pub(crate) fn dictionaries_of<'a>(
    alloc: Global,
    arrays: &'a [AnyArray],
    beside: &[IpcField],
) -> Result<Vec<Found<'a>>>
    ensures { MatchResult result (λ found. map given_in found.items ≡ given_of_stored (ids_views beside.now) arrays.now) IsOutOfMemory }
{
    let mut found = Vec::new(alloc);
    find_each(arrays, beside, &mut found)?;
    Ok(found)
}
