//! Arrays whose lengths are within those that arrays may have.
ghost use Rattle.std.specs.Prelude.{◌≡◌};
ghost use Rattle.ipc_format_batch_reading.specs.columns.StoredColumns.{in_columns};
ghost use Rattle.ipc_format_chunk_writing.specs.ShortColumns.{are_short, is_short};

use ipc_format_batch_reading::nested_arrays_core::{AnyArray, Node};

/// The most slots of an array.
const MOST_SLOTS: usize = 9_223_372_036_854_775_807;

/// Whether an array, and each array below it, has at most 2^63 - 1 slots.
#[cycle(measuring)]
fn is_short(array: &AnyArray) -> bool
    ensures { result ≡ is_short array.now }
{
    if array.len() > MOST_SLOTS {
        return false;
    }
    array.whole();
    match &array.node {
        Node::Flat(flat) => {
            flat.lies();
            true
        }
        Node::List(node) => is_short(&node.values),
        Node::FixedSizeList(array) => is_short(array.values()),
        Node::Struct(array) => are_short(array.values()),
        Node::Map(array) => is_short(array.field()),
        Node::Union(array) => are_short(array.fields()),
        Node::Dictionary(node) => is_short(&node.values),
    }
}

/// Whether each of several arrays does.
#[cycle(measuring)]
pub(crate) fn are_short(arrays: &[AnyArray]) -> bool
    ensures { result ≡ are_short (in_columns arrays.now) }
{
    match arrays.split_first() {
        None => true,
        Some((array, arrays)) => is_short(array) && are_short(arrays),
    }
}
